//! A picture of a sweep, as SVG: how long the fellows took against the number that differed.

use std::alloc::{AllocError, Global};
use std::fmt::Write;

/// How long the fellows took with a number, in milliseconds, where all had all keys.
#[derive(Clone, Copy, Debug)]
pub struct Point {
    pub number: u64,
    pub median: Option<u128>,
    pub slowest: Option<u128>,
}

/// What lies between the borders of the picture, in its units.
const LEFT: u128 = 80;

const TOP: u128 = 50;

const WIDTH: u128 = 540;

const HEIGHT: u128 = 300;

/// How many lines cross the picture, each with its label.
const LINES: u128 = 5;

const HEAD: &str =
    "<svg xmlns=\"http://www.w3.org/2000/svg\" viewBox=\"0 0 680 420\" font-family=\"sans-serif\" font-size=\"13\">
<rect width=\"680\" height=\"420\" fill=\"white\"/>
";

/// The picture of these points, which lie beside one another in their order. Its name is that of the number.
pub fn picture(alloc: Global, name: &str, points: &[Point]) -> Result<String, AllocError> {
    let mut out = String::from_str(alloc, HEAD)?;
    let top = top_of(points);
    write_axes(&mut out, name, top)?;
    write_labels(&mut out, points)?;
    write_curve(&mut out, points, top, true)?;
    write_curve(&mut out, points, top, false)?;
    write_legend(&mut out)?;
    out.push_str("</svg>\n")?;
    Ok(out)
}

/// The number at the upper border: a multiple of the number of lines, above 0, that no point is above.
fn top_of(points: &[Point]) -> u128 {
    let all = points.iter().filter_map(|point| point.slowest);
    let most = all.fold(1, |most: u128, slowest| most.max(slowest));
    (most / LINES).saturating_add(1).saturating_mul(LINES)
}

/// How far from the left a point of this place is.
fn across(place: usize, count: usize) -> u128 {
    let (place, count) = (place as u128, count as u128);
    LEFT + WIDTH * (2 * place + 1) / (2 * count.max(1))
}

/// How far from above a number of milliseconds is.
fn down(milliseconds: u128, top: u128) -> u128 {
    let part = HEIGHT.saturating_mul(milliseconds) / top.max(1);
    (TOP + HEIGHT).saturating_sub(part)
}

/// The lines that cross the picture with their labels, and what the axes are.
fn write_axes(out: &mut String, name: &str, top: u128) -> Result<(), AllocError> {
    for line in 0..=5u8 {
        let milliseconds = (top / LINES).saturating_mul(u128::from(line));
        let y = down(milliseconds, top);
        let (right, label) = (LEFT + WIDTH, y.saturating_add(4));
        writeln!(
            out,
            "<line x1=\"{LEFT}\" y1=\"{y}\" x2=\"{right}\" y2=\"{y}\" stroke=\"#ddd\"/>"
        )?;
        writeln!(
            out,
            "<text x=\"72\" y=\"{label}\" text-anchor=\"end\">{milliseconds}</text>"
        )?;
    }
    writeln!(
        out,
        "<text x=\"350\" y=\"400\" text-anchor=\"middle\">{name}</text>"
    )?;
    writeln!(
        out,
        "<text x=\"20\" y=\"200\" text-anchor=\"middle\" transform=\"rotate(-90 20 200)\">time to sync in ms</text>"
    )
}

/// The numbers below the picture.
fn write_labels(out: &mut String, points: &[Point]) -> Result<(), AllocError> {
    for (place, point) in points.iter().enumerate() {
        let (x, number) = (across(place, points.len()), point.number);
        writeln!(
            out,
            "<text x=\"{x}\" y=\"372\" text-anchor=\"middle\">{number}</text>"
        )?;
    }
    Ok(())
}

/// The points of the slowest node, or of the median, and the lines between those that stand beside one another.
fn write_curve(
    out: &mut String,
    points: &[Point],
    top: u128,
    is_slowest: bool,
) -> Result<(), AllocError> {
    let color = if is_slowest { "#c33" } else { "#36c" };
    let mut last: Option<(u128, u128)> = None;
    for (place, point) in points.iter().enumerate() {
        let shown = if is_slowest {
            point.slowest
        } else {
            point.median
        };
        let Some(milliseconds) = shown else {
            last = None;
            continue;
        };
        let (x, y) = (across(place, points.len()), down(milliseconds, top));
        if let Some((a, b)) = last {
            writeln!(
                out,
                "<line x1=\"{a}\" y1=\"{b}\" x2=\"{x}\" y2=\"{y}\" stroke=\"{color}\" stroke-width=\"2\"/>"
            )?;
        }
        writeln!(
            out,
            "<circle cx=\"{x}\" cy=\"{y}\" r=\"4\" fill=\"{color}\"/>"
        )?;
        last = Some((x, y));
    }
    Ok(())
}

/// What the colors are.
fn write_legend(out: &mut String) -> Result<(), AllocError> {
    out.push_str(
        "<circle cx=\"90\" cy=\"24\" r=\"4\" fill=\"#c33\"/><text x=\"102\" y=\"28\">slowest node</text>\n",
    )?;
    out.push_str(
        "<circle cx=\"220\" cy=\"24\" r=\"4\" fill=\"#36c\"/><text x=\"232\" y=\"28\">median</text>\n",
    )
}
