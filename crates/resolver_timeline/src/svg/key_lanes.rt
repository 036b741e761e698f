//! The lanes of keys.

use crate::lane::{Lane, Phase};
use crate::run::Run;
use crate::svg::marks::write_marks;
use crate::svg::page::{KEY, LEFT, Page, TOP, WIDTH, below};
use crate::track::Span;
use std::alloc::AllocError;
use std::fmt::Write;

/// Draws the lane of each key.
pub fn write_keys(out: &mut String, run: &Run, page: &Page) -> Result<(), AllocError> {
    for (place, (key, lane)) in run.lanes.iter().enumerate() {
        write_lane(out, page, *key, lane, below(TOP, place, KEY))?;
    }
    write_marks(out, page, run.marks.as_slice(), TOP - 8)
}

/// Draws the lane of a key: its phases in the lower half, and its marks in the upper one.
fn write_lane(
    out: &mut String,
    page: &Page,
    key: u8,
    lane: &Lane,
    top: u128,
) -> Result<(), AllocError> {
    let (middle, label) = (top.saturating_add(20), top.saturating_add(24));
    writeln!(
        out,
        "<path class=\"e\" d=\"M{LEFT} {middle}h{WIDTH}\"/><text class=\"l\" x=\"{}\" y=\"{label}\">key {key}</text>",
        LEFT - 10
    )?;
    for span in lane.spans() {
        if let Some((begin, end)) = page.reach(span) {
            write_phase(out, page, span, (begin, end), middle)?;
        }
    }
    write_marks(out, page, lane.marks(), top.saturating_add(7))
}

/// Draws a phase from one place to another.
fn write_phase(
    out: &mut String,
    page: &Page,
    span: &Span<Phase>,
    (begin, end): (u128, u128),
    middle: u128,
) -> Result<(), AllocError> {
    match span.is {
        Phase::Waiting => write_stroke(out, "w", (begin, end), middle),
        Phase::Retrying => write_stroke(out, "t", (begin, end), middle),
        Phase::Held => write_stroke(out, "h", (begin, end), middle),
        Phase::Asked { peer: None, .. } => write_box(out, "a p0", (begin, end), middle),
        Phase::Judged { .. } => write_box(out, "j", (begin, end), middle),
        Phase::Asked {
            peer: Some(peer),
            ..
        } => write_asked(out, page, peer, (begin, end), middle),
    }
}

/// Draws a line from one place to another.
pub fn write_stroke(
    out: &mut String,
    class: &str,
    (begin, end): (u128, u128),
    y: u128,
) -> Result<(), AllocError> {
    writeln!(out, "<path class=\"{class}\" d=\"M{begin} {y}H{end}\"/>")
}

/// Draws a bar from one place to another.
fn write_box(
    out: &mut String,
    class: &str,
    (begin, end): (u128, u128),
    middle: u128,
) -> Result<(), AllocError> {
    let (y, width) = (middle.saturating_sub(6), end.saturating_sub(begin));
    writeln!(
        out,
        "<rect class=\"{class}\" x=\"{begin}\" y=\"{y}\" width=\"{width}\" height=\"12\"/>"
    )
}

/// Draws that a peer is asked: a bar in its color, with its number where there is room.
fn write_asked(
    out: &mut String,
    page: &Page,
    peer: u8,
    (begin, end): (u128, u128),
    middle: u128,
) -> Result<(), AllocError> {
    let (color, y) = (page.color(peer), middle.saturating_sub(6));
    let width = end.saturating_sub(begin);
    writeln!(
        out,
        "<rect class=\"a p{color}\" x=\"{begin}\" y=\"{y}\" width=\"{width}\" height=\"12\"/>"
    )?;
    if width >= 22 {
        let (x, y) = (begin.saturating_add(width / 2), middle.saturating_add(4));
        writeln!(out, "<text class=\"n\" x=\"{x}\" y=\"{y}\">{peer}</text>")?;
    }
    Ok(())
}
