//! The marks of a lane.

use crate::mark::{Mark, What};
use crate::svg::page::Page;
use std::alloc::AllocError;
use std::fmt::Write;

/// How far apart marks stand at the least, and how many are moved aside for that.
const APART: u128 = 11;

const MOST_MOVED: u8 = 5;

/// The shapes of the marks: each by its name, around the place where it stands.
pub const SHAPES: &str = r##"<path id="v" d="M-5-4H5L0 5Z" fill="#222"/>
<path id="g" d="M-5 4H5L0-5Z" fill="#1b7f3b"/>
<path id="x" d="M-4-4L4 4M-4 4L4-4" stroke="#c1121f" stroke-width="3" fill="none"/>
<path id="r" d="M4-5V5L-5 0Z" fill="#d9731a"/>
<circle id="o" r="4.5" fill="#1b7f3b"/>
<circle id="d" r="4" fill="#fff" stroke="#555" stroke-width="1.5"/>
<path id="u" d="M-2.5-5V5M2.5-5V5" stroke="#7b3fa0" stroke-width="2" fill="none"/>
<path id="n" d="M0-5L5 0L0 5L-5 0Z" fill="#c1121f"/>
"##;

/// The name of a mark's shape.
pub fn shape_of(what: What) -> &'static str {
    match what {
        What::Delivered => "v",
        What::Credited => "g",
        What::Blocked => "x",
        What::Retried => "r",
        What::Done => "o",
        What::Dropped => "d",
        What::Postponed => "u",
        What::Refused => "n",
    }
}

/// Draws a mark.
pub fn write_mark(out: &mut String, what: What, x: u128, y: u128) -> Result<(), AllocError> {
    let shape = shape_of(what);
    writeln!(out, "<use href=\"#{shape}\" x=\"{x}\" y=\"{y}\"/>")
}

/// Draws marks side by side at this height: one that would hide the one before it is moved aside.
pub fn write_marks(
    out: &mut String,
    page: &Page,
    marks: &[Mark],
    y: u128,
) -> Result<(), AllocError> {
    let mut free: u128 = 0;
    let mut moved: u8 = 0;
    for mark in marks {
        let place = page.across(mark.at);
        moved = if place < free && moved < MOST_MOVED {
            moved.saturating_add(1)
        } else {
            0
        };
        let x = if moved > 0 { free } else { place };
        write_mark(out, mark.what, x, y)?;
        free = x.saturating_add(APART);
    }
    Ok(())
}
