//! One line of a picture in text.

use std::alloc::AllocError;
use std::fmt::Write;
use std::str;

/// How many columns a lane has.
pub const COLUMNS: usize = 72;

/// How far from its place a mark may stand, where others stand there.
const REACH: usize = 6;

/// One line of a lane.
#[derive(Drop)]
pub struct Strip {
    cells: [u8; COLUMNS],
}

impl Strip {
    /// An empty line.
    pub fn new() -> Strip {
        Strip {
            cells: [b' '; COLUMNS],
        }
    }

    /// Fills the cells from one column on up to another.
    pub fn fill(&mut self, begin: usize, end: usize, sign: u8) {
        let count = end.saturating_sub(begin);
        for cell in self.cells.iter_mut().skip(begin).take(count) {
            *cell = sign;
        }
    }

    /// Writes a sign at a column, or a little behind or before it where others stand.
    pub fn put(&mut self, column: usize, sign: u8) {
        if let Some(free) = self.free_near(column) {
            self.fill(free, free.saturating_add(1), sign);
        }
    }

    /// The first column from this one on in which nothing stands, or else before it, if there is one near.
    fn free_near(&self, column: usize) -> Option<usize> {
        let behind = column..column.saturating_add(REACH);
        let before = (column.saturating_sub(REACH)..column).rev();
        behind
            .chain(before)
            .find(|place| self.cells.get(*place) == Some(&b' '))
    }

    /// Writes a label from a column on.
    pub fn label(&mut self, begin: usize, label: &[u8]) {
        for (cell, byte) in self.cells.iter_mut().skip(begin).zip(label) {
            *cell = *byte;
        }
    }
}

/// Writes a line behind its name.
pub fn write_line(out: &mut String, name: &str, strip: &Strip) -> Result<(), AllocError> {
    let text = str::from_utf8(&strip.cells).unwrap_or("");
    let shown = text.trim_end();
    writeln!(out, "{name:<10}{shown}")
}
