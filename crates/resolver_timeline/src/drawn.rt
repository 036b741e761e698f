//! How a run is drawn.

use crate::run::Run;
use crate::{svg, text};
use std::alloc::{AllocError, Global};

/// How a run is drawn.
#[derive(Clone, Copy, Debug, PartialEq, Eq)]
pub struct Drawn {
    /// As text for a terminal, and not as SVG.
    pub is_text: bool,
    /// By the order of its commands, and not by their moments.
    pub by_order: bool,
}

impl Drawn {
    /// A run, drawn so.
    pub fn picture(self, alloc: Global, run: &Run) -> Result<String, AllocError> {
        if self.is_text {
            text::picture(alloc, run, self.by_order)
        } else {
            svg::picture(alloc, run, self.by_order)
        }
    }
}
