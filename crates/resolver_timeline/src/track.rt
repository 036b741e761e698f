//! What something is, over a run.

use crate::at::At;
use std::alloc::{AllocError, Global};

/// A stretch of a run in which something stays what it is.
#[derive(Clone, Copy, Debug, PartialEq, Eq)]
pub struct Span<T> {
    pub begin: At,
    pub end: At,
    pub is: T,
}

/// What something is, from one place of a run on to another: its spans in their order, which may have gaps.
#[derive(Drop)]
pub struct Track<T> {
    spans: Vec<Span<T>>,
    /// What it is now, and since when.
    open: Option<(At, T)>,
}

impl<T: Copy + PartialEq + Drop> Track<T> {
    /// It is nothing so far.
    pub fn new(alloc: Global) -> Track<T> {
        Track {
            spans: Vec::new(alloc),
            open: None,
        }
    }

    /// What it is now, if it is anything.
    pub fn now(&self) -> Option<T> {
        match self.open {
            Some((_, is)) => Some(is),
            None => None,
        }
    }

    /// Since when it is what it is now.
    pub fn since(&self) -> Option<At> {
        match self.open {
            Some((since, _)) => Some(since),
            None => None,
        }
    }

    /// From here on it is this.
    pub fn begin(&mut self, at: At, is: T) -> Result<(), AllocError> {
        if self.now() == Some(is) {
            return Ok(());
        }
        self.end(at)?;
        self.open = Some((at, is));
        Ok(())
    }

    /// From here on it is nothing.
    pub fn end(&mut self, at: At) -> Result<(), AllocError> {
        if let Some((begin, is)) = self.open {
            self.spans.push(Span { begin, end: at, is })?;
            self.open = None;
        }
        Ok(())
    }

    /// The stretches that are over.
    pub fn spans(&self) -> &[Span<T>] {
        self.spans.as_slice()
    }
}
