//! A key over a run.

ghost use Rattle.std.specs.Prelude.{◌≡◌};
ghost use Rattle.resolver_timeline.specs.Lanes.{waits};

use crate::at::At;
use crate::mark::{Mark, What};
use crate::track::{Span, Track};
use std::alloc::{AllocError, Global};

/// What is being done for a key.
#[derive(Clone, Copy, Debug, PartialEq, Eq)]
pub enum Phase {
    /// It waits to be asked for the first time.
    Waiting,
    /// It was asked for in vain, and waits to be tried again.
    Retrying,
    /// It is due, and there is nobody who may be asked.
    Held,
    /// The source was asked for it, or this peer, under this number.
    Asked { peer: Option<u8>, number: u64 },
    /// A response was handed out under this number, and has no verdict yet.
    Judged { number: u64 },
}

impl Phase {
    /// Whether the key waits.
    pub fn waits(self) -> bool
        ensures { result ≡ waits self }
    {
        matches!(self, Phase::Waiting | Phase::Retrying | Phase::Held)
    }
}

/// A key that is wanted, and what is done for it.
#[derive(Clone, Copy, Debug, PartialEq, Eq)]
pub struct State {
    pub key: u8,
    pub phase: Phase,
}

/// A key over a run: its phases, and what happened to it.
#[derive(Drop)]
pub struct Lane {
    track: Track<Phase>,
    marks: Vec<Mark>,
    /// The last step after which it was wanted.
    seen: u64,
}

impl Lane {
    /// A key that nobody wants so far.
    pub fn new(alloc: Global) -> Lane {
        Lane {
            track: Track::new(alloc),
            marks: Vec::new(alloc),
            seen: 0,
        }
    }

    /// Its phases, in their order.
    pub fn spans(&self) -> &[Span<Phase>] {
        self.track.spans()
    }

    /// What happened to it, in its order.
    pub fn marks(&self) -> &[Mark] {
        self.marks.as_slice()
    }

    /// What is being done for it now, if it is wanted.
    pub fn now(&self) -> Option<Phase> {
        self.track.now()
    }

    /// Since when that is done.
    pub fn since(&self) -> Option<At> {
        self.track.since()
    }

    /// Something happened to it.
    pub fn mark(&mut self, at: At, what: What) -> Result<(), AllocError> {
        Ok(self.marks.push(Mark { at, what })?)
    }

    /// After this step this is being done for it.
    pub fn take(&mut self, at: At, phase: Phase) -> Result<(), AllocError> {
        self.seen = at.line;
        let was_tried = self.now().is_some_and(|before| !before.waits());
        if was_tried && phase.waits() {
            self.mark(at, What::Retried)?;
        }
        self.track.begin(at, phase)
    }

    /// Ends it where it is not among what is wanted after this step.
    pub fn leave(&mut self, at: At, is_resolved: bool) -> Result<(), AllocError> {
        let Some(before) = self.now() else {
            return Ok(());
        };
        if self.seen == at.line {
            return Ok(());
        }
        let is_judged = matches!(before, Phase::Judged { .. });
        let what = if is_judged && is_resolved {
            What::Done
        } else {
            What::Dropped
        };
        self.mark(at, what)?;
        self.track.end(at)
    }

    /// The run is over.
    pub fn close(&mut self, at: At) -> Result<(), AllocError> {
        self.track.end(at)
    }
}
