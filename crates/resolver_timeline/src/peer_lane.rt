//! A peer over a run.

ghost use Rattle.std.specs.Prelude.{◌≡◌};
ghost use Rattle.resolver_timeline.specs.Lanes.{is_full, standing_of};

use crate::at::At;
use crate::mark::{Mark, What};
use crate::track::{Span, Track};
use resolver_sampling::score::Score;
use std::alloc::{AllocError, Global};

/// Whether a peer of the latest set may be asked.
#[derive(Clone, Copy, Debug, PartialEq, Eq)]
pub enum Standing {
    /// It may be asked.
    Free,
    /// It has as many requests as one peer may have.
    Full,
    /// It is blocked.
    Blocked,
}

/// What a peer of the latest set is worth.
#[derive(Clone, Copy, Debug, PartialEq, Eq)]
pub struct Worth {
    /// Its useful bytes a second, and one more: with this it is drawn where it is free.
    pub weight: u64,
    pub standing: Standing,
}

/// A peer over a run: what it was worth, and what happened to it.
#[derive(Drop)]
pub struct PeerLane {
    track: Track<Worth>,
    marks: Vec<Mark>,
    /// How fast it has been, while it is in the set.
    score: Option<Score>,
    is_blocked: bool,
    /// How many requests it has without an answer.
    load: u32,
}

impl PeerLane {
    /// A peer that is not in the set so far.
    pub fn new(alloc: Global) -> PeerLane {
        PeerLane {
            track: Track::new(alloc),
            marks: Vec::new(alloc),
            score: None,
            is_blocked: false,
            load: 0,
        }
    }

    /// What it was worth, in its order.
    pub fn spans(&self) -> &[Span<Worth>] {
        self.track.spans()
    }

    /// What happened to it, in its order.
    pub fn marks(&self) -> &[Mark] {
        self.marks.as_slice()
    }

    /// The most that it weighed.
    pub fn most(&self) -> u64 {
        let weights = self.spans().iter().map(|span| span.is.weight);
        weights.max().unwrap_or(0)
    }

    /// Whether there is anything to draw of it.
    pub fn is_drawn(&self) -> bool {
        !self.spans().is_empty() || !self.marks.is_empty()
    }

    /// Something happened to it.
    pub fn mark(&mut self, at: At, what: What) -> Result<(), AllocError> {
        Ok(self.marks.push(Mark { at, what })?)
    }

    /// Whether the latest set has it. One that stays keeps its score, and one that comes has none.
    pub fn set_known(&mut self, is_known: bool) {
        if !is_known {
            self.score = None;
        } else if self.score.is_none() {
            self.score = Some(Score::default());
        }
    }

    /// Whether it is blocked.
    pub fn set_blocked(&mut self, is_blocked: bool) {
        self.is_blocked = is_blocked;
    }

    /// How many requests it has without an answer.
    pub fn set_load(&mut self, load: u32) {
        self.load = load;
    }

    /// Takes in how long a request took, in nanoseconds, and how many useful bytes it gave.
    pub fn observe(&mut self, elapsed: u128, bytes: u64) {
        if let Some(score) = &mut self.score {
            score.record(elapsed, bytes);
        }
    }

    /// What it is worth now, where one peer may have so many requests, if the set has it.
    fn worth(&self, limit: Option<u32>) -> Option<Worth> {
        let weight = self.score?.weight();
        let standing = standing_of(self.is_blocked, self.load, limit);
        Some(Worth { weight, standing })
    }

    /// Notes what it is worth after a step.
    pub fn note(&mut self, at: At, limit: Option<u32>) -> Result<(), AllocError> {
        match self.worth(limit) {
            Some(worth) => self.track.begin(at, worth),
            None => self.track.end(at),
        }
    }

    /// The run is over.
    pub fn close(&mut self, at: At) -> Result<(), AllocError> {
        self.track.end(at)
    }
}

/// How a peer stands that has so many requests, where one may have at most so many, if that is limited.
fn standing_of(is_blocked: bool, load: u32, limit: Option<u32>) -> Standing
    ensures { result ≡ standing_of is_blocked load limit }
{
    if is_blocked {
        Standing::Blocked
    } else if is_full(load, limit) {
        Standing::Full
    } else {
        Standing::Free
    }
}

/// Whether a peer has as many requests as one may have, if that is limited.
fn is_full(load: u32, limit: Option<u32>) -> bool
    ensures { result ≡ is_full load limit }
{
    match limit {
        Some(most) => load >= most,
        None => false,
    }
}
