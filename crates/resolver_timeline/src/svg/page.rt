//! Where things stand in a picture.

use crate::at::At;
use crate::axis::Axis;
use crate::run::Run;
use crate::track::Span;
use crate::weights::height_of;
use std::alloc::{AllocError, Global};

/// Where the lanes begin, and how wide they are.
pub const LEFT: u128 = 84;

pub const WIDTH: u128 = 830;

/// How wide the whole picture is.
pub const WHOLE: u128 = 1000;

/// How high a key's lane is, and a peer's.
pub const KEY: u128 = 30;

pub const PEER: u128 = 44;

/// Where the first key's lane begins.
pub const TOP: u128 = 136;

/// What stands where in a picture.
#[derive(Drop)]
pub struct Page {
    pub axis: Axis,
    /// The peers that have a color: those that are drawn.
    names: Vec<u8>,
    /// Where the first peer's lane begins, and where the last lane ends.
    pub peers: u128,
    pub end: u128,
    /// The height of the greatest weight, in the units of `height_of`.
    most: u64,
}

impl Page {
    /// The page of a run.
    pub fn of(alloc: Global, run: &Run, by_order: bool) -> Result<Page, AllocError> {
        let mut names = Vec::new(alloc);
        for (name, lane) in run.peers.iter() {
            if lane.is_drawn() {
                names.push(*name)?;
            }
        }
        let keys = run.lanes.len().max(1);
        let gap = if names.is_empty() { 0 } else { 46 };
        let peers = below(TOP, keys, KEY).saturating_add(gap);
        let end = below(peers, names.len(), PEER);
        Ok(Page {
            axis: Axis::of(run, WIDTH, by_order),
            names,
            peers,
            end,
            most: most_height(run),
        })
    }

    /// How high the whole picture is.
    pub fn height(&self) -> u128 {
        self.end.saturating_add(34)
    }

    /// Where the lanes of the keys end.
    pub fn keys_end(&self) -> u128 {
        if self.names.is_empty() {
            self.end
        } else {
            self.peers.saturating_sub(46)
        }
    }

    /// How far from the left something is.
    pub fn across(&self, at: At) -> u128 {
        LEFT.saturating_add(self.axis.place(at))
    }

    /// From where to where a span is drawn, if it takes any time: over one unit at least.
    pub fn reach<T>(&self, span: &Span<T>) -> Option<(u128, u128)> {
        let has_length = if self.axis.is_timed {
            span.begin.moment < span.end.moment
        } else {
            span.begin.line < span.end.line
        };
        let (begin, end) = (self.across(span.begin), self.across(span.end));
        if has_length {
            Some((begin, end.max(begin.saturating_add(1))))
        } else {
            None
        }
    }

    /// The number of a peer's color: below ten.
    pub fn color(&self, peer: u8) -> usize {
        let place = self.names.iter().position(|name| *name == peer);
        place.unwrap_or(0) % 10
    }

    /// Whether peers are drawn.
    pub fn has_peers(&self) -> bool {
        !self.names.is_empty()
    }

    /// How high a weight is drawn.
    pub fn high(&self, weight: u64) -> u128 {
        let room = PEER.saturating_sub(16);
        let part = room.saturating_mul(u128::from(height_of(weight)));
        (part / u128::from(self.most.max(1))).max(2).min(room)
    }
}

/// The height of the greatest weight of a run.
fn most_height(run: &Run) -> u64 {
    let mut most = 1;
    for lane in run.peers.values() {
        most = most.max(height_of(lane.most()));
    }
    most
}

/// Where the lane begins that has so many before it, each so high.
pub fn below(top: u128, count: usize, height: u128) -> u128 {
    top.saturating_add((count as u128).saturating_mul(height))
}
