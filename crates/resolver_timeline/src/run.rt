//! What happened in a run.

use crate::at::At;
use crate::lane::{Lane, Phase, State};
use crate::mark::{Mark, What};
use crate::peer_lane::PeerLane;
use crate::track::Span;
use std::alloc::{AllocError, Global};
use std::collections::BTreeMap;

/// Which machine a script feeds.
#[derive(Clone, Copy, Debug, PartialEq, Eq)]
pub enum Kind {
    /// The actor, which fetches from an opaque source.
    Opaque,
    /// The engine, which fetches from peers, where one peer may have so many requests.
    Peers { me: Option<u8>, limit: Option<u32> },
}

/// What happened in a run: a lane for each key and for each peer, and what happened to none of them.
#[derive(Drop)]
pub struct Run {
    alloc: Global,
    pub kind: Kind,
    pub lanes: BTreeMap<u8, Lane>,
    pub peers: BTreeMap<u8, PeerLane>,
    pub marks: Vec<Mark>,
    /// Where the machine was fed first, and where the script ends.
    pub first: Option<At>,
    pub last: At,
    /// Whether a moment came before an earlier one.
    pub goes_back: bool,
}

impl Run {
    /// A run in which nothing happened.
    pub fn new(alloc: Global) -> Run {
        Run {
            alloc,
            kind: Kind::Opaque,
            lanes: BTreeMap::new(alloc),
            peers: BTreeMap::new(alloc),
            marks: Vec::new(alloc),
            first: None,
            last: At::START,
            goes_back: false,
        }
    }

    /// How many requests one peer may have, where that is limited.
    pub fn limit(&self) -> Option<u32> {
        match self.kind {
            Kind::Peers { limit, .. } => limit,
            Kind::Opaque => None,
        }
    }

    /// The local peer, if there is one. It is asked for nothing.
    pub fn me(&self) -> Option<u8> {
        match self.kind {
            Kind::Peers { me, .. } => me,
            Kind::Opaque => None,
        }
    }

    /// The lane of a key, which is made where there is none.
    pub fn lane(&mut self, key: u8) -> Result<&mut Lane, AllocError> {
        let alloc = self.alloc;
        Ok(self.lanes.entry(key)?.or_insert_with(|| Lane::new(alloc)))
    }

    /// The lane of a peer, which is made where there is none.
    pub fn peer(&mut self, peer: u8) -> Result<&mut PeerLane, AllocError> {
        let alloc = self.alloc;
        Ok(
            self.peers
                .entry(peer)?
                .or_insert_with(|| PeerLane::new(alloc)),
        )
    }

    /// Something happened to no key and no peer.
    pub fn mark(&mut self, at: At, what: What) -> Result<(), AllocError> {
        Ok(self.marks.push(Mark { at, what })?)
    }

    /// The machine was fed here.
    pub fn reach(&mut self, at: At) {
        if self.first.is_none() {
            self.first = Some(at);
        } else if at.moment < self.last.moment {
            self.goes_back = true;
        }
        self.last = at;
    }

    /// The peers of this set are known from here on, and no others.
    pub fn reconcile(&mut self, peers: &[u8]) -> Result<(), AllocError> {
        for (name, lane) in self.peers.iter_mut() {
            if !peers.contains(name) {
                lane.set_known(false);
            }
        }
        let me = self.me();
        for name in peers.iter().filter(|name| me != Some(**name)) {
            self.peer(*name)?.set_known(true);
        }
        Ok(())
    }

    /// These peers are blocked from here on, and no others.
    pub fn block(&mut self, peers: &[u8]) -> Result<(), AllocError> {
        for lane in self.peers.values_mut() {
            lane.set_blocked(false);
        }
        for name in peers {
            self.peer(*name)?.set_blocked(true);
        }
        Ok(())
    }
}

impl Run {
    /// Notes what each peer is worth after a step that left the keys so.
    pub fn note_loads(&mut self, at: At, states: &[State]) -> Result<(), AllocError> {
        let mut loads = [0u32; 256];
        for state in states {
            if let Phase::Asked {
                peer: Some(peer),
                ..
            } = state.phase
            {
                let load = &mut loads[usize::from(peer)];
                *load = load.saturating_add(1);
            }
        }
        let limit = self.limit();
        for (name, lane) in self.peers.iter_mut() {
            lane.set_load(loads[usize::from(*name)]);
            lane.note(at, limit)?;
        }
        Ok(())
    }

    /// The script ends here.
    pub fn close(&mut self, at: At) -> Result<(), AllocError> {
        self.reach(at);
        for lane in self.lanes.values_mut() {
            lane.close(at)?;
        }
        for lane in self.peers.values_mut() {
            lane.close(at)?;
        }
        Ok(())
    }
}

impl Run {
    /// The peers that were asked for a key, in their order.
    pub fn asked_peers(&self, alloc: Global) -> Result<Vec<u8>, AllocError> {
        let mut was_asked = [false; 256];
        for lane in self.lanes.values() {
            note_asked(&mut was_asked, lane.spans());
        }
        (0..=u8::MAX)
            .filter(|peer| was_asked[usize::from(*peer)])
            .collect(alloc)
    }
}

/// Notes the peers that were asked in these spans.
fn note_asked(was_asked: &mut [bool; 256], spans: &[Span<Phase>]) {
    for span in spans {
        if let Phase::Asked {
            peer: Some(peer),
            ..
        } = span.is
        {
            was_asked[usize::from(peer)] = true;
        }
    }
}
