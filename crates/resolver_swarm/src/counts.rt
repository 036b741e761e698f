//! What is counted in a run.

use crate::settings::Kind;
use std::alloc::{AllocError, Global};

/// How many keys a node had found right as it blocked a liar.
#[derive(Clone, Copy, Debug, PartialEq, Eq, PartialOrd, Ord)]
pub struct Blocking {
    pub keys: u16,
}

/// How often each kind of peer served a key that was found right.
#[derive(Clone, Copy, Debug, PartialEq, Eq)]
pub struct Served {
    pub sources: u64,
    pub slow: u64,
    pub fellows: u64,
    pub liars: u64,
}

impl Served {
    /// How often a kind of peer did.
    pub fn by(&self, kind: Kind) -> u64 {
        match kind {
            Kind::Source => self.sources,
            Kind::Slow => self.slow,
            Kind::Fellow => self.fellows,
            Kind::Liar => self.liars,
        }
    }

    fn add(&mut self, kind: Kind) {
        let count = match kind {
            Kind::Source => &mut self.sources,
            Kind::Slow => &mut self.slow,
            Kind::Fellow => &mut self.fellows,
            Kind::Liar => &mut self.liars,
        };
        *count = count.saturating_add(1);
    }
}

/// What is counted of all nodes together.
#[derive(Debug, Drop)]
pub struct Counts {
    /// The requests that were sent.
    pub requests: u64,
    /// The requests whose time was over.
    pub timeouts: u64,
    /// The keys that were found right.
    pub held: u64,
    /// The bytes of values that were found right, and of all values that were sent.
    pub used: u64,
    pub sent: u64,
    pub served: Served,
    /// Each blocking of a liar by a node.
    pub blockings: Vec<Blocking>,
}

impl Counts {
    /// Nothing was counted.
    pub fn new(alloc: Global) -> Counts {
        Counts {
            requests: 0,
            timeouts: 0,
            held: 0,
            used: 0,
            sent: 0,
            served: Served {
                sources: 0,
                slow: 0,
                fellows: 0,
                liars: 0,
            },
            blockings: Vec::new(alloc),
        }
    }

    /// A request was sent.
    pub fn note_request(&mut self) {
        self.requests = self.requests.saturating_add(1);
    }

    /// A request's time was over.
    pub fn note_timeout(&mut self) {
        self.timeouts = self.timeouts.saturating_add(1);
    }

    /// A value of so many bytes was sent.
    pub fn note_value(&mut self, bytes: usize) {
        self.sent = self.sent.saturating_add(bytes as u64);
    }

    /// A value of so many bytes was found right.
    pub fn note_right(&mut self, bytes: usize) {
        self.held = self.held.saturating_add(1);
        self.used = self.used.saturating_add(bytes as u64);
    }

    /// A peer of this kind earned a credit.
    pub fn note_credit(&mut self, kind: Kind) {
        self.served.add(kind);
    }

    /// A node that had so many keys blocked a peer.
    pub fn note_blocking(&mut self, keys: u16) -> Result<(), AllocError> {
        self.blockings.push(Blocking { keys })?;
        Ok(())
    }
}
