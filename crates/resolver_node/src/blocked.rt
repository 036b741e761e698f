//! The peers that an engine wants blocked.

ghost use Rattle.futures.specs.Poll.{OnPending};
ghost use Rattle.futures.specs.Task.{IsArmed, Keeps};

use futures::task::{Context, Poll, Source, Waker};
use resolver_base::PublicKey;
use resolver_runtime::Blocker;
use std::alloc::{AllocError, Global};
use std::collections::BTreeSet;

/// Blocks each peer that it is asked to block, for good, and says which they are.
///
/// A peer for which there is no memory is not blocked.
#[derive(Drop)]
pub struct Blocked<P: Ord> {
    alloc: Global,
    peers: BTreeSet<P>,
    /// Whether that was not told.
    is_changed: bool,
    changed: Source,
    waker: Option<Waker>,
}

impl<P: PublicKey> Blocked<P> {
    /// Nobody is blocked.
    pub fn new(alloc: Global) -> Self {
        Blocked {
            alloc,
            peers: BTreeSet::new(alloc),
            is_changed: false,
            changed: Source::new(),
            waker: None,
        }
    }

    /// Who is blocked.
    pub fn peers(&self) -> &BTreeSet<P> {
        &self.peers
    }

    fn insert(&mut self, peer: &P) -> Result<bool, AllocError> {
        Ok(self.peers.insert(peer.clone()?)?)
    }

    fn listed(&self) -> Result<Vec<P>, AllocError> {
        let mut listed = Vec::with_capacity(self.alloc, self.peers.len())?;
        for peer in &self.peers {
            listed.push(peer.clone()?)?;
        }
        Ok(listed)
    }
}

impl<P: PublicKey + Drop> Blocker for Blocked<P> {
    type PublicKey = P;

    fn block(&mut self, peer: &P) {
        if let Ok(true) = self.insert(peer) {
            self.is_changed = true;
            self.waker = None;
        }
    }

    fn poll_blocked(&mut self, cx: &mut Context<'_>) -> Poll<Option<Vec<P>>> {
        if !self.is_changed {
            return cx.register(&self.changed, &mut self.waker);
        }
        match self.listed() {
            Ok(peers) => {
                self.is_changed = false;
                Poll::Ready(Some(peers))
            }
            Err(_) => cx.yield_now(),
        }
    }
}
