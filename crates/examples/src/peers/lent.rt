//! What the engines are lent besides.

use crate::peers::network::{Peer, Seen, Told};
use futures::task::{Context, Poll};
use resolver::base::{Blocker, Clock, Draws, Provider};
use resolver::p2p::mocks::Quiet;
use std::alloc::Global;

/// Blocks the peer that it is asked to block, and tells.
#[derive(Drop)]
pub struct Guard {
    pub alloc: Global,
    pub told: Told,
    pub blocked: Option<Peer>,
    pub rest: Quiet<Peer>,
}

impl Blocker for Guard {
    type PublicKey = Peer;

    fn block(&mut self, peer: &Peer) {
        let _ = self.told.unbounded_send(Seen::Blocked(*peer));
        self.blocked = Some(*peer);
    }

    fn poll_blocked(&mut self, cx: &mut Context<'_>) -> Poll<Option<Vec<Peer>>> {
        match self.blocked.take() {
            Some(peer) => Poll::Ready(Vec::from_slice(self.alloc, &[peer]).ok()),
            None => self.rest.poll_blocked(cx),
        }
    }
}

/// A clock that comes at once to each moment that is 100 nanoseconds away, and to none that is later.
#[derive(Drop)]
pub struct Hasty {
    pub now: u64,
    pub rest: Quiet<Peer>,
}

impl Clock for Hasty {
    fn now(&self) -> u128 {
        u128::from(self.now)
    }

    fn poll_until(&mut self, cx: &mut Context<'_>, moment: u128) -> Poll<()> {
        let near = self.now.saturating_add(100);
        if moment > u128::from(near) {
            return self.rest.poll_update(cx).map(|_| ());
        }
        self.now = near;
        Poll::Ready(())
    }
}

/// Draws the least number.
#[derive(Clone, Copy)]
pub struct First;

impl Draws for First {
    fn below(&mut self, _: u128) -> u128 {
        0
    }
}
