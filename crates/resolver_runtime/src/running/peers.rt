//! The sources of peers.

ghost use Rattle.std.specs.Prelude.{◌≡◌, true};
ghost use Rattle.futures.specs.Poll.{OnPending};
ghost use Rattle.futures.specs.Task.{IsArmed, Keeps};

use crate::{Blocker, Provider};
use futures::task::{Context, Poll};

/// What gives the sets of peers, and what blocks peers. Once the blocked set changes no more, it
/// isn't asked for again.
///
/// Contracts see the two, and whether the blocked set may still change.
#[derive(Drop)]
pub struct Peers<D, B> {
    provider: D,
    blocker: B,
    is_changing: bool,
}

impl<D, B> Peers<D, B> {
    /// The blocked set may change.
    pub fn new(provider: D, blocker: B) -> Self
        ensures { result.is_changing ≡ true }
    {
        Peers {
            provider,
            blocker,
            is_changing: true,
        }
    }
}

impl<D: Provider, B: Blocker> Peers<D, B> {
    /// The next set of peers with its index, or none once there will be no other.
    pub fn poll_set(&mut self, cx: &mut Context<'_>) -> Poll<Option<(u64, Vec<D::PublicKey>)>>
        ensures changing { self.new.is_changing ≡ self.old.is_changing }
        ensures armed { OnPending result (IsArmed cx.new) }
        ensures kept { Keeps cx.old cx.new }
    {
        self.provider.poll_update(cx)
    }

    /// All peers that are blocked, where that has changed. Where it hasn't so far, the task is woken
    /// when it does; where it will change no more, nothing wakes it.
    pub fn poll_blocked(&mut self, cx: &mut Context<'_>) -> Poll<Vec<B::PublicKey>>
        ensures armed { OnPending result (self.new.is_changing ≡ true → IsArmed cx.new) }
        ensures kept { Keeps cx.old cx.new }
    {
        if !self.is_changing {
            return Poll::Pending;
        }
        match self.blocker.poll_blocked(cx) {
            Poll::Ready(Some(peers)) => Poll::Ready(peers),
            Poll::Ready(None) => {
                self.is_changing = false;
                Poll::Pending
            }
            Poll::Pending => Poll::Pending,
        }
    }

    /// Asks for this peer to be blocked.
    pub fn block(&mut self, peer: &B::PublicKey)
        ensures { self.new.is_changing ≡ self.old.is_changing }
    {
        self.blocker.block(peer);
    }
}
