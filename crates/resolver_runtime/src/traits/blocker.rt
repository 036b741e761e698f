//! Which peers are blocked.

ghost use Rattle.futures.specs.Poll.{OnPending};
ghost use Rattle.futures.specs.Task.{IsArmed, Keeps};

use futures::task::{Context, Poll};
use resolver_base::PublicKey;

/// What blocks peers, and says which are blocked.
pub trait Blocker {
    /// How peers are named.
    type PublicKey: PublicKey;

    /// Asks for this peer to be blocked. Nothing is promised: it counts as blocked once a set lists
    /// it.
    fn block(&mut self, peer: &Self::PublicKey);

    /// All peers that are blocked, where that has changed, or none once it will change no more.
    /// Where it hasn't changed so far, the task is woken when it does.
    fn poll_blocked(&mut self, cx: &mut Context<'_>) -> Poll<Option<Vec<Self::PublicKey>>>
        ensures armed { OnPending result (IsArmed cx.new) }
        ensures kept { Keeps cx.old cx.new };
}
