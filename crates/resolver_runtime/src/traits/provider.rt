//! Which peers there are.

ghost use Rattle.futures.specs.Poll.{OnPending};
ghost use Rattle.futures.specs.Task.{IsArmed, Keeps};

use futures::task::{Context, Poll};
use resolver_base::PublicKey;

/// What gives the sets of peers, each under an index.
pub trait Provider {
    /// How peers are named.
    type PublicKey: PublicKey;

    /// The next set's index and its peers, or none once there will be no other set. Where there is
    /// none so far, the task is woken when one comes.
    fn poll_update(&mut self, cx: &mut Context<'_>) -> Poll<Option<(u64, Vec<Self::PublicKey>)>>
        ensures armed { OnPending result (IsArmed cx.new) }
        ensures kept { Keeps cx.old cx.new };
}
