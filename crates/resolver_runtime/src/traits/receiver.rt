//! What comes from the peers.

ghost use Rattle.futures.specs.Poll.{OnPending};
ghost use Rattle.futures.specs.Task.{IsArmed, Keeps};

use bytes::Bytes;
use futures::task::{Context, Poll};
use resolver_base::PublicKey;

/// What receives messages from peers. Nothing is promised of what they say.
pub trait Receiver {
    /// How peers are named.
    type PublicKey: PublicKey;

    /// The next message with the peer that sent it, or none once the network is closed. Where there
    /// is none so far, the task is woken when one comes.
    fn poll_recv(&mut self, cx: &mut Context<'_>) -> Poll<Option<(Self::PublicKey, Bytes)>>
        ensures armed { OnPending result (IsArmed cx.new) }
        ensures kept { Keeps cx.old cx.new };
}
