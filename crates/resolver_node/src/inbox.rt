//! Messages from peers, and sets of peers, over a channel.

ghost use Rattle.futures.specs.Poll.{OnPending};
ghost use Rattle.futures.specs.Task.{IsArmed, Keeps};

use bytes::Bytes;
use futures::Stream;
use futures::channel::mpsc::UnboundedReceiver;
use futures::task::{Context, Poll};
use resolver_base::PublicKey;
use resolver_runtime::{Provider, Receiver};

/// What a node reads from its connections and puts into a channel, each message with the peer that
/// sent it. The network is closed once no sender of the channel is left.
#[derive(Drop)]
pub struct Inbox<P> {
    messages: UnboundedReceiver<(P, Bytes)>,
}

impl<P> Inbox<P> {
    /// The end of this channel.
    pub fn new(messages: UnboundedReceiver<(P, Bytes)>) -> Self {
        Inbox { messages }
    }
}

impl<P: PublicKey + Drop> Receiver for Inbox<P> {
    type PublicKey = P;

    fn poll_recv(&mut self, cx: &mut Context<'_>) -> Poll<Option<(P, Bytes)>> {
        self.messages.poll_next(cx)
    }
}

/// Sets of peers that a node puts into a channel, each under its index.
#[derive(Drop)]
pub struct Sets<P> {
    sets: UnboundedReceiver<(u64, Vec<P>)>,
}

impl<P> Sets<P> {
    /// The end of this channel.
    pub fn new(sets: UnboundedReceiver<(u64, Vec<P>)>) -> Self {
        Sets { sets }
    }
}

impl<P: PublicKey + Drop> Provider for Sets<P> {
    type PublicKey = P;

    fn poll_update(&mut self, cx: &mut Context<'_>) -> Poll<Option<(u64, Vec<P>)>> {
        self.sets.poll_next(cx)
    }
}
