//! Peers that are known when a node begins.

ghost use Rattle.futures.specs.Poll.{OnPending};
ghost use Rattle.futures.specs.Task.{IsArmed, Keeps};

use futures::task::{Context, Poll, Source, Waker};
use resolver_base::PublicKey;
use resolver_runtime::Provider;

/// One set of peers, of index 0. No other comes after it, and it isn't said that none will: a loop
/// whose provider ends, ends.
#[derive(Drop)]
pub struct OneSet<P> {
    set: Option<Vec<P>>,
    silence: Source,
    waker: Option<Waker>,
}

impl<P> OneSet<P> {
    /// These peers.
    pub fn new(peers: Vec<P>) -> Self {
        OneSet {
            set: Some(peers),
            silence: Source::new(),
            waker: None,
        }
    }
}

impl<P: PublicKey + Drop> Provider for OneSet<P> {
    type PublicKey = P;

    fn poll_update(&mut self, cx: &mut Context<'_>) -> Poll<Option<(u64, Vec<P>)>> {
        match self.set.take() {
            Some(peers) => Poll::Ready(Some((0, peers))),
            None => cx.register(&self.silence, &mut self.waker),
        }
    }
}
