//! Sources that give nothing.

ghost use Rattle.std.specs.Prelude.{◌≡◌, None};
ghost use Rattle.futures.specs.Task.{IsArmed, Keeps};
ghost use Rattle.futures.specs.declared.task.Poll.TheVariants.{Pending};

use crate::traits::blocker::Blocker;
use crate::traits::provider::Provider;
use futures::task::{Context, Poll, Source, Waker};
use resolver_base::PublicKey;
use std::marker::PhantomData;

/// A provider and a blocker that never give anything. It keeps the waker of the task that polled
/// it last, and never wakes it.
#[derive(Drop)]
pub struct Quiet<P> {
    silence: Source,
    waker: Option<Waker>,
    peers: PhantomData<P>,
}

impl<P> Quiet<P> {
    /// Nobody has polled it.
    pub fn new() -> Quiet<P>
        ensures { result.waker ≡ None }
    {
        Quiet {
            silence: Source::new(),
            waker: None,
            peers: PhantomData,
        }
    }

    /// Nothing came, and nothing will.
    fn wait<T>(&mut self, cx: &mut Context<'_>) -> Poll<T>
        ensures pending { result ≡ Pending }
        ensures armed { IsArmed cx.new }
        ensures kept { Keeps cx.old cx.new }
    {
        cx.register(&self.silence, &mut self.waker)
    }
}

impl<P: PublicKey> Provider for Quiet<P> {
    type PublicKey = P;

    fn poll_update(&mut self, cx: &mut Context<'_>) -> Poll<Option<(u64, Vec<P>)>>
        ensures pending { result ≡ Pending }
        ensures armed { IsArmed cx.new }
        ensures kept { Keeps cx.old cx.new }
    {
        self.wait(cx)
    }
}

impl<P: PublicKey> Blocker for Quiet<P> {
    type PublicKey = P;

    /// Nothing changes.
    fn block(&mut self, _peer: &P)
        ensures { self.new ≡ self.old }
    {}

    fn poll_blocked(&mut self, cx: &mut Context<'_>) -> Poll<Option<Vec<P>>>
        ensures pending { result ≡ Pending }
        ensures armed { IsArmed cx.new }
        ensures kept { Keeps cx.old cx.new }
    {
        self.wait(cx)
    }
}
