//! An engine that runs.

ghost use Rattle.std.specs.Prelude.{◌≡◌, IfErr, IfOk};
ghost use Rattle.resolver_base.specs.declared.fault.Fault.TheVariants.{OutOfMemory};

use crate::p2p::engine::Engine;
use bytes::Bytes;
use futures::Future;
use resolver_base::{Draws, Faithful, Fault, PublicKey, Sender, Span};
use resolver_model_peer::effects::Effect;
use resolver_model_peer::inputs::Input;
use resolver_runtime::{
    Blocker, Clock, Consumer, Ending, Handle, Producer, Provider, Receiver, Watcher, start,
};
use resolver_types::Predicate;
use std::alloc::AllocGlobal;
use std::random::RandomSource;
use std::sync::Wait;
use std::thread::Threads;

impl<
    P: PublicKey + Faithful + Drop + Send + 'static,
    D: Provider<PublicKey = P> + Drop + Send + 'static,
    B: Blocker<PublicKey = P> + Drop + Send + 'static,
    K: Span + Faithful + Drop + Send + 'static,
    S: Ord + Faithful + Drop + Send + 'static,
    C: Consumer<Key = K, Value = Bytes, Subscriber = S> + Drop + Send,
    O: Producer<Key = K> + Drop + Send,
    Q: Predicate<K, S> + Faithful + Drop + Send + 'static,
    R: Threads + Wait + RandomSource + AllocGlobal + Copy + Drop + Send + 'static,
> Engine<P, D, B, K, S, C, O, Q, R> {
    /// Runs the engine over this network (the way to the peers, and what comes from them), clock and source
    /// of draws, in a thread of its own: until `close` is called on a handle of its mailbox, the source of peer sets or the
    /// network is closed, or memory or numbers are refused. `Handle::join` waits for that and says which it was.
    ///
    /// `OutOfMemory`, the only error, is answered where memory is refused or no thread can be made. Then all
    /// is dropped, and the mailbox stays open: what is put into it is never taken.
    pub fn start<X, Y, W, G>(self, network: (X, Y), clock: W, draws: G) -> Result<Handle, Fault>
    where
        X: Sender<PublicKey = P> + Drop + Send + 'static,
        Y: Receiver<PublicKey = P> + Drop + Send + 'static,
        W: Clock + Drop + Send + 'static,
        G: Draws + Drop + Send + 'static,
        C::Outcome: Drop + Send + 'static,
        ensures only { IfErr result (λ fault. fault ≡ OutOfMemory) }
    {
        let rt = self.rt;
        start_made(rt, self.into_loop(network, clock, draws))
    }

    /// As `start`, where the loop tells this watcher, in its thread, what it takes and does. The watcher is dropped
    /// with the loop.
    pub fn start_watched<X, Y, W, G, T>(
        self,
        network: (X, Y),
        clock: W,
        draws: G,
        watcher: T,
    ) -> Result<Handle, Fault>
    where
        X: Sender<PublicKey = P> + Drop + Send + 'static,
        Y: Receiver<PublicKey = P> + Drop + Send + 'static,
        W: Clock + Drop + Send + 'static,
        G: Draws + Drop + Send + 'static,
        C::Outcome: Drop + Send + 'static,
        T: Watcher<Input<K, P, S, Q>, Effect<K, P, S>> + Drop + Send + 'static,
        ensures only { IfErr result (λ fault. fault ≡ OutOfMemory) }
    {
        let rt = self.rt;
        start_made(rt, self.into_watched_loop(network, clock, draws, watcher))
    }
}

/// Starts a loop, if it was made.
fn start_made<R, F>(rt: R, made: Result<F, Fault>) -> Result<Handle, Fault>
where
    R: Threads + Wait + RandomSource + AllocGlobal + Copy + Drop + Send + 'static,
    F: Future<Output = Ending> + Drop + Send + 'static,
    requires can_poll { IfOk made F.can_poll }
    requires only { IfErr made (λ fault. fault ≡ OutOfMemory) }
    ensures only { IfErr result (λ fault. fault ≡ OutOfMemory) }
{
    match made {
        Ok(looped) => start(rt, looped),
        Err(fault) => Err(fault),
    }
}
