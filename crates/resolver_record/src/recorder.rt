//! A watcher that records.

ghost use Rattle.std.specs.Prelude.{◌≡◌, IfErr};
ghost use Rattle.resolver_base.specs.declared.fault.Fault.TheVariants.{OutOfMemory};

use crate::log::Log;
use crate::{actor, engine};
use bytes::Bytes;
use futures::channel::oneshot;
use resolver::base::{Fault, Predicate, Span, Watcher};
use resolver::{Consumer, opaque, p2p};
use std::alloc::{AllocError, Global};

/// Where the log comes once its recorder was dropped: a loop drops it as it ends.
pub type Recording<K, P, S> = oneshot::Receiver<Log<K, P, S>>;

/// A watcher that records what it is told. Where memory is refused to it, or there is no more room, it records nothing
/// more, and its log says so.
pub struct Recorder<K: Ord, P: Ord, S: Ord> {
    log: Log<K, P, S>,
    ended: oneshot::Sender<Log<K, P, S>>,
}

impl<K: Ord + Drop, P: Ord + Drop, S: Ord + Drop> Drop for Recorder<K, P, S> {
    /// Hands the log to whoever waits for it.
    fn drop(self) {
        let Self { log, ended } = self;
        drop(ended.send(log));
    }
}

/// A recorder for an engine that is made of this, with room for so many inputs, and where its log comes.
pub fn of_engine<P, D, B, C, O>(
    alloc: Global,
    cfg: &p2p::Config<P, D, B, C, O>,
    room: u64,
) -> Result<
    (
        Recorder<C::Key, P, C::Subscriber>,
        Recording<C::Key, P, C::Subscriber>,
    ),
    Fault,
>
where
    P: Ord + Clone + Drop,
    C: Consumer,
    C::Key: Drop,
    C::Subscriber: Ord + Drop,
    ensures only { IfErr result (λ fault. fault ≡ OutOfMemory) }
{
    let mut log = Log::new(alloc, room);
    open_engine(&mut log, cfg)?;
    Ok(goes_on(alloc, log)?)
}

/// The line that opens an engine.
fn open_engine<K: Ord + Drop, P: Ord + Clone + Drop, S: Ord + Drop, D, B, C, O>(
    log: &mut Log<K, P, S>,
    cfg: &p2p::Config<P, D, B, C, O>,
) -> Result<(), AllocError> {
    log.input("p2p ")?;
    match &cfg.me {
        Some(me) => log.peer(me)?,
        None => log.word("-")?,
    }
    log.word(" ")?;
    log.number(cfg.fetch_timeout)?;
    log.word(" ")?;
    log.number(cfg.fetch_retry_delay)?;
    match cfg.peer_limit {
        Some(limit) => {
            log.word(" ")?;
            log.number(u128::from(limit.get()))
        }
        None => Ok(()),
    }
}

/// A recorder for an actor that is made of this, with room for so many inputs, and where its log comes.
pub fn of_actor<F, C>(
    alloc: Global,
    cfg: &opaque::Config<F, C>,
    room: u64,
) -> Result<
    (
        Recorder<C::Key, (), C::Subscriber>,
        Recording<C::Key, (), C::Subscriber>,
    ),
    Fault,
>
where
    C: Consumer,
    C::Key: Drop,
    C::Subscriber: Ord + Drop,
    ensures only { IfErr result (λ fault. fault ≡ OutOfMemory) }
{
    let mut log = Log::new(alloc, room);
    log.input("opaque ")?;
    log.number(cfg.fetch_retry_delay)?;
    Ok(goes_on(alloc, log)?)
}

/// A recorder that goes on with this log.
fn goes_on<K: Ord + Drop, P: Ord + Drop, S: Ord + Drop>(
    alloc: Global,
    log: Log<K, P, S>,
) -> Result<(Recorder<K, P, S>, Recording<K, P, S>), AllocError> {
    let (ended, recording) = oneshot::channel(alloc)?;
    Ok((Recorder { log, ended }, recording))
}

impl<K, P, S, Q> Watcher<p2p::inputs::Input<K, P, S, Q>, p2p::effects::Effect<K, P, S>>
    for Recorder<K, P, S>
where
    K: Span + Drop,
    P: Ord + Clone + Drop,
    S: Ord + Clone + Drop,
    Q: Predicate<K, S>,
{
    fn takes(&mut self, input: &p2p::inputs::Input<K, P, S, Q>) {
        let start = self.log.pieces.len();
        if self.log.has_room() {
            let put = engine::put_input(&mut self.log, input);
            self.log.end(start, put);
        }
    }

    fn wants(&mut self, effect: &p2p::effects::Effect<K, P, S>) {
        let start = self.log.pieces.len();
        if self.log.is_whole() {
            let put = engine::put_effect(&mut self.log, effect);
            self.log.end(start, put);
        }
    }
}

impl<K, S, Q> Watcher<opaque::Input<K, Bytes, S, Q>, opaque::Effect<K, Bytes, S>>
    for Recorder<K, (), S>
where
    K: Span + Drop,
    S: Ord + Clone + Drop,
    Q: Predicate<K, S>,
{
    fn takes(&mut self, input: &opaque::Input<K, Bytes, S, Q>) {
        let start = self.log.pieces.len();
        if self.log.has_room() {
            let put = actor::put_input(&mut self.log, input);
            self.log.end(start, put);
        }
    }

    fn wants(&mut self, effect: &opaque::Effect<K, Bytes, S>) {
        let start = self.log.pieces.len();
        if self.log.is_whole() {
            let put = actor::put_effect(&mut self.log, effect);
            self.log.end(start, put);
        }
    }
}
