//! An actor over an opaque source that is opened, and one that runs.

ghost use Rattle.std.specs.Prelude.{◌≡◌, ◌<◌, ◌^◌, IfErr};
ghost use Rattle.resolver_base.specs.declared.fault.Fault.TheVariants.{OutOfMemory};

use crate::config::Config;
use crate::fetcher::Fetcher;
use crate::hands::Hands;
use crate::looping::Loop;
use resolver_base::{Faithful, Fault, Span};
use resolver_handles::resolver::Resolver;
use resolver_mailbox::mailbox;
use resolver_mailbox::mailbox::Unrecorded;
use resolver_opaque_actor::{Actor, Effect, Input};
use resolver_runtime::{Clock, Consumer, Handle, Unwatched, Watcher, start};
use resolver_types::Predicate;
use std::alloc::{AllocGlobal, Global};
use std::random::RandomSource;
use std::sync::Wait;
use std::thread::Threads;

/// An actor over a source, as a handle and a loop, for a caller that polls it in a thread of its
/// own.
pub fn open<K, V, S, P, Q, R, W, F, C>(
    rt: R,
    alloc: Global,
    clock: W,
    cfg: Config<F, C>,
) -> Result<
    (
        Resolver<K, S, P, Q, Unrecorded, R>,
        Loop<K, V, S, Q, R, W, F, C>,
    ),
    Fault,
>
where
    K: Span + Faithful + Drop,
    V: Faithful + Drop,
    S: Ord + Faithful + Drop,
    Q: Predicate<K, S> + Faithful + Drop,
    R: Copy,
    W: Clock + Drop,
    F: Fetcher<Key = K, Value = V> + Drop,
    C: Consumer<Key = K, Value = V, Subscriber = S> + Drop,
    C::Outcome: Drop,
    requires { cfg.fetch_retry_delay < 2 ^ 94 }
    ensures only { IfErr result (λ fault. fault ≡ OutOfMemory) }
{
    open_watched(rt, alloc, clock, cfg, Unwatched)
}

/// As `open`, with a loop that tells this watcher what it takes and does.
pub fn open_watched<K, V, S, P, Q, R, W, F, C, T>(
    rt: R,
    alloc: Global,
    clock: W,
    cfg: Config<F, C>,
    watcher: T,
) -> Result<
    (
        Resolver<K, S, P, Q, Unrecorded, R>,
        Loop<K, V, S, Q, R, W, F, C, T>,
    ),
    Fault,
>
where
    K: Span + Faithful + Drop,
    V: Faithful + Drop,
    S: Ord + Faithful + Drop,
    Q: Predicate<K, S> + Faithful + Drop,
    R: Copy,
    W: Clock + Drop,
    F: Fetcher<Key = K, Value = V> + Drop,
    C: Consumer<Key = K, Value = V, Subscriber = S> + Drop,
    C::Outcome: Drop,
    T: Watcher<Input<K, V, S, Q>, Effect<K, V, S>> + Drop,
    requires { cfg.fetch_retry_delay < 2 ^ 94 }
    ensures only { IfErr result (λ fault. fault ≡ OutOfMemory) }
{
    let hands = Hands::new(alloc, cfg.fetcher, cfg.consumer)?;
    let (sender, mail) = mailbox::new(rt, alloc, cfg.mailbox_size)?;
    let looped = Loop {
        actor: Actor::new(alloc, cfg.fetch_retry_delay),
        mail,
        clock,
        hands,
        watcher,
    };
    Ok((Resolver::over(alloc, sender), looped))
}

/// An actor over a source, as a handle and the thread in which its loop runs until `close` is called on a
/// handle. Dropping handles ends nothing.
///
/// `rt` gives threads, waits, memory and random numbers, and is copied into the thread.
///
/// `OutOfMemory`, the only error, is answered where memory is refused or no thread can be made: then all that
/// was lent is dropped.
pub fn init<K, V, S, P, Q, R, W, F, C>(
    rt: R,
    alloc: Global,
    clock: W,
    cfg: Config<F, C>,
) -> Result<(Resolver<K, S, P, Q, Unrecorded, R>, Handle), Fault>
where
    K: Span + Faithful + Drop + Send + 'static,
    V: Faithful + Drop + Send + 'static,
    S: Ord + Faithful + Drop + Send + 'static,
    Q: Predicate<K, S> + Faithful + Drop + Send + 'static,
    R: Threads + Wait + RandomSource + AllocGlobal + Copy + Drop + Send + 'static,
    W: Clock + Drop + Send + 'static,
    F: Fetcher<Key = K, Value = V> + Drop + Send,
    F::Future: Send + 'static,
    C: Consumer<Key = K, Value = V, Subscriber = S> + Drop + Send,
    C::Outcome: Drop + Send + 'static,
    requires { cfg.fetch_retry_delay < 2 ^ 94 }
    ensures only { IfErr result (λ fault. fault ≡ OutOfMemory) }
{
    init_watched(rt, alloc, clock, cfg, Unwatched)
}

/// As `init`, where the loop tells this watcher, in its thread, what it takes and does. The watcher is dropped with
/// the loop.
pub fn init_watched<K, V, S, P, Q, R, W, F, C, T>(
    rt: R,
    alloc: Global,
    clock: W,
    cfg: Config<F, C>,
    watcher: T,
) -> Result<(Resolver<K, S, P, Q, Unrecorded, R>, Handle), Fault>
where
    K: Span + Faithful + Drop + Send + 'static,
    V: Faithful + Drop + Send + 'static,
    S: Ord + Faithful + Drop + Send + 'static,
    Q: Predicate<K, S> + Faithful + Drop + Send + 'static,
    R: Threads + Wait + RandomSource + AllocGlobal + Copy + Drop + Send + 'static,
    W: Clock + Drop + Send + 'static,
    F: Fetcher<Key = K, Value = V> + Drop + Send,
    F::Future: Send + 'static,
    C: Consumer<Key = K, Value = V, Subscriber = S> + Drop + Send,
    C::Outcome: Drop + Send + 'static,
    T: Watcher<Input<K, V, S, Q>, Effect<K, V, S>> + Drop + Send + 'static,
    requires { cfg.fetch_retry_delay < 2 ^ 94 }
    ensures only { IfErr result (λ fault. fault ≡ OutOfMemory) }
{
    let (resolver, looped) = open_watched(rt, alloc, clock, cfg, watcher)?;
    let handle = start(rt, looped)?;
    Ok((resolver, handle))
}
