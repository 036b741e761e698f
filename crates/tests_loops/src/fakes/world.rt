//! An engine's loop in memory, and what its test holds of it. `Q` is the predicate by which subscribers are let go.

use bytes::Bytes;
use futures::channel::{mpsc, oneshot};
use futures::task::Poll;
use futures::test::MockTask;
use resolver::p2p::effects::Effect;
use resolver::p2p::inputs::Input;
use resolver::p2p::{Config, Engine, Loop, Mailbox};
use resolver_base::{Faithful, Fault, Seeded};
use resolver_mailbox::mailbox::Unrecorded;
use resolver_mailbox::mocks::Key;
use resolver_runtime::{Ending, Handle, Unwatched, Watcher};
use resolver_types::{Outcome, Predicate};
use std::alloc::{AllocGlobal, Global};
use std::num::{NonZeroU32, NonZeroUsize};
use std::random::RandomSource;
use std::sync::{Arc, Wait};
use std::thread::Threads;
use tests_support::lent::{Dice, Given, Judge, Store, Wire, make_judge};
use tests_support::names::Peer;
use tests_support::polling::Polled;
use tests_support::seen::{Seen, Told, Wrong};
use tests_support::watch::{Standing, Watch};

/// What differs between worlds.
#[derive(Clone, Copy, Debug)]
pub struct Setting {
    /// How the engine is called.
    pub me: u8,
    pub wrong: Wrong,
    /// What its draws follow from: all are 0 where there is none.
    pub seed: Option<u64>,
    /// How many requests one peer may have, if that is limited.
    pub limit: Option<NonZeroU32>,
    /// How many messages its mailbox has room for.
    pub mailbox_size: NonZeroUsize,
    /// Whether its requests, and whether its replies, are sent before other messages.
    pub priorities: (bool, bool),
}

impl Setting {
    /// An engine that is called 9, draws 0, asks a peer for any number of keys at once, has a mailbox with room for one
    /// message, and sends nothing before other messages.
    pub fn with(wrong: Wrong) -> Setting {
        Setting {
            me: 9,
            wrong,
            seed: None,
            limit: None,
            mailbox_size: NonZeroUsize::MIN,
            priorities: (false, false),
        }
    }

    /// Its draws.
    pub fn dice(self, told: Told) -> Dice {
        let seeded = match self.seed {
            Some(seed) => Some(Seeded::new(seed)),
            None => None,
        };
        Dice { told, seeded }
    }
}

/// The engine of a world, with a timeout of 50 and a delay of 10.
pub type Made<Q, R> = Engine<
    Peer,
    Given<(u64, Vec<Peer>)>,
    Given<Vec<Peer>>,
    Key,
    u16,
    Judge,
    Store,
    Q,
    R,
>;

/// Its loop, which a watcher is told of.
pub type Looping<Q, R, T = Unwatched> = Loop<
    Peer,
    Given<(u64, Vec<Peer>)>,
    Given<Vec<Peer>>,
    Key,
    u16,
    Judge,
    Store,
    Q,
    R,
    Wire,
    Given<(Peer, Bytes)>,
    Standing,
    Dice,
    T,
>;

/// A handle of its mailbox.
pub type Asked<Q, R> = Mailbox<Key, Peer, u16, Q, Unrecorded, R>;

/// The loop, as a test knows it, which polls it by hand.
#[derive(Drop)]
pub struct Looped<L> {
    looped: L,
}

impl<Q, R, T> Polled for Looped<Looping<Q, R, T>>
where
    Q: Predicate<Key, u16> + Faithful + Drop,
    R: Wait + Copy + Drop,
    T: Watcher<Input<Key, Peer, u16, Q>, Effect<Key, Peer, u16>> + Drop,
{
    fn poll_once(&mut self, task: &MockTask) -> Poll<Ending> {
        task.poll(&mut self.looped)
    }
}

/// A handle of the mailbox, and what a test holds besides.
#[derive(Drop)]
pub struct World<M> {
    pub mailbox: M,
    pub held: Held,
}

/// What a test holds besides a handle.
#[derive(Drop)]
pub struct Held {
    pub alloc: Global,
    pub sets: mpsc::UnboundedSender<(u64, Vec<Peer>)>,
    pub blocked: mpsc::UnboundedSender<Vec<Peer>>,
    pub network: mpsc::UnboundedSender<(Peer, Bytes)>,
    pub watch: Arc<Watch>,
    pub verdicts: mpsc::UnboundedReceiver<oneshot::Sender<Outcome>>,
    pub serves: mpsc::UnboundedReceiver<oneshot::Sender<Bytes>>,
    pub told: mpsc::UnboundedReceiver<Seen>,
}

/// What a world's engine is lent besides.
#[derive(Drop)]
pub struct Lent {
    pub setting: Setting,
    pub told: Told,
    pub incoming: mpsc::UnboundedReceiver<(Peer, Bytes)>,
    pub watch: Arc<Watch>,
}

/// What gives an engine its peers, and the ends by which a test gives it.
#[derive(Drop)]
struct Sources {
    sets: mpsc::UnboundedSender<(u64, Vec<Peer>)>,
    blocked: mpsc::UnboundedSender<Vec<Peer>>,
    provider: Given<(u64, Vec<Peer>)>,
    blocker: Given<Vec<Peer>>,
}

/// What an engine's effects go to, and the ends by which a test answers.
#[derive(Drop)]
struct Hands {
    verdicts: mpsc::UnboundedReceiver<oneshot::Sender<Outcome>>,
    serves: mpsc::UnboundedReceiver<oneshot::Sender<Bytes>>,
    consumer: Judge,
    producer: Store,
}

/// What a world's engine is made of.
#[derive(Drop)]
struct Parts {
    provider: Given<(u64, Vec<Peer>)>,
    blocker: Given<Vec<Peer>>,
    consumer: Judge,
    producer: Store,
}

/// A source of what its test gives.
fn given<T: Drop>(
    alloc: Global,
    told: &Told,
) -> Result<(mpsc::UnboundedSender<T>, Given<T>), Fault> {
    let (sender, given) = mpsc::unbounded(alloc)?;
    let told = told.clone()?;
    Ok((sender, Given { told, given }))
}

/// Sources of peers that give what a test says.
fn make_sources(alloc: Global, told: &Told) -> Result<Sources, Fault> {
    let (sets, provider) = given(alloc, told)?;
    let (blocked, blocker) = given(alloc, told)?;
    Ok(Sources {
        sets,
        blocked,
        provider,
        blocker,
    })
}

fn store(
    alloc: Global,
    told: &Told,
    wrong: Wrong,
) -> Result<(mpsc::UnboundedReceiver<oneshot::Sender<Bytes>>, Store), Fault> {
    let (serves, senders) = mpsc::unbounded(alloc)?;
    let store = Store {
        alloc,
        told: told.clone()?,
        wrong,
        serves,
    };
    Ok((senders, store))
}

fn make_hands(alloc: Global, told: &Told, wrong: Wrong) -> Result<Hands, Fault> {
    let (verdicts, consumer) = make_judge(alloc, told, wrong)?;
    let (serves, producer) = store(alloc, told, wrong)?;
    Ok(Hands {
        verdicts,
        serves,
        consumer,
        producer,
    })
}

/// What the engine is lent besides, and the ends that a test holds of that.
fn make_lent(
    alloc: Global,
    told: Told,
    setting: Setting,
) -> Result<(mpsc::UnboundedSender<(Peer, Bytes)>, Arc<Watch>, Lent), Fault> {
    let (network, incoming) = mpsc::unbounded(alloc)?;
    let (watch, other) = Watch::shared(alloc)?;
    let lent = Lent {
        setting,
        told,
        incoming,
        watch: other,
    };
    Ok((network, watch, lent))
}

/// What a world's engine is made of, what it is lent besides, and what the test holds.
fn make_parts(alloc: Global, setting: Setting) -> Result<(Held, Lent, Parts), Fault> {
    let (told, seen) = mpsc::unbounded(alloc)?;
    let sources = make_sources(alloc, &told)?;
    let hands = make_hands(alloc, &told, setting.wrong)?;
    let (network, watch, lent) = make_lent(alloc, told, setting)?;
    let held = Held {
        alloc,
        sets: sources.sets,
        blocked: sources.blocked,
        network,
        watch,
        verdicts: hands.verdicts,
        serves: hands.serves,
        told: seen,
    };
    let parts = Parts {
        provider: sources.provider,
        blocker: sources.blocker,
        consumer: hands.consumer,
        producer: hands.producer,
    };
    Ok((held, lent, parts))
}

/// A world with its engine, which has a timeout of 50 and a delay of 10.
pub fn make_world<Q: Predicate<Key, u16> + Faithful + Drop, R: Copy>(
    rt: R,
    alloc: Global,
    setting: Setting,
) -> Result<(World<Asked<Q, R>>, Made<Q, R>, Lent), Fault> {
    let (held, lent, parts) = make_parts(alloc, setting)?;
    let cfg = Config {
        peer_provider: parts.provider,
        blocker: parts.blocker,
        consumer: parts.consumer,
        producer: parts.producer,
        mailbox_size: setting.mailbox_size,
        me: Some(Peer(setting.me)),
        fetch_timeout: 50,
        fetch_retry_delay: 10,
        peer_limit: setting.limit,
        priority_requests: setting.priorities.0,
        priority_responses: setting.priorities.1,
    };
    let (engine, mailbox) = Engine::new(rt, alloc, cfg)?;
    Ok((World { mailbox, held }, engine, lent))
}

/// The network, the clock and the draws that an engine is lent.
fn parts_of(lent: Lent) -> Result<((Wire, Given<(Peer, Bytes)>), Standing, Dice), Fault> {
    let Lent {
        setting,
        told,
        incoming,
        watch,
    } = lent;
    let sender = Wire::new(told.clone()?, setting.wrong);
    let receiver = Given {
        told: told.clone()?,
        given: incoming,
    };
    Ok(((sender, receiver), Standing { watch }, setting.dice(told)))
}

/// A world, and the loop of its engine.
pub fn make_loop<Q: Predicate<Key, u16> + Faithful + Drop, R: Copy>(
    rt: R,
    alloc: Global,
    setting: Setting,
) -> Result<(World<Asked<Q, R>>, Looped<Looping<Q, R>>), Fault> {
    let (world, engine, lent) = make_world(rt, alloc, setting)?;
    let looped = into_loop(engine, lent)?;
    Ok((world, looped))
}

/// The loop of a world's engine.
pub fn into_loop<Q: Predicate<Key, u16> + Faithful + Drop, R: Copy>(
    engine: Made<Q, R>,
    lent: Lent,
) -> Result<Looped<Looping<Q, R>>, Fault> {
    let (network, clock, draws) = parts_of(lent)?;
    let looped = engine.into_loop(network, clock, draws)?;
    Ok(Looped { looped })
}

/// The loop of a world's engine, which tells a watcher.
pub fn into_watched_loop<Q, R, T>(
    engine: Made<Q, R>,
    lent: Lent,
    watcher: T,
) -> Result<Looped<Looping<Q, R, T>>, Fault>
where
    Q: Predicate<Key, u16> + Faithful + Drop,
    R: Copy,
    T: Watcher<Input<Key, Peer, u16, Q>, Effect<Key, Peer, u16>> + Drop,
{
    let (network, clock, draws) = parts_of(lent)?;
    let looped = engine.into_watched_loop(network, clock, draws, watcher)?;
    Ok(Looped { looped })
}

/// A world's engine in a thread.
pub fn start<Q, R>(engine: Made<Q, R>, lent: Lent) -> Result<Handle, Fault>
where
    Q: Predicate<Key, u16> + Faithful + Drop + Send + 'static,
    R: Threads + Wait + RandomSource + AllocGlobal + Copy + Drop + Send + 'static,
{
    let (network, clock, draws) = parts_of(lent)?;
    engine.start(network, clock, draws)
}

/// Peers by their numbers.
pub fn peers(alloc: Global, numbers: &[u8]) -> Result<Vec<Peer>, Fault> {
    let mut peers = Vec::new(alloc);
    for number in numbers {
        peers.push(Peer(*number))?;
    }
    Ok(peers)
}
