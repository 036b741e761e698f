//! Three engines in one process, over a network in memory. Engine 0 wants a key that the others have: 1
//! sends wrong bytes, which the consumer refuses, and 2 the right ones. It prints what engine 0 did, and what it counted.

pub mod lent;
pub mod network;

use anyhow::Result;
use bytes::Bytes;
use futures::StreamExt;
use futures::channel::mpsc;
use futures::executor::block_on;
use lent::{First, Guard, Hasty};
use network::{End, Peer, Seen, Told};
use resolver::base::{Blocker, Provider};
use resolver::node::OneSet;
use resolver::node::predicates::All;
use resolver::p2p::mocks::{Consumer, Key, Producer, Quiet};
use resolver::p2p::{Config, Engine, EngineHandle, Metrics, Monitor};
use resolver::{Fetch, Handle, Resolver};
use std::alloc::{AllocGlobal, Global};
use std::num::NonZeroUsize;
use std::random::RandomSource;
use std::sync::Wait;
use std::thread::Threads;

/// An engine that runs, the handle through which it is asked, and a look at its counts.
#[derive(Drop)]
struct Running<R> {
    mailbox: EngineHandle<Key, Peer, u16, All, R>,
    monitor: Monitor<Key, Peer, u16>,
    handle: Handle,
}

/// What engine 0 has taken, and what it counted.
type Done = (Option<(Key, Bytes)>, Metrics);

/// Where the consumer tells what it has found right.
type Taken = mpsc::UnboundedReceiver<(Key, Bytes)>;

/// Runs the engines, and prints what was seen of engine 0.
pub fn run<R>(rt: R) -> Result<()>
where
    R: Print + Threads + Wait + RandomSource + AllocGlobal + Copy + Drop + Send + 'static,
{
    let alloc = rt.alloc();
    let (told, mut seen) = mpsc::unbounded(alloc)?;
    let done = work(rt, alloc, &told)?;
    print(&rt, &mut seen, &done)
}

/// Prints what was seen, up to the last of it, and what was taken and counted.
fn print(
    rt: &impl Print,
    seen: &mut mpsc::UnboundedReceiver<Seen>,
    (taken, metrics): &Done,
) -> Result<()> {
    for _ in 0..10 {
        match seen.try_recv() {
            Ok(next) => println!(rt; "{next}")?,
            Err(_) => break,
        }
    }
    if let Some((key, value)) = taken {
        println!(rt; "took {value:?} as {key}")?;
    }
    let sent = metrics.requests_sent.success;
    println!(rt; "{sent} requests, {} in vain", metrics.fetch.failure)?;
    Ok(())
}

/// Has the three engines run until engine 0 has taken a value.
fn work<R>(rt: R, alloc: Global, told: &Told) -> Result<Done>
where
    R: Threads + Wait + RandomSource + AllocGlobal + Copy + Drop + Send + 'static,
{
    let (own, wrong, right) = network::joined(alloc, told)?;
    let wrong = answer(rt, alloc, wrong, b"wrong")?;
    let right = answer(rt, alloc, right, b"right")?;
    let done = ask(rt, alloc, own, told);
    let ended = end(&rt, wrong).and(end(&rt, right));
    ended.and(done)
}

/// Runs an engine that asks for key 7, until the consumer has taken a value.
fn ask<R>(rt: R, alloc: Global, net: End, told: &Told) -> Result<Done>
where
    R: Threads + Wait + RandomSource + AllocGlobal + Copy + Drop + Send + 'static,
{
    let sets = OneSet::new(Vec::from_slice(alloc, &[Peer(0), Peer(1), Peer(2)])?);
    let guard = Guard {
        alloc,
        told: told.clone()?,
        blocked: None,
        rest: Quiet::new(),
    };
    let (mut consumer, mut taken) = Consumer::new(alloc)?;
    consumer.add_expected(Key(7), Bytes::from_static(b"right"))?;
    let hands = (consumer, Producer::new(alloc));
    let mut running = begin(rt, alloc, (sets, guard), hands, net)?;
    let value = take(rt, &mut running, &mut taken);
    let metrics = end(&rt, running)?;
    Ok((value?, metrics))
}

/// Asks a running engine for key 7, and waits for what the consumer has found right.
fn take<R>(rt: R, running: &mut Running<R>, taken: &mut Taken) -> Result<Option<(Key, Bytes)>>
where
    R: Wait + RandomSource + AllocGlobal + Copy + Drop + Send + 'static,
{
    running.mailbox.fetch(Fetch::from(Key(7)))?;
    let value = block_on(&rt, taken.next())?;
    Ok(value)
}

/// Runs an engine that has these bytes for key 7.
fn answer<R>(rt: R, alloc: Global, net: End, bytes: &'static [u8]) -> Result<Running<R>>
where
    R: Threads + Wait + RandomSource + AllocGlobal + Copy + Drop + Send + 'static,
{
    let mut producer = Producer::new(alloc);
    producer.insert(Key(7), Bytes::from_static(bytes))?;
    let hands = (Consumer::dummy(alloc)?, producer);
    begin(rt, alloc, (Quiet::new(), Quiet::new()), hands, net)
}

/// Runs an engine over what gives it its peers, what its effects go to, and its network.
fn begin<R, D, B>(
    rt: R,
    alloc: Global,
    peers: (D, B),
    hands: (Consumer<Key, Bytes, u16>, Producer<Key, Bytes>),
    net: End,
) -> Result<Running<R>>
where
    R: Threads + Wait + RandomSource + AllocGlobal + Copy + Drop + Send + 'static,
    D: Provider<PublicKey = Peer> + Drop + Send + 'static,
    B: Blocker<PublicKey = Peer> + Drop + Send + 'static,
{
    let cfg = Config {
        peer_provider: peers.0,
        blocker: peers.1,
        consumer: hands.0,
        producer: hands.1,
        mailbox_size: NonZeroUsize::MIN,
        me: Some(net.0.me),
        fetch_timeout: 1_000_000,
        fetch_retry_delay: 100,
        peer_limit: None,
        priority_requests: false,
        priority_responses: false,
    };
    let (mut engine, mailbox) = Engine::new(rt, alloc, cfg)?;
    let monitor = engine.monitor()?;
    let clock = Hasty {
        now: 0,
        rest: Quiet::new(),
    };
    let handle = engine.start(net, clock, First)?;
    Ok(Running {
        mailbox,
        monitor,
        handle,
    })
}

/// Ends an engine, waits for its end, and answers what it counted.
fn end<R: Threads + Wait + Drop>(rt: &R, engine: Running<R>) -> Result<Metrics> {
    let Running {
        mut mailbox,
        monitor,
        handle,
    } = engine;
    mailbox.close();
    handle.join(rt)?;
    Ok(monitor.metrics(rt))
}
