//! An engine in a thread over a network in memory, and an actor in a thread over a source, which are recorded and replayed.

ghost use Rattle.std.specs.Prelude.{◌≡◌};

use crate::support::{assert_same, assert_text, effects_of, replayed, script_of, without_effects};
use bytes::Bytes;
use futures::channel::mpsc;
use futures::executor::block_on;
use futures::task::{Context, Poll};
use futures::{Future, StreamExt};
use resolver::base::{Clock, Draws};
use resolver::names::{Height, Name};
use resolver::node::predicates::{All, Not, OfKeys};
use resolver::node::{Inbox, Link, OneSet, Weather, network};
use resolver::opaque::{ActorHandle, Fetcher, init_watched};
use resolver::p2p::mocks::{Consumer, Producer, Quiet};
use resolver::p2p::{Config, Engine, EngineHandle};
use resolver::{Fetch, Handle, Resolver, opaque};
use resolver_record::{State, of_actor, of_engine};
use std::alloc::{AllocGlobal, Global};
use std::collections::BTreeSet;
use std::num::NonZeroUsize;
use std::panic::Expect;
use std::process::Abort;
use std::random::RandomSource;
use std::sync::Wait;
use std::thread::Threads;

/// A name of an engine.
type Peer = Name<4>;

/// Who stays.
type Keeps = Not<OfKeys<Height>>;

/// How an engine is asked.
type Asked<R> = EngineHandle<Height, Peer, u16, Keeps, R>;

/// What an engine has of the network.
type End = (Link<Peer>, Inbox<Peer>);

/// What an engine is made of.
type Made<D> = Config<Peer, D, Quiet<Peer>, Consumer<Height, Bytes, u16>, Producer<Height, Bytes>>;

/// A clock that stands still.
#[derive(Drop)]
struct Still {
    rest: Quiet<Peer>,
}

impl Clock for Still {
    fn now(&self) -> u128 {
        0
    }

    fn poll_until(&mut self, cx: &mut Context<'_>, _: u128) -> Poll<()> {
        resolver::base::Provider::poll_update(&mut self.rest, cx).map(|_| ())
    }
}

/// Draws the least number.
#[derive(Clone, Copy)]
struct First;

impl Draws for First {
    fn below(&mut self, _: u128) -> u128 {
        0
    }
}

/// What an engine of this name is made of.
fn made_of<D>(
    me: u32,
    peer_provider: D,
    consumer: Consumer<Height, Bytes, u16>,
    producer: Producer<Height, Bytes>,
) -> Made<D>
    ensures timeout { result.fetch_timeout ≡ 1000000 }
    ensures delay { result.fetch_retry_delay ≡ 1000000 }
{
    Config {
        peer_provider,
        blocker: Quiet::new(),
        consumer,
        producer,
        mailbox_size: NonZeroUsize::MIN,
        me: Some(Name::from(me)),
        fetch_timeout: 1_000_000,
        fetch_retry_delay: 1_000_000,
        peer_limit: None,
        priority_requests: false,
        priority_responses: false,
    }
}

fn resting_clock() -> Still {
    Still { rest: Quiet::new() }
}

/// The engine 2 in a thread, which has the data of the heights 7 and 300.
fn start_other<R>(rt: R, alloc: Global, end: End) -> (Asked<R>, Handle)
where
    R: Abort + Threads + Wait + RandomSource + AllocGlobal + Copy + Drop + Send + 'static,
{
    let consumer = Consumer::dummy(alloc).expect(&rt, "memory");
    let mut producer = Producer::new(alloc);
    let seven = producer.insert(Height::from(7), Bytes::from_static(b"seven"));
    seven.expect(&rt, "memory");
    let more = producer.insert(Height::from(300), Bytes::from_static(b"more"));
    more.expect(&rt, "memory");
    let cfg = made_of(2, Quiet::new(), consumer, producer);
    let (engine, mailbox) = Engine::new(rt, alloc, cfg).expect(&rt, "an engine");
    let handle = engine
        .start(end, resting_clock(), First)
        .expect(&rt, "a thread");
    (mailbox, handle)
}

/// Two heights for subscriber 20.
fn two(rt: &impl Abort, alloc: Global) -> Vec<Fetch<Height, u16>> {
    let mut fetches = Vec::new(alloc);
    for height in [5_u64, 300] {
        let fetch = Fetch {
            key: Height::from(height),
            subscriber: 20,
            mark: 71,
        };
        fetches.push(fetch).expect(rt, "memory");
    }
    fetches
}

/// Asks for height 7, and once that has come for two at once, of which nobody has one; once the other has come, that one is let go.
fn ask<R>(rt: R, mailbox: &mut Asked<R>, taken: &mut mpsc::UnboundedReceiver<(Height, Bytes)>)
where
    R: Abort + Wait + RandomSource + AllocGlobal + Copy + Drop + Send + 'static,
{
    let alloc = rt.alloc();
    let seven = Fetch {
        key: Height::from(7),
        subscriber: 10,
        mark: 70,
    };
    mailbox.fetch(seven).expect(&rt, "memory");
    drop(block_on(&rt, taken.next()).expect(&rt, "a value"));
    mailbox.fetch_all(two(&rt, alloc)).expect(&rt, "memory");
    drop(block_on(&rt, taken.next()).expect(&rt, "a value"));
    let mut keys = BTreeSet::new(alloc);
    keys.insert(Height::from(5)).expect(&rt, "memory");
    let keep = Not {
        inner: OfKeys { keys },
    };
    mailbox.retain(keep).expect(&rt, "memory");
}

/// What the engine 1 takes.
const LINES: &[u8] = b"# key 0 x0000000000000005
# key 1 x0000000000000007
# key 2 x000000000000012c
# peer 0 Name(00000001)
# peer 1 Name(00000002)
# subscriber 0 10
# subscriber 1 20
p2p 0 1000000 1000000
peers 0 0,1
fetch 1 0 70
drawn 0
drawn 0
checked clear
drawn 0
sent accepted
net 1 x00000000000000000105736576656e
verdict 0 complete
backfill 1 71
want 0,2
drawn 0
drawn 0
checked clear
sent accepted
wake
drawn 0
drawn 0
checked clear
sent accepted
net 1 x000000000000000102
net 1 x000000000000000201046d6f7265
verdict 1 complete
drop-key 0
stop
";

#[test]
fn a_recorded_engine_is_replayed_with_the_same_effects(rt: HostRuntime) {
    let alloc = rt.alloc();
    let names = Vec::from_slice(alloc, &[Peer::from(1_u32), Peer::from(2_u32)]);
    let names = names.expect(&rt, "memory");
    let mut ends = network(alloc, names, Weather::FAIR).expect(&rt, "memory");
    let end = ends.pop().expect(&rt, "an end");
    let (mut other, other_handle) = start_other(rt, alloc, end);
    let (consumer, mut taken) = Consumer::new(alloc).expect(&rt, "memory");
    let names = Vec::from_slice(alloc, &[Peer::from(1_u32), Peer::from(2_u32)]);
    let set = OneSet::new(names.expect(&rt, "memory"));
    let cfg = made_of(1, set, consumer, Producer::new(alloc));
    let (recorder, recording) = of_engine(alloc, &cfg, 1_000).expect(&rt, "memory");
    let (engine, mut mailbox) = Engine::new(rt, alloc, cfg).expect(&rt, "an engine");
    let end = ends.pop().expect(&rt, "an end");
    let started = engine.start_watched(end, resting_clock(), First, recorder);
    let handle = started.expect(&rt, "a thread");
    ask(rt, &mut mailbox, &mut taken);
    mailbox.close();
    handle.join(&rt).expect(&rt, "an end");
    other.close();
    other_handle.join(&rt).expect(&rt, "an end");
    let log = block_on(&rt, recording).expect(&rt, "memory");
    let log = log.expect(&rt, "a log");
    assert_same(&rt, log.state(), State::Whole);
    assert_same(&rt, log.is_replayable(), true);
    let script = script_of(&rt, alloc, &log);
    assert_text(&rt, &without_effects(&rt, alloc, &script), LINES);
    let printed = replayed(&rt, alloc, &script);
    assert_text(&rt, &effects_of(&rt, alloc, &log), &printed);
    assert_same(&rt, printed.is_empty(), false);
}

/// A source that has the same for every height.
#[derive(Drop)]
struct Shelf;

/// What a look has found.
#[derive(Drop)]
struct Look(Option<Bytes>);

impl Future for Look {
    type Output = Option<Bytes>;

    fn poll(&mut self, _: &mut Context<'_>) -> Poll<Option<Bytes>> {
        Poll::Ready(self.0.take())
    }
}

impl Fetcher for Shelf {
    type Key = Height;

    type Value = Bytes;

    type Future = Look;

    fn fetch(&self, _: Height) -> Look {
        Look(Some(Bytes::from_static(b"seven")))
    }

    ghost pollable = { λ look. tt };
}

/// What the actor takes.
const ACTED: &[u8] = b"# key 0 x0000000000000007
# subscriber 0 10
opaque 1000000
fetch 0 0 70
fetched 0 x736576656e
verdict 0 complete
stop
";

#[test]
fn a_recorded_actor_is_replayed_with_the_same_effects(rt: HostRuntime) {
    let alloc = rt.alloc();
    let (consumer, mut taken) = Consumer::new(alloc).expect(&rt, "memory");
    let cfg = opaque::Config {
        fetcher: Shelf,
        consumer,
        mailbox_size: NonZeroUsize::MIN,
        fetch_retry_delay: 1_000_000,
    };
    let (recorder, recording) = of_actor(alloc, &cfg, 1_000).expect(&rt, "memory");
    let begun = init_watched(rt, alloc, resting_clock(), cfg, recorder);
    let (mut store, handle): (ActorHandle<Height, u16, All, _>, Handle) = begun.expect(
        &rt, "an actor",
    );
    let seven = Fetch {
        key: Height::from(7),
        subscriber: 10,
        mark: 70,
    };
    store.fetch(seven).expect(&rt, "memory");
    drop(block_on(&rt, taken.next()).expect(&rt, "a value"));
    store.close();
    handle.join(&rt).expect(&rt, "an end");
    let log = block_on(&rt, recording).expect(&rt, "memory");
    let log = log.expect(&rt, "a log");
    assert_same(&rt, log.is_replayable(), true);
    let script = script_of(&rt, alloc, &log);
    assert_text(&rt, &without_effects(&rt, alloc, &script), ACTED);
    let printed = replayed(&rt, alloc, &script);
    assert_text(&rt, &effects_of(&rt, alloc, &log), &printed);
    assert_text(&rt, &printed, b"start 0 0\ndeliver 0 0 0 x736576656e\n");
}
