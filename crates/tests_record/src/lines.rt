//! The lines of each input and effect.

use crate::support::{assert_same, assert_text, script_of};
use bytes::Bytes;
use futures::executor::block_on;
use resolver::base::{Check, NonEmptyVec, Predicate, Watcher};
use resolver::names::{Height, Name};
use resolver::node::predicates::{All, Both, Nobody, Not, OfKeys, Only};
use resolver::p2p::effects::Effect;
use resolver::p2p::fetcher::{Answer, Ask};
use resolver::p2p::inputs::{Event, Happening, Input};
use resolver::p2p::mocks::Consumer;
use resolver::p2p::named::Source;
use resolver::p2p::{Config, FetchKey};
use resolver::{Delivery, Outcome, Resolution, opaque};
use resolver_record::{Log, Recorder, Recording, State, of_actor, of_engine};
use std::alloc::{AllocGlobal, Global};
use std::collections::BTreeSet;
use std::num::{NonZeroU32, NonZeroUsize};
use std::panic::Expect;
use std::process::Abort;
use std::random::RandomSource;
use std::sync::Wait;

/// A name of a peer.
type Peer = Name<4>;

/// What an engine takes.
type Taken<Q> = Input<Height, Peer, u16, Q>;

/// What it wants.
type Wanted = Effect<Height, Peer, u16>;

/// Its recorder.
type Engines = Recorder<Height, Peer, u16>;

/// The recorder of an actor.
type Actors = Recorder<Height, (), u16>;

/// What an actor takes.
type ActorTakes = opaque::Input<Height, Bytes, u16, All>;

/// What an actor wants.
type ActorWants = opaque::Effect<Height, Bytes, u16>;

/// A recorder of an engine, called 3, with a timeout of 50, a delay of 10 and a limit of 2.
fn engines(rt: &impl Abort, alloc: Global, room: u64) -> (Engines, Recording<Height, Peer, u16>) {
    let cfg: Config<Peer, (), (), Consumer<Height, Bytes, u16>, ()> = Config {
        peer_provider: (),
        blocker: (),
        consumer: Consumer::dummy(alloc).expect(rt, "memory"),
        producer: (),
        mailbox_size: NonZeroUsize::MIN,
        me: Some(Name::from(3_u32)),
        fetch_timeout: 50,
        fetch_retry_delay: 10,
        peer_limit: NonZeroU32::new(2),
        priority_requests: false,
        priority_responses: false,
    };
    of_engine(alloc, &cfg, room).expect(rt, "memory")
}

/// The engine takes this event.
fn take<Q: Predicate<Height, u16> + Drop>(
    recorder: &mut Engines,
    now: u64,
    event: Event<Height, Peer, u16, Q>,
) {
    let now = u128::from(now);
    let input = Input::Happens(Happening { now, event });
    recorder.takes(&input);
}

/// The engine takes this event, which is no retain.
fn take_any(recorder: &mut Engines, now: u64, event: Event<Height, Peer, u16, All>) {
    take(recorder, now, event);
}

/// The engine takes these answers.
fn take_answers(recorder: &mut Engines) {
    for answer in [
        Answer::Drawn(2),
        Answer::Checked(Check::Clear),
        Answer::Checked(Check::Until(9)),
        Answer::Sent(true),
        Answer::Sent(false),
    ] {
        let input: Taken<All> = Input::Answers(answer);
        recorder.takes(&input);
    }
}

/// The engine wants this.
fn want(recorder: &mut Engines, effect: Wanted) {
    Watcher::<Taken<All>, Wanted>::wants(recorder, &effect);
}

fn peer(number: u32) -> Peer {
    Name::from(number)
}

fn peers(rt: &impl Abort, alloc: Global, numbers: &[u32]) -> Vec<Peer> {
    let mut peers = Vec::new(alloc);
    for number in numbers {
        peers.push(peer(*number)).expect(rt, "memory");
    }
    peers
}

/// One message of a fetch of a height, by subscribers, of a peer if one is named.
fn fetch(
    rt: &impl Abort,
    alloc: Global,
    height: u64,
    subscribers: &[(u16, u64)],
    target: Option<u32>,
) -> Vec<FetchKey<Height, Peer, u16>> {
    let subscribers = Vec::from_slice(alloc, subscribers).expect(rt, "memory");
    let item = FetchKey {
        key: Height::from(height),
        subscribers: NonEmptyVec::try_from(subscribers)
            .ok()
            .expect(rt, "a subscriber"),
        metadata: match target {
            Some(number) => Some(NonEmptyVec::new(alloc, peer(number)).expect(rt, "memory")),
            None => None,
        },
    };
    let mut items = Vec::new(alloc);
    items.push(item).expect(rt, "memory");
    items
}

/// Keys by their heights.
fn keys(rt: &impl Abort, alloc: Global, heights: &[u64]) -> BTreeSet<Height> {
    let mut keys = BTreeSet::new(alloc);
    for height in heights {
        keys.insert(Height::from(*height)).expect(rt, "memory");
    }
    keys
}

/// A delivery of height 300 to subscribers 10 and 20.
fn delivery(rt: &impl Abort, alloc: Global) -> Delivery<Height, u16> {
    let subscribers = Vec::from_slice(alloc, &[(10, 7), (20, 8)]).expect(rt, "memory");
    Delivery {
        key: Height::from(300),
        subscribers: NonEmptyVec::try_from(subscribers)
            .ok()
            .expect(rt, "a subscriber"),
    }
}

/// The log of a recorder that is dropped.
fn log_of<K, P, S, R>(
    rt: &R,
    recorder: Recorder<K, P, S>,
    recording: Recording<K, P, S>,
) -> Log<K, P, S>
where
    K: Ord + Drop,
    P: Ord + Drop,
    S: Ord + Drop,
    R: Abort + Wait + RandomSource + AllocGlobal,
{
    drop(recorder);
    block_on(rt, recording)
        .expect(rt, "memory")
        .expect(rt, "a log")
}

/// Peers, blocked peers and fetches, one of which is for two subscribers.
fn take_sources(rt: &impl Abort, alloc: Global, recorder: &mut Engines) {
    let set = Event::PeerSet {
        index: 1,
        peers: peers(rt, alloc, &[4, 3]),
    };
    take_any(recorder, 0, set);
    take_any(recorder, 0, Event::Blocked(Vec::new(alloc)));
    let items = fetch(rt, alloc, 300, &[(10, 7)], Some(4));
    take_any(recorder, 5, Event::Fetch(items));
    let items = fetch(rt, alloc, 7, &[(10, 1), (20, 2)], None);
    take_any(recorder, 5, Event::Fetch(items));
}

/// Deadlines, verdicts, what the producer has, and messages of a peer: a request of height 300, a response, and what is
/// none.
fn take_what_comes(recorder: &mut Engines) {
    take_any(recorder, 6, Event::ActiveDue);
    take_any(recorder, 6, Event::PendingDue);
    for (number, outcome) in [
        (0, Some(Outcome::Resolved(Resolution::Complete))),
        (1, Some(Outcome::Resolved(Resolution::Partial))),
        (2, Some(Outcome::Unresolved)),
        (3, Some(Outcome::Invalid)),
        (4, Some(Outcome::Ignored)),
        (5, None),
    ] {
        take_any(recorder, 6, Event::Verdict { number, outcome });
    }
    let value = Some(Bytes::from_static(b"ok"));
    take_any(recorder, 6, Event::Served { serve: 0, value });
    let value = None;
    take_any(recorder, 6, Event::Served { serve: 1, value });
    for bytes in [
        b"\0\0\0\0\0\0\0\x07\0\0\0\0\0\0\0\x01\x2c".as_slice(),
        b"\0\0\0\0\0\0\0\x08\x01\x02hi".as_slice(),
        b"no".as_slice(),
    ] {
        let bytes = Bytes::from_static(bytes);
        let peer = peer(4);
        take_any(recorder, 6, Event::Net { peer, bytes });
    }
}

/// Of 10 and 20, who want 7, and 10, who wants 300: all stay, nobody, one subscriber, all of one key, and one pair.
fn take_retains(rt: &impl Abort, alloc: Global, recorder: &mut Engines) {
    take(recorder, 6, Event::Retain(All));
    take(recorder, 6, Event::Retain(Nobody));
    take(recorder, 6, Event::Retain(Only { subscriber: 10_u16 }));
    let inner = OfKeys {
        keys: keys(rt, alloc, &[7]),
    };
    take(recorder, 6, Event::Retain(Not { inner }));
    let pair = Both {
        first: Only { subscriber: 10_u16 },
        second: OfKeys {
            keys: keys(rt, alloc, &[7]),
        },
    };
    take(recorder, 6, Event::Retain(pair));
}

/// Each effect.
fn want_all(rt: &impl Abort, alloc: Global, recorder: &mut Engines) {
    want(recorder, Effect::Ask(Ask::Draw(18_446_744_073_709_551_616)));
    want(recorder, Effect::Ask(Ask::Check(peer(4))));
    let request = Ask::Request {
        peer: peer(4),
        id: 9,
        key: Height::from(300),
        priority: true,
    };
    want(recorder, Effect::Ask(request));
    let value = Bytes::from_static(b"hi");
    let handed = Effect::Deliver {
        number: 2,
        response: 0,
        delivery: delivery(rt, alloc),
        value,
    };
    want(recorder, handed);
    want(recorder, Effect::Cancel { number: 2 });
    let key = Height::from(7);
    want(recorder, Effect::Produce { serve: 3, key });
    let reply = Effect::Reply {
        peer: peer(3),
        bytes: Bytes::from_static(b"\x01\xff"),
        priority: false,
    };
    want(recorder, reply);
    let source = Source {
        peer: peer(4),
        elapsed: 20,
        bytes: 2,
    };
    want(
        recorder,
        Effect::Credit {
            response: 0,
            source,
        },
    );
    let peer = peer(4);
    want(recorder, Effect::Block { response: 0, peer });
}

/// What they are as lines.
const LINES: &[u8] = b"# key 0 x0000000000000007
# key 1 x000000000000012c
# peer 0 Name(00000003)
# peer 1 Name(00000004)
# subscriber 0 10
# subscriber 1 20
p2p 0 50 10 2
peers 1 1,0
blocked -
at 5
fetch 1 0 7 1
# no line says this input, and a replay may differ from here on: a message of several fetches
drawn 2
checked clear
checked 9
sent accepted
sent refused
at 6
timeout
wake
verdict 0 complete
verdict 1 partial
verdict 2 unresolved
verdict 3 invalid
verdict 4 ignored
verdict 5 dropped
served 0 x6f6b
served 1 dropped
net 1 x00000000000000070001
net 1 x000000000000000801026869
net 1 x
drop-key 2
keep-sub 2
keep-sub 0
drop-key 0
# no line says this input, and a replay may differ from here on: a retain
stop
# > draw 18446744073709551616
# > check 1
# > request 1 9 1
# > deliver 2 1 0,1 x6869 again 0
# > cancel 2
# > produce 3 0
# > reply 0 x01ff
# > credit 0 1 20 2
# > block 0 1
";

#[test]
fn each_input_and_each_effect_of_an_engine(rt: HostRuntime) {
    let alloc = rt.alloc();
    let (mut recorder, recording) = engines(&rt, alloc, 1_000);
    take_sources(&rt, alloc, &mut recorder);
    take_answers(&mut recorder);
    take_what_comes(&mut recorder);
    take_retains(&rt, alloc, &mut recorder);
    take_any(&mut recorder, 6, Event::End);
    want_all(&rt, alloc, &mut recorder);
    let log = log_of(&rt, recorder, recording);
    assert_text(&rt, &script_of(&rt, alloc, &log), LINES);
    assert_same(&rt, log.state(), State::Whole);
    assert_same(&rt, log.unsaid(), 2);
    assert_same(&rt, log.is_replayable(), false);
}

/// There is room for two inputs: the third is not recorded, nor what it leads to, nor what comes after it.
#[test]
fn a_recorder_that_is_full(rt: HostRuntime) {
    let alloc = rt.alloc();
    let (mut recorder, recording) = engines(&rt, alloc, 2);
    take_any(&mut recorder, 0, Event::PendingDue);
    take_any(&mut recorder, 1, Event::ActiveDue);
    want(&mut recorder, Effect::Cancel { number: 0 });
    take_any(&mut recorder, 2, Event::End);
    want(&mut recorder, Effect::Cancel { number: 1 });
    let log = log_of(&rt, recorder, recording);
    assert_same(&rt, log.state(), State::Full);
    assert_same(&rt, log.is_replayable(), true);
    assert_text(
        &rt,
        &script_of(&rt, alloc, &log),
        b"# peer 0 Name(00000003)
p2p 0 50 10 2
wake
at 1
timeout
# > cancel 0
# not recorded: what came when there was no room
",
    );
}

/// A recorder of an actor with a delay of 100.
fn actors(rt: &impl Abort, alloc: Global) -> (Actors, Recording<Height, (), u16>) {
    let cfg: opaque::Config<(), Consumer<Height, Bytes, u16>> = opaque::Config {
        fetcher: (),
        consumer: Consumer::dummy(alloc).expect(rt, "memory"),
        mailbox_size: NonZeroUsize::MIN,
        fetch_retry_delay: 100,
    };
    of_actor(alloc, &cfg, 1_000).expect(rt, "memory")
}

/// The actor takes this event.
fn act(recorder: &mut Actors, now: u64, event: opaque::Event<Height, Bytes, u16, All>) {
    let now = u128::from(now);
    recorder.takes(&opaque::Input { now, event });
}

/// The actor wants this.
fn act_on(recorder: &mut Actors, effect: ActorWants) {
    Watcher::<ActorTakes, ActorWants>::wants(recorder, &effect);
}

/// One message of fetches of these heights by subscriber 10.
fn heights(
    rt: &impl Abort,
    alloc: Global,
    heights: &[u64],
) -> Vec<resolver::ingress::FetchKey<Height, u16, ()>> {
    let mut items = Vec::new(alloc);
    for height in heights {
        let item = resolver::ingress::FetchKey {
            key: Height::from(*height),
            subscribers: NonEmptyVec::new(alloc, (10, 7)).expect(rt, "memory"),
            metadata: (),
        };
        items.push(item).expect(rt, "memory");
    }
    items
}

/// Heights in their order are those of a plan, and others are not.
fn act_all(rt: &impl Abort, alloc: Global, recorder: &mut Actors) {
    act(recorder, 0, opaque::Event::Fetch(heights(rt, alloc, &[7])));
    act(
        recorder,
        0,
        opaque::Event::Fetch(heights(rt, alloc, &[8, 9])),
    );
    act(
        recorder,
        0,
        opaque::Event::Fetch(heights(rt, alloc, &[9, 8])),
    );
    let attempt = 0;
    let value = Some(Bytes::from_static(b"hi"));
    act(recorder, 1, opaque::Event::Fetched { attempt, value });
    let value = None;
    act(recorder, 1, opaque::Event::Fetched { attempt, value });
    let outcome = Some(Outcome::Resolved(Resolution::Complete));
    act(recorder, 1, opaque::Event::Verdict { number: 0, outcome });
    act(recorder, 1, opaque::Event::RetriesDue);
    act(recorder, 1, opaque::Event::Retain(All));
    act(recorder, 1, opaque::Event::End);
    let key = Height::from(7);
    act_on(recorder, opaque::Effect::Start { attempt, key });
    act_on(recorder, opaque::Effect::Abort { attempt });
    let handed = opaque::Effect::Deliver {
        number: 0,
        response: 0,
        delivery: delivery(rt, alloc),
        value: Bytes::from_static(b"hi"),
    };
    act_on(recorder, handed);
    act_on(recorder, opaque::Effect::Cancel { number: 0 });
}

#[test]
fn each_input_and_each_effect_of_an_actor(rt: HostRuntime) {
    let alloc = rt.alloc();
    let (mut recorder, recording) = actors(&rt, alloc);
    act_all(&rt, alloc, &mut recorder);
    let log = log_of(&rt, recorder, recording);
    assert_same(&rt, log.unsaid(), 1);
    assert_text(
        &rt,
        &script_of(&rt, alloc, &log),
        b"# key 0 x0000000000000007
# key 1 x0000000000000008
# key 2 x0000000000000009
# key 3 x000000000000012c
# subscriber 0 10
# subscriber 1 20
opaque 100
fetch 0 0 7
backfill 0 7
want 1,2
# no line says this input, and a replay may differ from here on: a message of several fetches
at 1
fetched 0 x6869
fetched 0 none
verdict 0 complete
wake
drop-key 4
stop
# > start 0 0
# > abort 0
# > deliver 0 3 0,1 x6869
# > cancel 0
",
    );
}
