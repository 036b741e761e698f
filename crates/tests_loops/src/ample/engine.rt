//! The core of an engine.

use crate::ample::{FOUR_MIB, Low, padded, subscribers};
use crate::support::assert_same;
use bytes::Bytes;
use resolver::base::{Check, NonEmptyVec};
use resolver::p2p::effects::Effect;
use resolver::p2p::fetcher::{Answer, Ask, Config};
use resolver::p2p::inputs::{Event, Happening, Input};
use resolver::p2p::{Core, FetchKey};
use resolver::{Outcome, Resolution};
use std::alloc::Global;
use std::collections::VecDeque;
use std::panic::Expect;
use std::process::Abort;
use tests_support::wide::Name;

type Wide = Core<Name, u32, u32, Low>;

type WideInput = Input<Name, u32, u32, Low>;

type WideEvent = Event<Name, u32, u32, Low>;

type WideEffect = Effect<Name, u32, u32>;

/// More than a scan asks before its first request is taken.
const ASKS: u64 = 8;

/// A core, as calls that promise nothing.
trait Takes {
    fn take(&mut self, rt: &impl Abort, input: WideInput) -> Vec<WideEffect>;

    /// How many keys are demanded, and how often the first of them was retried.
    fn count(&self, rt: &impl Abort) -> (usize, u32);
}

impl Takes for Wide {
    fn take(&mut self, rt: &impl Abort, input: WideInput) -> Vec<WideEffect> {
        self.step(input).expect(rt, "a step that is taken")
    }

    fn count(&self, rt: &impl Abort) -> (usize, u32) {
        let rows = self.rows().expect(rt, "memory");
        let retries = match rows.first() {
            Some(row) => row.retries,
            None => 0,
        };
        let count = rows.len();
        (count, retries)
    }
}

/// A core whose peers take everything, and what it told.
#[derive(Drop)]
struct Node<C> {
    core: C,
    alloc: Global,
    now: u64,
    /// The requests without an answer, with their peers.
    asked: VecDeque<(u64, u32)>,
    /// How many subscribers each delivery named, and how many bytes it had.
    delivered: Vec<(usize, usize)>,
    produced: u64,
    /// How many bytes the last reply has.
    replied: usize,
}

/// A core as a call that promises nothing.
fn make_core(alloc: Global) -> Wide {
    let configuration = Config {
        me: None,
        fetch_timeout: 50,
        retry_delay: 10,
        peer_limit: None,
        priority_requests: false,
    };
    Core::new(alloc, configuration, false)
}

/// A core that knows these peers, from 0 on.
fn make_node(rt: &impl Abort, alloc: Global, peers: u32) -> Node<Wide> {
    let mut node = Node {
        core: make_core(alloc),
        alloc,
        now: 0,
        asked: VecDeque::new(alloc),
        delivered: Vec::new(alloc),
        produced: 0,
        replied: 0,
    };
    node.set_peers(rt, peers);
    node
}

/// The peers from 0 on.
fn peers(rt: &impl Abort, alloc: Global, count: u32) -> Vec<u32> {
    let mut peers = Vec::new(alloc);
    for peer in 0..count {
        peers.push(peer).expect(rt, "memory");
    }
    peers
}

/// Keys from this one on, so many of them, each wanted by subscriber 1.
fn fetches(
    rt: &impl Abort,
    alloc: Global,
    first: u32,
    count: u32,
) -> Vec<FetchKey<Name, u32, u32>> {
    let mut items = Vec::new(alloc);
    for key in 0..count {
        let item = FetchKey {
            key: Name::numbered(first.saturating_add(key)),
            subscribers: subscribers(rt, alloc, 1, 1),
            metadata: None,
        };
        items.push(item).expect(rt, "memory");
    }
    items
}

impl<C: Takes> Node<C> {
    fn set_peers(&mut self, rt: &impl Abort, count: u32) {
        let peers = peers(rt, self.alloc, count);
        self.give(rt, Event::PeerSet { index: 1, peers });
    }

    fn answer(&mut self, rt: &impl Abort, ask: &Ask<Name, u32>) -> Answer {
        match ask {
            Ask::Draw(_) => Answer::Drawn(0),
            Ask::Check(_) => Answer::Checked(Check::Clear),
            Ask::Request { peer, id, .. } => {
                self.asked.push_back((*id, *peer)).expect(rt, "memory");
                Answer::Sent(true)
            }
        }
    }

    fn carry_out(&mut self, rt: &impl Abort, effect: &WideEffect) -> Option<Answer> {
        match effect {
            Effect::Ask(ask) => return Some(self.answer(rt, ask)),
            Effect::Deliver {
                delivery,
                value,
                ..
            } => {
                let delivered = (delivery.subscribers.len(), value.len());
                self.delivered.push(delivered).expect(rt, "memory");
            }
            Effect::Produce { .. } => self.produced = self.produced.saturating_add(1),
            Effect::Reply { bytes, .. } => self.replied = bytes.len(),
            _ => {}
        }
        None
    }

    /// Takes an input, and carries out what comes of it.
    fn take(&mut self, rt: &impl Abort, input: WideInput) -> Option<Answer> {
        let effects = self.core.take(rt, input);
        let mut answer = None;
        for effect in &effects {
            answer = self.carry_out(rt, effect);
        }
        answer
    }

    /// Takes an event, and answers what its scan asks.
    fn give(&mut self, rt: &impl Abort, event: WideEvent) {
        let now = self.now as u128;
        let mut answer = self.take(rt, Input::Happens(Happening { now, event }));
        for _ in 0..ASKS {
            let Some(given) = answer else {
                return;
            };
            answer = self.take(rt, Input::Answers(given));
        }
    }

    /// Time passes, and so many keys are asked for one after another.
    fn wake(&mut self, rt: &impl Abort, count: u32) {
        self.now = self.now.saturating_add(10);
        for _ in 0..count {
            self.give(rt, Event::PendingDue);
        }
    }

    /// A message under this id, with so many zeros at its end.
    fn receive(&mut self, rt: &impl Abort, peer: u32, id: u64, bytes: &[u8], zeros: usize) {
        let mut head = Vec::new(self.alloc);
        head.extend_from_slice(&id.to_be_bytes())
            .expect(rt, "memory");
        head.extend_from_slice(bytes).expect(rt, "memory");
        let bytes = padded(rt, self.alloc, head.as_slice(), zeros);
        self.give(rt, Event::Net { peer, bytes });
    }

    /// The first request that has no answer is answered so.
    fn respond(&mut self, rt: &impl Abort, bytes: &[u8], zeros: usize) {
        if let Some((id, peer)) = self.asked.pop_front() {
            self.receive(rt, peer, id, bytes, zeros);
        }
    }

    /// What was handed out under this number is complete.
    fn complete(&mut self, rt: &impl Abort, number: u64) {
        let outcome = Some(Outcome::Resolved(Resolution::Complete));
        self.give(rt, Event::Verdict { number, outcome });
    }
}

/// The tag of a response, and two bytes.
const HI: &[u8] = &[1, 2, 104, 105];

/// The tag of a response, and the length of a value of 4 MiB.
const LONG: &[u8] = &[1, 0x80, 0x80, 0x80, 0x02];

/// Word that there is no data.
const MISSING: &[u8] = &[2];

/// A response of 4 MiB, and a reply of as many: 13 bytes more with the id, the tag and the length.
#[test]
fn ample_memory_for_values(rt: HostRuntime) {
    let alloc = rt.alloc();
    let mut node = make_node(&rt, alloc, 1);
    node.give(&rt, Event::Fetch(fetches(&rt, alloc, 0, 1)));
    node.respond(&rt, LONG, FOUR_MIB);
    assert_same(&rt, node.delivered.as_slice(), [(1, FOUR_MIB)].as_slice());
    node.complete(&rt, 0);
    node.receive(&rt, 0, 7, &[0, 0, 0, 0, 1], 0);
    assert_same(&rt, node.produced, 1);
    let value = Some(padded(&rt, alloc, &[], FOUR_MIB));
    node.give(&rt, Event::Served { serve: 0, value });
    assert_same(&rt, node.replied, FOUR_MIB + 13);
    // By hand: by scope such a test takes 13 to 57 seconds to prove.
    drop(node);
}

/// A hundred thousand keys, in batches of ten thousand, of which a hundred are asked for; then all are called off.
#[test]
fn ample_memory_for_keys(rt: HostRuntime) {
    let alloc = rt.alloc();
    let mut node = make_node(&rt, alloc, 1);
    for batch in 0..10_u32 {
        let items = fetches(&rt, alloc, batch * 10_000, 10_000);
        node.give(&rt, Event::Fetch(items));
    }
    node.wake(&rt, 90);
    assert_same(&rt, node.asked.len(), 100);
    assert_same(&rt, node.core.count(&rt), (100_000, 0));
    node.give(&rt, Event::Retain(Low(0)));
    assert_same(&rt, node.core.count(&rt), (0, 0));
    // By hand: by scope such a test takes 13 to 57 seconds to prove.
    drop(node);
}

/// Seventy thousand subscribers of one key, who all get its value.
#[test]
fn ample_memory_for_subscribers(rt: HostRuntime) {
    let alloc = rt.alloc();
    let mut node = make_node(&rt, alloc, 1);
    for batch in 0..7_u32 {
        let mut items = Vec::new(alloc);
        let item = FetchKey {
            key: Name::numbered(0),
            subscribers: subscribers(&rt, alloc, batch * 10_000, 10_000),
            metadata: None,
        };
        items.push(item).expect(&rt, "memory");
        node.give(&rt, Event::Fetch(items));
    }
    node.respond(&rt, HI, 0);
    assert_same(&rt, node.delivered.as_slice(), [(70_000, 2)].as_slice());
    node.complete(&rt, 0);
    assert_same(&rt, node.core.count(&rt), (0, 0));
    // By hand: by scope such a test takes 13 to 57 seconds to prove.
    drop(node);
}

/// Ten thousand peers, of which all but one are blocked at last, and a hundred keys.
#[test]
fn ample_memory_for_peers(rt: HostRuntime) {
    let alloc = rt.alloc();
    let mut node = make_node(&rt, alloc, 10_000);
    node.give(&rt, Event::Fetch(fetches(&rt, alloc, 0, 100)));
    node.wake(&rt, 50);
    node.give(&rt, Event::Blocked(peers(&rt, alloc, 9_999)));
    node.wake(&rt, 50);
    assert_same(&rt, node.asked.len(), 100);
    for number in 0..100_u64 {
        node.respond(&rt, HI, 0);
        node.complete(&rt, number);
    }
    assert_same(&rt, node.core.count(&rt), (0, 0));
    // By hand: by scope such a test takes 13 to 57 seconds to prove.
    drop(node);
}

/// A key with five thousand targets, and five thousand others.
#[test]
fn ample_memory_for_targets(rt: HostRuntime) {
    let alloc = rt.alloc();
    let mut node = make_node(&rt, alloc, 1);
    for batch in 0..2_u32 {
        let mut targets = NonEmptyVec::new(alloc, batch * 5_000).expect(&rt, "memory");
        for target in 1..5_000_u32 {
            targets.push(batch * 5_000 + target).expect(&rt, "memory");
        }
        let mut items = Vec::new(alloc);
        let item = FetchKey {
            key: Name::numbered(0),
            subscribers: subscribers(&rt, alloc, 1, 1),
            metadata: Some(targets),
        };
        items.push(item).expect(&rt, "memory");
        node.give(&rt, Event::Fetch(items));
    }
    assert_same(&rt, node.asked.len(), 1);
    node.respond(&rt, HI, 0);
    node.complete(&rt, 0);
    assert_same(&rt, node.core.count(&rt), (0, 0));
    // By hand: by scope such a test takes 13 to 57 seconds to prove.
    drop(node);
}

/// Ten thousand responses are judged at once, and complete from the last one on.
#[test]
fn ample_memory_for_deliveries(rt: HostRuntime) {
    let alloc = rt.alloc();
    let mut node = make_node(&rt, alloc, 1);
    node.give(&rt, Event::Fetch(fetches(&rt, alloc, 0, 10_000)));
    node.wake(&rt, 9_999);
    for _ in 0..10_000_u32 {
        node.respond(&rt, HI, 0);
    }
    assert_same(&rt, node.delivered.len(), 10_000);
    for before in 0..10_000_u64 {
        node.complete(&rt, 9_999 - before);
    }
    assert_same(&rt, node.core.count(&rt), (0, 0));
    // By hand: by scope such a test takes 13 to 57 seconds to prove.
    drop(node);
}

/// Ten thousand requests of a peer wait for their bytes, and are answered from the last one on.
#[test]
fn ample_memory_for_serves(rt: HostRuntime) {
    let alloc = rt.alloc();
    let mut node = make_node(&rt, alloc, 1);
    for id in 0..10_000_u64 {
        node.receive(&rt, 0, id, &[0, 0, 0, 0, 1], 0);
    }
    assert_same(&rt, node.produced, 10_000);
    for before in 0..10_000_u64 {
        let serve = 9_999 - before;
        let value = Some(Bytes::from_static(b"hi"));
        node.give(&rt, Event::Served { serve, value });
    }
    assert_same(&rt, node.replied, 12);
    // By hand: by scope such a test takes 13 to 57 seconds to prove.
    drop(node);
}

/// A peer has no data, 66,000 times.
#[test]
fn ample_memory_for_retries(rt: HostRuntime) {
    let alloc = rt.alloc();
    let mut node = make_node(&rt, alloc, 1);
    node.give(&rt, Event::Fetch(fetches(&rt, alloc, 0, 1)));
    for _ in 0..66_000_u32 {
        node.respond(&rt, MISSING, 0);
        node.wake(&rt, 1);
    }
    assert_same(&rt, node.core.count(&rt), (1, 66_000));
    // By hand: by scope such a test takes 13 to 57 seconds to prove.
    drop(node);
}
