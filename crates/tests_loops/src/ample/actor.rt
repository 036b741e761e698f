//! An actor over an opaque source.

use crate::ample::{FOUR_MIB, Low, padded, subscribers};
use crate::support::assert_same;
use bytes::Bytes;
use resolver::ingress::FetchKey;
use resolver::opaque::{Actor, Effect, Event, Input};
use resolver::{Outcome, Resolution};
use std::alloc::Global;
use std::collections::VecDeque;
use std::panic::Expect;
use std::process::Abort;

type Wide = Actor<u32, Bytes, u32, Low>;

type WideInput = Input<u32, Bytes, u32, Low>;

type WideEvent = Event<u32, Bytes, u32, Low>;

type WideEffect = Effect<u32, Bytes, u32>;

/// An actor, as calls that promise nothing.
trait Takes {
    fn take(&mut self, rt: &impl Abort, input: WideInput) -> Vec<WideEffect>;

    /// How many keys are demanded.
    fn count(&self, rt: &impl Abort) -> usize;
}

impl Takes for Wide {
    fn take(&mut self, rt: &impl Abort, input: WideInput) -> Vec<WideEffect> {
        self.step(input).expect(rt, "a step that is taken")
    }

    fn count(&self, rt: &impl Abort) -> usize {
        let rows = self.rows().expect(rt, "memory");
        let count = rows.len();
        count
    }
}

/// An actor, and what it told.
#[derive(Drop)]
struct Node<A> {
    actor: A,
    alloc: Global,
    now: u64,
    /// The attempts that have begun and have no answer.
    begun: VecDeque<u64>,
    /// How many subscribers each delivery named, and how many bytes it had.
    delivered: Vec<(usize, usize)>,
}

/// An actor with a delay of 10, as a call that promises nothing.
fn make_node(alloc: Global) -> Node<Wide> {
    Node {
        actor: Actor::new(alloc, 10),
        alloc,
        now: 0,
        begun: VecDeque::new(alloc),
        delivered: Vec::new(alloc),
    }
}

/// Keys from this one on, so many of them, each wanted by subscriber 1.
fn fetches(rt: &impl Abort, alloc: Global, first: u32, count: u32) -> Vec<FetchKey<u32, u32, ()>> {
    let mut items = Vec::new(alloc);
    for key in 0..count {
        let item = FetchKey {
            key: first.saturating_add(key),
            subscribers: subscribers(rt, alloc, 1, 1),
            metadata: (),
        };
        items.push(item).expect(rt, "memory");
    }
    items
}

impl<A: Takes> Node<A> {
    fn carry_out(&mut self, rt: &impl Abort, effect: &WideEffect) {
        match effect {
            Effect::Start { attempt, .. } => self.begun.push_back(*attempt).expect(rt, "memory"),
            Effect::Deliver {
                delivery,
                value,
                ..
            } => {
                let delivered = (delivery.subscribers.len(), value.len());
                self.delivered.push(delivered).expect(rt, "memory");
            }
            _ => {}
        }
    }

    /// Takes an event, and carries out what comes of it.
    fn give(&mut self, rt: &impl Abort, event: WideEvent) {
        let now = self.now as u128;
        let effects = self.actor.take(rt, Input { now, event });
        for effect in &effects {
            self.carry_out(rt, effect);
        }
    }

    /// The first attempt that has no answer is answered so.
    fn answer(&mut self, rt: &impl Abort, value: Option<Bytes>) {
        match self.begun.pop_front() {
            Some(attempt) => self.give(rt, Event::Fetched { attempt, value }),
            None => drop(value),
        }
    }

    /// What was handed out under this number is complete.
    fn complete(&mut self, rt: &impl Abort, number: u64) {
        let outcome = Some(Outcome::Resolved(Resolution::Complete));
        self.give(rt, Event::Verdict { number, outcome });
    }
}

#[test]
fn ample_memory_of_the_actor_for_values(rt: HostRuntime) {
    let alloc = rt.alloc();
    let mut node = make_node(alloc);
    node.give(&rt, Event::Fetch(fetches(&rt, alloc, 0, 1)));
    node.answer(&rt, Some(padded(&rt, alloc, &[], FOUR_MIB)));
    assert_same(&rt, node.delivered.as_slice(), [(1, FOUR_MIB)].as_slice());
    node.complete(&rt, 0);
    assert_same(&rt, node.actor.count(&rt), 0);
    // By hand: by scope such a test takes 13 to 57 seconds to prove.
    drop(node);
}

/// A hundred thousand keys, in batches of ten thousand, which all are called off.
#[test]
fn ample_memory_of_the_actor_for_keys(rt: HostRuntime) {
    let alloc = rt.alloc();
    let mut node = make_node(alloc);
    for batch in 0..10_u32 {
        let items = fetches(&rt, alloc, batch * 10_000, 10_000);
        node.give(&rt, Event::Fetch(items));
    }
    assert_same(&rt, node.begun.len(), 100_000);
    assert_same(&rt, node.actor.count(&rt), 100_000);
    node.give(&rt, Event::Retain(Low(0)));
    assert_same(&rt, node.actor.count(&rt), 0);
    // By hand: by scope such a test takes 13 to 57 seconds to prove.
    drop(node);
}

/// Seventy thousand subscribers of one key, who all get its value.
#[test]
fn ample_memory_of_the_actor_for_subscribers(rt: HostRuntime) {
    let alloc = rt.alloc();
    let mut node = make_node(alloc);
    for batch in 0..7_u32 {
        let mut items = Vec::new(alloc);
        let item = FetchKey {
            key: 0,
            subscribers: subscribers(&rt, alloc, batch * 10_000, 10_000),
            metadata: (),
        };
        items.push(item).expect(&rt, "memory");
        node.give(&rt, Event::Fetch(items));
    }
    node.answer(&rt, Some(Bytes::from_static(b"hi")));
    assert_same(&rt, node.delivered.as_slice(), [(70_000, 2)].as_slice());
    node.complete(&rt, 0);
    assert_same(&rt, node.actor.count(&rt), 0);
    // By hand: by scope such a test takes 13 to 57 seconds to prove.
    drop(node);
}

/// Ten thousand values are judged at once, and complete from the last one on.
#[test]
fn ample_memory_of_the_actor_for_deliveries(rt: HostRuntime) {
    let alloc = rt.alloc();
    let mut node = make_node(alloc);
    node.give(&rt, Event::Fetch(fetches(&rt, alloc, 0, 10_000)));
    for _ in 0..10_000_u32 {
        node.answer(&rt, Some(Bytes::from_static(b"hi")));
    }
    assert_same(&rt, node.delivered.len(), 10_000);
    for before in 0..10_000_u64 {
        node.complete(&rt, 9_999 - before);
    }
    assert_same(&rt, node.actor.count(&rt), 0);
    // By hand: by scope such a test takes 13 to 57 seconds to prove.
    drop(node);
}

/// The source has nothing, 66,000 times.
#[test]
fn ample_memory_of_the_actor_for_retries(rt: HostRuntime) {
    let alloc = rt.alloc();
    let mut node = make_node(alloc);
    node.give(&rt, Event::Fetch(fetches(&rt, alloc, 0, 1)));
    for _ in 0..66_000_u32 {
        node.answer(&rt, None);
        node.now = node.now.saturating_add(10);
        node.give(&rt, Event::RetriesDue);
    }
    assert_same(&rt, node.begun.len(), 1);
    assert_same(&rt, node.actor.count(&rt), 1);
    // By hand: by scope such a test takes 13 to 57 seconds to prove.
    drop(node);
}
