//! An engine's core by itself, and what tests give it.

use bytes::Bytes;
use resolver::Outcome;
use resolver::base::{Check, NonEmptyVec, Predicate};
use resolver::ingress::FetchKey;
use resolver::p2p::Core;
use resolver::p2p::effects::Effect;
use resolver::p2p::fetcher::{Answer, Config};
use resolver::p2p::inputs::{Event, Happening, Input};
use resolver::p2p::mocks::Key;
use resolver_script::kept::Kept;
use resolver_script::peer::Peer;
use std::alloc::Global;
use std::panic::Expect;
use std::process::Abort;

/// A core at the names of a script.
pub type Plain = Core<Key, Peer, u16, Kept>;

/// What it takes.
pub type PlainInput = Input<Key, Peer, u16, Kept>;

/// What happens around it.
type PlainEvent = Event<Key, Peer, u16, Kept>;

/// What it tells.
pub type PlainEffect = Effect<Key, Peer, u16>;

/// What a test gives.
#[derive(Clone, Copy)]
pub enum Given {
    /// These peers, as the first set.
    Peers(&'static [u8]),
    /// The subscriber wants the key, with the trace mark 7.
    Fetch(u8, u16),
    /// This subscriber alone is kept, of every key.
    KeepSubscriber(u16),
    /// All are kept but those of this key.
    DropKey(u8),
    Wake,
    TimeOut,
    Verdict(u64, Option<Outcome>),
    /// The producer has these bytes for this serve, or drops it.
    Served(u64, Option<&'static [u8]>),
    /// This peer sends these bytes.
    Net(u8, &'static [u8]),
    /// The end.
    End,
    Drawn(u128),
    Clear,
    /// The peer that is checked is to wait for this moment.
    Until(u128),
    Sent(bool),
}

/// A core with a timeout of 50 and a delay of 10, as a call that promises nothing.
pub fn make_core(alloc: Global, me: Option<Peer>) -> Plain {
    make_core_of(alloc, me)
}

/// The same, with subscribers of another type.
pub fn make_core_of<S: Ord + Clone, Q: Predicate<Key, S> + Drop>(
    alloc: Global,
    me: Option<Peer>,
) -> Core<Key, Peer, S, Q> {
    let configuration = Config {
        me,
        fetch_timeout: 50,
        retry_delay: 10,
        peer_limit: None,
        priority_requests: false,
    };
    Core::new(alloc, configuration, false)
}

fn fetch(rt: &impl Abort, alloc: Global, key: u8, subscriber: u16) -> PlainEvent {
    let item = FetchKey {
        key: Key(key),
        subscribers: NonEmptyVec::new(alloc, (subscriber, 7)).expect(rt, "memory"),
        metadata: None,
    };
    let mut items = Vec::new(alloc);
    items.push(item).expect(rt, "memory");
    Event::Fetch(items)
}

/// Peers by their numbers.
pub fn numbered(rt: &impl Abort, alloc: Global, numbers: &[u8]) -> Vec<Peer> {
    let mut peers = Vec::new(alloc);
    for number in numbers {
        peers.push(Peer(*number)).expect(rt, "memory");
    }
    peers
}

fn served(serve: u64, bytes: Option<&'static [u8]>) -> PlainEvent {
    let value = match bytes {
        Some(bytes) => Some(Bytes::from_static(bytes)),
        None => None,
    };
    Event::Served { serve, value }
}

/// The event that is given, or the answer.
fn event_of(rt: &impl Abort, alloc: Global, given: Given) -> Result<PlainEvent, Answer> {
    match given {
        Given::Peers(names) => Ok(Event::PeerSet {
            index: 1,
            peers: numbered(rt, alloc, names),
        }),
        Given::Fetch(key, subscriber) => Ok(fetch(rt, alloc, key, subscriber)),
        Given::KeepSubscriber(kept) => Ok(Event::Retain(Kept::Subscriber(kept))),
        Given::DropKey(dropped) => Ok(Event::Retain(Kept::AllBut(dropped))),
        Given::Wake => Ok(Event::PendingDue),
        Given::TimeOut => Ok(Event::ActiveDue),
        Given::Verdict(number, outcome) => Ok(Event::Verdict { number, outcome }),
        Given::Served(serve, bytes) => Ok(served(serve, bytes)),
        Given::Net(peer, bytes) => Ok(Event::Net {
            peer: Peer(peer),
            bytes: Bytes::from_static(bytes),
        }),
        Given::End => Ok(Event::End),
        Given::Drawn(number) => Err(Answer::Drawn(number)),
        Given::Clear => Err(Answer::Checked(Check::Clear)),
        Given::Until(moment) => Err(Answer::Checked(Check::Until(moment))),
        Given::Sent(is_accepted) => Err(Answer::Sent(is_accepted)),
    }
}

/// What a core takes where this is given at this moment.
pub fn input_of(rt: &impl Abort, alloc: Global, now: u64, given: Given) -> PlainInput {
    match event_of(rt, alloc, given) {
        Ok(event) => Input::Happens(Happening {
            now: now as u128,
            event,
        }),
        Err(answer) => Input::Answers(answer),
    }
}

/// What a core tells where this is given at this moment, which it is not to refuse.
pub fn take(
    rt: &impl Abort,
    alloc: Global,
    core: &mut Plain,
    now: u64,
    given: Given,
) -> Vec<PlainEffect> {
    let input = input_of(rt, alloc, now, given);
    core.step(input).expect(rt, "an input that is taken")
}
