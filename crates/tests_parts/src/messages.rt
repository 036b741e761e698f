use crate::support::{equal, holds, is_written};
use resolver_desk::Pending;
use resolver_messages::{FetchKey, Message, laws};
use resolver_types::{Fetch, NonEmptyVec};
use std::alloc::Global;
use std::cell::Cell;
use std::panic::Expect;
use std::process::Abort;
use tests_support::counting::{Counting, Tally};
use tests_support::names::All;

#[test]
fn fetch_of_one_subscriber(rt: HostRuntime) {
    const ITEM: &str =
        "FetchKey { key: 1, subscribers: NonEmptyVec { items: [(20, 7)] }, metadata: None }";
    let rt = &rt;
    let fetch = Fetch {
        key: 1,
        subscriber: 20,
        mark: 7,
    };
    let item: FetchKey<u16, u16, Option<NonEmptyVec<u16>>> = FetchKey::from_fetch(
        rt.alloc(),
        fetch,
    ).expect(rt, "memory");
    is_written(rt, rt.alloc(), item, ITEM);
}

/// A fetch of a key for one subscriber.
fn one<K: Drop>(
    rt: &impl Abort,
    alloc: Global,
    key: K,
    subscriber: u16,
) -> Message<K, u16, (), All> {
    let fetch = Fetch {
        key,
        subscriber,
        mark: 0,
    };
    let mut items = Vec::new(alloc);
    let item = FetchKey::from_fetch(alloc, fetch).expect(rt, "memory");
    items.push(item).expect(rt, "memory");
    Message::Fetch(items)
}

type Plain = Message<u16, u16, (), All>;

/// A copy of a message, which is let go.
fn copied(rt: &impl Abort, alloc: Global, message: Plain) -> Plain {
    message.copy(alloc).expect(rt, "memory")
}

#[test]
fn message_is_copied(rt: HostRuntime) {
    const FETCH: &str =
        "Fetch([FetchKey { key: 1, subscribers: NonEmptyVec { items: [(20, 0)] }, metadata: () }])";
    let (rt, alloc) = (&rt, rt.alloc());
    is_written(rt, alloc, copied(rt, alloc, one(rt, alloc, 1, 20)), FETCH);
    is_written(
        rt,
        alloc,
        copied(rt, alloc, Message::Retain(All)),
        "Retain(All)",
    );
}

type Waiting<'a> = Pending<Counting<'a>, u16, (), All>;

/// Puts a fetch of each of 10,000 keys, one by one, and says how often keys are looked at.
fn put_all<'a>(
    rt: &impl Abort,
    alloc: Global,
    pending: &mut Waiting<'a>,
    looks: &'a Cell<u32>,
    subscriber: u16,
) -> u32 {
    for name in 0..10_000u16 {
        let tally = Tally(looks);
        let message = one(rt, alloc, Counting { tally, name }, subscriber);
        pending.handle(message).expect(rt, "memory");
    }
    looks.replace(0)
}

/// How many fetches a message has, and how many subscribers the one at this place has. Of a test there is
/// nothing.
fn counted<K, S: Drop, M, Q>(
    message: &Message<K, S, M, Q>,
    place: usize,
) -> Option<(usize, usize)> {
    let Message::Fetch(queued) = message else {
        return None;
    };
    match queued.get(place) {
        Some(item) => Some((queued.len(), item.subscribers.len())),
        None => Some((queued.len(), 0)),
    }
}

/// Takes what waits first, and counts it so.
fn pops(pending: &mut Waiting, place: usize) -> Option<Option<(usize, usize)>> {
    let popped = pending.pop()?;
    let counts = counted(&popped, place);
    Some(counts)
}

/// Keys are looked at a few times each where 10,000 are put, where they are put again, and where all are
/// kept. The test waits first, and behind it each fetch, the last for two subscribers.
fn queues_each<'a>(
    rt: &impl Abort,
    alloc: Global,
    pending: &mut Waiting<'a>,
    looks: &'a Cell<u32>,
) {
    let first = put_all(rt, alloc, pending, looks, 10);
    holds(rt, 0 < first);
    holds(rt, first <= 1_000_000);
    holds(rt, put_all(rt, alloc, pending, looks, 11) <= 1_000_000);
    pending.handle(Message::Retain(All)).expect(rt, "memory");
    holds(rt, looks.replace(0) <= 1_000_000);
    let popped = [pops(pending, 0), pops(pending, 9_999)];
    equal(rt, &popped, &[Some(None), Some(Some((10_000, 2)))]);
}

#[test]
fn each_of_ten_thousand_keys_is_compared_with_few(rt: HostRuntime) {
    let looks = Cell::new(0);
    let mut pending = Pending::new(rt.alloc());
    queues_each(&rt, rt.alloc(), &mut pending, &looks);
}

#[test]
fn laws_at_numbers(_rt: HostRuntime) {
    laws::handling_is_right::<u16, u16, (), All>();
    laws::targets_stay::<u16, u16, u32>();
}
