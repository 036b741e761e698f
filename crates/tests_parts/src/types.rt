use crate::support::{copied, equal, holds, is_written};
use resolver_types::{Delivery, Fetch, NonEmptyVec, Outcome, Resolution, laws, non_empty};
use std::alloc::Global;
use std::cmp::Ordering;
use std::panic::Expect;
use std::process::Abort;

fn delivery(
    rt: &impl Abort,
    alloc: Global,
    key: u8,
    subscribers: &[(u16, u64)],
) -> Delivery<u8, u16> {
    let listed = Vec::from_slice(alloc, subscribers).expect(rt, "memory");
    let subscribers = NonEmptyVec::try_from(listed)
        .ok()
        .expect(rt, "a subscriber");
    Delivery { key, subscribers }
}

// Key first, then the subscribers in order; a shorter equal beginning is less; marks don't count.
#[test]
fn deliveries_compare_by_key_and_subscribers(rt: HostRuntime) {
    let rt = &rt;
    const CASES: &[(u8, &[(u16, u64)], u8, &[(u16, u64)], Ordering)] = &[
        (1, &[(10, 7)], 1, &[(10, 8)], Ordering::Equal),
        (1, &[(10, 7)], 2, &[(9, 7)], Ordering::Less),
        (2, &[(9, 7)], 1, &[(10, 7)], Ordering::Greater),
        (1, &[(10, 7)], 1, &[(11, 0)], Ordering::Less),
        (1, &[(10, 7)], 1, &[(10, 7), (11, 0)], Ordering::Less),
        (1, &[(10, 7), (11, 0)], 1, &[(10, 7)], Ordering::Greater),
        (
            1,
            &[(10, 7), (12, 0)],
            1,
            &[(10, 0), (11, 9)],
            Ordering::Greater,
        ),
    ];
    for &(key, subscribers, other_key, others, order) in CASES {
        let one = delivery(rt, rt.alloc(), key, subscribers);
        let other = delivery(rt, rt.alloc(), other_key, others);
        compares(rt, &one, &other, order);
    }
}

/// How two deliveries compare, of which the first has this key and this subscriber beside 10.
fn compared(rt: &impl Abort, alloc: Global, key: f64, subscriber: f64) -> Option<Ordering> {
    let one = Delivery {
        key,
        subscribers: non_empty![in alloc; (10.0, 7), (subscriber, 8)].expect(rt, "memory"),
    };
    let other = Delivery {
        key: 1.0,
        subscribers: non_empty![in alloc; (10.0, 9), (11.0, 0)].expect(rt, "memory"),
    };
    equal(
        rt,
        &laws::partial_order_of_deliveries(&one, &other),
        &one.partial_cmp(&other),
    );
    one.partial_cmp(&other)
}

#[test]
fn deliveries_may_not_compare(rt: HostRuntime) {
    let rt = &rt;
    equal(
        rt,
        &compared(rt, rt.alloc(), 1.0, 11.0),
        &Some(Ordering::Equal),
    );
    equal(
        rt,
        &compared(rt, rt.alloc(), 1.0, 12.0),
        &Some(Ordering::Greater),
    );
    equal(
        rt,
        &compared(rt, rt.alloc(), 0.5, f64::NAN),
        &Some(Ordering::Less),
    );
    equal(rt, &compared(rt, rt.alloc(), 1.0, f64::NAN), &None);
    equal(rt, &compared(rt, rt.alloc(), f64::NAN, 11.0), &None);
}

/// Compares to another so.
fn compares<T: Ord>(rt: &impl Abort, one: &T, other: &T, order: Ordering) {
    let found = (
        one.cmp(other),
        one.partial_cmp(other),
        one == other,
        one < other,
        one > other,
    );
    let wanted = (
        order,
        Some(order),
        order.is_eq(),
        order.is_lt(),
        order.is_gt(),
    );
    equal(rt, &found, &wanted);
}

/// The laws say of them what their comparison does.
fn obeys_laws(rt: &impl Abort, one: &Fetch<u8, u16>, other: &Fetch<u8, u16>, order: Ordering) {
    holds(rt, laws::are_equal_fetches(one, other) == order.is_eq());
    holds(rt, laws::is_fetch_below(one, other) == order.is_lt());
    equal(rt, &laws::order_of_fetches(one, other), &order);
}

fn fetch((key, subscriber, mark): (u8, u16, u64)) -> Fetch<u8, u16> {
    Fetch {
        key,
        subscriber,
        mark,
    }
}

#[test]
fn fetches_compare_by_key_and_subscriber(rt: HostRuntime) {
    const CASES: &[((u8, u16, u64), (u8, u16, u64), Ordering)] = &[
        ((1, 10, 7), (1, 10, 8), Ordering::Equal),
        ((1, 10, 7), (1, 11, 0), Ordering::Less),
        ((2, 0, 0), (1, 11, 9), Ordering::Greater),
    ];
    for &(fields, other_fields, order) in CASES {
        let one = fetch(fields);
        let other = fetch(other_fields);
        compares(&rt, &one, &other, order);
        obeys_laws(&rt, &one, &other, order);
    }
}

#[test]
fn deliveries_compare_whatever_their_marks(rt: HostRuntime) {
    let rt = &rt;
    let one = delivery(rt, rt.alloc(), 1, &[(10, 7)]);
    let other = delivery(rt, rt.alloc(), 1, &[(10, 8)]);
    holds(rt, laws::are_equal_deliveries(&one, &other));
    equal(
        rt,
        &laws::order_of_deliveries(&one, &other),
        &Ordering::Equal,
    );
}

#[test]
fn clones_of_a_fetch_keep_the_mark(rt: HostRuntime) {
    const FETCH: &str = "Fetch { key: 1, subscriber: 10, mark: 7 }";
    let (rt, alloc) = (&rt, rt.alloc());
    let fetch = fetch((1, 10, 7));
    is_written(rt, alloc, fetch.clone().expect(rt, "memory"), FETCH);
    is_written(rt, alloc, copied(rt, &fetch), FETCH);
}

#[test]
fn clones_of_a_delivery_keep_the_marks(rt: HostRuntime) {
    const DELIVERY: &str =
        "Delivery { key: 1, subscribers: NonEmptyVec { items: [(10, 7), (11, 8)] } }";
    let (rt, alloc) = (&rt, rt.alloc());
    let handed = delivery(rt, alloc, 1, &[(10, 7), (11, 8)]);
    let same = handed.clone().expect(rt, "memory");
    let again = copied(rt, &handed);
    is_written(rt, alloc, same, DELIVERY);
    is_written(rt, alloc, again, DELIVERY);
}

#[test]
fn from_a_key_and_from_an_answer(rt: HostRuntime) {
    let rt = &rt;
    let fetch: Fetch<u8, u16> = Fetch::from(5);
    equal(rt, &(fetch.key, fetch.subscriber, fetch.mark), &(5, 0, 0));
    equal(
        rt,
        &Outcome::from(true),
        &Outcome::Resolved(Resolution::Complete),
    );
    equal(rt, &Outcome::from(false), &Outcome::Invalid);
}
