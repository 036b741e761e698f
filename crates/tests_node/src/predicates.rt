use crate::support::equal_texts;
use resolver_predicates::predicates::{All, Both, Either, Nobody, Not, OfKeys, Only};
use resolver_types::Predicate;
use std::alloc::Global;
use std::collections::BTreeSet;
use std::fmt::Write;
use std::panic::Expect;
use std::process::Abort;

/// The pairs of the keys 1 to 3 and the subscribers 10 and 11 that are kept.
fn kept<Q: Predicate<u8, u16>>(rt: &impl Abort, alloc: Global, predicate: &Q) -> String {
    let mut text = String::new(alloc);
    for key in 1..4_u8 {
        for subscriber in 10..12_u16 {
            if predicate.keep(&key, &subscriber) {
                write!(text, "{key}:{subscriber} ").expect(rt, "memory");
            }
        }
    }
    text
}

/// Ends the test where other pairs are kept.
fn keeps<Q: Predicate<u8, u16>>(rt: &impl Abort, alloc: Global, predicate: &Q, wanted: &str) {
    let text = kept(rt, alloc, predicate);
    equal_texts(rt, text.as_str(), wanted);
}

/// The keys 1 and 3.
fn odd(rt: &impl Abort, alloc: Global) -> OfKeys<u8> {
    let mut keys = BTreeSet::new(alloc);
    keys.insert(1).expect(rt, "memory");
    keys.insert(3).expect(rt, "memory");
    OfKeys { keys }
}

#[test]
fn all_keeps_everybody_and_nobody_none(rt: HostRuntime) {
    let (rt, alloc) = (&rt, rt.alloc());
    keeps(rt, alloc, &All, "1:10 1:11 2:10 2:11 3:10 3:11 ");
    keeps(rt, alloc, &Nobody, "");
}

#[test]
fn one_subscriber_stays_or_goes(rt: HostRuntime) {
    let (rt, alloc) = (&rt, rt.alloc());
    let only = Only { subscriber: 11 };
    keeps(rt, alloc, &only, "1:11 2:11 3:11 ");
    keeps(rt, alloc, &Not { inner: only }, "1:10 2:10 3:10 ");
}

#[test]
fn some_keys_stay_or_go(rt: HostRuntime) {
    let (rt, alloc) = (&rt, rt.alloc());
    let odd = odd(rt, alloc);
    keeps(rt, alloc, &odd, "1:10 1:11 3:10 3:11 ");
    keeps(rt, alloc, &Not { inner: odd }, "2:10 2:11 ");
}

#[test]
fn both_and_either_join_two(rt: HostRuntime) {
    let (rt, alloc) = (&rt, rt.alloc());
    let both = Both {
        first: odd(rt, alloc),
        second: Only { subscriber: 10 },
    };
    keeps(rt, alloc, &both, "1:10 3:10 ");
    let either = Either {
        first: odd(rt, alloc),
        second: Only { subscriber: 10 },
    };
    keeps(rt, alloc, &either, "1:10 1:11 2:10 3:10 3:11 ");
}

#[test]
fn a_clone_keeps_the_same(rt: HostRuntime) {
    let (rt, alloc) = (&rt, rt.alloc());
    let predicate = Both {
        first: Not {
            inner: odd(rt, alloc),
        },
        second: Either {
            first: Only { subscriber: 10 },
            second: Nobody,
        },
    };
    let clone = predicate.clone().expect(rt, "memory");
    keeps(rt, alloc, &clone, "2:10 ");
}
