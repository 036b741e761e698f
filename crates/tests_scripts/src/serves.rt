//! Many serves, closed in the worst order.

use crate::cores::{Given, Plain, PlainEffect, make_core, take};
use resolver::p2p::effects::Effect;
use std::alloc::Global;
use std::process::Abort;

/// How many effects of serves a core has where this is given.
fn serves(rt: &impl Abort, alloc: Global, core: &mut Plain, given: Given) -> usize {
    let effects = take(rt, alloc, core, 0, given);
    count_serves(effects.as_slice())
}

fn count_serves(effects: &[PlainEffect]) -> usize {
    let mut count = 0_usize;
    for effect in effects {
        if matches!(effect, Effect::Produce { .. } | Effect::Reply { .. }) {
            count = count.saturating_add(1);
        }
    }
    count
}

/// How many requests of peer 3 were handed to the producer.
fn open_serves(rt: &impl Abort, alloc: Global, core: &mut Plain, count: u64) -> usize {
    let mut produced = 0_usize;
    for _ in 0..count {
        let request = Given::Net(3, &[0, 0, 0, 0, 0, 0, 0, 7, 0, 123]);
        produced = produced.saturating_add(serves(rt, alloc, core, request));
    }
    produced
}

/// How many replies came, where the serves end from the last on.
fn close_serves(rt: &impl Abort, alloc: Global, core: &mut Plain, count: u64) -> usize {
    let mut replied = 0_usize;
    for before in 0..count {
        let dropped = Given::Served(count - 1 - before, None);
        replied = replied.saturating_add(serves(rt, alloc, core, dropped));
    }
    replied
}

/// How many serves are produced and then replied to.
fn counts(rt: &impl Abort, alloc: Global, count: u64) -> (usize, usize) {
    let mut core = make_core(alloc, None);
    let produced = open_serves(rt, alloc, &mut core, count);
    let replied = close_serves(rt, alloc, &mut core, count);
    (produced, replied)
}

/// Ten thousand serves are closed from the last on, each with one reply.
#[test]
fn ten_thousand_serves(rt: HostRuntime) {
    assert_eq!(&rt; counts(&rt, rt.alloc(), 10_000), (10_000, 10_000));
}
