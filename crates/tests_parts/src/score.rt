//! Weights of observed peers, computed outside of this crate.

use crate::support::{equal, equal_at};
use resolver_sampling::score::{DURATION_MAX, Score};
use std::panic::Expect;
use std::process::Abort;

const MILLISECOND: u128 = 1_000_000;

/// Takes in observations, each its nanoseconds and its bytes, and compares the weight after each.
fn weighs(rt: &impl Abort, observations: &[(u128, u64, u64)]) {
    let mut score = Score::default();
    equal(rt, &score.weight(), &1);
    for (elapsed, bytes, weight) in observations {
        score.record(*elapsed, *bytes);
        equal_at(rt, &(elapsed, bytes), &score.weight(), weight);
    }
}

/// Takes in some observations without bytes that took no time, and compares the weight then.
fn idles(rt: &impl Abort, score: &mut Score, count: u32, weight: u64) {
    for _ in 0..count {
        score.record(0, 0);
    }
    equal(rt, &score.weight(), &weight);
}

#[test]
fn score_throughput(rt: HostRuntime) {
    let slower = [(MILLISECOND, 1000, 1_000_001), (999 * MILLISECOND, 1, 1002)];
    let faster = [
        (2000 * MILLISECOND, 0, 1),
        (100 * MILLISECOND, 1_000_000, 476_191),
    ];
    weighs(&rt, &slower);
    weighs(&rt, &faster);
}

#[test]
fn score_recovery(rt: HostRuntime) {
    let fast = (100 * MILLISECOND, 1_000_000, 10_000_001);
    let timeout = 2100 * MILLISECOND;
    let recovers = [
        fast,
        (2000 * MILLISECOND, 0, 476_191),
        (100 * MILLISECOND, 1_000_000, 1_304_348),
    ];
    let falls = [
        fast,
        (timeout, 0, 454_546),
        (timeout, 0, 156_251),
        (timeout, 0, 67_568),
    ];
    weighs(&rt, &recovers);
    weighs(&rt, &falls);
}

#[test]
fn score_extremes(rt: HostRuntime) {
    let rt = &rt;
    let mut score = Score::default();
    score.record(0, u64::MAX);
    idles(rt, &mut score, 0, u64::MAX);
    idles(rt, &mut score, 64, 1_000_000_000);
    idles(rt, &mut score, 32, 1);
}

#[test]
fn thirty_two_observations(rt: HostRuntime) {
    let rt = &rt;
    let mut score = Score::default();
    score.record(1, u64::MAX);
    idles(rt, &mut score, 31, 8_589_934_592_000_000_000);
    idles(rt, &mut score, 1, 4_294_967_296_000_000_000);
    idles(rt, &mut score, 1, 2_147_483_648_000_000_000);
}

#[test]
fn a_clone_is_its_source(rt: HostRuntime) {
    let mut score = Score::default();
    score.record(MILLISECOND, 1000);
    let cloned = score.clone().expect(&rt, "memory");
    score.record(MILLISECOND, 0);
    equal(
        &rt,
        &(cloned.weight(), score.weight()),
        &(1_000_001, 500_001),
    );
}

#[test]
fn longest_time(rt: HostRuntime) {
    let rt = &rt;
    let whole = [(DURATION_MAX, u64::MAX, 1)];
    let half = [(1, u64::MAX, u64::MAX), (DURATION_MAX, u64::MAX, 2)];
    let longer = [(1, u64::MAX, u64::MAX), (u128::MAX, u64::MAX, 2)];
    weighs(rt, &whole);
    weighs(rt, &half);
    weighs(rt, &longer);
}
