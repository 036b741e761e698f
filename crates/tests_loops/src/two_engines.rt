//! Two engines over one network in memory, which serve each other keys while their peer sets change and
//! every seventh send is refused.

use crate::fakes::acts::Act;
use crate::fakes::world::Setting;
use crate::pair::{Acts, Play, judge_end, with_pairs};
use crate::twin::{Hands, awaited};
use bytes::Bytes;
use resolver::base::{Draws, Seeded};
use resolver::p2p::mocks::Key;
use resolver::{Outcome, Resolution};
use std::alloc::AllocGlobal;
use std::io::Print;
use std::num::NonZeroU32;
use std::panic::Expect;
use std::process::Abort;
use std::random::RandomSource;
use std::sync::Wait;
use tests_support::seen::Wrong;

/// How many names of keys there are.
const KEYS: u64 = 250;

/// How many fetches each engine makes: of each key four times, for two subscribers of its own each time; and of each
/// once where a peer may have few requests, since a run is as long then.
fn all_fetches(setting: Setting) -> u64 {
    match setting.limit {
        None => 4 * 2 * KEYS,
        Some(_) => 2 * KEYS,
    }
}

/// How many of its fetches wait at once, at the most.
const OPEN: u64 = 128;

/// How many things of a kind an engine does in a step, at the most.
const BATCH: u64 = 16;

/// More steps than a run takes.
const STEPS: u64 = 20_000;

/// How far a run has come.
#[derive(Drop)]
struct Course {
    now: u64,
    /// The index of the last peer sets.
    index: u64,
    draws: Seeded,
}

/// The key and the subscriber of the next fetch, if one may be made: each key is wanted by one subscriber, and then
/// by a second one.
fn next_fetch(hands: &mut Hands) -> Option<(u8, u16)> {
    let fetches = hands.counts.fetches;
    let open = fetches.saturating_sub(hands.delivered.len() as u64);
    if fetches >= all_fetches(hands.setting) || open >= OPEN {
        return None;
    }
    let place = fetches % (2 * KEYS);
    let round = fetches / (2 * KEYS) % 4;
    let key = (place / 2 % 256) as u8;
    let subscriber = (10 + 2 * round + place % 2) as u16;
    hands.counts.fetches = fetches.saturating_add(1);
    Some((key, subscriber))
}

/// What one of the two does next.
#[derive(Drop)]
enum Work {
    Fetch((u8, u16)),
    /// The other has sent this.
    Net(Bytes),
    Serve(u8),
    Judge,
    /// What the other has sent is for neither of the two.
    Pass,
    Nothing,
}

/// What one of the two does next of this kind, if there is such a thing: it fetches, takes the next message of
/// the other, if that is for it, has its producer answer with the key itself, or its consumer judge.
fn next_work(me: &mut Hands, other: &mut Hands, kind: u128) -> Work {
    match kind {
        0 => match next_fetch(me) {
            Some(wants) => Work::Fetch(wants),
            None => Work::Nothing,
        },
        1 | 2 | 3 => match other.sent.pop_front() {
            Some((peer, bytes)) => {
                if peer.0 == me.setting.me {
                    Work::Net(bytes)
                } else {
                    Work::Pass
                }
            }
            None => Work::Nothing,
        },
        4 | 5 => match me.serves.front() {
            Some(&(_, Key(key))) => Work::Serve(key),
            None => Work::Nothing,
        },
        _ if me.deliveries.is_empty() => Work::Nothing,
        _ => Work::Judge,
    }
}

/// One of the two does this. Says whether there was something to be done.
fn do_next(rt: &(impl Abort + Print), me: &mut impl Acts, other: u8, work: &Work) -> bool {
    match work {
        Work::Fetch(wants) => me.act(rt, Act::Fetch(&[*wants])),
        Work::Net(bytes) => me.act(rt, Act::Net(other, bytes.as_slice())),
        Work::Serve(key) => me.act(rt, Act::Serve(&[*key])),
        Work::Judge => me.act(rt, Act::Judge(Outcome::Resolved(Resolution::Complete))),
        Work::Pass => {}
        Work::Nothing => return false,
    }
    true
}

/// One of the two does several things of one kind.
fn work_on(rt: &(impl Abort + Print), me: &mut impl Acts, other: &mut Hands, kind: u128) {
    for _ in 0..BATCH {
        let next = next_work(me.hands(), other, kind);
        let is_done = do_next(rt, me, other.setting.me, &next);
        if !is_done {
            break;
        }
    }
}

/// A number below this one, as a call that promises nothing.
fn draw(draws: &mut Seeded, bound: u128) -> u128 {
    if bound == 0 {
        return 0;
    }
    draws.below(bound)
}

/// Peers that are drawn. 7 and 8 never answer.
fn draw_peers(draws: &mut Seeded) -> &'static [u8] {
    match draw(draws, 4) {
        0 => &[],
        1 => &[7, 8],
        2 => &[1, 2, 7],
        _ => &[1, 2],
    }
}

/// What is done in a step.
enum Step {
    /// Both take this.
    Both(Act<'static>),
    /// The first one works, on things of this kind.
    One(u128),
    Two(u128),
}

/// A step of the draws. Every tenth changes the peers of both, and in some of the others time goes by.
fn draw_step(course: &mut Course, number: u64) -> Step {
    if number % 10 == 0 {
        let peers = draw_peers(&mut course.draws);
        course.index = course.index.saturating_add(1);
        return Step::Both(Act::Peers(course.index, peers));
    }
    match draw(&mut course.draws, 10) {
        0 => {
            course.now = course.now.saturating_add(7);
            Step::Both(Act::At(course.now))
        }
        1..=5 => Step::One(draw(&mut course.draws, 8)),
        _ => Step::Two(draw(&mut course.draws, 8)),
    }
}

/// Whether everything was fetched, and nothing is left to be done.
fn is_over(pair: &mut impl Acts) -> bool {
    let deadlines = pair.deadlines();
    let hands = pair.hands();
    hands.counts.fetches >= all_fetches(hands.setting)
        && deadlines == (None, None)
        && hands.deliveries.is_empty()
}

/// Whether each of these, in their order, stands there once, and there are so many.
fn is_each_once(delivered: &[(u8, u16)], count: u64) -> bool {
    for i in 1..delivered.len() {
        if delivered[i - 1] == delivered[i] {
            return false;
        }
    }
    delivered.len() as u64 == count
}

/// What is wrong at the end, if anything is: each key is to be delivered once to each subscriber, each response that
/// was handed out to have earned one credit, and nothing to be awaited.
fn complaint(rt: &impl Abort, hands: &mut Hands, awaited: Option<u128>) -> Option<&'static str> {
    hands.delivered.sort().expect(rt, "memory");
    if !is_each_once(hands.delivered.as_slice(), all_fetches(hands.setting)) {
        return Some("a key was not delivered once to each subscriber");
    }
    if hands.counts.credits != hands.counts.responses {
        return Some("the credits are not the responses");
    }
    if awaited.is_some() {
        return Some("a request is left");
    }
    None
}

/// Fails where something is wrong at the end.
fn judge(rt: &(impl Abort + Print), pair: &mut impl Acts) {
    let awaited = awaited(pair.deadlines());
    let complaint = complaint(rt, pair.hands(), awaited);
    judge_end(rt, pair, complaint);
}

/// A step of both.
fn go<P: Acts>(rt: &(impl Abort + Print), one: &mut P, two: &mut P, step: Step) {
    match step {
        Step::Both(act) => {
            one.act(rt, act);
            two.act(rt, act);
        }
        Step::One(kind) => work_on(rt, one, two.hands(), kind),
        Step::Two(kind) => work_on(rt, two, one.hands(), kind),
    }
}

/// Steps by the draws, until nothing is left.
fn go_all<P: Acts>(rt: &(impl Abort + Print), one: &mut P, two: &mut P, course: &mut Course) {
    for number in 1..STEPS {
        go(rt, one, two, draw_step(course, number));
        if is_over(one) && is_over(two) {
            break;
        }
    }
    judge(rt, one);
    judge(rt, two);
}

/// One of the two engines.
fn setting(me: u8, seed: u64, limit: Option<NonZeroU32>) -> Setting {
    Setting {
        me,
        seed: Some(seed),
        limit,
        ..Setting::with(Wrong::Sevenths)
    }
}

impl Play for Course {
    fn play<A: Acts>(&mut self, rt: &(impl Abort + Print), pairs: &mut [A]) {
        let [one, two] = pairs else {
            panic!(rt; "two engines");
        };
        go_all(rt, one, two, self);
    }
}

/// Runs of ten seeds, from this one on, in which a peer may have so many requests at once. Where one of the two
/// goes wrong its script is printed.
fn run_all<R>(rt: R, first: u64, limit: Option<NonZeroU32>)
where
    R: Abort + Print + Wait + RandomSource + AllocGlobal + Copy + Drop + Send + 'static,
{
    for seed in first..first.saturating_add(10) {
        let settings = [
            setting(1, seed, limit),
            setting(2, seed.wrapping_add(1000), limit),
        ];
        let mut course = Course {
            now: 0,
            index: 0,
            draws: Seeded::new(seed.wrapping_add(2000)),
        };
        with_pairs(rt, &settings, None, &mut course);
    }
}

#[test]
fn seeds_from_0(rt: HostRuntime) {
    run_all(rt, 0, None);
}

#[test]
fn seeds_from_10(rt: HostRuntime) {
    run_all(rt, 10, None);
}

#[test]
fn seeds_from_20(rt: HostRuntime) {
    run_all(rt, 20, None);
}

#[test]
fn seeds_from_30(rt: HostRuntime) {
    run_all(rt, 30, None);
}

#[test]
fn seeds_from_40(rt: HostRuntime) {
    run_all(rt, 40, None);
}

#[test]
fn seeds_from_50(rt: HostRuntime) {
    run_all(rt, 50, None);
}

#[test]
fn seeds_from_60(rt: HostRuntime) {
    run_all(rt, 60, None);
}

#[test]
fn seeds_from_70(rt: HostRuntime) {
    run_all(rt, 70, None);
}

#[test]
fn seeds_from_80(rt: HostRuntime) {
    run_all(rt, 80, None);
}

#[test]
fn seeds_from_90(rt: HostRuntime) {
    run_all(rt, 90, None);
}

#[test]
fn seeds_with_a_limit_of_two(rt: HostRuntime) {
    run_all(rt, 100, NonZeroU32::new(2));
}
