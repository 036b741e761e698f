//! Checks that say Until, and sends that are refused: for each place of these in a run that fetches three
//! keys from three peers.

use crate::fakes::acts::Act;
use crate::fakes::world::Setting;
use crate::pair::{Acts, Play, judge_end, with_pairs};
use crate::twin::{Counts, Hands, NONE, asked_in, message};
use resolver::{Outcome, Resolution};
use std::alloc::AllocGlobal;
use std::io::Print;
use std::panic::Expect;
use std::process::Abort;
use std::random::RandomSource;
use std::sync::Wait;
use tests_support::seen::Wrong;

/// What a run is like.
#[derive(Clone, Copy)]
struct Plan {
    /// How many checks or sends go wrong, from the Nth on.
    count: u64,
    /// What the draws follow from, which are all 0 where there is no seed.
    seed: Option<u64>,
    /// Whether each key is asked of a peer of its own alone, or of all three.
    is_targeted: bool,
}

/// One and several that go wrong, with peers of their own and common ones, and with several draws.
const PLANS: &[(u64, Option<u64>, bool)] = &[
    (1, None, false),
    (1, None, true),
    (1, Some(1), false),
    (1, Some(1), true),
    (9, None, false),
    (9, None, true),
    (9, Some(1), false),
    (9, Some(1), true),
];

/// What goes wrong from this one on: checks that say this moment, or sends.
fn wrong(first: u64, count: u64, until: Option<u64>) -> Wrong {
    match until {
        Some(until) => Wrong::Checks {
            first,
            count,
            until,
        },
        None => Wrong::Sends { first, count },
    }
}

/// Three keys by one message.
fn wants(is_targeted: bool) -> Act<'static> {
    if is_targeted {
        Act::FetchFrom(&[(1, 3), (2, 4), (3, 5)])
    } else {
        Act::Fetch(&[(1, 10), (2, 10), (3, 10)])
    }
}

/// The keys that are answered in the tenth moment of this number, and whether the peer has them. Of three, one
/// is there, and another not, while the third's time runs out. Later all are there, for longer than nine refusals
/// take.
fn answers(tenth: u64) -> &'static [(u8, bool)] {
    match tenth {
        2 => &[(1, true)],
        3 => &[(2, false)],
        10..=21 => &[(1, true), (2, true), (3, true)],
        _ => &[],
    }
}

/// What is wrong unless every key was delivered once, and each earned one credit.
fn complaint(rt: &impl Abort, hands: &mut Hands) -> Option<&'static str> {
    hands.delivered.sort().expect(rt, "memory");
    if hands.delivered.as_slice() != DELIVERED {
        return Some("a key was not delivered once");
    }
    if hands.counts.credits != 3 {
        return Some("a response without its credit");
    }
    None
}

/// Three keys, each delivered once.
const DELIVERED: &[(u8, u16)] = &[(1, 10), (2, 10), (3, 10)];

/// The peer that is asked for a key answers with the id and these bytes.
fn reply(rt: &(impl Abort + Print), pair: &mut impl Acts, key: u8, bytes: &[u8]) {
    let rows = pair.rows(rt);
    let asked = asked_in(rows.as_slice(), key);
    if let Some((id, peer)) = asked {
        let message = message(rt, pair.hands().alloc, id, bytes);
        pair.act(rt, Act::Net(peer, message.as_slice()));
    }
}

/// The keys are answered whose turn it is in this tenth moment, and what is handed out is complete.
fn answer(rt: &(impl Abort + Print), pair: &mut impl Acts, tenth: u64) {
    pair.act(rt, Act::At(tenth.saturating_mul(10)));
    for &(key, is_there) in answers(tenth) {
        if is_there {
            reply(rt, pair, key, &[1, 1, key]);
            pair.act(rt, Act::Judge(Outcome::Resolved(Resolution::Complete)));
        } else {
            reply(rt, pair, key, &[2]);
        }
    }
}

/// The run, in which what is handed out is complete, and after which every key was delivered once. Gives what was
/// counted.
fn play(rt: &(impl Abort + Print), pair: &mut impl Acts, is_targeted: bool) -> Counts {
    pair.act(rt, Act::Peers(1, &[3, 4, 5, 9]));
    pair.act(rt, wants(is_targeted));
    for tenth in 1..22_u64 {
        answer(rt, pair, tenth);
    }
    let complaint = complaint(rt, pair.hands());
    judge_end(rt, pair, complaint);
    pair.hands().counts
}

/// A run, and what was counted in it.
#[derive(Clone, Copy)]
struct Course {
    is_targeted: bool,
    counts: Counts,
}

impl Play for Course {
    fn play<A: Acts>(&mut self, rt: &(impl Abort + Print), pairs: &mut [A]) {
        for pair in pairs {
            self.counts = play(rt, pair, self.is_targeted);
        }
    }
}

/// A run in which this one and those behind it go wrong. Gives what was counted.
fn run<R>(rt: R, plan: Plan, wrong: Wrong) -> Counts
where
    R: Abort + Print + Wait + RandomSource + AllocGlobal + Copy + Drop + Send + 'static,
{
    let setting = Setting {
        seed: plan.seed,
        ..Setting::with(wrong)
    };
    let eligible = if plan.is_targeted { 1 } else { 3 };
    let mut play = Course {
        is_targeted: plan.is_targeted,
        counts: NONE,
    };
    with_pairs(rt, &[setting], Some(eligible), &mut play);
    play.counts
}

/// The run for every N that it meets. Gives how many these are.
fn every_n<R>(rt: R, plan: Plan, until: Option<u64>) -> u64
where
    R: Abort + Print + Wait + RandomSource + AllocGlobal + Copy + Drop + Send + 'static,
{
    for first in 1..1000_u64 {
        let counts = run(rt, plan, wrong(first, plan.count, until));
        let met = if until.is_some() {
            counts.checks
        } else {
            counts.sends
        };
        if met < first {
            return first - 1;
        }
    }
    panic!(rt; "a run without an end")
}

/// The same for every plan. A run meets five at the least.
fn every_plan<R>(rt: R, until: Option<u64>)
where
    R: Abort + Print + Wait + RandomSource + AllocGlobal + Copy + Drop + Send + 'static,
{
    for &(count, seed, is_targeted) in PLANS {
        let plan = Plan {
            count,
            seed,
            is_targeted,
        };
        assert!(rt; every_n(rt, plan, until) >= 5, "a run that hardly asks");
    }
}

#[test]
fn the_nth_check_says_until(rt: HostRuntime) {
    every_plan(rt, Some(15));
    every_plan(rt, Some(45));
}

#[test]
fn the_nth_send_is_refused(rt: HostRuntime) {
    every_plan(rt, None);
}
