//! Loops of three engines over one network, to which things are done as draws say: keys are fetched, also of some
//! peers, and given up; peers come, go and are blocked; messages come late, twice, changed and under other ids; sends
//! are limited and refused; consumers say anything; and clocks jump. In the end the world is good, and all that is
//! wanted has to come.
//!
//! `course` and `ending` are what is done, and `judging` has a model judge a twin. `model` says what an engine is to tell, written from the definitions of the
//! peer machine and not from its code, and `trail` what its scans may ask and when it is to be woken; `wanted`, `message`
//! and `lines` are what these speak of. A loop is compared with its twin, and the twin is judged by the model. Where
//! something is wrong, what the model wanted and what came is printed, and a script for `resolver-replay`.

pub mod course;
pub mod ending;
pub mod judging;
pub mod lines;
pub mod message;
pub mod model;
pub mod trail;
pub mod wanted;

use crate::chaos::course::Course;
use crate::fakes::world::Setting;
use crate::pair::with_pairs;
use std::alloc::AllocGlobal;
use std::io::Print;
use std::num::NonZeroU32;
use std::process::Abort;
use std::random::RandomSource;
use std::sync::Wait;
use tests_support::seen::Wrong;

/// One of the engines of a run. Its own limits and refusals follow from the seed and its name.
fn setting(me: u8, seed: u64, limit: Option<NonZeroU32>) -> Setting {
    let wrong = Wrong::Drawn {
        seed: seed.wrapping_add(1000 * u64::from(me)),
        until: 1000,
    };
    Setting {
        me,
        seed: Some(seed),
        limit,
        ..Setting::with(wrong)
    }
}

/// Runs of ten seeds, from this one on, in which a peer may have so many requests at once.
fn run_all<R>(rt: R, first: u64, limit: Option<NonZeroU32>)
where
    R: Abort + Print + Wait + RandomSource + AllocGlobal + Copy + Drop + Send + 'static,
{
    for seed in first..first.saturating_add(10) {
        let settings = [
            setting(1, seed, limit),
            setting(2, seed, limit),
            setting(3, seed, limit),
        ];
        let mut course = Course::new(rt.alloc(), seed);
        with_pairs(rt, &settings, None, &mut course);
    }
}

#[test]
fn chaos_from_0(rt: HostRuntime) {
    run_all(rt, 0, None);
}

#[test]
fn chaos_from_10(rt: HostRuntime) {
    run_all(rt, 10, None);
}

#[test]
fn chaos_from_20(rt: HostRuntime) {
    run_all(rt, 20, None);
}

#[test]
fn chaos_from_30(rt: HostRuntime) {
    run_all(rt, 30, None);
}

#[test]
fn chaos_with_a_limit_of_one(rt: HostRuntime) {
    run_all(rt, 40, NonZeroU32::new(1));
}

#[test]
fn chaos_with_a_limit_of_two(rt: HostRuntime) {
    run_all(rt, 50, NonZeroU32::new(2));
}
