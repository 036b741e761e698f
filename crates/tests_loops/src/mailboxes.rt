//! How many messages an engine's mailbox has room for.

use crate::fakes::acts::Asks;
use crate::fakes::world::{Setting, make_world};
use crate::support::assert_same;
use resolver_base::Feedback;
use std::alloc::{AllocGlobal, Global};
use std::num::NonZeroUsize;
use std::panic::Expect;
use std::process::Abort;
use std::random::RandomSource;
use std::sync::Wait;
use tests_support::names::Below;
use tests_support::seen::{Wrong, spell_feedback};

/// Fetches three keys, one by one, and writes how each was taken.
fn fetch_three(rt: &impl Abort, alloc: Global, text: &mut String, mailbox: &mut impl Asks) {
    for key in 1..4_u8 {
        let feedback = mailbox.fetch(alloc, &[(key, 10)]).expect(rt, "an answer");
        spell_feedback(text, feedback).expect(rt, "memory");
    }
}

/// That this is what three fetches are answered where an engine that takes nothing has a mailbox of this size.
fn answers<R>(rt: R, size: usize, expected: &str)
where
    R: Abort + Wait + RandomSource + AllocGlobal + Copy + Drop + Send + 'static,
{
    let setting = Setting {
        mailbox_size: NonZeroUsize::new(size).expect(&rt, "a size"),
        ..Setting::with(Wrong::Nothing)
    };
    let made = make_world::<Below, _>(rt, rt.alloc(), setting);
    let (mut world, engine, lent) = made.expect(&rt, "a world");
    let mut text = String::new(rt.alloc());
    fetch_three(&rt, rt.alloc(), &mut text, &mut world.mailbox);
    // By hand: the borrow checker doesn't cover these by scope.
    drop(engine);
    drop(lent);
    drop(world);
    assert_same(&rt, text.as_str(), expected);
}

#[test]
fn an_engine_s_mailbox_has_room_for_one(rt: HostRuntime) {
    answers(rt, 1, "Ok\nBackoff\nBackoff\n");
}

#[test]
fn an_engine_s_mailbox_has_room_for_two(rt: HostRuntime) {
    answers(rt, 2, "Ok\nOk\nBackoff\n");
}

/// That one message of so many fetches is taken.
fn fetch_many<R>(rt: R, count: u16)
where
    R: Abort + Wait + RandomSource + AllocGlobal + Copy + Drop + Send + 'static,
{
    let made = make_world::<Below, _>(rt, rt.alloc(), Setting::with(Wrong::Nothing));
    let (mut world, engine, lent) = made.expect(&rt, "a world");
    let mut wants = Vec::new(rt.alloc());
    for number in 0..count {
        wants
            .push(((number % 256) as u8, number))
            .expect(&rt, "memory");
    }
    let feedback = world.mailbox.fetch(rt.alloc(), wants.as_slice());
    assert_same(&rt, &feedback, &Ok(Feedback::Ok));
    // By hand: the borrow checker doesn't cover these by scope.
    drop(wants);
    drop(engine);
    drop(lent);
    drop(world);
}

#[test]
fn ample_memory_for_a_message_of_many_fetches(rt: HostRuntime) {
    fetch_many(rt, 17);
    fetch_many(rt, 10_000);
}
