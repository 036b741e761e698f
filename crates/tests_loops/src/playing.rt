//! What a test does to a loop that it polls by hand, and what is seen of that.

use crate::fakes::acts::{Act, Asks};
use crate::fakes::watching::Watching;
use crate::fakes::world::{Setting, World, into_watched_loop, make_loop, make_world};
use crate::support::assert_same;
use futures::test::MockTask;
use std::alloc::{AllocGlobal, Global};
use std::panic::Expect;
use std::process::Abort;
use std::random::RandomSource;
use std::sync::Wait;
use tests_support::names::Below;
use tests_support::polling::{Polled, turn};
use tests_support::seen::{Wrong, spell_feedback, spell_said};

/// Does this, and polls the loop.
fn step<M: Asks, L: Polled>(
    rt: &impl Abort,
    text: &mut String,
    task: &MockTask,
    looped: &mut L,
    world: &mut World<M>,
    act: Act<'_>,
) {
    match act {
        Act::IsWanted => {
            let is_wanted = world.held.is_wanted();
            spell_said(text, "wanted", is_wanted).expect(rt, "memory");
        },
        _ => {
            world.act(act).expect(rt, "memory");
            turn(text, task, looped, &mut world.held.told).expect(rt, "memory");
        }
    }
}

fn act_all<M: Asks, L: Polled>(
    rt: &impl Abort,
    text: &mut String,
    task: &MockTask,
    looped: &mut L,
    world: &mut World<M>,
    acts: &[Act<'_>],
) {
    for act in acts {
        step(rt, text, task, looped, world, *act);
    }
}

/// Has one more key fetched, and writes the answer.
fn fetch_last<M: Asks>(rt: &impl Abort, text: &mut String, alloc: Global, mailbox: &mut M) {
    let feedback = mailbox.fetch(alloc, &[(200, 20)]).expect(rt, "an answer");
    spell_feedback(text, feedback).expect(rt, "memory");
}

/// Does these in this world, and polls the loop after each. Gives what the fakes were asked, how each poll
/// ended, and last what one more fetch is answered.
fn written<R, M, L>(rt: &R, looped: &mut L, world: &mut World<M>, acts: &[Act<'_>]) -> String
where
    R: Abort + RandomSource + AllocGlobal,
    M: Asks,
    L: Polled,
{
    let task = MockTask::new(rt).expect(rt, "a task");
    let mut text = String::new(rt.alloc());
    act_all(rt, &mut text, &task, looped, world, acts);
    fetch_last(rt, &mut text, rt.alloc(), &mut world.mailbox);
    // By hand: by scope this function takes 60 to 90 seconds to prove.
    drop(task);
    text
}

/// That this is what is seen where these are done in a world of its own.
pub fn sees<R>(rt: R, wrong: Wrong, acts: &[Act<'_>], seen: &str)
where
    R: Abort + Wait + RandomSource + AllocGlobal + Copy + Drop + Send + 'static,
{
    sees_in(rt, Setting::with(wrong), acts, seen);
}

/// The same in a world that differs so.
pub fn sees_in<R>(rt: R, setting: Setting, acts: &[Act<'_>], seen: &str)
where
    R: Abort + Wait + RandomSource + AllocGlobal + Copy + Drop + Send + 'static,
{
    let made = make_loop::<Below, _>(rt, rt.alloc(), setting);
    let (mut world, mut looped) = made.expect(&rt, "a loop");
    let text = written(&rt, &mut looped, &mut world, acts);
    // By hand: by scope this function takes 60 to 90 seconds to prove.
    drop(looped);
    drop(world);
    assert_same(&rt, text.as_str(), seen);
}

/// The same, where a watcher is told of what the loop takes and does, beside what the fakes are asked.
pub fn is_told<R>(rt: R, setting: Setting, acts: &[Act<'_>], seen: &str)
where
    R: Abort + Wait + RandomSource + AllocGlobal + Copy + Drop + Send + 'static,
{
    let made = make_world::<Below, _>(rt, rt.alloc(), setting);
    let (mut world, engine, lent) = made.expect(&rt, "an engine");
    let told = lent.told.clone().expect(&rt, "memory");
    let made = into_watched_loop(engine, lent, Watching { told });
    let mut looped = made.expect(&rt, "a loop");
    let text = written(&rt, &mut looped, &mut world, acts);
    // By hand: by scope this function takes 60 to 90 seconds to prove.
    drop(looped);
    drop(world);
    assert_same(&rt, text.as_str(), seen);
}
