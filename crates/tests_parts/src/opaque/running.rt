//! An actor's loop in a thread.

use crate::opaque::lent::{Asking, Gated, Held, Lent, Looked, answer_look, lend};
use crate::support::{equal, equal_texts};
use futures::channel::mpsc;
use resolver_base::Fault;
use resolver_opaque_loop::{Config, init};
use std::alloc::AllocGlobal;
use std::fmt::Write;
use std::num::NonZeroUsize;
use std::panic::Expect;
use std::process::Abort;
use std::random::RandomSource;
use std::sync::{Arc, Mutex, Wait};
use std::thread::Threads;
use tests_support::seen::{Seen, Wrong, spell_feedback, spell_said};
use tests_support::waiting::next;

/// The next look is answered so.
fn answer<R>(rt: &R, looks: &mut mpsc::UnboundedReceiver<Looked>, value: Option<&'static [u8]>)
where
    R: Abort + Wait + RandomSource + AllocGlobal,
{
    if let Some(look) = next(rt, looks).expect(rt, "a wait") {
        answer_look(look, value);
    }
}

/// Writes what is asked next.
fn wait<R>(rt: &R, text: &mut String, told: &mut mpsc::UnboundedReceiver<Seen>)
where
    R: Abort + Wait + RandomSource + AllocGlobal,
{
    if let Some(seen) = next(rt, told).expect(rt, "a wait") {
        writeln!(text, "{seen}").expect(rt, "memory");
    }
}

/// The source has nothing at first, and a value once the clock has come to the moment that it is
/// to wait for. Gives what was written.
fn retry<R>(rt: &R, held: &mut Held) -> String
where
    R: Abort + Wait + RandomSource + AllocGlobal,
{
    let mut text = String::new(rt.alloc());
    wait(rt, &mut text, &mut held.told);
    answer(rt, &mut held.looks, None);
    if let Some(moment) = next(rt, &mut held.moments).expect(rt, "a wait") {
        spell_said(&mut text, "wait", moment).expect(rt, "memory");
    }
    held.watch.put(100);
    wait(rt, &mut text, &mut held.told);
    answer(rt, &mut held.looks, Some(b"hi"));
    wait(rt, &mut text, &mut held.told);
    text
}

/// What an actor in a thread does so, with a delay of 100, that is asked for key 1 and lent what goes wrong so. Gives
/// what was written, and how the actor ended.
fn retry_in_thread<R>(rt: R, wrong: Wrong) -> (String, Result<(), Fault>)
where
    R: Abort + Threads + Wait + RandomSource + AllocGlobal + Copy + Drop + Send + 'static,
{
    let alloc = rt.alloc();
    let (mut held, lent) = lend(&rt, alloc, wrong);
    let Lent {
        clock,
        source,
        consumer,
    } = lent;
    let cfg = Config {
        fetcher: source,
        consumer,
        mailbox_size: NonZeroUsize::MIN,
        fetch_retry_delay: 100,
    };
    let begun = init(rt, alloc, clock, cfg);
    let (mut resolver, handle) = begun.expect(&rt, "an actor");
    drop(resolver.want(&rt, 1, 10));
    let text = retry(&rt, &mut held);
    resolver.end();
    let ended = handle.join(&rt);
    (text, ended)
}

/// That this is written there, and the actor ends so.
fn runs<R>(rt: R, wrong: Wrong, ended: Result<(), Fault>, seen: &str)
where
    R: Abort + Threads + Wait + RandomSource + AllocGlobal + Copy + Drop + Send + 'static,
{
    let (text, found) = retry_in_thread(rt, wrong);
    equal(&rt, &found, &ended);
    equal_texts(&rt, text.as_str(), seen);
}

#[test]
fn an_actor_in_a_thread_asks_again_after_the_delay(rt: HostRuntime) {
    let seen = "look 1
wait 100
look 1
deliver 1 to 10:110 x6869
";
    runs(rt, Wrong::Nothing, Ok(()), seen);
}

/// Its thread ends by itself.
#[test]
fn an_actor_in_a_thread_whose_consumer_wants_memory(rt: HostRuntime) {
    let seen = "look 1
wait 100
look 1
";
    runs(rt, Wrong::Consumer, Err(Fault::OutOfMemory), seen);
}

/// Waits until key 1 is looked for, fetches three more, and gives what was written of that.
fn fetch_three<R>(rt: &R, held: &mut Held, resolver: &mut impl Asking) -> String
where
    R: Abort + Wait + RandomSource + AllocGlobal,
{
    let mut text = String::new(rt.alloc());
    wait(rt, &mut text, &mut held.told);
    for key in 2..5_u8 {
        let feedback = resolver.want(rt, key, 10);
        spell_feedback(&mut text, feedback).expect(rt, "memory");
    }
    text
}

/// That this is what three fetches are answered while an actor in a thread is held up, whose mailbox has this size.
fn has_room<R>(rt: R, size: usize, seen: &str)
where
    R: Abort + Threads + Wait + RandomSource + AllocGlobal + Copy + Drop + Send + 'static,
{
    let alloc = rt.alloc();
    let size = NonZeroUsize::new(size).expect(&rt, "a size");
    let gate = Arc::new(alloc, Mutex::new(())).expect(&rt, "memory");
    let other = Arc::try_clone(&gate).expect(&rt, "memory");
    let (mut held, lent) = lend(&rt, alloc, Wrong::Nothing);
    let Lent {
        clock,
        source,
        consumer,
    } = lent;
    let source = Gated::new(rt, source, other);
    let locked = gate.lock(&rt);
    let cfg = Config {
        fetcher: source,
        consumer,
        mailbox_size: size,
        fetch_retry_delay: 100,
    };
    let begun = init(rt, alloc, clock, cfg);
    let (mut resolver, handle) = begun.expect(&rt, "an actor");
    drop(resolver.want(&rt, 1, 10));
    let text = fetch_three(&rt, &mut held, &mut resolver);
    drop(locked);
    resolver.end();
    equal(&rt, &handle.join(&rt), &Ok(()));
    equal_texts(&rt, text.as_str(), seen);
}

#[test]
fn the_mailbox_of_an_actor_in_a_thread_has_room_for_one(rt: HostRuntime) {
    has_room(rt, 1, "look 1\nOk\nBackoff\nBackoff\n");
}

#[test]
fn the_mailbox_of_an_actor_in_a_thread_has_room_for_two(rt: HostRuntime) {
    has_room(rt, 2, "look 1\nOk\nOk\nBackoff\n");
}
