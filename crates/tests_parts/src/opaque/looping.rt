//! An actor's loop that is polled by hand.

ghost use Rattle.std.specs.Prelude.{◌≡◌};

use crate::opaque::lent::{Asking, Ends, Held, Lent, Looped, Pollable, Source, Watching, lend};
use crate::support::equal_texts;
use futures::channel::oneshot;
use futures::test::MockTask;
use resolver_base::Fault;
use resolver_opaque_loop::{Config, open, open_watched};
use std::alloc::AllocGlobal;
use std::num::NonZeroUsize;
use std::panic::Expect;
use std::process::Abort;
use std::random::RandomSource;
use std::sync::Wait;
use tests_support::lent::Judge;
use tests_support::polling::{Polled, turn};
use tests_support::seen::{Wrong, spell_feedback, spell_said};

/// What a test does to an actor's loop.
#[derive(Clone, Copy)]
enum Act {
    /// Subscribers want a key.
    Want(u8, u16),
    /// The same, and it is told how that was taken.
    LastWant(u8, u16),
    /// The first look that has no answer is answered so.
    Answer(Option<&'static [u8]>),
    /// It is this moment.
    At(u64),
    /// What was delivered last is what was wanted.
    Complete,
    /// The subscribers from this one on are let go.
    LetGoFrom(u16),
    /// It is told whether the first look that has no answer is given up.
    IsGivenUp,
    /// It is told whether the verdict on what was delivered last is called off.
    IsCanceled,
    Close,
    /// The loop is polled.
    Turn,
}

/// The source has nothing at first, and a value after the retry delay. Then two keys are let go: one that is
/// asked, and one that is judged. Last the mailbox is closed.
const EVERY: &[Act] = &[
    Act::Want(1, 10),
    Act::Turn,
    Act::Answer(None),
    Act::Turn,
    Act::At(99),
    Act::Turn,
    Act::At(100),
    Act::Turn,
    Act::Answer(Some(b"hi")),
    Act::Turn,
    Act::Complete,
    Act::Turn,
    Act::Want(1, 11),
    Act::Turn,
    Act::LetGoFrom(11),
    Act::Turn,
    Act::IsGivenUp,
    Act::Want(1, 12),
    Act::Turn,
    Act::Answer(Some(b"ok")),
    Act::Turn,
    Act::LetGoFrom(11),
    Act::Turn,
    Act::IsCanceled,
    Act::Close,
    Act::Turn,
];

/// What the source and the consumer see, by the rules of the opaque machine: a line for each thing that
/// they are asked, and one for each poll.
const SEEN: &str = "look 1
-
-
-
look 1
-
deliver 1 to 10:110 x6869
-
-
look 1
-
-
given up true
look 1
-
deliver 1 to 12:112 x6f6b
-
-
canceled true
complete
";

/// Whether nobody waits for this answer any more.
fn is_given_up<T: Drop>(answer: Option<oneshot::Sender<T>>) -> bool {
    match answer {
        Some(sender) => sender.is_canceled(),
        None => false,
    }
}

fn step<A: Asking, L: Polled>(
    rt: &impl Abort,
    text: &mut String,
    task: &MockTask,
    looped: &mut L,
    ends: &mut Ends<A>,
    act: Act,
) {
    match act {
        Act::Want(key, subscriber) => drop(ends.resolver.want(rt, key, subscriber)),
        Act::LastWant(key, subscriber) => {
            let feedback = ends.resolver.want(rt, key, subscriber);
            spell_feedback(text, feedback).expect(rt, "memory");
        }
        Act::Answer(value) => ends.held.answer(value),
        Act::At(now) => ends.held.watch.put(now),
        Act::Complete => ends.held.complete(),
        Act::LetGoFrom(subscriber) => ends.resolver.let_go_from(rt, subscriber),
        Act::IsGivenUp => {
            let look = ends.held.looks.try_recv().ok();
            spell_said(text, "given up", is_given_up(look)).expect(rt, "memory");
        }
        Act::IsCanceled => {
            let verdict = ends.held.verdicts.try_recv().ok();
            spell_said(text, "canceled", is_given_up(verdict)).expect(rt, "memory");
        }
        Act::Close => ends.resolver.end(),
        Act::Turn => turn(text, task, looped, &mut ends.held.told).expect(rt, "memory"),
    }
}

/// Does these to the loop that was opened, by the handle of its mailbox and what is held besides, and gives what was
/// written.
fn written<R, A, L>(rt: &R, opened: Result<(A, L), Fault>, held: Held, acts: &[Act]) -> String
where
    R: Abort + RandomSource + AllocGlobal,
    A: Asking + Drop,
    L: Pollable + Drop,
{
    let (resolver, looped) = opened.expect(rt, "an actor");
    let mut looped = Looped { looped };
    let mut ends = Ends { resolver, held };
    let task = MockTask::new(rt).expect(rt, "a task");
    let mut text = String::new(rt.alloc());
    for act in acts {
        step(rt, &mut text, &task, &mut looped, &mut ends, *act);
    }
    text
}

/// That this is what is seen where these are done to an actor over a source, with a delay of 100 and a mailbox that
/// has room for one message.
fn sees<R>(rt: R, wrong: Wrong, acts: &[Act], seen: &str)
where
    R: Abort + Wait + RandomSource + AllocGlobal + Copy + Drop + Send + 'static,
{
    sees_in(rt, wrong, NonZeroUsize::MIN, acts, seen);
}

/// An actor over this source, with a delay of 100.
fn made_of(source: Source, consumer: Judge, size: NonZeroUsize) -> Config<Source, Judge>
    ensures { result.fetch_retry_delay ≡ 100 }
{
    Config {
        fetcher: source,
        consumer,
        mailbox_size: size,
        fetch_retry_delay: 100,
    }
}

/// The same with a mailbox of this size.
fn sees_in<R>(rt: R, wrong: Wrong, size: NonZeroUsize, acts: &[Act], seen: &str)
where
    R: Abort + Wait + RandomSource + AllocGlobal + Copy + Drop + Send + 'static,
{
    let alloc = rt.alloc();
    let (held, lent) = lend(&rt, alloc, wrong);
    let Lent {
        clock,
        source,
        consumer,
    } = lent;
    let opened = open(rt, alloc, clock, made_of(source, consumer, size));
    let text = written(&rt, opened, held, acts);
    equal_texts(&rt, text.as_str(), seen);
}

#[test]
fn every_input_every_effect_of_the_actor(rt: HostRuntime) {
    sees(rt, Wrong::Nothing, EVERY, SEEN);
}

/// The same, with what a watcher is told: each input before what source and consumer are asked for it, and each effect
/// right before it is carried out. What is given up or called off is still answered, by nothing.
const TOLD: &str = "told fetch at 0
told of a start
look 1
-
told fetched at 0
-
-
told wake at 100
told of a start
look 1
-
told fetched at 100
told of a delivery
deliver 1 to 10:110 x6869
-
told verdict at 100
-
told fetch at 100
told of a start
look 1
-
told retain at 100
told of an abort
told fetched at 100
-
given up true
told fetch at 100
told of a start
look 1
-
told fetched at 100
told of a delivery
deliver 1 to 12:112 x6f6b
-
told retain at 100
told of a cancel
told verdict at 100
-
canceled true
told stop at 100
complete
";

/// That this is what is seen where these are done to an actor that tells a watcher.
fn is_told<R>(rt: R, acts: &[Act], seen: &str)
where
    R: Abort + Wait + RandomSource + AllocGlobal + Copy + Drop + Send + 'static,
{
    let alloc = rt.alloc();
    let (held, lent) = lend(&rt, alloc, Wrong::Nothing);
    let Lent {
        clock,
        source,
        consumer,
    } = lent;
    let told = source.told.clone().expect(&rt, "memory");
    let cfg = made_of(source, consumer, NonZeroUsize::MIN);
    let opened = open_watched(rt, alloc, clock, cfg, Watching::new(told));
    let text = written(&rt, opened, held, acts);
    equal_texts(&rt, text.as_str(), seen);
}

#[test]
fn a_watcher_of_the_actor_is_told_every_input_and_every_effect(rt: HostRuntime) {
    is_told(rt, EVERY, TOLD);
}

/// Two keys are asked for again by the same step.
#[test]
fn a_watcher_of_the_actor_is_told_of_each_effect_right_before_it_is_carried_out(rt: HostRuntime) {
    const ACTS: &[Act] = &[
        Act::Want(1, 10),
        Act::Turn,
        Act::Want(2, 10),
        Act::Turn,
        Act::Answer(None),
        Act::Answer(None),
        Act::Turn,
        Act::At(100),
        Act::Turn,
    ];
    is_told(
        rt,
        ACTS,
        "told fetch at 0
told of a start
look 1
-
told fetch at 0
told of a start
look 2
-
told fetched at 0
told fetched at 0
-
told wake at 100
told of a start
look 1
told of a start
look 2
-
",
    );
}

/// What was put before the close is still taken, and looked for.
#[test]
fn the_mailbox_of_an_actor_is_closed_and_nothing_waits(rt: HostRuntime) {
    const ACTS: &[Act] = &[
        Act::Want(1, 10),
        Act::Close,
        Act::Turn,
        Act::Answer(Some(b"hi")),
        Act::LastWant(1, 10),
    ];
    sees(rt, Wrong::Consumer, ACTS, "look 1\ncomplete\nClosed\n");
}

/// What is judged when the loop ends is called off.
#[test]
fn the_end_of_the_actor_calls_a_delivery_off(rt: HostRuntime) {
    const ACTS: &[Act] = &[Act::Close, Act::Turn, Act::IsCanceled];
    sees_judged(rt, ACTS, "complete\ncanceled true\n");
}

/// Nobody polls a loop that is over, so a look that has no answer by then is dropped with the last poll.
#[test]
fn the_end_of_the_actor_drops_a_look(rt: HostRuntime) {
    const ACTS: &[Act] = &[
        Act::Want(1, 10),
        Act::Turn,
        Act::Close,
        Act::Turn,
        Act::IsGivenUp,
    ];
    sees(
        rt,
        Wrong::Nothing,
        ACTS,
        "look 1\n-\ncomplete\ngiven up true\n",
    );
}

#[test]
fn the_consumer_of_an_actor_answers_1(rt: HostRuntime) {
    const ACTS: &[Act] = &[
        Act::Want(1, 10),
        Act::Turn,
        Act::Answer(Some(b"hi")),
        Act::Turn,
        Act::LastWant(1, 10),
    ];
    sees(
        rt,
        Wrong::Consumer,
        ACTS,
        "look 1\n-\nOutOfMemory\nClosed\n",
    );
}

/// Key 1 is judged, and subscriber 11 came since.
const JUDGED: [Act; 5] = [
    Act::Want(1, 10),
    Act::Turn,
    Act::Answer(Some(b"hi")),
    Act::Turn,
    Act::Want(1, 11),
];

/// What is seen of that.
const JUDGED_SEEN: &str = "look 1\n-\ndeliver 1 to 10:110 x6869\n-\n";

/// That this is seen where these are done after key 1 was judged.
fn sees_judged<R>(rt: R, acts: &[Act], seen: &str)
where
    R: Abort + Wait + RandomSource + AllocGlobal + Copy + Drop + Send + 'static,
{
    let alloc = rt.alloc();
    let mut all = Vec::new(alloc);
    all.extend_from_slice(&JUDGED).expect(&rt, "memory");
    all.extend_from_slice(acts).expect(&rt, "memory");
    let mut text = String::new(alloc);
    text.push_str(JUDGED_SEEN).expect(&rt, "memory");
    text.push_str(seen).expect(&rt, "memory");
    sees(rt, Wrong::Nothing, all.as_slice(), text.as_str());
}

/// A value that has come is handed out before the response that a verdict has handed out again.
#[test]
fn fetched_values_come_before_verdicts(rt: HostRuntime) {
    const ACTS: &[Act] = &[
        Act::Want(2, 10),
        Act::Turn,
        Act::Complete,
        Act::Answer(Some(b"ok")),
        Act::Turn,
    ];
    let seen = "look 2
-
deliver 2 to 10:210 x6f6b
deliver 1 to 11:111 x6869
-
";
    sees_judged(rt, ACTS, seen);
}

/// The response is handed out again before a key is looked for whose time has come.
#[test]
fn verdicts_come_before_retries(rt: HostRuntime) {
    const ACTS: &[Act] = &[
        Act::Want(2, 10),
        Act::Turn,
        Act::Answer(None),
        Act::Turn,
        Act::At(100),
        Act::Complete,
        Act::Turn,
    ];
    let seen = "look 2
-
-
deliver 1 to 11:111 x6869
look 2
-
";
    sees_judged(rt, ACTS, seen);
}

/// A key whose time has come is looked for before a new one.
#[test]
fn retries_come_before_the_mailbox(rt: HostRuntime) {
    const ACTS: &[Act] = &[
        Act::Want(2, 10),
        Act::Turn,
        Act::Answer(None),
        Act::Turn,
        Act::Want(3, 10),
        Act::At(100),
        Act::Turn,
    ];
    sees(
        rt,
        Wrong::Nothing,
        ACTS,
        "look 2\n-\n-\nlook 2\nlook 3\n-\n",
    );
}

/// Each source of the actor has something, the last first.
#[test]
fn every_source_of_the_actor_is_ready_at_one_poll(rt: HostRuntime) {
    const ACTS: &[Act] = &[
        Act::Want(3, 10),
        Act::Turn,
        Act::Answer(None),
        Act::Turn,
        Act::Want(2, 10),
        Act::Turn,
        Act::Want(4, 10),
        Act::At(100),
        Act::Complete,
        Act::Answer(Some(b"ok")),
        Act::Turn,
    ];
    let seen = "look 3
-
-
look 2
-
deliver 2 to 10:210 x6f6b
deliver 1 to 11:111 x6869
look 3
look 4
-
";
    sees_judged(rt, ACTS, seen);
}

/// Three fetches, while the actor takes nothing.
const THREE: &[Act] = &[
    Act::LastWant(1, 10),
    Act::LastWant(2, 10),
    Act::LastWant(3, 10),
];

#[test]
fn an_actor_s_mailbox_has_room_for_one(rt: HostRuntime) {
    sees(rt, Wrong::Nothing, THREE, "Ok\nBackoff\nBackoff\n");
}

#[test]
fn an_actor_s_mailbox_has_room_for_two(rt: HostRuntime) {
    let size = NonZeroUsize::new(2).expect(&rt, "a size");
    sees_in(rt, Wrong::Nothing, size, THREE, "Ok\nOk\nBackoff\n");
}
