use crate::fakes::acts::{Act, Asks};
use crate::fakes::world::{Setting, World, make_world, start};
use crate::support::assert_same;
use bytes::Bytes;
use futures::channel::{mpsc, oneshot};
use resolver::base::Fault;
use resolver::{Outcome, Resolution};
use std::alloc::AllocGlobal;
use std::fmt::Write;
use std::panic::Expect;
use std::process::Abort;
use std::random::RandomSource;
use std::sync::Wait;
use std::thread;
use std::thread::Threads;
use std::time::{Clock, Duration};
use tests_support::names::Below;
use tests_support::seen::{Seen, Wrong, spell_said};
use tests_support::waiting::next;

fn spell_one(rt: &impl Abort, text: &mut String, seen: &Seen) {
    writeln!(text, "{seen}").expect(rt, "memory");
}

/// Waits until the fakes were asked so many things, and writes them.
fn wait<R: Abort + Wait + RandomSource + AllocGlobal>(
    rt: &R,
    text: &mut String,
    told: &mut mpsc::UnboundedReceiver<Seen>,
    count: u32,
) {
    for _ in 0..count {
        if let Some(seen) = next(rt, told).expect(rt, "a wait") {
            spell_one(rt, text, &seen);
        }
    }
}

/// Writes what the fakes were asked next, if they already were. Says whether they were.
fn spell_next(
    rt: &impl Abort,
    text: &mut String,
    told: &mut mpsc::UnboundedReceiver<Seen>,
) -> bool {
    match told.try_recv() {
        Ok(seen) => {
            spell_one(rt, text, &seen);
            true
        }
        Err(_) => false,
    }
}

/// Looks at most 10,000 times, with a pause of a millisecond, whether the fakes were asked so many things, and
/// writes them.
fn look<R: Abort + Clock>(
    rt: &R,
    text: &mut String,
    told: &mut mpsc::UnboundedReceiver<Seen>,
    count: u32,
) {
    let mut left = count;
    for _ in 0..10_000_u32 {
        if left == 0 {
            return;
        }
        if spell_next(rt, text, told) {
            left -= 1;
        } else {
            thread::sleep(rt, Duration::from_millis(1));
        }
    }
}

/// Whoever asks next is answered so.
fn answer_next<R, T: Drop>(
    rt: &R,
    asked: &mut mpsc::UnboundedReceiver<oneshot::Sender<T>>,
    answer: T,
)
where
    R: Abort + Wait + RandomSource + AllocGlobal,
{
    match next(rt, asked).expect(rt, "a wait") {
        Some(sender) => drop(sender.send(answer)),
        None => drop(answer),
    }
}

/// The next delivery is what was wanted.
fn complete<R>(rt: &R, verdicts: &mut mpsc::UnboundedReceiver<oneshot::Sender<Outcome>>)
where
    R: Abort + Wait + RandomSource + AllocGlobal,
{
    answer_next(rt, verdicts, Outcome::Resolved(Resolution::Complete));
}

/// The producer has two bytes for the next request.
fn serve<R>(rt: &R, serves: &mut mpsc::UnboundedReceiver<oneshot::Sender<Bytes>>)
where
    R: Abort + Wait + RandomSource + AllocGlobal,
{
    answer_next(rt, serves, Bytes::from_static(b"ok"));
}

/// What is done to an engine in a thread, one thing at a time.
#[derive(Clone, Copy)]
enum Step {
    Act(Act<'static>),
    /// Waits until the fakes were asked so many things.
    Wait(u32),
    /// Looks for so many things that the fakes are asked.
    Look(u32),
    /// The next delivery is what was wanted.
    Complete,
    /// The producer has two bytes for the next request.
    Serve,
    /// The same for the first one, if there is one. It is told whether anybody waited for them.
    Release,
}

/// Sends an answer, and says whether anybody waited for it.
fn send<T: Drop>(sender: oneshot::Sender<T>, answer: T) -> bool {
    let is_owed = !sender.is_canceled();
    drop(sender.send(answer));
    is_owed
}

/// Sends the bytes of the first serve, if there is one, and says whether anybody waited for them.
fn release(serves: &mut mpsc::UnboundedReceiver<oneshot::Sender<Bytes>>) -> bool {
    match serves.try_recv() {
        Ok(serve) => send(serve, Bytes::from_static(b"ok")),
        Err(_) => false,
    }
}

/// Of two peers the second is asked for a key, and answers; the first asks for another, and is
/// answered.
const EXCHANGE: &[Step] = &[
    Step::Act(Act::Peers(1, &[3, 4])),
    Step::Act(Act::FetchFrom(&[(1, 4)])),
    Step::Wait(5),
    Step::Act(Act::Net(4, b"\0\0\0\0\0\0\0\0\x01\x02hi")),
    Step::Wait(1),
    Step::Complete,
    Step::Act(Act::Net(3, b"\0\0\0\0\0\0\0\x07\0\x05")),
    Step::Wait(1),
    Step::Serve,
    Step::Wait(1),
    Step::Act(Act::CloseMailbox),
];

/// A key is fetched, asked for and delivered, while a serve is held back. Only then the serve is answered, and the
/// reply looked for.
const HOLD_BACK: &[Step] = &[
    Step::Act(Act::Peers(1, &[3])),
    Step::Act(Act::Net(3, b"\0\0\0\0\0\0\0\x07\0\x05")),
    Step::Look(1),
    Step::Act(Act::Fetch(&[(1, 10)])),
    Step::Look(5),
    Step::Act(Act::Net(3, b"\0\0\0\0\0\0\0\0\x01\x02hi")),
    Step::Look(1),
    Step::Release,
    Step::Look(1),
    Step::Act(Act::CloseMailbox),
];

fn do_step<R, M>(rt: &R, text: &mut String, world: &mut World<M>, step: Step)
where
    R: Abort + Clock + Wait + RandomSource + AllocGlobal,
    M: Asks,
{
    match step {
        Step::Act(act) => world.act(act).expect(rt, "memory"),
        Step::Wait(count) => wait(rt, text, &mut world.held.told, count),
        Step::Look(count) => look(rt, text, &mut world.held.told, count),
        Step::Complete => complete(rt, &mut world.held.verdicts),
        Step::Serve => serve(rt, &mut world.held.serves),
        Step::Release => {
            let is_owed = release(&mut world.held.serves);
            spell_said(text, "owed", is_owed).expect(rt, "memory");
        },
    }
}

/// Does these, and gives what was written.
fn go<R, M>(rt: &R, world: &mut World<M>, steps: &[Step]) -> String
where
    R: Abort + Clock + Wait + RandomSource + AllocGlobal,
    M: Asks,
{
    let mut text = String::new(rt.alloc());
    for step in steps {
        do_step(rt, &mut text, world, *step);
    }
    text
}

/// Does these to an engine in a thread, with a world of its own in which this goes wrong. Gives what was written, and
/// how the engine ended.
fn play<R>(rt: R, wrong: Wrong, steps: &[Step]) -> (String, Result<(), Fault>)
where
    R: Abort + Clock + Threads + Wait + RandomSource + AllocGlobal + Copy + Drop + Send + 'static,
{
    let made = make_world::<Below, _>(rt, rt.alloc(), Setting::with(wrong));
    let (mut world, engine, lent) = made.expect(&rt, "a world");
    let handle = start(engine, lent).expect(&rt, "a thread");
    let text = go(&rt, &mut world, steps);
    let ended = handle.join(&rt);
    (text, ended)
}

/// That this is written where these are done to an engine in a thread, and it ends so.
fn runs<R>(rt: R, wrong: Wrong, steps: &[Step], ended: Result<(), Fault>, expected: &str)
where
    R: Abort + Clock + Threads + Wait + RandomSource + AllocGlobal + Copy + Drop + Send + 'static,
{
    let (text, found) = play(rt, wrong, steps);
    assert_same(&rt, &found, &ended);
    assert_same(&rt, text.as_str(), expected);
}

#[test]
fn an_engine_in_a_thread_fetches_and_serves(rt: HostRuntime) {
    runs(
        rt,
        Wrong::Nothing,
        EXCHANGE,
        Ok(()),
        "draw 4
draw 1
check 4
draw 18446744073709551616
send 4 x00000000000000000001
deliver 1 to 10:110 x6869
produce 5
send 3 x000000000000000701026f6b
",
    );
}

/// A serve that is held back holds no fetch back.
#[test]
fn serve_waits_for_fetch(rt: HostRuntime) {
    runs(
        rt,
        Wrong::Nothing,
        HOLD_BACK,
        Ok(()),
        "produce 5
draw 4
draw 1
check 3
draw 18446744073709551616
send 3 x00000000000000000001
deliver 1 to 10:110 x6869
owed true
send 3 x000000000000000701026f6b
",
    );
}

/// Its thread ends by itself.
#[test]
fn an_engine_in_a_thread_whose_consumer_wants_memory(rt: HostRuntime) {
    const STEPS: &[Step] = &[
        Step::Act(Act::Peers(1, &[3])),
        Step::Act(Act::Fetch(&[(1, 10)])),
        Step::Wait(5),
        Step::Act(Act::Net(3, b"\0\0\0\0\0\0\0\0\x01\x02hi")),
    ];
    runs(
        rt,
        Wrong::Consumer,
        STEPS,
        Err(Fault::OutOfMemory),
        "draw 4
draw 1
check 3
draw 18446744073709551616
send 3 x00000000000000000001
",
    );
}

/// Its thread ends by itself.
#[test]
fn an_engine_in_a_thread_whose_producer_wants_memory(rt: HostRuntime) {
    const STEPS: &[Step] = &[Step::Act(Act::Net(3, b"\0\0\0\0\0\0\0\x07\0\x05"))];
    runs(rt, Wrong::Producer, STEPS, Err(Fault::OutOfMemory), "");
}
