//! What a monitor shows of an engine while its loop runs, and once it is over.

use crate::fakes::acts::{Act, Asks};
use crate::fakes::world::{Setting, World, into_loop, make_world, start};
use crate::support::assert_same;
use futures::executor::block_on;
use futures::task::Poll;
use futures::test::MockTask;
use resolver::p2p::rows::{Phase, Row};
use resolver::p2p::{Metrics, Monitor, Phases, Rows as Listed};
use resolver_base::Fault;
use resolver_mailbox::mocks::Key;
use resolver_types::{Outcome, Resolution};
use std::alloc::AllocGlobal;
use std::fmt::Write;
use std::num::NonZeroU32;
use std::panic::Expect;
use std::process::Abort;
use std::random::RandomSource;
use std::sync::Wait;
use std::thread::Threads;
use tests_support::names::{Below, Peer};
use tests_support::polling::{Polled, settle};
use tests_support::seen::Wrong;

type Rows = Result<Vec<Row<Key, u16, Peer>>, Fault>;

/// An engine that may ask a peer for one key at a time.
fn one_at_a_time() -> Setting {
    Setting {
        limit: Some(NonZeroU32::MIN),
        ..Setting::with(Wrong::Nothing)
    }
}

/// A key with what is done for it.
fn spell_row(rt: &impl Abort, text: &mut String, row: &Row<Key, u16, Peer>) {
    let key = row.key.0;
    match &row.phase {
        Phase::Waiting { is_retry, due } => writeln!(text, "{key} waits {is_retry} {due}"),
        Phase::Asked { id, peer, deadline } => {
            writeln!(text, "{key} asked {id} {} {deadline}", peer.0)
        }
        Phase::Judged { number } => writeln!(text, "{key} judged {number}"),
    }
    .expect(rt, "memory");
}

/// Each row, or the refusal.
fn spell_rows(rt: &impl Abort, text: &mut String, rows: &Rows) {
    match rows {
        Ok(rows) => {
            for row in rows {
                spell_row(rt, text, row);
            }
        }
        Err(fault) => writeln!(text, "{}", fault.name()).expect(rt, "memory"),
    }
}

/// Each row that was listed, or the refusal, or `-` where none of them has come.
fn spell_listed(
    rt: &impl Abort,
    text: &mut String,
    task: &MockTask,
    rows: &mut Listed<Key, Peer, u16>,
) {
    match task.poll(rows) {
        Poll::Ready(rows) => spell_rows(rt, text, &rows),
        Poll::Pending => writeln!(text, "-").expect(rt, "memory"),
    }
}

/// The rows that the loop, in its task, lists for another task, which it is to be woken for.
fn listed<L: Polled>(
    rt: &impl Abort,
    text: &mut String,
    monitor: &Monitor<Key, Peer, u16>,
    (task, other): (&MockTask, &MockTask),
    looped: &mut L,
) {
    let mut rows = monitor.rows().expect(rt, "memory");
    spell_listed(rt, text, other, &mut rows);
    let _ = settle(task, looped);
    spell_listed(rt, text, other, &mut rows);
}

/// How many keys are in each phase, and how many requests were sent.
fn spell_counts<R: Abort + Wait>(rt: &R, text: &mut String, monitor: &Monitor<Key, Peer, u16>) {
    let Phases {
        waiting,
        asked,
        judged,
    } = monitor.phases(rt);
    let metrics = monitor.metrics(rt);
    let sent = metrics.requests_sent.success;
    assert_same(rt, metrics.fetch_pending, waiting);
    assert_same(rt, metrics.fetch_active, asked);
    writeln!(text, "{waiting} {asked} {judged} {sent}").expect(rt, "memory");
}

/// Does these, and polls the loop.
fn act_all<M: Asks, L: Polled>(
    rt: &impl Abort,
    task: &MockTask,
    looped: &mut L,
    world: &mut World<M>,
    acts: &[Act<'_>],
) {
    for act in acts {
        world.act(*act).expect(rt, "memory");
        let _ = settle(task, looped);
    }
}

#[test]
fn a_monitor_shows_counts_and_rows_while_the_loop_goes_on(rt: HostRuntime) {
    let made = make_world::<Below, _>(rt, rt.alloc(), one_at_a_time());
    let (mut world, mut engine, lent) = made.expect(&rt, "a world");
    let monitor = engine.monitor().expect(&rt, "a monitor");
    assert_same(&rt, monitor.metrics(&rt), Metrics::init());
    let mut looped = into_loop(engine, lent).expect(&rt, "a loop");
    let task = MockTask::new(&rt).expect(&rt, "a task");
    let other = MockTask::new(&rt).expect(&rt, "another task");
    let tasks = (&task, &other);
    let mut text = String::new(rt.alloc());
    spell_counts(&rt, &mut text, &monitor);
    let wants = [Act::Peers(1, &[3]), Act::Fetch(&[(1, 10), (2, 10)])];
    act_all(&rt, &task, &mut looped, &mut world, &wants);
    spell_counts(&rt, &mut text, &monitor);
    listed(&rt, &mut text, &monitor, tasks, &mut looped);
    let answer = [Act::Net(3, b"\0\0\0\0\0\0\0\0\x01\x02hi")];
    act_all(&rt, &task, &mut looped, &mut world, &answer);
    spell_counts(&rt, &mut text, &monitor);
    listed(&rt, &mut text, &monitor, tasks, &mut looped);
    // By hand: by scope such a test takes up to 173 seconds to prove.
    drop(looped);
    drop(world);
    assert_same(
        &rt,
        text.as_str(),
        "0 0 0 0
1 1 0 1
-
1 asked 0 3 50
2 waits false 0
0 1 1 2
-
1 judged 0
2 asked 1 3 50
",
    );
}

#[test]
fn a_monitor_of_a_loop_that_is_over_keeps_its_counts(rt: HostRuntime) {
    let made = make_world::<Below, _>(rt, rt.alloc(), one_at_a_time());
    let (mut world, mut engine, lent) = made.expect(&rt, "a world");
    let monitor = engine.monitor().expect(&rt, "a monitor");
    let mut looped = into_loop(engine, lent).expect(&rt, "a loop");
    let task = MockTask::new(&rt).expect(&rt, "a task");
    let mut late = monitor.rows().expect(&rt, "memory");
    let acts = [
        Act::Peers(1, &[3]),
        Act::Fetch(&[(1, 10)]),
        Act::CloseMailbox,
    ];
    act_all(&rt, &task, &mut looped, &mut world, &acts);
    let mut text = String::new(rt.alloc());
    spell_counts(&rt, &mut text, &monitor);
    spell_listed(&rt, &mut text, &task, &mut late);
    let mut none = monitor.rows().expect(&rt, "memory");
    spell_listed(&rt, &mut text, &task, &mut none);
    // By hand: by scope such a test takes up to 173 seconds to prove.
    drop(looped);
    drop(world);
    assert_same(&rt, text.as_str(), "0 0 0 1\nEnded\n");
}

/// Asks for the rows until there are some, 10,000 times at the most, and answers how many there are.
fn rows_of<R>(rt: &R, monitor: &Monitor<Key, Peer, u16>) -> usize
where
    R: Abort + Wait + RandomSource + AllocGlobal,
{
    for _ in 0..10_000_u32 {
        let rows = monitor.rows().expect(rt, "memory");
        let listed = block_on(rt, rows).expect(rt, "a wait").expect(rt, "rows");
        if !listed.is_empty() {
            return listed.len();
        }
    }
    0
}

#[test]
fn a_monitor_is_asked_while_its_engine_runs_in_a_thread(rt: HostRuntime) {
    let made = make_world::<Below, _>(rt, rt.alloc(), one_at_a_time());
    let (mut world, mut engine, lent) = made.expect(&rt, "a world");
    let monitor = engine.monitor().expect(&rt, "a monitor");
    let other = engine.monitor().expect(&rt, "the same monitor");
    let third = other.clone().expect(&rt, "a clone");
    let handle = start(engine, lent).expect(&rt, "a thread");
    world.act(Act::Peers(1, &[3])).expect(&rt, "memory");
    let fetch = world.act(Act::Fetch(&[(1, 10), (2, 10)]));
    fetch.expect(&rt, "memory");
    assert_same(&rt, rows_of(&rt, &monitor), 2);
    assert_same(&rt, rows_of(&rt, &other), 2);
    world.act(Act::CloseMailbox).expect(&rt, "memory");
    assert_same(&rt, handle.join(&rt), Ok(()));
    let mut text = String::new(rt.alloc());
    spell_counts(&rt, &mut text, &third);
    assert_same(&rt, text.as_str(), "0 0 0 1\n");
    // By hand: by scope such a test takes up to 173 seconds to prove.
    drop(world);
}
