use crate::support::{delivery, equal};
use futures::Stream;
use futures::channel::mpsc::UnboundedReceiver;
use futures::task::Poll;
use futures::test::MockTask;
use resolver_runtime::{Consumer, mocks};
use resolver_types::{Outcome, Resolution};
use std::alloc::Global;
use std::panic::Expect;
use std::process::Abort;
use tests_support::names::Letter;

const RIGHT: Option<Outcome> = Some(Outcome::Resolved(Resolution::Complete));

const WRONG: Option<Outcome> = Some(Outcome::Invalid);

/// What a consumer says at once of this value under this key.
fn outcome_of<C: Consumer<Key = Letter, Value = u16, Subscriber = u8>>(
    rt: &impl Abort,
    alloc: Global,
    task: &MockTask,
    consumer: &mut C,
    key: u8,
    value: u16,
) -> Option<Outcome>
where
    C::Outcome: Drop,
{
    let delivery = delivery(rt, alloc, Letter(key));
    let mut verdict = consumer.deliver(delivery, value).expect(rt, "memory");
    let polled = task.poll(&mut verdict);
    match polled {
        Poll::Ready(Ok(outcome)) => Some(outcome.into()),
        _ => None,
    }
}

/// The next pair that the test is told of.
fn next(
    task: &MockTask,
    taken: &mut UnboundedReceiver<(Letter, u16)>,
) -> Poll<Option<(Letter, u16)>> {
    task.enter(|cx| taken.poll_next(cx))
}

/// A key, a value, and what a consumer says of them.
type Judged = (u8, u16, Option<Outcome>);

/// Expects values under their keys, and judges others then.
fn judges(
    rt: &impl Abort,
    alloc: Global,
    task: &MockTask,
    consumer: &mut mocks::Consumer<Letter, u16, u8>,
    expected: &[(u8, u16)],
    judged: &[Judged],
) {
    for &(key, value) in expected {
        consumer
            .add_expected(Letter(key), value)
            .expect(rt, "memory");
    }
    for &(key, value, wanted) in judged {
        let outcome = outcome_of(rt, alloc, task, consumer, key, value);
        equal(rt, &outcome, &wanted);
    }
}

/// The last value that is expected of a key is right alone, and any value where none is.
fn judges_what_is_expected(
    rt: &impl Abort,
    alloc: Global,
    task: &MockTask,
    consumer: &mut mocks::Consumer<Letter, u16, u8>,
) {
    const JUDGED: &[Judged] = &[(1, 7, RIGHT), (1, 6, WRONG), (2, 9, RIGHT)];
    judges(rt, alloc, task, consumer, &[(1, 6), (1, 7)], JUDGED);
    equal(rt, &consumer.pop_expected(&Letter(1)), &Some(7));
    equal(rt, &consumer.pop_expected(&Letter(1)), &None);
    judges(rt, alloc, task, consumer, &[], &[(1, 6, RIGHT)]);
}

/// The test is told of these pairs, and then of no more.
fn told(rt: &impl Abort, task: &MockTask, taken: &mut UnboundedReceiver<(Letter, u16)>) {
    const TOLD: &[(u8, u16)] = &[(1, 7), (2, 9), (1, 6)];
    for &(key, value) in TOLD {
        let wanted = Poll::Ready(Some((Letter(key), value)));
        equal(rt, &next(task, taken), &wanted);
    }
    equal(rt, &next(task, taken), &Poll::Ready(None));
}

#[test]
fn what_is_expected_or_not_is_right(rt: HostRuntime) {
    let rt = &rt;
    let alloc = rt.alloc();
    let task = MockTask::new(rt).expect(rt, "a task");
    let (mut consumer, mut taken) = mocks::Consumer::new(alloc).expect(rt, "memory");
    judges_what_is_expected(rt, alloc, &task, &mut consumer);
    drop(consumer);
    told(rt, &task, &mut taken);
}

/// What a dummy expects is right, and nothing else.
#[test]
fn a_dummy_judges_too(rt: HostRuntime) {
    let rt = &rt;
    const JUDGED: &[Judged] = &[(1, 7, RIGHT), (1, 8, WRONG), (2, 8, RIGHT)];
    let alloc = rt.alloc();
    let task = MockTask::new(rt).expect(rt, "a task");
    let mut consumer = mocks::Consumer::dummy(alloc).expect(rt, "memory");
    judges(rt, alloc, &task, &mut consumer, &[(1, 7), (2, 8)], JUDGED);
}
