use crate::support::equal;
use bytes::Bytes;
use futures::channel::oneshot::Canceled;
use futures::task::Poll;
use futures::test::MockTask;
use resolver_runtime::{Producer, mocks};
use std::panic::Expect;
use std::process::Abort;
use tests_support::names::Letter;

/// The bytes that are there at once, or none where the sender was dropped.
fn seen(found: &Poll<Result<Bytes, Canceled>>) -> Poll<Option<&[u8]>> {
    match found {
        Poll::Ready(Ok(bytes)) => Poll::Ready(Some(bytes.as_slice())),
        Poll::Ready(Err(_)) => Poll::Ready(None),
        Poll::Pending => Poll::Pending,
    }
}

/// Ends the test unless the producer has these bytes under this key, or none.
fn has<O: Producer<Key = Letter>>(
    rt: &impl Abort,
    task: &MockTask,
    producer: &mut O,
    key: u8,
    wanted: Option<&[u8]>,
) {
    let mut served = producer.produce(Letter(key)).expect(rt, "memory");
    let found = task.poll(&mut served);
    equal(rt, &seen(&found), &Poll::Ready(wanted));
}

const INSERTED: &[(u8, &str)] = &[(1, "one"), (2, "zwei"), (2, "two")];

const GIVEN: &[(u8, Option<&[u8]>)] = &[
    (1, Some(b"one")),
    (2, Some(b"two")),
    (2, Some(b"two")),
    (3, None),
];

fn gives_what_was_inserted(
    rt: &impl Abort,
    task: &MockTask,
    producer: &mut mocks::Producer<Letter, &'static str>,
) {
    has(rt, task, producer, 1, None);
    for &(key, text) in INSERTED {
        producer.insert(Letter(key), text).expect(rt, "memory");
    }
    for &(key, bytes) in GIVEN {
        has(rt, task, producer, key, bytes);
    }
}

#[test]
fn an_absent_key_drops_its_sender(rt: HostRuntime) {
    let rt = &rt;
    let task = MockTask::new(rt).expect(rt, "a task");
    let mut producer = mocks::Producer::new(rt.alloc());
    gives_what_was_inserted(rt, &task, &mut producer);
}
