use crate::support::equal;
use bytes::Bytes;
use futures::Stream;
use futures::channel::mpsc;
use futures::task::{Context, Poll, Source, Waker};
use futures::test::MockTask;
use resolver_runtime::{Clock, Receiver};
use std::panic::Expect;
use std::process::Abort;
use tests_support::names::Letter;

/// A network over memory.
#[derive(Drop)]
struct Wire {
    messages: mpsc::UnboundedReceiver<(Letter, Bytes)>,
}

impl Receiver for Wire {
    type PublicKey = Letter;

    fn poll_recv(&mut self, cx: &mut Context<'_>) -> Poll<Option<(Letter, Bytes)>> {
        self.messages.poll_next(cx)
    }
}

/// A clock that stands.
#[derive(Drop)]
struct Watch {
    now: u64,
    changed: Source,
    waker: Option<Waker>,
}

impl Clock for Watch {
    fn now(&self) -> u128 {
        self.now as u128
    }

    fn poll_until(&mut self, cx: &mut Context<'_>, moment: u128) -> Poll<()> {
        if moment <= self.now as u128 {
            return Poll::Ready(());
        }
        cx.register(&self.changed, &mut self.waker)
    }
}

/// How long it is from the clock's moment to a later one, and whether the later one has come.
fn left<C: Clock>(task: &MockTask, clock: &mut C, moment: u128) -> (u128, bool) {
    let polled = task.enter(|cx| clock.poll_until(cx, moment));
    (moment.saturating_sub(clock.now()), polled.is_ready())
}

/// Ends the test where something else comes next.
fn comes<I: Receiver<PublicKey = Letter>>(
    rt: &impl Abort,
    task: &MockTask,
    network: &mut I,
    wanted: Poll<Option<(Letter, Bytes)>>,
) {
    let found = task.enter(|cx| network.poll_recv(cx));
    equal(rt, &found, &wanted);
}

/// A message comes, and then the end.
fn gives_hi(
    rt: &impl Abort,
    task: &MockTask,
    sender: mpsc::UnboundedSender<(Letter, Bytes)>,
    network: &mut Wire,
) {
    comes(rt, task, network, Poll::Pending);
    let hi = (Letter(4), Bytes::from_static(b"hi"));
    sender.unbounded_send(hi).expect(rt, "memory");
    drop(sender);
    let hi = (Letter(4), Bytes::from_static(b"hi"));
    comes(rt, task, network, Poll::Ready(Some(hi)));
    comes(rt, task, network, Poll::Ready(None));
}

#[test]
fn a_network_gives_what_was_sent(rt: HostRuntime) {
    let rt = &rt;
    let task = MockTask::new(rt).expect(rt, "a task");
    let (sender, messages) = mpsc::unbounded(rt.alloc()).expect(rt, "memory");
    let mut network = Wire { messages };
    gives_hi(rt, &task, sender, &mut network);
}

#[test]
fn a_moment_comes_at_its_time(rt: HostRuntime) {
    let rt = &rt;
    let task = MockTask::new(rt).expect(rt, "a task");
    let mut clock = Watch {
        now: 5,
        changed: Source::new(),
        waker: None,
    };
    equal(rt, &left(&task, &mut clock, 5), &(0, true));
    equal(rt, &left(&task, &mut clock, 8), &(3, false));
}
