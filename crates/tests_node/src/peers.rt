use crate::support::equal_texts;
use bytes::Bytes;
use futures::channel::mpsc;
use futures::task::Poll;
use futures::test::MockTask;
use resolver_node::{Blocked, Inbox, OneSet, Sets};
use resolver_runtime::{Blocker, Provider, Receiver};
use std::alloc::Global;
use std::fmt::Write;
use std::panic::Expect;
use std::process::Abort;
use tests_support::names::Letter;

/// The next set, or `-` where there is none so far, or `over`.
fn next_set<S: Provider<PublicKey = Letter>>(
    rt: &impl Abort,
    text: &mut String,
    task: &MockTask,
    sets: &mut S,
) {
    match task.enter(|cx| sets.poll_update(cx)) {
        Poll::Ready(Some((index, peers))) => {
            write!(text, "{index}:").expect(rt, "memory");
            write_names(rt, text, &peers);
        }
        Poll::Ready(None) => write!(text, "over ").expect(rt, "memory"),
        Poll::Pending => write!(text, "- ").expect(rt, "memory"),
    }
}

fn write_names(rt: &impl Abort, text: &mut String, peers: &[Letter]) {
    for peer in peers {
        write!(text, "{},", peer.0).expect(rt, "memory");
    }
    write!(text, " ").expect(rt, "memory");
}

/// Who is blocked, where that has changed.
fn next_blocked(
    rt: &impl Abort,
    text: &mut String,
    task: &MockTask,
    blocked: &mut Blocked<Letter>,
) {
    match task.enter(|cx| blocked.poll_blocked(cx)) {
        Poll::Ready(Some(peers)) => write_names(rt, text, &peers),
        Poll::Ready(None) => write!(text, "over ").expect(rt, "memory"),
        Poll::Pending => write!(text, "- ").expect(rt, "memory"),
    }
}

fn letters(rt: &impl Abort, alloc: Global, names: &[u8]) -> Vec<Letter> {
    let mut letters = Vec::new(alloc);
    for name in names {
        letters.push(Letter(*name)).expect(rt, "memory");
    }
    letters
}

#[test]
fn one_set_is_given_once_and_never_over(rt: HostRuntime) {
    let (rt, alloc) = (&rt, rt.alloc());
    let task = MockTask::new(rt).expect(rt, "a task");
    let mut text = String::new(alloc);
    let mut set = OneSet::new(letters(rt, alloc, &[2, 1]));
    next_set(rt, &mut text, &task, &mut set);
    next_set(rt, &mut text, &task, &mut set);
    next_set(rt, &mut text, &task, &mut set);
    equal_texts(rt, text.as_str(), "0:2,1, - - ");
}

#[test]
fn sets_come_over_a_channel_and_are_over_with_it(rt: HostRuntime) {
    let (rt, alloc) = (&rt, rt.alloc());
    let task = MockTask::new(rt).expect(rt, "a task");
    let mut text = String::new(alloc);
    let (put, sets) = mpsc::unbounded(alloc).expect(rt, "memory");
    let mut sets = Sets::new(sets);
    next_set(rt, &mut text, &task, &mut sets);
    put.unbounded_send((4, letters(rt, alloc, &[3])))
        .expect(rt, "a channel");
    next_set(rt, &mut text, &task, &mut sets);
    drop(put);
    next_set(rt, &mut text, &task, &mut sets);
    equal_texts(rt, text.as_str(), "- 4:3, over ");
}

#[test]
fn messages_come_over_a_channel(rt: HostRuntime) {
    let (rt, alloc) = (&rt, rt.alloc());
    let task = MockTask::new(rt).expect(rt, "a task");
    let mut text = String::new(alloc);
    let (put, messages) = mpsc::unbounded(alloc).expect(rt, "memory");
    let mut inbox = Inbox::new(messages);
    put.unbounded_send((Letter(7), Bytes::from_static(b"hello")))
        .expect(rt, "a channel");
    drop(put);
    for _ in 0..2 {
        match task.enter(|cx| inbox.poll_recv(cx)) {
            Poll::Ready(Some((peer, bytes))) => {
                write!(text, "{}:{bytes:?} ", peer.0).expect(rt, "memory");
            }
            Poll::Ready(None) => write!(text, "over").expect(rt, "memory"),
            Poll::Pending => write!(text, "-").expect(rt, "memory"),
        }
    }
    equal_texts(rt, text.as_str(), "7:b\"hello\" over");
}

#[test]
fn who_is_blocked_is_told_whole_and_wakes(rt: HostRuntime) {
    let (rt, alloc) = (&rt, rt.alloc());
    let task = MockTask::new(rt).expect(rt, "a task");
    let mut text = String::new(alloc);
    let mut blocked = Blocked::new(alloc);
    next_blocked(rt, &mut text, &task, &mut blocked);
    assert!(rt; !task.is_woken());
    blocked.block(&Letter(5));
    assert!(rt; task.is_woken());
    next_blocked(rt, &mut text, &task, &mut blocked);
    blocked.block(&Letter(5));
    next_blocked(rt, &mut text, &task, &mut blocked);
    blocked.block(&Letter(2));
    next_blocked(rt, &mut text, &task, &mut blocked);
    equal_texts(rt, text.as_str(), "- 5, - 2,5, ");
    assert_eq!(rt; blocked.peers().len(), 2);
}
