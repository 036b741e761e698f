use crate::support::equal_texts;
use bytes::Bytes;
use futures::task::Poll;
use futures::test::MockTask;
use resolver_base::Sender;
use resolver_node::{Inbox, Link, Weather, network};
use resolver_runtime::Receiver;
use std::alloc::Global;
use std::fmt::Write;
use std::panic::Expect;
use std::process::Abort;
use tests_support::names::Letter;

/// The way of node 1, and what node 2 receives.
fn two(rt: &impl Abort, alloc: Global, weather: Weather) -> (Link<Letter>, Inbox<Letter>) {
    let mut names = Vec::new(alloc);
    names.push(Letter(1)).expect(rt, "memory");
    names.push(Letter(2)).expect(rt, "memory");
    let mut ends = network(alloc, names, weather).expect(rt, "memory");
    let (_, inbox) = ends.pop().expect(rt, "a second end");
    let (link, _) = ends.pop().expect(rt, "a first end");
    (link, inbox)
}

/// Sends letters to node 2, each as a message, and answers what arrives.
fn arrives(
    rt: &impl Abort,
    task: &MockTask,
    alloc: Global,
    weather: Weather,
    letters: &'static [u8],
) -> String {
    let (mut link, mut inbox) = two(rt, alloc, weather);
    for letter in letters.chunks(1) {
        let answer = link.send(&Letter(2), Bytes::from_static(letter), false);
        assert!(rt; answer.is_accepted());
    }
    let mut text = String::new(alloc);
    for _ in 0..letters.len() {
        if let Poll::Ready(Some((peer, bytes))) = task.enter(|cx| inbox.poll_recv(cx)) {
            write!(text, "{}{bytes:?} ", peer.0).expect(rt, "memory");
        }
    }
    text
}

#[test]
fn messages_arrive_in_order_in_fair_weather(rt: HostRuntime) {
    let (rt, alloc) = (&rt, rt.alloc());
    let task = MockTask::new(rt).expect(rt, "a task");
    let text = arrives(rt, &task, alloc, Weather::FAIR, b"abc");
    equal_texts(rt, text.as_str(), "1b\"a\" 1b\"b\" 1b\"c\" ");
}

#[test]
fn a_network_may_lose_every_message(rt: HostRuntime) {
    let (rt, alloc) = (&rt, rt.alloc());
    let task = MockTask::new(rt).expect(rt, "a task");
    let weather = Weather {
        lost: 1_000,
        held: 0,
        seed: 1,
    };
    let text = arrives(rt, &task, alloc, weather, b"abc");
    equal_texts(rt, text.as_str(), "");
}

#[test]
fn a_message_that_is_held_back_comes_behind_the_next(rt: HostRuntime) {
    let (rt, alloc) = (&rt, rt.alloc());
    let task = MockTask::new(rt).expect(rt, "a task");
    let weather = Weather {
        lost: 0,
        held: 1_000,
        seed: 1,
    };
    let text = arrives(rt, &task, alloc, weather, b"abcde");
    equal_texts(rt, text.as_str(), "1b\"b\" 1b\"a\" 1b\"d\" 1b\"c\" ");
}

#[test]
fn a_seed_is_the_same_weather_again(rt: HostRuntime) {
    let (rt, alloc) = (&rt, rt.alloc());
    let task = MockTask::new(rt).expect(rt, "a task");
    let weather = Weather {
        lost: 300,
        held: 300,
        seed: 7,
    };
    let first = arrives(rt, &task, alloc, weather, b"abcdefghijklmnopqrstuvwxyz");
    let again = arrives(rt, &task, alloc, weather, b"abcdefghijklmnopqrstuvwxyz");
    equal_texts(rt, first.as_str(), again.as_str());
    assert!(rt; first.len() < 26 * 6);
}

#[test]
fn a_message_for_nobody_is_accepted(rt: HostRuntime) {
    let (rt, alloc) = (&rt, rt.alloc());
    let (mut link, _) = two(rt, alloc, Weather::FAIR);
    let answer = link.send(&Letter(9), Bytes::from_static(b"a"), true);
    assert!(rt; answer.is_accepted());
}
