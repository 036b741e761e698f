//! Deliveries that a consumer judges later.
//!
//! | Line | Says | Prints |
//! |---|---|---|
//! | `insert K N`, `remove K`, `forget K`, `drain` | the key is there with a state; it goes; it goes, found by a test; all go | whether it is new, or was there; how many went |
//! | `deliver K`, `redeliver K`, `accept K`, `discard K` | the value "v" is handed out for the key; its response is handed out again, accepted or discarded | the number |
//! | `asked`, `judge PLACE W`, `drop PLACE` | the consumer was asked, and has one one-shot more; it judges by the one at a place, or drops it | whether that was heard; whether it was canceled |
//! | `poll`, `verdict N W` | a verdict may have come; it has come for delivery N | what is over |
//! | `state K`, `look K` | | the state; whether the key is there, has a response, and had it accepted |

use crate::support::{delivery, equal, holds, next, outcome, plays, print, unreadable, value};
use bytes::Bytes;
use futures::channel::{mpsc, oneshot};
use futures::task::Poll;
use futures::test::MockTask;
use resolver_runtime::{Consumer, Tracker, mocks};
use resolver_types::Outcome;
use std::alloc::{AllocGlobal, Global};
use std::panic::Expect;
use std::process::Abort;
use std::random::RandomSource;
use tests_support::names::Letter;
use tests_support::slow::Slow;
use tests_support::transcript::{Line, Said};

/// A peer, and what it took: elapsed time and bytes.
type Source = (Letter, u128, u64);

const SOURCE: Source = (Letter(4), 0, 1);

/// Keys with a number each.
type Tracked = Tracker<Slow, Source, u64>;

// The lines are said to a tracker over any consumer, so that they are proved without what a consumer is.

/// The value "v" is handed out for a key.
fn deliver<C>(
    rt: &impl Abort,
    printed: &mut String,
    tracker: &mut Tracker<C, Source, u64>,
    key: Letter,
)
where
    C: Consumer<Key = Letter, Value = Bytes, Subscriber = u8> + Drop,
    C::Outcome: Drop,
{
    holds(rt, tracker.contains(&key));
    holds(rt, tracker.entries().number(&key).is_none());
    let delivery = delivery(rt, *printed.allocator(), key);
    let number = tracker.deliver(delivery, SOURCE, Bytes::from_static(b"v"));
    print(rt, printed, number);
}

/// The response of a key is handed out again.
fn redeliver<C>(
    rt: &impl Abort,
    printed: &mut String,
    tracker: &mut Tracker<C, Source, u64>,
    key: Letter,
)
where
    C: Consumer<Key = Letter, Value = Bytes, Subscriber = u8> + Drop,
    C::Outcome: Drop,
{
    holds(rt, tracker.entries().response(&key).is_some());
    holds(rt, tracker.entries().number(&key).is_none());
    let delivery = delivery(rt, *printed.allocator(), key);
    print(rt, printed, tracker.redeliver(delivery));
}

fn accept<C>(rt: &impl Abort, tracker: &mut Tracker<C, Source, u64>, key: &Letter)
where
    C: Consumer<Key = Letter, Value = Bytes, Subscriber = u8> + Drop,
    C::Outcome: Drop,
{
    holds(rt, tracker.entries().response(key).is_some());
    tracker.accept_response(key);
}

/// Writes whether there is the key, whether it has a response, and whether that was accepted.
fn look<C>(rt: &impl Abort, printed: &mut String, tracker: &Tracker<C, Source, u64>, key: &Letter)
where
    C: Consumer<Key = Letter, Value = Bytes, Subscriber = u8> + Drop,
    C::Outcome: Drop,
{
    let has_response = tracker.entries().response(key).is_some();
    let seen = [
        tracker.contains(key),
        has_response,
        tracker.response_accepted(key),
    ];
    print(rt, printed, seen);
}

/// How many keys go as those but this one are kept.
fn forget<C>(tracker: &mut Tracker<C, Source, u64>, key: Letter) -> usize
where
    C: Consumer<Key = Letter, Value = Bytes, Subscriber = u8> + Drop,
    C::Outcome: Drop,
{
    tracker.retain(|one| one.0 != key.0)
}

/// Says a line of keys, or one of the others.
fn change<C>(
    rt: &impl Abort,
    printed: &mut String,
    tracker: &mut Tracker<C, Source, u64>,
    word: &str,
    line: &mut Line,
)
where
    C: Consumer<Key = Letter, Value = Bytes, Subscriber = u8> + Drop,
    C::Outcome: Drop,
{
    match word {
        "drain" => print(rt, printed, tracker.drain()),
        "verdict" => {
            let number = value(rt, line);
            print(rt, printed, tracker.completed(number, outcome(rt, line)));
        }
        "insert" => {
            let key = Letter(value(rt, line));
            print(rt, printed, tracker.insert_state(key, value(rt, line)));
        }
        _ => {
            let key = Letter(value(rt, line));
            change_key(rt, printed, tracker, word, key, line);
        }
    }
}

/// Says a line of one key, or of its delivery. Ends the test where no line has this word.
fn change_key<C>(
    rt: &impl Abort,
    printed: &mut String,
    tracker: &mut Tracker<C, Source, u64>,
    word: &str,
    key: Letter,
    line: &Line,
)
where
    C: Consumer<Key = Letter, Value = Bytes, Subscriber = u8> + Drop,
    C::Outcome: Drop,
{
    match word {
        "state" => print(rt, printed, tracker.state(&key)),
        "remove" => print(rt, printed, tracker.remove(&key)),
        "forget" => print(rt, printed, forget(tracker, key)),
        "deliver" => deliver(rt, printed, tracker, key),
        "redeliver" => redeliver(rt, printed, tracker, key),
        "accept" => accept(rt, tracker, &key),
        "discard" => tracker.discard_response(&key),
        "look" => look(rt, printed, tracker, &key),
        _ => unreadable(rt, line),
    }
}

type Judge = oneshot::Sender<Outcome>;

/// The next one-shot that the consumer was asked to answer by.
fn next_judge(
    rt: &impl Abort,
    task: &MockTask,
    asked: &mut mpsc::UnboundedReceiver<Judge>,
) -> Judge {
    match next(task, asked) {
        Poll::Ready(Some(judge)) => judge,
        _ => panic!(rt; "the consumer was not asked"),
    }
}

/// A tracker, and what its consumer is to answer by.
#[derive(Drop)]
struct Judged<'a> {
    task: &'a MockTask,
    tracker: &'a mut Tracked,
    asked: &'a mut mpsc::UnboundedReceiver<Judge>,
    judges: &'a mut Vec<Judge>,
}

/// Takes out the one-shot at a place.
fn judge_at(rt: &impl Abort, judges: &mut Vec<Judge>, place: usize) -> Judge {
    holds(rt, place < judges.len());
    judges.remove(place)
}

impl Judged<'_> {
    /// The consumer judges by the one-shot at a place, or drops it.
    fn judge(&mut self, rt: &impl Abort, printed: &mut String, word: &str, line: &mut Line) {
        let judge = judge_at(rt, self.judges, value(rt, line));
        if word == "judge" {
            let outcome = outcome(rt, line).expect(rt, "a verdict");
            print(rt, printed, judge.send(outcome));
        } else {
            print(rt, printed, judge.is_canceled());
        }
    }
}

impl<R: Abort> Said<R> for Judged<'_> {
    fn say(&mut self, rt: &R, line: &mut Line, printed: &mut String) {
        match line.field() {
            "poll" => {
                let polled = self.task.enter(|cx| self.tracker.poll_completion(cx));
                print(rt, printed, polled);
            }
            "asked" => {
                let judge = next_judge(rt, self.task, self.asked);
                self.judges.push(judge).expect(rt, "memory");
            }
            word if word == "judge" || word == "drop" => self.judge(rt, printed, word, line),
            word => change(rt, printed, self.tracker, word, line),
        }
    }
}

/// Plays a case, of a new tracker.
fn play_new<R: Abort + RandomSource + AllocGlobal>(rt: &R, alloc: Global, case: &str) {
    let task = MockTask::new(rt).expect(rt, "a task");
    let (sender, mut asked) = mpsc::unbounded(alloc).expect(rt, "memory");
    let slow = Slow {
        alloc,
        judges: sender,
    };
    let mut tracker = Tracker::new(alloc, slow);
    let mut judges = Vec::new(alloc);
    let mut judged = Judged {
        task: &task,
        tracker: &mut tracker,
        asked: &mut asked,
        judges: &mut judges,
    };
    plays(rt, alloc, &mut judged, case);
}

#[test]
fn inflight_completion(rt: HostRuntime) {
    const CASE: &str = "# inflight_completion
insert 1 0
> Ok(true)
deliver 1
> Ok(0)
asked
judge 0 complete
> Ok(())
remove 1
> true
poll
> Ready(Ok(Completion { response: 0, context: (Letter(4), 0, 1), delivery: Delivery { key: Letter(1), subscribers: NonEmptyVec { items: [(10, 7)] } }, outcome: Some(Resolved(Complete)), canceled: true, previously_accepted: false }))
look 1
> [false, false, false]";
    play_new(&rt, rt.alloc(), CASE);
}

#[test]
fn an_accepted_response_is_handed_out_again(rt: HostRuntime) {
    const CASE: &str = "# an_accepted_response_is_handed_out_again
insert 1 0
> Ok(true)
deliver 1
> Ok(0)
asked
judge 0 complete
> Ok(())
poll
> Ready(Ok(Completion { response: 0, context: (Letter(4), 0, 1), delivery: Delivery { key: Letter(1), subscribers: NonEmptyVec { items: [(10, 7)] } }, outcome: Some(Resolved(Complete)), canceled: false, previously_accepted: false }))
look 1
> [true, true, false]
accept 1
look 1
> [true, true, true]
redeliver 1
> Ok(1)
verdict 1 ignored
> Ok(Completion { response: 0, context: (Letter(4), 0, 1), delivery: Delivery { key: Letter(1), subscribers: NonEmptyVec { items: [(10, 7)] } }, outcome: Some(Ignored), canceled: false, previously_accepted: true })
poll
> Pending
discard 1
look 1
> [true, false, false]";
    play_new(&rt, rt.alloc(), CASE);
}

/// Of three deliveries the second is judged, the first dropped, and the third canceled.
#[test]
fn verdicts_come_in_any_order(rt: HostRuntime) {
    const CASE: &str = "# verdicts_come_in_any_order
insert 1 0
> Ok(true)
deliver 1
> Ok(0)
insert 2 0
> Ok(true)
deliver 2
> Ok(1)
insert 3 0
> Ok(true)
deliver 3
> Ok(2)
poll
> Pending
asked
asked
asked
judge 1 complete
> Ok(())
poll
> Ready(Ok(Completion { response: 1, context: (Letter(4), 0, 1), delivery: Delivery { key: Letter(2), subscribers: NonEmptyVec { items: [(10, 7)] } }, outcome: Some(Resolved(Complete)), canceled: false, previously_accepted: false }))
drop 0
> false
poll
> Ready(Ok(Completion { response: 0, context: (Letter(4), 0, 1), delivery: Delivery { key: Letter(1), subscribers: NonEmptyVec { items: [(10, 7)] } }, outcome: None, canceled: false, previously_accepted: false }))
remove 3
> true
poll
> Ready(Err(Aborted))
drop 0
> true
poll
> Pending";
    play_new(&rt, rt.alloc(), CASE);
}

#[test]
fn keys_have_a_state(rt: HostRuntime) {
    const CASE: &str = "# keys_have_a_state
insert 1 20
> Ok(true)
state 1
> Some(20)
insert 1 30
> Ok(false)
state 1
> Some(20)
insert 2 40
> Ok(true)
state 2
> Some(40)
insert 3 40
> Ok(true)
state 3
> Some(40)
insert 4 40
> Ok(true)
state 4
> Some(40)
forget 2
> 1
look 2
> [false, false, false]
drain
> 3
look 1
> [false, false, false]";
    play_new(&rt, rt.alloc(), CASE);
}

/// Whether a key is new as it is put without a state, and once more.
fn put_twice<C: Consumer<Key = Letter> + Drop>(
    rt: &impl Abort,
    tracker: &mut Tracker<C, Source, ()>,
) -> [bool; 2]
where
    C::Subscriber: Drop,
    C::Value: Drop,
    C::Outcome: Drop,
{
    let is_new = tracker.insert(Letter(1)).expect(rt, "memory");
    [is_new, tracker.insert(Letter(1)).expect(rt, "memory")]
}

#[test]
fn a_key_without_a_state_is_new_once(rt: HostRuntime) {
    let consumer: mocks::Consumer<Letter, u16, u8> = mocks::Consumer::dummy(rt.alloc()).expect(
        &rt, "memory",
    );
    let mut tracker = Tracker::new(rt.alloc(), consumer);
    let is_new = put_twice(&rt, &mut tracker);
    equal(&rt, &is_new, &[true, false]);
}
