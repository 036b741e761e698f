//! A mailbox under its lock.
//!
//! | Line | Says | Prints |
//! |---|---|---|
//! | `put H K S M` | handle H puts a fetch of the key for a subscriber with its mark | the answer |
//! | `clone H`, `close H`, `end` | a handle more; the mailbox is closed by a handle, or by the receiver | |
//! | `poll` | the receiver is asked for the next message | it |
//! | `share H`, `taken`, `book N`, `is-woken` | | the share of a handle; what was taken; the book that is lent for the first N handles; whether the task was woken |

ghost use Rattle.std.specs.Prelude.{◌≡◌, ◌<◌, true};

use crate::mail::messages::{fetch, shown};
use crate::support::{next, plays_parts, print, size, unreadable, value};
use futures::test::MockTask;
use resolver_base::Fault;
use resolver_mailbox::mailbox::{Naming, Pages, Receiver, Sender, Share, new, recorded};
use std::alloc::{AllocGlobal, Global};
use std::marker::Brand;
use std::num::NonZeroUsize;
use std::panic::Expect;
use std::process::Abort;
use std::random::RandomSource;
use std::sync::Wait;
use tests_support::names::{All, Letter};
use tests_support::transcript::{Line, Said};

/// A handle of the tests.
pub type Handle<N, R> = Sender<Letter, u16, (), All, N, R>;

/// The first handle and the receiver of a mailbox that was made.
type Made<N, R> = Result<(Handle<N, R>, Receiver<Letter, u16, (), All, N, R>), Fault>;

/// The shares of some handles.
pub fn shares_of<'a, N: Naming, R>(
    rt: &impl Abort,
    alloc: Global,
    handles: &'a [Handle<N, R>],
) -> Vec<&'a Share<Letter, u16, (), All, N>> {
    let mut shares = Vec::new(alloc);
    for handle in handles {
        if let Some(share) = handle.share() {
            shares.push(share).expect(rt, "memory");
        }
    }
    shares
}

/// Puts a fetch of a key for one subscriber with its mark, and prints the answer.
fn put<N: Naming, R: Wait>(
    rt: &impl Abort,
    printed: &mut String,
    handle: &mut Handle<N, R>,
    line: &mut Line,
) {
    let (key, subscriber) = (value(rt, line), value(rt, line));
    let message = fetch(*printed.allocator(), key, subscriber, value(rt, line));
    let message = message.expect(rt, "memory");
    print(rt, printed, handle.enqueue(message).expect(rt, "an answer"));
}

/// Prints the book that is lent for the shares of these handles.
fn print_book<N: Naming, R: Wait>(
    rt: &impl Abort,
    printed: &mut String,
    receiver: &Receiver<Letter, u16, (), All, N, R>,
    handles: &[Handle<N, R>],
) {
    let alloc = *printed.allocator();
    let shares = shares_of(rt, alloc, handles);
    let book = receiver.book(shares.as_slice()).expect(rt, "a book");
    print(rt, printed, book);
}

/// The handles and the receiver of a mailbox.
#[derive(Drop)]
struct Mailed<'t, 'a, N: Naming, R> {
    task: &'t MockTask,
    handles: &'a mut Vec<Handle<N, R>>,
    receiver: &'a mut Receiver<Letter, u16, (), All, N, R>,
}

/// Says a line to a handle. Ends the test where none has this word.
fn say_to_handle<N: Naming, R: Wait>(
    rt: &impl Abort,
    printed: &mut String,
    handle: &mut Handle<N, R>,
    word: &str,
    line: &mut Line,
) {
    match word {
        "put" => put(rt, printed, handle, line),
        "share" => print(rt, printed, shown(handle.share())),
        "close" => handle.close(),
        _ => unreadable(rt, line),
    }
}

/// Says a line to the receiver. Whether there is one of this word.
fn say_to_receiver<N: Naming, R: Wait + Drop>(
    rt: &impl Abort,
    printed: &mut String,
    task: &MockTask,
    receiver: &mut Receiver<Letter, u16, (), All, N, R>,
    word: &str,
) -> bool {
    match word {
        "poll" => print(rt, printed, next(task, receiver)),
        "taken" => print(rt, printed, receiver.taken()),
        "end" => receiver.close(),
        "is-woken" => print(rt, printed, task.is_woken()),
        _ => return false,
    }
    true
}

impl<N: Naming, X: Wait + Copy + Drop, R: Abort> Said<R> for Mailed<'_, '_, N, X> {
    fn say(&mut self, rt: &R, line: &mut Line, printed: &mut String) {
        let word = line.field();
        if say_to_receiver(rt, printed, self.task, self.receiver, word) {
            return;
        }
        let place: usize = value(rt, line);
        match word {
            "clone" => {
                let handle = self.handles.get(place).expect(rt, "a handle");
                let clone = handle.clone().expect(rt, "memory");
                self.handles.push(clone).expect(rt, "memory");
            }
            "book" => {
                let lent = self.handles.get(..place).expect(rt, "handles");
                print_book(rt, printed, self.receiver, lent);
            }
            _ => {
                let handle = self.handles.get_mut(place).expect(rt, "a handle");
                say_to_handle(rt, printed, handle, word, line);
            }
        }
    }
}

/// Plays the parts of a case in a mailbox that was made.
fn play_in<N: Naming, R: Wait + Copy + Drop>(
    rt: &impl Abort,
    alloc: Global,
    task: &MockTask,
    made: Made<N, R>,
    parts: &[&str],
) {
    let (handle, mut receiver) = made.expect(rt, "a mailbox");
    let mut handles = Vec::new(alloc);
    handles.push(handle).expect(rt, "memory");
    let mut mailed = Mailed {
        task,
        handles: &mut handles,
        receiver: &mut receiver,
    };
    plays_parts(rt, alloc, &mut mailed, parts);
    // By hand: the borrow checker doesn't cover these by their scope.
    drop(mailed);
    drop(handles);
    drop(receiver);
}

/// The same in a recorded mailbox of this capacity.
fn recorded_play<N, R>(
    rt: R,
    alloc: Global,
    pages: Pages,
    task: &MockTask,
    capacity: NonZeroUsize,
    parts: &[&str],
)
where
    N: Naming,
    R: Abort + Wait + Copy + Drop,
    requires recorded { N.is_recorded ≡ true }
    requires puts { pages.puts.name ≡ N.puts }
    requires takes { pages.takes.name ≡ N.takes }
{
    let made = recorded::<Letter, u16, (), All, N, R>(rt, alloc, pages, capacity);
    play_in(&rt, alloc, task, made, parts);
}

/// Two handles put, the receiver takes, the mailbox is closed, and the first handle puts again.
const ROW: &str = "# mailbox_book
clone 0
share 0
> (None, [])
share 1
> (None, [])
put 0 1 10 7
> Ok
put 0 2 20 8
> Backoff
put 1 2 21 9
> Backoff
poll
> Ready(Some(Ok(Fetch([FetchKey { key: Letter(1), subscribers: NonEmptyVec { items: [(10, 7)] }, metadata: () }]))))
poll
> Ready(Some(Ok(Fetch([FetchKey { key: Letter(2), subscribers: NonEmptyVec { items: [(20, 8), (21, 9)] }, metadata: () }]))))
poll
> Pending
close 0
put 0 3 30 5
> Closed";

/// The shares then, and what was taken.
const SHARES: &str = "# shares
share 0
> (Some((0, true)), [Fetch([FetchKey { key: Letter(1), subscribers: NonEmptyVec { items: [(10, 7)] }, metadata: () }]), Fetch([FetchKey { key: Letter(2), subscribers: NonEmptyVec { items: [(20, 8)] }, metadata: () }])])
share 1
> (Some((1, false)), [Fetch([FetchKey { key: Letter(2), subscribers: NonEmptyVec { items: [(21, 9)] }, metadata: () }])])
taken
> [Fetch([FetchKey { key: Letter(1), subscribers: NonEmptyVec { items: [(10, 7)] }, metadata: () }]), Fetch([FetchKey { key: Letter(2), subscribers: NonEmptyVec { items: [(20, 8), (21, 9)] }, metadata: () }])]";

/// The book of the row, lent for no handle, for one and for both.
const BOOKS: &str = "# books
book 0
> [Put(Posted { handle: 0, place: 0, message: Fetch([FetchKey { key: Letter(1), subscribers: NonEmptyVec { items: [(10, 7)] }, metadata: () }]), is_ok: true }), Put(Posted { handle: 0, place: 1, message: Fetch([FetchKey { key: Letter(2), subscribers: NonEmptyVec { items: [(20, 8)] }, metadata: () }]), is_ok: false }), Put(Posted { handle: 1, place: 0, message: Fetch([FetchKey { key: Letter(2), subscribers: NonEmptyVec { items: [(21, 9)] }, metadata: () }]), is_ok: false }), Take(Fetch([FetchKey { key: Letter(1), subscribers: NonEmptyVec { items: [(10, 7)] }, metadata: () }])), Take(Fetch([FetchKey { key: Letter(2), subscribers: NonEmptyVec { items: [(20, 8), (21, 9)] }, metadata: () }])), Close]
book 1
> [Put(Posted { handle: 0, place: 0, message: Fetch([FetchKey { key: Letter(1), subscribers: NonEmptyVec { items: [(10, 7)] }, metadata: () }]), is_ok: true }), Put(Posted { handle: 0, place: 1, message: Fetch([FetchKey { key: Letter(2), subscribers: NonEmptyVec { items: [(20, 8)] }, metadata: () }]), is_ok: false }), Put(Posted { handle: 1, place: 0, message: Fetch([FetchKey { key: Letter(2), subscribers: NonEmptyVec { items: [(21, 9)] }, metadata: () }]), is_ok: false }), Take(Fetch([FetchKey { key: Letter(1), subscribers: NonEmptyVec { items: [(10, 7)] }, metadata: () }])), Take(Fetch([FetchKey { key: Letter(2), subscribers: NonEmptyVec { items: [(20, 8), (21, 9)] }, metadata: () }])), Close]
book 2
> [Put(Posted { handle: 0, place: 0, message: Fetch([FetchKey { key: Letter(1), subscribers: NonEmptyVec { items: [(10, 7)] }, metadata: () }]), is_ok: true }), Put(Posted { handle: 0, place: 1, message: Fetch([FetchKey { key: Letter(2), subscribers: NonEmptyVec { items: [(20, 8)] }, metadata: () }]), is_ok: false }), Put(Posted { handle: 1, place: 0, message: Fetch([FetchKey { key: Letter(2), subscribers: NonEmptyVec { items: [(21, 9)] }, metadata: () }]), is_ok: false }), Take(Fetch([FetchKey { key: Letter(1), subscribers: NonEmptyVec { items: [(10, 7)] }, metadata: () }])), Take(Fetch([FetchKey { key: Letter(2), subscribers: NonEmptyVec { items: [(20, 8), (21, 9)] }, metadata: () }])), Close]";

/// What is shown where nothing is recorded.
const BARE: &str = "# bare
share 0
> (None, [])
share 1
> (None, [])
taken
> []
book 0
> []";

/// Three puts, a close, and polls until the mailbox, whose capacity is 2, has ended.
const SHUT: &str = "# shut
put 0 1 10 7
> Ok
put 0 2 20 8
> Ok
put 0 3 30 9
> Backoff
close 0
poll
> Ready(Some(Ok(Fetch([FetchKey { key: Letter(1), subscribers: NonEmptyVec { items: [(10, 7)] }, metadata: () }]))))
poll
> Ready(Some(Ok(Fetch([FetchKey { key: Letter(2), subscribers: NonEmptyVec { items: [(20, 8)] }, metadata: () }]))))
poll
> Ready(Some(Ok(Fetch([FetchKey { key: Letter(3), subscribers: NonEmptyVec { items: [(30, 9)] }, metadata: () }]))))
poll
> Ready(None)
poll
> Ready(None)";

/// Polls in vain, a put, two polls and an end, and after each whether it wakes the task.
const WOKEN: &str = "# woken
poll
> Pending
is-woken
> false
put 0 1 10 7
> Ok
is-woken
> true
poll
> Ready(Some(Ok(Fetch([FetchKey { key: Letter(1), subscribers: NonEmptyVec { items: [(10, 7)] }, metadata: () }]))))
poll
> Pending
is-woken
> false
end
is-woken
> true
poll
> Ready(None)";

/// Ends the test where a recorded mailbox of this capacity answers something else.
fn recorded_answers<R>(rt: R, alloc: Global, capacity: NonZeroUsize, parts: &[&str])
where
    R: Abort + Wait + RandomSource + AllocGlobal + Copy + Drop,
{
    let task = MockTask::new(&rt).expect(&rt, "a task");
    recorded_play::<Brand, _>(rt, alloc, Pages::new(), &task, capacity, parts);
}

/// The same of a mailbox that isn't recorded.
fn answers<R>(rt: R, alloc: Global, capacity: NonZeroUsize, parts: &[&str])
where
    R: Abort + Wait + RandomSource + AllocGlobal + Copy + Drop,
{
    let task = MockTask::new(&rt).expect(&rt, "a task");
    play_in(&rt, alloc, &task, new(rt, alloc, capacity), parts);
}

#[test]
fn mailbox_book(rt: HostRuntime) {
    recorded_answers(rt, rt.alloc(), NonZeroUsize::MIN, &[ROW, SHARES, BOOKS]);
}

#[test]
fn mailbox_book_not_recorded(rt: HostRuntime) {
    answers(rt, rt.alloc(), NonZeroUsize::MIN, &[ROW, BARE]);
}

#[test]
fn what_waits_is_given_after_the_close(rt: HostRuntime) {
    recorded_answers(rt, rt.alloc(), size(&rt, 2), &[SHUT]);
}

#[test]
fn what_waits_is_given_after_the_close_not_recorded(rt: HostRuntime) {
    answers(rt, rt.alloc(), size(&rt, 2), &[SHUT]);
}

#[test]
fn a_put_and_a_close_wake_the_receiver(rt: HostRuntime) {
    answers(rt, rt.alloc(), NonZeroUsize::MIN, &[WOKEN]);
}
