//! A recorded mailbox, its handles and its book.

ghost use Rattle.std.specs.Prelude.{◌≡◌, true};

use crate::mailbox::{Putter, Taker, put};
use crate::refused::part::{Ending, Notes, Part, Way, done, walk};
use crate::workload::All;
use futures::Stream;
use futures::task::Poll;
use futures::test::MockTask;
use resolver_base::Fault;
use resolver_mailbox::mailbox;
use resolver_mailbox::mailbox::{Entry, Naming, Pages, Share};
use resolver_messages::Message;
use std::alloc::{AllocGlobal, Global};
use std::num::NonZeroUsize;
use std::random::RandomSource;
use std::sync::Wait;

/// A task that polls, and two handles and the end that takes, which are lent.
#[derive(Drop)]
struct Mail<'a, N: Naming, R> {
    task: MockTask,
    first: &'a mut Putter<N, R>,
    second: &'a mut Putter<N, R>,
    taker: &'a mut Taker<N, R>,
}

/// A call of the mailbox.
enum Call {
    /// The first handle puts a fetch of this key for this subscriber with this mark.
    First(u64, (u16, u64)),
    /// The second one does.
    Second(u64, (u16, u64)),
    /// A poll, which gives a fetch of this key for these subscribers; for none of them it gives nothing.
    Poll(u64, &'static [(u16, u64)]),
    Close,
    Book,
}

/// The calls of the row.
const CALLS: &[Call] = &[
    Call::First(1, (10, 7)),
    Call::First(2, (20, 8)),
    Call::Second(2, (21, 9)),
    Call::Poll(1, &[(10, 7)]),
    Call::Poll(2, &[(20, 8), (21, 9)]),
    Call::Poll(0, &[]),
    Call::Close,
    Call::First(3, (30, 5)),
    Call::Book,
];

/// What the mailbox shows: the shares of both handles, what was taken, and how many calls of the row's
/// book there are.
struct Shown(&'static str, &'static str, &'static str, usize);

/// What is shown before each call, and at the end.
const SHOWN: &[Shown] = &[
    Shown(NONE, NONE, NOTHING, 0),
    Shown(PUT, NONE, NOTHING, 1),
    Shown(FIRST, NONE, NOTHING, 2),
    Shown(FIRST, SECOND, NOTHING, 3),
    Shown(FIRST, SECOND, ONE, 4),
    Shown(FIRST, SECOND, BOTH, 5),
    Shown(FIRST, SECOND, BOTH, 5),
    Shown(FIRST, SECOND, BOTH, 6),
    Shown(CLOSED, SECOND, BOTH, 6),
    Shown(CLOSED, SECOND, BOTH, 6),
];

/// A handle without a share.
const NONE: &str = "none ";

/// What the first handle's share is: once it has put a message, once it has put two, and once it was answered Closed.
const PUT: &str = "0 false \
    [Fetch([FetchKey { key: 1, subscribers: NonEmptyVec { items: [(10, 7)] }, metadata: () }])] ";

const FIRST: &str = "0 false \
    [Fetch([FetchKey { key: 1, subscribers: NonEmptyVec { items: [(10, 7)] }, metadata: () }]), \
    Fetch([FetchKey { key: 2, subscribers: NonEmptyVec { items: [(20, 8)] }, metadata: () }])] ";

const CLOSED: &str = "0 true \
    [Fetch([FetchKey { key: 1, subscribers: NonEmptyVec { items: [(10, 7)] }, metadata: () }]), \
    Fetch([FetchKey { key: 2, subscribers: NonEmptyVec { items: [(20, 8)] }, metadata: () }])] ";

/// What the second handle's share is once it has put a message.
const SECOND: &str = "1 false \
    [Fetch([FetchKey { key: 2, subscribers: NonEmptyVec { items: [(21, 9)] }, metadata: () }])] ";

/// What was taken.
const NOTHING: &str = "[] ";

const ONE: &str =
    "[Fetch([FetchKey { key: 1, subscribers: NonEmptyVec { items: [(10, 7)] }, metadata: () }])] ";

const BOTH: &str =
    "[Fetch([FetchKey { key: 1, subscribers: NonEmptyVec { items: [(10, 7)] }, metadata: () }]), \
    Fetch([FetchKey { key: 2, subscribers: NonEmptyVec { items: [(20, 8), (21, 9)] }, metadata: () }])] ";

/// The book of the row, a call each.
const BOOK: &[&str] = &[
    "Put(Posted { handle: 0, place: 0, message: \
    Fetch([FetchKey { key: 1, subscribers: NonEmptyVec { items: [(10, 7)] }, metadata: () }]), is_ok: true }) ",
    "Put(Posted { handle: 0, place: 1, message: \
    Fetch([FetchKey { key: 2, subscribers: NonEmptyVec { items: [(20, 8)] }, metadata: () }]), is_ok: false }) ",
    "Put(Posted { handle: 1, place: 0, message: \
    Fetch([FetchKey { key: 2, subscribers: NonEmptyVec { items: [(21, 9)] }, metadata: () }]), is_ok: false }) ",
    "Take(\
    Fetch([FetchKey { key: 1, subscribers: NonEmptyVec { items: [(10, 7)] }, metadata: () }])) ",
    "Take(\
    Fetch([FetchKey { key: 2, subscribers: NonEmptyVec { items: [(20, 8), (21, 9)] }, metadata: () }])) ",
    "Close ",
];

/// Takes the worked row of a recorded mailbox of capacity 1 through its calls. Where one is refused, the
/// shares, what was taken and the book are what they were before it; or it is made again, and the row goes
/// on to its end.
pub fn mailbox_book<N, R>(rt: &R, alloc: Global, way: Way, pages: Pages) -> Ending
where
    N: Naming,
    R: AllocGlobal + Wait + RandomSource + Copy + Drop,
    requires recorded { N.is_recorded ≡ true }
    requires puts { pages.puts.name ≡ N.puts }
    requires takes { pages.takes.name ≡ N.takes }
{
    let Ok(task) = MockTask::new(rt) else {
        return Ending::Outside;
    };
    let opened: Result<(Putter<N, R>, Taker<N, R>), Fault> = mailbox::recorded(
        *rt,
        alloc,
        pages,
        NonZeroUsize::MIN,
    );
    match opened {
        Ok((mut first, mut taker)) => ended(task, alloc, way, &mut first, &mut taker),
        Err(_) => Ending::Outside,
    }
}

/// The same of a mailbox that is lent, with a second handle.
fn ended<N: Naming, R: Wait + Copy + Drop>(
    task: MockTask,
    alloc: Global,
    way: Way,
    first: &mut Putter<N, R>,
    taker: &mut Taker<N, R>,
) -> Ending {
    match first.clone() {
        Ok(mut second) => {
            let mut mail = Mail {
                task,
                first,
                second: &mut second,
                taker,
            };
            walked(alloc, way, &mut mail)
        }
        Err(_) => Ending::Outside,
    }
}

/// Takes the calls of the row one after another.
fn walked<T: Part<Call>>(alloc: Global, way: Way, mail: &mut T) -> Ending {
    match walk(alloc, way, CALLS, CALLS.len(), mail) {
        Ok(None) => Ending::Whole,
        Ok(Some(count)) => {
            let mut seen = Notes::new(alloc);
            mail.show(alloc, way, &mut seen);
            seen.judged(way, &expected(alloc, count))
        }
        Err(_) => Ending::Changed,
    }
}

/// What the row says is shown behind so many calls.
fn expected(alloc: Global, count: usize) -> Notes {
    let mut notes = Notes::new(alloc);
    if let Some(Shown(first, second, taken, calls)) = SHOWN.get(count) {
        notes.put(first);
        notes.put(second);
        notes.put(taken);
        for call in BOOK.iter().take(*calls) {
            notes.put(call);
        }
    }
    notes
}

impl<N, R> Part<Call> for Mail<'_, N, R>
where
    N: Naming,
    R: Wait + Drop,
{
    /// A poll that gives something else than the row has is `Uneven`.
    fn take(&mut self, alloc: Global, call: &Call) -> Result<(), Fault> {
        match call {
            Call::First(key, named) => done(put(alloc, self.first, *key, *named)),
            Call::Second(key, named) => done(put(alloc, self.second, *key, *named)),
            Call::Poll(key, named) => expect(polled(&self.task, self.taker), *key, named),
            Call::Close => {
                self.first.close();
                Ok(())
            }
            Call::Book => done(book(self.first, self.second, self.taker)),
        }
    }

    fn show(&mut self, alloc: Global, _: Way, notes: &mut Notes) {
        show_share(notes, self.first.share());
        show_share(notes, self.second.share());
        notes.add(self.taker.taken());
        show_book(notes, book(self.first, self.second, self.taker));
    }
}

/// The book that is lent for the shares that there are.
fn book<N: Naming, R: Wait>(
    first: &Putter<N, R>,
    second: &Putter<N, R>,
    taker: &Taker<N, R>,
) -> Result<Vec<Entry<u64, u16, (), All>>, Fault> {
    match (first.share(), second.share()) {
        (Some(first), Some(second)) => taker.book(&[first, second]),
        (Some(first), None) => taker.book(&[first]),
        _ => taker.book(&[]),
    }
}

/// Polls once.
fn polled<N: Naming, R: Wait + Drop>(
    task: &MockTask,
    taker: &mut Taker<N, R>,
) -> Poll<Option<Result<Message<u64, u16, (), All>, Fault>>> {
    task.enter(|cx| taker.poll_next(cx))
}

/// Whether a poll gave a fetch of this key for these subscribers, or nothing for none of them.
fn expect(
    polled: Poll<Option<Result<Message<u64, u16, (), All>, Fault>>>,
    key: u64,
    named: &[(u16, u64)],
) -> Result<(), Fault> {
    let is_given = match &polled {
        Poll::Ready(Some(Ok(Message::Fetch(items)))) => match items.as_slice() {
            [item] => item.key == key && item.subscribers.as_slice() == named,
            _ => false,
        },
        Poll::Ready(Some(Err(fault))) => return Err(*fault),
        _ => named.is_empty(),
    };
    if is_given { Ok(()) } else { Err(Fault::Uneven) }
}

/// Writes the share of a handle: its number, whether it was closed, and its messages.
fn show_share<N: Naming>(notes: &mut Notes, share: Option<&Share<u64, u16, (), All, N>>) {
    match share {
        Some(share) => {
            notes.add(share.handle());
            notes.add(share.is_closed());
            notes.add(share.puts());
        }
        None => notes.put(NONE),
    }
}

/// Writes a book that was lent, a call each.
fn show_book(notes: &mut Notes, lent: Result<Vec<Entry<u64, u16, (), All>>, Fault>) {
    match lent {
        Ok(book) => {
            for entry in book.as_slice() {
                notes.add(entry);
            }
        }
        Err(fault) => notes.add(fault),
    }
}
