//! A desk of messages, and its book.
//!
//! | Line | Says | Prints |
//! |---|---|---|
//! | `put K S M`, `put-first K S M` | the first handle puts a fetch of the key for a subscriber with its mark, or one that has put nothing so far | the answer, and the handle's number then |
//! | `take`, `close` | a message is taken; the desk is closed | the message |
//! | `calls` | | the book |

use crate::mail::messages::fetch;
use crate::support::{Part, plays, print, unreadable, value};
use resolver_base::Fault;
use resolver_mailbox::mailbox::Desk;
use std::alloc::Global;
use std::num::NonZeroUsize;
use std::panic::Expect;
use std::process::Abort;
use tests_support::names::{All, Letter};
use tests_support::transcript::{Line, Said};

type Counter = Desk<Letter, u16, (), All>;

/// Puts a fetch of a key for one subscriber with its mark, and prints the answer with the handle's number then.
fn put(
    rt: &impl Abort,
    printed: &mut String,
    desk: &mut Counter,
    handle: Option<u64>,
    line: &mut Line,
) {
    let (key, subscriber) = (value(rt, line), value(rt, line));
    let message = fetch(*printed.allocator(), key, subscriber, value(rt, line));
    let message = message.expect(rt, "memory");
    print(rt, printed, desk.put(handle, message).expect(rt, "memory"));
}

impl<R: Abort> Said<R> for Part<'_, Counter> {
    fn say(&mut self, rt: &R, line: &mut Line, printed: &mut String) {
        match line.field() {
            "put-first" => put(rt, printed, self.0, None, line),
            "put" => put(rt, printed, self.0, Some(0), line),
            "take" => print(rt, printed, self.0.take().expect(rt, "memory")),
            "close" => self.0.close(),
            "calls" => print(rt, printed, self.0.calls()),
            _ => unreadable(rt, line),
        }
    }
}

/// Plays a case of a desk that was made.
fn play_on(rt: &impl Abort, alloc: Global, made: Result<Counter, Fault>, case: &str) {
    let mut desk = made.expect(rt, "memory");
    plays(rt, alloc, &mut Part(&mut desk), case);
}

/// Three puts of two handles, three takes, a close and a put.
#[test]
fn mailbox_book_of_a_desk(rt: HostRuntime) {
    const CASE: &str = "# mailbox_book_of_a_desk
put-first 1 10 7
> (Ok, Some(0))
put 2 20 8
> (Backoff, Some(0))
put-first 2 21 9
> (Backoff, Some(1))
take
> Some(Fetch([FetchKey { key: Letter(1), subscribers: NonEmptyVec { items: [(10, 7)] }, metadata: () }]))
take
> Some(Fetch([FetchKey { key: Letter(2), subscribers: NonEmptyVec { items: [(20, 8), (21, 9)] }, metadata: () }]))
take
> None
close
close
put 3 30 5
> (Closed, Some(0))
calls
> [Put(Posted { handle: 0, place: 0, message: Fetch([FetchKey { key: Letter(1), subscribers: NonEmptyVec { items: [(10, 7)] }, metadata: () }]), is_ok: true }), Put(Posted { handle: 0, place: 1, message: Fetch([FetchKey { key: Letter(2), subscribers: NonEmptyVec { items: [(20, 8)] }, metadata: () }]), is_ok: false }), Put(Posted { handle: 1, place: 0, message: Fetch([FetchKey { key: Letter(2), subscribers: NonEmptyVec { items: [(21, 9)] }, metadata: () }]), is_ok: false }), Take(Fetch([FetchKey { key: Letter(1), subscribers: NonEmptyVec { items: [(10, 7)] }, metadata: () }])), Take(Fetch([FetchKey { key: Letter(2), subscribers: NonEmptyVec { items: [(20, 8), (21, 9)] }, metadata: () }])), Close]";
    play_on(
        &rt,
        rt.alloc(),
        Desk::recorded(rt.alloc(), NonZeroUsize::MIN),
        CASE,
    );
}

#[test]
fn mailbox_book_of_a_desk_not_recorded(rt: HostRuntime) {
    const CASE: &str = "# mailbox_book_of_a_desk_not_recorded
put-first 1 10 7
> (Ok, None)
put-first 2 20 8
> (Backoff, None)
put-first 2 21 9
> (Backoff, None)
take
> Some(Fetch([FetchKey { key: Letter(1), subscribers: NonEmptyVec { items: [(10, 7)] }, metadata: () }]))
take
> Some(Fetch([FetchKey { key: Letter(2), subscribers: NonEmptyVec { items: [(20, 8), (21, 9)] }, metadata: () }]))
take
> None
close
close
put-first 3 30 5
> (Closed, None)
calls
> []";
    play_on(
        &rt,
        rt.alloc(),
        Desk::new(rt.alloc(), NonZeroUsize::MIN),
        CASE,
    );
}
