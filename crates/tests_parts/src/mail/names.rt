//! Names of common types, and a caller's tests, in mailboxes.

ghost use Rattle.std.specs.Prelude.{◌≡◌, ◌<◌, true};
ghost use Rattle.std.proofs.Common.{rules};

use crate::support::{copied, holds, is_written};
use bytes::Bytes;
use resolver_base::Faithful;
use resolver_mailbox::mailbox::{Entry, Exact, Naming, Pages, Receiver, Sender, recorded};
use resolver_messages::{FetchKey, Kept, Message, Test};
use resolver_types::NonEmptyVec;
use std::alloc::Global;
use std::hash::Hash;
use std::marker::Brand;
use std::num::NonZeroUsize;
use std::panic::Expect;
use std::process::Abort;
use std::sync::Wait;

/// Whether a value is the same as its clone, and not the same as another.
fn is_told_apart<T: Exact + Faithful + Drop>(rt: &impl Abort, one: &T, other: &T) -> bool {
    let clone = copied(rt, one);
    one.is_same(&clone) && !clone.is_same(other) && !other.is_same(one)
}

#[test]
fn names_are_cloned_and_compared_exactly(rt: HostRuntime) {
    let rt = &rt;
    holds(rt, is_told_apart(rt, &[1u8, 2, 3], &[1, 2, 4]));
    holds(
        rt,
        is_told_apart(rt, &(1u8, (2u16, 3u32), [4u64]), &(1, (2, 3), [5])),
    );
    holds(
        rt,
        is_told_apart(rt, &Bytes::from_static(b"ab"), &Bytes::from_static(b"ac")),
    );
    holds(rt, is_told_apart(rt, &Kept::new(1u8), &Kept::new(2)));
}

/// A test that every subscriber passes, with a number that tells it from others.
#[derive(Clone, Copy, Debug)]
struct Everyone(u8);

impl<K: Eq, S: Eq> Test<K, S> for Everyone {
    ghost passes = { λ _ _ _. true };

    fn test(&self, _key: &K, _subscriber: &S) -> bool {
        true
    }

    ghost alike = { λ f k l s t same_key same_subscriber. Prim.search rules };
}

impl Faithful for Everyone {
    ghost clones = { Prim.search rules };
}

impl Exact for Everyone {
    fn is_same(&self, other: &Everyone) -> bool {
        self.0 == other.0
    }
}

type Told<K, S> = Message<K, S, (), Kept<Everyone>>;

/// A fetch of this key for this subscriber with the mark 7.
fn fetch<K, S>(rt: &impl Abort, alloc: Global, key: K, subscriber: S) -> Told<K, S>
where
    K: Drop,
    S: Drop,
{
    let subscribers = NonEmptyVec::new(alloc, (subscriber, 7)).expect(rt, "memory");
    let item = FetchKey {
        key,
        subscribers,
        metadata: (),
    };
    let mut items = Vec::new(alloc);
    items.push(item).expect(rt, "memory");
    Message::Fetch(items)
}

type Book<K, S> = Vec<Entry<K, S, (), Kept<Everyone>>>;

type Handle<K, S, N, R> = Sender<K, S, (), Kept<Everyone>, N, R>;

type Mail<K, S, N, R> = Receiver<K, S, (), Kept<Everyone>, N, R>;

/// Puts this message, and the test 9.
fn put_both<K, S, N, R>(rt: &impl Abort, handle: &mut Handle<K, S, N, R>, message: Told<K, S>)
where
    K: Ord + Hash + Faithful + Drop,
    S: Ord + Faithful + Drop,
    N: Naming,
    R: Wait,
{
    handle.enqueue(message).expect(rt, "an answer");
    let message = Message::Retain(Kept::new(Everyone(9)));
    handle.enqueue(message).expect(rt, "an answer");
}

/// The book for the handle's share.
fn book_of<K, S, N, R>(
    rt: &impl Abort,
    handle: &Handle<K, S, N, R>,
    receiver: &Mail<K, S, N, R>,
) -> Book<K, S>
where
    K: Ord + Hash + Faithful + Exact + Drop,
    S: Ord + Faithful + Exact + Drop,
    N: Naming,
    R: Wait,
{
    let share = handle.share().expect(rt, "a share");
    receiver.book(&[share]).expect(rt, "a book")
}

/// The book of a recorded mailbox of capacity 1 that this message and the test are put in.
fn booked<K, S, N, R>(rt: R, alloc: Global, pages: Pages, message: Told<K, S>) -> Book<K, S>
where
    K: Ord + Hash + Faithful + Exact + Drop,
    S: Ord + Faithful + Exact + Drop,
    N: Naming,
    R: Abort + Wait + Copy + Drop,
    requires recorded { N.is_recorded ≡ true }
    requires puts { pages.puts.name ≡ N.puts }
    requires takes { pages.takes.name ≡ N.takes }
{
    let made = recorded::<K, S, (), Kept<Everyone>, N, R>(rt, alloc, pages, NonZeroUsize::MIN);
    let (mut handle, receiver) = made.expect(&rt, "a mailbox");
    put_both(&rt, &mut handle, message);
    book_of(&rt, &handle, &receiver)
}

#[test]
fn names_of_several_parts_are_booked(rt: HostRuntime) {
    const BOOK: &str = "[Put(Posted { handle: 0, place: 0, message: \
        Fetch([FetchKey { key: ([1, 2, 3], b\"cd\"), subscribers: NonEmptyVec { items: [((1, b\"ab\", [3, 4]), 7)] }, metadata: () }]), \
        is_ok: true }), \
        Put(Posted { handle: 0, place: 1, message: Retain(Kept { test: Everyone(9) }), is_ok: false })]";
    let key = ([1u8, 2, 3], Bytes::from_static(b"cd"));
    let subscriber = (1u16, Bytes::from_static(b"ab"), [3u32, 4]);
    let message = fetch(&rt, rt.alloc(), key, subscriber);
    let book = booked::<_, _, Brand, _>(rt, rt.alloc(), Pages::new(), message);
    is_written(&rt, rt.alloc(), book, BOOK);
}
