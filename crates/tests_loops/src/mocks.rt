ghost use Rattle.std.specs.Prelude.{◌≡◌, ◌<◌, true};

use crate::support::assert_same;
use bytes::BytesMut;
use resolver::Fetch;
use resolver::base::Span;
use resolver::ingress::{FetchKey, Message};
use resolver::mailbox::{Entry, Naming, Pages, Receiver, Sender, recorded};
use resolver::p2p::mocks::Key;
use std::alloc::Global;
use std::marker::Brand;
use std::num::NonZeroUsize;
use std::panic::Expect;
use std::process::Abort;
use std::sync::Wait;
use tests_support::names::Below;

/// A key in bytes.
fn bytes_of(rt: &impl Abort, alloc: Global, key: Key) -> BytesMut {
    let mut bytes = BytesMut::new(alloc);
    key.write(&mut bytes).expect(rt, "memory");
    bytes
}

#[test]
fn a_key_is_read_again(rt: HostRuntime) {
    let bytes = bytes_of(&rt, rt.alloc(), Key(123));
    assert_same(&rt, bytes.as_slice(), [123].as_slice());
    assert_same(&rt, &Key::read(&[123]), &Some(Key(123)));
    assert_same(&rt, &Key::default(), &Key(0));
    assert!(rt; Key(1) < Key(2));
    let shown = Key(123).to_string(rt.alloc()).expect(&rt, "memory");
    assert_same(&rt, shown.as_str(), "Key(123)");
}

/// Puts a fetch of a key.
fn put<N: Naming, R: Wait>(
    rt: &impl Abort,
    alloc: Global,
    handle: &mut Sender<Key, u16, (), Below, N, R>,
    key: Key,
) {
    let item = FetchKey::from_fetch(alloc, Fetch::from(key)).expect(rt, "memory");
    let mut items = Vec::new(alloc);
    items.push(item).expect(rt, "memory");
    handle.enqueue(Message::Fetch(items)).expect(rt, "memory");
}

/// The key of the fetch that a call of a book put.
fn key_in(entry: Option<&Entry<Key, u16, (), Below>>) -> Option<Key> {
    let Entry::Put(posted) = entry? else {
        return None;
    };
    let Message::Fetch(items) = &posted.message else {
        return None;
    };
    Some(items.first()?.key)
}

/// The key of the first put in the book for a handle's share.
fn key_of<N: Naming, R: Wait>(
    rt: &impl Abort,
    handle: &Sender<Key, u16, (), Below, N, R>,
    receiver: &Receiver<Key, u16, (), Below, N, R>,
) -> Option<Key> {
    let share = handle.share()?;
    let book = receiver.book(&[share]).expect(rt, "a book");
    key_in(book.first())
}

/// Puts a fetch of a key into a recorded mailbox, and gives the key that its book has.
fn booked<N, R>(rt: R, alloc: Global, pages: Pages, key: Key) -> Option<Key>
where
    N: Naming,
    R: Wait + Abort + Copy + Drop,
    requires recorded { N.is_recorded ≡ true }
    requires puts { pages.puts.name ≡ N.puts }
    requires takes { pages.takes.name ≡ N.takes }
{
    let ends = recorded::<Key, u16, (), Below, N, R>(rt, alloc, pages, NonZeroUsize::MIN);
    let (mut handle, receiver) = ends.expect(&rt, "memory");
    put(&rt, alloc, &mut handle, key);
    key_of(&rt, &handle, &receiver)
}

#[test]
fn a_key_is_booked(rt: HostRuntime) {
    let key = booked::<Brand, _>(rt, rt.alloc(), Pages::new(), Key(123));
    assert_same(&rt, &key, &Some(Key(123)));
}
