//! Whether a book says what handles and the receiver say.

ghost use Rattle.std.specs.Prelude.{◌≡◌, ◌<◌, ◌↔◌, map, IfOk, IfErr, IsTrue, OnErr};
ghost use Rattle.resolver_messages.specs.Waiting.{item_of, told_of};
ghost use Rattle.resolver_desk.specs.Book.{call_of, closes, puts_of, takes};
ghost use Rattle.resolver_base.specs.declared.fault.Fault.TheVariants.{OutOfMemory, Uneven};
ghost use Rattle.resolver_mailbox.specs.Shares.{Agrees, AgreesWith, Differs};

use crate::mailbox::exact::Exact;
use crate::mailbox::naming::Names;
use crate::mailbox::share::Share;
use resolver_base::{Faithful, Fault};
use resolver_desk::entry::{Entry, Posted};
use resolver_messages::{FetchKey, Message, Metadata};
use std::alloc::Global;

/// Whether both fetches are the same.
fn is_same_item<K: Exact, S: Exact, M: Exact>(
    one: &FetchKey<K, S, M>,
    other: &FetchKey<K, S, M>,
) -> bool
    ensures { IsTrue result ↔ (item_of one.now ≡ item_of other.now) }
{
    one.key.is_same(&other.key)
        && one.subscribers.is_same(&other.subscribers)
        && one.metadata.is_same(&other.metadata)
}

/// Whether both lists of fetches are the same.
fn are_same_items<K: Exact, S: Exact, M: Exact>(
    these: &[FetchKey<K, S, M>],
    those: &[FetchKey<K, S, M>],
) -> bool
    ensures { IsTrue result ↔ (map item_of these.now ≡ map item_of those.now) }
{
    if these.len() != those.len() {
        return false;
    }
    for place in 0..these.len() {
        if !is_same_item(&these[place], &those[place]) {
            return false;
        }
    }
    true
}

/// Whether both messages are the same.
fn is_same_message<K: Exact, S: Exact, M: Exact, Q: Exact>(
    one: &Message<K, S, M, Q>,
    other: &Message<K, S, M, Q>,
) -> bool
    ensures { IsTrue result ↔ (told_of one.now ≡ told_of other.now) }
{
    match one {
        Message::Fetch(items) => match other {
            Message::Fetch(others) => are_same_items(items.as_slice(), others.as_slice()),
            Message::Retain(_) => false,
        },
        Message::Retain(test) => match other {
            Message::Fetch(_) => false,
            Message::Retain(other) => test.is_same(other),
        },
    }
}

/// Whether the takes of a book are these messages.
fn has_takes<K: Exact, S: Exact, M: Exact, Q: Exact>(
    book: &[Entry<K, S, M, Q>],
    taken: &[Message<K, S, M, Q>],
) -> bool
    ensures { IsTrue result ↔ (takes (map call_of book.now) ≡ map told_of taken.now) }
{
    let mut next = 0;
    for entry in book {
        match entry {
            Entry::Put(_) => {}
            Entry::Close => {}
            Entry::Take(message) => {
                if next >= taken.len() || !is_same_message(message, &taken[next]) {
                    return false;
                }
                next += 1;
            }
        }
    }
    next == taken.len()
}

/// Whether the puts of a handle in a book are these messages.
fn has_puts<K: Exact, S: Exact, M: Exact, Q: Exact>(
    book: &[Entry<K, S, M, Q>],
    handle: u64,
    messages: &[Message<K, S, M, Q>],
) -> bool
    ensures { IsTrue result ↔ (puts_of handle (map call_of book.now) ≡ map told_of messages.now) }
{
    let mut next = 0;
    for entry in book {
        match entry {
            Entry::Take(_) => {}
            Entry::Close => {}
            Entry::Put(posted) => {
                if posted.handle == handle {
                    if next >= messages.len()
                        || !is_same_message(&posted.message, &messages[next])
                    {
                        return false;
                    }
                    next += 1;
                }
            }
        }
    }
    next == messages.len()
}

/// Whether a book has a close.
fn has_close<K, S, M, Q>(book: &[Entry<K, S, M, Q>]) -> bool
    ensures { IsTrue result ↔ (0 < closes (map call_of book.now)) }
{
    for entry in book {
        if let Entry::Close = entry {
            return true;
        }
    }
    false
}

/// Whether a book agrees with a share.
fn agrees_with<K: Exact, S: Exact, M: Exact, Q: Exact, N: Names>(
    book: &[Entry<K, S, M, Q>],
    share: &Share<K, S, M, Q, N>,
) -> bool
    ensures { IsTrue result ↔ (AgreesWith (map call_of book.now) share.now) }
{
    has_puts(book, share.handle(), share.puts()) && (!share.is_closed() || has_close(book))
}

/// Whether a book agrees with what was taken and with all of these shares.
fn agrees<K: Exact, S: Exact, M: Exact, Q: Exact, N: Names>(
    book: &[Entry<K, S, M, Q>],
    taken: &[Message<K, S, M, Q>],
    shares: &[&Share<K, S, M, Q, N>],
) -> bool
    ensures { IsTrue result ↔ Agrees (map call_of book.now) (map told_of taken.now)
        (map (λ share. share.now) shares.now) }
{
    if !has_takes(book, taken) {
        return false;
    }
    for share in shares {
        if !agrees_with(book, share) {
            return false;
        }
    }
    true
}

/// This book, where it agrees with what was taken and with all of these shares; else `Uneven`.
pub(super) fn agreed<K: Exact + Drop, S: Exact + Drop, M: Exact + Drop, Q: Exact + Drop, N: Names>(
    book: Vec<Entry<K, S, M, Q>>,
    taken: &[Message<K, S, M, Q>],
    shares: &[&Share<K, S, M, Q, N>],
) -> Result<Vec<Entry<K, S, M, Q>>, Fault>
    ensures same { IfOk result (λ given. given ≡ book) }
    ensures agrees { IfOk result (λ given. Agrees (map call_of given.items)
        (map told_of taken.now) (map (λ share. share.now) shares.now)) }
    ensures uneven { OnErr result (Differs (map call_of book.items) (map told_of taken.now)
        (map (λ share. share.now) shares.now)) }
    ensures only { IfErr result (λ fault. fault ≡ Uneven) }
{
    if !agrees(book.as_slice(), taken, shares) {
        return Err(Fault::Uneven);
    }
    Ok(book)
}

/// The same calls again.
pub(super) fn copied<
    K: Faithful + Drop,
    S: Faithful + Drop,
    M: Metadata + Drop,
    Q: Faithful + Drop,
>(alloc: Global, book: &[Entry<K, S, M, Q>]) -> Result<Vec<Entry<K, S, M, Q>>, Fault>
    ensures only { IfErr result (λ fault. fault ≡ OutOfMemory) }
    ensures same { IfOk result (λ copy. map call_of copy.items ≡ map call_of book.now) }
{
    let mut copy = Vec::with_capacity(alloc, book.len())?;
    for entry in book {
        copy.push(copied_entry(alloc, entry)?)?;
    }
    Ok(copy)
}

/// The same call again.
fn copied_entry<K: Faithful + Drop, S: Faithful + Drop, M: Metadata + Drop, Q: Faithful + Drop>(
    alloc: Global,
    entry: &Entry<K, S, M, Q>,
) -> Result<Entry<K, S, M, Q>, Fault>
    ensures only { IfErr result (λ fault. fault ≡ OutOfMemory) }
    ensures same { IfOk result (λ copy. call_of copy ≡ call_of entry.now) }
{
    Ok(match entry {
        Entry::Put(posted) => Entry::Put(Posted {
            handle: posted.handle,
            place: posted.place,
            message: posted.message.copy(alloc)?,
            is_ok: posted.is_ok,
        }),
        Entry::Take(message) => Entry::Take(message.copy(alloc)?),
        Entry::Close => Entry::Close,
    })
}
