//! Messages of the tests, and what handles show.

use crate::support::equal_texts;
use resolver_base::Fault;
use resolver_mailbox::mailbox::{Names, Share};
use resolver_messages::{FetchKey, Message};
use resolver_types::Fetch;
use std::alloc::Global;
use std::panic::Expect;
use std::process::Abort;
use tests_support::names::{All, Letter};

pub type Told = Message<Letter, u16, (), All>;

/// A fetch of a key for one subscriber, with this mark.
pub fn fetch(alloc: Global, key: u8, subscriber: u16, mark: u64) -> Result<Told, Fault> {
    let fetch = Fetch {
        key: Letter(key),
        subscriber,
        mark,
    };
    let mut items = Vec::new(alloc);
    items.push(FetchKey::from_fetch(alloc, fetch)?)?;
    Ok(Message::Fetch(items))
}

/// The number of a share and whether it is closed, where there is one, and its messages.
pub fn shown<'a, K, S, M, Q, N: Names>(
    share: Option<&'a Share<K, S, M, Q, N>>,
) -> (Option<(u64, bool)>, &'a [Message<K, S, M, Q>]) {
    match share {
        Some(share) => (Some((share.handle(), share.is_closed())), share.puts()),
        None => (None, &[]),
    }
}

/// Ends the test where a text isn't these pieces, one behind the other.
pub fn equal_pieces(rt: &impl Abort, found: &String, pieces: &[&str]) {
    let wanted = pieces.join(*found.allocator(), "").expect(rt, "memory");
    equal_texts(rt, found.as_str(), wanted.as_str());
}
