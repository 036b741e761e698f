//! Sizes that users have: where memory is ample, no step wants any.
//!
//! `engine` has the core of an engine, and `actor` an actor over an opaque source.

mod actor;
mod engine;

ghost use Rattle.std.specs.Prelude.{◌≡◌, nat_lt};
ghost use Rattle.std.proofs.Common.{rules};

use bytes::Bytes;
use resolver::base::{NonEmptyVec, Predicate};
use std::alloc::Global;
use std::panic::Expect;
use std::process::Abort;

/// A megabyte, four times.
const FOUR_MIB: usize = 4_194_304;

/// Keeps the subscribers below this one.
#[derive(Clone, Copy, Debug)]
struct Low(u32);

impl<K: Eq> Predicate<K, u32> for Low {
    ghost keeps = { λ low _ subscriber. nat_lt subscriber low.0 };

    fn keep(&self, _key: &K, subscriber: &u32) -> bool {
        *subscriber < self.0
    }

    ghost alike = { λ q k l s t same_key same_subscriber. Prim.search rules };
}

/// Subscribers from this one on, so many of them, without trace marks.
fn subscribers(rt: &impl Abort, alloc: Global, first: u32, count: u32) -> NonEmptyVec<(u32, u64)> {
    let mut list = NonEmptyVec::new(alloc, (first, 0)).expect(rt, "memory");
    for subscriber in 1..count {
        list.push((first.saturating_add(subscriber), 0))
            .expect(rt, "memory");
    }
    list
}

/// These bytes, and so many zeros behind them.
fn padded(rt: &impl Abort, alloc: Global, head: &[u8], zeros: usize) -> Bytes {
    let mut bytes = Vec::new(alloc);
    bytes.extend_from_slice(head).expect(rt, "memory");
    bytes
        .resize(head.len().saturating_add(zeros), 0)
        .expect(rt, "memory");
    Bytes::from_vec(bytes).expect(rt, "memory")
}
