//! What waits behind a full mailbox.

ghost use Rattle.std.specs.Prelude.{nat_le};
ghost use Rattle.std.proofs.Common.{rules};

use crate::refused::part::{Ending, Fresh, Notes, Part, Way, taken};
use crate::workload;
use resolver_base::Fault;
use resolver_desk::Pending;
use resolver_messages::{Message, Metadata, Predicate};
use resolver_types::NonEmptyVec;
use std::alloc::Global;

type Targets = Option<NonEmptyVec<u16>>;

/// Keeps the subscribers of the keys from this one on.
#[derive(Clone, Copy, Debug)]
pub struct From(u64);

impl Predicate<u64, u64> for From {
    ghost keeps = { λ first k _. nat_le first.0 k };

    fn keep(&self, key: &u64, _: &u64) -> bool {
        *key >= self.0
    }

    ghost alike = { λ q k l s t same_key same_subscriber. Prim.search rules };
}

/// A call of an overflow.
#[derive(Clone, Copy)]
pub enum Call {
    /// A fetch of a key for a subscriber, of these peers; with none of them any peer may be asked.
    Fetch(u64, u64, &'static [u16]),
    /// The keys from this one on are kept.
    Retain(u64),
    /// A drain that takes nothing.
    Reject,
    /// A drain that takes the retains alone.
    TakeRetains,
}

/// The worked row of a drain that is rejected.
pub const REJECTED_DRAIN: &[Call] = &[
    Call::Fetch(2, 10, &[]),
    Call::Fetch(1, 20, &[]),
    Call::Retain(0),
    Call::Reject,
    Call::TakeRetains,
    Call::Fetch(2, 11, &[]),
    Call::Fetch(3, 30, &[]),
];

/// Takes the worked row of a retain: a hundred keys, of which the last is kept.
pub fn retain(alloc: Global, way: Way) -> Ending {
    match retain_calls(alloc) {
        Ok(calls) => taken::<_, Overflow>(alloc, way, &calls),
        Err(_) => Ending::Outside,
    }
}

/// The retain, and what comes behind it.
const RETAINED: &[Call] = &[
    Call::Retain(99),
    Call::Fetch(99, 11, &[]),
    Call::Fetch(0, 12, &[]),
];

fn retain_calls(alloc: Global) -> Result<Vec<Call>, Fault> {
    let mut calls = Vec::with_capacity(alloc, 103)?;
    for key in 0..100_u64 {
        calls.push(Call::Fetch(key, 10, &[]))?;
    }
    calls.extend_from_slice(RETAINED)?;
    Ok(calls)
}

/// The worked row of targets that are joined, and of none.
pub const TARGETS: &[Call] = &[
    Call::Fetch(1, 10, &[2, 3]),
    Call::Fetch(1, 10, &[3, 4]),
    Call::Fetch(2, 10, &[2]),
    Call::Fetch(2, 10, &[]),
    Call::Fetch(2, 10, &[3]),
];

/// An overflow.
pub type Overflow = Pending<u64, u64, Targets, From>;

impl Fresh for Overflow {
    fn fresh(alloc: Global) -> Self {
        Pending::new(alloc)
    }
}

impl Part<Call> for Overflow {
    fn take(&mut self, alloc: Global, call: &Call) -> Result<(), Fault> {
        match call {
            Call::Fetch(key, subscriber, peers) => {
                self.handle(fetch(alloc, *key, *subscriber, peers)?)
            }
            Call::Retain(first) => self.handle(Message::Retain(From(*first))),
            Call::Reject => {
                self.drain(|message| Some(message));
                Ok(())
            }
            Call::TakeRetains => {
                self.drain(|message| match message {
                    Message::Retain(_) => None,
                    Message::Fetch(items) => Some(Message::Fetch(items)),
                });
                Ok(())
            }
        }
    }

    fn show(&mut self, _: Global, _: Way, notes: &mut Notes) {
        notes.add(self.is_empty());
        for _ in 0..16 {
            notes.add(self.pop());
        }
    }
}

/// A fetch of one key for one subscriber.
fn fetch(
    alloc: Global,
    key: u64,
    subscriber: u64,
    peers: &[u16],
) -> Result<Message<u64, u64, Targets, From>, Fault> {
    let subscribers = NonEmptyVec::new(alloc, (subscriber, key))?;
    let metadata = NonEmptyVec::try_from(peers.to_vec(alloc)?).ok();
    let items = workload::fetch(alloc, key, subscribers, metadata)?;
    Ok(Message::Fetch(items))
}
