//! Deliveries by their numbers.

use crate::refused::demand::listed;
use crate::refused::part::{Fresh, Notes, Part, Way, done};
use resolver_base::Fault;
use resolver_delivery::Entries;
use resolver_types::{Delivery, Outcome};
use std::alloc::Global;

/// Who wants each key, with their marks.
const NAMED: &[(u64, u64)] = &[(10, 7), (11, 8)];

/// A call of the entries.
pub enum Call {
    Insert(u64),
    Remove(u64),
    Deliver(u64),
    Redeliver(u64),
    Complete(u64),
}

/// The worked row of the entries, and deliveries.
pub const ENTRIES: &[Call] = &[
    Call::Insert(1),
    Call::Insert(1),
    Call::Remove(1),
    Call::Remove(1),
    Call::Insert(1),
    Call::Insert(2),
    Call::Deliver(1),
    Call::Complete(0),
    Call::Redeliver(1),
    Call::Deliver(2),
];

/// Numbered deliveries of numbers.
pub type Deliveries = Entries<u64, u64, u64, (), ()>;

impl Fresh for Deliveries {
    fn fresh(alloc: Global) -> Self {
        Entries::new(alloc)
    }
}

impl Part<Call> for Deliveries {
    fn take(&mut self, alloc: Global, call: &Call) -> Result<(), Fault> {
        match call {
            Call::Insert(key) => done(self.insert(*key)),
            Call::Remove(key) => {
                self.remove(key);
                Ok(())
            }
            Call::Deliver(key) => deliver(self, named(alloc, *key)?),
            Call::Redeliver(key) => redeliver(self, named(alloc, *key)?),
            Call::Complete(number) => {
                drop(self.completed(*number, Some(Outcome::Unresolved)));
                Ok(())
            }
        }
    }

    fn show(&mut self, _: Global, _: Way, notes: &mut Notes) {
        notes.add(&*self);
    }
}

/// A key, and who wants it.
fn named(alloc: Global, key: u64) -> Result<Delivery<u64, u64>, Fault> {
    let subscribers = listed(alloc, NAMED)?;
    Ok(Delivery { key, subscribers })
}

/// Hands a value out, where a delivery of the key may begin.
fn deliver(entries: &mut Deliveries, delivery: Delivery<u64, u64>) -> Result<(), Fault> {
    if entries.contains(&delivery.key) && entries.number(&delivery.key).is_none() {
        done(entries.deliver(delivery, (), 7))
    } else {
        Ok(())
    }
}

/// Hands the cached value out once more, where that may begin.
fn redeliver(entries: &mut Deliveries, delivery: Delivery<u64, u64>) -> Result<(), Fault> {
    if entries.response(&delivery.key).is_some() && entries.number(&delivery.key).is_none() {
        done(entries.redeliver(delivery))
    } else {
        Ok(())
    }
}
