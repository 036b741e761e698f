//! Who wants which key.

ghost use Rattle.std.specs.Prelude.{◌==◌, ◌%◌};
ghost use Rattle.std.proofs.Common.{rules};

use crate::refused::part::{Fresh, Notes, Part, Way, done};
use resolver_base::Fault;
use resolver_demand::subscribers::Tracker;
use resolver_types::{NonEmptyVec, Predicate};
use std::alloc::Global;

/// Keeps the subscribers with even names.
struct Even;

impl Predicate<u64, u64> for Even {
    ghost keeps = { λ _ _ s. s % 2 == 0 };

    fn keep(&self, _: &u64, subscriber: &u64) -> bool {
        *subscriber % 2 == 0
    }

    ghost alike = { λ q k l s t same_key same_subscriber. Prim.search rules };
}

/// A call of a tracker.
pub enum Call {
    Insert(u64, &'static [(u64, u64)]),
    Pending(u64),
    RetainEven,
    RemoveDelivered(u64, &'static [(u64, u64)]),
    Remove(u64),
}

/// The worked row of the tracker.
pub const TRACKER: &[Call] = &[
    Call::Insert(1, &[(10, 7), (11, 7)]),
    Call::Insert(1, &[(11, 8), (12, 8)]),
    Call::Pending(1),
    Call::Insert(2, &[(11, 0)]),
    Call::Insert(3, &[(20, 0), (21, 0)]),
    Call::RemoveDelivered(1, &[(10, 0), (12, 0)]),
    Call::RetainEven,
    Call::RemoveDelivered(3, &[(20, 0)]),
    Call::Remove(3),
];

/// A tracker.
pub type Demand = Tracker<u64, u64>;

impl Fresh for Demand {
    fn fresh(alloc: Global) -> Self {
        Tracker::new(alloc)
    }
}

impl Part<Call> for Demand {
    fn take(&mut self, alloc: Global, call: &Call) -> Result<(), Fault> {
        match call {
            Call::Insert(key, named) => match listed(alloc, named) {
                Ok(subscribers) => done(self.insert(*key, subscribers)),
                Err(fault) => Err(fault),
            },
            Call::Pending(key) => done(self.pending(key)),
            Call::RetainEven => done(self.retain(&Even)),
            Call::RemoveDelivered(key, named) => {
                let Ok(delivered) = listed(alloc, named) else {
                    return Err(Fault::OutOfMemory);
                };
                let left = self.remove_delivered(key, &delivered);
                done(left)
            }
            Call::Remove(key) => {
                self.remove(key);
                Ok(())
            }
        }
    }

    fn show(&mut self, _: Global, _: Way, notes: &mut Notes) {
        notes.add(&*self);
    }
}

/// The subscribers with their marks, as a list that isn't empty.
pub fn listed(alloc: Global, named: &[(u64, u64)]) -> Result<NonEmptyVec<(u64, u64)>, Fault> {
    NonEmptyVec::try_from(named.to_vec(alloc)?).map_err(|_| Fault::EndOfBuffer)
}
