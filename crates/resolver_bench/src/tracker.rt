//! One key with many subscribers: they come one by one; they come all at once; and while the fetch
//! waits in an overflow, as many others join it.

use crate::fault::Fault;
use crate::spent::{Driven, Kind, Load, Steps, Times, drive};
use crate::workload::{All, fetch, scattered};
use resolver_demand::subscribers::Tracker;
use resolver_desk::Pending;
use resolver_messages::Message;
use resolver_types::NonEmptyVec;
use std::alloc::Global;
use std::rt::Clock;

/// The key that all of them want.
const KEY: u64 = 0;

/// The steps that are taken: for each subscriber, and with all of them.
const STEPS: &[Steps] = &[
    Steps(Kind::Attach, Times::Keys, "attach", "subscribers"),
    Steps(
        Kind::Together,
        Times::Just(1),
        "attach together",
        "subscribers",
    ),
    Steps(Kind::Merge, Times::Just(2), "merge", "subscribers"),
];

type Subscribers = NonEmptyVec<(u64, u64)>;

/// What the subscribers come to.
#[derive(Drop)]
struct Crowd {
    tracker: Tracker<u64, u64>,
    pending: Pending<u64, u64, (), All>,
    /// Those that come at once, the last ones first.
    coming: Vec<Subscribers>,
    /// The step behind which they are counted.
    last: u64,
}

/// Takes the subscribers through the tracker and through an overflow.
pub fn run(rt: &(impl AllocGlobal + Clock + Print), load: &Load) -> Result<(), Fault> {
    let crowd = Crowd {
        tracker: Tracker::new(rt.alloc()),
        pending: Pending::new(rt.alloc()),
        coming: Vec::new(rt.alloc()),
        last: 0,
    };
    drive(rt, crowd, STEPS, load)
}

impl Driven for Crowd {
    /// Nobody is there, and those are named that come at once.
    fn prepare(&mut self, alloc: Global, kind: Kind, load: &Load) -> Result<(), Fault> {
        self.tracker.clear();
        let (lists, last) = match kind {
            Kind::Attach => (0, load.keys.saturating_sub(1)),
            Kind::Together => (1, 0),
            _ => (2, 1),
        };
        self.last = last;
        for list in (0..lists).rev() {
            let first = (load.keys / 2).wrapping_mul(list);
            self.coming.push(named(alloc, first, load.keys)?)?;
        }
        Ok(())
    }

    /// Behind the last step it counts the subscribers.
    fn take(&mut self, alloc: Global, kind: Kind, i: u64) -> Result<u64, Fault> {
        let subscribers = match kind {
            Kind::Attach => NonEmptyVec::new(alloc, (scattered(i), 0))?,
            _ => self.coming.pop().ok_or(Fault::Refused)?,
        };
        if let Kind::Merge = kind {
            let items = fetch(alloc, KEY, subscribers, ())?;
            self.pending.handle(Message::Fetch(items))?;
        } else {
            self.tracker.insert(KEY, subscribers)?;
        }
        if i < self.last {
            Ok(0)
        } else {
            Ok(self.count())
        }
    }
}

impl Crowd {
    /// How many subscribers the key has, or else its fetch in the overflow, which is empty then.
    fn count(&mut self) -> u64 {
        if let Some(subscribers) = self.tracker.get(&KEY) {
            return subscribers.len() as u64;
        }
        let popped = self.pending.pop();
        let waiting = match &popped {
            Some(Message::Fetch(items)) => items.first().map_or(0, |it| it.subscribers.len()),
            _ => 0,
        };
        waiting as u64
    }
}

/// So many subscribers, from this one on, not in their order.
fn named(alloc: Global, first: u64, size: u64) -> Result<Subscribers, Fault> {
    let mut subscribers = NonEmptyVec::new(alloc, (scattered(first), 0))?;
    for i in 1..size {
        subscribers.push((scattered(first.wrapping_add(i)), 0))?;
    }
    Ok(subscribers)
}
