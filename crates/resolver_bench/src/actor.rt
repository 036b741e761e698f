//! The opaque actor with many keys: each is fetched for four subscribers, answered, and completed.

use crate::fault::Fault;
use crate::spent::{Driven, Kind, Load, Steps, Times, drive};
use crate::workload::{All, fetch, listed, scattered};
use resolver_opaque_actor::{Actor, Event, Input};
use resolver_types::{Outcome, Resolution};
use std::alloc::Global;
use std::rt::Clock;

/// The subscribers of each key.
const SUBSCRIBERS: u16 = 4;

/// The steps that are taken for each key, and the end.
const STEPS: &[Steps] = &[
    Steps(Kind::Fetch, Times::Keys, "fetch", "effects"),
    Steps(Kind::Answer, Times::Keys, "answer", "effects"),
    Steps(Kind::Complete, Times::Keys, "complete", "effects"),
    Steps(Kind::End, Times::Just(1), "end", "effects"),
];

type Worker = Actor<u64, u64, u16, All>;

type Step = Event<u64, u64, u16, All>;

/// Takes every key through the actor, and ends it.
pub fn run(rt: &(impl AllocGlobal + Clock + Print), load: &Load) -> Result<(), Fault> {
    drive(rt, Actor::new(rt.alloc(), 0), STEPS, load)
}

impl Driven for Worker {
    /// It counts the effects.
    fn take(&mut self, alloc: Global, kind: Kind, i: u64) -> Result<u64, Fault> {
        let event = event_of(alloc, kind, i)?;
        match self.step(Input { now: 0, event }) {
            Ok(effects) => {
                let counted = effects.len() as u64;
                Ok(counted)
            }
            Err(fault) => Err(fault.into()),
        }
    }
}

/// The step of one key. Attempts and deliveries have the numbers of their keys.
fn event_of(alloc: Global, kind: Kind, i: u64) -> Result<Step, Fault> {
    Ok(match kind {
        Kind::Fetch => {
            let subscribers = listed(alloc, SUBSCRIBERS)?;
            Event::Fetch(fetch(alloc, scattered(i), subscribers, ())?)
        }
        Kind::Answer => Event::Fetched {
            attempt: i,
            value: Some(i),
        },
        Kind::Complete => Event::Verdict {
            number: i,
            outcome: Some(Outcome::Resolved(Resolution::Complete)),
        },
        _ => Event::End,
    })
}
