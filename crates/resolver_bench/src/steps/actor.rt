//! Events of the actor: each key is fetched, and the source has no value for it; it is asked for again, answered and
//! judged complete.

use crate::fault::Fault;
use crate::spent::{Driven, Kind, Load, Steps, Times, drive};
use crate::workload::{All, fetch as items_of, listed, scattered};
use resolver_opaque_actor::{Actor, Effect, Event, Input};
use resolver_types::{Outcome, Resolution};
use std::alloc::Global;
use std::rt::Clock;

/// The subscribers of each key.
const SUBSCRIBERS: u16 = 4;

/// How often an event is taken that goes over all keys.
const FEW: u64 = 4;

/// The steps that are taken.
const STEPS: &[Steps] = &[
    Steps(Kind::Fetch, Times::Keys, "fetch", "effects"),
    Steps(Kind::Unanswered, Times::Keys, "no value", "effects"),
    Steps(Kind::Wake, Times::Keys, "wake-up", "effects"),
    Steps(Kind::Absent, Times::Just(FEW), "retain", "effects"),
    Steps(Kind::Answer, Times::Keys, "answer", "effects"),
    Steps(Kind::Complete, Times::Keys, "complete", "effects"),
];

type Worker = Actor<u64, u64, u16, All>;

type Happened = Event<u64, u64, u16, All>;

type Told = Vec<Effect<u64, u64, u16>>;

/// An actor, and the number of the next attempt that is answered.
#[derive(Drop)]
struct Driver {
    actor: Worker,
    next: u64,
}

/// Takes keys through an actor that asks for a key again at once.
pub fn run(rt: &(impl AllocGlobal + Clock + Print), load: &Load) -> Result<(), Fault> {
    let driver = Driver {
        actor: Actor::new(rt.alloc(), 0),
        next: 0,
    };
    drive(rt, driver, STEPS, load)
}

impl Driven for Driver {
    /// It counts the effects. A key waits from a moment of its own on, and so each wake-up asks for one.
    fn take(&mut self, alloc: Global, kind: Kind, i: u64) -> Result<u64, Fault> {
        let actor = &mut self.actor;
        let told = match kind {
            Kind::Fetch => fetch(actor, fetched(alloc, i)?)?,
            Kind::Unanswered => no_value(actor, i, attempt(&mut self.next))?,
            Kind::Wake => wake(actor, i)?,
            Kind::Answer => answer(actor, attempt(&mut self.next))?,
            Kind::Complete => complete(actor, i)?,
            _ => retain(actor)?,
        };
        let counted = told.len() as u64;
        Ok(counted)
    }
}

/// The number of the next attempt.
fn attempt(next: &mut u64) -> u64 {
    let attempt = *next;
    *next = next.wrapping_add(1);
    attempt
}

/// A fetch of a key for its subscribers.
fn fetched(alloc: Global, i: u64) -> Result<Happened, Fault> {
    let subscribers = listed(alloc, SUBSCRIBERS)?;
    Ok(Event::Fetch(items_of(alloc, scattered(i), subscribers, ())?))
}

fn happen(actor: &mut Worker, now: u64, event: Happened) -> Result<Told, Fault> {
    let now = u128::from(now);
    match actor.step(Input { now, event }) {
        Ok(told) => Ok(told),
        Err(fault) => Err(fault.into()),
    }
}

/// A fetch of a new key.
#[inline(never)]
fn fetch(actor: &mut Worker, event: Happened) -> Result<Told, Fault> {
    happen(actor, 0, event)
}

/// The source has no value.
#[inline(never)]
fn no_value(actor: &mut Worker, now: u64, attempt: u64) -> Result<Told, Fault> {
    let value = None;
    happen(actor, now, Event::Fetched { attempt, value })
}

/// One key is asked for again.
#[inline(never)]
fn wake(actor: &mut Worker, now: u64) -> Result<Told, Fault> {
    happen(actor, now, Event::RetriesDue)
}

/// A retain that keeps all: nobody wanted the key that is dropped.
#[inline(never)]
fn retain(actor: &mut Worker) -> Result<Told, Fault> {
    happen(actor, 0, Event::Retain(All))
}

/// The source has a value.
#[inline(never)]
fn answer(actor: &mut Worker, attempt: u64) -> Result<Told, Fault> {
    let value = Some(attempt);
    happen(actor, 0, Event::Fetched { attempt, value })
}

/// A verdict that all subscribers have what they want.
#[inline(never)]
fn complete(actor: &mut Worker, number: u64) -> Result<Told, Fault> {
    let outcome = Some(Outcome::Resolved(Resolution::Complete));
    happen(actor, 0, Event::Verdict { number, outcome })
}
