//! A store that wants 20 chunks for three subscribers from an opaque source. Some are lacking at first and
//! are asked for again when they are due; one is refused; a subscriber leaves. It prints a table of what
//! arrived.

ghost use Rattle.std.specs.Prelude.{◌==◌, not};
ghost use Rattle.std.proofs.Common.{rules};

use anyhow::Result;
use resolver_actor::base::{Moment, NonEmptyVec, Predicate};
use resolver_actor::ingress::FetchKey;
use resolver_actor::opaque::{Actor, Effect, Event, Input};
use resolver_actor::{Delivery, Outcome};
use std::alloc::Global;
use std::mem;

/// Keeps every subscriber but one.
#[derive(Clone, Copy)]
struct AllBut(u16);

impl Predicate<u32, u16> for AllBut {
    ghost keeps = { λ left _ s. not (s == left.0) };

    fn keep(&self, _: &u32, subscriber: &u16) -> bool {
        *subscriber != self.0
    }

    ghost alike = { λ q k l s t same_key same_subscriber. Prim.search rules };
}

/// A chunk that came: when, for whom, and its value.
type Arrived = (Moment, Delivery<u32, u16>, u64);

#[derive(Drop)]
struct Store {
    actor: Actor<u32, u64, u16, AllBut>,
    now: Moment,
    /// Attempts that the source has not answered, with their keys.
    asked: Vec<(u64, u32)>,
    /// What is not judged, by number: for whom it is, and its value.
    delivered: Vec<(u64, Delivery<u32, u16>, u64)>,
    arrived: Vec<Arrived>,
    alloc: Global,
}

impl Store {
    /// The subscribers 10, 20 and 30 want 20 chunks.
    fn want_all(&mut self) -> Result<()> {
        let mut items = Vec::new(self.alloc);
        for key in 0..20 {
            let mut subscribers = NonEmptyVec::new(self.alloc, (10, 0))?;
            subscribers.push((20, 0))?;
            subscribers.push((30, 0))?;
            items.push(FetchKey {
                key,
                subscribers,
                metadata: (),
            })?;
        }
        self.step(Event::Fetch(items))
    }

    /// The source answers what it was asked. It lacks the multiples of 3 before round 2.
    fn answer_all(&mut self, round: u32) -> Result<()> {
        for (attempt, key) in mem::replace(&mut self.asked, Vec::new(self.alloc)) {
            let lacks = key % 3 == 0 && round < 2;
            let value = (!lacks).then(|| u64::from(key) * 1000);
            self.step(Event::Fetched { attempt, value })?;
        }
        Ok(())
    }

    /// Judges what was handed out. Chunk 7 is found wrong at first.
    fn judge_all(&mut self) -> Result<()> {
        for (number, delivery, value) in mem::replace(&mut self.delivered, Vec::new(self.alloc)) {
            let is_right = delivery.key != 7 || self.now.nanoseconds > 0;
            if is_right {
                self.arrived.push((self.now, delivery, value))?;
            }
            let outcome = Some(Outcome::from(is_right));
            self.step(Event::Verdict { number, outcome })?;
        }
        Ok(())
    }

    /// Waits until chunks are asked for again, if some wait.
    fn retry(&mut self) -> Result<()> {
        if let Some(due) = self.actor.next_retry().and_then(Moment::from_nanos) {
            self.now = due;
            self.step(Event::RetriesDue)?;
        }
        Ok(())
    }

    /// Feeds the actor, and notes what it wants done.
    fn step(&mut self, event: Event<u32, u64, u16, AllBut>) -> Result<()> {
        let now = self.now.nanoseconds;
        for effect in self.actor.step(Input { now, event })? {
            match effect {
                Effect::Start { attempt, key } => self.asked.push((attempt, key))?,
                Effect::Abort { attempt } => self.asked.retain(|one| one.0 != attempt),
                Effect::Cancel { number } => self.delivered.retain(|one| one.0 != number),
                Effect::Deliver {
                    number,
                    delivery,
                    value,
                    ..
                } => self.delivered.push((number, delivery, value))?,
            }
        }
        Ok(())
    }
}

/// Wants every chunk, and works until each has arrived. Subscriber 30 leaves after the second round.
fn fill(store: &mut Store) -> Result<()> {
    store.want_all()?;
    for round in 0..10 {
        store.answer_all(round)?;
        store.judge_all()?;
        if round == 1 {
            store.step(Event::Retain(AllBut(30)))?;
        }
        store.retry()?;
    }
    Ok(())
}

/// Fills a store, and prints what arrived.
fn show(rt: &impl Print, store: &mut Store) -> Result<()> {
    fill(store)?;
    println!(rt; "chunk  value  subscribers  at")?;
    for (at, delivery, value) in &store.arrived {
        let (key, subscribers, at) = (delivery.key, delivery.subscribers.len(), at.nanoseconds);
        println!(rt; "{key:>5}  {value:>5}  {subscribers:>11}  {at}")?;
    }
    Ok(())
}

/// Opens a store, and shows it at work.
pub fn run(rt: &(impl AllocGlobal + Print)) -> Result<()> {
    let alloc = rt.alloc();
    let mut store = Store {
        // what the source lacks, or what was refused, waits 100 nanoseconds
        actor: Actor::new(alloc, 100),
        now: Moment { nanoseconds: 0 },
        asked: Vec::new(alloc),
        delivered: Vec::new(alloc),
        arrived: Vec::new(alloc),
        alloc,
    };
    show(rt, &mut store)
}
