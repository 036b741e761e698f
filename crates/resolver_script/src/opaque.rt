//! Scripts that feed the actor, which fetches from an opaque source.

use crate::endings::Fault;
use crate::kept::Kept;
use crate::machine::Turn;
use crate::planning::items_of;
use crate::print;
use crate::script::{Said, Why, Wish};
use bytes::Bytes;
use resolver_base::Moment;
use resolver_mailbox::mocks::Key;
use resolver_messages::FetchKey;
use resolver_opaque_actor::{Actor, Event, Input, Row};
use resolver_types::NonEmptyVec;
use std::alloc::Global;
use std::io::Write;

/// What the actor is told.
type Told = Event<Key, Bytes, u16, Kept>;

/// What the actor takes.
type Taken = Input<Key, Bytes, u16, Kept>;

/// The actor that a script opened.
#[derive(Drop)]
pub struct Opaque {
    actor: Actor<Key, Bytes, u16, Kept>,
    alloc: Global,
}

impl Opaque {
    /// A new actor.
    pub fn new(alloc: Global, delay: Moment) -> Self {
        Opaque {
            actor: Actor::new(alloc, delay.nanoseconds),
            alloc,
        }
    }

    /// Feeds what happened.
    pub fn happens(&mut self, now: Moment, said: Said) -> Result<Turn, Fault> {
        match event_of(self.alloc, said) {
            Ok(Some(event)) => {
                let now = now.nanoseconds;
                Ok(self.step(Input { now, event }))
            }
            Ok(None) => Ok(Turn::Wrong(Why::OtherMachine)),
            Err(fault) => Err(fault),
        }
    }

    fn step(&mut self, input: Taken) -> Turn {
        match self.actor.step(input) {
            Ok(effects) => Turn::Opaque(effects),
            Err(fault) => Turn::Refused(fault),
        }
    }

    /// The demanded keys, in their order.
    pub fn rows(&self) -> Result<Vec<Row<Key, u16>>, resolver_base::Fault> {
        self.actor.rows()
    }

    /// Prints the rows and the wake-up.
    pub fn show<W: Write>(&self, output: &mut W) -> Result<(), Fault> {
        match self.actor.rows() {
            Ok(rows) => print::rows(output, rows, self.actor.next_retry()),
            Err(_) => Err(Fault::Memory),
        }
    }
}

/// What the actor is told, if this happens to it.
fn event_of(alloc: Global, said: Said) -> Result<Option<Told>, Fault> {
    Ok(Some(match said {
        Said::Fetch(wish) => return fetch(alloc, &wish),
        Said::FetchAll(fetches) => Event::Fetch(items_of(alloc, fetches)?),
        Said::Retain(kept) => Event::Retain(kept),
        Said::Verdict { number, outcome } => Event::Verdict { number, outcome },
        Said::Wake => Event::RetriesDue,
        Said::Stop => Event::End,
        Said::Fetched { attempt, value } => Event::Fetched { attempt, value },
        Said::Timeout
        | Said::Peers { .. }
        | Said::Blocked(_)
        | Said::Net { .. }
        | Said::Served { .. } => return Ok(None),
    }))
}

/// What a subscriber wants, if it names no peers.
fn fetch(alloc: Global, wish: &Wish) -> Result<Option<Told>, Fault> {
    if wish.targets.is_some() {
        return Ok(None);
    }
    let item = FetchKey {
        key: Key(wish.key),
        subscribers: NonEmptyVec::new(alloc, (wish.subscriber, wish.mark))?,
        metadata: (),
    };
    let mut items = Vec::new(alloc);
    items.push(item)?;
    Ok(Some(Event::Fetch(items)))
}
