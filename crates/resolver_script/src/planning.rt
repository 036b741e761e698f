//! The plan of a script.

use crate::endings::Fault;
use crate::kept::Kept;
use crate::machine::{Machine, Turn};
use crate::script::{Said, Why};
use resolver_backfill::Plan;
use resolver_base::Moment;
use resolver_mailbox::mocks::Key;
use resolver_messages::FetchKey;
use resolver_types::Fetch;
use std::alloc::{AllocError, Global};

/// What a line says of the plan.
#[derive(Drop)]
pub enum Planned {
    /// `backfill S M`: a new plan for this subscriber, whose fetches have this mark.
    Open { subscriber: u16, mark: u64 },
    /// `want LIST`: the plan wants these keys too.
    Want(Vec<u8>),
    /// `done LIST`: the plan wants these keys no more.
    Done(Vec<u8>),
}

/// The plan that a script opened last, if it opened one.
#[derive(Drop)]
pub struct Planning {
    alloc: Global,
    plan: Option<Plan<Key, u16>>,
}

impl Planning {
    /// No plan is open.
    pub fn new(alloc: Global) -> Self {
        Planning { alloc, plan: None }
    }

    /// Does what a line says of the plan, or says why it may not stand here. Where the machine refuses
    /// what it is fed, the plan stays as it was.
    pub fn take(
        &mut self,
        machine: &mut Machine,
        now: Moment,
        planned: Planned,
    ) -> Result<Turn, Fault> {
        match planned {
            Planned::Open { subscriber, mark } => {
                self.plan = Some(Plan::new(self.alloc, subscriber, mark));
                Ok(Turn::Quiet)
            }
            Planned::Want(keys) => self.want(machine, now, &named(self.alloc, &keys)?),
            Planned::Done(keys) => self.done(machine, now, &named(self.alloc, &keys)?),
        }
    }

    /// Feeds the machine one fetch of those of these keys that the plan didn't want, if there are some.
    fn want(&mut self, machine: &mut Machine, now: Moment, keys: &[Key]) -> Result<Turn, Fault> {
        let Some(plan) = &mut self.plan else {
            return Ok(Turn::Wrong(Why::Unplanned));
        };
        let Ok(fetches) = plan.want(keys) else {
            return Err(Fault::Memory);
        };
        if fetches.is_empty() {
            return Ok(Turn::Quiet);
        }
        let new = keys_of(self.alloc, &fetches)?;
        let turn = machine.happens(now, Said::FetchAll(fetches))?;
        if !turn.is_taken() {
            plan.forget(&new);
        }
        Ok(turn)
    }

    /// Feeds the machine one retain that drops the plan's subscriber from those of these keys that the
    /// plan wanted, if there are some.
    fn done(&mut self, machine: &mut Machine, now: Moment, keys: &[Key]) -> Result<Turn, Fault> {
        let Some(plan) = &mut self.plan else {
            return Ok(Turn::Wrong(Why::Unplanned));
        };
        let Ok(without) = plan.without(keys) else {
            return Err(Fault::Memory);
        };
        let Some(without) = without else {
            return Ok(Turn::Quiet);
        };
        let turn = machine.happens(now, Said::Retain(Kept::Without(without)))?;
        if turn.is_taken() {
            plan.forget(keys);
        }
        Ok(turn)
    }
}

/// Keys by their numbers.
fn named(alloc: Global, numbers: &[u8]) -> Result<Vec<Key>, AllocError> {
    let mut keys = Vec::with_capacity(alloc, numbers.len())?;
    for number in numbers {
        keys.push(Key(*number))?;
    }
    Ok(keys)
}

/// The keys of some fetches.
fn keys_of(alloc: Global, fetches: &[Fetch<Key, u16>]) -> Result<Vec<Key>, AllocError> {
    let mut keys = Vec::with_capacity(alloc, fetches.len())?;
    for fetch in fetches {
        keys.push(fetch.key)?;
    }
    Ok(keys)
}

/// Some fetches, as a machine takes them, of any peer.
pub fn items_of<M: Default + Drop>(
    alloc: Global,
    fetches: Vec<Fetch<Key, u16>>,
) -> Result<Vec<FetchKey<Key, u16, M>>, Fault> {
    let mut items = Vec::with_capacity(alloc, fetches.len())?;
    for fetch in fetches {
        let Ok(item) = FetchKey::from_fetch(alloc, fetch) else {
            return Err(Fault::Memory);
        };
        items.push(item)?;
    }
    Ok(items)
}
