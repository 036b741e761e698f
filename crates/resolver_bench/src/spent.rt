//! Steps of one kind, and what they took.

use crate::fault::Fault;
use std::alloc::Global;
use std::num::NonZeroU32;
use std::rt::Clock;
use std::time::Instant;

/// How much is driven, and what is printed of it.
#[derive(Clone, Copy)]
pub struct Load {
    /// How many keys there are.
    pub keys: u64,
    /// How many peers there are.
    pub peers: u16,
    /// How many requests one peer may have of a fetcher, if that is limited.
    pub limit: Option<NonZeroU32>,
    /// Whether the time of a step is printed, too.
    pub with_time: bool,
}

/// Which steps are taken.
#[derive(Clone, Copy)]
pub enum Kind {
    Fetch,
    Answer,
    Complete,
    End,
    Put,
    Wait,
    Ask,
    Attach,
    Together,
    Merge,
    Ready,
    Idle,
    Wake,
    Scan,
    Respond,
    Overdue,
    Round,
    Aimed,
    Limit,
    Anew,
    Index,
    Pick,
    Set,
    Request,
    Unresolved,
    Stale,
    Absent,
    Block,
    Unanswered,
}

/// How many steps are taken.
#[derive(Clone, Copy)]
pub enum Times {
    /// One for each key.
    Keys,
    /// One for each peer.
    Peers,
    /// So many, whatever there is.
    Just(u64),
}

/// Steps of one kind, in a table: what they are called in the output, and what is counted in them.
pub struct Steps(pub Kind, pub Times, pub &'static str, pub &'static str);

impl Steps {
    /// How many they are.
    pub fn count(&self, load: &Load) -> u64 {
        match self.1 {
            Times::Keys => load.keys,
            Times::Peers => u64::from(load.peers),
            Times::Just(count) => count,
        }
    }
}

/// What takes steps, one after another.
pub trait Driven: Drop {
    /// Gets what it needs before the steps of a kind.
    fn prepare(&mut self, _: Global, _: Kind, _: &Load) -> Result<(), Fault> {
        Ok(())
    }

    /// Takes the step of this kind and of this number. It counts what its kind counts.
    fn take(&mut self, alloc: Global, kind: Kind, i: u64) -> Result<u64, Fault>;
}

/// Takes the steps of a table, and drops what took them.
pub fn drive<T: Driven>(
    rt: &(impl AllocGlobal + Clock + Print),
    mut driven: T,
    table: &[Steps],
    load: &Load,
) -> Result<(), Fault> {
    take_each(rt, &mut driven, table, load)
}

/// Takes the steps of a table, and prints what they took.
pub fn take_each<T: Driven>(
    rt: &(impl AllocGlobal + Clock + Print),
    driven: &mut T,
    table: &[Steps],
    load: &Load,
) -> Result<(), Fault> {
    for steps in table {
        driven.prepare(rt.alloc(), steps.0, load)?;
        let began = Instant::now(rt).ok();
        let taken = take_all(driven, rt.alloc(), steps.0, steps.count(load));
        tell(rt, load, began, (steps.2, steps.3), taken)?;
    }
    Ok(())
}

/// Takes so many steps of one kind. It answers how many they are, and how many effects, subscribers of a key, or
/// whatever else their kind counts they had.
#[inline(never)]
pub fn take_all<T: Driven>(
    driven: &mut T,
    alloc: Global,
    kind: Kind,
    steps: u64,
) -> Result<(u64, u64), Fault> {
    let mut counted: u64 = 0;
    for i in 0..steps {
        counted = counted.saturating_add(driven.take(alloc, kind, i)?);
    }
    Ok((steps, counted))
}

/// Prints what steps are called, how many there were and what they counted, with the time of a step or without.
pub fn tell(
    rt: &(impl Clock + Print),
    load: &Load,
    began: Option<Instant>,
    (name, what): (&str, &str),
    taken: Result<(u64, u64), Fault>,
) -> Result<(), Fault> {
    let (steps, counted) = taken?;
    let Some(began) = began else {
        return Err(Fault::Host);
    };
    let nanoseconds = began.elapsed(rt)?.as_nanos();
    print!(rt; "{name}: {steps} steps, {counted} {what}")?;
    if load.with_time {
        let each = nanoseconds.checked_div(u128::from(steps)).unwrap_or(0);
        print!(rt; ", {each} ns a step")?;
    }
    Ok(println!(rt)?)
}
