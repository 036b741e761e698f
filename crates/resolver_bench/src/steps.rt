//! Each event of both machines, in a function by itself that isn't inlined, so that what it takes can be counted by
//! the name of that function.

mod actor;
mod engine;

use crate::fault::Fault;
use crate::spent::Load;
use std::rt::Clock;

/// Which events are taken.
#[derive(Clone, Copy)]
pub enum Events {
    /// Those of a key's short way through the engine's core.
    Way,
    /// Those of both machines.
    All,
}

/// Takes every key through these events.
pub fn run(
    rt: &(impl AllocGlobal + Clock + Print),
    events: Events,
    load: &Load,
) -> Result<(), Fault> {
    engine::run_way(rt, load)?;
    match events {
        Events::Way => Ok(()),
        Events::All => {
            engine::run_again(rt, load)?;
            actor::run(rt, load)
        }
    }
}
