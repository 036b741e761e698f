//! A machine that fetches from peers or from one source.

ghost use Rattle.std.specs.Prelude.{◌≡◌, IfOk};
ghost use Rattle.resolver_flat_machine.specs.Either.{Counts, Expires, Lists, Opened, Stepped, Waits, told};

use crate::flat_core::FlatCore;
use resolver_base::Fault;
use resolver_flat::{Misread, Name, Refusal};
use resolver_flat_actor::FlatActor;
use resolver_metrics::metrics::Metrics;
use std::alloc::{AllocError, Global};

/// One of both machines, over names of one of both sizes, and the effects of its last step.
#[derive(Drop)]
pub enum Machine {
    /// Fetches from peers. Names have 32 bytes.
    Core(FlatCore<Name<32>>),
    /// Fetches from one source. Names have 32 bytes.
    Actor(FlatActor<Name<32>>),
    /// Fetches from peers. Names have 8 bytes.
    ShortCore(FlatCore<Name<8>>),
    /// Fetches from one source. Names have 8 bytes.
    ShortActor(FlatActor<Name<8>>),
}

impl Machine {
    /// A machine of this kind, with the settings that these bytes spell, all of them: 0 is a core and 1
    /// an actor over names of 32 bytes, 2 and 3 are the same over names of 8. Other kinds are
    /// misspelled.
    pub fn of_kind(alloc: Global, kind: u8, settings: &[u8]) -> Result<Machine, Misread>
        ensures { Opened kind settings.now result }
    {
        match kind {
            0 => Ok(Machine::Core(FlatCore::new(alloc, settings)?)),
            1 => Ok(Machine::Actor(FlatActor::new(alloc, settings)?)),
            2 => Ok(Machine::ShortCore(FlatCore::new(alloc, settings)?)),
            3 => Ok(Machine::ShortActor(FlatActor::new(alloc, settings)?)),
            _ => Err(Misread::Misspelled),
        }
    }

    /// Takes the input that these bytes spell, all of them, as the machine's own `step` does.
    pub fn step(&mut self, bytes: &[u8]) -> Result<(), Refusal>
        ensures { Stepped bytes.now self.old result self.new }
    {
        match self {
            Machine::Core(core) => core.step(bytes),
            Machine::Actor(actor) => actor.step(bytes),
            Machine::ShortCore(core) => core.step(bytes),
            Machine::ShortActor(actor) => actor.step(bytes),
        }
    }

    /// Spells the effects of the last step, one behind the other.
    pub fn told(&self) -> Result<Vec<u8>, AllocError>
        ensures { IfOk result (λ out. out.items ≡ told self.now) }
    {
        match self {
            Machine::Core(core) => core.told(),
            Machine::Actor(actor) => actor.told(),
            Machine::ShortCore(core) => core.told(),
            Machine::ShortActor(actor) => actor.told(),
        }
    }

    /// Spells the demanded keys in their order, each with its subscribers. Once a core has failed the
    /// answer is `Failed`.
    pub fn rows(&self) -> Result<Vec<u8>, Fault>
        ensures { IfOk result (λ out. Lists self.now out.items) }
    {
        match self {
            Machine::Core(core) => core.rows(),
            Machine::Actor(actor) => actor.rows(),
            Machine::ShortCore(core) => core.rows(),
            Machine::ShortActor(actor) => actor.rows(),
        }
    }

    /// When a scan may do something, or a waiting key is due, if a key waits.
    pub fn pending(&self) -> Option<u128>
        ensures { Waits self.now result }
    {
        match self {
            Machine::Core(core) => core.pending(),
            Machine::Actor(actor) => actor.next_retry(),
            Machine::ShortCore(core) => core.pending(),
            Machine::ShortActor(actor) => actor.next_retry(),
        }
    }

    /// When the time of a request is over next, if there is one. An actor's has no time.
    pub fn active(&self) -> Option<u128>
        ensures { Expires self.now result }
    {
        match self {
            Machine::Core(core) => core.active(),
            Machine::Actor(_) => None,
            Machine::ShortCore(core) => core.active(),
            Machine::ShortActor(_) => None,
        }
    }

    /// What a core has counted since it was made, and how much it has now. An actor counts nothing.
    pub fn metrics(&self) -> Option<Metrics>
        ensures { Counts self.now result }
    {
        match self {
            Machine::Core(core) => Some(core.metrics()),
            Machine::Actor(_) => None,
            Machine::ShortCore(core) => Some(core.metrics()),
            Machine::ShortActor(_) => None,
        }
    }
}
