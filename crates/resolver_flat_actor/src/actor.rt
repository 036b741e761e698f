//! An actor whose inputs and effects are bytes.

ghost use Rattle.std.specs.Prelude.{◌≡◌, IfOk, map};
ghost use Rattle.resolver_model_opaque.specs.Opaque.{next_retry};
ghost use Rattle.resolver_model_opaque.specs.OpaqueListed.{listed};
ghost use Rattle.resolver_flat.specs.Naming.{shape};
ghost use Rattle.resolver_flat_actor.specs.Effects.{all_rows, all_spelled};
ghost use Rattle.resolver_flat_actor.specs.Steps.{Opened, Stepped};

use crate::effects::{Told, put_all, put_rows};
use crate::inputs::input_from;
use bytes::Bytes;
use resolver_base::Fault;
use resolver_flat::reading::{moment, whole};
use resolver_flat::{FlatName, Leaving, Misread, Refusal};
use resolver_opaque_actor::Actor;
use std::alloc::{AllocError, Global};
use std::marker::Model;

/// An actor, and the effects of its last step, which can be told again and again.
#[derive(Drop)]
pub struct FlatActor<K: Ord> {
    actor: Actor<K, Bytes, u64, Leaving<K, u64>>,
    told: Vec<Told<K>>,
    alloc: Global,
}

impl<K: Ord> Model for FlatActor<K> {
    ghost use Rattle.resolver_flat_actor.specs.Steps.{Flat};

    ghost Value = { Flat K };

    ghost view = { λ a. record { machine = a.actor; told = a.told.items } };
}

impl<K: FlatName> FlatActor<K> {
    /// An actor without demand. The bytes are the time after which a key is asked for again, as a
    /// moment is spelled.
    pub fn new(alloc: Global, bytes: &[u8]) -> Result<Self, Misread>
        ensures { Opened bytes.now result }
    {
        let (delay, rest) = moment(bytes)?;
        let delay = whole(delay, rest)?.nanoseconds;
        Ok(FlatActor {
            actor: Actor::new(alloc, delay),
            told: Vec::new(alloc),
            alloc,
        })
    }

    /// Takes the input that these bytes spell, all of them. Its effects are kept until the next step.
    ///
    /// What is no input, and what there is no memory to read, changes nothing but the effects, which
    /// are none then, as after each refusal.
    pub fn step(&mut self, bytes: &[u8]) -> Result<(), Refusal>
        ensures { Stepped (shape K.SIZE K.bytes_of K.read_from K.cmp) bytes.now
            self.old result self.new }
    {
        self.told.clear();
        let input = input_from(self.alloc, bytes)?;
        match self.actor.step(input) {
            Ok(effects) => {
                self.told = effects;
                Ok(())
            }
            Err(fault) => Err(Refusal::Fault(fault)),
        }
    }

    /// Spells the effects of the last step, one behind the other. Where memory is wanting they are
    /// kept, to be told later.
    pub fn told(&self) -> Result<Vec<u8>, AllocError>
        ensures { IfOk result (λ out. out.items ≡ all_spelled K.bytes_of self.now.told) }
    {
        let mut out = Vec::new(self.alloc);
        put_all(&mut out, self.told.as_slice())?;
        Ok(out)
    }

    /// Spells the demanded keys in their order, each with its subscribers.
    pub fn rows(&self) -> Result<Vec<u8>, Fault>
        ensures { IfOk result
            (λ out. out.items ≡ all_rows K.bytes_of (map listed self.now.machine.rows)) }
    {
        let rows = self.actor.rows()?;
        let mut out = Vec::new(self.alloc);
        put_rows(&mut out, rows.as_slice())?;
        Ok(out)
    }

    /// The earliest moment at which a waiting key is due, if a key is waiting.
    pub fn next_retry(&self) -> Option<u128>
        ensures { result ≡ next_retry self.now.machine.rows }
    {
        self.actor.next_retry()
    }
}
