//! A core whose inputs and effects are bytes.

ghost use Rattle.std.specs.Prelude.{◌≡◌, IfOk};
ghost use Rattle.resolver_flat.specs.Naming.{shape};
ghost use Rattle.resolver_flat_machine.specs.Effects.{all_spelled};
ghost use Rattle.resolver_flat_machine.specs.Settings.{said};
ghost use Rattle.resolver_flat_machine.specs.Steps.{Begins, Counts, Expires, Lists, Opened, Stepped, Waits};

use crate::effects::{Told, put_all, put_rows};
use crate::inputs::input_from;
use crate::opening::settings_in;
use crate::settings::Settings;
use resolver_base::Fault;
use resolver_core::p2p::Core;
use resolver_flat::reading::whole;
use resolver_flat::{FlatName, Leaving, Misread, Refusal};
use resolver_metrics::metrics::Metrics;
use std::alloc::{AllocError, Global};
use std::marker::Model;

/// A core, and the effects of its last step, which can be told again and again.
#[derive(Drop)]
pub struct FlatCore<K: Ord> {
    inner: Core<K, K, u64, Leaving<K, u64>>,
    told: Vec<Told<K>>,
    alloc: Global,
}

impl<K: Ord> Model for FlatCore<K> {
    ghost use Rattle.resolver_flat_machine.specs.Steps.{Flat};

    ghost Value = { Flat K };

    ghost view = { λ a. record { core = a.inner; told = a.told.items } };
}

impl<K: FlatName> FlatCore<K> {
    /// A core without demand, that knows no peer, with the settings that these bytes spell, all of
    /// them.
    pub fn new(alloc: Global, bytes: &[u8]) -> Result<Self, Misread>
        ensures { Opened (shape K.SIZE K.bytes_of K.read_from K.cmp) bytes.now result }
    {
        let (settings, rest) = settings_in(bytes)?;
        let settings = whole(settings, rest)?;
        Ok(FlatCore::with(alloc, settings))
    }

    /// A core without demand, that knows no peer, with these settings.
    fn with(alloc: Global, settings: Settings<K>) -> Self
        ensures { Begins (shape K.SIZE K.bytes_of K.read_from K.cmp) (said settings) result }
    {
        let priority_responses = settings.priority_responses;
        FlatCore {
            inner: Core::new(alloc, settings.configuration(), priority_responses),
            told: Vec::new(alloc),
            alloc,
        }
    }

    /// Takes the input that these bytes spell, all of them. Its effects are kept until the next step.
    ///
    /// What is no input, and what there is no memory to read, changes nothing but the effects, which
    /// are none then, as after each refusal.
    pub fn step(&mut self, bytes: &[u8]) -> Result<(), Refusal>
        ensures { Stepped (shape K.SIZE K.bytes_of K.read_from K.cmp) bytes.now
            self.old result self.new }
    {
        self.told.clear();
        let input = input_from(self.alloc, bytes)?;
        match self.inner.step(input) {
            Ok(effects) => {
                self.told = effects;
                Ok(())
            }
            Err(fault) => Err(Refusal::Fault(fault)),
        }
    }

    /// Spells the effects of the last step, one behind the other. Where memory is wanting they are
    /// kept, to be told later.
    pub fn told(&self) -> Result<Vec<u8>, AllocError>
        ensures { IfOk result (λ out. out.items ≡ all_spelled K.bytes_of self.now.told) }
    {
        let mut out = Vec::new(self.alloc);
        put_all(&mut out, self.told.as_slice())?;
        Ok(out)
    }

    /// Spells the demanded keys in their order, each with its subscribers. Once the core has failed the
    /// answer is `Failed`.
    pub fn rows(&self) -> Result<Vec<u8>, Fault>
        ensures { IfOk result (λ out. Lists (shape K.SIZE K.bytes_of K.read_from K.cmp)
            self.now out.items) }
    {
        let rows = self.inner.rows()?;
        let mut out = Vec::new(self.alloc);
        put_rows(&mut out, rows.as_slice())?;
        Ok(out)
    }

    /// When a scan may do something, if a key waits.
    pub fn pending(&self) -> Option<u128>
        ensures { Waits (shape K.SIZE K.bytes_of K.read_from K.cmp) self.now result }
    {
        self.inner.get_pending_deadline()
    }

    /// When the time of a request is over next, if there is a request.
    pub fn active(&self) -> Option<u128>
        ensures { Expires (shape K.SIZE K.bytes_of K.read_from K.cmp) self.now result }
    {
        self.inner.get_active_deadline()
    }

    /// What the core has counted since it was made, and how many keys wait, requests have no answer and
    /// serves are open now.
    pub fn metrics(&self) -> Metrics
        ensures { Counts (shape K.SIZE K.bytes_of K.read_from K.cmp) self.now result }
    {
        self.inner.metrics()
    }
}
