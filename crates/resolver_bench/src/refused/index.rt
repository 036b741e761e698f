//! A weighted index.

use crate::refused::part::{Fresh, Notes, Part, Way};
use resolver_base::Fault;
use resolver_sampling::sampling::WeightedIndex;
use std::alloc::Global;

/// A call of an index.
pub enum Call {
    New(&'static [u64]),
    /// A selection is begun and ended.
    Select,
}

/// The worked row of an index.
pub const CHOICES: &[Call] = &[Call::New(&[3, 0, 2]), Call::Select];

/// An index, once it is made.
pub type Index = Option<WeightedIndex>;

impl Fresh for Index {
    fn fresh(_: Global) -> Self {
        None
    }
}

impl Part<Call> for Index {
    fn take(&mut self, alloc: Global, call: &Call) -> Result<(), Fault> {
        match call {
            Call::New(weights) => {
                let made = WeightedIndex::new(alloc, weights)?;
                drop(self.replace(made));
                Ok(())
            }
            Call::Select => select(self),
        }
    }

    fn show(&mut self, _: Global, _: Way, notes: &mut Notes) {
        notes.add(&*self);
    }
}

/// Begins a selection of what an index has, and ends it.
fn select(kept: &mut Index) -> Result<(), Fault> {
    let Some(index) = kept.take() else {
        return Ok(());
    };
    match index.without_replacement() {
        Ok(selection) => {
            drop(kept.replace(selection.end()));
            Ok(())
        }
        Err(refused) => {
            drop(kept.replace(refused.value));
            Err(Fault::OutOfMemory)
        }
    }
}
