//! What is said of a fetch beside its key and its subscribers.

ghost use Rattle.std.specs.Prelude.{◌≡◌, IfOk, IfErr, OnOk, OnErr};
ghost use Rattle.resolver_base.specs.declared.fault.Fault.TheVariants.{OutOfMemory};
ghost use Rattle.resolver_types.specs.Targets.{merged_targets};

use resolver_base::{Faithful, Fault};
use resolver_types::NonEmptyVec;
use std::alloc::Global;

/// What is said of a fetch: it merges with what a later fetch of the key says.
pub trait Metadata {
    /// What an earlier and a later fetch of one key say together.
    ghost merged: { Self → Self → Self };

    /// The same again.
    fn copy(&self) -> Result<Self, Fault>
        ensures same { IfOk result (λ copy. copy ≡ self.now) }
        ensures only { IfErr result (λ fault. fault ≡ OutOfMemory) };

    /// Takes what a later fetch of the key says. Where memory is refused, nothing changes.
    fn merge(&mut self, alloc: Global, later: Self) -> Result<(), Fault>
        ensures ok { OnOk result (self.new ≡ merged self.old later) }
        ensures err { OnErr result (self.new ≡ self.old) }
        ensures only { IfErr result (λ fault. fault ≡ OutOfMemory) };
}

/// Nothing is said.
impl Metadata for () {
    ghost merged = { λ earlier later. earlier };

    fn copy(&self) -> Result<(), Fault> {
        Ok(())
    }

    fn merge(&mut self, _alloc: Global, _later: ()) -> Result<(), Fault> {
        Ok(())
    }
}

/// The targets of a fetch; none means that any peer may be asked. That stays so for good once it
/// is said. Two lists are joined in their order: a target that is listed isn't listed again.
impl<P: Ord + Faithful + Drop> Metadata for Option<NonEmptyVec<P>> {
    ghost merged = { merged_targets P.eq };

    fn copy(&self) -> Result<Option<NonEmptyVec<P>>, Fault> {
        let Some(targets) = self else {
            return Ok(None);
        };
        Ok(Some(targets.clone()?))
    }

    fn merge(&mut self, alloc: Global, later: Option<NonEmptyVec<P>>) -> Result<(), Fault> {
        let Some(more) = later else {
            *self = None;
            return Ok(());
        };
        if let Some(targets) = self {
            targets.join(alloc, more)?;
        }
        Ok(())
    }
}
