//! How a loop ended.

ghost use Rattle.std.specs.Prelude.{◌≡◌};
ghost use Rattle.resolver_runtime.specs.Endings.{ending_of, refusal_of};

use resolver_base::Fault;

/// How a loop ended.
#[derive(Clone, Copy, Debug, PartialEq, Eq)]
pub enum Ending {
    /// It was told to end, or a source that it can't do without was closed.
    Complete,
    /// Memory was refused: for a step, for what the loop keeps, or for the consumer or the producer.
    OutOfMemory,
    /// The machine has no number left.
    Exhausted,
}

impl Ending {
    /// What the loop's owner is told.
    pub fn into_result(self) -> Result<(), Fault>
        ensures { result ≡ refusal_of self }
    {
        match self {
            Ending::Complete => Ok(()),
            Ending::OutOfMemory => Err(Fault::OutOfMemory),
            Ending::Exhausted => Err(Fault::Exhausted),
        }
    }

    /// How a loop ends whose machine refuses a step so, or none where it goes on: only
    /// `OutOfMemory` and `Exhausted` fail a machine.
    pub fn of(fault: Fault) -> Option<Ending>
        ensures { result ≡ ending_of fault }
    {
        match fault {
            Fault::OutOfMemory => Some(Ending::OutOfMemory),
            Fault::Exhausted => Some(Ending::Exhausted),
            _ => None,
        }
    }
}
