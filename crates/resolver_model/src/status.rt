//! Whether a machine goes on.

ghost use Rattle.std.specs.Prelude.{◌≡◌};
ghost use Rattle.resolver_model.specs.Steps.{stops};

use resolver_base::Fault;

/// Whether a machine takes inputs.
#[derive(Clone, Copy, Debug, PartialEq, Eq)]
pub enum Status {
    /// It takes inputs.
    Running,
    /// It was ended: each input is refused as `Ended`.
    Ended,
    /// A step wanted memory or numbers: each input is refused as `Failed`.
    Failed,
}

/// Whether a run ends with this answer: memory or numbers were wanted.
pub fn stops<T>(answer: &Result<T, Fault>) -> bool
    ensures { result ≡ stops answer.now }
{
    matches!(answer, Err(Fault::OutOfMemory | Fault::Exhausted))
}
