//! Why a step was refused.

ghost use Rattle.std.specs.Prelude.{◌≡◌};
ghost use Rattle.resolver_flat.specs.Refusals.{number_of, refused};

use crate::reading::Misread;
use resolver_base::Fault;

/// Why a machine whose inputs are bytes took none.
#[derive(Clone, Copy, Debug, PartialEq, Eq)]
pub enum Refusal {
    /// The machine refused the input.
    Fault(Fault),
    /// The bytes spell no input.
    Misspelled,
    /// Memory is wanting to read the input: the machine is as it was.
    Unread,
}

impl Refusal {
    /// The number of the refusal: that of its fault, which is below 64, 64 or 65.
    pub fn number(self) -> u8
        ensures { result ≡ number_of self }
    {
        match self {
            Refusal::Fault(fault) => fault.number(),
            Refusal::Misspelled => 64,
            Refusal::Unread => 65,
        }
    }
}

impl From<Misread> for Refusal {
    ghost from_gives = { λ misread refusal. refusal ≡ refused misread };

    fn from(misread: Misread) -> Refusal {
        match misread {
            Misread::Misspelled => Refusal::Misspelled,
            Misread::OutOfMemory => Refusal::Unread,
        }
    }
}
