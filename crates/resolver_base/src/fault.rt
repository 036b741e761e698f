//! Why a call was refused.

ghost use Rattle.std.specs.Prelude.{◌≡◌};
ghost use Rattle.resolver_base.specs.declared.fault.Fault.TheVariants.{OutOfMemory};
ghost use Rattle.resolver_base.specs.Faults.{number_of, name_of};

use std::alloc::{AllocError, AllocFailed};
use thiserror::Error;

/// A refusal. It has a number and a name, which scripts print.
#[derive(Clone, Copy, Debug, PartialEq, Eq, Error)]
pub enum Fault {
    /// A growth was refused in this call. A part is then as it was, and a machine has failed.
    #[error("out of memory")]
    OutOfMemory,
    /// The machine ran out of memory or of numbers in an earlier step.
    #[error("the machine failed in an earlier step")]
    Failed,
    /// The machine was told to end.
    #[error("the machine has ended")]
    Ended,
    /// An event came while a scan expects an answer.
    #[error("a scan expects an answer")]
    Busy,
    /// An answer came that no scan expects, or of another kind than the one expected.
    #[error("no scan expects this answer")]
    Unasked,
    /// A drawn number is not below the bound that was asked for.
    #[error("a drawn number is out of range")]
    OutOfRange,
    /// A number past `u64::MAX` is needed.
    #[error("no number is left")]
    Exhausted,
    /// A message has too few bytes.
    #[error("too few bytes")]
    EndOfBuffer,
    /// A message has a tag other than 0, 1 and 2.
    #[error("no such tag")]
    InvalidTag,
    /// A length is not in its shortest spelling, or past `u32::MAX`.
    #[error("a length is misspelled")]
    InvalidVarint,
    /// Bytes are left after a whole message.
    #[error("bytes are left over")]
    ExtraData,
    /// The key's own codec refuses its bytes.
    #[error("the bytes are no key")]
    Key,
    /// A share or a list of what was taken differs from the book.
    #[error("the book says otherwise")]
    Uneven,
}

impl Fault {
    /// The number of the refusal, from 1 to 13.
    pub fn number(self) -> u8
        ensures { result ≡ number_of self }
    {
        self as u8 + 1
    }

    /// The name of the refusal, as the variant is called.
    pub fn name(self) -> &'static str
        ensures { result.now ≡ name_of self }
    {
        match self {
            Fault::OutOfMemory => "OutOfMemory",
            Fault::Failed => "Failed",
            Fault::Ended => "Ended",
            Fault::Busy => "Busy",
            Fault::Unasked => "Unasked",
            Fault::OutOfRange => "OutOfRange",
            Fault::Exhausted => "Exhausted",
            Fault::EndOfBuffer => "EndOfBuffer",
            Fault::InvalidTag => "InvalidTag",
            Fault::InvalidVarint => "InvalidVarint",
            Fault::ExtraData => "ExtraData",
            Fault::Key => "Key",
            Fault::Uneven => "Uneven",
        }
    }
}

impl From<AllocError> for Fault {
    ghost from_gives = { λ _ fault. fault ≡ OutOfMemory };

    fn from(_: AllocError) -> Fault {
        Fault::OutOfMemory
    }
}

impl<T: Drop> From<AllocFailed<T>> for Fault {
    ghost from_gives = { λ _ fault. fault ≡ OutOfMemory };

    fn from(_: AllocFailed<T>) -> Fault {
        Fault::from(AllocError)
    }
}
