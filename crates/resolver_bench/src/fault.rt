//! Why a run ended before its end.

use std::alloc::{AllocError, AllocFailed};
use std::io;

#[derive(Clone, Copy)]
pub enum Fault {
    /// An argument is neither `rows` nor a number.
    Size,
    Memory,
    Host,
    /// A part refused what it was given.
    Refused,
    /// A part was another once it was refused memory.
    Changed,
}

impl Fault {
    /// The words that are printed.
    pub fn text(self) -> &'static str {
        match self {
            Fault::Size => "no number of keys or peers",
            Fault::Memory => "memory",
            Fault::Host => "arguments, clock or output",
            Fault::Refused => "the actor refused an input",
            Fault::Changed => "a row changed what it was refused for",
        }
    }
}

impl From<AllocError> for Fault {
    fn from(_: AllocError) -> Fault {
        Fault::Memory
    }
}

impl<T: Drop> From<AllocFailed<T>> for Fault {
    fn from(_: AllocFailed<T>) -> Fault {
        Fault::Memory
    }
}

impl From<io::Error> for Fault {
    fn from(error: io::Error) -> Fault {
        if error.kind() == io::ErrorKind::OutOfMemory {
            Fault::Memory
        } else {
            Fault::Host
        }
    }
}

impl From<resolver_base::Fault> for Fault {
    fn from(_: resolver_base::Fault) -> Fault {
        Fault::Refused
    }
}

/// The same of what a part answers.
pub fn done(answered: Result<(), resolver_base::Fault>) -> Result<(), Fault> {
    match answered {
        Ok(()) => Ok(()),
        Err(fault) => Err(fault.into()),
    }
}
