//! How a script ends.

ghost use Rattle.std.specs.Prelude.{◌≡◌};
ghost use Rattle.resolver_script.specs.declared.endings.Fault.TheVariants.{Memory};

use crate::script::Wrong;
use std::alloc::{AllocError, AllocFailed};
use std::io::ErrorKind;
use std::{fmt, io};
use thiserror::Error;

/// How a script ended.
#[derive(Clone, Copy, Debug, PartialEq, Eq)]
pub enum Ending {
    /// All its lines were read.
    End,
    /// A line can't be read. This was said, and nothing is read after it.
    Unreadable(Place),
}

/// A line that can't be read, counted from 1, and why.
#[derive(Clone, Copy, Debug, PartialEq, Eq)]
pub struct Place {
    pub line: u64,
    pub wrong: Wrong,
}

impl fmt::Display for Place {
    fn fmt<W: fmt::Write>(&self, f: &mut fmt::Formatter<W>) -> fmt::Result {
        let (line, wrong) = (self.line, self.wrong);
        write!(f, "line {line}: {wrong}")
    }
}

impl Ending {
    /// The program's status.
    pub fn status(self) -> u8 {
        match self {
            Ending::End => 0,
            Ending::Unreadable(_) => 2,
        }
    }
}

/// Why a script could not be read to its end.
#[derive(Clone, Copy, Debug, PartialEq, Eq, Error)]
pub enum Fault {
    /// A read failed.
    #[error("input")]
    Input,
    /// A write failed.
    #[error("output")]
    Output,
    /// Memory was refused outside the machine.
    #[error("memory")]
    Memory,
}

impl From<AllocError> for Fault {
    ghost from_gives = { λ _ fault. fault ≡ Memory };

    fn from(_: AllocError) -> Fault {
        Fault::Memory
    }
}

impl<T: Drop> From<AllocFailed<T>> for Fault {
    ghost from_gives = { λ _ fault. fault ≡ Memory };

    fn from(_: AllocFailed<T>) -> Fault {
        Fault::Memory
    }
}

/// What an error of the output is.
pub(crate) fn written(done: io::Result<()>) -> Result<(), Fault> {
    match done {
        Ok(()) => Ok(()),
        Err(error) => match error.kind() {
            ErrorKind::OutOfMemory => Err(Fault::Memory),
            _ => Err(Fault::Output),
        },
    }
}
