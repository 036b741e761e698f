//! The names of what the nodes fetch.

ghost use Rattle.std.specs.Prelude.{◌≡◌, ◌*◌, ◌+◌, List, [], ◌∷◌, None, Some, refl};
ghost use Rattle.std.proofs.Common.{rules};
ghost use Rattle.resolver_swarm.specs.Height.{number_of};

use bytes::BytesMut;
use resolver_base::{Faithful, Span};
use std::alloc::AllocError;
use std::fmt;
use std::fmt::{Display, Formatter, Write};

/// A key of two bytes. Keys are ordered as their numbers are.
#[derive(Clone, Copy, Debug, PartialEq, Eq, PartialOrd, Ord, Hash)]
pub struct Height {
    pub high: u8,
    pub low: u8,
}

impl Height {
    /// The key of this number.
    pub fn of(number: u16) -> Height
        ensures { number_of result ≡ number }
    {
        let [high, low] = number.to_be_bytes();
        Height { high, low }
    }

    /// The number of the key.
    pub fn number(self) -> u16
        ensures { result ≡ number_of self }
    {
        u16::from_be_bytes([self.high, self.low])
    }
}

impl Display for Height {
    fn fmt<W: Write>(&self, f: &mut Formatter<W>) -> fmt::Result {
        write!(f, "{}", self.number())
    }
}

impl Span for Height {
    ghost SIZE = { 2 };

    const SIZE: usize = 2;

    ghost bytes_of = { λ key. key.high ∷ key.low ∷ [] };

    ghost read_from = { λ bytes. elim bytes [
      | [] ↦ None
      | h ∷ rest ↦ elim rest [
        | [] ↦ None
        | l ∷ more ↦ elim more [ [] ↦ Some (record { high = h; low = l }) | c ∷ others ↦ None ]
      ]
    ] };

    fn write(&self, out: &mut BytesMut) -> Result<(), AllocError> {
        out.extend_from_slice(&[self.high, self.low])
    }

    fn read(bytes: &[u8]) -> Option<Self> {
        match bytes {
            [high, low] => Some(Height {
                high: *high,
                low: *low,
            }),
            _ => None,
        }
    }

    ghost small = { Prim.search rules };

    ghost sized = { λ _. refl };

    ghost read_again = { λ name. Prim.search rules };

    ghost own_bytes = { λ bytes name read. Prim.search rules };
}

impl Faithful for Height {
    ghost clones = { Prim.search rules };
}
