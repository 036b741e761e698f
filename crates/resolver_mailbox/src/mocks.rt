//! A key for tests of what stands on a mailbox.

ghost use Rattle.std.proofs.Common.{rules};

use crate::mailbox::Exact;
use bytes::{BufMut, BytesMut};
use resolver_base::{Faithful, Span};
use std::alloc::AllocError;
use std::fmt;

/// A key of one byte.
#[derive(Clone, Copy, Default, Debug, PartialEq, Eq, PartialOrd, Ord, Hash)]
pub struct Key(pub u8);

impl fmt::Display for Key {
    fn fmt<W: fmt::Write>(&self, f: &mut fmt::Formatter<W>) -> fmt::Result {
        let name = self.0;
        write!(f, "Key({name})")
    }
}

impl Span for Key {
    ghost use Rattle.std.proofs.Common.{lit<, refl, eq-eqb};
    ghost use Rattle.resolver_mailbox.specs.MockKeys.{bytes_of, read_from, bytes_of-read_from};

    ghost SIZE = { 1 };

    const SIZE: usize = 1;

    ghost bytes_of = { bytes_of };

    ghost read_from = { read_from };

    fn write(&self, out: &mut BytesMut) -> Result<(), AllocError> {
        out.put_u8(self.0)
    }

    fn read(bytes: &[u8]) -> Option<Self> {
        Some(Key(bytes[0]))
    }

    ghost small = { lit< tt };

    ghost sized = { λ _. refl };

    ghost read_again = { λ name. eq-eqb name.0 name.0 refl };

    ghost own_bytes = { bytes_of-read_from };
}

impl Faithful for Key {
    ghost clones = { Prim.search rules };
}

impl Exact for Key {
    fn is_same(&self, other: &Key) -> bool {
        self.0 == other.0
    }
}
