//! Keys of four bytes, for tests of many.

ghost use Rattle.std.specs.Prelude.{refl};
ghost use Rattle.std.proofs.Common.{rules};
ghost use Rattle.tests_support.specs.Names.{bytes_of, read_from, own_bytes};

use bytes::BytesMut;
use resolver_base::{Faithful, Span};
use std::alloc::AllocError;

/// A key of four bytes.
#[derive(Clone, Copy, Debug, PartialEq, Eq, PartialOrd, Ord, Hash)]
pub struct Name {
    first: u8,
    second: u8,
    third: u8,
    fourth: u8,
}

impl Name {
    /// The key whose bytes are this number's. Keys are ordered as their numbers are.
    pub fn numbered(number: u32) -> Name {
        let [first, second, third, fourth] = number.to_be_bytes();
        Name {
            first,
            second,
            third,
            fourth,
        }
    }
}

impl Span for Name {
    ghost SIZE = { 4 };

    const SIZE: usize = 4;

    ghost bytes_of = { bytes_of };

    ghost read_from = { read_from };

    fn write(&self, out: &mut BytesMut) -> Result<(), AllocError> {
        out.extend_from_slice(&[self.first, self.second, self.third, self.fourth])
    }

    fn read(bytes: &[u8]) -> Option<Self> {
        match bytes {
            [first, second, third, fourth] => Some(Name {
                first: *first,
                second: *second,
                third: *third,
                fourth: *fourth,
            }),
            _ => None,
        }
    }

    ghost small = { Prim.search rules };

    ghost sized = { λ _. refl };

    ghost read_again = { λ name. Prim.search rules };

    ghost own_bytes = { own_bytes };
}

impl Faithful for Name {
    ghost clones = { Prim.search rules };
}
