//! Names of a fixed number of bytes.

ghost use Rattle.std.specs.Prelude.{◌≡◌, ◌<◌, ◌^◌, ◌∷◌, [], length, Some, nat_eq};
ghost use Rattle.std.specs.Cmp.Lexicographic.{lists_agrees, nat_list_cmp_total, nat_list_eq_equiv, on_texts, pointwise, slice_cmp, texts_po, texts_ties};
ghost use Rattle.std.specs.Cmp.{on_equiv, on_per, on_po, on_total, partial_equiv_from_equiv};
ghost use Rattle.std.specs.Int.{from_be_bytes, to_be_bytes, w32, w64};
ghost use Rattle.std.specs.Ordering.{nat_cmp};
ghost use Rattle.std.proofs.Common.{refl};
ghost use Rattle.std.proofs.lemmas.Bool.{ltb-true};

use crate::words::order;
use bytes::BytesMut;
use resolver_base::{Faithful, PublicKey, Span};
use std::alloc::AllocError;
use std::cmp::Ordering;
use std::fmt;
use std::fmt::{Debug, Formatter, Write};
use std::hash::{Hash, Hasher};

/// So many bytes as a name may have: below 2^32.
pub trait Short<const N: usize> {
    ghost short: { N < 2 ^ 32 };
}

impl Short<4> for [u8; 4] {
    ghost short = { ltb-true 4 (2 ^ 32) refl };
}

impl Short<8> for [u8; 8] {
    ghost short = { ltb-true 8 (2 ^ 32) refl };
}

impl Short<20> for [u8; 20] {
    ghost short = { ltb-true 20 (2 ^ 32) refl };
}

impl Short<32> for [u8; 32] {
    ghost short = { ltb-true 32 (2 ^ 32) refl };
}

impl Short<48> for [u8; 48] {
    ghost short = { ltb-true 48 (2 ^ 32) refl };
}

/// A name of so many bytes: of 20, of 32 or of 48, as a digest or a public key is, or of four or
/// eight, as a number is, the greatest byte first. Names are ordered as their bytes are, and so as
/// their numbers. They are compared eight bytes at a time, and hashed by one call of `write`.
#[derive(Clone, Copy)]
pub struct Name<const N: usize> {
    pub bytes: [u8; N],
    ghost sized: { length bytes ≡ N },
}

/// A number as a name of eight bytes.
pub type Height = Name<8>;

impl<const N: usize> From<[u8; N]> for Name<N> {
    ghost from_gives = { λ bytes name. name.bytes ≡ bytes };

    fn from(bytes: [u8; N]) -> Self {
        Name { bytes }
    }
}

impl<const N: usize> From<Name<N>> for [u8; N] {
    ghost from_gives = { λ name bytes. bytes ≡ name.bytes };

    fn from(name: Name<N>) -> Self {
        name.bytes
    }
}

impl From<u32> for Name<4> {
    ghost from_gives = { λ number name. name.bytes ≡ to_be_bytes w32 number };

    fn from(number: u32) -> Self {
        Name::from(number.to_be_bytes())
    }
}

impl From<Name<4>> for u32 {
    ghost from_gives = { λ name number. number ≡ from_be_bytes w32 name.bytes };

    fn from(name: Name<4>) -> Self {
        u32::from_be_bytes(name.bytes)
    }
}

impl From<u64> for Name<8> {
    ghost from_gives = { λ number name. name.bytes ≡ to_be_bytes w64 number };

    fn from(number: u64) -> Self {
        Name::from(number.to_be_bytes())
    }
}

impl From<Name<8>> for u64 {
    ghost from_gives = { λ name number. number ≡ from_be_bytes w64 name.bytes };

    fn from(name: Name<8>) -> Self {
        u64::from_be_bytes(name.bytes)
    }
}

impl<const N: usize> PartialEq for Name<N> {
    ghost eq = { λ name other. pointwise nat_eq name.bytes other.bytes };

    ghost laws = { on_per (λ name. name.bytes) (partial_equiv_from_equiv nat_list_eq_equiv) };

    fn eq(&self, other: &Self) -> bool {
        order(&self.bytes, &other.bytes).is_eq()
    }
}

impl<const N: usize> Eq for Name<N> {
    ghost laws = { on_equiv (λ name. name.bytes) nat_list_eq_equiv };
}

impl<const N: usize> PartialOrd for Name<N> {
    ghost partial_cmp = { λ name other. Some (slice_cmp nat_cmp name.bytes other.bytes) };

    ghost laws = { on_po (λ name. name.bytes) texts_po };

    fn partial_cmp(&self, other: &Self) -> Option<Ordering> {
        Some(self.cmp(other))
    }
}

impl<const N: usize> Ord for Name<N> {
    ghost use Rattle.std.proofs.Common.{rules};

    ghost cmp = { λ name other. slice_cmp nat_cmp name.bytes other.bytes };

    ghost total = { on_total (λ name. name.bytes) nat_list_cmp_total };

    ghost matches_partial_cmp = { Prim.search rules };

    ghost matches_eq = { λ name other. texts_ties name.bytes other.bytes };

    fn cmp(&self, other: &Self) -> Ordering {
        order(&self.bytes, &other.bytes)
    }
}

impl<const N: usize> Hash for Name<N> {
    ghost use Rattle.resolver_names.specs.Hashing.{alike};

    ghost hash_input = { λ name. name.bytes ∷ [] };

    ghost respects_eq = { λ name other equal. alike name.bytes other.bytes equal };

    fn hash<H: Hasher>(&self, state: &mut H) {
        state.write(&self.bytes);
    }
}

impl<const N: usize> Span for Name<N>
where
    [u8; N]: Short<N>,
{
    ghost use Rattle.std.proofs.Common.{rules};
    ghost use Rattle.resolver_names.specs.Naming.{own_bytes, read_from, read_is};

    ghost SIZE = { N };

    const SIZE: usize = N;

    ghost bytes_of = { λ name. name.bytes };

    ghost read_from = { read_from };

    fn write(&self, out: &mut BytesMut) -> Result<(), AllocError> {
        out.extend_from_slice(&self.bytes)
    }

    fn read(bytes: &[u8]) -> Option<Self> {
        match <[u8; N]>::try_from(bytes) {
            Ok(bytes) => Some(Name { bytes }),
            Err(_) => None,
        }
    }

    ghost small = { ⟦<[u8; N] as Short<N>>⟧.short };

    ghost sized = { λ name. name.sized };

    ghost read_again = { λ name. Prim.search (read_is name.bytes name.sized, rules) };

    ghost own_bytes = { own_bytes };
}

impl<const N: usize> PublicKey for Name<N> {}

impl<const N: usize> Faithful for Name<N> {
    ghost use Rattle.std.proofs.Common.{rules};

    ghost clones = { Prim.search rules };
}

/// The bytes in hexadecimal digits, as `Name(000000000000002a)`.
impl<const N: usize> Debug for Name<N> {
    fn fmt<W: Write>(&self, f: &mut Formatter<W>) -> fmt::Result {
        f.write_str("Name(")?;
        for byte in &self.bytes {
            write!(f, "{byte:02x}")?;
        }
        f.write_str(")")
    }
}
