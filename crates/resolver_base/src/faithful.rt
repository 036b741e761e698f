//! Values whose clones equal them.

ghost use Rattle.std.specs.Prelude.{◌≡◌};
ghost use Rattle.std.proofs.Common.{rules};

use bytes::Bytes;

/// A type whose clones are the same as their sources.
pub trait Faithful: Clone {
    /// A clone is its source.
    ghost clones: { (x y : Self) → Self.is_clone x y → y ≡ x };
}

impl Faithful for u8 {
    ghost clones = { Prim.search rules };
}

impl Faithful for u16 {
    ghost clones = { Prim.search rules };
}

impl Faithful for u32 {
    ghost clones = { Prim.search rules };
}

impl Faithful for u64 {
    ghost clones = { Prim.search rules };
}

impl Faithful for () {
    ghost clones = { Prim.search rules };
}

impl Faithful for Bytes {
    ghost clones = { Prim.search rules };
}

impl<T: Faithful, const N: usize> Faithful for [T; N] {
    ghost use Rattle.std.proofs.lemmas.List.Elements.{same_from_all_zip};

    ghost clones = { λ xs ys same. same_from_all_zip T.is_clone xs ys same.whole T.clones };
}

impl<A: Faithful, B: Faithful> Faithful for (A, B) {
    ghost clones = { λ x y same. λ i. (A.clones x.0 y.0 same.0 i, B.clones x.1 y.1 same.1 i) };
}

impl<A: Faithful, B: Faithful, C: Faithful> Faithful for (A, B, C) {
    ghost clones = { λ x y same. λ i. (
      A.clones x.0 y.0 same.0 i,
      B.clones x.1 y.1 same.1 i,
      C.clones x.2 y.2 same.2 i,
    ) };
}
