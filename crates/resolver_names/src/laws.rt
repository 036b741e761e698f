//! What holds of all numbers as names.

ghost use Rattle.std.specs.Prelude.{◌≡◌};
ghost use Rattle.std.specs.Cmp.Lexicographic.{slice_cmp};
ghost use Rattle.std.specs.Int.{from_be_bytes, to_be_bytes, w32, w64};
ghost use Rattle.std.specs.Ordering.{nat_cmp};

/// A name of four bytes gives back the number that it was made from, and two such names are ordered
/// as their numbers are.
pub fn four_bytes_are_a_number(one: u32, other: u32)
    ensures back { from_be_bytes w32 (to_be_bytes w32 one) ≡ one }
    ensures order { slice_cmp nat_cmp (to_be_bytes w32 one) (to_be_bytes w32 other) ≡ nat_cmp one other }
{}

/// A name of eight bytes gives back the number that it was made from, and two such names are ordered
/// as their numbers are.
pub fn eight_bytes_are_a_number(one: u64, other: u64)
    ensures back { from_be_bytes w64 (to_be_bytes w64 one) ≡ one }
    ensures order { slice_cmp nat_cmp (to_be_bytes w64 one) (to_be_bytes w64 other) ≡ nat_cmp one other }
{}
