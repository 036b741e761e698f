//! Bytes that are compared eight at a time.

ghost use Rattle.std.specs.Prelude.{◌≡◌};
ghost use Rattle.std.specs.Cmp.Lexicographic.{slice_cmp};
ghost use Rattle.std.specs.Ordering.{nat_cmp};

use std::cmp::Ordering;

/// The order of two lists of bytes: the first bytes that differ tell, and else the lengths.
pub(crate) fn order(first: &[u8], second: &[u8]) -> Ordering
    ensures { result ≡ slice_cmp nat_cmp first.now second.now }
{
    let mut one = first;
    let mut other = second;
    while let Some((word, more)) = one.split_first_chunk::<8>() {
        let Some((other_word, other_more)) = other.split_first_chunk::<8>() else {
            break;
        };
        let order = u64::from_be_bytes(*word).cmp(&u64::from_be_bytes(*other_word));
        if order.is_ne() {
            return order;
        }
        one = more;
        other = other_more;
    }
    one.cmp(other)
}
