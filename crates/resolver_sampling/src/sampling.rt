//! Drawing places of a list of weights, exactly by count.
//!
//! A `WeightedIndex` is the list. A `Selection` draws places from it without replacement. Whoever
//! draws hands in the numbers: of those below the total, as many as its weight choose a place.
//! `Visits` counts what a draw costs.

ghost use Rattle.std.specs.Prelude.{◌≡◌};
ghost use Rattle.resolver_sampling.specs.Modes.{means_weighted};

pub mod selection;
pub mod weighted_index;

pub use crate::{Visits, visits};
pub use selection::Selection;
pub use weighted_index::WeightedIndex;

/// Whether a number below 4 and a key's retries means a weighted draw. The others mean a uniform
/// one, so the more retries a key has, the less the weights count.
pub fn is_weighted(number: u128) -> bool
    ensures { result ≡ means_weighted number }
{
    number < 4
}
