//! What a resolver is asked for (`Fetch`), what it hands out (`Delivery`), and what is said of that
//! (`Outcome`), with the lists that are never empty that these hold, and tests of subscribers.
#![tactic(auto)]

pub mod delivery;
pub mod fetch;
mod joining;
pub mod laws;
pub mod non_empty_vec;
pub mod outcome;
pub mod predicate;

pub use delivery::Delivery;
pub use fetch::Fetch;
pub use non_empty_vec::NonEmptyVec;
pub use outcome::{Outcome, Resolution};
pub use predicate::Predicate;

/// A `NonEmptyVec` of these items in a row: `non_empty![in alloc; 1, 2, 3]?`. It takes what
/// `NonEmptyVec::from_array` takes, and answers what that does.
#[macro_export]
macro_rules! non_empty {
    (in $alloc:expr; $($item:expr),+ $(,)?) => {
        $crate::NonEmptyVec::from_array($alloc, [$($item),+])
    };
}
