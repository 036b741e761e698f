//! Names, refusals, tests of subscribers, lists that are never empty, sets ordered by priority,
//! numbers that are given once, moments, and what the caller lends to a machine.

pub use resolver_base::{
    Check, Draws, Faithful, Fault, Feedback, Moment, Numbers, PublicKey, Seeded, Sender, Span,
    Unreliable,
};
pub use resolver_priority_set::PrioritySet;
pub use resolver_types::{NonEmptyVec, Predicate};
