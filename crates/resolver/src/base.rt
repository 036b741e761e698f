//! Names, refusals, tests of subscribers, lists that are never empty, sets ordered by priority,
//! numbers that are given once, moments, and what the caller lends to a machine or to its loop.

pub use resolver_core::base::{
    Check, Draws, Faithful, Fault, Feedback, Moment, NonEmptyVec, Numbers, Predicate, PrioritySet,
    PublicKey, Seeded, Sender, Span, Unreliable,
};
pub use resolver_runtime::{Blocker, Clock, Provider, Receiver, Unwatched, Watcher};
