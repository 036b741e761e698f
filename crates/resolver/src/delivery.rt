//! Deliveries, by their numbers, and the consumer that judges them.
//!
//! `Entries` is the numbered map, and `Tracker` the same with a consumer. `Completion` is what is known
//! once a delivery is over.

pub use resolver_core::delivery::{
    Aborted, Completion, Entries, Entry, Open, Response, completion, entries, entry,
};
pub use resolver_runtime::Tracker;
