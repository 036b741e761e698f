//! Deliveries, by their numbers.
//!
//! `Entries` is the numbered map. `Completion` is what is known once a delivery is over.

pub use resolver_delivery::{
    Aborted, Completion, Entries, Entry, Open, Response, completion, entries, entry,
};
