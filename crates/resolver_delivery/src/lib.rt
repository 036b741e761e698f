//! Deliveries, by their numbers: which key is being judged, and what was said of it.
//!
//! `Entries` is the numbered map. `Completion` is what is known once a delivery is over, and `HandedOut`
//! what is handed out of a cached response once more.
#![tactic(auto)]

pub mod again;
pub mod completion;
pub mod entries;
pub mod entry;

pub use again::{HandedOut, copies};
pub use completion::{Aborted, Completion};
pub use entries::Entries;
pub use entry::{Entry, Open, Response};
