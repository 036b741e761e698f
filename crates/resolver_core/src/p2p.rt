//! Fetching from peers: the core, and the parts that it stands on.
//!
//! `Core` is the engine that fetches: it takes inputs one step after another, as the peer machine takes
//! them, and answers with effects.

mod counts;
pub mod laws;
pub mod rows;
mod stepping;

pub use counts::Phases;
pub use resolver_fetch::fetcher;
pub use resolver_metrics::metrics::{Durations, Metrics, Tally};
pub use resolver_model_peer::{effects, inputs, named};
pub use resolver_sampling::{sampling, score};
pub use resolver_wire::wire;
pub use resolver_wire::wire::{MAX_RESPONSE_OVERHEAD, REQUEST_OVERHEAD, max_message_size};
pub use stepping::Core;
