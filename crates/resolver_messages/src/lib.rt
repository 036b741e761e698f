//! What is asked for on the way in: the fetches of a message, and batches of them.
//!
//! `FetchKey` is a fetch of one key for its subscribers, and `Message` what a resolver is told.
#![tactic(auto)]

pub mod batch;
mod copies;
mod kept;
pub mod laws;
pub mod message;
mod metadata;
pub mod places;

pub use kept::{Kept, Test};
pub use message::{FetchKey, Message};
pub use metadata::Metadata;
pub use resolver_types::Predicate;
