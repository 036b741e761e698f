//! Values under numbers that go up: what is kept by the ids of requests, and by the numbers of deliveries.
//!
//! `Sequence` is the map.
#![tactic(auto)]

pub mod sequence;

pub use sequence::Sequence;
