//! The actor over one opaque source, with inputs and effects as bytes: names of 8 or of 32 bytes,
//! subscribers and marks of eight, and values that are bytes.
//!
//! `FlatActor` is the actor, and keeps the effects of its last step.
#![tactic(auto)]

pub mod actor;
pub mod effects;
pub mod inputs;

pub use actor::FlatActor;
