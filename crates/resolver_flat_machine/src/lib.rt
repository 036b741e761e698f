//! The machines with inputs and effects as bytes: names of 8 or of 32 bytes for keys and peers,
//! subscribers and marks of eight.
//!
//! `FlatCore` is the core of an engine that fetches from peers, and `Machine` is either of both: such
//! a core, or an actor over one opaque source, over names of either size.
#![tactic(auto)]

pub mod effects;
pub mod flat_core;
pub mod inputs;
pub mod machine;
pub mod opening;
pub mod settings;

pub use flat_core::FlatCore;
pub use machine::Machine;
