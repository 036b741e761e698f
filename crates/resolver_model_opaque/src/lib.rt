//! The machine that fetches from one opaque source, as a definition: one map from keys to rows, and what each
//! input makes of them. It stands in `specs/Opaque.antt`; here is what holds of it (`laws`), its rows, and what
//! an actor does to its keys and to its effects.
//!
//! Each key waits, was asked for, or is judged: `Stages` has the keys with what is kept of each, by their
//! attempts and by their dues. `inputs` and `effects` are what an actor takes and tells.
#![tactic(auto)]

mod by_attempt;
pub mod effects;
pub mod handed;
pub mod inputs;
pub mod laws;
pub mod phase;
pub mod rows;
pub mod stages;

pub use phase::{Keys, Phase, Stage, listed_phase};
pub use stages::Stages;
