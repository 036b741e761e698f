//! Loops of a caller's own over the two machines, with what holds of them: `source` feeds an actor that
//! fetches from an opaque source, and `peers` an engine's core.
//!
//! Each takes two lists of inputs one at a time and a third in one call, and says of all inputs that were
//! taken what the laws of `resolver` say of one run.
#![tactic(auto)]

pub mod peers;
pub mod source;
