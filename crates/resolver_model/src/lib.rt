//! What the machines have in common, whether they fetch from an opaque source or from peers: what a
//! verdict means (`ruling`), whether a machine goes on (`status`), what runs of steps are, and the demand
//! of a run by its inputs alone.
#![tactic(auto)]

pub mod ruling;
pub mod status;
