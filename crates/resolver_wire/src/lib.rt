//! What a request to a peer and its answer are as bytes.
#![tactic(auto)]

pub mod wire;
