//! The requests to peers that have no answer so far.
#![tactic(auto)]

pub mod load;
pub mod requests;
