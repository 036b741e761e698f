//! Who wants which data.
//!
//! `subscribers::Tracker` is the demand: each key with the subscribers that wait for it.
#![tactic(auto)]

pub mod subscribers;
