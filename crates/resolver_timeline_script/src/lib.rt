//! Runs of scripts: what a script for `resolver-replay` does, noted while it is fed.
//!
//! `reading` feeds a script and answers its `Run`, which `resolver_timeline` draws.
#![tactic(auto)]

mod cause;
pub mod reading;
mod recorder;
mod states;
