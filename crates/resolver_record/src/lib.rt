//! A recorder, which writes down what the loop of an engine or of an actor takes, as a script for `resolver-replay`.
//!
//! `of_engine` and `of_actor` make a `Recorder`, a watcher that is lent to the loop, and the one-shot through which its `Log`
//! comes once the loop has dropped it. A script has numbers for names, so the log numbers them, each kind in its own order, when it is
//! written: what is equal, and what comes before what, stays as it was, and so a replay prints the same effects.
#![tactic(auto)]

mod actor;
mod engine;
mod fetches;
mod leaving;
mod log;
mod piece;
mod recorder;
mod writing;

pub use log::{Log, State};
pub use recorder::{Recorder, Recording, of_actor, of_engine};
