//! What an engine counts: how often each of four ends came, and how long it took.
#![tactic(auto)]

pub mod metrics;
