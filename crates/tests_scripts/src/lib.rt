//! Tests of what takes no turns, through the public calls of `resolver` and `resolver_script`: of a peer engine's core
//! and of the engine with it, which take inputs, of the scripts that feed a core, of the laws, and of who waits for
//! which key.
//!
//! They stand in a crate of their own, so that the libraries aren't proved a second time with them.
#![tactic(auto)]

#[cfg(test)]
mod cores;
#[cfg(test)]
mod engine;
#[cfg(test)]
mod failed;
#[cfg(test)]
mod laws;
#[cfg(test)]
mod metrics;
#[cfg(test)]
mod replayed;
#[cfg(test)]
mod serves;
#[cfg(test)]
mod subscribers;
#[cfg(test)]
mod support;
