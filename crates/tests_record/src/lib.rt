//! Tests of `resolver_record`: the lines of each input and effect, and a recording of an engine in a thread, which
//! `resolver-replay` replays with the same effects.
//!
//! They stand in a crate of their own, so that the library isn't proved a second time with them.
#![tactic(auto)]

#[cfg(test)]
mod lines;
#[cfg(test)]
mod running;
#[cfg(test)]
mod support;
