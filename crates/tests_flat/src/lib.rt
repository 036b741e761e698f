//! Tests of the machines whose inputs and effects are bytes, through their public calls.
//!
//! They stand in a crate of their own, so that the libraries aren't proved a second time with them.
#![tactic(auto)]

#[cfg(test)]
mod actors;
#[cfg(test)]
mod cores;
#[cfg(test)]
mod misspelled;
#[cfg(test)]
mod opened;
#[cfg(test)]
mod pieces;
#[cfg(test)]
mod refusals;
#[cfg(test)]
mod short;
