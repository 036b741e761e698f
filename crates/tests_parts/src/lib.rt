//! Tests of what both machines share, from names to deliveries and the mailbox with its handles, of requests,
//! of the fetcher, and of what fetches from an opaque source, through public calls.
//!
//! They stand in a crate of their own, so that the libraries aren't proved a second time with them.
#![tactic(auto)]

#[cfg(test)]
mod actor;
#[cfg(test)]
mod completion;
#[cfg(test)]
mod consumer;
#[cfg(test)]
mod draws;
#[cfg(test)]
mod entries;
#[cfg(test)]
mod fault;
#[cfg(test)]
mod fetcher;
#[cfg(test)]
mod handle;
#[cfg(test)]
mod mail;
#[cfg(test)]
mod messages;
#[cfg(test)]
mod names;
#[cfg(test)]
mod non_empty_vec;
#[cfg(test)]
mod numbers;
#[cfg(test)]
mod opaque;
#[cfg(test)]
mod pending;
#[cfg(test)]
mod plan;
#[cfg(test)]
mod predicate;
#[cfg(test)]
mod priority_set;
#[cfg(test)]
mod producer;
#[cfg(test)]
mod public_key;
#[cfg(test)]
mod quiet;
#[cfg(test)]
mod requests;
#[cfg(test)]
mod retries;
#[cfg(test)]
mod sampling;
#[cfg(test)]
mod score;
#[cfg(test)]
mod sender;
#[cfg(test)]
mod sequence;
#[cfg(test)]
mod span;
#[cfg(test)]
mod subscribers;
#[cfg(test)]
mod support;
#[cfg(test)]
mod tracker;
#[cfg(test)]
mod traits;
#[cfg(test)]
mod types;
#[cfg(test)]
mod wire;
