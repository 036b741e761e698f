//! The parts of an engine that fetches from peers, and what an input does to them: a step of the peer
//! machine, unless it is refused.
//!
//! `parts::Parts` says who wants what, what is judged, and what is asked for. It takes inputs and answers
//! with effects; it has no clock, no network and no thread.
#![tactic(auto)]

mod counted;
mod failure;
mod fetch;
mod net;
pub mod parts;
mod response;
mod retain;
mod scan;
mod serve;
mod step;
mod targets;
mod verdict;
