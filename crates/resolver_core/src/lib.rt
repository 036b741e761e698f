//! The machine that fetches from peers, without a loop: it takes one input at a time and answers with effects. It
//! holds no clock, no socket and no thread.
//!
//! Who feeds `p2p::Core` by hand, in a program with a loop of its own, needs this crate alone; `resolver` has it with
//! its loop.
#![tactic(auto)]

pub use resolver_values::{
    Delivery, Fetch, Outcome, Resolution, base, delivery, ingress, names, node, subscribers,
};

pub mod p2p;
