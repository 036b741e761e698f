//! Which key is asked for next, of which peer, under which id, and when to look again (`fetcher`).
//!
//! What a request is made of, and who gets it, comes from `resolver_sampling`.
#![tactic(auto)]

pub mod fetcher;
