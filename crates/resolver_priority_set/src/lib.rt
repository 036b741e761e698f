//! Items with their priorities, each item once, in order: what waits for a moment, and what is due
//! first.
//!
//! `PrioritySet` is the set.
#![tactic(auto)]

pub mod priority_set;

pub use priority_set::PrioritySet;
