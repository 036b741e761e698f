//! Tests of subscribers for `retain`, ready to be used.
#![tactic(auto)]

pub mod predicates;
