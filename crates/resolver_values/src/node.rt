//! Predicates for `retain`, ready to be used.

pub use resolver_predicates::predicates;
