//! Fetching from one opaque source, which gives a value for a key or none.
//!
//! `Actor` is the machine: it takes inputs with their moments and answers with effects.

pub use resolver_opaque_actor::{Actor, Effect, Event, Input, Phase, Row, laws};
