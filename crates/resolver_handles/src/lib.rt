//! The handles of resolvers: each call puts one message, which asks for keys or drops subscribers.
//!
//! `mailbox` has the handle of an engine, and `resolver` that of an actor over an opaque source.
//! `Asked` says how what is asked for stands in a message. `ask`, `ask_all` and `retain` put it.
#![tactic(auto)]

mod asked;
pub mod mailbox;
mod put;
pub mod resolver;

pub use asked::Asked;
pub use put::{ask, ask_all, retain};
