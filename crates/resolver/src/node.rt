//! What a node lends to its engine, ready to be used: a clock, a network, sets of peers, a
//! blocker, and predicates for `retain`.

pub use resolver_core::node::predicates;
pub use resolver_node::{Blocked, Inbox, Link, OneSet, Sets, SystemClock, Timer, Weather, network};
