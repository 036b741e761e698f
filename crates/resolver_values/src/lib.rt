//! What is named by whoever feeds a machine by hand, be it `p2p::Core` or `opaque::Actor`. `resolver_core` and
//! `resolver_actor` lend it under the same paths.
#![tactic(auto)]

pub use resolver_demand::subscribers;
pub use resolver_types::{Delivery, Fetch, Outcome, Resolution};

pub mod base;
pub mod delivery;
pub mod ingress;
pub mod names;
pub mod node;
