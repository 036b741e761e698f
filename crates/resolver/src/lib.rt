//! Fetching data by key for many subscribers: a fetch persists until it is retired, a key has one
//! request at a time, and a response serves late subscribers too.
//!
//! The machines here take one input at a time and answer with effects; they hold no clock, no
//! socket and no thread. `opaque::Actor` fetches from one opaque source, and `p2p::Core` from peers.
//! `p2p::Engine` is such a core with all that its loop will poll.
#![tactic(auto)]

pub use resolver_actor::opaque::laws;
pub use resolver_core::{Delivery, Fetch, Outcome, Resolution, names, subscribers};
pub use resolver_mailbox::mailbox;
pub use resolver_runtime::{Consumer, Ending, Handle, Resolver, TargetedResolver};

pub mod backfill;
pub mod base;
pub mod delivery;
pub mod ingress;
pub mod node;
pub mod opaque;
pub mod p2p;
