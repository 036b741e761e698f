//! What a node lends to its engine, ready to be used: a clock, a network, sets of peers and a
//! blocker.
#![tactic(auto)]

pub mod blocked;
pub mod inbox;
pub mod memory;
pub mod one_set;
pub mod system_clock;

pub use blocked::Blocked;
pub use inbox::{Inbox, Sets};
pub use memory::{Link, Weather, network};
pub use one_set::OneSet;
pub use system_clock::{SystemClock, Timer};
