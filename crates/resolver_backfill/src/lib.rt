//! Backfill above a resolver: which keys are wanted for one subscriber, and what to tell a resolver
//! when that changes.
//!
//! `Plan` knows the wanted keys. `want`, `done` and `done_below` answer what is to be fetched or dropped,
//! and `fill`, `settle` and `settle_below` have a resolver told by one call. A key that came is no more
//! than forgotten (`forget`), since the resolver has retired it by itself. After a restart `refill` asks
//! again for all that is wanted.
#![tactic(auto)]

pub mod laws;
mod plan;
mod telling;
mod without;

pub use plan::Plan;
pub use telling::{fill, refill, settle, settle_below};
pub use without::Without;
