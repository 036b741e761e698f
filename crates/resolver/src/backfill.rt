//! Backfill above a resolver: which keys are wanted for one subscriber, and what to tell a resolver
//! when that changes.

pub use resolver_backfill::{Plan, Without, fill, laws, refill, settle, settle_below};
