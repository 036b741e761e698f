//! What an actor over a source is made of.

use std::num::NonZeroUsize;

/// What an actor over a source is made of, and how it asks.
#[derive(Drop)]
pub struct Config<F, C> {
    /// What is asked for values.
    pub fetcher: F,
    /// What judges the values that were fetched, each for the subscribers of its key.
    pub consumer: C,
    /// How many messages the mailbox has ready before it merges what comes.
    pub mailbox_size: NonZeroUsize,
    /// How long a key waits before it is asked for again, in nanoseconds, below 2^94: where the source has no value
    /// for it, or the value is judged partial, unresolved or wrong.
    pub fetch_retry_delay: u128,
}
