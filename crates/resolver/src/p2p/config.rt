//! What an engine is made of.

use std::num::{NonZeroU32, NonZeroUsize};

/// What an engine is made of, and how it asks. Durations are in nanoseconds, below 2^94.
#[derive(Drop)]
pub struct Config<P, D, B, C, O> {
    /// What gives the sets of peers, each with its index: a set whose index is no greater than the last is passed over.
    pub peer_provider: D,
    /// What blocks peers, and says which are blocked. A peer that is to be blocked is asked on until it is.
    pub blocker: B,
    /// What judges the values that were fetched, each for the subscribers of its key.
    pub consumer: C,
    /// What has the data that peers ask for.
    pub producer: O,
    /// How many messages the mailbox has ready before it merges what comes.
    pub mailbox_size: NonZeroUsize,
    /// The local name, which is never asked, if there is one: sets of peers may have it.
    pub me: Option<P>,
    /// How long a request may take, in nanoseconds: at least 1. Its key is then tried again after the delay.
    pub fetch_timeout: u128,
    /// How long a key waits before it is tried again, in nanoseconds: after a request without an answer, word that
    /// the data is missing, and a value that is partial, unresolved or wrong.
    pub fetch_retry_delay: u128,
    /// How many requests without an answer one peer may have at once; with none it may have any number.
    /// A peer that has as many is full: it is asked for no key until one of them is answered, runs out
    /// of time, or ends with its key.
    pub peer_limit: Option<NonZeroU32>,
    /// Whether requests are sent before other messages.
    pub priority_requests: bool,
    /// Whether replies are sent before other messages.
    pub priority_responses: bool,
}
