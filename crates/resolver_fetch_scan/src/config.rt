//! How requests are made.

use std::num::NonZeroU32;

/// How requests are made. Durations are in nanoseconds.
#[derive(Clone, Debug, Drop)]
pub struct Config<P> {
    /// The local name, which is never asked, if there is one.
    pub me: Option<P>,
    /// How long a request may take: at least 1.
    pub fetch_timeout: u128,
    /// How long a key waits before it is tried again.
    pub retry_delay: u128,
    /// How many requests without an answer one peer may have at once; with none it may have any number.
    /// A peer that has as many is full: it is asked for no key until one of them is answered, runs out
    /// of time, or ends with its key.
    pub peer_limit: Option<NonZeroU32>,
    /// Whether requests are sent before other messages.
    pub priority_requests: bool,
}
