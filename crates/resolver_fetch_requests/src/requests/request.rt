//! A request without an answer, and its id.

/// Names a request; its answer has the same. Ids go up by one, and 0 follows `u64::MAX`.
pub type ID = u64;

/// A request that was sent and has no answer so far. Moments are in nanoseconds.
#[derive(Clone, Debug, Drop)]
pub struct Request<K, P> {
    /// The key that is asked for.
    pub key: K,
    /// Who is asked.
    pub peer: P,
    /// When it was sent.
    pub start: u128,
    /// When its time is over.
    pub deadline: u128,
}
