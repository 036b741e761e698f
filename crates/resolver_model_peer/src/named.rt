//! What the machine and the engine's code have in common.

/// Where a response came from, how many nanoseconds it took and how many bytes it has.
#[derive(Clone, Debug, Drop)]
pub struct Source<P> {
    /// The peer that was asked.
    pub peer: P,
    /// From the request to the response, at most `DURATION_MAX`.
    pub elapsed: u128,
    /// Of the value alone.
    pub bytes: u64,
}

/// A peer's request, under the id that it gave.
#[derive(Debug, Drop)]
pub struct Serve<P> {
    /// The peer that asked.
    pub peer: P,
    /// Its own name for the request, which the reply carries.
    pub id: u64,
}
