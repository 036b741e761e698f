//! What happened at one place of a run.

use crate::at::At;

/// What happened.
#[derive(Clone, Copy, Debug, PartialEq, Eq)]
pub enum What {
    /// A response was handed to the consumer.
    Delivered,
    /// A peer's response was right, and the peer earned it.
    Credited,
    /// A peer's response was wrong, and the peer is to be blocked.
    Blocked,
    /// A key was put back, to be tried again.
    Retried,
    /// A key is wanted no more, since a response was right.
    Done,
    /// A key is wanted no more, though no response was right.
    Dropped,
    /// A peer was checked, and may not be sent to before some moment.
    Postponed,
    /// The machine refused an input.
    Refused,
}

/// Something that happened, and where.
#[derive(Clone, Copy, Debug, PartialEq, Eq)]
pub struct Mark {
    pub at: At,
    pub what: What,
}
