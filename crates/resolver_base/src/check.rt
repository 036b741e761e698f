//! Whether a peer may be sent to.

/// Whether a peer may be sent to now.
#[derive(Clone, Copy, Debug, PartialEq, Eq)]
pub enum Check {
    /// It may.
    Clear,
    /// It may not before this moment.
    Until(u128),
}
