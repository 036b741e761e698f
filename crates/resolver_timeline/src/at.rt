//! Where in a run something is.

/// A place in a run: the moment, and how many commands there were before.
#[derive(Clone, Copy, Debug, PartialEq, Eq)]
pub struct At {
    /// In nanoseconds.
    pub moment: u128,
    pub line: u64,
}

impl At {
    /// Before the first command of a script.
    pub const START: At = At { moment: 0, line: 0 };
}
