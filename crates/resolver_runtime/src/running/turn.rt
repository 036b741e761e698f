//! What a loop does in a turn.

use crate::running::ending::Ending;

/// How many turns a loop takes in one poll before it lets its executor look again.
pub const TURNS: u32 = 128;

/// What a turn of a loop came to: at most one input is taken in it.
#[derive(Clone, Copy, Debug, PartialEq, Eq)]
pub enum Turn {
    /// There may be another input to take.
    Again,
    /// The loop is over.
    Over(Ending),
}
