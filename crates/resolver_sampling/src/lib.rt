//! Who gets a request: by how fast each peer has been (`score`), and by draws by weight (`sampling`).
//!
//! A list of weights stands in a `Tree` of its sums, in which a drawn number finds its place in logarithmic
//! time. `Visits` counts what a call on it costs.
#![tactic(auto)]

pub mod laws;
pub mod sampling;
pub mod score;
mod stored;
pub mod tree;
pub mod visits;

pub use tree::{Tree, mark};
pub use visits::Visits;
