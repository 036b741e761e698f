//! A node: a core, and whoever feeds it by hand.

pub mod doing;
pub mod node;
