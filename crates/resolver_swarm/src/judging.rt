//! What judges a node: a model of its core, by the definitions of the peer machine and not by the core's code.

pub mod complaint;
pub mod judge;
pub mod requests;
pub mod said;
