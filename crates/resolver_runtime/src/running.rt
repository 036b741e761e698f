//! What both loops are made of.

pub mod awaited;
pub mod deadline;
pub mod ending;
pub mod handle;
pub mod judging;
pub mod peers;
pub mod serving;
pub mod turn;
