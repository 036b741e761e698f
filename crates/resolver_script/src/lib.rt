//! Scripts of inputs for a resolver's machine: what their lines say, what is fed for each, and what is
//! printed for each effect.
#![tactic(auto)]

pub mod endings;
pub mod kept;
pub mod machine;
pub mod opaque;
pub mod peer;
pub mod peers;
mod planning;
mod print;
pub mod replay;
pub mod script;
pub mod session;

pub use script::{Why, Wrong};
