//! Names that are ready to be keys, and peers: of 4 and of 8 bytes, as heights are, and of 20, of 32
//! and of 48, as digests and public keys are.
#![tactic(auto)]

pub mod laws;
mod name;
mod words;

pub use name::{Height, Name, Short};
