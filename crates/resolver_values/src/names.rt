//! Names that are ready to be keys and peers: numbers, digests and public keys.

pub use resolver_names::{Height, Name, Short, laws};
