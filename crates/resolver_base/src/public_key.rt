//! Names of peers.

use std::hash::Hash;

/// A name of a peer: ordered, hashed and cloned. What goes to another thread asks for `Send` besides.
pub trait PublicKey: Ord + Hash + Clone {}
