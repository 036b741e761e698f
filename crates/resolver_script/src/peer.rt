//! Peers of a script.

ghost use Rattle.std.proofs.Common.{rules};

use resolver_base::{Faithful, PublicKey};
use std::fmt;

/// A peer, which goes by its number.
#[derive(Clone, Copy, PartialEq, Eq, PartialOrd, Ord, Hash)]
pub struct Peer(pub u8);

impl PublicKey for Peer {}

impl Faithful for Peer {
    ghost clones = { Prim.search rules };
}

impl fmt::Display for Peer {
    fn fmt<W: fmt::Write>(&self, f: &mut fmt::Formatter<W>) -> fmt::Result {
        let number = self.0;
        write!(f, "{number}")
    }
}
