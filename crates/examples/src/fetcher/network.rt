//! A network in memory.

use bytes::Bytes;
use resolver::base::{Check, Feedback, PublicKey, Sender, Unreliable};

/// A name of a peer, from 0 to 3.
#[derive(Clone, Copy, PartialEq, Eq, PartialOrd, Ord, Hash)]
pub struct Peer(pub u8);

impl PublicKey for Peer {}

/// Takes every request but those to peer 3, and counts them by peer.
#[derive(Drop)]
pub struct Network {
    pub taken: [u64; 4],
}

impl Network {
    /// It has taken nothing.
    pub fn new() -> Self {
        Network { taken: [0; 4] }
    }
}

impl Sender for Network {
    type PublicKey = Peer;

    fn check(&mut self, _: &Peer) -> Check {
        Check::Clear
    }

    fn send(&mut self, peer: &Peer, _: Bytes, _: bool) -> Unreliable {
        if peer.0 == 3 {
            return Unreliable::Rejected;
        }
        if let Some(count) = self.taken.get_mut(usize::from(peer.0)) {
            *count = count.saturating_add(1);
        }
        Unreliable::Outcome(Feedback::Ok)
    }
}
