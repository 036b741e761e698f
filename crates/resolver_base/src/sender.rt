//! The way to the peers.

ghost use Rattle.std.specs.Prelude.{List, ℕ, Bool};
ghost use Rattle.resolver_base.specs.declared.check.Check.{Check};
ghost use Rattle.resolver_base.specs.declared.unreliable.Unreliable.{Unreliable};

use crate::{Check, PublicKey, Unreliable};
use bytes::Bytes;

/// What sends messages to peers. Nothing is promised of what becomes of them.
pub trait Sender {
    /// How peers are named.
    type PublicKey: PublicKey;

    /// What a sender may say of a peer, and what it is then: anything, unless it says more.
    ghost check_gives: { Self → Self.PublicKey → Check → Self → Type 0 } = { λ _ _ _ _. Unit {0} };

    /// What it may say of a message for a peer, with priority or without, and what it is then:
    /// anything, unless it says more.
    ghost send_gives: { Self → Self.PublicKey → List ℕ → Bool → Unreliable → Self → Type 0 } = { λ _ _ _ _ _ _. Unit {0} };

    /// Whether this peer may be sent to now, or from when on.
    fn check(&mut self, peer: &Self::PublicKey) -> Check
        ensures { check_gives self.old peer.now result self.new };

    /// Sends a message to this peer, before others where it has priority.
    fn send(&mut self, peer: &Self::PublicKey, message: Bytes, priority: bool) -> Unreliable
        ensures { send_gives self.old peer.now message priority result self.new };
}
