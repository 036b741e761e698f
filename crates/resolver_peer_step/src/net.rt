//! What a peer's message does to the parts.

ghost use Rattle.std.specs.Prelude.{◌≡◌, ◌<◌, ◌^◌, Err, false, is_some};
ghost use Rattle.resolver_base.specs.declared.fault.Fault.TheVariants.{OutOfMemory};
ghost use Rattle.resolver_model_peer.specs.Parties.{parties};
ghost use Rattle.resolver_model_peer.specs.Peer.{Machine, Net, does, receive};
ghost use Rattle.resolver_model_peer.specs.PeerSteps.{is_unasked, is_unasked_as};
ghost use Rattle.resolver_peer_step.specs.Going.{Goes, IsTied};
ghost use Rattle.resolver_peer_step.specs.Said.{codec, message_of};
ghost use Rattle.resolver_peer_step.specs.Tied.{Agrees};

use crate::parts::Parts;
use bytes::Bytes;
use resolver_base::{Fault, Span};
use resolver_metrics::metrics::Metrics;
use resolver_model_peer::effects::Effect;
use resolver_wire::wire::{Message, Payload};

impl<K: Span + Drop, P: Ord + Clone + Drop, S: Ord + Clone + Drop> Parts<K, P, S> {
    /// Takes what a peer sent. Bytes that are no message are passed over, and so is what answers no
    /// request of this peer; then it takes no memory.
    pub(crate) fn net(
        &mut self,
        now: u128,
        peer: P,
        bytes: Bytes,
        effects: &mut Vec<Effect<K, P, S>>,
        metrics: &mut Metrics,
    ) -> Result<(), Fault>
        requires closed { is_some self.old.fetcher.scan ≡ false }
        requires tied { IsTied (parties K.cmp S.cmp P.cmp) self.old }
        requires moment { now < 2 ^ 94 }
        requires keys_clone { (x y : K) → K.is_clone x y → y ≡ x }
        requires peers_clone { (x y : P) → P.is_clone x y → y ≡ x }
        requires subscribers_clone { (x y : S) → S.is_clone x y → y ≡ x }
        ensures goes { (m : Machine K S P) → Agrees (parties K.cmp S.cmp P.cmp) self.old m
            → Goes (parties K.cmp S.cmp P.cmp) (codec K.SIZE K.bytes_of K.read_from)
            (does (parties K.cmp S.cmp P.cmp) m now
            (Net peer (message_of (codec K.SIZE K.bytes_of K.read_from) bytes)))
            effects.old.items effects.new.items self.new result }
        ensures memory { result ≡ Err OutOfMemory
            → (m : Machine K S P) → Agrees (parties K.cmp S.cmp P.cmp) self.old m
            → is_unasked (parties K.cmp S.cmp P.cmp) m peer
            (message_of (codec K.SIZE K.bytes_of K.read_from) bytes) ≡ false }
    {
        match Message::decode(bytes) {
            Ok(message) => self.receive(now, peer, message.id, message.payload, effects, metrics),
            Err(_) => Ok(()),
        }
    }

    /// Takes a peer's message under this id.
    fn receive(
        &mut self,
        now: u128,
        peer: P,
        id: u64,
        payload: Payload<K>,
        effects: &mut Vec<Effect<K, P, S>>,
        metrics: &mut Metrics,
    ) -> Result<(), Fault>
        requires closed { is_some self.old.fetcher.scan ≡ false }
        requires tied { IsTied (parties K.cmp S.cmp P.cmp) self.old }
        requires moment { now < 2 ^ 94 }
        requires keys_clone { (x y : K) → K.is_clone x y → y ≡ x }
        requires peers_clone { (x y : P) → P.is_clone x y → y ≡ x }
        requires subscribers_clone { (x y : S) → S.is_clone x y → y ≡ x }
        ensures goes { (m : Machine K S P) → Agrees (parties K.cmp S.cmp P.cmp) self.old m
            → Goes (parties K.cmp S.cmp P.cmp) (codec K.SIZE K.bytes_of K.read_from)
            (receive (parties K.cmp S.cmp P.cmp) m now peer id payload)
            effects.old.items effects.new.items self.new result }
        ensures memory { result ≡ Err OutOfMemory
            → (m : Machine K S P) → Agrees (parties K.cmp S.cmp P.cmp) self.old m
            → is_unasked_as (parties K.cmp S.cmp P.cmp) m peer id payload ≡ false }
    {
        match payload {
            Payload::Request(key) => self.produce(now, peer, id, key, effects),
            Payload::Response(value) => self.respond(now, &peer, id, value, effects),
            Payload::Error => self.miss(now, &peer, id, metrics),
        }
    }
}
