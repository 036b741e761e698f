//! What a peer's response does to the parts.

ghost use Rattle.std.specs.Prelude.{◌≡◌, ◌<◌, ◌^◌, ◌++◌, ◌∷◌, [], None, Err, false, is_none, is_some, IfErr, IsTrue, OnOk};
ghost use Rattle.resolver_base.specs.declared.fault.Fault.TheVariants.{OutOfMemory};
ghost use Rattle.std.specs.Option.{option_and_then};
ghost use Rattle.resolver_delivery.specs.Entries.{delivered, is_tracked, number_of};
ghost use Rattle.resolver_model_peer.specs.Parties.{parties};
ghost use Rattle.resolver_model_peer.specs.Peer.{Machine, answered, responds, row_of};
ghost use Rattle.resolver_delivery.specs.Again.{IsRefusal};
ghost use Rattle.resolver_peer_step.specs.Going.{Goes, IsTied};
ghost use Rattle.resolver_peer_step.specs.Said.{Codec};
ghost use Rattle.resolver_peer_step.specs.Tied.{Agrees};
ghost use Rattle.resolver_model_peer.specs.declared.effects.Effect.TheVariants.{Deliver};

use crate::parts::Parts;
use bytes::Bytes;
use resolver_base::Fault;
use resolver_delivery::copies;
use resolver_fetch::fetcher::Request;
use resolver_model_peer::effects::Effect;
use resolver_model_peer::inflight::Inflight;
use resolver_model_peer::named::Source;
use resolver_sampling::score::elapsed_since;
use resolver_types::Delivery;

impl<K: Ord + Clone + Drop, P: Ord + Clone + Drop, S: Ord + Clone + Drop> Parts<K, P, S> {
    /// A peer's response: where it answers a request, its value is handed out.
    pub(crate) fn respond(
        &mut self,
        now: u128,
        peer: &P,
        id: u64,
        value: Bytes,
        effects: &mut Vec<Effect<K, P, S>>,
    ) -> Result<(), Fault>
        requires closed { is_some self.old.fetcher.scan ≡ false }
        requires tied { IsTied (parties K.cmp S.cmp P.cmp) self.old }
        requires moment { now < 2 ^ 94 }
        requires keys_clone { (x y : K) → K.is_clone x y → y ≡ x }
        requires peers_clone { (x y : P) → P.is_clone x y → y ≡ x }
        requires subscribers_clone { (x y : S) → S.is_clone x y → y ≡ x }
        ensures goes { (c : Codec K) (m : Machine K S P)
            → Agrees (parties K.cmp S.cmp P.cmp) self.old m
            → Goes (parties K.cmp S.cmp P.cmp) c
            (responds (parties K.cmp S.cmp P.cmp) m now value
            (answered (parties K.cmp S.cmp P.cmp) m peer.now id)
            (option_and_then (λ r. row_of (parties K.cmp S.cmp P.cmp) m r.key)
            (answered (parties K.cmp S.cmp P.cmp) m peer.now id)))
            effects.old.items effects.new.items self.new result }
        ensures memory { result ≡ Err OutOfMemory
            → (m : Machine K S P) → Agrees (parties K.cmp S.cmp P.cmp) self.old m
            → is_none (answered (parties K.cmp S.cmp P.cmp) m peer.now id) ≡ false }
    {
        let Some(request) = self.fetcher.pop_request(id, peer) else {
            return Ok(());
        };
        let Request {
            key,
            peer,
            start,
            ..
        } = request;
        let Some(subscribers) = self.demand.pending(&key)? else {
            unreachable!()
        };
        let source = Source {
            peer,
            elapsed: elapsed_since(start, now),
            bytes: value.len() as u64,
        };
        hand_out(
            &mut self.entries,
            Delivery { key, subscribers },
            source,
            value,
            effects,
        )
    }
}

/// Hands a new value out.
fn hand_out<K: Ord + Clone + Drop, P: Clone + Drop, S: Clone + Drop>(
    entries: &mut Inflight<K, P, S>,
    delivery: Delivery<K, S>,
    source: Source<P>,
    value: Bytes,
    effects: &mut Vec<Effect<K, P, S>>,
) -> Result<(), Fault>
    requires tracked { IsTrue (is_tracked K.cmp entries.old delivery.key) }
    requires idle { number_of K.cmp entries.old delivery.key ≡ None }
    requires keys_clone { (x y : K) → K.is_clone x y → y ≡ x }
    requires peers_clone { (x y : P) → P.is_clone x y → y ≡ x }
    requires subscribers_clone { (x y : S) → S.is_clone x y → y ≡ x }
    ensures told { OnOk result (effects.new.items ≡ effects.old.items
        ++ Deliver entries.old.next entries.old.next delivery value ∷ []) }
    ensures ok { OnOk result
        (entries.new ≡ delivered K.cmp delivery source value entries.old) }
    ensures room { OnOk result (entries.old.next < 2 ^ 64) }
    ensures only { IfErr result (IsRefusal entries.old.next) }
{
    let (told, copy) = copies(&delivery, &value)?;
    let number = entries.deliver(delivery, source, copy)?;
    effects.push(Effect::Deliver {
        number,
        response: number,
        delivery: told,
        value,
    })?;
    Ok(())
}
