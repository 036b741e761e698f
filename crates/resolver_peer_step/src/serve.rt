//! What peers ask for: their requests go to the producer, and what it has goes back to them.

ghost use Rattle.std.specs.Prelude.{◌≡◌, ◌==◌, Some, Err, false, is_none, IfErr};
ghost use Rattle.std.specs.Map.{lookup};
ghost use Rattle.resolver_base.specs.declared.fault.Fault.TheVariants.{OutOfMemory};
ghost use Rattle.resolver_model_peer.specs.Parties.{parties};
ghost use Rattle.resolver_model_peer.specs.Peer.{Machine, produce, served};
ghost use Rattle.resolver_peer_step.specs.Going.{Goes};
ghost use Rattle.resolver_peer_step.specs.Said.{codec};
ghost use Rattle.resolver_peer_step.specs.Tied.{Agrees};

use crate::counted::count_serve;
use crate::parts::Parts;
use bytes::Bytes;
use resolver_base::{Fault, Span};
use resolver_metrics::metrics::Metrics;
use resolver_model_peer::effects::Effect;
use resolver_model_peer::named::Serve;
use resolver_model_peer::serves::{OpenServe, reply};

impl<K: Span + Drop, P: Ord + Drop, S: Ord + Drop> Parts<K, P, S> {
    /// Hands a peer's request to the producer, under the next number. There is none once
    /// `u64::MAX` was given: then the answer is `Exhausted`.
    pub(crate) fn produce(
        &mut self,
        now: u128,
        peer: P,
        id: u64,
        key: K,
        effects: &mut Vec<Effect<K, P, S>>,
    ) -> Result<(), Fault>
        ensures { (m : Machine K S P) → Agrees (parties K.cmp S.cmp P.cmp) self.old m
            → Goes (parties K.cmp S.cmp P.cmp) (codec K.SIZE K.bytes_of K.read_from)
            (produce m peer id key) effects.old.items effects.new.items self.new result }
    {
        let serve = self.next_serve.peek().ok_or(Fault::Exhausted)?;
        let begun = OpenServe::new(Serve { peer, id }, now);
        self.serves.insert(serve, begun)?;
        effects.push(Effect::Produce { serve, key })?;
        self.next_serve.take();
        Ok(())
    }

    /// Sends a peer the bytes that it asked for, or word that there are none. A number under which
    /// nothing is open is passed over, and takes no memory.
    pub(crate) fn served(
        &mut self,
        now: u128,
        serve: u64,
        value: Option<Bytes>,
        effects: &mut Vec<Effect<K, P, S>>,
        metrics: &mut Metrics,
    ) -> Result<(), Fault>
        ensures goes { (m : Machine K S P) → Agrees (parties K.cmp S.cmp P.cmp) self.old m
            → Goes (parties K.cmp S.cmp P.cmp) (codec K.SIZE K.bytes_of K.read_from)
            (Some (served m serve value)) effects.old.items effects.new.items self.new result }
        ensures memory { result ≡ Err OutOfMemory → (m : Machine K S P)
            → Agrees (parties K.cmp S.cmp P.cmp) self.old m
            → is_none (lookup (λ n. serve == n) m.serves) ≡ false }
        ensures only { IfErr result (λ fault. fault ≡ OutOfMemory) }
    {
        let Some(begun) = self.serves.remove(&serve) else {
            return Ok(());
        };
        count_serve(metrics, &value, begun.elapsed_until(now));
        let Serve { peer, id } = begun.into_serve();
        let bytes = reply::<K>(self.alloc, id, value)?;
        effects.push(Effect::Reply {
            peer,
            bytes,
            priority: self.priority_responses,
        })?;
        Ok(())
    }
}
