//! What a verdict does to the parts.

ghost use Rattle.std.specs.Prelude.{◌≡◌, ◌<◌, ◌^◌, ◌++◌, ◌∷◌, ◌==◌, [], Err, false, is_none, is_some, IfErr, OnOk};
ghost use Rattle.std.specs.Map.{lookup};
ghost use Rattle.resolver_priority_set.specs.Priorities.{has_item};
ghost use Rattle.resolver_base.specs.declared.fault.Fault.TheVariants.{OutOfMemory};
ghost use Rattle.resolver_fetch_requests.specs.Requests.{is_asked};
ghost use Rattle.resolver_delivery.specs.Entries.{removed};
ghost use Rattle.resolver_fetch_scan.specs.Fetcher as calls;
ghost use Rattle.resolver_fetch_scan.specs.Orders.{orders};
ghost use Rattle.resolver_model.specs.Verdicts.{ruling};
ghost use Rattle.resolver_model_peer.specs.declared.effects.Effect.TheVariants.{Block};
ghost use Rattle.resolver_model_peer.specs.Parties.{parties};
ghost use Rattle.resolver_model_peer.specs.Peer.{Machine, Open, ruled, verdict};
ghost use Rattle.resolver_peer_step.specs.Counted.{judged};
ghost use Rattle.resolver_peer_step.specs.Going.{Goes, IsTied};
ghost use Rattle.resolver_peer_step.specs.Ruled.{IsClosed, Names, earned, paid};
ghost use Rattle.resolver_peer_step.specs.Said.{Codec};
ghost use Rattle.resolver_peer_step.specs.Tied.{Agrees};

use crate::counted::count_retired;
use crate::parts::Parts;
use resolver_base::Fault;
use resolver_delivery::Completion;
use resolver_fetch::fetcher::Fetcher;
use resolver_metrics::metrics::{Metrics, raise};
use resolver_model::ruling::{Ruling, rule_on};
use resolver_model_peer::effects::Effect;
use resolver_model_peer::handed::hand_out_again;
use resolver_model_peer::inflight::Start;
use resolver_model_peer::named::Source;
use resolver_types::{Delivery, Outcome, Resolution};

impl<K: Ord + Clone + Drop, P: Ord + Clone + Drop, S: Ord + Clone + Drop> Parts<K, P, S> {
    /// Takes the consumer's outcome for a delivery, or none where it dropped the delivery.
    pub(crate) fn verdict(
        &mut self,
        now: u128,
        number: u64,
        outcome: Option<Outcome>,
        effects: &mut Vec<Effect<K, P, S>>,
        metrics: &mut Metrics,
    ) -> Result<(), Fault>
        requires closed { is_some self.old.fetcher.scan ≡ false }
        requires tied { IsTied (parties K.cmp S.cmp P.cmp) self.old }
        requires moment { now < 2 ^ 94 }
        requires keys_clone { (x y : K) → K.is_clone x y → y ≡ x }
        requires peers_clone { (x y : P) → P.is_clone x y → y ≡ x }
        requires subscribers_clone { (x y : S) → S.is_clone x y → y ≡ x }
        ensures goes { (c : Codec K) (m : Machine K S P)
            → Agrees (parties K.cmp S.cmp P.cmp) self.old m
            → Goes (parties K.cmp S.cmp P.cmp) c
            (verdict (parties K.cmp S.cmp P.cmp) m now number outcome)
            effects.old.items effects.new.items self.new result }
        ensures memory { result ≡ Err OutOfMemory
            → (m : Machine K S P) → Agrees (parties K.cmp S.cmp P.cmp) self.old m
            → is_none (lookup (λ n. number == n) m.deliveries) ≡ false }
    {
        let Ok(completion) = self.entries.completed(number, outcome) else {
            return Ok(());
        };
        let Completion {
            response,
            context,
            delivery,
            canceled,
            previously_accepted,
            ..
        } = completion;
        account(
            &mut self.fetcher,
            response,
            context,
            previously_accepted,
            outcome,
            effects,
            metrics,
        )?;
        if canceled {
            return Ok(());
        }
        self.rule(
            now,
            delivery,
            previously_accepted,
            outcome,
            effects,
            metrics,
        )
    }

    /// Does what is ruled on a delivery that is closed.
    fn rule(
        &mut self,
        now: u128,
        delivery: Delivery<K, S>,
        accepted: bool,
        outcome: Option<Outcome>,
        effects: &mut Vec<Effect<K, P, S>>,
        metrics: &mut Metrics,
    ) -> Result<(), Fault>
        requires closed { is_some self.old.fetcher.scan ≡ false }
        requires tied { (m : Machine K S P) × (h : Open K S P) × Names h delivery accepted
            × IsClosed (parties K.cmp S.cmp P.cmp) self.old m h }
        requires moment { now < 2 ^ 94 }
        requires keys_clone { (x y : K) → K.is_clone x y → y ≡ x }
        requires peers_clone { (x y : P) → P.is_clone x y → y ≡ x }
        requires subscribers_clone { (x y : S) → S.is_clone x y → y ≡ x }
        ensures { (c : Codec K) (m : Machine K S P) (h : Open K S P)
            → Names h delivery accepted
            → (closed : IsClosed (parties K.cmp S.cmp P.cmp) self.old m h)
            → Goes (parties K.cmp S.cmp P.cmp) c
            (ruled (parties K.cmp S.cmp P.cmp) m now h closed.row closed.judging.value
            (ruling accepted outcome))
            effects.old.items effects.new.items self.new result }
    {
        let Delivery { key, subscribers } = delivery;
        match rule_on(outcome, accepted) {
            Ruling::Serve { accepted } => {
                let rest = self.demand.remove_delivered(&key, &subscribers)?;
                let Some(subscribers) = rest else {
                    self.retire(now, &key, accepted, outcome, metrics);
                    return Ok(());
                };
                self.count_complete(now, &key, outcome, metrics);
                let delivery = Delivery { key, subscribers };
                hand_out_again(&mut self.entries, delivery, accepted, effects)
            }
            Ruling::Retry => {
                self.entries.discard_response(&key);
                self.fetcher.add_retry(key, now)
            }
            Ruling::Retire => {
                self.demand.remove(&key);
                self.retire(now, &key, accepted, outcome, metrics);
                Ok(())
            }
        }
    }

    /// Measures the time from the first fetch of a key that stays to its first `Complete`, and notes that it was.
    fn count_complete(
        &mut self,
        now: u128,
        key: &K,
        outcome: Option<Outcome>,
        metrics: &mut Metrics,
    )
        ensures { self.new ≡ self.old }
    {
        let Some(start) = self.entries.state(key) else {
            return;
        };
        if measure_complete(start, now, outcome, metrics) {
            let counted = start.counted();
            self.entries.set_state(key, counted);
        }
    }

    /// Nothing is done any more for a key that nobody wants, and it is counted.
    fn retire(
        &mut self,
        now: u128,
        key: &K,
        accepted: bool,
        outcome: Option<Outcome>,
        metrics: &mut Metrics,
    )
        requires closed { is_some self.old.fetcher.scan ≡ false }
        requires not_waiting { has_item K.cmp self.old.fetcher.waiting key.now ≡ false }
        requires not_asked { is_asked K.cmp self.old.fetcher.asked key.now ≡ false }
        ensures { self.new ≡ record self.old {
          entries = removed K.cmp key.now self.old.entries;
          fetcher = calls.clear (orders K.cmp P.cmp) key.now self.old.fetcher;
        } }
    {
        count_retired(&mut metrics.fetch, accepted, outcome);
        self.fetcher.clear(key);
        if let Some(start) = self.entries.remove_state(key) {
            measure_complete(&start, now, outcome, metrics);
        }
    }
}

/// Measures the time from a key's first fetch to its first `Complete`, and answers whether this outcome is that one.
fn measure_complete(
    start: &Start,
    now: u128,
    outcome: Option<Outcome>,
    metrics: &mut Metrics,
) -> bool
    ensures { metrics.new.fetch ≡ metrics.old.fetch }
{
    if outcome != Some(Outcome::Resolved(Resolution::Complete)) {
        return false;
    }
    let Some(elapsed) = start.uncounted_until(now) else {
        return false;
    };
    metrics.fetch_duration.measure(elapsed);
    true
}

/// Says what a response earned its peer, if it was not said before: a credit, or that it is to be
/// blocked. A response that was accepted and turns out wrong is a failure all the same.
fn account<K: Ord + Drop, P: Ord + Drop, S: Drop>(
    fetcher: &mut Fetcher<K, P>,
    response: u64,
    source: Source<P>,
    accepted: bool,
    outcome: Option<Outcome>,
    effects: &mut Vec<Effect<K, P, S>>,
    metrics: &mut Metrics,
) -> Result<(), Fault>
    requires closed { is_some fetcher.old.scan ≡ false }
    ensures told { OnOk result (effects.new.items
        ≡ effects.old.items ++ earned response source accepted outcome) }
    ensures ok { OnOk result (fetcher.new
        ≡ paid (orders K.cmp P.cmp) source accepted outcome fetcher.old) }
    ensures counted { OnOk result (metrics.new.fetch
        ≡ judged accepted outcome metrics.old.fetch) }
    ensures only { IfErr result (λ fault. fault ≡ OutOfMemory) }
{
    if accepted {
        if let Some(Outcome::Invalid) = outcome {
            raise(&mut metrics.fetch.failure, 1);
        }
        return Ok(());
    }
    let Some(outcome) = outcome else {
        return Ok(());
    };
    // In parts, since it would be copied whole at each call.
    let Source {
        peer,
        elapsed,
        bytes,
    } = source;
    match outcome {
        Outcome::Resolved(_) => {
            raise(&mut metrics.fetch.success, 1);
            metrics.resolves.measure(elapsed);
            fetcher.record_response(&peer, elapsed, bytes);
            let source = Source {
                peer,
                elapsed,
                bytes,
            };
            effects.push(Effect::Credit { response, source })?;
            Ok(())
        }
        Outcome::Invalid => {
            raise(&mut metrics.fetch.failure, 1);
            complain(response, peer, effects)
        }
        Outcome::Unresolved => {
            raise(&mut metrics.fetch.ambiguous, 1);
            Ok(())
        }
        Outcome::Ignored => Ok(()),
    }
}

/// Tells that the sender of this response is to be blocked.
fn complain<K: Drop, P: Drop, S: Drop>(
    response: u64,
    peer: P,
    effects: &mut Vec<Effect<K, P, S>>,
) -> Result<(), Fault>
    ensures told { OnOk result (effects.new.items
        ≡ effects.old.items ++ Block response peer ∷ []) }
    ensures only { IfErr result (λ fault. fault ≡ OutOfMemory) }
{
    effects.push(Effect::Block { response, peer })?;
    Ok(())
}
