//! What is handed out, and what is ruled on it.

ghost use Rattle.std.specs.Prelude.{◌≡◌, ◌<◌, ◌^◌, ◌++◌, ◌∷◌, [], None, IfErr, IfSome, IsSome, OnOk};
ghost use Rattle.std.specs.Map.{keys_of};
ghost use Rattle.resolver_delivery.specs.Again.{IsRefusal, handed_again};
ghost use Rattle.resolver_delivery.specs.Entries.{is_accepted, number_of, response_of, state_of};
ghost use Rattle.resolver_model.specs.Verdicts.{ruling};
ghost use Rattle.resolver_model_opaque.specs.OpaqueTables.{AreCached};
ghost use Rattle.resolver_model_opaque.specs.OpaqueStages.{IsAsked};
ghost use Rattle.resolver_model_opaque.specs.declared.effects.Effect.TheVariants.{Deliver};

use crate::Stages;
use crate::effects::Effect;
use resolver_base::Fault;
use resolver_model::ruling::{Ruling, rule_on};
use resolver_types::{Delivery, Outcome};

/// Hands the cached response out once more, accepted or not.
pub fn hand_out_again<K: Ord + Clone + Drop, V: Clone + Drop, S: Clone + Drop>(
    stages: &mut Stages<K, S, V>,
    delivery: Delivery<K, S>,
    accepted: bool,
    effects: &mut Vec<Effect<K, V, S>>,
) -> Result<(), Fault>
    requires keys_clone { (x y : K) → K.is_clone x y → y ≡ x }
    requires values_clone { (x y : V) → V.is_clone x y → y ≡ x }
    requires subscribers_clone { (x y : S) → S.is_clone x y → y ≡ x }
    requires cached { IsSome (response_of K.cmp stages.old.entries delivery.key) }
    requires asked { IsAsked (state_of K.cmp stages.old.entries delivery.key) }
    requires free { number_of K.cmp stages.old.entries delivery.key ≡ None }
    ensures ok { OnOk result (stages.new.entries
        ≡ handed_again K.cmp delivery accepted stages.old.entries) }
    ensures attempts { stages.new.next_attempt ≡ stages.old.next_attempt }
    ensures told { OnOk result (IfSome (response_of K.cmp stages.old.entries delivery.key) (λ r.
        effects.new.items ≡ effects.old.items
        ++ Deliver stages.old.entries.next r.name delivery r.value ∷ [])) }
    ensures room { OnOk result (stages.old.entries.next < 2 ^ 64) }
    ensures same { keys_of stages.new.entries.keys ≡ keys_of stages.old.entries.keys }
    ensures cached { AreCached stages.old.entries.keys → AreCached stages.new.entries.keys }
    ensures only { IfErr result (λ fault. IsRefusal stages.old.entries.next fault) }
{
    let handed = stages.hand_out_again(delivery, accepted)?;
    effects.push(Effect::Deliver {
        number: handed.number,
        response: handed.response,
        delivery: handed.delivery,
        value: handed.value,
    })?;
    Ok(())
}

/// The ruling on a verdict for a key. Whether its response was accepted is looked up only where the
/// ruling depends on it.
pub fn ruling_of<K: Ord + Drop, V: Drop, S: Drop>(
    stages: &Stages<K, S, V>,
    outcome: Option<Outcome>,
    key: &K,
) -> Ruling
    ensures { result ≡ ruling (is_accepted K.cmp stages.now.entries key.now) outcome }
{
    match outcome {
        None | Some(Outcome::Invalid) => {
            rule_on(outcome, stages.entries().response_accepted(key))
        }
        Some(Outcome::Resolved(_)) | Some(Outcome::Unresolved) | Some(Outcome::Ignored) => {
            rule_on(outcome, false)
        }
    }
}
