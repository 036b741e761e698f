//! What is handed out once more.

ghost use Rattle.std.specs.Prelude.{◌≡◌, ◌<◌, ◌^◌, ◌++◌, ◌∷◌, [], None, IfErr, IfSome, IsSome, OnOk};
ghost use Rattle.resolver_delivery.specs.Again.{IsRefusal, handed_again};
ghost use Rattle.resolver_delivery.specs.Entries.{number_of, response_of};
ghost use Rattle.resolver_model_peer.specs.declared.effects.Effect.TheVariants.{Deliver};

use crate::effects::Effect;
use crate::inflight::Inflight;
use resolver_base::Fault;
use resolver_types::Delivery;

/// Hands the cached response out once more, accepted or as it was.
pub fn hand_out_again<K: Ord + Clone + Drop, P: Clone + Drop, S: Clone + Drop>(
    entries: &mut Inflight<K, P, S>,
    delivery: Delivery<K, S>,
    accepted: bool,
    effects: &mut Vec<Effect<K, P, S>>,
) -> Result<(), Fault>
    requires cached { IsSome (response_of K.cmp entries.old delivery.key) }
    requires idle { number_of K.cmp entries.old delivery.key ≡ None }
    requires keys_clone { (x y : K) → K.is_clone x y → y ≡ x }
    requires peers_clone { (x y : P) → P.is_clone x y → y ≡ x }
    requires subscribers_clone { (x y : S) → S.is_clone x y → y ≡ x }
    ensures told { OnOk result (IfSome (response_of K.cmp entries.old delivery.key) (λ r.
        effects.new.items ≡ effects.old.items
        ++ Deliver entries.old.next r.name delivery r.value ∷ [])) }
    ensures ok { OnOk result
        (entries.new ≡ handed_again K.cmp delivery accepted entries.old) }
    ensures room { OnOk result (entries.old.next < 2 ^ 64) }
    ensures only { IfErr result (IsRefusal entries.old.next) }
{
    let handed = entries.hand_out_again(delivery, accepted)?;
    effects.push(Effect::Deliver {
        number: handed.number,
        response: handed.response,
        delivery: handed.delivery,
        value: handed.value,
    })?;
    Ok(())
}
