//! A cached response that is handed out once more.

ghost use Rattle.std.specs.Prelude.{◌≡◌, ◌<◌, ◌^◌, None, IfErr, IfOk, IfSome, IsSome, OnErr, OnOk};
ghost use Rattle.resolver_delivery.specs.Again.{IsRefusal, flagged, handed_again};
ghost use Rattle.resolver_delivery.specs.Entries.{number_of, response_of};

use crate::entries::Entries;
use resolver_base::Fault;
use resolver_types::Delivery;
use std::alloc::AllocError;

/// What is handed out of a cached response.
#[derive(Debug, Drop)]
pub struct HandedOut<K, S, V> {
    /// The number of the delivery that has begun.
    pub number: u64,
    /// The response, by the number of the first delivery that carried it.
    pub response: u64,
    /// The key, and whom it is for.
    pub delivery: Delivery<K, S>,
    /// The data.
    pub value: V,
}

impl<
    K: Ord + Clone + Drop,
    S: Clone + Drop,
    V: Clone + Drop,
    Context: Clone + Drop,
    State: Drop,
> Entries<K, S, V, Context, State> {
    /// Begins a delivery of the cached value once more, and answers copies of what it hands out. The
    /// response is noted to be right before that, if it is accepted; so it is where this is refused,
    /// too, and nothing else has changed then. `Exhausted` is answered where no number is left.
    pub fn hand_out_again(
        &mut self,
        delivery: Delivery<K, S>,
        accepted: bool,
    ) -> Result<HandedOut<K, S, V>, Fault>
        requires keys_clone { (x y : K) → K.is_clone x y → y ≡ x }
        requires subscribers_clone { (x y : S) → S.is_clone x y → y ≡ x }
        requires values_clone { (x y : V) → V.is_clone x y → y ≡ x }
        requires contexts_clone { (x y : Context) → Context.is_clone x y → y ≡ x }
        requires cached { IsSome (response_of K.cmp self.old delivery.key) }
        requires idle { number_of K.cmp self.old delivery.key ≡ None }
        ensures handed { IfOk result (λ handed. IfSome (response_of K.cmp self.old delivery.key)
            (λ r. handed ≡ record {
              number = self.old.next;
              response = r.name;
              delivery = delivery;
              value = r.value;
            })) }
        ensures ok { OnOk result (self.new ≡ handed_again K.cmp delivery accepted self.old) }
        ensures room { OnOk result (self.old.next < 2 ^ 64) }
        ensures err { OnErr result (self.new ≡ flagged K.cmp accepted delivery.key self.old) }
        ensures only { IfErr result (IsRefusal self.old.next) }
    {
        self.note_accepted(&delivery.key, accepted);
        let Some(response) = self.response(&delivery.key) else {
            unreachable!()
        };
        let name = response.name;
        let (told, value) = copies(&delivery, &response.value)?;
        let number = self.redeliver(delivery)?;
        Ok(HandedOut {
            number,
            response: name,
            delivery: told,
            value,
        })
    }

    /// Notes that a key's cached response is right, if it is.
    fn note_accepted(&mut self, key: &K, accepted: bool)
        requires cached { IsSome (response_of K.cmp self.old key.now) }
        ensures { self.new ≡ flagged K.cmp accepted key.now self.old }
    {
        if accepted {
            self.accept_response(key);
        }
    }
}

/// A copy of a delivery, and one of its value.
pub fn copies<K: Clone + Drop, S: Clone + Drop, V: Clone>(
    delivery: &Delivery<K, S>,
    value: &V,
) -> Result<(Delivery<K, S>, V), AllocError>
    requires keys_clone { (x y : K) → K.is_clone x y → y ≡ x }
    requires subscribers_clone { (x y : S) → S.is_clone x y → y ≡ x }
    requires values_clone { (x y : V) → V.is_clone x y → y ≡ x }
    ensures { IfOk result (λ copies. copies ≡ (delivery.now, value.now)) }
{
    let delivery = delivery.clone()?;
    let value = value.clone()?;
    Ok((delivery, value))
}
