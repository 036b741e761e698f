//! The keys that wait, in two queues.

ghost use Rattle.std.specs.Prelude.{◌≡◌, Bool, [], ◌∷◌, IfErr, OnErr, OnOk, false, filter, find, length, map, option_map, slice_get};
ghost use Rattle.std.specs.Fn.{FnReturnsAt};
ghost use Rattle.std.specs.List.Sorted.{IsStrictlySortedBy};
ghost use Rattle.resolver_base.specs.Answering.{AnswersBy};
ghost use Rattle.resolver_priority_set.specs.Priorities.{has_item, is_of, pair_order, priorities_of, put, retained, without};
ghost use Rattle.resolver_base.specs.declared.fault.Fault.TheVariants.{OutOfMemory};
ghost use Rattle.resolver_fetch_waiting.specs.Queues.{IsQueued, first_due, fresh_queue, retry_queue};
ghost use Rattle.resolver_fetch_scan.specs.Waiting.{place_order};
ghost use Rattle.resolver_fetch_scan.specs.declared.place.Place.{Place};

use resolver_base::Fault;
use resolver_fetch_scan::place::Place;
use resolver_priority_set::PrioritySet;
use std::alloc::Global;
use std::marker::Model;

/// The keys that wait: the fresh ones, and those that are tried again, in a queue each. No key
/// stands in both.
///
/// Contracts see them as one list of the keys with their places: the fresh keys by due and key,
/// then the others. A call on one key looks it up once in a queue, or in one and then in the other.
#[derive(Drop)]
pub struct Queues<K: Ord> {
    fresh: PrioritySet<K, u128>,
    retry: PrioritySet<K, u128>,
}

impl<K: Ord> Model for Queues<K> {
    ghost use Rattle.std.specs.Prelude.{List};
    ghost use Rattle.resolver_fetch_waiting.specs.Queues.{AreApart, joined};
    ghost use Rattle.resolver_fetch_scan.specs.declared.place.Place.{Place};

    ghost Value = { List (Place × K) };

    ghost view = { λ a. joined a.fresh a.retry };

    ghost invariant = { λ a. AreApart K.cmp a.fresh a.retry };
}

impl<K: Ord> Queues<K> {
    /// No key waits.
    pub fn new(alloc: Global) -> Self
        ensures { result ≡ [] }
    {
        Queues {
            fresh: PrioritySet::new(alloc),
            retry: PrioritySet::new(alloc),
        }
    }

    /// The fresh keys with their dues.
    pub fn fresh(&self) -> &PrioritySet<K, u128>
        ensures keys { result.now ≡ fresh_queue self.now }
        ensures whole { IsQueued self.now }
    {
        &self.fresh
    }

    /// The keys that are tried again, with their dues.
    pub fn retry(&self) -> &PrioritySet<K, u128>
        ensures keys { result.now ≡ retry_queue self.now }
        ensures whole { IsQueued self.now }
    {
        &self.retry
    }

    /// How many keys wait.
    pub fn len(&self) -> usize
        ensures { result ≡ length self.now }
    {
        self.fresh.len() + self.retry.len()
    }

    /// When the first key is due, if a key waits.
    pub fn first_due(&self) -> Option<u128>
        ensures { result ≡ first_due self.now }
    {
        if let Some(due) = first(&self.fresh) {
            return Some(due);
        }
        first(&self.retry)
    }

    /// Whether this key waits.
    pub fn contains(&self, key: &K) -> bool
        ensures { result ≡ has_item K.cmp self.now key.now }
    {
        self.fresh.contains(key) || self.retry.contains(key)
    }

    /// Where this key waits, if it waits.
    pub fn place(&self, key: &K) -> Option<Place>
        ensures { result ≡ option_map (λ p. p.0) (find (is_of K.cmp key.now) self.now) }
    {
        if let Some(due) = self.fresh.get(key).copied() {
            return Some(Place::fresh(due));
        }
        let due = self.retry.get(key).copied()?;
        Some(Place::retry(due))
    }

    /// The keys are in order. This does nothing.
    pub fn law(&self)
        ensures { IsStrictlySortedBy (pair_order place_order K.cmp) self.now }
    {
        let _fresh = self.fresh.len();
        let _retry = self.retry.len();
    }
}

impl<K: Ord + Drop> Queues<K> {
    /// Has a key wait at this place, where it doesn't wait yet. Where memory is refused, nothing
    /// changes.
    ///
    /// The key is cloned; clones are to equal their sources.
    #[inline]
    pub fn put(&mut self, key: K, place: Place) -> Result<(), Fault>
    where
        K: Clone,
        requires not_waiting { has_item K.cmp self.old key ≡ false }
        requires keys_clone { (x y : K) → K.is_clone x y → y ≡ x }
        ensures ok { OnOk result (self.new ≡ put place_order K.cmp self.old (place, key)) }
        ensures err { OnErr result (self.new ≡ self.old) }
        ensures only { IfErr result (λ fault. fault ≡ OutOfMemory) }
    {
        if place.is_retry {
            self.retry.put(key, place.due)
        } else {
            self.fresh.put(key, place.due)
        }
    }

    /// A key that waits, as one that is tried again or as a fresh one, waits no more.
    pub fn remove(&mut self, key: &K, is_retry: bool)
        requires waits { map (λ place. place.is_retry) (priorities_of K.cmp self.old key.now)
            ≡ is_retry ∷ [] }
        ensures { self.new ≡ without K.cmp key.now self.old }
    {
        if is_retry {
            self.retry.remove(key);
        } else {
            self.fresh.remove(key);
        }
    }

    /// Drops the keys that aren't kept. `keep` is pure.
    pub fn retain<F: Fn(&K) -> bool>(&mut self, keep: F)
        requires { F.IsAlwaysCallable keep }
        ensures kept { (test : K → Bool) → AnswersBy F.Fn keep test
            → self.new ≡ retained test self.old }
        ensures part { (test : Place × K → Bool) × (self.new ≡ filter test self.old) }
    {
        self.fresh.retain(
            |key| -> bool
                requires { F.IsAlwaysCallable keep }
                ensures { FnReturnsAt F.Fn keep key.now result }
            { keep(key) },
        );
        self.retry.retain(
            |key| -> bool
                requires { F.IsAlwaysCallable keep }
                ensures { FnReturnsAt F.Fn keep key.now result }
            { keep(key) },
        );
    }
}

/// When the first key of a queue is due, if there is any.
fn first<K: Ord>(queue: &PrioritySet<K, u128>) -> Option<u128>
    ensures { result ≡ option_map (λ p. p.0) (slice_get queue.now 0) }
{
    let (_, due) = queue.peek()?;
    Some(*due)
}
