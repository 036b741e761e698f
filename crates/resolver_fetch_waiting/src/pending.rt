//! The keys that wait.

ghost use Rattle.std.specs.Prelude.{◌≡◌, ◌≤◌, ℕ, Bool, false, length, map, [], ◌∷◌, Some, IfErr, OnErr, OnOk, option_map};
ghost use Rattle.std.specs.List.Sorted.{IsStrictlySortedBy};
ghost use Rattle.std.specs.Ordering.{nat_cmp};
ghost use Rattle.resolver_base.specs.Answering.{AnswersBy};
ghost use Rattle.resolver_priority_set.specs.Priorities.{has_item, pair_order, priorities_of};
ghost use Rattle.resolver_base.specs.declared.fault.Fault.TheVariants.{OutOfMemory};
ghost use Rattle.resolver_fetch_waiting.specs.Pending.{IsBound, asleep, awake, due_behind, later_due, raised, with_kept, with_key, with_keys, without_key};
ghost use Rattle.resolver_fetch_scan.specs.Waiting.{wake_up};

use crate::queues::Queues;
use resolver_base::Fault;
use resolver_fetch_scan::place::Place;
use resolver_fetch_scan::trail::least;
use resolver_priority_set::PrioritySet;
use std::alloc::{AllocError, Global};
use std::marker::Model;

/// The keys that wait, in their order, and when a scan may be begun again.
///
/// A scan in vain leaves its moment here, in constant time; when a key becomes due after it is
/// looked up once the wake-up is asked for. That takes no memory: the look-ups begin at a bound that
/// is kept, so no key is cloned for them.
#[derive(Drop)]
pub struct Pending<K: Ord> {
    keys: Queues<K>,
    waiter: Waiter,
    /// The moment of the last scan in vain.
    moment: u128,
    /// A bound: that moment, with a key that no waiting key exceeds. In each queue the keys behind
    /// it are those that become due later.
    bound: Option<(u128, K)>,
}

/// When a scan may be begun again.
#[derive(Clone, Copy)]
pub enum Waiter {
    /// As soon as a key is due.
    Clear,
    /// Once a key becomes due after the last scan in vain, or at this moment.
    Later(Option<u128>),
}

impl<K: Ord> Model for Pending<K> {
    ghost use Rattle.std.specs.Prelude.{◌≡◌};
    ghost use Rattle.resolver_fetch_waiting.specs.Pending.{IsBound, Pending, waiter_seen};

    ghost Value = { Pending K };

    ghost view = { λ a. record { keys = a.keys; waiter = waiter_seen a.moment a.keys a.waiter } };

    ghost invariant = { λ a. IsBound K.cmp a.moment a.keys a.bound };
}

impl<K: Ord + Drop> Pending<K> {
    /// No key waits.
    pub fn new(alloc: Global) -> Self
        ensures { result ≡ with_keys [] }
    {
        Pending {
            keys: Queues::new(alloc),
            waiter: Waiter::Clear,
            moment: 0,
            bound: None,
        }
    }

    /// The keys with their places.
    pub fn keys(&self) -> &Queues<K>
        ensures { result.now ≡ self.now.keys }
    {
        &self.keys
    }

    /// When a scan may do something, if a key waits. It takes logarithmic time.
    pub fn deadline(&self) -> Option<u128>
        ensures { result ≡ wake_up (λ w. w.0.due) self.now.keys self.now.waiter }
    {
        let first = self.keys.first_due()?;
        match self.waiter {
            Waiter::Clear => Some(first),
            Waiter::Later(other) => {
                let due = next_due(&self.keys, &self.bound);
                let later = least(due, other).unwrap_or(u128::MAX);
                Some(first.max(later))
            }
        }
    }

    /// A scan may be begun as soon as a key is due.
    pub fn wake(&mut self)
        ensures { self.new ≡ awake self.old }
    {
        self.waiter = Waiter::Clear;
    }

    /// After a scan in vain of this moment, none is begun until a key becomes due, or until the
    /// other moment if there is one. It takes constant time.
    pub fn sleep(&mut self, moment: u128, other: Option<u128>)
        ensures { self.new ≡ asleep moment other self.old }
    {
        move_to(&mut self.bound, moment);
        self.moment = moment;
        self.waiter = Waiter::Later(other);
    }

    /// A key that waits, as one that is tried again or as a fresh one, waits no more.
    pub fn remove(&mut self, key: &K, is_retry: bool)
        requires waits { map (λ place. place.is_retry) (priorities_of K.cmp self.old.keys key.now)
            ≡ is_retry ∷ [] }
        ensures { self.new ≡ without_key K.cmp key.now self.old }
    {
        self.keys.remove(key, is_retry);
        self.waiter = Waiter::Clear;
    }

    /// Drops the keys that aren't kept. `keep` is pure.
    pub fn retain<F: Fn(&K) -> bool>(&mut self, keep: F)
        requires { F.IsAlwaysCallable keep }
        ensures kept { (test : K → Bool) → AnswersBy F.Fn keep test
            → self.new ≡ with_kept test self.old }
        ensures fewer { (key : K) → length (priorities_of K.cmp self.new.keys key)
            ≤ length (priorities_of K.cmp self.old.keys key) }
    {
        self.keys.retain(keep);
        self.waiter = Waiter::Clear;
    }

    /// Has a key wait at this place, where it doesn't wait yet. Where memory is refused, nothing
    /// changes.
    ///
    /// The key is cloned; clones are to equal their sources.
    #[inline]
    pub fn put(&mut self, key: K, place: Place) -> Result<(), Fault>
    where
        K: Clone,
        requires not_waiting { has_item K.cmp self.old.keys key ≡ false }
        requires keys_clone { (x y : K) → K.is_clone x y → y ≡ x }
        ensures ok { OnOk result (self.new ≡ with_key K.cmp (place, key) self.old) }
        ensures err { OnErr result (self.new ≡ self.old) }
        ensures only { IfErr result (λ fault. fault ≡ OutOfMemory) }
    {
        raise(&mut self.bound, self.moment, &key)?;
        self.keys.put(key, place)?;
        self.waiter = Waiter::Clear;
        Ok(())
    }
}

/// When the next key becomes due, by a bound.
fn next_due<K: Ord + Drop>(keys: &Queues<K>, bound: &Option<(u128, K)>) -> Option<u128>
    ensures { (moment : ℕ) → IsBound K.cmp moment keys.now bound.now
        → result ≡ later_due moment keys.now }
{
    let bound = bound.as_ref()?;
    least(
        due_behind(keys.fresh(), bound),
        due_behind(keys.retry(), bound),
    )
}

/// The due of the first key behind a bound.
fn due_behind<K: Ord + Drop>(queue: &PrioritySet<K, u128>, bound: &(u128, K)) -> Option<u128>
    ensures due { result ≡ due_behind K.cmp queue.now bound.now }
    ensures ordered { IsStrictlySortedBy (pair_order nat_cmp K.cmp) queue.now }
{
    let (due, _) = queue.range_after(bound).next()?;
    Some(*due)
}

/// Has a bound stand at another moment.
fn move_to<K>(bound: &mut Option<(u128, K)>, moment: u128)
    ensures { bound.new ≡ option_map (λ b. (moment, b.1)) bound.old }
{
    if let Some(bound) = bound {
        bound.0 = moment;
    }
}

/// Has no key exceed a bound of this moment, though this one waits too.
#[inline]
fn raise<K: Ord + Clone + Drop>(
    bound: &mut Option<(u128, K)>,
    moment: u128,
    key: &K,
) -> Result<(), AllocError>
    requires keys_clone { (x y : K) → K.is_clone x y → y ≡ x }
    ensures ok { OnOk result (bound.new ≡ Some (raised K.cmp moment key.now bound.old)) }
    ensures err { OnErr result (bound.new ≡ bound.old) }
{
    if let Some((_, top)) = bound {
        if key.cmp(top).is_le() {
            return Ok(());
        }
    }
    *bound = Some((moment, key.clone()?));
    Ok(())
}
