//! The demanded keys of the actor, by what was done last for them.

ghost use Rattle.std.specs.Prelude.{◌≡◌, ◌+◌, ◌<◌, ◌^◌, ℕ, [], Some, None, false, find, if◌then◌else◌, IfErr, IfOk, IfSome, IsSome, IsTrue, OnErr, OnOk, option_and_then, option_map};
ghost use Rattle.std.specs.BTreeMap.{is_at};
ghost use Rattle.std.specs.Map.{keys_of, lookup};
ghost use Rattle.std.specs.Option.{option_copied};
ghost use Rattle.std.specs.Ordering.{is_eq, nat_cmp};
ghost use Rattle.resolver_delivery.specs.Again.{IsRefusal, flagged, handed_again};
ghost use Rattle.resolver_delivery.specs.Entries.{changed, completed, delivered, inserted, is_tracked, number_of, refusal_at, removed, response_of, state_of, with_state};
ghost use Rattle.resolver_model_opaque.specs.declared.phase.Stage.TheVariants.{Asked};
ghost use Rattle.resolver_model_opaque.specs.OpaqueByPhase.{asked_key, first_due};
ghost use Rattle.resolver_model_opaque.specs.OpaqueOverdue.{by_due, due_of, first_key};
ghost use Rattle.resolver_model_opaque.specs.OpaqueStages.{IsAsked, attempt_in, resting, stands_under, unstaged, waits};
ghost use Rattle.resolver_priority_set.specs.Priorities.{without};
ghost use Rattle.resolver_base.specs.declared.fault.Fault.TheVariants.{OutOfMemory};

use crate::by_attempt::ByAttempt;
use crate::phase::{Keys, Phase, Stage, listed_phase};
use resolver_base::{Fault, Numbers};
use resolver_delivery::{Aborted, Completion, Entries, Entry, HandedOut};
use resolver_priority_set::PrioritySet;
use resolver_types::{Delivery, Outcome};
use std::alloc::Global;
use std::marker::Model;

/// What is kept of the demanded keys beside their subscribers, and the keys by their attempts.
///
/// Contracts see it as the entries and the next attempt. A call on one key or one attempt takes
/// time logarithmic in the number of keys.
#[derive(Drop)]
pub struct Stages<K: Ord, S, V> {
    entries: Keys<K, S, V>,
    /// Each key that was asked for last, by its attempt.
    asked: ByAttempt<K>,
    /// Each key that waits, by its due.
    retries: PrioritySet<K, u128>,
    attempts: Numbers,
}

impl<K: Ord, S, V> Model for Stages<K, S, V> {
    ghost use Rattle.resolver_model_opaque.specs.OpaqueStages.{AreDue, IsLed, Staged};

    ghost Value = { Staged K V S };

    ghost view = { λ a. record {
      entries = a.entries;
      next_attempt = a.attempts;
    } };

    ghost invariant = { λ a. IsLed K.cmp a.attempts a.asked a.entries.keys
        × AreDue K.cmp a.retries a.entries.keys };
}

impl<K: Ord + Drop, S: Drop, V: Drop> Stages<K, S, V> {
    /// No key. These are the attempts to come.
    pub fn new(alloc: Global, attempts: Numbers) -> Self
        ensures { result ≡ unstaged attempts }
    {
        Stages {
            entries: Entries::new(alloc),
            asked: ByAttempt::new(alloc),
            retries: PrioritySet::new(alloc),
            attempts,
        }
    }

    /// The keys with their entries, and the open deliveries.
    pub fn entries(&self) -> &Keys<K, S, V>
        ensures { result.now ≡ self.now.entries }
    {
        &self.entries
    }

    /// The key that is asked for by this attempt.
    pub fn asked_by(&self, attempt: u64) -> Option<&K>
        ensures { option_copied result ≡ asked_key attempt self.now.entries.keys }
    {
        let key = self.asked.get(&attempt)?;
        let entry = self.entries.get(key)?;
        match listed_phase(entry) {
            Phase::Asked { .. } => Some(key),
            Phase::Waiting { .. } => None,
            Phase::Judged { .. } => None,
        }
    }

    /// The earliest moment at which a waiting key is due.
    pub fn next_retry(&self) -> Option<u128>
        ensures value { result ≡ first_due self.now.entries.keys }
        ensures soon { IfSome result (λ due. due < 2 ^ 95) }
    {
        let (due, _) = self.retries.iter().next()?;
        Some(*due)
    }

    /// The key that is due first, if one is due: of two that are due together the smaller one.
    pub fn due_first(&self, now: u128) -> Option<&K>
        ensures { option_copied result ≡ first_key (by_due (due_of now self.now.entries.keys)) }
    {
        let (due, key) = self.retries.iter().next()?;
        if *due <= now { Some(key) } else { None }
    }

    /// A key that isn't there is asked for by the next attempt, which is answered. `Exhausted` is
    /// answered where none is left; then, and where memory is refused, nothing changes.
    pub fn ask(&mut self, key: K) -> Result<u64, Fault>
    where
        K: Clone,
        requires keys_clone { (x y : K) → K.is_clone x y → y ≡ x }
        requires absent { is_tracked K.cmp self.old.entries key ≡ false }
        ensures attempt { IfOk result (λ attempt. attempt ≡ self.old.next_attempt) }
        ensures ok { OnOk result (self.new ≡ record {
          entries = inserted K.cmp key (Asked self.old.next_attempt) self.old.entries;
          next_attempt = self.old.next_attempt + 1;
        }) }
        ensures err { OnErr result (self.new ≡ self.old) }
        ensures only { IfErr result (λ fault. fault ≡ refusal_at self.old.next_attempt) }
    {
        let attempt = lead(&mut self.asked, &self.attempts, &key)?;
        let asked = self.entries.insert_new(key, Stage::Asked { attempt });
        if let Err(fault) = asked {
            self.asked.remove(attempt);
            return Err(fault);
        }
        self.attempts.take();
        Ok(attempt)
    }

    /// A key that is there is asked for again by the next attempt, which is answered. `Exhausted`
    /// is answered where none is left; then, and where memory is refused, nothing changes.
    pub fn ask_again(&mut self, key: &K) -> Result<u64, Fault>
    where
        K: Clone,
        requires keys_clone { (x y : K) → K.is_clone x y → y ≡ x }
        requires own { find (λ k. is_eq (K.cmp key.now k)) (keys_of self.old.entries.keys)
            ≡ Some key.now }
        ensures attempt { IfOk result (λ attempt. attempt ≡ self.old.next_attempt) }
        ensures ok { OnOk result (self.new ≡ record {
          entries = changed K.cmp key.now (with_state (Asked self.old.next_attempt))
              self.old.entries;
          next_attempt = self.old.next_attempt + 1;
        }) }
        ensures err { OnErr result (self.new ≡ self.old) }
        ensures only { IfErr result (λ fault. fault ≡ refusal_at self.old.next_attempt) }
    {
        let attempt = lead(&mut self.asked, &self.attempts, key)?;
        leave(&mut self.asked, &self.entries, key);
        self.retries.remove(key);
        self.entries.set_state(key, Stage::Asked { attempt });
        self.attempts.take();
        Ok(attempt)
    }

    /// A key that was asked for last waits until this moment, and its response is forgotten. Where
    /// memory is refused, nothing changes.
    pub fn wait(&mut self, key: &K, due: u128) -> Result<(), Fault>
    where
        K: Clone,
        requires keys_clone { (x y : K) → K.is_clone x y → y ≡ x }
        requires asked { IsAsked (state_of K.cmp self.old.entries key.now) }
        requires idle { number_of K.cmp self.old.entries key.now ≡ None }
        requires soon { due < 2 ^ 95 }
        ensures ok { OnOk result (self.new ≡ record self.old {
          entries = changed K.cmp key.now (resting due) self.old.entries;
        }) }
        ensures err { OnErr result (self.new ≡ self.old) }
        ensures only { IfErr result (λ fault. fault ≡ OutOfMemory) }
    {
        let Some(attempt) = attempt_of(&self.entries, key) else {
            unreachable!()
        };
        let Some(held) = self.asked.get(&attempt) else {
            unreachable!()
        };
        self.retries.put(held.clone()?, due)?;
        leave(&mut self.asked, &self.entries, key);
        self.entries.discard_response(key);
        self.entries.set_state(key, Stage::Waiting { due });
        Ok(())
    }

    /// Drops a key. Its delivery in progress stays open, and is canceled.
    pub fn remove(&mut self, key: &K)
        ensures { self.new ≡ record self.old { entries = removed K.cmp key.now self.old.entries } }
    {
        let taken = self.entries.take(key);
        leave_taken(&mut self.asked, &mut self.retries, key, &taken);
    }

    /// Drops all keys, and closes all deliveries. Numbers and attempts go on.
    pub fn clear(&mut self, alloc: Global)
        ensures { self.new ≡ record self.old {
          entries = record self.old.entries { keys = []; going = [] };
        } }
    {
        self.asked.clear();
        self.retries = PrioritySet::new(alloc);
        self.entries.clear();
    }

    /// Begins a delivery of a new value, as the entries do.
    pub fn deliver(&mut self, delivery: Delivery<K, S>, value: V) -> Result<u64, Fault>
        requires tracked { IsTrue (is_tracked K.cmp self.old.entries delivery.key) }
        requires asked { IsAsked (state_of K.cmp self.old.entries delivery.key) }
        requires idle { number_of K.cmp self.old.entries delivery.key ≡ None }
        ensures number { IfOk result (λ number. number ≡ self.old.entries.next) }
        ensures ok { OnOk result (self.new ≡ record self.old {
          entries = delivered K.cmp delivery tt value self.old.entries;
        }) }
        ensures err { OnErr result (self.new ≡ self.old) }
        ensures only { IfErr result (λ fault. fault ≡ refusal_at self.old.entries.next) }
    {
        self.entries.deliver(delivery, (), value)
    }

    /// Begins a delivery of the cached value once more, accepted or as it was, as the entries do.
    pub fn hand_out_again(
        &mut self,
        delivery: Delivery<K, S>,
        accepted: bool,
    ) -> Result<HandedOut<K, S, V>, Fault>
    where
        K: Clone,
        S: Clone,
        V: Clone,
        requires keys_clone { (x y : K) → K.is_clone x y → y ≡ x }
        requires subscribers_clone { (x y : S) → S.is_clone x y → y ≡ x }
        requires values_clone { (x y : V) → V.is_clone x y → y ≡ x }
        requires cached { IsSome (response_of K.cmp self.old.entries delivery.key) }
        requires asked { IsAsked (state_of K.cmp self.old.entries delivery.key) }
        requires idle { number_of K.cmp self.old.entries delivery.key ≡ None }
        ensures handed { IfOk result (λ handed.
            IfSome (response_of K.cmp self.old.entries delivery.key) (λ r. handed ≡ record {
              number = self.old.entries.next;
              response = r.name;
              delivery = delivery;
              value = r.value;
            })) }
        ensures ok { OnOk result (self.new ≡ record self.old {
          entries = handed_again K.cmp delivery accepted self.old.entries;
        }) }
        ensures room { OnOk result (self.old.entries.next < 2 ^ 64) }
        ensures err { OnErr result (self.new ≡ record self.old {
          entries = flagged K.cmp accepted delivery.key self.old.entries;
        }) }
        ensures only { IfErr result (IsRefusal self.old.entries.next) }
    {
        self.entries.hand_out_again(delivery, accepted)
    }

    /// Closes a number, as the entries do.
    pub fn completed(
        &mut self,
        number: u64,
        verdict: Option<Outcome>,
    ) -> Result<Completion<K, S, ()>, Aborted>
        ensures answer { (result, self.new.entries)
            ≡ completed K.cmp self.old.entries number verdict }
        ensures asked { IfOk result (λ c. c.canceled ≡ false
            → IsAsked (state_of K.cmp self.new.entries c.delivery.key)) }
        ensures attempts { self.new.next_attempt ≡ self.old.next_attempt }
    {
        self.entries.completed(number, verdict)
    }
}

/// The next attempt leads to this key, and is answered. Where none is left, or memory is refused,
/// nothing changes.
fn lead<K: Clone + Drop>(
    asked: &mut ByAttempt<K>,
    attempts: &Numbers,
    key: &K,
) -> Result<u64, Fault>
    requires keys_clone { (x y : K) → K.is_clone x y → y ≡ x }
    ensures attempt { IfOk result (λ attempt. (attempt ≡ attempts.now) × (attempt < 2 ^ 64)) }
    ensures ok { OnOk result ((a : ℕ) → lookup (is_at (nat_cmp a)) asked.new
        ≡ if is_at (nat_cmp attempts.now) a then Some key.now
        else lookup (is_at (nat_cmp a)) asked.old) }
    ensures err { OnErr result (asked.new ≡ asked.old) }
    ensures only { IfErr result (λ fault. fault ≡ refusal_at attempts.now) }
{
    let attempt = attempts.peek().ok_or(Fault::Exhausted)?;
    let led = key.clone()?;
    asked.insert(attempt, led)?;
    Ok(attempt)
}

/// The attempt under which a key stands leads nowhere from now on.
fn leave<K: Ord + Drop, S: Drop, V: Drop>(
    asked: &mut ByAttempt<K>,
    entries: &Keys<K, S, V>,
    key: &K,
)
    ensures { (attempt : ℕ) → lookup (is_at (nat_cmp attempt)) asked.new
        ≡ if stands_under attempt (state_of K.cmp entries.now key.now) then None
        else lookup (is_at (nat_cmp attempt)) asked.old }
{
    if let Some(attempt) = attempt_of(entries, key) {
        asked.remove(attempt);
    }
}

/// The attempt under which a key stood leads nowhere from now on, or the key waits no more.
fn leave_taken<K: Ord + Drop, V>(
    asked: &mut ByAttempt<K>,
    waiting: &mut PrioritySet<K, u128>,
    key: &K,
    taken: &Option<Entry<V, (), Stage>>,
)
    ensures attempts { (attempt : ℕ) → lookup (is_at (nat_cmp attempt)) asked.new
        ≡ if stands_under attempt (option_map (λ e. e.state) taken.now) then None
        else lookup (is_at (nat_cmp attempt)) asked.old }
    ensures dues { waiting.new ≡ if waits (option_map (λ e. e.state) taken.now)
        then without K.cmp key.now waiting.old else waiting.old }
{
    let Some(entry) = taken else {
        return;
    };
    match entry.state {
        Stage::Asked { attempt } => asked.remove(attempt),
        Stage::Waiting { .. } => {
            waiting.remove(key);
        }
    }
}

/// The attempt under which a key stands.
fn attempt_of<K: Ord + Drop, S: Drop, V: Drop>(entries: &Keys<K, S, V>, key: &K) -> Option<u64>
    ensures { result ≡ option_and_then attempt_in (state_of K.cmp entries.now key.now) }
{
    match entries.state(key)? {
        Stage::Asked { attempt } => Some(*attempt),
        Stage::Waiting { .. } => None,
    }
}
