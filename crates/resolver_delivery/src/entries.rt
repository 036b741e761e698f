//! The numbered map: tracked keys, and open deliveries by their numbers.

ghost use Rattle.std.specs.Prelude.{◌≡◌, Bool, ◌+◌, ◌^◌, ◌<◌, ◌≤◌, ◌↔◌, [], not, length, true, false, None, Some, IsTrue, IsSome, IfOk, OnOk, OnErr, IfErr, Err, if◌then◌else◌, option_and_then};
ghost use Rattle.std.specs.Option.{option_copied, option_map};
ghost use Rattle.std.specs.Fn.{FnReturnsAt};
ghost use Rattle.std.specs.Ordering.{nat_cmp};
ghost use Rattle.std.specs.List.Sorted.{IsStrictlySortedBy};
ghost use Rattle.std.specs.Map.{keys_of, lookup};
ghost use Rattle.std.specs.Map.Iter.{ShowsInOrder, deref_pair};
ghost use Rattle.resolver_delivery.specs.declared.entry.Entry.{Entry};
ghost use Rattle.std.specs.BTreeMap.{get, insert_entry, is_at};
ghost use Rattle.resolver_delivery.specs.Entries.{accepted, changed_at, ended, is_number, numbered, with_response, with_state};
ghost use Rattle.resolver_base.specs.declared.fault.Fault.TheVariants.{OutOfMemory, Exhausted};

use crate::completion::{Aborted, Completion};
use crate::entry::{Entry, Open, Response};
use resolver_base::{Fault, Numbers};
use resolver_sequence::Sequence;
use resolver_types::{Delivery, Outcome};
use std::alloc::{AllocError, Global};
use std::collections::BTreeMap;
use std::collections::btree_map::Iter;
use std::marker::Model;

/// Tracked keys, each with the number of its delivery in progress, if there is one, its cached
/// response, if there is one, and a state of the caller's. Beside them stand the deliveries that
/// are open: those without a verdict, also of keys that were dropped.
///
/// A call takes time logarithmic in the number of keys and of open deliveries.
///
/// A value is handed out for a key that is tracked and has no delivery in progress:
///
/// ```rust
/// fn deliver(rt: &impl Abort, alloc: Global, entries: &mut Tracked, key: u16, context: u64) -> u64 {
///     let delivery = delivery(rt, alloc, key);
///     assert!(rt; entries.contains(&delivery.key));
///     assert!(rt; entries.number(&delivery.key).is_none());
///     entries
///         .deliver(delivery, context, 5)
///         .expect(rt, "a delivery")
/// }
/// ```
#[derive(Debug)]
#[derive(Drop)]
pub struct Entries<K: Ord, S, V, Context, State> {
    keys: BTreeMap<K, Entry<V, Context, State>>,
    going: Sequence<Open<K, S, Context>>,
    numbers: Numbers,
}

impl<K: Ord, S, V, Context, State> Model for Entries<K, S, V, Context, State> {
    ghost use Rattle.resolver_delivery.specs.Entries.{Numbered};

    ghost Value = { Numbered K S V Context State };

    ghost view = { λ a. record {
      keys = a.keys.entries;
      going = a.going;
      next = a.numbers;
    } };
}

impl<K: Ord + Drop, S: Drop, V: Drop, Context: Drop, State: Drop> Entries<K, S, V, Context, State> {
    ghost use Rattle.resolver_base.specs.Answering.{AnswersBy};
    ghost use Rattle.resolver_delivery.specs.Entries.{accepted, changed, delivered, entry_of, inserted, is_accepted, is_tracked, number_of, redelivered, refusal_at, removed, response_changed, response_of, retained, state_of, with_response, with_state};

    /// No key and no delivery. The first delivery will have the number 0.
    pub fn new(alloc: Global) -> Self
        ensures { result ≡ record { keys = []; going = []; next = 0 } }
    {
        Entries {
            keys: BTreeMap::new(alloc),
            going: Sequence::new(alloc),
            numbers: Numbers::new(),
        }
    }

    /// Tracks a key, and answers whether it is new. A key that is there keeps its state. Where
    /// memory is refused, nothing changes.
    pub fn insert_state(&mut self, key: K, state: State) -> Result<bool, Fault>
        ensures ok { OnOk result (self.new ≡ inserted K.cmp key state self.old) }
        ensures is_new { IfOk result (λ new. new ≡ not (is_tracked K.cmp self.old key)) }
        ensures err { OnErr result (self.new ≡ self.old) }
        ensures only { IfErr result (λ fault. fault ≡ OutOfMemory) }
    {
        if self.keys.contains_key(&key) {
            return Ok(false);
        }
        self.insert_new(key, state)?;
        Ok(true)
    }

    /// Tracks a key that isn't there, with one look-up. Where memory is refused, nothing changes.
    pub fn insert_new(&mut self, key: K, state: State) -> Result<(), Fault>
        requires absent { is_tracked K.cmp self.old key ≡ false }
        ensures ok { OnOk result (self.new ≡ inserted K.cmp key state self.old) }
        ensures err { OnErr result (self.new ≡ self.old) }
        ensures only { IfErr result (λ fault. fault ≡ OutOfMemory) }
    {
        let fresh = Entry {
            number: None,
            response: None,
            state,
        };
        self.keys.insert(key, fresh)?;
        Ok(())
    }

    /// Whether a key is tracked.
    pub fn contains(&self, key: &K) -> bool
        ensures { result ≡ is_tracked K.cmp self.now key.now }
    {
        self.keys.contains_key(key)
    }

    /// Drops a key, and answers whether it was tracked. Its delivery in progress stays open,
    /// and is canceled.
    pub fn remove(&mut self, key: &K) -> bool
        ensures after { self.new ≡ removed K.cmp key.now self.old }
        ensures was_there { result ≡ is_tracked K.cmp self.old key.now }
    {
        self.take(key).is_some()
    }

    /// Drops a key, as `remove` does, and answers what was kept of it, if it was tracked.
    pub fn take(&mut self, key: &K) -> Option<Entry<V, Context, State>>
        ensures after { self.new ≡ removed K.cmp key.now self.old }
        ensures entry { result ≡ entry_of K.cmp self.old key.now }
    {
        self.keys.remove(key)
    }

    /// Drops a key, as `remove` does, and answers what the caller kept with it, if it was tracked.
    pub fn remove_state(&mut self, key: &K) -> Option<State>
        ensures after { self.new ≡ removed K.cmp key.now self.old }
        ensures state { result ≡ state_of K.cmp self.old key.now }
    {
        let (_, entry) = self.keys.remove_entry(key)?;
        Some(entry.state)
    }

    /// Drops all keys, and answers how many there were.
    pub fn drain(&mut self) -> usize
        ensures after { self.new ≡ record self.old { keys = [] } }
        ensures count { result ≡ length self.old.keys }
    {
        let count = self.keys.len();
        self.keys.clear();
        count
    }

    /// Drops all keys, and closes all deliveries. The numbers go on.
    pub fn clear(&mut self)
        ensures { self.new ≡ record self.old { keys = []; going = [] } }
    {
        self.drain();
        self.going.clear();
    }

    /// Drops the keys that aren't kept, and answers how many these were. `keep` is pure.
    pub fn retain<F: Fn(&K) -> bool>(&mut self, keep: F) -> usize
        requires { F.IsAlwaysCallable keep }
        ensures after { (test : K → Bool) → AnswersBy F.Fn keep test
            → self.new ≡ retained test self.old }
        ensures count { result + length self.new.keys ≡ length self.old.keys }
    {
        let before = self.keys.len();
        self.keys.retain(
            |key, entry| -> bool
                requires { F.IsAlwaysCallable keep }
                ensures answer { FnReturnsAt F.Fn keep key.now result }
                ensures same { entry.new ≡ entry.old }
            { keep(key) },
        );
        before - self.keys.len()
    }

    /// Begins a delivery of a new value, and answers its number. The value is cached, not yet
    /// accepted, in place of what was. `Exhausted` is answered where no number is left; then, and
    /// where memory is refused, nothing changes.
    pub fn deliver(
        &mut self,
        delivery: Delivery<K, S>,
        context: Context,
        value: V,
    ) -> Result<u64, Fault>
    where
        Context: Clone,
        requires contexts_clone { (x y : Context) → Context.is_clone x y → y ≡ x }
        requires tracked { IsTrue (is_tracked K.cmp self.old delivery.key) }
        requires idle { number_of K.cmp self.old delivery.key ≡ None }
        ensures number { IfOk result (λ number. number ≡ self.old.next) }
        ensures ok { OnOk result (self.new ≡ delivered K.cmp delivery context value self.old) }
        ensures err { OnErr result (self.new ≡ self.old) }
        ensures only { IfErr result (λ fault. fault ≡ refusal_at self.old.next) }
    {
        let number = self.numbers.peek().ok_or(Fault::Exhausted)?;
        let again = context.clone()?;
        let response = Response {
            name: number,
            value,
            context: again,
            accepted: false,
        };
        let begun = Open {
            response: number,
            delivery,
            context,
            accepted: false,
        };
        begin_new(&mut self.keys, &mut self.going, number, begun, response)?;
        self.numbers.take();
        Ok(number)
    }

    /// Begins a delivery of the cached value once more, and answers its number. `Exhausted` is
    /// answered where no number is left; then, and where memory is refused, nothing changes.
    pub fn redeliver(&mut self, delivery: Delivery<K, S>) -> Result<u64, Fault>
    where
        Context: Clone,
        requires contexts_clone { (x y : Context) → Context.is_clone x y → y ≡ x }
        requires cached { IsSome (response_of K.cmp self.old delivery.key) }
        requires idle { number_of K.cmp self.old delivery.key ≡ None }
        ensures number { IfOk result (λ number. number ≡ self.old.next) }
        ensures ok { OnOk result (self.new ≡ redelivered K.cmp delivery self.old) }
        ensures err { OnErr result (self.new ≡ self.old) }
        ensures only { IfErr result (λ fault. fault ≡ refusal_at self.old.next) }
    {
        let number = self.numbers.peek().ok_or(Fault::Exhausted)?;
        let Some(response) = self.response(&delivery.key) else {
            unreachable!()
        };
        let context = response.context.clone()?;
        let begun = Open {
            response: response.name,
            delivery,
            context,
            accepted: response.accepted,
        };
        begin(&mut self.keys, &mut self.going, number, begun)?;
        self.numbers.take();
        Ok(number)
    }

    /// What is kept of a key, if it is tracked.
    pub fn get(&self, key: &K) -> Option<&Entry<V, Context, State>>
        ensures { option_copied result ≡ entry_of K.cmp self.now key.now }
    {
        self.keys.get(key)
    }

    /// The number of a key's delivery in progress.
    pub fn number(&self, key: &K) -> Option<u64>
        ensures { result ≡ number_of K.cmp self.now key.now }
    {
        self.get(key)?.number
    }

    /// A key's cached response.
    pub fn response(&self, key: &K) -> Option<&Response<V, Context>>
        ensures { option_copied result ≡ response_of K.cmp self.now key.now }
    {
        self.get(key)?.response.as_ref()
    }

    /// What the caller keeps with a key.
    pub fn state(&self, key: &K) -> Option<&State>
        ensures { option_copied result ≡ state_of K.cmp self.now key.now }
    {
        Some(&self.get(key)?.state)
    }

    /// Gives a key another state, if it is tracked.
    pub fn set_state(&mut self, key: &K, state: State)
        ensures { self.new ≡ changed K.cmp key.now (with_state state) self.old }
    {
        put_state(&mut self.keys, key, state);
    }

    /// Whether a key has a cached response that was accepted.
    pub fn response_accepted(&self, key: &K) -> bool
        ensures { result ≡ is_accepted K.cmp self.now key.now }
    {
        match self.response(key) {
            Some(response) => response.accepted,
            None => false,
        }
    }

    /// Notes that a key's cached response was judged to be right.
    pub fn accept_response(&mut self, key: &K)
        requires cached { IsSome (response_of K.cmp self.old key.now) }
        ensures { self.new ≡ response_changed K.cmp key.now accepted self.old }
    {
        accept(&mut self.keys, key);
    }

    /// Forgets a key's cached response, if there is one.
    pub fn discard_response(&mut self, key: &K)
        ensures { self.new ≡ changed K.cmp key.now (with_response None) self.old }
    {
        discard(&mut self.keys, key);
    }

    /// The tracked keys in their order, with their entries.
    pub fn iter(&self) -> Iter<'_, K, Entry<V, Context, State>>
        ensures rest { result ≡ self.now.keys }
        ensures ordered { IsStrictlySortedBy K.cmp (keys_of self.now.keys) }
        ensures runs { ShowsInOrder (deref_pair {K = K} {X = Entry V Context State}) }
    {
        self.keys.iter()
    }

    /// The delivery that is open under this number.
    pub fn open(&self, number: u64) -> Option<&Open<K, S, Context>>
        ensures { option_copied result ≡ lookup (is_at (nat_cmp number)) self.now.going }
    {
        self.going.get(number)
    }
}

/// Opens a delivery of a new response, which is its key's delivery in progress from now on. Where
/// memory is refused, nothing changes.
fn begin_new<K: Ord, S: Drop, V: Drop, Context: Drop, State>(
    keys: &mut BTreeMap<K, Entry<V, Context, State>>,
    going: &mut Sequence<Open<K, S, Context>>,
    number: u64,
    begun: Open<K, S, Context>,
    response: Response<V, Context>,
) -> Result<(), AllocError>
where
    K: Drop,
    requires tracked { IsSome (get K.cmp keys.old begun.delivery.key) }
    ensures held { OnOk result (keys.new.entries ≡ changed_at (is_at (K.cmp begun.delivery.key))
        (get K.cmp keys.old begun.delivery.key)
        (λ e. numbered number (with_response (Some response) e)) keys.old.entries) }
    ensures opened { OnOk result
        (going.new ≡ insert_entry nat_cmp going.old number begun) }
    ensures err_keys { OnErr result (keys.new.entries ≡ keys.old.entries) }
    ensures err_going { OnErr result (going.new ≡ going.old) }
{
    let Some(entry) = keys.get_mut(&begun.delivery.key) else {
        unreachable!()
    };
    going.insert(number, begun)?;
    entry.number = Some(number);
    entry.response = Some(response);
    Ok(())
}

/// Opens a delivery, which is its key's delivery in progress from now on. Where memory is refused,
/// nothing changes.
fn begin<K: Ord, S: Drop, V: Drop, Context: Drop, State>(
    keys: &mut BTreeMap<K, Entry<V, Context, State>>,
    going: &mut Sequence<Open<K, S, Context>>,
    number: u64,
    begun: Open<K, S, Context>,
) -> Result<(), AllocError>
where
    K: Drop,
    requires tracked { IsSome (get K.cmp keys.old begun.delivery.key) }
    ensures held { OnOk result (keys.new.entries ≡ changed_at (is_at (K.cmp begun.delivery.key))
        (get K.cmp keys.old begun.delivery.key) (numbered number) keys.old.entries) }
    ensures opened { OnOk result
        (going.new ≡ insert_entry nat_cmp going.old number begun) }
    ensures err_keys { OnErr result (keys.new.entries ≡ keys.old.entries) }
    ensures err_going { OnErr result (going.new ≡ going.old) }
{
    let Some(entry) = keys.get_mut(&begun.delivery.key) else {
        unreachable!()
    };
    going.insert(number, begun)?;
    entry.number = Some(number);
    Ok(())
}

fn put_state<K: Ord, V, Context, State: Drop>(
    keys: &mut BTreeMap<K, Entry<V, Context, State>>,
    key: &K,
    state: State,
)
    ensures { keys.new.entries ≡ changed_at (is_at (K.cmp key.now)) (get K.cmp keys.old key.now)
        (with_state state) keys.old.entries }
{
    if let Some(entry) = keys.get_mut(key) {
        entry.state = state;
    }
}

fn accept<K: Ord, V, Context, State>(keys: &mut BTreeMap<K, Entry<V, Context, State>>, key: &K)
    ensures { keys.new.entries ≡ changed_at (is_at (K.cmp key.now)) (get K.cmp keys.old key.now)
        (λ e. with_response (option_map accepted e.response) e) keys.old.entries }
{
    if let Some(entry) = keys.get_mut(key) {
        if let Some(response) = &mut entry.response {
            response.accepted = true;
        }
    }
}

fn discard<K: Ord, V: Drop, Context: Drop, State>(
    keys: &mut BTreeMap<K, Entry<V, Context, State>>,
    key: &K,
)
    ensures { keys.new.entries ≡ changed_at (is_at (K.cmp key.now)) (get K.cmp keys.old key.now)
        (with_response None) keys.old.entries }
{
    if let Some(entry) = keys.get_mut(key) {
        entry.response = None;
    }
}

/// A key's delivery in progress is over, if it has this number. Answers whether it has.
fn end<K: Ord, V, Context, State>(
    keys: &mut BTreeMap<K, Entry<V, Context, State>>,
    key: &K,
    number: u64,
) -> bool
    ensures had { result ≡ is_number (option_and_then (λ e. e.number) (get K.cmp keys.old key.now)) number }
    ensures ended { keys.new.entries ≡ if result
        then changed_at (is_at (K.cmp key.now)) (get K.cmp keys.old key.now) ended keys.old.entries
        else keys.old.entries }
{
    let Some(entry) = keys.get_mut(key) else {
        return false;
    };
    if entry.number != Some(number) {
        return false;
    }
    entry.number = None;
    true
}

impl<K: Ord + Drop, S: Drop, V: Drop, Context: Drop, State: Drop> Entries<K, S, V, Context, State> {
    ghost use Rattle.resolver_delivery.specs.Entries.{completed};

    /// Closes a number. It is open no more, and where its key still holds it, the key has no
    /// delivery in progress then. The answer is `Aborted` for a number that isn't open, and for
    /// a canceled one without a verdict.
    pub fn completed(
        &mut self,
        number: u64,
        verdict: Option<Outcome>,
    ) -> Result<Completion<K, S, Context>, Aborted>
        ensures { (result, self.new) ≡ completed K.cmp self.old number verdict }
    {
        let Some(open) = self.going.remove(number) else {
            return Err(Aborted {});
        };
        let canceled = !end(&mut self.keys, &open.delivery.key, number);
        if canceled && verdict.is_none() {
            return Err(Aborted {});
        }
        Ok(Completion {
            response: open.response,
            context: open.context,
            delivery: open.delivery,
            outcome: verdict,
            canceled,
            previously_accepted: open.accepted,
        })
    }
}

impl<K: Ord + Drop, S: Drop, V: Drop, Context: Drop> Entries<K, S, V, Context, ()> {
    ghost use Rattle.resolver_delivery.specs.Entries.{inserted, is_tracked};

    /// Tracks a key, and answers whether it is new. Where memory is refused, nothing changes.
    pub fn insert(&mut self, key: K) -> Result<bool, Fault>
        ensures ok { OnOk result (self.new ≡ inserted K.cmp key tt self.old) }
        ensures is_new { IfOk result (λ new. new ≡ not (is_tracked K.cmp self.old key)) }
        ensures err { OnErr result (self.new ≡ self.old) }
        ensures only { IfErr result (λ fault. fault ≡ OutOfMemory) }
    {
        self.insert_state(key, ())
    }
}
