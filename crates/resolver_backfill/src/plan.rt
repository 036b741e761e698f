//! Which keys are wanted for one subscriber.

ghost use Rattle.std.specs.Prelude.{◌≡◌, ◌≢◌, [], ◌∷◌, None, IfOk, IfErr, OnOk, OnErr};
ghost use Rattle.std.specs.List.{list_any};
ghost use Rattle.std.specs.List.Sorted.{IsStrictlySortedBy};
ghost use Rattle.resolver_base.specs.declared.fault.Fault.TheVariants.{OutOfMemory};
ghost use Rattle.resolver_types.specs.Names.{names};
ghost use Rattle.resolver_backfill.specs.Plans.{fetched, fetches_of, from_bound, is_below, lacking, let_go, let_go_below, met, settled, settled_below, unmet, wanting, with_keys};
ghost use Rattle.resolver_backfill.specs.Given.{Restores, Turns, fetch_told, retain_told};

use crate::without::Without;
use resolver_base::Fault;
use resolver_types::Fetch;
use std::alloc::{AllocError, Global};
use std::collections::BTreeSet;
use std::marker::Model;

/// The keys that are wanted for one subscriber.
///
/// It tells nobody: its calls answer what a resolver has to be told, so that the resolver's demand has
/// the plan's pairs. A call takes time in proportion to the keys that it is given, or that it removes or
/// answers, times the logarithm of how many are wanted.
#[derive(Drop)]
pub struct Plan<K: Ord, S> {
    subscriber: S,
    mark: u64,
    wanted: BTreeSet<K>,
    alloc: Global,
}

impl<K: Ord, S> Model for Plan<K, S> {
    ghost use Rattle.resolver_backfill.specs.Plans.{Plan};

    ghost Value = { Plan K S };

    ghost use Rattle.std.specs.List.Sorted.{IsStrictlySortedBy};

    ghost view = { λ a. record { subscriber = a.subscriber; mark = a.mark; wanted = a.wanted.keys } };

    ghost invariant = { λ a. IsStrictlySortedBy K.cmp a.wanted.keys };
}

impl<K: Ord, S> Plan<K, S> {
    /// Nothing is wanted for this subscriber. Its fetches will have this mark.
    pub fn new(alloc: Global, subscriber: S, mark: u64) -> Self
        ensures { result ≡ record { subscriber = subscriber; mark = mark; wanted = [] } }
    {
        Plan {
            subscriber,
            mark,
            wanted: BTreeSet::new(alloc),
            alloc,
        }
    }

    /// The wanted keys, in their order.
    pub fn wanted(&self) -> &BTreeSet<K>
        ensures { result.now.keys ≡ self.now.wanted }
    {
        &self.wanted
    }
}

impl<K: Ord + Clone + Drop, S: Ord + Clone + Drop> Plan<K, S> {
    /// Wants these keys too, and answers a fetch for each that wasn't wanted, in key order. It takes no
    /// memory where none is new. Where memory is refused, nothing changes.
    pub fn want(&mut self, keys: &[K]) -> Result<Vec<Fetch<K, S>>, Fault>
        requires keys_clone { (x y : K) → K.is_clone x y → y ≡ x }
        requires subscribers_clone { (x y : S) → S.is_clone x y → y ≡ x }
        ensures fetches { IfOk result (λ fetches. fetches.items ≡ fetched K.cmp self.old keys.now) }
        ensures ok { OnOk result (self.new ≡ wanting K.cmp self.old keys.now) }
        ensures turns { IfOk result (λ fetches. Turns (names K.cmp S.cmp) self.old
            (fetch_told fetches.items) self.new) }
        ensures some { OnErr result (lacking K.cmp self.old.wanted keys.now ≢ []) }
        ensures err { OnErr result (self.new ≡ self.old) }
        ensures only { IfErr result (λ fault. fault ≡ OutOfMemory) }
    {
        let lacking = self.lacking(keys)?;
        if lacking.is_empty() {
            return Ok(Vec::new(self.alloc));
        }
        let fetches = self.fetches(&lacking)?;
        self.add(&lacking)?;
        Ok(fetches)
    }

    /// Wants these keys no more, and answers what drops the subscriber from those that were wanted, if
    /// any was. It takes no memory where none was. Where memory is refused, nothing changes.
    pub fn done(&mut self, keys: &[K]) -> Result<Option<Without<K, S>>, Fault>
        requires keys_clone { (x y : K) → K.is_clone x y → y ≡ x }
        requires subscribers_clone { (x y : S) → S.is_clone x y → y ≡ x }
        ensures without { IfOk result (λ without. without ≡ let_go K.cmp self.old keys.now) }
        ensures ok { OnOk result (self.new ≡ settled K.cmp self.old keys.now) }
        ensures turns { IfOk result (λ without. Turns (names K.cmp S.cmp) self.old
            (retain_told (names K.cmp S.cmp) without) self.new) }
        ensures some { OnErr result (let_go K.cmp self.old keys.now ≢ None) }
        ensures err { OnErr result (self.new ≡ self.old) }
        ensures only { IfErr result (λ fault. fault ≡ OutOfMemory) }
    {
        let without = self.without(keys)?;
        self.forget(keys);
        Ok(without)
    }

    /// Wants the keys below this one no more, and answers what drops the subscriber from all keys below
    /// it, if one of them was wanted. The key itself stays. It takes no memory where none was wanted. Where
    /// memory is refused, nothing changes.
    pub fn done_below(&mut self, bound: &K) -> Result<Option<Without<K, S>>, Fault>
        requires keys_clone { (x y : K) → K.is_clone x y → y ≡ x }
        requires subscribers_clone { (x y : S) → S.is_clone x y → y ≡ x }
        ensures without { IfOk result (λ without. without ≡ let_go_below K.cmp self.old bound.now) }
        ensures ok { OnOk result (self.new ≡ settled_below K.cmp self.old bound.now) }
        ensures turns { IfOk result (λ without. Turns (names K.cmp S.cmp) self.old
            (retain_told (names K.cmp S.cmp) without) self.new) }
        ensures some { OnErr result (let_go_below K.cmp self.old bound.now ≢ None) }
        ensures err { OnErr result (self.new ≡ self.old) }
        ensures only { IfErr result (λ fault. fault ≡ OutOfMemory) }
    {
        let without = self.without_below(bound)?;
        self.forget_below(bound);
        Ok(without)
    }

    /// A fetch for each wanted key, in key order, to ask for all of them again. Told to a resolver, it
    /// brings back what was lost there, and changes nothing else.
    pub fn again(&self) -> Result<Vec<Fetch<K, S>>, Fault>
        requires keys_clone { (x y : K) → K.is_clone x y → y ≡ x }
        requires subscribers_clone { (x y : S) → S.is_clone x y → y ≡ x }
        ensures fetches { IfOk result
            (λ fetches. fetches.items ≡ fetches_of self.now self.now.wanted) }
        ensures restores { IfOk result
            (λ fetches. Restores (names K.cmp S.cmp) self.now fetches.items) }
        ensures only { IfErr result (λ fault. fault ≡ OutOfMemory) }
    {
        let mut fetches = Vec::with_capacity(self.alloc, self.wanted.len())?;
        for key in &self.wanted {
            fetches.push(self.fetch(key)?)?;
        }
        Ok(fetches)
    }

    /// What `done` would answer, with the plan left as it is. It takes no memory where none of the keys
    /// is wanted.
    pub fn without(&self, keys: &[K]) -> Result<Option<Without<K, S>>, Fault>
        requires keys_clone { (x y : K) → K.is_clone x y → y ≡ x }
        requires subscribers_clone { (x y : S) → S.is_clone x y → y ≡ x }
        ensures without { IfOk result (λ without. without ≡ let_go K.cmp self.now keys.now) }
        ensures some { OnErr result (let_go K.cmp self.now keys.now ≢ None) }
        ensures only { IfErr result (λ fault. fault ≡ OutOfMemory) }
    {
        let met = met(self.alloc, &self.wanted, keys)?;
        if met.is_empty() {
            return Ok(None);
        }
        Ok(Some(Without::new(self.subscriber.clone()?, met)))
    }

    /// What `done_below` would answer, with the plan left as it is. It takes no memory where no key below
    /// this one is wanted.
    pub fn without_below(&self, bound: &K) -> Result<Option<Without<K, S>>, Fault>
        requires keys_clone { (x y : K) → K.is_clone x y → y ≡ x }
        requires subscribers_clone { (x y : S) → S.is_clone x y → y ≡ x }
        ensures without { IfOk result (λ without. without ≡ let_go_below K.cmp self.now bound.now) }
        ensures some { OnErr result (let_go_below K.cmp self.now bound.now ≢ None) }
        ensures only { IfErr result (λ fault. fault ≡ OutOfMemory) }
    {
        if !has_below(&self.wanted, bound) {
            return Ok(None);
        }
        let subscriber = self.subscriber.clone()?;
        Ok(Some(Without::below(self.alloc, subscriber, bound.clone()?)))
    }

    /// Wants these keys no more, and has nothing told: for keys that came, which the resolver retired for
    /// the subscriber by itself. It takes no memory.
    pub fn forget(&mut self, keys: &[K])
        ensures { self.new ≡ settled K.cmp self.old keys.now }
    {
        remove_all(&mut self.wanted, keys);
    }

    /// Wants the keys below this one no more, and has nothing told. It takes no memory.
    pub fn forget_below(&mut self, bound: &K)
        ensures { self.new ≡ settled_below K.cmp self.old bound.now }
    {
        remove_below(&mut self.wanted, bound);
    }

    /// Those of these keys that aren't wanted, in their order, each once. It takes no memory where
    /// there is none.
    pub(crate) fn lacking(&self, keys: &[K]) -> Result<Vec<K>, AllocError>
        requires keys_clone { (x y : K) → K.is_clone x y → y ≡ x }
        ensures ok { IfOk result (λ new. new.items ≡ lacking K.cmp self.now.wanted keys.now) }
        ensures some { OnErr result (lacking K.cmp self.now.wanted keys.now ≢ []) }
    {
        let lacking = lacking(self.alloc, &self.wanted, keys)?;
        if lacking.is_empty() {
            return Ok(Vec::new(self.alloc));
        }
        list(self.alloc, lacking)
    }

    /// What gives and takes memory.
    pub(crate) fn alloc(&self) -> Global {
        self.alloc
    }

    /// A fetch for each of these keys.
    pub(crate) fn fetches(&self, keys: &[K]) -> Result<Vec<Fetch<K, S>>, AllocError>
        requires keys_clone { (x y : K) → K.is_clone x y → y ≡ x }
        requires subscribers_clone { (x y : S) → S.is_clone x y → y ≡ x }
        ensures { IfOk result (λ fetches. fetches.items ≡ fetches_of self.now keys.now) }
    {
        let mut fetches = Vec::with_capacity(self.alloc, keys.len())?;
        for key in keys {
            fetches.push(self.fetch(key)?)?;
        }
        Ok(fetches)
    }

    /// A fetch for this key.
    fn fetch(&self, key: &K) -> Result<Fetch<K, S>, AllocError>
        requires keys_clone { (x y : K) → K.is_clone x y → y ≡ x }
        requires subscribers_clone { (x y : S) → S.is_clone x y → y ≡ x }
        ensures { IfOk result (λ fetch. fetch ≡ record {
          key = key.now;
          subscriber = self.now.subscriber;
          mark = self.now.mark;
        }) }
    {
        Ok(Fetch {
            key: key.clone()?,
            subscriber: self.subscriber.clone()?,
            mark: self.mark,
        })
    }

    /// Wants these keys, none of which is wanted. Where memory is refused, nothing changes.
    pub(crate) fn add(&mut self, keys: &[K]) -> Result<(), AllocError>
        requires keys_clone { (x y : K) → K.is_clone x y → y ≡ x }
        requires lacked { met K.cmp self.old.wanted keys.now ≡ [] }
        ensures ok { OnOk result
            (self.new ≡ record self.old { wanted = with_keys K.cmp self.old.wanted keys.now }) }
        ensures err { OnErr result (self.new ≡ self.old) }
    {
        for i in 0..keys.len() {
            if let Err(error) = self.put(&keys[i]) {
                self.forget(&keys[..i]);
                return Err(error);
            }
        }
        Ok(())
    }

    /// Puts a key among the wanted ones. Where memory is refused, nothing changes.
    fn put(&mut self, key: &K) -> Result<(), AllocError>
        requires keys_clone { (x y : K) → K.is_clone x y → y ≡ x }
        ensures ok { OnOk result
            (self.new ≡ record self.old { wanted = with_keys K.cmp self.old.wanted (key.now ∷ []) }) }
        ensures err { OnErr result (self.new ≡ self.old) }
    {
        self.wanted.insert(key.clone()?)?;
        Ok(())
    }
}

/// The keys of a set, in their order.
fn list<K: Ord + Drop>(alloc: Global, set: BTreeSet<K>) -> Result<Vec<K>, AllocError>
    ensures { IfOk result (λ keys. keys.items ≡ set.keys) }
{
    let mut keys = Vec::with_capacity(alloc, set.len())?;
    for key in set {
        keys.push(key)?;
    }
    Ok(keys)
}

/// Those of these keys that a set lacks. It takes no memory where there is none.
fn lacking<K: Ord + Clone + Drop>(
    alloc: Global,
    set: &BTreeSet<K>,
    keys: &[K],
) -> Result<BTreeSet<K>, AllocError>
    requires keys_clone { (x y : K) → K.is_clone x y → y ≡ x }
    ensures ok { IfOk result (λ new. new.keys ≡ lacking K.cmp set.now.keys keys.now) }
    ensures some { OnErr result (lacking K.cmp set.now.keys keys.now ≢ []) }
{
    let mut new = BTreeSet::new(alloc);
    for key in keys {
        if !set.contains(key) {
            new.insert(key.clone()?)?;
        }
    }
    Ok(new)
}

/// Those keys of a set that are among these. It takes no memory where there is none.
fn met<K: Ord + Clone + Drop>(
    alloc: Global,
    set: &BTreeSet<K>,
    keys: &[K],
) -> Result<BTreeSet<K>, AllocError>
    requires keys_clone { (x y : K) → K.is_clone x y → y ≡ x }
    requires ordered { IsStrictlySortedBy K.cmp set.now.keys }
    ensures ok { IfOk result (λ found. found.keys ≡ met K.cmp set.now.keys keys.now) }
    ensures some { OnErr result (met K.cmp set.now.keys keys.now ≢ []) }
{
    let mut found = BTreeSet::new(alloc);
    for key in keys {
        if let Some(own) = set.get(key) {
            found.insert(own.clone()?)?;
        }
    }
    Ok(found)
}

/// Removes these keys from a set.
fn remove_all<K: Ord + Drop>(set: &mut BTreeSet<K>, keys: &[K])
    requires ordered { IsStrictlySortedBy K.cmp set.old.keys }
    ensures left { set.new.keys ≡ unmet K.cmp set.old.keys keys.now }
    ensures ordered { IsStrictlySortedBy K.cmp set.new.keys }
{
    for key in keys {
        set.remove(key);
    }
}

/// Whether a set has a key below this one.
fn has_below<K: Ord>(set: &BTreeSet<K>, bound: &K) -> bool
    requires ordered { IsStrictlySortedBy K.cmp set.now.keys }
    ensures { result ≡ list_any (is_below K.cmp bound.now) set.now.keys }
{
    match set.first() {
        Some(first) => first.cmp(bound).is_lt(),
        None => false,
    }
}

/// Removes the keys below this one from a set.
fn remove_below<K: Ord + Drop>(set: &mut BTreeSet<K>, bound: &K)
    requires ordered { IsStrictlySortedBy K.cmp set.old.keys }
    ensures left { set.new.keys ≡ from_bound K.cmp set.old.keys bound.now }
    ensures ordered { IsStrictlySortedBy K.cmp set.new.keys }
{
    while has_below(set, bound) {
        set.pop_first();
    }
}
