//! Who waits for which key.
//!
//! `Tracker` is the demand: the keys, and for each of them its subscribers with their marks.

mod few;
mod listed;
mod many;
mod named;

ghost use Rattle.std.specs.Prelude.{◌≡◌, ◌<◌, ◌↔◌, not, [], length, false, None, Some, is_some, IsTrue, IfOk, OnOk, OnErr, IfErr, IfSome, MatchOption};
ghost use Rattle.std.specs.Option.{option_copied};
ghost use Rattle.std.specs.Map.Iter.{ShowsInOrder, deref_pair};
ghost use Rattle.resolver_demand.specs.declared.subscribers.listed.Subscribers.{Subscribers};
ghost use Rattle.resolver_base.specs.declared.fault.Fault.TheVariants.{OutOfMemory};
ghost use Rattle.resolver_types.specs.Names.{names, same_key};
ghost use Rattle.resolver_types.specs.Subscribers.{attached_all, without};
ghost use Rattle.resolver_types.specs.Table.{asked_one, emptied, is_asked, kept, rest_of, subscribers_of, without_key, without_named};
ghost use Rattle.resolver_demand.specs.Rows.{AreListed, IsListed};
ghost use Rattle.std.specs.List.Sorted.{IsStrictlySortedBy};
ghost use Rattle.std.specs.Map.{keys_of, set_value};
ghost use Rattle.std.specs.BTreeMap.{get, is_at};

use crate::subscribers::named::Named;
pub use listed::Subscribers;
use resolver_base::{Faithful, Fault};
use resolver_types::{NonEmptyVec, Predicate};
use std::alloc::{AllocError, Global};
use std::collections::BTreeMap;
use std::collections::btree_map::{Entry, Iter};
use std::marker::Model;

/// The keys that someone waits for, in their order, each with its subscribers in theirs.
///
/// A key that is there has at least one subscriber. Of equal keys and of equal subscribers the
/// first one stays. A call on one key takes time logarithmic in the number of keys; to add one
/// subscriber, logarithmic in the number of the key's own; to answer them, linear.
///
/// Subscribers 10, 11 and 12 want key 1, and then 10 and 12 have it:
///
/// ```rust
/// let mut tracker = Tracker::new(alloc);
/// assert!(rt; insert(&mut tracker, alloc, 1, &[(10, 0), (11, 0)])?);
/// assert!(rt; !insert(&mut tracker, alloc, 1, &[(11, 0), (12, 0)])?);
/// assert_eq!(rt;
///     pending(&tracker, 1)?.as_slice(),
///     [(10, 0), (11, 0), (12, 0)].as_slice()
/// );
///
/// let rest = tracker.remove_delivered(&1, &list(alloc, &[(10, 0), (12, 0)])?)?;
/// assert_eq!(rt; rest.ok_or("11 is left")?.as_slice(), [(11, 0)].as_slice());
/// ```
#[derive(Debug, Drop)]
pub struct Tracker<K: Ord, S: Ord> {
    demand: BTreeMap<K, Subscribers<S>>,
    alloc: Global,
}

impl<K: Ord, S: Ord> Model for Tracker<K, S> {
    ghost use Rattle.std.specs.Prelude.{List, ℕ};
    ghost use Rattle.resolver_demand.specs.Rows.{AreListed};

    ghost Value = { List (K × List (S × ℕ)) };

    ghost view = { λ a. a.demand.entries };

    ghost invariant = { λ a. AreListed S.cmp a.demand.entries };
}

impl<K: Ord + Drop, S: Ord + Drop> Tracker<K, S> {
    /// Nobody waits for anything.
    pub fn new(alloc: Global) -> Self
        ensures { result ≡ [] }
    {
        Tracker {
            demand: BTreeMap::new(alloc),
            alloc,
        }
    }

    /// Whether someone waits for this key.
    pub fn contains(&self, key: &K) -> bool
        ensures { result ≡ is_asked (names K.cmp S.cmp) self.now key.now }
    {
        self.demand.contains_key(key)
    }

    /// Adds subscribers of a key, and answers whether the key is new. A subscriber that is there
    /// keeps its mark. Where memory is refused, nothing changes.
    pub fn insert(&mut self, key: K, subscribers: NonEmptyVec<(S, u64)>) -> Result<bool, Fault>
    where
        S: Clone,
        requires subscribers_clone { (x y : S) → S.is_clone x y → y ≡ x }
        ensures ok { OnOk result
            (self.new ≡ asked_one (names K.cmp S.cmp) self.old (key, subscribers)) }
        ensures is_new { IfOk result
            (λ new. new ≡ not (is_asked (names K.cmp S.cmp) self.old key)) }
        ensures err { OnErr result (self.new ≡ self.old) }
        ensures only { IfErr result (λ fault. fault ≡ OutOfMemory) }
    {
        let Some(subscribers) = self.attach(&key, subscribers)? else {
            return Ok(false);
        };
        self.insert_new(key, subscribers)?;
        Ok(true)
    }

    /// Adds subscribers of a key that is there, with one look-up, or hands them back where nobody
    /// waits for the key. A subscriber that is there keeps its mark. Where memory is refused,
    /// nothing changes.
    pub fn attach(
        &mut self,
        key: &K,
        subscribers: NonEmptyVec<(S, u64)>,
    ) -> Result<Option<NonEmptyVec<(S, u64)>>, Fault>
    where
        S: Clone,
        requires subscribers_clone { (x y : S) → S.is_clone x y → y ≡ x }
        ensures ok { IfOk result (λ rest. MatchOption rest
            (self.new ≡ asked_one (names K.cmp S.cmp) self.old (key.now, subscribers))
            (λ back. (back ≡ subscribers) × (self.new ≡ self.old))) }
        ensures there { IfOk result (λ rest. not (is_some rest)
            ≡ is_asked (names K.cmp S.cmp) self.old key.now) }
        ensures err { OnErr result (self.new ≡ self.old) }
        ensures only { IfErr result (λ fault. fault ≡ OutOfMemory) }
    {
        Ok(attach_to(self.alloc, &mut self.demand, key, subscribers)?)
    }

    /// Adds a key that isn't there, with one look-up, and its subscribers. Where memory is refused,
    /// nothing changes.
    pub fn insert_new(&mut self, key: K, subscribers: NonEmptyVec<(S, u64)>) -> Result<(), Fault>
    where
        S: Clone,
        requires subscribers_clone { (x y : S) → S.is_clone x y → y ≡ x }
        requires absent { is_asked (names K.cmp S.cmp) self.old key ≡ false }
        ensures ok { OnOk result
            (self.new ≡ asked_one (names K.cmp S.cmp) self.old (key, subscribers)) }
        ensures err { OnErr result (self.new ≡ self.old) }
        ensures only { IfErr result (λ fault. fault ≡ OutOfMemory) }
    {
        let fresh = Subscribers::fresh(self.alloc, subscribers.into_vec())?;
        self.demand.insert(key, fresh)?;
        Ok(())
    }

    /// Removes a key with its subscribers, and answers whether it was there.
    pub fn remove(&mut self, key: &K) -> bool
        ensures after { self.new ≡ without_key (names K.cmp S.cmp) key.now self.old }
        ensures was_there { result ≡ is_asked (names K.cmp S.cmp) self.old key.now }
    {
        self.demand.remove(key).is_some()
    }

    /// Removes all keys.
    pub fn clear(&mut self)
        ensures { self.new ≡ [] }
    {
        self.demand.clear();
    }

    /// Removes the subscribers that aren't kept, and then the keys that have none. These are
    /// answered, in their order. Where memory is refused, nothing changes.
    pub fn retain<Q: Predicate<K, S>>(&mut self, keep: &Q) -> Result<Vec<K>, Fault>
    where
        K: Clone,
        requires keys_clone { (x y : K) → K.is_clone x y → y ≡ x }
        ensures ok { OnOk result (self.new ≡ kept (Q.keeps keep.now) self.old) }
        ensures emptied { IfOk result (λ keys. keys.items ≡ emptied (Q.keeps keep.now) self.old) }
        ensures ordered { IfOk result (λ keys. IsStrictlySortedBy K.cmp keys.items) }
        ensures err { OnErr result (self.new ≡ self.old) }
        ensures only { IfErr result (λ fault. fault ≡ OutOfMemory) }
    {
        let emptied = emptied_keys(self.alloc, &self.demand, keep)?;
        prune(&mut self.demand, keep);
        Ok(emptied)
    }

    /// The subscribers of a key with their marks, in their order, if someone waits for it.
    pub fn pending(&self, key: &K) -> Result<Option<NonEmptyVec<(S, u64)>>, Fault>
    where
        S: Clone,
        requires subscribers_clone { (x y : S) → S.is_clone x y → y ≡ x }
        ensures ok { IfOk result
            (λ pending. pending ≡ subscribers_of (names K.cmp S.cmp) self.now key.now) }
        ensures listed { IfOk result (λ pending. IfSome pending (IsListed S.cmp)) }
        ensures only { IfErr result (λ fault. fault ≡ OutOfMemory) }
    {
        let Some(subscribers) = self.demand.get(key) else {
            return Ok(None);
        };
        let Ok(pending) = NonEmptyVec::try_from(subscribers.copied(self.alloc)?) else {
            unreachable!()
        };
        Ok(Some(pending))
    }

    /// Removes the named subscribers of a key, and the key if it has no other. The others are
    /// answered, in their order. Where memory is refused, nothing changes.
    ///
    /// The key is cloned, so that it is looked up once; a clone is to equal its source.
    pub fn remove_delivered(
        &mut self,
        key: &K,
        delivered: &NonEmptyVec<(S, u64)>,
    ) -> Result<Option<NonEmptyVec<(S, u64)>>, Fault>
    where
        K: Clone,
        S: Clone,
        requires keys_clone { (x y : K) → K.is_clone x y → y ≡ x }
        requires subscribers_clone { (x y : S) → S.is_clone x y → y ≡ x }
        ensures ok { OnOk result
            (self.new ≡ without_named (names K.cmp S.cmp) key.now delivered.now self.old) }
        ensures rest { IfOk result
            (λ rest. rest ≡ rest_of (names K.cmp S.cmp) key.now delivered.now self.old) }
        ensures listed { IfOk result (λ rest. IfSome rest (IsListed S.cmp)) }
        ensures err { OnErr result (self.new ≡ self.old) }
        ensures only { IfErr result (λ fault. fault ≡ OutOfMemory) }
    {
        serve(
            self.alloc,
            &mut self.demand,
            key.clone()?,
            delivered.as_slice(),
        )
    }

    /// The subscribers of a key with their marks, in their order, if someone waits for it.
    pub fn get(&self, key: &K) -> Option<&Subscribers<S>>
        ensures value { option_copied result
            ≡ subscribers_of (names K.cmp S.cmp) self.now key.now }
        ensures listed { IfSome result (λ subscribers. IsListed S.cmp subscribers.now) }
    {
        self.demand.get(key)
    }

    /// How many keys there are.
    pub fn len(&self) -> usize
        ensures { result ≡ length self.now }
    {
        self.demand.len()
    }

    /// Whether nobody waits for anything.
    pub fn is_empty(&self) -> bool
        ensures { IsTrue result ↔ (self.now ≡ []) }
    {
        self.demand.is_empty()
    }

    /// The keys in their order, each with its subscribers.
    pub fn iter(&self) -> Iter<'_, K, Subscribers<S>>
        ensures rest { result ≡ self.now }
        ensures listed { AreListed S.cmp self.now }
        ensures ordered { IsStrictlySortedBy K.cmp (keys_of self.now) }
        ensures runs { ShowsInOrder (deref_pair {K = K} {X = Subscribers S}) }
    {
        self.demand.iter()
    }
}

impl<K: Ord + Clone + Drop, S: Ord + Clone + Drop> Tracker<K, S> {
    /// Clones of the keys and subscribers, which are to equal their sources, with the marks.
    pub fn clone(&self) -> Result<Self, AllocError>
        requires keys_clone { (x y : K) → K.is_clone x y → y ≡ x }
        requires subscribers_clone { (x y : S) → S.is_clone x y → y ≡ x }
        ensures same { IfOk result (λ tracker. tracker ≡ self.now) }
    {
        let demand = self.demand.clone()?;
        Ok(Tracker {
            demand,
            alloc: self.alloc,
        })
    }
}

impl<K: Ord + Faithful + Drop, S: Ord + Faithful + Drop> Clone for Tracker<K, S> {
    ghost is_clone = { λ tracker copy. copy ≡ tracker };

    /// Clones of the keys and subscribers, with the marks.
    fn clone(&self) -> Result<Self, AllocError> {
        Tracker::clone(self)
    }
}

/// Attaches subscribers to a key that is there, or hands them back.
fn attach_to<K: Ord, S: Ord + Clone + Drop>(
    alloc: Global,
    demand: &mut BTreeMap<K, Subscribers<S>>,
    key: &K,
    more: NonEmptyVec<(S, u64)>,
) -> Result<Option<NonEmptyVec<(S, u64)>>, AllocError>
    requires subscribers_clone { (x y : S) → S.is_clone x y → y ≡ x }
    requires listed { AreListed S.cmp demand.old.entries }
    ensures ok { IfOk result (λ rest. MatchOption (get K.cmp demand.old key.now)
        ((rest ≡ Some more) × (demand.new.entries ≡ demand.old.entries))
        (λ subscribers. (rest ≡ None) × (demand.new.entries
        ≡ set_value (is_at (K.cmp key.now)) demand.old.entries
        (attached_all S.cmp subscribers more)))) }
    ensures err { OnErr result (demand.new.entries ≡ demand.old.entries) }
{
    let Some(subscribers) = demand.get_mut(key) else {
        return Ok(Some(more));
    };
    subscribers.attach_all(alloc, more.into_vec())?;
    Ok(None)
}

/// Removes the named subscribers of a key, with one look-up, and the key if it has no other. The
/// others are answered.
fn serve<K: Ord + Drop, S: Ord + Clone + Drop>(
    alloc: Global,
    demand: &mut BTreeMap<K, Subscribers<S>>,
    key: K,
    delivered: &[(S, u64)],
) -> Result<Option<NonEmptyVec<(S, u64)>>, Fault>
    requires subscribers_clone { (x y : S) → S.is_clone x y → y ≡ x }
    requires listed { AreListed S.cmp demand.old.entries }
    ensures ok { OnOk result (demand.new.entries
        ≡ without_named (names K.cmp S.cmp) key delivered.now demand.old.entries) }
    ensures rest { IfOk result
        (λ rest. rest ≡ rest_of (names K.cmp S.cmp) key delivered.now demand.old.entries) }
    ensures rest_listed { IfOk result (λ rest. IfSome rest (IsListed S.cmp)) }
    ensures listed { AreListed S.cmp demand.new.entries }
    ensures err { OnErr result (demand.new.entries ≡ demand.old.entries) }
    ensures only { IfErr result (λ fault. fault ≡ OutOfMemory) }
{
    match demand.entry(key)? {
        Entry::Occupied(place) => {
            let named = Named::new(alloc, delivered)?;
            match others(alloc, place.get(), &named)? {
                Some(rest) => {
                    place.into_mut().detach_all(&named);
                    Ok(Some(rest))
                }
                None => {
                    place.remove();
                    Ok(None)
                }
            }
        }
        // Of a vacant entry that is dropped nothing says that its map is as it was.
        Entry::Vacant(place) => {
            place.insert_entry(Subscribers::new(alloc)).remove();
            Ok(None)
        }
    }
}

/// Clones of the subscribers that aren't named, in their order, if there are any.
fn others<S: Ord + Clone + Drop>(
    alloc: Global,
    subscribers: &Subscribers<S>,
    named: &Named<'_, S>,
) -> Result<Option<NonEmptyVec<(S, u64)>>, AllocError>
    requires { (x y : S) → S.is_clone x y → y ≡ x }
    ensures { IfOk result (λ rest. MatchOption rest
        (without S.cmp named.now.list.now subscribers.now ≡ [])
        (λ list. (list ≡ without S.cmp named.now.list.now subscribers.now) × (0 < length list))) }
{
    Ok(NonEmptyVec::try_from(subscribers.without(alloc, named)?).ok())
}

/// The keys that have no subscriber that is kept.
fn emptied_keys<K: Ord + Clone + Drop, S: Ord, Q: Predicate<K, S>>(
    alloc: Global,
    demand: &BTreeMap<K, Subscribers<S>>,
    keep: &Q,
) -> Result<Vec<K>, AllocError>
    requires keys_clone { (x y : K) → K.is_clone x y → y ≡ x }
    ensures emptied { IfOk result
        (λ keys. keys.items ≡ emptied (Q.keeps keep.now) demand.now.entries) }
    ensures ordered { IfOk result (λ keys. IsStrictlySortedBy K.cmp keys.items) }
{
    let mut emptied = Vec::new(alloc);
    for (key, subscribers) in demand {
        if !subscribers.keeps_any(key, keep) {
            emptied.push(key.clone()?)?;
        }
    }
    Ok(emptied)
}

/// Removes the subscribers that aren't kept, and the keys that have none then.
fn prune<K: Ord + Drop, S: Ord + Drop, Q: Predicate<K, S>>(
    demand: &mut BTreeMap<K, Subscribers<S>>,
    keep: &Q,
)
    ensures { demand.new.entries ≡ kept (Q.keeps keep.now) demand.old.entries }
{
    demand.retain(|key, subscribers| subscribers.retain(key, keep));
}
