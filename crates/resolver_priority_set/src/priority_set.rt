//! A set that is ordered by priority.

ghost use Rattle.std.specs.Prelude.{◌≡◌, ◌≤◌, ◌<◌, ◌^◌, ◌↔◌, Bool, [], ◌∷◌, if◌then◌else◌, None, Some, filter, length, slice_get, IfNone, IfOk, IfErr, IfSome, IsTrue, OnErr, OnOk};
ghost use Rattle.std.specs.BTreeMap.{is_at};
ghost use Rattle.std.specs.BTreeSet.{insert_key, replace_key};
ghost use Rattle.std.specs.Fn.{FnReturnsAt};
ghost use Rattle.std.specs.List.Sorted.{IsStrictlySortedBy};
ghost use Rattle.std.specs.Map.{lookup};
ghost use Rattle.std.specs.Map.Iter.{ShowsInOrder, deref};
ghost use Rattle.std.specs.Option.{option_copied};
ghost use Rattle.std.specs.Ordering.{is_eq};
ghost use Rattle.std.specs.Set.{remove_key};
ghost use Rattle.resolver_base.specs.Answering.{AnswersBy};
ghost use Rattle.resolver_priority_set.specs.Priorities.{IsIndexed, after, from, has_item, indexed, listed, pair_order, priorities_of, put, retained, without};
ghost use Rattle.resolver_base.specs.declared.fault.Fault.TheVariants.{OutOfMemory};

use resolver_base::Fault;
use std::alloc::{AllocError, Global};
use std::collections::btree_map::Entry;
use std::collections::btree_set::{Iter, Range};
use std::collections::{BTreeMap, BTreeSet};
use std::marker::Model;
use std::ops::Bound;

/// Items with their priorities, each item once, ordered by priority and then by item.
///
/// Contracts see it as the list of its pairs of a priority and an item, in order. A call on one
/// item takes time logarithmic in the number of items.
#[derive(Debug, Drop)]
pub struct PrioritySet<I: Ord, R: Ord> {
    ordered: BTreeSet<(R, I)>,
    priorities: BTreeMap<I, R>,
}

impl<I: Ord, R: Ord> Model for PrioritySet<I, R> {
    ghost use Rattle.std.specs.Prelude.{List};
    ghost use Rattle.resolver_priority_set.specs.Priorities.{IsIndexed};

    ghost Value = { List (R × I) };

    ghost view = { λ a. a.ordered.keys };

    ghost invariant = { λ a. IsIndexed R.cmp I.cmp a.ordered.keys a.priorities.entries };
}

impl<I: Ord, R: Ord> PrioritySet<I, R> {
    /// No item.
    pub fn new(alloc: Global) -> Self
        ensures { result ≡ [] }
    {
        PrioritySet {
            ordered: BTreeSet::new(alloc),
            priorities: BTreeMap::new(alloc),
        }
    }

    /// The least item with its priority, if there is any item.
    pub fn peek(&self) -> Option<(&I, &R)>
        ensures least { IfSome result
            (λ entry. slice_get self.now 0 ≡ Some (entry.1.now, entry.0.now)) }
        ensures none { IfNone result (self.now ≡ []) }
    {
        let pair = self.ordered.first()?;
        Some((&pair.1, &pair.0))
    }

    /// Whether this item is there.
    pub fn contains(&self, item: &I) -> bool
        ensures { result ≡ has_item I.cmp self.now item.now }
    {
        self.priorities.contains_key(item)
    }

    /// The priority of this item, if it is there.
    pub fn get(&self, item: &I) -> Option<&R>
        ensures { listed (option_copied result) ≡ priorities_of I.cmp self.now item.now }
    {
        self.priorities.get(item)
    }

    /// How many items there are.
    pub fn len(&self) -> usize
        ensures count { result ≡ length self.now }
        ensures small { result < 2 ^ 63 }
        ensures ordered { IsStrictlySortedBy (pair_order R.cmp I.cmp) self.now }
    {
        self.ordered.len()
    }

    /// Whether there is no item.
    pub fn is_empty(&self) -> bool
        ensures { IsTrue result ↔ (self.now ≡ []) }
    {
        self.ordered.is_empty()
    }

    /// The priorities with their items, in order.
    pub fn iter(&self) -> Iter<'_, (R, I)>
        ensures rest { result ≡ self.now }
        ensures ordered { IsStrictlySortedBy (pair_order R.cmp I.cmp) self.now }
        ensures once { (item : I) → length (priorities_of I.cmp self.now item) ≤ 1 }
        ensures runs { ShowsInOrder (deref {X = R × I}) }
    {
        self.ordered.iter()
    }
}

impl<I: Ord + Clone + Drop, R: Ord + Drop> PrioritySet<I, R> {
    /// The priorities from this one on with their items, in order. The first is found in
    /// logarithmic time.
    ///
    /// An item is cloned; clones are to equal their sources.
    pub fn range_from(&self, priority: R) -> Result<Range<'_, (R, I)>, Fault>
        requires items_clone { (x y : I) → I.is_clone x y → y ≡ x }
        ensures rest { IfOk result (λ pairs. pairs ≡ from R.cmp priority self.now) }
        ensures ordered { IfOk result (IsStrictlySortedBy (pair_order R.cmp I.cmp)) }
        ensures runs { OnOk result (ShowsInOrder (deref {X = R × I})) }
        ensures only { IfErr result (λ fault. fault ≡ OutOfMemory) }
    {
        let Some((least, _)) = self.priorities.first_key_value() else {
            return Ok(self.ordered.range(..));
        };
        let start = (priority, least.clone()?);
        Ok(self.ordered.range(start..))
    }
}

impl<I: Ord + Drop, R: Ord + Drop> PrioritySet<I, R> {
    /// The pairs that follow a pair, in order. The first is found in logarithmic time.
    pub fn range_after(&self, pair: &(R, I)) -> Range<'_, (R, I)>
        ensures rest { result ≡ after R.cmp I.cmp pair.now self.now }
        ensures ordered { IsStrictlySortedBy (pair_order R.cmp I.cmp) result }
        ensures whole { IsStrictlySortedBy (pair_order R.cmp I.cmp) self.now }
        ensures runs { ShowsInOrder (deref {X = R × I}) }
    {
        self.ordered
            .range((Bound::Excluded(pair), Bound::Unbounded))
    }

    /// Puts an item at its place. An equal item that is there stays, and takes the priority.
    /// Where memory is refused, nothing changes.
    ///
    /// The item and the priority are cloned; clones are to equal their sources.
    #[inline]
    pub fn put(&mut self, item: I, priority: R) -> Result<(), Fault>
    where
        I: Clone,
        R: Clone,
        requires items_clone { (x y : I) → I.is_clone x y → y ≡ x }
        requires priorities_clone { (x y : R) → R.is_clone x y → y ≡ x }
        ensures ok { OnOk result (self.new ≡ put R.cmp I.cmp self.old (priority, item)) }
        ensures err { OnErr result (self.new ≡ self.old) }
        ensures only { IfErr result (λ fault. fault ≡ OutOfMemory) }
    {
        let pair = pair_of(&item, &priority)?;
        match self.priorities.entry(item)? {
            Entry::Occupied(place) => {
                move_item(&mut self.ordered, place.into_mut(), pair, priority)
            }
            Entry::Vacant(place) => {
                place.insert(priority);
                put_new(&mut self.ordered, &mut self.priorities, pair)
            }
        }
    }

    /// Takes the least item out, with its priority, if there is any item.
    pub fn pop(&mut self) -> Option<(I, R)>
        ensures least { IfSome result (λ entry. self.old ≡ (entry.1, entry.0) ∷ self.new) }
        ensures none { IfNone result ((self.old ≡ []) × (self.new ≡ [])) }
    {
        let (priority, item) = self.ordered.pop_first()?;
        self.priorities.remove(&item);
        Some((item, priority))
    }

    /// Takes this item out, and answers whether it was there.
    pub fn remove(&mut self, item: &I) -> bool
        ensures after { self.new ≡ without I.cmp item.now self.old }
        ensures was_there { result ≡ has_item I.cmp self.old item.now }
    {
        let Some((held, priority)) = self.priorities.remove_entry(item) else {
            return false;
        };
        self.ordered.remove(&(priority, held));
        true
    }

    /// Drops the items that aren't kept, with a look-up for each item. `keep` is pure.
    pub fn retain<F: Fn(&I) -> bool>(&mut self, keep: F)
        requires { F.IsAlwaysCallable keep }
        ensures kept { (test : I → Bool) → AnswersBy F.Fn keep test
            → self.new ≡ retained test self.old }
        ensures part { (test : R × I → Bool) × (self.new ≡ filter test self.old) }
    {
        forget(&self.ordered, &mut self.priorities, &keep);
        let priorities = &self.priorities;
        self.ordered.retain(|pair| priorities.contains_key(&pair.1));
    }
}

/// Takes the items that aren't kept out of the index.
fn forget<I: Ord + Drop, R: Ord + Drop, F: Fn(&I) -> bool>(
    ordered: &BTreeSet<(R, I)>,
    priorities: &mut BTreeMap<I, R>,
    keep: &F,
)
    requires callable { F.IsAlwaysCallable keep.now }
    requires before { IsIndexed R.cmp I.cmp ordered.now.keys priorities.old.entries }
    ensures after { (item : I) → priorities_of I.cmp (indexed I.cmp priorities.new.entries ordered.now.keys) item
        ≡ listed (lookup (is_at (I.cmp item)) priorities.new.entries) }
    ensures kept { (test : I → Bool) → AnswersBy F.Fn keep.now test
        → indexed I.cmp priorities.new.entries ordered.now.keys ≡ retained test ordered.now.keys }
{
    for pair in ordered {
        if !keeps(keep, &pair.1) {
            priorities.remove(&pair.1);
        }
    }
}

/// What a test answers of an item.
fn keeps<I, F: Fn(&I) -> bool>(keep: &F, item: &I) -> bool
    requires { F.IsAlwaysCallable keep.now }
    ensures { FnReturnsAt F.Fn keep.now item.now result }
{
    keep(item)
}

/// Clones of a priority and of an item.
#[inline]
fn pair_of<I: Clone + Drop, R: Clone + Drop>(item: &I, priority: &R) -> Result<(R, I), AllocError>
    requires items_clone { (x y : I) → I.is_clone x y → y ≡ x }
    requires priorities_clone { (x y : R) → R.is_clone x y → y ≡ x }
    ensures { IfOk result (λ pair. pair ≡ (priority.now, item.now)) }
{
    Ok((priority.clone()?, item.clone()?))
}

/// Puts a pair at its place. Where memory is refused, the index forgets its item.
#[inline]
fn put_new<I: Ord + Drop, R: Ord + Drop>(
    ordered: &mut BTreeSet<(R, I)>,
    priorities: &mut BTreeMap<I, R>,
    pair: (R, I),
) -> Result<(), Fault>
    ensures ok { OnOk result
        (ordered.new.keys ≡ insert_key (pair_order R.cmp I.cmp) ordered.old.keys pair) }
    ensures stays { OnOk result (priorities.new.entries ≡ priorities.old.entries) }
    ensures err { OnErr result (ordered.new.keys ≡ ordered.old.keys) }
    ensures forgets { OnErr result ((item : I) → lookup (is_at (I.cmp item)) priorities.new.entries
        ≡ (if is_eq (I.cmp pair.1 item) then None else lookup (is_at (I.cmp item)) priorities.old.entries)) }
    ensures sorted { IsStrictlySortedBy (pair_order R.cmp I.cmp) ordered.new.keys }
    ensures only { IfErr result (λ fault. fault ≡ OutOfMemory) }
{
    if let Err(refused) = ordered.insert(pair) {
        priorities.remove(&refused.value.1);
        return Err(Fault::OutOfMemory);
    }
    Ok(())
}

/// Gives an item that is there, and has the priority `held` so far, the priority of a pair.
#[inline]
fn move_item<I: Ord + Clone + Drop, R: Ord + Clone + Drop>(
    ordered: &mut BTreeSet<(R, I)>,
    held: &mut R,
    pair: (R, I),
    priority: R,
) -> Result<(), Fault>
    requires items_clone { (x y : I) → I.is_clone x y → y ≡ x }
    requires priorities_clone { (x y : R) → R.is_clone x y → y ≡ x }
    requires sorted { IsStrictlySortedBy (pair_order R.cmp I.cmp) ordered.old.keys }
    requires there { priorities_of I.cmp ordered.old.keys pair.1 ≡ held.old ∷ [] }
    ensures ok { OnOk result (ordered.new.keys ≡ put R.cmp I.cmp ordered.old.keys pair) }
    ensures moved { OnOk result (held.new ≡ priority) }
    ensures err { OnErr result (ordered.new.keys ≡ ordered.old.keys) }
    ensures stays { OnErr result (held.new ≡ held.old) }
    ensures sorted { IsStrictlySortedBy (pair_order R.cmp I.cmp) ordered.new.keys }
    ensures only { IfErr result (λ fault. fault ≡ OutOfMemory) }
{
    let before = (held.clone()?, pair.1);
    let Some(there) = ordered.get(&before) else {
        unreachable!()
    };
    let after = (pair.0, there.1.clone()?);
    let level = after.0.cmp(held).is_eq();
    exchange(ordered, &before, after, level)?;
    *held = priority;
    Ok(())
}

/// Puts `after` into a set, and takes `before` out. Where both are level, one takes the place of the
/// other. Where memory is refused, nothing changes.
#[inline]
fn exchange<T: Ord + Drop>(
    set: &mut BTreeSet<T>,
    before: &T,
    after: T,
    level: bool,
) -> Result<(), AllocError>
    ensures ok { OnOk result (set.new.keys ≡ (if level then replace_key T.cmp set.old.keys after
        else remove_key (is_at (T.cmp before.now)) (insert_key T.cmp set.old.keys after))) }
    ensures err { OnErr result (set.new.keys ≡ set.old.keys) }
    ensures sorted { IsStrictlySortedBy T.cmp set.new.keys }
{
    if level {
        set.replace(after)?;
    } else {
        set.insert(after)?;
        set.remove(before);
    }
    Ok(())
}
