//! A list that is never empty.

ghost use Rattle.std.specs.Prelude.{◌≡◌, ◌<◌, ◌≤◌, ◌-◌, ◌^◌, insert, [], ◌∷◌, ◌++◌, length, IfOk, IfErr, OnOk, OnErr, slice_get, Some, IsOk, MatchBool};
ghost use Rattle.std.specs.Cmp.Lexicographic.{lists_equiv, lists_per, pointwise};
ghost use Rattle.std.specs.Iterator.Adapters.{IterYieldsInOrder};
ghost use Rattle.std.specs.List.{list_any};
ghost use Rattle.std.specs.Slice.Iter.{iter_rest};
ghost use Rattle.std.specs.Vec.Iter.{into_iter_items, into_iter_len, into_iter_steps};
ghost use Rattle.resolver_base.specs.declared.fault.Fault.TheVariants.{OutOfMemory};
ghost use Rattle.resolver_types.specs.Joined.{joined};
ghost use Rattle.resolver_types.specs.Mapped.{MapsInTurn, lending};
ghost use Rattle.resolver_types.specs.Subscribers.{all_kept, joined_subscribers, keeps_any};

use crate::joining;
use crate::predicate::Predicate;
use resolver_base::Fault;
use std::alloc::{AllocError, AllocFailed, Global};
use std::marker::Model;
use std::slice::Iter;
use std::vec::IntoIter;

/// Up to so many items are each sought among those that are there; more of them by an index.
const FEW: usize = 8;

/// A list with at least one item. Contracts see it as that list.
#[derive(Clone, Debug, Drop)]
pub struct NonEmptyVec<T> {
    items: Vec<T>,
}

impl<T> Model for NonEmptyVec<T> {
    ghost use Rattle.std.specs.Prelude.{List, ◌<◌, length};

    ghost Value = { List T };

    ghost view = { λ a. a.items.items };

    ghost invariant = { λ a. 0 < length a.items.items };
}

impl<T: Drop> NonEmptyVec<T> {
    /// A list of one item. Where memory is refused, the item comes back in the error.
    pub fn new(alloc: Global, item: T) -> Result<Self, AllocFailed<T>>
        ensures ok { IfOk result (λ list. list ≡ item ∷ []) }
        ensures value_returned { IfErr result (λ failed. failed.value ≡ item) }
    {
        let mut items = Vec::new(alloc);
        items.push(item)?;
        Ok(NonEmptyVec { items })
    }

    /// The list of these items in a row, of which there is one at least. Where memory is refused,
    /// they come back in the error. `non_empty!` writes it shorter.
    pub fn from_array<const N: usize>(
        alloc: Global,
        items: [T; N],
    ) -> Result<Self, AllocFailed<[T; N]>>
        requires positive { 0 < N }
        ensures ok { IfOk result (λ list. list ≡ items) }
        ensures value_returned { IfErr result (λ failed. failed.value ≡ items) }
    {
        let items = Vec::from_array(alloc, items)?;
        Ok(NonEmptyVec { items })
    }

    /// The list of these items, in the memory that they have. An empty list is handed back.
    pub fn try_from(items: Vec<T>) -> Result<Self, Vec<T>>
        ensures ok { IfOk result (λ list. list ≡ items.items) }
        ensures positive { OnOk result (0 < length items.items) }
        ensures empty { IfErr result (λ back. (back ≡ items) × (items.items ≡ [])) }
    {
        if items.is_empty() {
            Err(items)
        } else {
            Ok(NonEmptyVec { items })
        }
    }

    /// The first item.
    pub fn first(&self) -> &T
        ensures { slice_get self.now 0 ≡ Some result.now }
    {
        &self.items[0]
    }

    /// How many items there are: at least one.
    pub fn len(&self) -> usize
        ensures count { result ≡ length self.now }
        ensures positive { 0 < result }
    {
        self.items.len()
    }

    /// Whether an item equals this one. It takes linear time.
    pub fn contains(&self, item: &T) -> bool
    where
        T: PartialEq,
        ensures { result ≡ list_any (λ other. T.eq other item.now) self.now }
    {
        self.as_slice().contains(item)
    }

    /// Puts an item last. Where memory is refused, the item comes back in the error.
    pub fn push(&mut self, item: T) -> Result<(), AllocFailed<T>>
        ensures ok { OnOk result (self.new ≡ self.old ++ item ∷ []) }
        ensures err { OnErr result (self.new ≡ self.old) }
        ensures value_returned { IfErr result (λ failed. failed.value ≡ item) }
    {
        self.items.push(item)
    }

    /// Puts an item at this place, with those from there on behind it. It takes linear time.
    pub fn insert(&mut self, index: usize, item: T) -> Result<(), AllocFailed<T>>
        requires within { index ≤ length self.old }
        ensures ok { OnOk result (self.new ≡ insert self.old index item) }
        ensures err { OnErr result (self.new ≡ self.old) }
        ensures value_returned { IfErr result (λ failed. failed.value ≡ item) }
    {
        self.items.insert(index, item)
    }

    /// Puts those of these items last, in their order, that aren't there yet. Where memory is
    /// refused, nothing changes. It takes time in proportion to both lengths, and where many are
    /// put, times their logarithm.
    pub fn join(&mut self, alloc: Global, more: NonEmptyVec<T>) -> Result<(), Fault>
    where
        T: Ord + Clone,
        requires items_clone { (x y : T) → T.is_clone x y → y ≡ x }
        ensures ok { OnOk result (self.new ≡ joined T.eq self.old more) }
        ensures err { OnErr result (self.new ≡ self.old) }
        ensures only { IfErr result (λ fault. fault ≡ OutOfMemory) }
    {
        self.items.reserve(more.len())?;
        if more.len() <= FEW {
            joining::join_few(&mut self.items, more.items);
            return Ok(());
        }
        joining::join_many(alloc, &mut self.items, more.items)?;
        Ok(())
    }

    /// What `f` gives for each item, in order. The new list's memory is made before the first
    /// call; where it is refused, `f` isn't called and this list comes back in the error.
    pub fn map_into<U, F: FnMut(T) -> U>(
        self,
        mut f: F,
    ) -> Result<NonEmptyVec<U>, AllocFailed<Self>>
        requires { F.IsAlwaysCallable f }
        ensures ok { IfOk result (λ list. MapsInTurn F.step f self list) }
        ensures value_returned { IfErr result (λ failed. failed.value ≡ self) }
    {
        let alloc = *self.items.allocator();
        let Ok(mut mapped) = Vec::with_capacity(alloc, self.items.len()) else {
            return Err(AllocFailed { value: self });
        };
        for item in self.items {
            mapped.push_reserved(f(item));
        }
        Ok(NonEmptyVec { items: mapped })
    }

    /// The items as a plain list, in the memory that they have.
    pub fn into_vec(self) -> Vec<T>
        ensures items { result.items ≡ self }
        ensures positive { 0 < length result.items }
    {
        let NonEmptyVec { items } = self;
        items
    }
}

impl<S: Ord + Clone + Drop> NonEmptyVec<(S, u64)> {
    /// Puts those of these subscribers last, in their order, that aren't there yet. One that is
    /// there keeps its mark. Where memory is refused, nothing changes. It takes time in proportion
    /// to both lengths, and where many are put, times their logarithm.
    pub fn join_subscribers(
        &mut self,
        alloc: Global,
        more: NonEmptyVec<(S, u64)>,
    ) -> Result<(), Fault>
        requires subscribers_clone { (x y : S) → S.is_clone x y → y ≡ x }
        ensures ok { OnOk result (self.new ≡ joined_subscribers S.cmp self.old more) }
        ensures err { OnErr result (self.new ≡ self.old) }
        ensures only { IfErr result (λ fault. fault ≡ OutOfMemory) }
    {
        self.items.reserve(more.len())?;
        if more.len() <= FEW {
            joining::join_few_subscribers(&mut self.items, more.items);
            return Ok(());
        }
        joining::join_many_subscribers(alloc, &mut self.items, more.items)?;
        Ok(())
    }
}

impl<T> NonEmptyVec<T> {
    /// The items in their order.
    pub fn as_slice(&self) -> &[T]
        ensures value { result.now ≡ self.now }
        ensures positive { 0 < length result.now }
    {
        self.items.as_slice()
    }

    /// What `f` gives for each item, which it is lent, in order. The new list's memory is made
    /// before the first call; where it is refused, `f` isn't called.
    pub fn map<U, F: FnMut(&T) -> U>(&self, mut f: F) -> Result<NonEmptyVec<U>, Fault>
        requires { F.IsAlwaysCallable f }
        ensures ok { IfOk result (λ list. MapsInTurn (lending F.step) f self.now list) }
        ensures only { IfErr result (λ fault. fault ≡ OutOfMemory) }
    {
        let mut answers = Vec::with_capacity(*self.items.allocator(), self.items.len())?;
        for item in &self.items {
            answers.push_reserved(f(item));
        }
        Ok(NonEmptyVec { items: answers })
    }

    /// The items by reference, in their order.
    pub fn iter(&self) -> Iter<'_, T>
        ensures rest { iter_rest result ≡ self.now }
        ensures runs { IterYieldsInOrder T }
    {
        self.items.iter()
    }
}

impl<S: Eq + Drop> NonEmptyVec<(S, u64)> {
    /// Whether one of these subscribers of a key is kept.
    pub fn keeps_any<K: Eq, Q: Predicate<K, S>>(&self, key: &K, keep: &Q) -> bool
        ensures { result ≡ keeps_any (Q.keeps keep.now key.now) self.now }
    {
        self.as_slice().iter().any(|one| keep.keep(key, &one.0))
    }

    /// Removes the subscribers of a key that aren't kept, and answers whether one is. Where none
    /// is, all of them stay.
    pub fn retain_kept<K: Eq, Q: Predicate<K, S>>(&mut self, key: &K, keep: &Q) -> bool
        ensures some { result ≡ keeps_any (Q.keeps keep.now key.now) self.old }
        ensures after { MatchBool result (self.new ≡ all_kept (Q.keeps keep.now key.now) self.old) (self.new ≡ self.old) }
    {
        let is_left = self.keeps_any(key, keep);
        if is_left {
            self.items.retain(|one| keep.keep(key, &one.0));
        }
        is_left
    }
}

impl<T: Clone> NonEmptyVec<T> {
    /// A list of clones, which are to equal their sources.
    pub fn clone(&self) -> Result<Self, AllocError>
        requires clones { (x y : T) → T.is_clone x y → y ≡ x }
        ensures same { IfOk result (λ list. list ≡ self.now) }
    {
        let items = self.items.clone()?;
        Ok(NonEmptyVec { items })
    }
}

/// Equal lists have equal items, one by one.
impl<T: PartialEq> PartialEq for NonEmptyVec<T> {
    ghost eq = { pointwise T.eq };

    ghost laws = { lists_per T.laws };

    fn eq(&self, other: &Self) -> bool {
        self.items == other.items
    }
}

impl<T: Eq> Eq for NonEmptyVec<T> {
    ghost laws = { lists_equiv T.Eq.laws };
}

/// The items by value, in their order.
impl<T: Drop> IntoIterator for NonEmptyVec<T> {
    ghost use Rattle.std.specs.Iterator.Runs.{EveryRun, ItemsAre};
    ghost use Rattle.std.specs.declared.alloc.Global.{Global};

    type Item = T;

    type IntoIter = IntoIter<T>;

    ghost into_iter_gives = { λ list items. (into_iter_items items ≡ list) × (into_iter_len items ≡ length list) × (into_iter_len items < 2 ^ 64) × EveryRun (into_iter_steps {X = T} {Z = Global}) (λ p. ItemsAre p (into_iter_items p.from)) };

    fn into_iter(self) -> IntoIter<T> {
        self.into_vec().into_iter()
    }
}

/// The items by reference, in their order.
impl<'a, T> IntoIterator for &'a NonEmptyVec<T> {
    type Item = &'a T;

    type IntoIter = Iter<'a, T>;

    ghost into_iter_gives = { λ list items. (iter_rest items ≡ list.now) × (length (iter_rest items) < 2 ^ 64) × IterYieldsInOrder T };

    fn into_iter(self) -> Iter<'a, T> {
        self.iter()
    }
}
