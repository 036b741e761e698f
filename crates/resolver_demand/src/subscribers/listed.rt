//! A key's subscribers, in their order.

ghost use Rattle.std.specs.Prelude.{◌≡◌, nat_lt, [], filter, length, IfOk, IfSome, OnOk, OnErr};
ghost use Rattle.std.specs.List.{list_any};
ghost use Rattle.std.specs.List.Sorted.{IsStrictlySortedBy};
ghost use Rattle.std.specs.Map.{keys_of};
ghost use Rattle.resolver_types.specs.Subscribers.{attached_all, without};

use crate::subscribers::named::Named;
use crate::subscribers::{few, many};
use resolver_types::Predicate;
use std::alloc::{AllocError, Global};
use std::collections::BTreeMap;
use std::marker::Model;

/// Up to so many subscribers stand in a plain list, which takes less memory than a map.
const FEW: usize = 16;

/// Subscribers in their order, each once, with their marks. Contracts see the list of them.
#[derive(Clone, Debug, Drop)]
pub struct Subscribers<S: Ord> {
    form: Form<S>,
}

/// How subscribers stand. Those that were many once stay in their map.
#[derive(Clone, Debug, Drop)]
enum Form<S: Ord> {
    Few(Vec<(S, u64)>),
    Many(BTreeMap<S, u64>),
}

impl<S: Ord> Model for Subscribers<S> {
    ghost use Rattle.std.specs.Prelude.{List, ℕ};
    ghost use Rattle.resolver_demand.specs.Listed.{listed_in};

    ghost Value = { List (S × ℕ) };

    ghost view = { λ a. listed_in a.form };
}

impl<S: Ord + Drop> Subscribers<S> {
    /// No subscriber.
    pub(super) fn new(alloc: Global) -> Self
        ensures { result ≡ [] }
    {
        Subscribers {
            form: Form::Few(Vec::new(alloc)),
        }
    }

    /// Removes the named ones.
    pub(super) fn detach_all(&mut self, named: &Named<'_, S>)
        ensures { self.new ≡ without S.cmp named.now.list.now self.old }
    {
        match &mut self.form {
            Form::Few(list) => few::detach_all(list, named),
            Form::Many(map) => many::detach_all(map, named),
        }
    }

    /// Removes those that aren't kept, and answers whether one is left.
    pub(super) fn retain<K: Eq, Q: Predicate<K, S>>(&mut self, key: &K, keep: &Q) -> bool
        ensures after { self.new ≡ filter (λ s. Q.keeps keep.now key.now s.0) self.old }
        ensures some { result ≡ nat_lt 0 (length self.new) }
    {
        match &mut self.form {
            Form::Few(list) => few::retain(list, key, keep),
            Form::Many(map) => many::retain(map, key, keep),
        }
    }
}

impl<S: Ord> Subscribers<S> {
    /// How many there are.
    pub fn len(&self) -> usize
        ensures { result ≡ length self.now }
    {
        match &self.form {
            Form::Few(list) => list.len(),
            Form::Many(map) => map.len(),
        }
    }

    /// Whether one of them is kept.
    pub(super) fn keeps_any<K: Eq, Q: Predicate<K, S>>(&self, key: &K, keep: &Q) -> bool
        ensures { result ≡ list_any (λ s. Q.keeps keep.now key.now s.0) self.now }
    {
        match &self.form {
            Form::Few(list) => few::keeps_any(list, key, keep),
            Form::Many(map) => many::keeps_any(map, key, keep),
        }
    }
}

impl<S: Ord + Clone + Drop> Subscribers<S> {
    /// These, each at its place. A few that stand in their order already are not copied.
    pub(super) fn fresh(alloc: Global, list: Vec<(S, u64)>) -> Result<Self, AllocError>
        requires subscribers_clone { (x y : S) → S.is_clone x y → y ≡ x }
        ensures { IfOk result (λ fresh. fresh ≡ attached_all S.cmp [] list.items) }
    {
        if list.capacity() <= FEW && few::ascends(list.as_slice()) {
            return Ok(Subscribers {
                form: Form::Few(list),
            });
        }
        let mut fresh = Subscribers::new(alloc);
        fresh.attach_all(alloc, list)?;
        Ok(fresh)
    }

    /// Puts each of these at its place. One that is there keeps its mark. Where memory is
    /// refused, nothing changes.
    ///
    /// It takes time in proportion to those that are put, times the logarithm of those that are
    /// there.
    pub(super) fn attach_all(
        &mut self,
        alloc: Global,
        more: Vec<(S, u64)>,
    ) -> Result<(), AllocError>
        requires subscribers_clone { (x y : S) → S.is_clone x y → y ≡ x }
        requires ordered { IsStrictlySortedBy S.cmp (keys_of self.old) }
        ensures ok { OnOk result (self.new ≡ attached_all S.cmp self.old more.items) }
        ensures err { OnErr result (self.new ≡ self.old) }
    {
        if let Some(map) = self.grown(alloc, more.len())? {
            self.form = Form::Many(map);
        }
        match &mut self.form {
            Form::Few(list) => few::attach_all(list, more),
            Form::Many(map) => many::attach_all(alloc, map, more),
        }
    }

    /// A map of the subscribers, where they stand in a list and so many more are too many for it.
    fn grown(&self, alloc: Global, more: usize) -> Result<Option<BTreeMap<S, u64>>, AllocError>
        requires subscribers_clone { (x y : S) → S.is_clone x y → y ≡ x }
        requires ordered { IsStrictlySortedBy S.cmp (keys_of self.now) }
        ensures { IfOk result (λ grown. IfSome grown (λ map. map.entries ≡ self.now)) }
    {
        let Form::Few(list) = &self.form else {
            return Ok(None);
        };
        if list.len().saturating_add(more) <= FEW {
            return Ok(None);
        }
        Ok(Some(many::of_list(alloc, list)?))
    }

    /// Clones of them, in their order.
    pub fn copied(&self, alloc: Global) -> Result<Vec<(S, u64)>, AllocError>
        requires { (x y : S) → S.is_clone x y → y ≡ x }
        ensures { IfOk result (λ list. list.items ≡ self.now) }
    {
        match &self.form {
            Form::Few(list) => Vec::from_clones(alloc, list),
            Form::Many(map) => many::copied(alloc, map),
        }
    }

    /// Clones of those that aren't named, in their order.
    pub(super) fn without(
        &self,
        alloc: Global,
        named: &Named<'_, S>,
    ) -> Result<Vec<(S, u64)>, AllocError>
        requires { (x y : S) → S.is_clone x y → y ≡ x }
        ensures { IfOk result (λ rest. rest.items ≡ without S.cmp named.now.list.now self.now) }
    {
        match &self.form {
            Form::Few(list) => few::without(alloc, list, named),
            Form::Many(map) => many::without(alloc, map, named),
        }
    }
}
