//! Many subscribers, in an ordered map.

ghost use Rattle.std.specs.Prelude.{◌≡◌, nat_lt, filter, length, IfOk, OnOk, OnErr};
ghost use Rattle.std.specs.List.{list_any};
ghost use Rattle.std.specs.List.Sorted.{IsStrictlySortedBy};
ghost use Rattle.std.specs.Map.{keys_of};
ghost use Rattle.std.specs.BTreeMap.{insert_entry};
ghost use Rattle.resolver_types.specs.Subscribers.{attached_all, without};
ghost use Rattle.resolver_types.specs.Undone.{without_each};

use crate::subscribers::named::Named;
use resolver_types::Predicate;
use std::alloc::{AllocError, Global};
use std::collections::BTreeMap;

/// A map of these, which stand in their order.
pub(super) fn of_list<S: Ord + Clone + Drop>(
    alloc: Global,
    list: &[(S, u64)],
) -> Result<BTreeMap<S, u64>, AllocError>
    requires subscribers_clone { (x y : S) → S.is_clone x y → y ≡ x }
    requires ordered { IsStrictlySortedBy S.cmp (keys_of list.now) }
    ensures { IfOk result (λ map. map.entries ≡ list.now) }
{
    let mut map = BTreeMap::new(alloc);
    for one in list {
        map.insert(one.0.clone()?, one.1)?;
    }
    Ok(map)
}

/// Puts each of these at its place. One that is there keeps its mark. Where memory is refused,
/// nothing changes.
pub(super) fn attach_all<S: Ord + Clone + Drop>(
    alloc: Global,
    map: &mut BTreeMap<S, u64>,
    more: Vec<(S, u64)>,
) -> Result<(), AllocError>
    requires subscribers_clone { (x y : S) → S.is_clone x y → y ≡ x }
    requires ordered { IsStrictlySortedBy S.cmp (keys_of map.old.entries) }
    ensures ok { OnOk result (map.new.entries ≡ attached_all S.cmp map.old.entries more.items) }
    ensures err { OnErr result (map.new.entries ≡ map.old.entries) }
{
    let mut added = Vec::with_capacity(alloc, more.len())?;
    for one in more {
        if map.contains_key(&one.0) {
            continue;
        }
        if let Err(error) = attach(map, &one) {
            take_back(map, added);
            return Err(error);
        }
        added.push_reserved(one.0);
    }
    Ok(())
}

/// Puts one that isn't there at its place. Where memory is refused, nothing changes.
fn attach<S: Ord + Clone + Drop>(
    map: &mut BTreeMap<S, u64>,
    one: &(S, u64),
) -> Result<(), AllocError>
    requires subscribers_clone { (x y : S) → S.is_clone x y → y ≡ x }
    ensures ok { OnOk result
        (map.new.entries ≡ insert_entry S.cmp map.old.entries one.now.0 one.now.1) }
    ensures ordered { OnOk result (IsStrictlySortedBy S.cmp (keys_of map.new.entries)) }
    ensures err { OnErr result (map.new.entries ≡ map.old.entries) }
{
    map.insert(one.0.clone()?, one.1)?;
    Ok(())
}

/// Removes these, the last one first.
fn take_back<S: Ord + Drop>(map: &mut BTreeMap<S, u64>, added: Vec<S>)
    ensures { map.new.entries ≡ without_each S.cmp added.items map.old.entries }
{
    let mut added = added;
    while let Some(one) = added.pop() {
        map.remove(&one);
    }
}

/// Removes the named ones.
pub(super) fn detach_all<S: Ord + Drop>(map: &mut BTreeMap<S, u64>, named: &Named<'_, S>)
    ensures { map.new.entries ≡ without S.cmp named.now.list.now map.old.entries }
{
    map.retain(|one, _| !named.has(one));
}

/// Removes those that aren't kept, and answers whether one is left.
pub(super) fn retain<K: Eq, S: Ord + Drop, Q: Predicate<K, S>>(
    map: &mut BTreeMap<S, u64>,
    key: &K,
    keep: &Q,
) -> bool
    ensures after { map.new.entries ≡ filter (λ s. Q.keeps keep.now key.now s.0) map.old.entries }
    ensures some { result ≡ nat_lt 0 (length map.new.entries) }
{
    map.retain(|one, _| keep.keep(key, one));
    0 < map.len()
}

/// Whether one of them is kept.
pub(super) fn keeps_any<K: Eq, S: Ord, Q: Predicate<K, S>>(
    map: &BTreeMap<S, u64>,
    key: &K,
    keep: &Q,
) -> bool
    ensures { result ≡ list_any (λ s. Q.keeps keep.now key.now s.0) map.now.entries }
{
    for (one, _) in map {
        if keep.keep(key, one) {
            return true;
        }
    }
    false
}

/// Clones of them, in their order.
pub(super) fn copied<S: Ord + Clone + Drop>(
    alloc: Global,
    map: &BTreeMap<S, u64>,
) -> Result<Vec<(S, u64)>, AllocError>
    requires { (x y : S) → S.is_clone x y → y ≡ x }
    ensures { IfOk result (λ list. list.items ≡ map.now.entries) }
{
    let mut list = Vec::with_capacity(alloc, map.len())?;
    for (one, mark) in map {
        list.push((one.clone()?, *mark))?;
    }
    Ok(list)
}

/// Clones of those that aren't named, in their order.
pub(super) fn without<S: Ord + Clone + Drop>(
    alloc: Global,
    map: &BTreeMap<S, u64>,
    named: &Named<'_, S>,
) -> Result<Vec<(S, u64)>, AllocError>
    requires { (x y : S) → S.is_clone x y → y ≡ x }
    ensures { IfOk result (λ rest. rest.items ≡ without S.cmp named.now.list.now map.now.entries) }
{
    let mut rest = Vec::new(alloc);
    for (one, mark) in map {
        if !named.has(one) {
            rest.push((one.clone()?, *mark))?;
        }
    }
    Ok(rest)
}
