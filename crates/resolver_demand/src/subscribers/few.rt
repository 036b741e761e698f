//! A few subscribers, in a list.

ghost use Rattle.std.specs.Prelude.{◌≡◌, ◌≤◌, nat_lt, filter, insert, length, IfOk, IsTrue, OnOk, OnErr, MatchOption};
ghost use Rattle.std.specs.List.Sorted.{IsStrictlySortedBy};
ghost use Rattle.std.specs.Map.{keys_of};
ghost use Rattle.std.specs.List.{list_any};
ghost use Rattle.resolver_types.specs.Subscribers.{attached, attached_all, without};

use crate::subscribers::named::Named;
use resolver_types::Predicate;
use std::alloc::{AllocError, Global};
use std::cmp::Ordering;

/// Puts each of these at its place. One that is there keeps its mark. Where memory is refused,
/// nothing changes.
pub(super) fn attach_all<S: Ord + Drop>(
    list: &mut Vec<(S, u64)>,
    more: Vec<(S, u64)>,
) -> Result<(), AllocError>
    ensures ok { OnOk result (list.new.items ≡ attached_all S.cmp list.old.items more.items) }
    ensures err { OnErr result (list.new.items ≡ list.old.items) }
{
    list.reserve(more.len())?;
    for one in more {
        if let Some(place) = place_of(list.as_slice(), &one) {
            let _ = list.insert(place, one);
        }
    }
    Ok(())
}

/// Where a subscriber goes; nowhere if it is there.
fn place_of<S: Ord>(list: &[(S, u64)], one: &(S, u64)) -> Option<usize>
    ensures { MatchOption result (attached S.cmp list.now one.now ≡ list.now)
        (λ i. (i ≤ length list.now)
        × (attached S.cmp list.now one.now ≡ insert list.now i one.now)) }
{
    for (i, other) in list.iter().enumerate() {
        match one.0.cmp(&other.0) {
            Ordering::Less => return Some(i),
            Ordering::Equal => return None,
            Ordering::Greater => {}
        }
    }
    Some(list.len())
}

/// Whether these stand in their order, each once.
pub(super) fn ascends<S: Ord>(list: &[(S, u64)]) -> bool
    ensures { IsTrue result → IsStrictlySortedBy S.cmp (keys_of list.now) }
{
    for i in 1..list.len() {
        match list[i - 1].0.cmp(&list[i].0) {
            Ordering::Less => {}
            _ => return false,
        }
    }
    true
}

/// Removes the named ones.
pub(super) fn detach_all<S: Ord + Drop>(list: &mut Vec<(S, u64)>, named: &Named<'_, S>)
    ensures { list.new.items ≡ without S.cmp named.now.list.now list.old.items }
{
    list.retain(|one| !named.has(&one.0));
}

/// Removes those that aren't kept, and answers whether one is left.
pub(super) fn retain<K: Eq, S: Ord + Drop, Q: Predicate<K, S>>(
    list: &mut Vec<(S, u64)>,
    key: &K,
    keep: &Q,
) -> bool
    ensures after { list.new.items ≡ filter (λ s. Q.keeps keep.now key.now s.0) list.old.items }
    ensures some { result ≡ nat_lt 0 (length list.new.items) }
{
    list.retain(|one| keep.keep(key, &one.0));
    0 < list.len()
}

/// Whether one of them is kept.
pub(super) fn keeps_any<K: Eq, S: Ord, Q: Predicate<K, S>>(
    list: &[(S, u64)],
    key: &K,
    keep: &Q,
) -> bool
    ensures { result ≡ list_any (λ s. Q.keeps keep.now key.now s.0) list.now }
{
    list.iter().any(|one| keep.keep(key, &one.0))
}

/// Clones of those that aren't named, in their order.
pub(super) fn without<S: Ord + Clone + Drop>(
    alloc: Global,
    list: &[(S, u64)],
    named: &Named<'_, S>,
) -> Result<Vec<(S, u64)>, AllocError>
    requires { (x y : S) → S.is_clone x y → y ≡ x }
    ensures { IfOk result (λ rest. rest.items ≡ without S.cmp named.now.list.now list.now) }
{
    let mut rest = Vec::new(alloc);
    for one in list {
        if !named.has(&one.0) {
            rest.push(one.clone()?)?;
        }
    }
    Ok(rest)
}
