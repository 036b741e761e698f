//! Lists that take what they lack of other ones.

ghost use Rattle.std.specs.Prelude.{◌≡◌, ◌+◌, ◌≤◌, ◌||◌, not, length, IfOk, OnOk, OnErr};
ghost use Rattle.std.specs.BTreeSet.{contains};
ghost use Rattle.std.specs.List.{list_any};
ghost use Rattle.std.specs.Ordering.{is_eq};
ghost use Rattle.std.specs.Vec.{vec_capacity, vec_len};
ghost use Rattle.resolver_types.specs.Joined.{joined};
ghost use Rattle.resolver_types.specs.Subscribers.{is_among, joined_subscribers};

use std::alloc::{AllocError, Global};
use std::collections::BTreeSet;

/// Puts those of these subscribers last that aren't there yet. Each is sought among all.
pub(super) fn join_few_subscribers<S: Ord + Drop>(list: &mut Vec<(S, u64)>, more: Vec<(S, u64)>)
    requires room { vec_len list.old + length more.items ≤ vec_capacity list.old }
    ensures joined { list.new.items ≡ joined_subscribers S.cmp list.old.items more.items }
    ensures grows { length list.old.items ≤ length list.new.items }
{
    for one in more {
        if !is_listed(list, &one.0) {
            list.push_reserved(one);
        }
    }
}

/// Puts those of these subscribers last that aren't there yet, by an index of all. Where memory is
/// refused, nothing changes.
pub(super) fn join_many_subscribers<S: Ord + Clone + Drop>(
    alloc: Global,
    list: &mut Vec<(S, u64)>,
    more: Vec<(S, u64)>,
) -> Result<(), AllocError>
    requires subscribers_clone { (x y : S) → S.is_clone x y → y ≡ x }
    requires room { vec_len list.old + length more.items ≤ vec_capacity list.old }
    ensures ok { OnOk result (list.new.items ≡ joined_subscribers S.cmp list.old.items more.items) }
    ensures err { OnErr result (list.new.items ≡ list.old.items) }
    ensures grows { length list.old.items ≤ length list.new.items }
{
    let count = list.len();
    let mut index = index_of_subscribers(alloc, list)?;
    for one in more {
        match note(&mut index, &one.0) {
            Ok(true) => list.push_reserved(one),
            Ok(false) => {}
            Err(error) => {
                list.truncate(count);
                return Err(error);
            }
        }
    }
    Ok(())
}

/// An index of these subscribers.
fn index_of_subscribers<S: Ord + Clone + Drop>(
    alloc: Global,
    list: &[(S, u64)],
) -> Result<BTreeSet<S>, AllocError>
    requires subscribers_clone { (x y : S) → S.is_clone x y → y ≡ x }
    ensures { IfOk result (λ index. (s : S) → contains S.cmp index s ≡ is_among S.cmp list.now s) }
{
    let mut index = BTreeSet::new(alloc);
    for one in list {
        note(&mut index, &one.0)?;
    }
    Ok(index)
}

/// Puts those of these items last that aren't there yet. Each is sought among all.
pub(super) fn join_few<T: Ord + Drop>(list: &mut Vec<T>, more: Vec<T>)
    requires room { vec_len list.old + length more.items ≤ vec_capacity list.old }
    ensures joined { list.new.items ≡ joined T.eq list.old.items more.items }
    ensures grows { length list.old.items ≤ length list.new.items }
{
    for item in more {
        if !has(list, &item) {
            list.push_reserved(item);
        }
    }
}

/// Puts those of these items last that aren't there yet, by an index of all. Where memory is
/// refused, nothing changes.
pub(super) fn join_many<T: Ord + Clone + Drop>(
    alloc: Global,
    list: &mut Vec<T>,
    more: Vec<T>,
) -> Result<(), AllocError>
    requires items_clone { (x y : T) → T.is_clone x y → y ≡ x }
    requires room { vec_len list.old + length more.items ≤ vec_capacity list.old }
    ensures ok { OnOk result (list.new.items ≡ joined T.eq list.old.items more.items) }
    ensures err { OnErr result (list.new.items ≡ list.old.items) }
    ensures grows { length list.old.items ≤ length list.new.items }
{
    let count = list.len();
    let mut index = index_of(alloc, list)?;
    for item in more {
        match note(&mut index, &item) {
            Ok(true) => list.push_reserved(item),
            Ok(false) => {}
            Err(error) => {
                list.truncate(count);
                return Err(error);
            }
        }
    }
    Ok(())
}

/// An index of these items.
fn index_of<T: Ord + Clone + Drop>(alloc: Global, list: &[T]) -> Result<BTreeSet<T>, AllocError>
    requires items_clone { (x y : T) → T.is_clone x y → y ≡ x }
    ensures { IfOk result
        (λ index. (x : T) → contains T.cmp index x ≡ list_any (λ other. T.eq other x) list.now) }
{
    let mut index = BTreeSet::new(alloc);
    for item in list {
        note(&mut index, item)?;
    }
    Ok(index)
}

/// Puts an item into an index, and answers whether it is new there. Where memory is refused,
/// nothing changes.
fn note<T: Ord + Clone + Drop>(index: &mut BTreeSet<T>, item: &T) -> Result<bool, AllocError>
    requires items_clone { (x y : T) → T.is_clone x y → y ≡ x }
    ensures new { IfOk result (λ new. new ≡ not (contains T.cmp index.old item.now)) }
    ensures after { OnOk result ((x : T)
        → contains T.cmp index.new x ≡ (is_eq (T.cmp x item.now) || contains T.cmp index.old x)) }
{
    Ok(index.insert(item.clone()?)?)
}

/// Whether an item equals this one.
fn has<T: PartialEq>(items: &[T], item: &T) -> bool
    ensures { result ≡ list_any (λ other. T.eq other item.now) items.now }
{
    items.contains(item)
}

/// Whether this subscriber is one of these.
fn is_listed<S: Ord>(list: &[(S, u64)], subscriber: &S) -> bool
    ensures { result ≡ list_any (λ one. is_eq (S.cmp subscriber.now one.0)) list.now }
{
    list.iter().any(|one| subscriber.cmp(&one.0).is_eq())
}
