//! Fetches that wait, one for each key, and their places by key.

ghost use Rattle.std.specs.Prelude.{◌≡◌, ◌≤◌, ◌<◌, [], ◌∷◌, ◌++◌, List, None, length, map, IfErr, IfOk, OnOk, OnErr};
ghost use Rattle.resolver_base.specs.declared.fault.Fault.TheVariants.{OutOfMemory};
ghost use Rattle.std.specs.List.{list_any};
ghost use Rattle.std.specs.Vec.{vec_capacity, vec_len};
ghost use Rattle.std.specs.BTreeMap.{is_at};
ghost use Rattle.std.specs.Map.{lookup, remove_entry};
ghost use Rattle.std.specs.Option.{option_to_list};
ghost use Rattle.resolver_types.specs.Names.{names};
ghost use Rattle.resolver_messages.specs.Waiting.{IsApart, item_of, kept, keys_kept, keys_of_items, merged_item, queued, queued_all, undone, undone_all};
ghost use Rattle.resolver_messages.specs.Places.{Grows, IsPlaced};
ghost use Rattle.resolver_types.specs.Undone.{without_each};

use crate::message::FetchKey;
use crate::metadata::Metadata;
use crate::places::Places;
use resolver_base::Fault;
use resolver_types::{NonEmptyVec, Predicate};
use std::alloc::{AllocError, Global};
use std::mem;

/// A fetch of what both ask for, the earlier one first.
pub(super) fn merged<K: Clone + Drop, S: Ord + Clone + Drop, M: Metadata + Drop>(
    alloc: Global,
    earlier: &FetchKey<K, S, M>,
    later: FetchKey<K, S, M>,
) -> Result<FetchKey<K, S, M>, Fault>
    requires keys_clone { (x y : K) → K.is_clone x y → y ≡ x }
    requires subscribers_clone { (x y : S) → S.is_clone x y → y ≡ x }
    ensures both { IfOk result (λ both. item_of both
        ≡ merged_item S.cmp M.merged (item_of earlier.now) (item_of later)) }
    ensures only { IfErr result (λ fault. fault ≡ OutOfMemory) }
{
    let key = earlier.key.clone()?;
    let mut subscribers = earlier.subscribers.clone()?;
    subscribers.join_subscribers(alloc, later.subscribers)?;
    let mut metadata = earlier.metadata.copy()?;
    metadata.merge(alloc, later.metadata)?;
    Ok(FetchKey {
        key,
        subscribers,
        metadata,
    })
}

/// Puts a fetch into the batch: into the one of its key, or last. What was there before is
/// answered with its place, or nothing where the key is new. Where memory is refused, nothing
/// changes.
pub(super) fn put<K: Ord + Clone + Drop, S: Ord + Clone + Drop, M: Metadata + Drop>(
    alloc: Global,
    batch: &mut Vec<FetchKey<K, S, M>>,
    places: &mut Places<K>,
    item: FetchKey<K, S, M>,
) -> Result<Option<(usize, FetchKey<K, S, M>)>, Fault>
    requires keys_clone { (x y : K) → K.is_clone x y → y ≡ x }
    requires subscribers_clone { (x y : S) → S.is_clone x y → y ≡ x }
    requires placed { IsPlaced K.cmp places.old (keys_of_items batch.old.items) }
    ensures ok { OnOk result (map item_of batch.new.items
        ≡ queued (names K.cmp S.cmp) M.merged (map item_of batch.old.items) (item_of item)) }
    ensures undone { IfOk result (λ was. undone was batch.new.items ≡ batch.old.items) }
    ensures placed { OnOk result (IsPlaced K.cmp places.new (keys_of_items batch.new.items)) }
    ensures grows { OnOk result (Grows K.cmp (keys_of_items batch.old.items) places.old
        (keys_of_items batch.new.items) places.new) }
    ensures err { OnErr result (batch.new.items ≡ batch.old.items) }
    ensures err_places { OnErr result (places.new ≡ places.old) }
    ensures only { IfErr result (λ fault. fault ≡ OutOfMemory) }
{
    let Some(place) = places.get(&item.key) else {
        make_place(batch, places, &item.key)?;
        batch.push_reserved(item);
        return Ok(None);
    };
    let both = merged(alloc, &batch[place], item)?;
    let was = mem::replace(&mut batch[place], both);
    Ok(Some((place, was)))
}

/// Makes a place for a new key, and room for its fetch. Where memory is refused, there is no place.
fn make_place<K: Ord + Clone + Drop, S, M>(
    batch: &mut Vec<FetchKey<K, S, M>>,
    places: &mut Places<K>,
    key: &K,
) -> Result<(), AllocError>
    requires keys_clone { (x y : K) → K.is_clone x y → y ≡ x }
    requires absent { lookup (is_at (K.cmp key.now)) places.old ≡ None }
    ensures same { batch.new.items ≡ batch.old.items }
    ensures room { OnOk result (vec_len batch.new < vec_capacity batch.new) }
    ensures placed { OnOk result ((keys : List K)
        → IsPlaced K.cmp places.old keys → IsPlaced K.cmp places.new (keys ++ key.now ∷ [])) }
    ensures back { OnOk result (remove_entry (is_at (K.cmp key.now)) places.new ≡ places.old) }
    ensures err { OnErr result (places.new ≡ places.old) }
{
    batch.reserve(1)?;
    places.insert(key.clone()?)
}

/// Puts some fetches into the batch, one after another. Where memory is refused, what was put is
/// taken back.
pub fn put_all<K: Ord + Clone + Drop, S: Ord + Clone + Drop, M: Metadata + Drop>(
    alloc: Global,
    batch: &mut Vec<FetchKey<K, S, M>>,
    places: &mut Places<K>,
    items: Vec<FetchKey<K, S, M>>,
) -> Result<(), Fault>
    requires keys_clone { (x y : K) → K.is_clone x y → y ≡ x }
    requires subscribers_clone { (x y : S) → S.is_clone x y → y ≡ x }
    requires placed { IsPlaced K.cmp places.old (keys_of_items batch.old.items) }
    ensures ok { OnOk result (map item_of batch.new.items
        ≡ queued_all (names K.cmp S.cmp) M.merged (map item_of batch.old.items)
        (map item_of items.items)) }
    ensures placed { OnOk result (IsPlaced K.cmp places.new (keys_of_items batch.new.items)) }
    ensures err { OnErr result (batch.new.items ≡ batch.old.items) }
    ensures err_places { OnErr result (places.new ≡ places.old) }
    ensures only { IfErr result (λ fault. fault ≡ OutOfMemory) }
{
    let count = batch.len();
    let mut changes = Vec::with_capacity(alloc, items.len())?;
    for item in items {
        match put(alloc, batch, places, item) {
            Ok(change) => changes.push_reserved(change),
            Err(error) => {
                let (_, added) = batch.as_slice().split_at(count);
                forget(places, added);
                take_back(batch, changes);
                return Err(error);
            }
        }
    }
    Ok(())
}

/// Takes the keys of these fetches back, the last one first.
fn forget<K: Ord + Drop, S, M>(places: &mut Places<K>, added: &[FetchKey<K, S, M>])
    ensures { places.new ≡ without_each K.cmp (keys_of_items added.now) places.old }
{
    let mut left = added;
    while let Some((last, rest)) = left.split_last() {
        places.remove(&last.key);
        left = rest;
    }
}

/// Takes changes back, the last one first.
fn take_back<K: Drop, S: Drop, M: Drop>(
    batch: &mut Vec<FetchKey<K, S, M>>,
    changes: Vec<Option<(usize, FetchKey<K, S, M>)>>,
)
    ensures { batch.new.items ≡ undone_all changes.items batch.old.items }
{
    let mut changes = changes;
    while let Some(change) = changes.pop() {
        take_back_one(batch, change);
    }
}

/// Takes the last change back.
fn take_back_one<K: Drop, S: Drop, M: Drop>(
    batch: &mut Vec<FetchKey<K, S, M>>,
    change: Option<(usize, FetchKey<K, S, M>)>,
)
    ensures { batch.new.items ≡ undone change batch.old.items }
{
    let Some((place, was)) = change else {
        batch.truncate(batch.len().saturating_sub(1));
        return;
    };
    if place < batch.len() {
        batch[place] = was;
    }
}

/// The places of the keys once only the fetches are there that have a subscriber that is kept.
pub fn kept_places<K: Ord + Clone + Drop, S: Ord, M, Q: Predicate<K, S>>(
    alloc: Global,
    batch: &[FetchKey<K, S, M>],
    keep: &Q,
) -> Result<Places<K>, AllocError>
    requires keys_clone { (x y : K) → K.is_clone x y → y ≡ x }
    requires apart { IsApart (names K.cmp S.cmp) (map item_of batch.now) }
    ensures { IfOk result
        (λ places. IsPlaced K.cmp places (keys_kept (Q.keeps keep.now) batch.now)) }
{
    let mut places = Places::new(alloc);
    for item in batch {
        if keeps_any(item, keep) {
            places.insert(item.key.clone()?)?;
        }
    }
    Ok(places)
}

/// Whether a subscriber of this fetch is kept.
fn keeps_any<K: Eq, S: Eq, M, Q: Predicate<K, S>>(item: &FetchKey<K, S, M>, keep: &Q) -> bool
    ensures { result ≡ list_any (λ one. Q.keeps keep.now item.now.key one.0) item.now.subscribers }
{
    let listed = item.subscribers.as_slice();
    listed.iter().any(|one| keep.keep(&item.key, &one.0))
}

/// This fetch for the subscribers that are kept, if any is.
fn pruned_item<K: Eq + Drop, S: Eq + Drop, M: Drop, Q: Predicate<K, S>>(
    item: FetchKey<K, S, M>,
    keep: &Q,
) -> Option<FetchKey<K, S, M>>
    ensures { map item_of (option_to_list result)
        ≡ kept (Q.keeps keep.now) (item_of item ∷ []) }
{
    let FetchKey {
        key,
        subscribers,
        metadata,
    } = item;
    let mut left = subscribers.into_vec();
    left.retain(|one| keep.keep(&key, &one.0));
    let Ok(subscribers) = NonEmptyVec::try_from(left) else {
        return None;
    };
    Some(FetchKey {
        key,
        subscribers,
        metadata,
    })
}

/// The fetches for the subscribers that are kept, without those that have none then.
pub fn prune_all<K: Eq + Drop, S: Eq + Drop, M: Drop, Q: Predicate<K, S>>(
    mut room: Vec<FetchKey<K, S, M>>,
    batch: Vec<FetchKey<K, S, M>>,
    keep: &Q,
) -> Vec<FetchKey<K, S, M>>
    requires empty { room.items ≡ [] }
    requires room { length batch.items ≤ vec_capacity room }
    ensures { map item_of result.items ≡ kept (Q.keeps keep.now) (map item_of batch.items) }
{
    for item in batch {
        if let Some(item) = pruned_item(item, keep) {
            room.push_reserved(item);
        }
    }
    room
}
