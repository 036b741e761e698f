//! The keys that are tried again, and how often.

ghost use Rattle.std.specs.Prelude.{◌≡◌, None, false, unwrap_or, IfErr, OnErr, OnOk};
ghost use Rattle.std.specs.BTreeMap.{insert_entry, is_at};
ghost use Rattle.std.specs.Map.{lookup};
ghost use Rattle.resolver_priority_set.specs.Priorities.{has_item};
ghost use Rattle.resolver_base.specs.declared.fault.Fault.TheVariants.{OutOfMemory};
ghost use Rattle.resolver_fetch_scan.specs.Waiting.{once_more};
ghost use Rattle.resolver_fetch_waiting.specs.Pending.{with_key};

use crate::pending::Pending;
use resolver_base::Fault;
use resolver_fetch_scan::place::Place;
use std::collections::BTreeMap;

/// Has a key wait at this place, and counts that it is tried once more.
pub fn count_retry<K: Ord + Clone + Drop>(
    retries: &mut BTreeMap<K, u32>,
    pending: &mut Pending<K>,
    key: K,
    place: Place,
) -> Result<(), Fault>
    requires not_waiting { has_item K.cmp pending.old.keys key ≡ false }
    requires keys_clone { (x y : K) → K.is_clone x y → y ≡ x }
    ensures ok { OnOk result (pending.new ≡ with_key K.cmp (place, key) pending.old) }
    ensures counted { OnOk result (retries.new.entries
        ≡ insert_entry K.cmp retries.old.entries key
        (once_more (unwrap_or (lookup (is_at (K.cmp key)) retries.old.entries) 0))) }
    ensures err { OnErr result (pending.new ≡ pending.old) }
    ensures as_before { OnErr result (retries.new.entries ≡ retries.old.entries) }
    ensures only { IfErr result (λ fault. fault ≡ OutOfMemory) }
{
    if let Some(count) = retries.get_mut(&key) {
        pending.put(key, place)?;
        *count = count.saturating_add(1);
        return Ok(());
    }
    count_first(retries, pending, key, place)
}

/// Has a key wait at this place that was never put back before, and counts that it is tried once
/// more.
fn count_first<K: Ord + Clone + Drop>(
    retries: &mut BTreeMap<K, u32>,
    pending: &mut Pending<K>,
    key: K,
    place: Place,
) -> Result<(), Fault>
    requires first { lookup (is_at (K.cmp key)) retries.old.entries ≡ None }
    requires not_waiting { has_item K.cmp pending.old.keys key ≡ false }
    requires keys_clone { (x y : K) → K.is_clone x y → y ≡ x }
    ensures ok { OnOk result (pending.new ≡ with_key K.cmp (place, key) pending.old) }
    ensures counted { OnOk result
        (retries.new.entries ≡ insert_entry K.cmp retries.old.entries key 1) }
    ensures err { OnErr result (pending.new ≡ pending.old) }
    ensures as_before { OnErr result (retries.new.entries ≡ retries.old.entries) }
    ensures only { IfErr result (λ fault. fault ≡ OutOfMemory) }
{
    let waits = key.clone()?;
    let counted = key.clone()?;
    retries.insert(counted, 1)?;
    if let Err(fault) = pending.put(waits, place) {
        retries.remove(&key);
        return Err(fault);
    }
    Ok(())
}
