//! The demanded keys of the actor: who wants each, and what is being done for it.

ghost use Rattle.std.specs.Prelude.{◌≡◌, ◌<◌, ◌++◌, ◌∷◌, [], IfErr, IfOk, OnOk, length, map};
ghost use Rattle.std.specs.List.Sorted.{IsStrictlySortedBy};
ghost use Rattle.std.specs.Map.{keys_of};
ghost use Rattle.resolver_base.specs.declared.fault.Fault.TheVariants.{OutOfMemory};
ghost use Rattle.resolver_model_opaque.specs.Opaque.{called_off};
ghost use Rattle.resolver_model_opaque.specs.OpaqueTables.{row_of, rows_of};
ghost use Rattle.resolver_model_opaque.specs.OpaqueFound.{all_kept_called_off, each_called_off, without_each};
ghost use Rattle.resolver_model_opaque.specs.OpaqueListed.{listed};
ghost use Rattle.resolver_model_opaque.specs.OpaqueByPhase.{phase_of};

use crate::effects::Effect;
use crate::{Keys, Phase, Stage, Stages, listed_phase};
use resolver_base::Fault;
use resolver_delivery::Entry;
use resolver_demand::subscribers::{Subscribers, Tracker};
use resolver_types::NonEmptyVec;
use std::alloc::{AllocError, Global};

/// A demanded key.
#[derive(Debug, Drop)]
pub struct Row<K, S> {
    /// The data that is wanted.
    pub key: K,
    /// Who wants it, in the order of the subscribers, with their trace marks.
    pub subscribers: NonEmptyVec<(S, u64)>,
    /// What is being done for it.
    pub phase: Phase,
}

/// The rows as the actor's callers see them.
pub fn listed<K: Ord + Clone + Drop, V: Drop, S: Ord + Clone + Drop>(
    alloc: Global,
    demand: &Tracker<K, S>,
    entries: &Keys<K, S, V>,
) -> Result<Vec<Row<K, S>>, Fault>
    requires keys_clone { (x y : K) → K.is_clone x y → y ≡ x }
    requires subscribers_clone { (x y : S) → S.is_clone x y → y ≡ x }
    ensures rows { IfOk result
        (λ list. list.items ≡ map listed (rows_of demand.now entries.now.keys)) }
    ensures ordered { OnOk result (IsStrictlySortedBy K.cmp (keys_of demand.now)) }
    ensures only { IfErr result (λ fault. fault ≡ OutOfMemory) }
{
    let mut list = Vec::with_capacity(alloc, demand.len())?;
    let mut rest = entries.iter();
    for (key, subscribers) in demand.iter() {
        let Some((_, entry)) = rest.next() else {
            return Ok(list);
        };
        add_row(&mut list, alloc, key, subscribers, entry)?;
    }
    Ok(list)
}

/// Lists one key as the actor's callers see it.
fn add_row<K: Clone + Drop, V, S: Ord + Clone + Drop>(
    list: &mut Vec<Row<K, S>>,
    alloc: Global,
    key: &K,
    subscribers: &Subscribers<S>,
    entry: &Entry<V, (), Stage>,
) -> Result<(), AllocError>
    requires keys_clone { (x y : K) → K.is_clone x y → y ≡ x }
    requires subscribers_clone { (x y : S) → S.is_clone x y → y ≡ x }
    requires some { 0 < length subscribers.now }
    ensures { OnOk result (list.new.items
        ≡ list.old.items ++ listed (key.now, row_of (subscribers.now, entry.now)) ∷ []) }
{
    let Ok(subscribers) = NonEmptyVec::try_from(subscribers.copied(alloc)?) else {
        unreachable!()
    };
    let key = key.clone()?;
    Ok(list.push(Row {
        key,
        subscribers,
        phase: listed_phase(entry),
    })?)
}

/// Calls off what is being done for each key.
pub fn call_off_all<K: Ord + Drop, V: Drop, S: Drop>(
    entries: &Keys<K, S, V>,
    effects: &mut Vec<Effect<K, V, S>>,
) -> Result<(), Fault>
    ensures told { OnOk result
        (effects.new.items ≡ effects.old.items ++ all_kept_called_off entries.now.keys) }
    ensures only { IfErr result (λ fault. fault ≡ OutOfMemory) }
{
    for (_, entry) in entries.iter() {
        call_off(entry, effects)?;
    }
    Ok(())
}

/// Calls off what is being done for each of these keys.
pub fn call_off_each<K: Ord + Drop, V: Drop, S: Drop>(
    entries: &Keys<K, S, V>,
    keys: &[K],
    effects: &mut Vec<Effect<K, V, S>>,
) -> Result<(), Fault>
    ensures told { OnOk result (effects.new.items
        ≡ effects.old.items ++ each_called_off K.cmp entries.now.keys keys.now) }
    ensures only { IfErr result (λ fault. fault ≡ OutOfMemory) }
{
    for key in keys {
        if let Some(entry) = entries.get(key) {
            call_off(entry, effects)?;
        }
    }
    Ok(())
}

/// Calls off what is being done for a key.
fn call_off<K: Drop, V: Drop, S: Drop>(
    entry: &Entry<V, (), Stage>,
    effects: &mut Vec<Effect<K, V, S>>,
) -> Result<(), Fault>
    ensures told { OnOk result
        (effects.new.items ≡ effects.old.items ++ called_off (phase_of entry.now)) }
    ensures only { IfErr result (λ fault. fault ≡ OutOfMemory) }
{
    match listed_phase(entry) {
        Phase::Waiting { .. } => Ok(()),
        Phase::Asked { attempt } => Ok(effects.push(Effect::Abort { attempt })?),
        Phase::Judged { number } => Ok(effects.push(Effect::Cancel { number })?),
    }
}

/// Drops these keys.
pub fn forget_each<K: Ord + Drop, V: Drop, S: Drop>(stages: &mut Stages<K, S, V>, keys: Vec<K>)
    ensures { stages.new ≡ record stages.old {
      entries = record stages.old.entries {
        keys = without_each K.cmp keys.items stages.old.entries.keys;
      };
    } }
{
    for key in keys {
        stages.remove(&key);
    }
}
