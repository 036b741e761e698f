//! Which judgements are called off.

ghost use Rattle.std.specs.Prelude.{◌≡◌, ◌++◌, IfErr, OnOk};
ghost use Rattle.resolver_base.specs.declared.fault.Fault.TheVariants.{OutOfMemory};
ghost use Rattle.resolver_model_peer.specs.Canceled.{all_canceled, each_canceled};

use crate::effects::Effect;
use crate::inflight::Inflight;
use resolver_base::Fault;

/// Calls off the judgements in progress of these keys, in their order.
pub fn cancel_each<K: Ord + Drop, P: Drop, S: Drop>(
    entries: &Inflight<K, P, S>,
    keys: &[K],
    effects: &mut Vec<Effect<K, P, S>>,
) -> Result<(), Fault>
    ensures told { OnOk result
        (effects.new.items ≡ effects.old.items ++ each_canceled K.cmp entries.now keys.now) }
    ensures only { IfErr result (λ fault. fault ≡ OutOfMemory) }
{
    for key in keys {
        if let Some(number) = entries.number(key) {
            effects.push(Effect::Cancel { number })?;
        }
    }
    Ok(())
}

/// Calls off the judgements in progress of all keys, in their order.
pub fn cancel_all<K: Ord + Drop, P: Drop, S: Drop>(
    entries: &Inflight<K, P, S>,
    effects: &mut Vec<Effect<K, P, S>>,
) -> Result<(), Fault>
    ensures told { OnOk result
        (effects.new.items ≡ effects.old.items ++ all_canceled entries.now.keys) }
    ensures only { IfErr result (λ fault. fault ≡ OutOfMemory) }
{
    for (_, entry) in entries.iter() {
        if let Some(number) = entry.number {
            effects.push(Effect::Cancel { number })?;
        }
    }
    Ok(())
}
