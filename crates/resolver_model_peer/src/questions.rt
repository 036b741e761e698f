//! What a scan asks.

ghost use Rattle.std.specs.Prelude.{◌≡◌, ◌++◌, option_map, IfErr, OnOk};
ghost use Rattle.std.specs.Option.{option_to_list};
ghost use Rattle.resolver_base.specs.declared.fault.Fault.TheVariants.{OutOfMemory};
ghost use Rattle.resolver_model_peer.specs.declared.effects.Effect.TheVariants as told;

use crate::effects::Effect;
use resolver_base::Fault;
use resolver_fetch_scan::scan::Ask;

/// Tells what a scan asks, if it asks something.
pub fn tell_asked<K: Drop, P: Drop, S: Drop>(
    effects: &mut Vec<Effect<K, P, S>>,
    asked: Option<Ask<K, P>>,
) -> Result<(), Fault>
    ensures ok { OnOk result (effects.new.items
        ≡ effects.old.items ++ option_to_list (option_map told.Ask asked)) }
    ensures only { IfErr result (λ fault. fault ≡ OutOfMemory) }
{
    if let Some(ask) = asked {
        effects.push(Effect::Ask(ask))?;
    }
    Ok(())
}
