//! Effects, as they are spelled.

ghost use Rattle.std.specs.Prelude.{◌≡◌, ◌++◌, OnOk};
ghost use Rattle.resolver_flat_actor.specs.Effects.{all_rows, all_spelled, row_spelled, spelled};

use bytes::Bytes;
use resolver_flat::FlatName;
use resolver_flat::writing::{
    put_demanded, put_handed, put_name, put_number, put_octet, put_value,
};
use resolver_model_opaque::effects::Effect;
use resolver_model_opaque::rows::Row;
use std::alloc::AllocError;

/// What an actor in bytes tells.
pub type Told<K> = Effect<K, Bytes, u64>;

/// A key that such an actor is asked for.
pub type Demanded<K> = Row<K, u64>;

/// Appends these effects, one behind the other. Where memory is wanting some may have been written.
pub fn put_all<K: FlatName>(out: &mut Vec<u8>, effects: &[Told<K>]) -> Result<(), AllocError>
    ensures { OnOk result (out.new.items ≡ out.old.items ++ all_spelled K.bytes_of effects.now) }
{
    for effect in effects {
        put_effect(out, effect)?;
    }
    Ok(())
}

/// Appends these rows, one behind the other: the key, and its subscribers.
pub fn put_rows<K: FlatName>(out: &mut Vec<u8>, rows: &[Demanded<K>]) -> Result<(), AllocError>
    ensures { OnOk result (out.new.items ≡ out.old.items ++ all_rows K.bytes_of rows.now) }
{
    for row in rows {
        put_row(out, row)?;
    }
    Ok(())
}

#[tactic(auto, unfolding(crate::specs::Effects::row_spelled))]
fn put_row<K: FlatName>(out: &mut Vec<u8>, row: &Demanded<K>) -> Result<(), AllocError>
    ensures { OnOk result (out.new.items ≡ out.old.items ++ row_spelled K.bytes_of row.now) }
{
    put_demanded(out, &row.key, &row.subscribers)
}

fn put_effect<K: FlatName>(out: &mut Vec<u8>, effect: &Told<K>) -> Result<(), AllocError>
    ensures { OnOk result (out.new.items ≡ out.old.items ++ spelled K.bytes_of effect.now) }
{
    match effect {
        Effect::Start { attempt, key } => {
            put_octet(out, 0)?;
            put_number(out, *attempt)?;
            put_name(out, key)
        }
        Effect::Abort { attempt } => {
            put_octet(out, 1)?;
            put_number(out, *attempt)
        }
        Effect::Deliver {
            number,
            response,
            delivery,
            value,
        } => {
            put_octet(out, 2)?;
            put_handed(out, *number, *response, delivery)?;
            put_value(out, value.as_slice())
        }
        Effect::Cancel { number } => {
            put_octet(out, 3)?;
            put_number(out, *number)
        }
    }
}
