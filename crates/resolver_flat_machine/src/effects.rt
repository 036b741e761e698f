//! Effects, as they are spelled.

ghost use Rattle.std.specs.Prelude.{◌≡◌, ◌++◌, OnOk};
ghost use Rattle.resolver_flat_machine.specs.Effects.{all_rows, all_spelled, asked, row_spelled, spelled};

use resolver_core::p2p::rows::Row;
use resolver_fetch_scan::scan::Ask;
use resolver_flat::FlatName;
use resolver_flat::writing::{
    put_demanded, put_flag, put_handed, put_name, put_number, put_octet, put_value, put_wide,
};
use resolver_model_peer::effects::Effect;
use std::alloc::AllocError;

/// What a core in bytes tells.
pub type Told<K> = Effect<K, K, u64>;

/// A key that such a core is asked for.
pub type Demanded<K> = Row<K, u64, K>;

/// Appends these effects, one behind the other. Where memory is wanting some may have been written.
pub fn put_all<K: FlatName>(out: &mut Vec<u8>, effects: &[Told<K>]) -> Result<(), AllocError>
    ensures { OnOk result (out.new.items ≡ out.old.items ++ all_spelled K.bytes_of effects.now) }
{
    for effect in effects {
        put_effect(out, effect)?;
    }
    Ok(())
}

/// Appends these rows, one behind the other: the key, and its subscribers.
pub fn put_rows<K: FlatName>(out: &mut Vec<u8>, rows: &[Demanded<K>]) -> Result<(), AllocError>
    ensures { OnOk result (out.new.items ≡ out.old.items ++ all_rows K.bytes_of rows.now) }
{
    for row in rows {
        put_row(out, row)?;
    }
    Ok(())
}

#[tactic(auto, unfolding(crate::specs::Effects::row_spelled))]
fn put_row<K: FlatName>(out: &mut Vec<u8>, row: &Demanded<K>) -> Result<(), AllocError>
    ensures { OnOk result (out.new.items ≡ out.old.items ++ row_spelled K.bytes_of row.now) }
{
    put_demanded(out, &row.key, &row.subscribers)
}

fn put_ask<K: FlatName>(out: &mut Vec<u8>, ask: &Ask<K, K>) -> Result<(), AllocError>
    ensures { OnOk result (out.new.items ≡ out.old.items ++ asked K.bytes_of ask.now) }
{
    match ask {
        Ask::Draw(bound) => {
            put_octet(out, 0)?;
            put_wide(out, *bound)
        }
        Ask::Check(peer) => {
            put_octet(out, 1)?;
            put_name(out, peer)
        }
        Ask::Request {
            peer,
            id,
            key,
            priority,
        } => {
            put_octet(out, 2)?;
            put_flag(out, *priority)?;
            put_name(out, peer)?;
            put_number(out, *id)?;
            put_name(out, key)
        }
    }
}

fn put_effect<K: FlatName>(out: &mut Vec<u8>, effect: &Told<K>) -> Result<(), AllocError>
    ensures { OnOk result (out.new.items ≡ out.old.items ++ spelled K.bytes_of effect.now) }
{
    match effect {
        Effect::Ask(ask) => put_ask(out, ask),
        Effect::Deliver {
            number,
            response,
            delivery,
            value,
        } => {
            put_octet(out, 3)?;
            put_handed(out, *number, *response, delivery)?;
            put_value(out, value.as_slice())
        }
        Effect::Cancel { number } => {
            put_octet(out, 4)?;
            put_number(out, *number)
        }
        Effect::Produce { serve, key } => {
            put_octet(out, 5)?;
            put_number(out, *serve)?;
            put_name(out, key)
        }
        Effect::Reply {
            peer,
            bytes,
            priority,
        } => {
            put_octet(out, 6)?;
            put_flag(out, *priority)?;
            put_name(out, peer)?;
            put_value(out, bytes.as_slice())
        }
        Effect::Credit { response, source } => {
            put_octet(out, 7)?;
            put_number(out, *response)?;
            put_name(out, &source.peer)?;
            put_wide(out, source.elapsed)?;
            put_number(out, source.bytes)
        }
        Effect::Block { response, peer } => {
            put_octet(out, 8)?;
            put_number(out, *response)?;
            put_name(out, peer)
        }
    }
}
