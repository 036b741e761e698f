//! Writing what effects carry. Numbers lie with their low byte first. Where memory is wanting, some
//! of it may have been written.

ghost use Rattle.std.specs.Prelude.{◌≡◌, ◌∷◌, ◌++◌, [], OnOk};
ghost use Rattle.resolver_flat.specs.Spelling as spelling;

use crate::name::FlatName;
use resolver_types::{Delivery, NonEmptyVec};
use std::alloc::AllocError;

/// Appends one byte.
pub fn put_octet(out: &mut Vec<u8>, octet: u8) -> Result<(), AllocError>
    ensures { OnOk result (out.new.items ≡ out.old.items ++ octet ∷ []) }
{
    out.extend_from_slice(&[octet])
}

/// Appends a number of eight bytes.
#[tactic(auto, unfolding(crate::specs::Spelling::number))]
pub fn put_number(out: &mut Vec<u8>, number: u64) -> Result<(), AllocError>
    ensures { OnOk result (out.new.items ≡ out.old.items ++ spelling.number number) }
{
    out.extend_from_slice(&number.to_le_bytes())
}

/// Appends a number of sixteen bytes.
#[tactic(auto, unfolding(crate::specs::Spelling::wide))]
pub fn put_wide(out: &mut Vec<u8>, number: u128) -> Result<(), AllocError>
    ensures { OnOk result (out.new.items ≡ out.old.items ++ spelling.wide number) }
{
    out.extend_from_slice(&number.to_le_bytes())
}

/// Appends 1 or 0.
pub fn put_flag(out: &mut Vec<u8>, flag: bool) -> Result<(), AllocError>
    ensures { OnOk result (out.new.items ≡ out.old.items ++ spelling.flag flag) }
{
    put_octet(out, u8::from(flag))
}

/// Appends a name's bytes.
pub fn put_name<K: FlatName>(out: &mut Vec<u8>, name: &K) -> Result<(), AllocError>
    ensures { OnOk result (out.new.items ≡ out.old.items ++ K.bytes_of name.now) }
{
    out.extend_from_slice(name.as_bytes())
}

/// Appends bytes behind their number.
pub fn put_value(out: &mut Vec<u8>, value: &[u8]) -> Result<(), AllocError>
    ensures { OnOk result (out.new.items ≡ out.old.items ++ spelling.value value.now) }
{
    put_number(out, value.len() as u64)?;
    out.extend_from_slice(value)
}

/// Appends subscribers with their marks, behind their number.
pub fn put_subscribers(out: &mut Vec<u8>, subscribers: &[(u64, u64)]) -> Result<(), AllocError>
    ensures { OnOk result
        (out.new.items ≡ out.old.items ++ spelling.subscribers subscribers.now) }
{
    put_number(out, subscribers.len() as u64)?;
    for one in subscribers {
        put_subscriber(out, one)?;
    }
    Ok(())
}

fn put_subscriber(out: &mut Vec<u8>, one: &(u64, u64)) -> Result<(), AllocError>
    ensures { OnOk result (out.new.items ≡ out.old.items ++ spelling.subscriber one.now) }
{
    put_number(out, one.0)?;
    put_number(out, one.1)
}

/// Appends a key, and who wants it.
pub fn put_demanded<K: FlatName>(
    out: &mut Vec<u8>,
    key: &K,
    subscribers: &NonEmptyVec<(u64, u64)>,
) -> Result<(), AllocError>
    ensures { OnOk result
        (out.new.items ≡ out.old.items ++ spelling.demanded K.bytes_of key.now subscribers.now) }
{
    put_name(out, key)?;
    put_subscribers(out, subscribers.as_slice())
}

/// Appends a delivery behind its number and that of its response.
pub fn put_handed<K: FlatName>(
    out: &mut Vec<u8>,
    number: u64,
    response: u64,
    delivery: &Delivery<K, u64>,
) -> Result<(), AllocError>
    ensures { OnOk result
        (out.new.items ≡ out.old.items
        ++ spelling.handed K.bytes_of number response delivery.now) }
{
    put_number(out, number)?;
    put_number(out, response)?;
    put_demanded(out, &delivery.key, &delivery.subscribers)
}
