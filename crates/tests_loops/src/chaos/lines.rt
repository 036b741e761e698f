//! What a core tells, as the lines of `resolver-replay`.

use resolver::p2p::effects::Effect;
use resolver::p2p::mocks::Key;
use std::alloc::AllocError;
use std::fmt::Write;
use tests_support::names::Peer;
use tests_support::seen::Hex;

/// A value for these subscribers. Where it was handed out before, that was under the number of its response.
pub fn write_delivery(
    lines: &mut String,
    number: u64,
    response: u64,
    key: u8,
    subscribers: &[u16],
    value: &[u8],
) -> Result<(), AllocError> {
    write!(lines, "deliver {number} {key} ")?;
    let mut comma = "";
    for subscriber in subscribers {
        write!(lines, "{comma}{subscriber}")?;
        comma = ",";
    }
    write!(lines, " {}", Hex(value))?;
    if response != number {
        write!(lines, " again {response}")?;
    }
    writeln!(lines)
}

/// A delivery is no longer wanted.
pub fn write_cancel(lines: &mut String, number: u64) -> Result<(), AllocError> {
    writeln!(lines, "cancel {number}")
}

/// A peer asks for a key.
pub fn write_produce(lines: &mut String, serve: u64, key: u8) -> Result<(), AllocError> {
    writeln!(lines, "produce {serve} {key}")
}

/// A message for a peer that asked.
pub fn write_reply(lines: &mut String, peer: u8, bytes: &[u8]) -> Result<(), AllocError> {
    writeln!(lines, "reply {peer} {}", Hex(bytes))
}

/// A response was right: it took so many nanoseconds, and has so many bytes.
pub fn write_credit(
    lines: &mut String,
    response: u64,
    peer: u8,
    elapsed: u128,
    bytes: u64,
) -> Result<(), AllocError> {
    writeln!(lines, "credit {response} {peer} {elapsed} {bytes}")
}

/// A response was wrong.
pub fn write_block(lines: &mut String, response: u64, peer: u8) -> Result<(), AllocError> {
    writeln!(lines, "block {response} {peer}")
}

/// What a core tells, but for the questions of its scans.
pub fn write_effect(
    lines: &mut String,
    effect: &Effect<Key, Peer, u16>,
    subscribers: &[u16],
) -> Result<(), AllocError> {
    match effect {
        Effect::Ask(_) => Ok(()),
        Effect::Deliver {
            number,
            response,
            delivery,
            value,
        } => write_delivery(
            lines,
            *number,
            *response,
            delivery.key.0,
            subscribers,
            value.as_slice(),
        ),
        Effect::Cancel { number } => write_cancel(lines, *number),
        Effect::Produce { serve, key } => write_produce(lines, *serve, key.0),
        Effect::Reply { peer, bytes, .. } => write_reply(lines, peer.0, bytes.as_slice()),
        Effect::Credit { response, source } => write_credit(
            lines,
            *response,
            source.peer.0,
            source.elapsed,
            source.bytes,
        ),
        Effect::Block { response, peer } => write_block(lines, *response, peer.0),
    }
}
