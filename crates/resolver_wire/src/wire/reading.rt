//! Reading from the front of a buffer: nothing is taken from it, and the first fault is answered.

ghost use Rattle.std.specs.Prelude.{◌≡◌, ℕ, ◌+◌, ◌^◌, ◌<◌, ◌≤◌, List, length, take, drop, MatchResult, IfOk, Ok, Err};
ghost use Rattle.std.specs.Int.{w64, from_be_bytes};
ghost use Rattle.resolver_wire.specs.Reading.{AreBytes, bytes_at, id_at, varint_at, payload_at, message_at};
ghost use Rattle.resolver_wire.specs.Layout.{Gives, IsRest, value_len, payload_of, payload_in, body_end, message_of, message_in, end_of};

use crate::wire::{ERROR, Message, Payload, REQUEST, RESPONSE};
use bytes::Bytes;
use resolver_base::{Fault, Span};

/// How many bytes a length has at most.
const MAX_GROUPS: usize = 5;

/// How many bytes an id has.
const ID_SIZE: usize = 8;

/// A message as it lies at the front of a buffer.
#[derive(Drop)]
pub(super) struct Layout<Key> {
    id: u64,
    body: Body<Key>,
}

/// What follows the id, as it lies there.
#[derive(Drop)]
struct Body<Key> {
    kind: Kind<Key>,
    /// How many bytes stand before the value.
    lead: usize,
}

#[derive(Drop)]
enum Kind<Key> {
    Request(Key),
    /// The length of the value.
    Response(u32),
    Error,
}

impl<Key: Span> Layout<Key> {
    /// How the message at the front lies, or the first fault there.
    #[tactic(auto, unfolding(crate::specs::Reading::message_at))]
    pub(super) fn of(bytes: &[u8]) -> Result<Self, Fault>
        ensures lies { MatchResult result
            (λ layout. message_at Key.SIZE Key.read_from bytes.now
            ≡ Ok (message_in layout bytes.now, drop (end_of layout) bytes.now))
            (λ fault. message_at Key.SIZE Key.read_from bytes.now ≡ Err fault) }
        ensures within { IfOk result (λ layout. end_of layout ≤ length bytes.now) }
        ensures octets { AreBytes bytes.now }
    {
        let (id, rest) = id_of(bytes)?;
        let body = Body::of(rest)?;
        Ok(Layout { id, body })
    }

    /// How many bytes stand before the value.
    pub(super) fn lead(&self) -> usize
        requires { end_of self.now < 2 ^ 64 }
        ensures { result ≡ 8 + self.now.body.lead }
    {
        ID_SIZE + self.body.lead
    }

    /// How many bytes the value has: none but in a response.
    pub(super) fn value(&self) -> usize
        ensures { result ≡ value_len self.now.body.kind }
    {
        match self.body.kind {
            Kind::Response(value) => value as usize,
            Kind::Request(_) | Kind::Error => 0,
        }
    }

    /// The message, given its value.
    pub(super) fn with_value(self, value: Bytes) -> Message<Key>
        ensures { result ≡ message_of self value }
    {
        let Layout { id, body } = self;
        Message {
            id,
            payload: body.kind.with_value(value),
        }
    }
}

impl<Key: Span> Kind<Key> {
    /// The payload, given its value.
    fn with_value(self, value: Bytes) -> Payload<Key>
        ensures { result ≡ payload_of self value }
    {
        match self {
            Kind::Request(key) => Payload::Request(key),
            Kind::Response(_) => Payload::Response(value),
            Kind::Error => Payload::Error,
        }
    }
}

impl<Key: Span> Body<Key> {
    /// How what follows the id lies, or the first fault there.
    #[tactic(auto, unfolding(crate::specs::Reading::payload_at))]
    fn of(bytes: &[u8]) -> Result<Self, Fault>
        ensures lies { MatchResult result
            (λ body. payload_at Key.SIZE Key.read_from bytes.now
            ≡ Ok (payload_in body bytes.now, drop (body_end body) bytes.now))
            (λ fault. payload_at Key.SIZE Key.read_from bytes.now ≡ Err fault) }
        ensures within { IfOk result (λ body. body_end body ≤ length bytes.now) }
    {
        let Some((tag, rest)) = bytes.split_first() else {
            return Err(Fault::EndOfBuffer);
        };
        match *tag {
            REQUEST => {
                let (name, _) = front_of(rest, Key::SIZE)?;
                let key = Key::read(name).ok_or(Fault::Key)?;
                Ok(Body {
                    kind: Kind::Request(key),
                    lead: 1 + Key::SIZE,
                })
            }
            RESPONSE => {
                let (value, rest) = length_of(rest)?;
                let _ = front_of(rest, value as usize)?;
                Ok(Body {
                    kind: Kind::Response(value),
                    lead: bytes.len() - rest.len(),
                })
            }
            ERROR => Ok(Body {
                kind: Kind::Error,
                lead: 1,
            }),
            _ => Err(Fault::InvalidTag),
        }
    }
}

/// The id at the front, and the bytes after it.
#[tactic(auto, unfolding(crate::specs::Reading::id_at))]
fn id_of(bytes: &[u8]) -> Result<(u64, &[u8]), Fault>
    ensures id { Gives (λ x. (x.0, x.1.now)) result (id_at bytes.now) }
    ensures after { IfOk result (λ x. (x.1.now ≡ drop 8 bytes.now) × (8 ≤ length bytes.now)) }
{
    let (id, rest) = front_of(bytes, ID_SIZE)?;
    let id = [id[0], id[1], id[2], id[3], id[4], id[5], id[6], id[7]];
    Ok((u64::from_be_bytes(id), rest))
}

/// That many bytes, and those after them.
#[tactic(auto, unfolding(crate::specs::Reading::bytes_at))]
fn front_of(bytes: &[u8], count: usize) -> Result<(&[u8], &[u8]), Fault>
    ensures front { Gives (λ x. (x.0.now, x.1.now)) result (bytes_at count bytes.now) }
    ensures taken { IfOk result (λ x. (length x.0.now ≡ count) × (x.0.now ≡ take count bytes.now)) }
    ensures after { IfOk result
        (λ x. (x.1.now ≡ drop count bytes.now) × (count ≤ length bytes.now)) }
{
    if bytes.len() < count {
        return Err(Fault::EndOfBuffer);
    }
    Ok(bytes.split_at(count))
}

/// The length at the front, and the bytes after it.
#[tactic(auto, unfolding(crate::specs::Reading::varint_at))]
fn length_of(bytes: &[u8]) -> Result<(u32, &[u8]), Fault>
    ensures length { Gives (λ x. (x.0, x.1.now)) result (varint_at 4 bytes.now) }
    ensures after { IfOk result (λ x. IsRest x.1.now bytes.now) }
{
    let mut length: u32 = 0;
    let mut worth: u32 = 1;
    for place in 0..MAX_GROUPS {
        if place == bytes.len() {
            return Err(Fault::EndOfBuffer);
        }
        let byte = bytes[place];
        let is_padded = place > 0 && byte == 0;
        let is_past = place == MAX_GROUPS - 1 && byte > 0x0f;
        if is_padded || is_past {
            return Err(Fault::InvalidVarint);
        }
        length += u32::from(byte % 128) * worth;
        if byte < 128 {
            return Ok((length, &bytes[place + 1..]));
        }
        worth *= 128;
    }
    unreachable!()
}
