//! Writing where there is room.

ghost use Rattle.std.specs.Prelude.{◌≡◌, ◌+◌, ◌≤◌, ◌++◌, length, IsOk, IfOk, OnOk};
ghost use Rattle.resolver_wire.specs.Spelling.{varint, IsShort, inline, value_of, value_piece};

use crate::wire::{ERROR, Message, Payload, REQUEST, RESPONSE};
use bytes::{Bytes, BytesMut};
use resolver_base::Span;
use std::alloc::{AllocError, Global};

impl<Key: Span> Message<Key> {
    /// The value that the message carries, empty where there is none.
    pub(super) fn value(&self) -> &[u8]
        ensures { result.now ≡ value_of self.now.payload }
    {
        match &self.payload {
            Payload::Response(value) => value.as_slice(),
            Payload::Request(_) | Payload::Error => &[],
        }
    }

    /// What stands before a value, as a piece.
    pub(super) fn inline_piece(&self, alloc: Global) -> Result<Bytes, AllocError>
        requires short { IsShort self.now.payload }
        ensures { IfOk result (λ piece. piece ≡ inline Key.bytes_of self.now) }
    {
        let mut piece = BytesMut::with_capacity(alloc, self.encode_inline_size() as usize)?;
        self.put_inline(&mut piece)?;
        Ok(piece.freeze()?)
    }

    /// Puts the value last, if there is one and it isn't empty. It isn't copied.
    #[tactic(auto, using(crate::proofs::Pieces::no_piece, crate::proofs::Pieces::one_piece))]
    pub(super) fn push_value(&self, list: &mut Vec<Bytes>) -> Result<(), AllocError>
        ensures { OnOk result
            (list.new.items ≡ list.old.items ++ value_piece (value_of self.now.payload)) }
    {
        match &self.payload {
            Payload::Response(value) if !value.is_empty() => Ok(list.push(value.clone()?)?),
            Payload::Request(_) | Payload::Response(_) | Payload::Error => Ok(()),
        }
    }

    /// Appends what stands before a value. There is room, so that it always succeeds.
    pub(super) fn put_inline(&self, out: &mut BytesMut) -> Result<(), AllocError>
        requires short { IsShort self.now.payload }
        requires room { length (inline Key.bytes_of self.now) ≤ out.old.spare }
        ensures items { out.new.items ≡ out.old.items ++ inline Key.bytes_of self.now }
        ensures spare { out.old.spare ≤ out.new.spare + length (inline Key.bytes_of self.now) }
        ensures done { IsOk result }
    {
        out.extend_reserved(&self.id.to_be_bytes());
        match &self.payload {
            Payload::Request(key) => {
                out.extend_reserved(&[REQUEST]);
                key.write(out)
            }
            Payload::Response(value) => {
                out.extend_reserved(&[RESPONSE]);
                put_length(out, value.len() as u32);
                Ok(())
            }
            Payload::Error => {
                out.extend_reserved(&[ERROR]);
                Ok(())
            }
        }
    }
}

/// How many bytes the spelling of a length has.
#[tactic(auto, unfolding(crate::specs::Spelling::varint_in))]
pub(super) fn length_size(count: u32) -> u64
    ensures size { result ≡ length (varint count) }
    ensures small { result ≤ 5 }
{
    match count {
        0..0x80 => 1,
        0x80..0x4000 => 2,
        0x4000..0x20_0000 => 3,
        0x20_0000..0x1000_0000 => 4,
        _ => 5,
    }
}

/// Appends the spelling of a length.
fn put_length(out: &mut BytesMut, count: u32)
    requires { length (varint count) ≤ out.old.spare }
    ensures items { out.new.items ≡ out.old.items ++ varint count }
    ensures spare { out.new.spare + length (varint count) ≡ out.old.spare }
{
    let mut rest = count;
    while rest >= 128 {
        out.extend_reserved(&[(rest % 128) as u8 + 128]);
        rest /= 128;
    }
    out.extend_reserved(&[rest as u8]);
}
