//! What peers ask for, and the bytes of a reply.

ghost use Rattle.std.specs.Prelude.{◌≡◌, IfErr, IfOk};
ghost use Rattle.resolver_base.specs.declared.fault.Fault.TheVariants.{OutOfMemory};
ghost use Rattle.resolver_wire.specs.Spelling.{IsShort, spelling};
ghost use Rattle.resolver_model_peer.specs.Peer.{payload_of};

use crate::named::Serve;
use bytes::{Bytes, BytesMut};
use resolver_base::{Fault, Span};
use resolver_sampling::score::elapsed_since;
use resolver_wire::wire::{Message, Payload};
use std::alloc::Global;
use std::marker::Model;

/// A peer's request that the producer has, and when it came. Contracts see the request alone.
#[derive(Drop)]
pub struct OpenServe<P> {
    serve: Serve<P>,
    start: u128,
}

impl<P> Model for OpenServe<P> {
    ghost use Rattle.resolver_model_peer.specs.declared.named.Serve.{Serve};

    ghost Value = { Serve P };

    ghost view = { λ a. a.serve };
}

impl<P: Drop> OpenServe<P> {
    /// The request came now.
    pub fn new(serve: Serve<P>, now: u128) -> Self
        ensures { result ≡ serve }
    {
        OpenServe { serve, start: now }
    }

    /// The request.
    pub fn into_serve(self) -> Serve<P>
        ensures { result ≡ self }
    {
        let Self { serve, start: _ } = self;
        serve
    }

    /// How many nanoseconds ago it came.
    pub fn elapsed_until(&self, now: u128) -> u128 {
        elapsed_since(self.start, now)
    }
}

/// The bytes of a reply to the request with this id.
pub fn reply<K: Span + Drop>(alloc: Global, id: u64, value: Option<Bytes>) -> Result<Bytes, Fault>
    ensures bytes { IfOk result
        (λ bytes. bytes ≡ spelling K.bytes_of (record { id = id; payload = payload_of value })) }
    ensures only { IfErr result (λ fault. fault ≡ OutOfMemory) }
{
    let message = Message::<K> {
        id,
        payload: payload_of(value),
    };
    let mut out = BytesMut::with_capacity(alloc, message.encode_size() as usize)?;
    message.write(&mut out)?;
    Ok(out.freeze()?)
}

/// The bytes, or word that there are none, also where they are too many for one message.
fn payload_of<K: Drop>(value: Option<Bytes>) -> Payload<K>
    ensures payload { result ≡ payload_of value }
    ensures short { IsShort result }
{
    match value {
        Some(bytes) if bytes.len() <= u32::MAX as usize => Payload::Response(bytes),
        _ => Payload::Error,
    }
}
