//! Messages between peers, as bytes.
//!
//! A `Message` is a request for a key's data, a response with it, or word that there is none. It
//! begins with its id in eight bytes, high byte first, and a tag. A key follows a request's tag; a
//! response's is followed by the length of the value and the value. Whatever bytes a peer sends are
//! read as a message or refused, and the first fault from the front decides how.

ghost use Rattle.std.specs.Prelude.{◌≡◌, ℕ, ◌+◌, ◌^◌, ◌<◌, ◌≤◌, ◌⊎◌, [], ◌++◌, length, max, Ok, Err, IfOk, IfErr, OnOk, OnErr};
ghost use Rattle.resolver_base.specs.declared.fault.Fault.TheVariants.{OutOfMemory};
ghost use Rattle.std.specs.List.{concat};
ghost use Rattle.bytes.specs.Filled.{UsesSpare};
ghost use Rattle.resolver_wire.specs.Spelling.{IsShort, Covers, HasLength, HasInlineLength, inline, spelling, pieces};
ghost use Rattle.resolver_wire.specs.Reading.{AreBytes, message_at, whole_message, CutsValue, TakesSpelling, ReadsFront, ReadsSpelling};

use bytes::{Bytes, BytesMut};
use reading::Layout;
use resolver_base::{Fault, Span};
use std::alloc::{AllocError, Global};
use writing::length_size;

mod laws;
mod reading;
mod writing;

/// How many bytes a request has besides its key, and all the bytes of an error.
pub const REQUEST_OVERHEAD: u64 = 9;

/// How many bytes a response has at most besides its value.
pub const MAX_RESPONSE_OVERHEAD: u64 = 14;

/// The tag of a request.
const REQUEST: u8 = 0;

/// The tag of a response.
const RESPONSE: u8 = 1;

/// The tag of an error.
const ERROR: u8 = 2;

/// What one peer sends another.
///
/// A request for a key under an id, as bytes:
///
/// ```rust
/// let request = Message {
///     id,
///     payload: Payload::Request(key),
/// };
/// let mut out = BytesMut::new(alloc);
/// request.write(&mut out)?;
/// Ok(out.freeze()?)
/// ```
#[derive(Clone, Debug, Drop, PartialEq, Eq)]
pub struct Message<Key> {
    /// Names a request; its answer has the same.
    pub id: u64,
    /// What is asked or answered.
    pub payload: Payload<Key>,
}

/// What a message asks or answers.
#[derive(Clone, Debug, Drop, PartialEq, Eq)]
pub enum Payload<Key> {
    /// The data of this key is wanted.
    Request(Key),
    /// The data that was asked for: at most `u32::MAX` bytes of it can be sent.
    Response(Bytes),
    /// There is no such data.
    Error,
}

/// How long a message can be at most, where a response's value has at most so many bytes.
pub fn max_message_size<Key: Span>(value: u64) -> u64
    requires { value < 2 ^ 32 }
    ensures size { result ≡ max (Key.SIZE + 9) (value + 14) }
    ensures covers { Covers Key.bytes_of value result }
{
    (Key::SIZE as u64 + REQUEST_OVERHEAD).max(value + MAX_RESPONSE_OVERHEAD)
}

impl<Key: Clone> Message<Key> {
    /// The same message, where clones of the key equal it. The value isn't copied.
    pub fn clone(&self) -> Result<Self, AllocError>
        requires keys_clone { (key copy : Key) → Key.is_clone key copy → copy ≡ key }
        ensures same { IfOk result (λ copy. copy ≡ self.now) }
    {
        let payload = self.payload.clone()?;
        Ok(Message {
            id: self.id,
            payload,
        })
    }
}

impl<Key: Clone> Payload<Key> {
    /// The same payload, where clones of the key equal it. The value isn't copied.
    pub fn clone(&self) -> Result<Self, AllocError>
        requires keys_clone { (key copy : Key) → Key.is_clone key copy → copy ≡ key }
        ensures same { IfOk result (λ copy. copy ≡ self.now) }
    {
        match self {
            Payload::Request(key) => Ok(Payload::Request(key.clone()?)),
            Payload::Response(value) => Ok(Payload::Response(value.clone()?)),
            Payload::Error => Ok(Payload::Error),
        }
    }
}

impl<Key: Span> Message<Key> {
    /// Appends the message, or nothing where memory is refused. It takes no memory where there is
    /// room for it.
    pub fn write(&self, out: &mut BytesMut) -> Result<(), Fault>
        requires short { IsShort self.now.payload }
        ensures ok { OnOk result
            (out.new.items ≡ out.old.items ++ spelling Key.bytes_of self.now) }
        ensures err { OnErr result (out.new.items ≡ out.old.items) }
        ensures spare { UsesSpare result out.old.spare out.new.spare
            (length (spelling Key.bytes_of self.now)) }
        ensures only { IfErr result (λ fault. fault ≡ OutOfMemory) }
    {
        out.reserve(self.encode_size() as usize)?;
        self.put_inline(out)?;
        out.extend_reserved(self.value());
        Ok(())
    }

    /// The message in pieces. There is one, and for a response that isn't empty a second, which is
    /// the value itself and no copy of it.
    pub fn write_bufs(&self, alloc: Global) -> Result<Vec<Bytes>, Fault>
        requires short { IsShort self.now.payload }
        ensures pieces { IfOk result (λ list. list.items ≡ pieces Key.bytes_of self.now) }
        ensures joined { IfOk result
            (λ list. concat list.items ≡ spelling Key.bytes_of self.now) }
        ensures only { IfErr result (λ fault. fault ≡ OutOfMemory) }
    {
        let mut list = Vec::with_capacity(alloc, 2)?;
        list.push(self.inline_piece(alloc)?)?;
        self.push_value(&mut list)?;
        Ok(list)
    }

    /// How many bytes the message has.
    pub fn encode_size(&self) -> u64
        requires short { IsShort self.now.payload }
        ensures size { result ≡ length (spelling Key.bytes_of self.now) }
        ensures overhead { HasLength Key.SIZE self.now.payload result }
    {
        self.encode_inline_size() + self.value().len() as u64
    }

    /// How many bytes the first piece has.
    pub fn encode_inline_size(&self) -> u64
        requires short { IsShort self.now.payload }
        ensures size { result ≡ length (inline Key.bytes_of self.now) }
        ensures overhead { HasInlineLength Key.SIZE self.now.payload result }
    {
        match &self.payload {
            Payload::Request(_) => REQUEST_OVERHEAD + Key::SIZE as u64,
            Payload::Response(value) => REQUEST_OVERHEAD + length_size(value.len() as u32),
            Payload::Error => REQUEST_OVERHEAD,
        }
    }

    /// Takes a message from the front of the buffer.
    ///
    /// The value of a response is cut from the buffer without a copy. Memory is wanted only where
    /// such a cut leaves bytes behind it. A refusal leaves the buffer as it was.
    pub fn read(buffer: &mut Bytes) -> Result<Self, Fault>
        ensures ok { IfOk result
            (λ message. message_at Key.SIZE Key.read_from buffer.old ≡ Ok (message, buffer.new)) }
        ensures refused { IfErr result
            (λ fault. (message_at Key.SIZE Key.read_from buffer.old ≡ Err fault)
            ⊎ ((fault ≡ OutOfMemory)
            × CutsValue (message_at Key.SIZE Key.read_from buffer.old))) }
        ensures err { OnErr result (buffer.new ≡ buffer.old) }

        // What is read is spelled so, and what is spelled so is read, whatever follows.
        ensures found { IfOk result
            (λ message. TakesSpelling Key.bytes_of message buffer.old buffer.new) }
        ensures again { ReadsFront Key.bytes_of Key.eq buffer.old result buffer.new }
    {
        Message::take(buffer)
    }

    /// The message that these bytes spell, all of them. It takes no memory, and the value of a
    /// response is not copied.
    pub fn decode(bytes: Bytes) -> Result<Self, Fault>
        ensures exact { result ≡ whole_message Key.SIZE Key.read_from bytes }

        // What is read is spelled so, and what is spelled so is read.
        ensures found { IfOk result (λ message. TakesSpelling Key.bytes_of message bytes []) }
        ensures again { ReadsSpelling Key.bytes_of Key.eq bytes result }
    {
        Message::whole(bytes)
    }

    /// What `read` does, as far as its definition by cases says it.
    fn take(buffer: &mut Bytes) -> Result<Self, Fault>
        ensures ok { IfOk result
            (λ message. message_at Key.SIZE Key.read_from buffer.old ≡ Ok (message, buffer.new)) }
        ensures refused { IfErr result
            (λ fault. (message_at Key.SIZE Key.read_from buffer.old ≡ Err fault)
            ⊎ ((fault ≡ OutOfMemory)
            × CutsValue (message_at Key.SIZE Key.read_from buffer.old))) }
        ensures err { OnErr result (buffer.new ≡ buffer.old) }
        ensures octets { AreBytes buffer.old }
    {
        let layout = Layout::of(buffer.as_slice())?;
        if layout.value() == 0 {
            buffer.advance(layout.lead());
            return Ok(layout.with_value(Bytes::new()));
        }
        let mut value = buffer.split_to(layout.lead() + layout.value())?;
        value.advance(layout.lead());
        Ok(layout.with_value(value))
    }

    /// What `decode` does, as far as its definition by cases says it.
    fn whole(mut bytes: Bytes) -> Result<Self, Fault>
        ensures exact { result ≡ whole_message Key.SIZE Key.read_from bytes }
        ensures octets { AreBytes bytes }
    {
        let layout = Layout::of(bytes.as_slice())?;
        if layout.lead() + layout.value() < bytes.len() {
            return Err(Fault::ExtraData);
        }
        bytes.advance(layout.lead());
        Ok(layout.with_value(bytes))
    }
}
