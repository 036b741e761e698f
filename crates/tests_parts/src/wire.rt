//! Messages of the wire against their bytes.

ghost use Rattle.std.specs.Prelude.{◌<◌, ◌^◌, length};
ghost use Rattle.resolver_wire.specs.Spelling.{IsShort};

use crate::support::{equal, equal_at, equal_lists};
use bytes::{Bytes, BytesMut};
use resolver_base::Fault;
use resolver_wire::wire::{Message, Payload, max_message_size};
use std::alloc::Global;
use std::fmt::Debug;
use std::panic::Expect;
use std::process::Abort;
use tests_support::names::{Letter, Zeros};

const REQUEST_BYTES: &[u8] = &[0, 0, 0, 0, 0, 0, 0x04, 0xd2, 0, 0x7b];

const ERROR_BYTES: &[u8] = &[0, 0, 0, 0, 0, 0, 0, 0xff, 2];

const RESPONSE_BYTES: &[u8] = b"\0\0\0\0\0\0\x10\xe1\x01\x0dHello, world!";

#[test]
fn wire_vectors(rt: HostRuntime) {
    let rt = &rt;
    let alloc = rt.alloc();
    let payload = Payload::Request(Letter(123));
    spelled(rt, alloc, Message { id: 1234, payload }, REQUEST_BYTES);
    let payload = Payload::Error;
    spelled(rt, alloc, Message { id: 255, payload }, ERROR_BYTES);
    let payload = Payload::Response(Bytes::from_static(b"Hello, world!"));
    spelled(rt, alloc, Message { id: 4321, payload }, RESPONSE_BYTES);
}

#[test]
fn greatest_sizes(rt: HostRuntime) {
    let of_keys = (
        max_message_size::<Letter>(0),
        max_message_size::<Letter>(100),
    );
    let of_zeros = max_message_size::<Zeros>(0);
    equal(&rt, &(of_keys, of_zeros), &((14, 114), 73));
}

#[test]
fn bytes_refused(rt: HostRuntime) {
    const REFUSED: &[(&[u8], Fault)] = &[
        (b"\0\0\0\0\0\0\x04\xd2\0", Fault::EndOfBuffer),
        (b"\0\0\0\0\0\0\x04\xd2\x03", Fault::InvalidTag),
        (b"\0\0\0\0\0\0\x04\xd2\x01\x80\0", Fault::InvalidVarint),
        (b"\0\0\0\0\0\0\0\xff\x02\0", Fault::ExtraData),
        (b"\0\0\0\0\0\0\0\0\x01", Fault::EndOfBuffer),
        (b"\0\0\0\0\0\0\0\0\x01\x80", Fault::EndOfBuffer),
        (b"\0\0\0\0\0\0\0\0\x01\x8d\0", Fault::InvalidVarint),
        (
            b"\0\0\0\0\0\0\0\0\x01\xff\xff\xff\xff\x0f",
            Fault::EndOfBuffer,
        ),
        (
            b"\0\0\0\0\0\0\0\0\x01\xff\xff\xff\xff\x10",
            Fault::InvalidVarint,
        ),
        (
            b"\0\0\0\0\0\0\0\0\x01\x80\x80\x80\x80\0",
            Fault::InvalidVarint,
        ),
    ];
    for (bytes, fault) in REFUSED {
        decodes(&rt, rt.alloc(), bytes, Some(*fault));
    }
}

/// The message is written as these bytes and read from them, alone and with a byte behind them.
fn spelled(rt: &impl Abort, alloc: Global, message: Message<Letter>, bytes: &[u8])
    requires { IsShort message.payload }
{
    equal(rt, &message.encode_size(), &(bytes.len() as u64));
    is_spelled(rt, alloc, &message, bytes);
    let mut buffer = followed(rt, alloc, bytes, 7);
    gives(rt, Message::read(&mut buffer), &message);
    equal_lists(rt, buffer.as_slice(), &[7]);
    let alone = Bytes::copy_from_slice(alloc, bytes).expect(rt, "memory");
    gives(rt, Message::decode(alone), &message);
}

/// These bytes, and one behind them.
fn followed(rt: &impl Abort, alloc: Global, bytes: &[u8], last: u8) -> Bytes {
    let mut out = BytesMut::new(alloc);
    out.extend_from_slice(bytes).expect(rt, "memory");
    out.extend_from_slice(&[last]).expect(rt, "memory");
    out.freeze().expect(rt, "memory")
}

/// What was read is this.
fn gives<T: PartialEq + Debug + Drop>(rt: &impl Abort, found: Result<T, Fault>, wanted: &T) {
    let found = found.expect(rt, "a message");
    equal(rt, &found, wanted);
}

/// The bytes are refused so, or spell a message which is written as they are.
fn decodes(rt: &impl Abort, alloc: Global, bytes: &[u8], fault: Option<Fault>) {
    let copied = Bytes::copy_from_slice(alloc, bytes).expect(rt, "memory");
    match Message::<Letter>::decode(copied) {
        Err(refusal) => equal_at(rt, &bytes, &Some(refusal), &fault),
        Ok(message) => {
            equal_at(rt, &bytes, &None, &fault);
            is_spelled(rt, alloc, &message, bytes);
        }
    }
}

/// The message is written as these bytes.
fn is_spelled(rt: &impl Abort, alloc: Global, message: &Message<Letter>, bytes: &[u8])
    requires { IsShort message.now.payload }
{
    let written = written(rt, alloc, message);
    equal_lists(rt, written.as_slice(), bytes);
}

/// What the message is written as.
fn written(rt: &impl Abort, alloc: Global, message: &Message<Letter>) -> Bytes
    requires { IsShort message.now.payload }
{
    let mut out = BytesMut::new(alloc);
    message.write(&mut out).expect(rt, "memory");
    out.freeze().expect(rt, "memory")
}

/// At this place, a byte from the first to the last of these is refused so.
type Change = (usize, u8, u8, Fault);

/// How the first of these that names a byte at a place says that it is refused.
fn refusal(changes: &[Change], place: usize, byte: u8) -> Option<Fault> {
    for (at, first, last, fault) in changes {
        if *at == place && *first <= byte && byte <= *last {
            return Some(*fault);
        }
    }
    None
}

/// Each beginning has too few bytes. Each change of one byte is refused as the first of these that
/// names it says, or is read, where none does.
fn altered(rt: &impl Abort, alloc: Global, bytes: &[u8], changes: &[Change]) {
    for place in 0..bytes.len() {
        decodes(rt, alloc, &bytes[..place], Some(Fault::EndOfBuffer));
        for value in 0..=u8::MAX {
            let mut changed = Vec::from_slice(alloc, bytes).expect(rt, "memory");
            changed[place] = value;
            decodes(rt, alloc, &changed, refusal(changes, place, value));
        }
    }
}

#[test]
fn messages_cut_short_or_changed(rt: HostRuntime) {
    let rt = &rt;
    // A byte of a key is read as the length of a value that isn't there.
    const REQUEST: &[Change] = &[
        (8, 1, 1, Fault::EndOfBuffer),
        (8, 2, 2, Fault::ExtraData),
        (8, 3, 255, Fault::InvalidTag),
    ];
    const ERROR: &[Change] = &[
        (8, 0, 1, Fault::EndOfBuffer),
        (8, 3, 255, Fault::InvalidTag),
    ];
    // From 128 on the length goes on with an H, and is far more than there is.
    const RESPONSE: &[Change] = &[
        (8, 0, 0, Fault::ExtraData),
        (8, 2, 2, Fault::ExtraData),
        (8, 3, 255, Fault::InvalidTag),
        (9, 0, 12, Fault::ExtraData),
        (9, 14, 255, Fault::EndOfBuffer),
    ];
    altered(rt, rt.alloc(), REQUEST_BYTES, REQUEST);
    altered(rt, rt.alloc(), ERROR_BYTES, ERROR);
    altered(rt, rt.alloc(), RESPONSE_BYTES, RESPONSE);
}

/// So many bytes that are 0.
fn zeros(rt: &impl Abort, alloc: Global, count: u16) -> Bytes
    ensures short { length result < 2 ^ 32 }
{
    let zeros = BytesMut::zeroed(alloc, usize::from(count)).expect(rt, "memory");
    zeros.freeze().expect(rt, "memory")
}

#[test]
fn responses_of_zeros(rt: HostRuntime) {
    let rt = &rt;
    const CASES: &[(u16, (u64, u64, usize), &[u8])] = &[
        (0, (10, 10, 1), b"\0\0\0\0\0\0\0\0\x01\0"),
        (127, (137, 10, 2), b"\0\0\0\0\0\0\0\0\x01\x7f"),
        (128, (139, 11, 2), b"\0\0\0\0\0\0\0\0\x01\x80\x01"),
        (16383, (16394, 11, 2), b"\0\0\0\0\0\0\0\0\x01\xff\x7f"),
        (16384, (16396, 12, 2), b"\0\0\0\0\0\0\0\0\x01\x80\x80\x01"),
    ];
    for (len, wanted, head) in CASES {
        let value = zeros(rt, rt.alloc(), *len);
        let payload = Payload::Response(value);
        let message = Message { id: 0, payload };
        equal(rt, &sizes(rt, rt.alloc(), &message), wanted);
        begins_with(rt, rt.alloc(), &message, head);
    }
}

/// How many bytes the message is written as, how many of them aren't its value's, and in how many pieces.
fn sizes(rt: &impl Abort, alloc: Global, message: &Message<Letter>) -> (u64, u64, usize)
    requires { IsShort message.now.payload }
{
    let pieces = message.write_bufs(alloc).expect(rt, "memory");
    let count = pieces.len();
    (message.encode_size(), message.encode_inline_size(), count)
}

/// The message is written as so many bytes as it says, and as these before its value. It is read again.
fn begins_with(rt: &impl Abort, alloc: Global, message: &Message<Letter>, head: &[u8])
    requires { IsShort message.now.payload }
{
    let written = written(rt, alloc, message);
    let found = written
        .as_slice()
        .get(..message.encode_inline_size() as usize);
    let wanted = (message.encode_size(), Some(head));
    equal(rt, &(written.len() as u64, found), &wanted);
    gives(rt, Message::decode(written), message);
}

#[test]
fn keys_refused(rt: HostRuntime) {
    let rt = &rt;
    let payload = Payload::Request(Zeros);
    let request = Message { id: 0, payload };
    gives(rt, Message::decode(zeros(rt, rt.alloc(), 73)), &request);
    let short = Message::decode(zeros(rt, rt.alloc(), 72));
    is_refused(rt, short, Fault::EndOfBuffer);
    other_key(rt, rt.alloc());
}

/// What was read is refused so.
fn is_refused(rt: &impl Abort, found: Result<Message<Zeros>, Fault>, fault: Fault) {
    equal(rt, &found.err(), &Some(fault));
}

/// A key whose last byte isn't 0 is refused, and its message stays whole.
fn other_key(rt: &impl Abort, alloc: Global) {
    let mut bytes = followed(rt, alloc, &[0; 72], 1);
    is_refused(rt, Message::read(&mut bytes), Fault::Key);
    equal(rt, &bytes.len(), &73);
}
