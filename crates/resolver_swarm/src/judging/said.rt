//! What a message says, by the grammar of messages.

ghost use Rattle.std.specs.Prelude.{◌≡◌};
ghost use Rattle.resolver_swarm.specs.Keeping.{said_in};

/// What a message says. Those of a run are whole, so this is told by the tag.
#[derive(Clone, Copy, Debug, PartialEq, Eq)]
pub enum Said {
    /// A key is asked for.
    Request,
    /// This request has a value as its answer.
    Response { id: u64 },
    /// This request's key is missing.
    Missing { id: u64 },
}

/// What these bytes say: an id of eight bytes, a tag, and what belongs to the tag.
pub fn read(bytes: &[u8]) -> Option<Said>
    ensures { result ≡ said_in bytes.now }
{
    let [a, b, c, d, e, f, g, h, tag, ..] = bytes else {
        return None;
    };
    let id = u64::from_be_bytes([*a, *b, *c, *d, *e, *f, *g, *h]);
    match tag {
        0 => Some(Said::Request),
        1 => Some(Said::Response { id }),
        2 => Some(Said::Missing { id }),
        _ => None,
    }
}
