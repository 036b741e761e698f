//! Names of keys and of peers, of a fixed number of bytes.

ghost use Rattle.std.specs.Prelude.{◌≡◌};

use resolver_base::{Faithful, PublicKey, Span};
use resolver_names::{Name, Short};

/// What flat machines take for keys and peers: a name that is spelled by its bytes.
pub trait FlatName: Span + PublicKey + Faithful + Copy {
    /// The name's bytes, which are `SIZE`.
    fn as_bytes(&self) -> &[u8]
        ensures { result.now ≡ Self.bytes_of self.now };
}

impl<const N: usize> FlatName for Name<N>
where
    [u8; N]: Short<N>,
{
    fn as_bytes(&self) -> &[u8] {
        &self.bytes
    }
}
