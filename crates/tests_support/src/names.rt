//! Names of peers and of keys, a fetch, and predicates.

ghost use Rattle.std.specs.Prelude.{◌≡◌, ℕ, [], ◌∷◌, List, Option, None, Some, nat_lt, refl, replicate, true};
ghost use Rattle.std.proofs.Common.{rules};
ghost use Rattle.tests_support.specs.Keys.{only_key, only_key_own};

use bytes::{BufMut, BytesMut};
use resolver_base::{Faithful, PublicKey, Span};
use resolver_mailbox::mailbox::Exact;
use resolver_mailbox::mocks::Key;
use resolver_types::{Fetch, Predicate};
use std::alloc::AllocError;
use std::fmt;
use std::fmt::{Display, Formatter, Write};

/// A name of a peer.
#[derive(Clone, Copy, PartialEq, Eq, PartialOrd, Ord, Hash)]
pub struct Peer(pub u8);

impl PublicKey for Peer {}

impl Faithful for Peer {
    ghost clones = { Prim.search rules };
}

/// A fetch of a key, with a mark that no other key and subscriber below 100 have.
pub fn wanted(key: u8, subscriber: u16) -> Fetch<Key, u16> {
    Fetch {
        key: Key(key),
        subscriber,
        mark: 100 * u64::from(key) + u64::from(subscriber),
    }
}

/// Keeps the subscribers below this one.
#[derive(Clone, Copy)]
pub struct Below(pub u16);

impl Predicate<Key, u16> for Below {
    ghost keeps = { λ below _ subscriber. nat_lt subscriber below.0 };

    fn keep(&self, _key: &Key, subscriber: &u16) -> bool {
        *subscriber < self.0
    }

    ghost alike = { λ q k l s t same_key same_subscriber. Prim.search rules };
}

impl Faithful for Below {
    ghost clones = { Prim.search rules };
}

impl Exact for Below {
    fn is_same(&self, other: &Below) -> bool {
        self.0 == other.0
    }
}

/// A name of one byte.
#[derive(Clone, Copy, Debug, PartialEq, Eq, PartialOrd, Ord, Hash)]
pub struct Letter(pub u8);

impl Display for Letter {
    fn fmt<W: Write>(&self, f: &mut Formatter<W>) -> fmt::Result {
        write!(f, "{}", self.0)
    }
}

impl PublicKey for Letter {}

impl Span for Letter {
    ghost SIZE = { 1 };

    const SIZE: usize = 1;

    ghost bytes_of = { λ name. name.0 ∷ [] };

    ghost read_from = { λ bytes. elim bytes [
      | [] ↦ None
      | b ∷ rest ↦ elim rest [ [] ↦ Some (record { 0 = b }) | c ∷ more ↦ None ]
    ] };

    fn write(&self, out: &mut BytesMut) -> Result<(), AllocError> {
        out.put_u8(self.0)
    }

    fn read(bytes: &[u8]) -> Option<Self> {
        Some(Letter(bytes[0]))
    }

    ghost small = { Prim.search rules };

    ghost sized = { λ name. refl };

    ghost read_again = { λ name. Prim.search rules };

    ghost own_bytes = { λ bytes name read. Prim.search rules };
}

impl Faithful for Letter {
    ghost clones = { Prim.search rules };
}

impl Exact for Letter {
    fn is_same(&self, other: &Letter) -> bool {
        self.0 == other.0
    }
}

/// The only key of 64 bytes, which are all 0.
#[derive(Clone, Copy, Debug, PartialEq, Eq, PartialOrd, Ord, Hash)]
pub struct Zeros;

impl Span for Zeros {
    ghost SIZE = { 64 };

    const SIZE: usize = 64;

    ghost bytes_of = { λ _. replicate 64 0 };

    ghost read_from = { only_key (record {}) (replicate 64 0) };

    fn write(&self, out: &mut BytesMut) -> Result<(), AllocError> {
        out.extend_from_slice(&[0; 64])
    }

    fn read(bytes: &[u8]) -> Option<Self> {
        if bytes == [0u8; 64].as_slice() {
            Some(Zeros)
        } else {
            None
        }
    }

    ghost small = { Prim.search rules };

    ghost sized = { λ _. refl };

    ghost read_again = { λ _. refl };

    ghost own_bytes = { only_key_own (record {}) (replicate 64 0) };
}

/// Keeps every subscriber.
#[derive(Clone, Copy, Debug)]
pub struct All;

impl<K: Eq, S: Eq> Predicate<K, S> for All {
    ghost keeps = { λ _ _ _. true };

    fn keep(&self, _key: &K, _subscriber: &S) -> bool {
        true
    }

    ghost alike = { λ q k l s t same_key same_subscriber. Prim.search rules };
}

impl Faithful for All {
    ghost clones = { Prim.search rules };
}

impl Exact for All {
    fn is_same(&self, _other: &All) -> bool {
        true
    }
}
