//! Which subscribers stay.

ghost use Rattle.std.specs.Prelude.{◌==◌, not};
ghost use Rattle.std.proofs.Common.{rules};

use resolver::base::{Faithful, Predicate};
use resolver::mailbox::Exact;

/// Keeps every subscriber but one. A recorded mailbox keeps copies of messages and compares them, so
/// its clones are what they were made of, and it can be told from another.
#[derive(Clone, Copy)]
pub struct AllBut(pub u16);

impl Predicate<u32, u16> for AllBut {
    ghost keeps = { λ left _ s. not (s == left.0) };

    fn keep(&self, _: &u32, subscriber: &u16) -> bool {
        *subscriber != self.0
    }

    ghost alike = { λ q k l s t same_key same_subscriber. Prim.search rules };
}

impl Faithful for AllBut {
    ghost clones = { Prim.search rules };
}

impl Exact for AllBut {
    fn is_same(&self, other: &AllBut) -> bool {
        self.0 == other.0
    }
}
