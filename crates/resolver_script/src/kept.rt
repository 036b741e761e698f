//! Which subscribers a line of a script keeps.

ghost use Rattle.std.proofs.Common.{rules};
ghost use Rattle.resolver_script.specs.Kept.{is_kept};

use resolver_backfill::Without;
use resolver_base::Faithful;
use resolver_mailbox::mocks::Key;
use resolver_types::Predicate;

/// What a line keeps.
#[derive(Clone, Drop)]
pub enum Kept {
    /// This subscriber, of every key.
    Subscriber(u16),
    /// The subscribers of every key but this one.
    AllBut(u8),
    /// All but the plan's subscriber, of the keys that it wants no more.
    Without(Without<Key, u16>),
}

impl Predicate<Key, u16> for Kept {
    ghost keeps = { is_kept };

    fn keep(&self, key: &Key, subscriber: &u16) -> bool {
        match self {
            Kept::Subscriber(kept) => *subscriber == *kept,
            Kept::AllBut(dropped) => key.0 != *dropped,
            Kept::Without(without) => without.keep(key, subscriber),
        }
    }

    ghost alike = { λ q k l s t same_key same_subscriber. Prim.search rules };
}

impl Faithful for Kept {
    ghost clones = { Prim.search rules };
}
