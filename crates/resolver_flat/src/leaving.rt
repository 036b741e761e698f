//! Subscribers that leave.

ghost use Rattle.std.specs.Prelude.{◌≡◌, IfOk};
ghost use Rattle.std.proofs.Common.{◌∙◌, sym};
ghost use Rattle.resolver_types.specs.Names.{names};
ghost use Rattle.resolver_flat.specs.Leavings.{set_of, stays, stays_alike};

use resolver_types::Predicate;
use std::alloc::{AllocError, Global};
use std::collections::BTreeSet;
use std::marker::Model;

/// Keeps every subscriber of every key but those of a set of pairs. To ask it takes time logarithmic
/// in the number of pairs. Contracts see it as the pairs, in order.
#[derive(Drop)]
pub struct Leaving<K: Ord, S: Ord> {
    pairs: BTreeSet<(K, S)>,
}

impl<K: Ord, S: Ord> Model for Leaving<K, S> {
    ghost use Rattle.std.specs.Prelude.{List};

    ghost Value = { List (K × S) };

    ghost view = { λ a. a.pairs.keys };
}

impl<K: Ord + Drop, S: Ord + Drop> Leaving<K, S> {
    /// Lets these pairs of a key and a subscriber go.
    pub fn of(alloc: Global, leaving: Vec<(K, S)>) -> Result<Self, AllocError>
        ensures { IfOk result (λ set. set ≡ set_of (names K.cmp S.cmp) leaving.items) }
    {
        let mut pairs = BTreeSet::new(alloc);
        for pair in leaving {
            pairs.insert(pair)?;
        }
        Ok(Leaving { pairs })
    }
}

impl<K: Ord + Copy, S: Ord + Copy> Predicate<K, S> for Leaving<K, S> {
    ghost keeps = { λ leaving k s. stays (names K.cmp S.cmp) leaving k s };

    fn keep(&self, key: &K, subscriber: &S) -> bool {
        !self.pairs.contains(&(*key, *subscriber))
    }

    ghost alike = { λ leaving k l s t same_key same_subscriber. stays_alike (names K.cmp S.cmp) K.total S.total leaving k l s t (sym (K.matches_eq k l) ∙ same_key) (sym (S.matches_eq s t) ∙ same_subscriber) };
}
