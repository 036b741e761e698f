//! One subscriber, dropped from some keys.

ghost use Rattle.std.specs.Prelude.{◌≡◌, None};
ghost use Rattle.std.specs.Option.{option_copied};
ghost use Rattle.resolver_types.specs.Names.{names};
ghost use Rattle.std.proofs.Common.{◌∙◌, sym};
ghost use Rattle.resolver_backfill.specs.Plans.{is_gone, keeps, without_below};
ghost use Rattle.resolver_backfill.specs.Alike.{keeps_alike};

use resolver_base::Faithful;
use resolver_types::Predicate;
use std::alloc::{AllocError, Global};
use std::collections::BTreeSet;
use std::marker::Model;

/// Keeps every subscriber of every key, but one subscriber of some keys: of those of a set, and of
/// those below a bound, if there is one. The bound itself is kept.
///
/// To ask it takes time logarithmic in the number of the set's keys.
#[derive(Drop)]
pub struct Without<K: Ord, S> {
    subscriber: S,
    keys: BTreeSet<K>,
    below: Option<K>,
}

impl<K: Ord, S> Model for Without<K, S> {
    ghost use Rattle.resolver_backfill.specs.Plans.{Without};

    ghost Value = { Without K S };

    ghost view = { λ a. record { subscriber = a.subscriber; keys = a.keys.keys; below = a.below } };
}

impl<K: Ord, S> Without<K, S> {
    /// Drops this subscriber from these keys.
    pub fn new(subscriber: S, keys: BTreeSet<K>) -> Self
        ensures { result ≡ record { subscriber = subscriber; keys = keys.keys; below = None } }
    {
        Without {
            subscriber,
            keys,
            below: None,
        }
    }

    /// Drops this subscriber from all keys below this one. It takes no memory.
    pub fn below(alloc: Global, subscriber: S, bound: K) -> Self
        ensures { result ≡ without_below subscriber bound }
    {
        Without {
            subscriber,
            keys: BTreeSet::new(alloc),
            below: Some(bound),
        }
    }

    /// Who is dropped.
    pub fn subscriber(&self) -> &S
        ensures { result.now ≡ self.now.subscriber }
    {
        &self.subscriber
    }

    /// The keys of its set.
    pub fn keys(&self) -> &BTreeSet<K>
        ensures { result.now.keys ≡ self.now.keys }
    {
        &self.keys
    }

    /// The key below which all others are dropped, if there is one.
    pub fn bound(&self) -> Option<&K>
        ensures { option_copied result ≡ self.now.below }
    {
        self.below.as_ref()
    }

    /// Whether the subscriber is dropped from this key.
    fn is_gone(&self, key: &K) -> bool
        ensures { result ≡ is_gone K.cmp self.now key.now }
    {
        if self.keys.contains(key) {
            return true;
        }
        match &self.below {
            Some(bound) => key.cmp(bound).is_lt(),
            None => false,
        }
    }
}

impl<K: Ord, S: Ord> Predicate<K, S> for Without<K, S> {
    ghost keeps = { λ without k s. keeps (names K.cmp S.cmp) without k s };

    fn keep(&self, key: &K, subscriber: &S) -> bool {
        !(subscriber.cmp(&self.subscriber).is_eq() && self.is_gone(key))
    }

    ghost alike = { λ without k l s t same_key same_subscriber. keeps_alike (names K.cmp S.cmp) K.total S.total without k l s t (sym (K.matches_eq k l) ∙ same_key) (sym (S.matches_eq s t) ∙ same_subscriber) };
}

impl<K: Ord + Faithful, S: Faithful> Clone for Without<K, S> {
    ghost is_clone = { λ x y. y ≡ x };

    fn clone(&self) -> Result<Self, AllocError> {
        Ok(Without {
            subscriber: self.subscriber.clone()?,
            keys: self.keys.clone()?,
            below: self.below.clone()?,
        })
    }
}

impl<K: Ord + Faithful, S: Faithful> Faithful for Without<K, S> {
    ghost clones = { λ x y same. same };
}
