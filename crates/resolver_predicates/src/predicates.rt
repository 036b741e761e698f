//! Predicates that a caller of `retain` needs day by day.

ghost use Rattle.std.specs.Prelude.{◌≡◌, ◌&&◌, ◌||◌, false, not, true};
ghost use Rattle.std.proofs.Common.{ap, ◌∙◌, sym, rules};
ghost use Rattle.resolver_predicates.specs.Kept.{has, has_alike, is_alike, is_one};

use resolver_base::Faithful;
use resolver_types::Predicate;
use std::alloc::AllocError;
use std::collections::BTreeSet;

/// Keeps every subscriber of every key.
#[derive(Clone, Copy, Debug, PartialEq, Eq, Drop)]
pub struct All;

impl<K: Eq, S: Eq> Predicate<K, S> for All {
    ghost keeps = { λ _ _ _. true };

    fn keep(&self, _: &K, _: &S) -> bool {
        true
    }

    ghost alike = { λ q k l s t same_key same_subscriber. Prim.search rules };
}

impl Faithful for All {
    ghost clones = { Prim.search rules };
}

/// Keeps nobody.
#[derive(Clone, Copy, Debug, PartialEq, Eq, Drop)]
pub struct Nobody;

impl<K: Eq, S: Eq> Predicate<K, S> for Nobody {
    ghost keeps = { λ _ _ _. false };

    fn keep(&self, _: &K, _: &S) -> bool {
        false
    }

    ghost alike = { λ q k l s t same_key same_subscriber. Prim.search rules };
}

impl Faithful for Nobody {
    ghost clones = { Prim.search rules };
}

/// Keeps one subscriber, of every key.
#[derive(Debug, Drop)]
pub struct Only<S> {
    /// Who stays.
    pub subscriber: S,
}

impl<K: Eq, S: Ord> Predicate<K, S> for Only<S> {
    ghost keeps = { λ only k s. is_one S.cmp only.subscriber s };

    fn keep(&self, _: &K, subscriber: &S) -> bool {
        subscriber.cmp(&self.subscriber).is_eq()
    }

    ghost alike = { λ only k l s t same_key same_subscriber. is_alike S.cmp S.total only.subscriber s t (sym (S.matches_eq s t) ∙ same_subscriber) };
}

impl<S: Faithful> Clone for Only<S> {
    ghost is_clone = { λ x y. y ≡ x };

    fn clone(&self) -> Result<Self, AllocError> {
        Ok(Only {
            subscriber: self.subscriber.clone()?,
        })
    }
}

impl<S: Faithful> Faithful for Only<S> {
    ghost clones = { λ x y same. same };
}

/// Keeps every subscriber of these keys. To ask it takes time logarithmic in how many they are.
#[derive(Debug, Drop)]
pub struct OfKeys<K: Ord> {
    /// The keys that stay.
    pub keys: BTreeSet<K>,
}

impl<K: Ord, S: Eq> Predicate<K, S> for OfKeys<K> {
    ghost keeps = { λ of k s. has K.cmp of.keys.keys k };

    fn keep(&self, key: &K, _: &S) -> bool {
        self.keys.contains(key)
    }

    ghost alike = { λ of k l s t same_key same_subscriber. has_alike K.cmp K.total of.keys.keys k l (sym (K.matches_eq k l) ∙ same_key) };
}

impl<K: Ord + Faithful> Clone for OfKeys<K> {
    ghost is_clone = { λ x y. y ≡ x };

    fn clone(&self) -> Result<Self, AllocError> {
        Ok(OfKeys {
            keys: self.keys.clone()?,
        })
    }
}

impl<K: Ord + Faithful> Faithful for OfKeys<K> {
    ghost clones = { λ x y same. same };
}

/// Keeps whom another doesn't: `Not` of `Only` is everybody but one, `Not` of `OfKeys` every key but
/// these.
#[derive(Debug, Drop)]
pub struct Not<A> {
    /// The other.
    pub inner: A,
}

impl<K: Eq, S: Eq, A: Predicate<K, S>> Predicate<K, S> for Not<A> {
    ghost keeps = { λ q k s. not (A.keeps q.inner k s) };

    fn keep(&self, key: &K, subscriber: &S) -> bool {
        !self.inner.keep(key, subscriber)
    }

    ghost alike = { λ q k l s t same_key same_subscriber. ap not (A.alike q.inner k l s t same_key same_subscriber) };
}

impl<A: Faithful> Clone for Not<A> {
    ghost is_clone = { λ x y. y ≡ x };

    fn clone(&self) -> Result<Self, AllocError> {
        Ok(Not {
            inner: self.inner.clone()?,
        })
    }
}

impl<A: Faithful> Faithful for Not<A> {
    ghost clones = { λ x y same. same };
}

/// Keeps whom both keep.
#[derive(Debug, Drop)]
pub struct Both<A, B> {
    /// The one, which is asked first.
    pub first: A,
    /// The other.
    pub second: B,
}

impl<K: Eq, S: Eq, A: Predicate<K, S>, B: Predicate<K, S>> Predicate<K, S> for Both<A, B> {
    ghost keeps = { λ q k s. A.keeps q.first k s && B.keeps q.second k s };

    fn keep(&self, key: &K, subscriber: &S) -> bool {
        self.first.keep(key, subscriber) && self.second.keep(key, subscriber)
    }

    ghost alike = { λ q k l s t same_key same_subscriber.
        ap (λ b. b && B.keeps q.second k s) (A.alike q.first k l s t same_key same_subscriber)
        ∙ ap (λ b. A.keeps q.first l t && b) (B.alike q.second k l s t same_key same_subscriber) };
}

impl<A: Faithful, B: Faithful> Clone for Both<A, B> {
    ghost is_clone = { λ x y. y ≡ x };

    fn clone(&self) -> Result<Self, AllocError> {
        Ok(Both {
            first: self.first.clone()?,
            second: self.second.clone()?,
        })
    }
}

impl<A: Faithful, B: Faithful> Faithful for Both<A, B> {
    ghost clones = { λ x y same. same };
}

/// Keeps whom one of two keeps, or both.
#[derive(Debug, Drop)]
pub struct Either<A, B> {
    /// The one, which is asked first.
    pub first: A,
    /// The other.
    pub second: B,
}

impl<K: Eq, S: Eq, A: Predicate<K, S>, B: Predicate<K, S>> Predicate<K, S> for Either<A, B> {
    ghost keeps = { λ q k s. A.keeps q.first k s || B.keeps q.second k s };

    fn keep(&self, key: &K, subscriber: &S) -> bool {
        self.first.keep(key, subscriber) || self.second.keep(key, subscriber)
    }

    ghost alike = { λ q k l s t same_key same_subscriber.
        ap (λ b. b || B.keeps q.second k s) (A.alike q.first k l s t same_key same_subscriber)
        ∙ ap (λ b. A.keeps q.first l t || b) (B.alike q.second k l s t same_key same_subscriber) };
}

impl<A: Faithful, B: Faithful> Clone for Either<A, B> {
    ghost is_clone = { λ x y. y ≡ x };

    fn clone(&self) -> Result<Self, AllocError> {
        Ok(Either {
            first: self.first.clone()?,
            second: self.second.clone()?,
        })
    }
}

impl<A: Faithful, B: Faithful> Faithful for Either<A, B> {
    ghost clones = { λ x y same. same };
}
