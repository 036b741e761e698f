//! A caller's test of subscribers.

ghost use Rattle.std.specs.Prelude.{◌≡◌, Bool, true};

use resolver_base::Faithful;
use resolver_types::Predicate;
use std::marker::Model;

/// A caller's test of subscribers, by their key. It is pure: what it answers follows from its own
/// value and from what it is asked.
pub trait Test<K: Eq, S: Eq> {
    /// Which subscribers pass it.
    ghost passes: { Self → K → S → Bool };

    /// Whether this subscriber of this key passes.
    fn test(&self, key: &K, subscriber: &S) -> bool
        ensures { result ≡ passes self.now key.now subscriber.now };

    /// It answers alike on equal keys and equal subscribers.
    ghost alike: { (f : Self) (k l : K) (s t : S) → K.eq k l ≡ true → S.eq s t ≡ true
        → passes f k s ≡ passes f l t };
}

/// Keeps the subscribers that pass a caller's test.
///
/// Contracts see the test.
#[derive(Clone, Debug, Drop)]
pub struct Kept<F> {
    test: F,
}

impl<F> Model for Kept<F> {
    ghost Value = { F };

    ghost view = { λ kept. kept.test };
}

impl<F> Kept<F> {
    /// Keeps what passes this test.
    pub fn new(test: F) -> Self
        ensures { result ≡ test }
    {
        Kept { test }
    }

    /// The test.
    pub fn test(&self) -> &F
        ensures { result.now ≡ self.now }
    {
        &self.test
    }
}

impl<F: Faithful> Faithful for Kept<F> {
    ghost use Rattle.std.proofs.Common.{sym, ◌∙◌};

    ghost clones = { λ x y same. sym same.3 ∙ F.clones same.0.test same.1.test same.4 ∙ same.2 };
}

impl<K: Eq, S: Eq, F: Test<K, S>> Predicate<K, S> for Kept<F> {
    ghost keeps = { λ kept k s. F.passes kept k s };

    fn keep(&self, key: &K, subscriber: &S) -> bool {
        self.test.test(key, subscriber)
    }

    ghost alike = { λ kept k l s t same_key same_subscriber. F.alike kept k l s t same_key same_subscriber };
}
