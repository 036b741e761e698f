//! Which subscribers of which keys stay.

ghost use Rattle.std.specs.Prelude.{◌≡◌, Bool, true};

/// A test of subscribers, by their key. It is pure: what it answers follows from its own value
/// and from what it is asked.
pub trait Predicate<K: Eq, S: Eq> {
    /// Which subscribers it keeps.
    ghost keeps: { Self → K → S → Bool };

    /// Whether this subscriber of this key stays.
    fn keep(&self, key: &K, subscriber: &S) -> bool
        ensures { result ≡ keeps self.now key.now subscriber.now };

    /// It answers alike on equal keys and equal subscribers.
    ghost alike: { (q : Self) (k l : K) (s t : S) → K.eq k l ≡ true → S.eq s t ≡ true
        → keeps q k s ≡ keeps q l t };
}
