//! What a resolver is asked for.

ghost use Rattle.std.specs.Prelude.{◌≡◌, IfOk};

use std::alloc::AllocError;

/// A demand for one key by one subscriber.
///
/// Fetches compare by key and then by subscriber; marks are not looked at.
#[derive(Clone, Debug, Drop)]
#[derive_where(PartialEq, Eq, PartialOrd, Ord; K, S)]
pub struct Fetch<K, S> {
    /// The data that is wanted.
    pub key: K,
    /// Who wants it.
    pub subscriber: S,
    /// A trace mark, which goes with the subscriber; 0 is none.
    #[derive_where(skip(EqHashOrd))]
    pub mark: u64,
}

impl<K: Clone, S: Clone> Fetch<K, S> {
    /// A fetch that is the same, its mark too. Clones of key and subscriber are to equal them.
    pub fn clone(&self) -> Result<Self, AllocError>
        requires keys_clone { (x y : K) → K.is_clone x y → y ≡ x }
        requires subscribers_clone { (x y : S) → S.is_clone x y → y ≡ x }
        ensures same { IfOk result (λ fetch. fetch ≡ self.now) }
    {
        Ok(Fetch {
            key: self.key.clone()?,
            subscriber: self.subscriber.clone()?,
            mark: self.mark,
        })
    }
}

impl<K, S: Default> From<K> for Fetch<K, S> {
    ghost from_gives = { λ key fetch. (fetch.key ≡ key) × S.is_default fetch.subscriber × (fetch.mark ≡ 0) };

    fn from(key: K) -> Fetch<K, S> {
        Fetch {
            key,
            subscriber: S::default(),
            mark: 0,
        }
    }
}
