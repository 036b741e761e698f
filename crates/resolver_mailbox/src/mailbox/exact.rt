//! Values that are compared exactly.

ghost use Rattle.std.specs.Prelude.{◌≡◌, ◌↔◌, IsTrue};

use bytes::Bytes;
use resolver_messages::Kept;
use resolver_types::NonEmptyVec;

/// A type whose values are said to be the same exactly where they are.
pub trait Exact {
    /// Whether both are the same.
    fn is_same(&self, other: &Self) -> bool
        ensures { IsTrue result ↔ (self.now ≡ other.now) };
}

impl Exact for () {
    fn is_same(&self, _other: &()) -> bool {
        true
    }
}

impl Exact for u8 {
    fn is_same(&self, other: &u8) -> bool {
        self == other
    }
}

impl Exact for u16 {
    fn is_same(&self, other: &u16) -> bool {
        self == other
    }
}

impl Exact for u32 {
    fn is_same(&self, other: &u32) -> bool {
        self == other
    }
}

impl Exact for u64 {
    fn is_same(&self, other: &u64) -> bool {
        self == other
    }
}

impl Exact for Bytes {
    fn is_same(&self, other: &Bytes) -> bool {
        are_same(self.as_slice(), other.as_slice())
    }
}

impl<T: Exact, const N: usize> Exact for [T; N] {
    fn is_same(&self, other: &[T; N]) -> bool {
        are_same(self, other)
    }
}

impl<A: Exact, B: Exact> Exact for (A, B) {
    fn is_same(&self, other: &(A, B)) -> bool {
        self.0.is_same(&other.0) && self.1.is_same(&other.1)
    }
}

impl<A: Exact, B: Exact, C: Exact> Exact for (A, B, C) {
    fn is_same(&self, other: &(A, B, C)) -> bool {
        self.0.is_same(&other.0) && self.1.is_same(&other.1) && self.2.is_same(&other.2)
    }
}

impl<T: Exact> Exact for NonEmptyVec<T> {
    fn is_same(&self, other: &NonEmptyVec<T>) -> bool {
        are_same(self.as_slice(), other.as_slice())
    }
}

impl<F: Exact> Exact for Kept<F> {
    fn is_same(&self, other: &Kept<F>) -> bool {
        self.test().is_same(other.test())
    }
}

impl<T: Exact> Exact for Option<T> {
    fn is_same(&self, other: &Option<T>) -> bool {
        match self {
            Some(value) => match other {
                Some(other) => value.is_same(other),
                None => false,
            },
            None => other.is_none(),
        }
    }
}

/// Whether both lists are the same.
fn are_same<T: Exact>(these: &[T], those: &[T]) -> bool
    ensures { IsTrue result ↔ (these.now ≡ those.now) }
{
    if these.len() != those.len() {
        return false;
    }
    for place in 0..these.len() {
        if !these[place].is_same(&those[place]) {
            return false;
        }
    }
    true
}
