//! The count of visits to stored numbers.

ghost use Rattle.std.specs.Prelude.{◌≡◌};
ghost use Rattle.resolver_sampling.specs.Visits.{visited};

use std::marker::Model;

/// How often a number was visited that an index stores: a weight, a sum or a count. To read one, to
/// write it, and to do both at once is one visit. It stops at `u64::MAX`.
#[derive(Debug, Drop)]
pub struct Visits {
    count: u64,
}

impl Model for Visits {
    ghost use Rattle.std.specs.Prelude.{ℕ};

    ghost Value = { ℕ };

    ghost view = { λ visits. visits.count };
}

impl Visits {
    /// No visit so far.
    pub fn new() -> Self
        ensures { result ≡ 0 }
    {
        Visits { count: 0 }
    }

    /// How many there were.
    pub fn count(&self) -> u64
        ensures { result ≡ self.now }
    {
        self.count
    }

    /// There was one more.
    pub(super) fn add(&mut self)
        ensures { self.new ≡ visited self.old }
    {
        self.count = self.count.saturating_add(1);
    }
}
