//! Names that count how often they are compared.

ghost use Rattle.std.specs.Prelude.{[], Some, true};
ghost use Rattle.std.specs.declared.cmp.Ordering.TheVariants.{Equal};
ghost use Rattle.std.proofs.Common.{rules};

use std::cell::Cell;
use std::cmp::Ordering;
use std::hash::{Hash, Hasher};

/// Counts how often it is compared or hashed. All of them are equal.
#[derive(Clone, Copy)]
pub struct Tally<'a>(pub &'a Cell<u32>);

impl Tally<'_> {
    fn count(&self) {
        self.0.set(self.0.get().wrapping_add(1));
    }
}

impl PartialEq for Tally<'_> {
    ghost eq = { λ one other. true };

    ghost laws = { Prim.search rules };

    fn eq(&self, _other: &Self) -> bool {
        self.count();
        true
    }
}

impl Eq for Tally<'_> {
    ghost laws = { Prim.search rules };
}

impl PartialOrd for Tally<'_> {
    ghost partial_cmp = { λ one other. Some Equal };

    ghost laws = { Prim.search rules };

    fn partial_cmp(&self, _other: &Self) -> Option<Ordering> {
        self.count();
        Some(Ordering::Equal)
    }
}

impl Ord for Tally<'_> {
    ghost cmp = { λ one other. Equal };

    ghost total = { Prim.search rules };

    ghost matches_partial_cmp = { Prim.search rules };

    ghost matches_eq = { Prim.search rules };

    fn cmp(&self, _other: &Self) -> Ordering {
        self.count();
        Ordering::Equal
    }
}

impl Hash for Tally<'_> {
    ghost hash_input = { λ one. [] };

    ghost respects_eq = { Prim.search rules };

    fn hash<H: Hasher>(&self, _state: &mut H) {
        self.count();
    }
}

/// A name that counts how often such names are compared or hashed, first of all.
#[derive(Clone, Copy, PartialEq, Eq, PartialOrd, Ord, Hash)]
pub struct Counting<'a> {
    pub tally: Tally<'a>,
    pub name: u16,
}
