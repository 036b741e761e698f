//! Numbers that follow from a seed.

ghost use Rattle.std.specs.Prelude.{◌≡◌, ◌<◌};
ghost use Rattle.resolver_base.specs.Drawn.{drawn, seeded};

use crate::Draws;
use rand_core::SeedableRng;
use rand_core::utils::NextWord;
use rand_pcg::Pcg64;
use std::marker::Model;

/// A source of numbers over the generator PCG64: from one seed always the same.
///
/// Contracts see it as that generator.
#[derive(Debug, Drop)]
pub struct Seeded {
    generator: Pcg64,
}

impl Model for Seeded {
    ghost use Rattle.rand_pcg.specs.Lcg.{Lcg};

    ghost Value = { Lcg };

    ghost view = { λ a. a.generator };
}

impl Seeded {
    /// The source of this seed.
    pub fn new(seed: u64) -> Self
        ensures { result ≡ seeded seed }
    {
        Seeded {
            generator: Pcg64::seed_from_u64(seed),
        }
    }
}

impl Draws for Seeded {
    ghost below_gives = { λ source n number then. (number, then) ≡ drawn n source };

    /// The remainder by `n` of the next two words, the first of them the high one.
    fn below(&mut self, n: u128) -> u128
        requires { 0 < n }
        ensures value { (result, self.new) ≡ drawn n self.old }
        ensures bound { result < n }
    {
        let high = u128::from(self.generator.next_word());
        let low = u128::from(self.generator.next_word());
        ((high << 64) + low) % n
    }
}
