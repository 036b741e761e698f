//! How fast a peer has been, for choosing peers by measured throughput.
//!
//! A `Score` keeps two halving averages, of useful bytes and of the time that they took.

ghost use Rattle.std.specs.Prelude.{◌≡◌, ◌≤◌, ◌-◌, ◌^◌};
ghost use Rattle.resolver_sampling.specs.declared.score.Averages.TheVariants.{Unobserved};
ghost use Rattle.resolver_sampling.specs.Scores.{Observation, averaged, weight_of};
ghost use Rattle.resolver_sampling.specs.Times.{elapsed_since};

use std::marker::Model;

/// The longest time that counts, in nanoseconds.
pub const DURATION_MAX: u128 = 18_446_744_073_709_551_615_999_999_999;

const NANOSECONDS_PER_SECOND: u128 = 1_000_000_000;

/// How many units a byte has in an average.
const UNITS_PER_BYTE: u128 = 1 << 32;

/// The averages of what was observed.
#[derive(Clone, Copy, Debug)]
enum Averages {
    Unobserved,
    /// Bytes in units of 2^-32, and time in nanoseconds.
    Observed { bytes: u128, elapsed: u128 },
}

/// How fast a peer has been. Contracts see it as its averages, or as unobserved.
#[derive(Clone, Copy, Debug)]
pub struct Score {
    averages: Averages,
}

impl Model for Score {
    ghost use Rattle.resolver_sampling.specs.declared.score.Averages.{Averages};
    ghost use Rattle.resolver_sampling.specs.Bounded.{IsBounded};

    ghost Value = { Averages };

    ghost view = { λ score. score.averages };

    ghost invariant = { λ score. IsBounded score.averages };

    ghost inverse = { λ averages. record { averages = averages } };
}

impl Default for Score {
    ghost is_default = { λ score. score ≡ Unobserved };

    /// The score of a peer of which nothing was observed.
    fn default() -> Self {
        Score {
            averages: Averages::Unobserved,
        }
    }
}

impl Score {
    /// Takes in that a request took `elapsed` nanoseconds and gave `bytes` useful bytes.
    ///
    /// The first observation sets both averages. A later one moves each half the way to it,
    /// rounded down. Time counts as at least a nanosecond and at most `DURATION_MAX`.
    pub fn record(&mut self, elapsed: u128, bytes: u64)
        ensures step { self.new ≡ averaged self.old (record { elapsed = elapsed; bytes = bytes }) }
        ensures idle { bytes ≡ 0 → weight_of self.new ≤ weight_of self.old }
    {
        let bytes = u128::from(bytes) * UNITS_PER_BYTE;
        let elapsed = elapsed.min(DURATION_MAX).max(1);
        self.averages = match self.averages {
            Averages::Unobserved => Averages::Observed { bytes, elapsed },
            Averages::Observed {
                bytes: old_bytes,
                elapsed: old_elapsed,
            } => Averages::Observed {
                bytes: (old_bytes + bytes) / 2,
                elapsed: (old_elapsed + elapsed) / 2,
            },
        };
    }

    /// What the peer weighs in a draw: its bytes a second and one more, at most `u64::MAX`.
    /// It is 1 where nothing was observed.
    pub fn weight(&self) -> u64
        ensures value { result ≡ weight_of self.now }
        ensures at_least { 1 ≤ result }
        ensures at_most { result ≤ 2 ^ 64 - 1 }
    {
        match self.averages {
            Averages::Unobserved => 1,
            Averages::Observed { bytes, elapsed } => {
                let rate = bytes * NANOSECONDS_PER_SECOND / (elapsed * UNITS_PER_BYTE);
                (rate + 1).min(u128::from(u64::MAX)) as u64
            }
        }
    }
}

/// How many nanoseconds ago something began, at most `DURATION_MAX`; nothing where the clock went
/// back.
#[inline]
pub fn elapsed_since(start: u128, now: u128) -> u128
    ensures { result ≡ elapsed_since start now }
{
    now.saturating_sub(start).min(DURATION_MAX)
}
