//! Where numbers are drawn from.

ghost use Rattle.std.specs.Prelude.{ℕ, ◌<◌};

/// A source of numbers. Nothing is promised of how often each comes.
pub trait Draws {
    /// What may be drawn below a bound, and what the source is then: any number, unless it says
    /// more.
    ghost below_gives: { Self → ℕ → ℕ → Self → Type 0 } = { λ _ _ _ _. Unit {0} };

    /// A number below `n`, which is at least 1.
    fn below(&mut self, n: u128) -> u128
        requires { 0 < n }
        ensures bound { result < n }
        ensures gives { below_gives self.old n result self.new };
}
