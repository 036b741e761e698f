//! Numbers that are given once.

ghost use Rattle.std.specs.Prelude.{◌≡◌, ◌+◌, ◌^◌, ◌<◌, ◌≤◌, IfSome, OnSome, IfNone};

use std::marker::Model;

/// Numbers from 0 on, each given once. The last is `u64::MAX`.
///
/// Contracts see it as the number that is given next, which is 2^64 once all were given.
#[derive(Debug, Drop)]
pub struct Numbers {
    next: Option<u64>,
}

impl Model for Numbers {
    ghost use Rattle.std.specs.Prelude.{ℕ, ◌^◌, unwrap_or};

    ghost Value = { ℕ };

    ghost view = { λ a. unwrap_or a.next (2 ^ 64) };
}

impl Numbers {
    /// All numbers, 0 first.
    pub fn new() -> Self
        ensures { result ≡ 0 }
    {
        Numbers { next: Some(0) }
    }

    /// The numbers from this one on, which is given first.
    pub fn starting_at(first: u64) -> Self
        ensures { result ≡ first }
    {
        Numbers { next: Some(first) }
    }

    /// The number that is given next. There is none once `u64::MAX` was given.
    pub fn peek(&self) -> Option<u64>
        ensures number { IfSome result (λ number. (number ≡ self.now) × (number < 2 ^ 64)) }
        ensures none { IfNone result (2 ^ 64 ≤ self.now) }
    {
        let next = self.next?;
        Some(next)
    }

    /// The next number. There is none once `u64::MAX` was given, and then nothing changes.
    pub fn take(&mut self) -> Option<u64>
        ensures number { IfSome result (λ number. (number ≡ self.old) × (number < 2 ^ 64)) }
        ensures after { OnSome result (self.new ≡ self.old + 1) }
        ensures none { IfNone result ((2 ^ 64 ≤ self.old) × (self.new ≡ self.old)) }
    {
        let number = self.next?;
        self.next = number.checked_add(1);
        Some(number)
    }
}
