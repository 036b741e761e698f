//! Moments.

ghost use Rattle.std.specs.Prelude.{◌≡◌, ◌<◌, ◌≤◌, ◌+◌, ◌^◌, IfNone, IfSome};

/// A moment or a duration, in nanoseconds: below 2^94, which is more than 600 billion years. The order is
/// that of the numbers.
#[derive(Clone, Copy, Debug, PartialEq, Eq, PartialOrd, Ord)]
pub struct Moment {
    pub nanoseconds: u128,
    ghost in_range: { nanoseconds < 2 ^ 94 },
}

impl Moment {
    /// The moment or duration of this many nanoseconds, if they are below 2^94.
    pub fn from_nanos(nanoseconds: u128) -> Option<Moment>
        ensures is { IfSome result (λ moment. moment.nanoseconds ≡ nanoseconds) }
        ensures none { IfNone result (2 ^ 94 ≤ nanoseconds) }
    {
        if nanoseconds < 1 << 94 {
            Some(Moment { nanoseconds })
        } else {
            None
        }
    }

    /// The moment that comes this much later, if it is below 2^94 nanoseconds.
    pub fn plus(self, later: Moment) -> Option<Moment>
        ensures is { IfSome result
            (λ moment. moment.nanoseconds ≡ self.nanoseconds + later.nanoseconds) }
        ensures none { IfNone result (2 ^ 94 ≤ self.nanoseconds + later.nanoseconds) }
    {
        Moment::from_nanos(self.nanoseconds + later.nanoseconds)
    }
}
