//! How a message was taken.

ghost use Rattle.std.specs.Prelude.{◌≡◌};
ghost use Rattle.resolver_base.specs.Sending.{was_taken};

/// How a message was taken by what it was handed to.
#[derive(Clone, Copy, Debug, PartialEq, Eq)]
pub enum Feedback {
    /// It was taken.
    Ok,
    /// It was taken, and the caller does well to slow down.
    Backoff,
    /// It was not taken: whoever took messages has gone.
    Closed,
}

impl Feedback {
    /// Whether the message was taken, with `Backoff` or without.
    pub fn accepted(&self) -> bool
        ensures { result ≡ was_taken self.now }
    {
        matches!(self, Feedback::Ok | Feedback::Backoff)
    }
}
