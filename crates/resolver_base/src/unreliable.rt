//! How a message to a peer was taken.

ghost use Rattle.std.specs.Prelude.{◌≡◌};
ghost use Rattle.resolver_base.specs.Sending.{is_accepted};

use crate::Feedback;

/// How a message to a peer was taken by the network, which may lose it later.
#[derive(Clone, Copy, Debug, PartialEq, Eq)]
pub enum Unreliable {
    /// The network didn't look at it.
    Rejected,
    /// What the network said.
    Outcome(Feedback),
}

impl Unreliable {
    /// Whether the message is on its way. One that was rejected or met a closed network isn't.
    pub fn is_accepted(self) -> bool
        ensures { result ≡ is_accepted self }
    {
        match &self {
            Unreliable::Rejected => false,
            Unreliable::Outcome(feedback) => feedback.accepted(),
        }
    }
}
