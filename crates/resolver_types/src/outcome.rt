//! What is said of a delivery.

ghost use Rattle.std.specs.Prelude.{◌≡◌};

/// How far a delivery met the demand.
#[derive(Clone, Copy, Debug, PartialEq, Eq)]
pub enum Resolution {
    /// The named subscribers have what they wanted.
    Complete,
    /// More is wanted of this key.
    Partial,
}

/// What a consumer says of a delivery: of the data of its key, for the subscribers that it names.
///
/// A response earns its peer one credit or one block at most, whatever is said of it later. What is said
/// of a delivery that was called off counts for its peer alone.
#[derive(Clone, Copy, Debug, PartialEq, Eq)]
pub enum Outcome {
    /// The data is wrong. It is dropped, the key is asked for again after the retry delay, for all its
    /// subscribers, and the peer is to be blocked. Where it was judged `Complete` before, the key is
    /// retired with all its subscribers instead, and no peer is blocked.
    Invalid,
    /// The data is right, and the peer earns a credit. `Complete`: the named subscribers are retired, and
    /// the data is handed out once more to those that came since; where there are none, the key is
    /// retired. `Partial`: the data is dropped, and the key is asked for again after the retry delay, for
    /// all its subscribers.
    Resolved(Resolution),
    /// The data is right for its key and resolves none of the named subscribers. It is dropped, and the
    /// key is asked for again after the retry delay, for all its subscribers; the peer earns nothing.
    Unresolved,
    /// Nobody wants the key any more. It is retired with all its subscribers; the peer earns nothing.
    Ignored,
}

impl From<bool> for Outcome {
    ghost use Rattle.resolver_types.specs.Outcomes.{outcome_of};

    ghost from_gives = { λ is_right outcome. outcome ≡ outcome_of is_right };

    /// What is right completes, and what isn't is invalid.
    fn from(is_right: bool) -> Outcome {
        if is_right {
            Outcome::Resolved(Resolution::Complete)
        } else {
            Outcome::Invalid
        }
    }
}
