//! What a verdict means for a key that is being judged.

ghost use Rattle.std.specs.Prelude.{◌≡◌};
ghost use Rattle.resolver_model.specs.Verdicts.{ruling};

use resolver_types::{Outcome, Resolution};

/// What becomes of a key and its response after a verdict.
#[derive(Clone, Copy, Debug, PartialEq, Eq)]
pub enum Ruling {
    /// The named subscribers are retired, and the rest get the response again, accepted or not.
    Serve { accepted: bool },
    /// The response is discarded, and the key is retried.
    Retry,
    /// The whole key is retired.
    Retire,
}

/// The ruling on a consumer's outcome, or on none where the consumer dropped the delivery.
/// `accepted`: the response was judged complete before.
pub fn rule_on(outcome: Option<Outcome>, accepted: bool) -> Ruling
    ensures { result ≡ ruling accepted outcome }
{
    match outcome {
        None => Ruling::Serve { accepted },
        Some(Outcome::Resolved(Resolution::Complete)) => Ruling::Serve { accepted: true },
        Some(Outcome::Resolved(Resolution::Partial)) | Some(Outcome::Unresolved) => Ruling::Retry,
        Some(Outcome::Invalid) => {
            if accepted {
                Ruling::Retire
            } else {
                Ruling::Retry
            }
        }
        Some(Outcome::Ignored) => Ruling::Retire,
    }
}
