//! Whom values are handed to.

ghost use Rattle.std.specs.Prelude.{◌≡◌, IfErr};
ghost use Rattle.resolver_base.specs.declared.fault.Fault.TheVariants.{OutOfMemory};

use futures::channel::oneshot;
use resolver_base::{Fault, Span};
use resolver_types::{Delivery, Outcome};

/// What judges the values that were fetched.
pub trait Consumer: 'static {
    /// How data is named.
    type Key: Span;

    /// What was fetched.
    type Value;

    /// Who wants it.
    type Subscriber: Clone + Eq;

    /// What is said of a delivery.
    type Outcome: Into<Outcome>;

    /// Takes a value for the subscribers of its key, and answers the one-shot through which it will say what
    /// became of it: it may do so at any time, from any thread. A sender that is dropped without a word lets
    /// the delivery go: its subscribers are served, and its peer earns nothing.
    ///
    /// The loop waits for this call, so it is to hand on and not to judge. A later delivery may name the same
    /// key with the same value, for subscribers that came meanwhile. Once nobody wants the key any more the loop
    /// closes the one-shot.
    ///
    /// `OutOfMemory`, the only error, ends the loop, whose `Handle::join` then answers it.
    fn deliver(
        &mut self,
        delivery: Delivery<Self::Key, Self::Subscriber>,
        value: Self::Value,
    ) -> Result<oneshot::Receiver<Self::Outcome>, Fault>
        ensures only { IfErr result (λ fault. fault ≡ OutOfMemory) };
}
