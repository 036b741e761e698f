//! Who answers what peers ask for.

ghost use Rattle.std.specs.Prelude.{◌≡◌, IfErr};
ghost use Rattle.resolver_base.specs.declared.fault.Fault.TheVariants.{OutOfMemory};

use bytes::Bytes;
use futures::channel::oneshot;
use resolver_base::{Fault, Span};

/// What has the data that peers ask for.
pub trait Producer: 'static {
    /// How data is named.
    type Key: Span;

    /// Looks for the bytes under a key, and answers where they will be handed in. A sender that is
    /// dropped has none.
    fn produce(&mut self, key: Self::Key) -> Result<oneshot::Receiver<Bytes>, Fault>
        ensures only { IfErr result (λ fault. fault ≡ OutOfMemory) };
}
