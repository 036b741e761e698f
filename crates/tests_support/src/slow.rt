//! A consumer whose verdicts the test gives.

ghost use Rattle.std.specs.Prelude.{◌≡◌, IfErr};
ghost use Rattle.resolver_base.specs.declared.fault.Fault.TheVariants.{OutOfMemory};

use crate::names::Letter;
use bytes::Bytes;
use futures::channel::mpsc::SendError;
use futures::channel::{mpsc, oneshot};
use resolver_base::Fault;
use resolver_runtime::Consumer;
use resolver_types::{Delivery, Outcome};
use std::alloc::Global;

/// Hands the test what its verdicts are sent by.
#[derive(Drop)]
pub struct Slow {
    pub alloc: Global,
    pub judges: mpsc::UnboundedSender<oneshot::Sender<Outcome>>,
}

impl Consumer for Slow {
    type Key = Letter;

    type Value = Bytes;

    type Subscriber = u8;

    type Outcome = Outcome;

    fn deliver(
        &mut self,
        _delivery: Delivery<Letter, u8>,
        _value: Bytes,
    ) -> Result<oneshot::Receiver<Outcome>, Fault>
        ensures only { IfErr result (λ fault. fault ≡ OutOfMemory) }
    {
        let (judge, verdict) = oneshot::channel(self.alloc)?;
        if let Err(unsent) = self.judges.unbounded_send(judge) {
            if matches!(unsent.into_send_error(), SendError::OutOfMemory) {
                return Err(Fault::OutOfMemory);
            }
        }
        Ok(verdict)
    }
}
