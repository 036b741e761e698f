//! What a consumer is judging.

ghost use Rattle.std.specs.Prelude.{◌≡◌, IfErr, IfOk};
ghost use Rattle.futures.specs.Poll.{OnPending};
ghost use Rattle.futures.specs.Task.{Keeps};
ghost use Rattle.resolver_base.specs.declared.fault.Fault.TheVariants.{OutOfMemory};

use crate::Consumer;
use crate::running::awaited::Awaited;
use futures::task::{Context, Poll};
use resolver_base::Fault;
use resolver_types::{Delivery, Outcome};
use std::alloc::Global;

/// A consumer, and the deliveries that it hasn't judged so far, each under its number.
#[derive(Drop)]
pub struct Judging<C: Consumer> {
    consumer: C,
    verdicts: Awaited<C::Outcome>,
}

impl<C: Consumer + Drop> Judging<C>
where
    C::Outcome: Drop,
{
    /// Nothing is judged.
    pub fn new(alloc: Global, consumer: C) -> Result<Self, Fault>
        ensures only { IfErr result (λ fault. fault ≡ OutOfMemory) }
    {
        Ok(Judging {
            consumer,
            verdicts: Awaited::new(alloc)?,
        })
    }

    /// Hands a value to the consumer, which judges it under this number.
    pub fn deliver(
        &mut self,
        number: u64,
        delivery: Delivery<C::Key, C::Subscriber>,
        value: C::Value,
    ) -> Result<(), Fault>
        ensures only { IfErr result (λ fault. fault ≡ OutOfMemory) }
    {
        let verdict = self.consumer.deliver(delivery, value)?;
        self.verdicts.add(number, verdict)
    }

    /// The judgement under this number is no longer wanted. A verdict that had come is still given,
    /// and else that there is none.
    pub fn cancel(&mut self, number: u64) {
        self.verdicts.close(number);
    }

    /// The next number with its outcome, or none where the consumer dropped the delivery. Where
    /// there is none so far, the task is woken by the next.
    pub fn poll_verdict(&mut self, cx: &mut Context<'_>) -> Poll<(u64, Option<Outcome>)>
        ensures kept { Keeps cx.old cx.new }
    {
        match self.verdicts.poll_any(cx) {
            Poll::Ready((number, Some(outcome))) => Poll::Ready((number, Some(outcome.into()))),
            Poll::Ready((number, None)) => Poll::Ready((number, None)),
            Poll::Pending => Poll::Pending,
        }
    }
}
