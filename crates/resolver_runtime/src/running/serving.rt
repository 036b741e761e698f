//! What a producer looks for.

ghost use Rattle.std.specs.Prelude.{◌≡◌, IfErr};
ghost use Rattle.futures.specs.Task.{Keeps};
ghost use Rattle.resolver_base.specs.declared.fault.Fault.TheVariants.{OutOfMemory};

use crate::Producer;
use crate::running::awaited::Awaited;
use bytes::Bytes;
use futures::task::{Context, Poll};
use resolver_base::Fault;
use std::alloc::Global;

/// A producer, and the requests of peers that it hasn't answered so far, each under its number.
#[derive(Drop)]
pub struct Serving<O> {
    producer: O,
    serves: Awaited<Bytes>,
}

impl<O: Producer + Drop> Serving<O> {
    /// Nothing is looked for.
    pub fn new(alloc: Global, producer: O) -> Result<Self, Fault>
        ensures only { IfErr result (λ fault. fault ≡ OutOfMemory) }
    {
        Ok(Serving {
            producer,
            serves: Awaited::new(alloc)?,
        })
    }

    /// Asks the producer for the bytes under a key, for the request under this number.
    pub fn produce(&mut self, serve: u64, key: O::Key) -> Result<(), Fault>
        ensures only { IfErr result (λ fault. fault ≡ OutOfMemory) }
    {
        let bytes = self.producer.produce(key)?;
        self.serves.add(serve, bytes)
    }

    /// The next number with its bytes, or none where the producer has none. Where there is none so
    /// far, the task is woken by the next.
    pub fn poll_served(&mut self, cx: &mut Context<'_>) -> Poll<(u64, Option<Bytes>)>
        ensures kept { Keeps cx.old cx.new }
    {
        self.serves.poll_any(cx)
    }
}
