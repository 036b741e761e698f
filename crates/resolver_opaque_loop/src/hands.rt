//! What an actor's effects go to.

ghost use Rattle.std.specs.Prelude.{◌≡◌, IfErr};
ghost use Rattle.resolver_base.specs.declared.fault.Fault.TheVariants.{OutOfMemory};

use crate::attempts::Attempts;
use crate::fetcher::Fetcher;
use futures::Future;
use resolver_base::{Faithful, Fault, Span};
use resolver_opaque_actor::Effect;
use resolver_runtime::{Consumer, Judging};
use resolver_types::Delivery;
use std::alloc::Global;

/// What an actor's effects go to: the source with its looks under way, and the consumer.
///
/// A loop's calls are proved with all that they hold, so those that need no more than this are its own.
#[derive(Drop)]
pub(crate) struct Hands<F, C>
where
    F: Fetcher,
    C: Consumer,
    C::Outcome: Drop,
{
    fetcher: F,
    pub(crate) attempts: Attempts<F::Future>,
    pub(crate) judging: Judging<C>,
    /// Whether memory was refused outside the actor.
    pub(crate) is_starved: bool,
}

impl<K, V, S, F, C> Hands<F, C>
where
    K: Span + Faithful + Drop,
    V: Faithful + Drop,
    S: Ord + Faithful + Drop,
    F: Fetcher<Key = K, Value = V> + Drop,
    C: Consumer<Key = K, Value = V, Subscriber = S> + Drop,
    C::Outcome: Drop,
{
    /// With no look under way, and nothing judged. Where memory is refused, both are dropped.
    pub(crate) fn new(alloc: Global, fetcher: F, consumer: C) -> Result<Self, Fault>
        ensures only { IfErr result (λ fault. fault ≡ OutOfMemory) }
    {
        Ok(Hands {
            fetcher,
            attempts: Attempts::new(alloc)?,
            judging: Judging::new(alloc, consumer)?,
            is_starved: false,
        })
    }

    /// Looks for a value.
    fn start(&mut self, attempt: u64, key: K) {
        let look = self.fetcher.fetch(key);
        if self.attempts.add(attempt, look).is_err() {
            self.is_starved = true;
        }
    }

    /// Asks the consumer to judge a value.
    fn deliver(&mut self, number: u64, delivery: Delivery<K, S>, value: V) {
        if self.judging.deliver(number, delivery, value).is_err() {
            self.is_starved = true;
        }
    }

    /// Carries an effect out.
    pub(crate) fn carry_out(&mut self, effect: Effect<K, V, S>) {
        match effect {
            Effect::Start { attempt, key } => self.start(attempt, key),
            Effect::Abort { attempt } => self.attempts.abort(attempt),
            Effect::Deliver {
                number,
                response: _,
                delivery,
                value,
            } => self.deliver(number, delivery, value),
            Effect::Cancel { number } => self.judging.cancel(number),
        }
    }
}
