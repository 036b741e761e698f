//! What an actor takes.

ghost use Rattle.std.specs.Prelude.{◌<◌, ◌^◌};

use resolver_messages::FetchKey;
use resolver_types::Outcome;

/// What the actor takes.
#[derive(Debug, Drop)]
pub enum Event<K, V, S, Q> {
    /// Subscribers want keys. A new key is asked for, and a demanded one takes the subscribers.
    Fetch(Vec<FetchKey<K, S, ()>>),
    /// Subscribers that the predicate doesn't keep want their keys no more. A key without a
    /// subscriber is called off.
    Retain(Q),
    /// The source's answer to an attempt: a value, or none. An old attempt's is passed over.
    Fetched {
        attempt: u64,
        value: Option<V>,
    },
    /// The consumer's outcome for a delivery, or none where it dropped the delivery. A number
    /// that is not open is passed over.
    Verdict {
        number: u64,
        outcome: Option<Outcome>,
    },
    /// The waiting keys that are due are asked for again, from the earliest due on.
    RetriesDue,
    /// No key is wanted any more, and none will be: every later input is refused.
    End,
}

/// An event, and when it came, in nanoseconds: below 2^94.
#[derive(Debug, Drop)]
pub struct Input<K, V, S, Q> {
    pub now: u128,
    pub event: Event<K, V, S, Q>,
    ghost in_range: { now < 2 ^ 94 },
}
