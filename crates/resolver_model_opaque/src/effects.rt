//! What an actor wants done.

use resolver_types::Delivery;

/// What the actor wants done.
#[derive(Debug, Drop)]
pub enum Effect<K, V, S> {
    /// The source is to be asked for the key, under this attempt.
    Start {
        attempt: u64,
        key: K,
    },
    /// The answer to this attempt is no longer wanted.
    Abort {
        attempt: u64,
    },
    /// The value is to be handed to the consumer, which judges it under this number. A response
    /// goes by the number of the first delivery that carried it.
    Deliver {
        number: u64,
        response: u64,
        delivery: Delivery<K, S>,
        value: V,
    },
    /// The judgement under this number is no longer wanted.
    Cancel {
        number: u64,
    },
}
