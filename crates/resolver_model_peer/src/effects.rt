//! What the engine wants done.

use crate::named::Source;
use bytes::Bytes;
use resolver_fetch_scan::scan::Ask;
use resolver_types::Delivery;

/// What the engine wants done. A response goes by the number of the first delivery that carried it.
#[derive(Debug, Drop)]
pub enum Effect<K, P, S> {
    /// The open scan asks this, and takes nothing else before its answer.
    Ask(Ask<K, P>),
    /// The value is to be handed to the consumer, which judges it under this number.
    Deliver {
        number: u64,
        response: u64,
        delivery: Delivery<K, S>,
        value: Bytes,
    },
    /// The judgement under this number is no longer wanted.
    Cancel {
        number: u64,
    },
    /// A peer asks for this key: its bytes are to be handed in under this number.
    Produce {
        serve: u64,
        key: K,
    },
    /// The bytes of a reply are to be sent to this peer, before other messages or not.
    Reply {
        peer: P,
        bytes: Bytes,
        priority: bool,
    },
    /// The response was judged to be right: its peer earned it.
    Credit {
        response: u64,
        source: Source<P>,
    },
    /// The response was judged to be wrong: its peer is to be blocked.
    Block {
        response: u64,
        peer: P,
    },
}
