//! What the engine takes.

ghost use Rattle.std.specs.Prelude.{◌<◌, ◌^◌};

use bytes::Bytes;
use resolver_fetch_scan::scan::Answer;
use resolver_messages::FetchKey;
use resolver_types::{NonEmptyVec, Outcome};

/// What happens around the engine.
#[derive(Debug, Drop)]
pub enum Event<K, P, S, Q> {
    /// Subscribers want keys, and say which peers may be asked for them, if not any.
    Fetch(Vec<FetchKey<K, S, Option<NonEmptyVec<P>>>>),
    /// Subscribers that the predicate doesn't keep want their keys no more. A key without a
    /// subscriber is called off.
    Retain(Q),
    /// The peers of a set, which takes the place of the last where its index is greater.
    PeerSet {
        index: u64,
        peers: Vec<P>,
    },
    /// All peers that are blocked.
    Blocked(Vec<P>),
    /// A request's time is over.
    ActiveDue,
    /// It is time to look for keys to ask for.
    PendingDue,
    /// The consumer's outcome for a delivery, or none where it dropped the delivery. A number that
    /// is not open is passed over.
    Verdict {
        number: u64,
        outcome: Option<Outcome>,
    },
    /// The producer's bytes for a peer's request, or none where it has none. A number that is not
    /// open is passed over.
    Served {
        serve: u64,
        value: Option<Bytes>,
    },
    /// What a peer sent. Bytes that are no message are passed over.
    Net {
        peer: P,
        bytes: Bytes,
    },
    /// No key is wanted any more, and none will be: every later input is refused.
    End,
}

/// An event, and when it came, in nanoseconds: below 2^94.
#[derive(Debug, Drop)]
pub struct Happening<K, P, S, Q> {
    pub now: u128,
    pub event: Event<K, P, S, Q>,
    ghost in_range: { now < 2 ^ 94 },
}

/// What the engine takes.
#[derive(Debug, Drop)]
pub enum Input<K, P, S, Q> {
    /// Something happened. While a scan expects an answer the engine is busy.
    Happens(Happening<K, P, S, Q>),
    /// What the open scan asked is answered.
    Answers(Answer),
}
