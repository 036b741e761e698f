//! What a scan asks, and what it is answered.

use resolver_base::Check;
use resolver_fetch_requests::requests::ID;

/// What a scan asks.
#[derive(Clone, Debug, Drop, PartialEq, Eq)]
pub enum Ask<K, P> {
    /// For a number below this one.
    Draw(u128),
    /// Whether this peer may be sent to now.
    Check(P),
    /// That a request is sent.
    Request {
        /// Who is asked.
        peer: P,
        /// Names the request.
        id: ID,
        /// The key that is asked for.
        key: K,
        /// Whether it goes before other messages.
        priority: bool,
    },
}

/// What a scan is answered.
#[derive(Clone, Copy, Debug, PartialEq, Eq)]
pub enum Answer {
    /// A number that was drawn.
    Drawn(u128),
    /// Whether the peer may be sent to now.
    Checked(Check),
    /// Whether the request is on its way.
    Sent(bool),
}
