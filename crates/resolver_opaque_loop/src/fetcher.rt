//! What an actor asks for keys.

use futures::Future;
use resolver_base::Span;

/// The one source of an actor over an opaque source.
pub trait Fetcher: 'static {
    /// How data is named.
    type Key: Span;

    /// What is fetched.
    type Value;

    /// A look for the value under a key: none where the source has none so far. Dropping it gives
    /// the look up.
    type Future: Future<Output = Option<Self::Value>>;

    /// Looks for the value under a key.
    fn fetch(&self, key: Self::Key) -> Self::Future;

    /// Each state of its futures may be polled.
    ghost pollable: { (future : Self.Future) → Self.Future.can_poll future };
}
