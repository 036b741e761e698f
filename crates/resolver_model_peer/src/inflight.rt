//! What was fetched and is judged.

ghost use Rattle.std.specs.Prelude.{◌≡◌};

use crate::named::Source;
use bytes::Bytes;
use resolver_delivery::Entries;
use resolver_sampling::score::elapsed_since;
use std::marker::Model;

/// The deliveries in progress and the cached responses. The context of a response says which peer it
/// came from, in which time, and its bytes; the state of a key is when it was fetched first.
pub type Inflight<K, P, S> = Entries<K, S, Bytes, Source<P>, Start>;

/// When a key was fetched first, and whether the time from then on was counted. Contracts see the
/// moment alone.
#[derive(Drop)]
pub struct Start {
    moment: u128,
    is_counted: bool,
}

impl Model for Start {
    ghost use Rattle.std.specs.Prelude.{ℕ};

    ghost Value = { ℕ };

    ghost view = { λ a. a.moment };
}

impl Start {
    /// It is fetched now, and nothing was counted.
    pub fn at(now: u128) -> Self
        ensures { result ≡ now }
    {
        Start {
            moment: now,
            is_counted: false,
        }
    }

    /// The same, where the time was counted.
    pub fn counted(&self) -> Self
        ensures { result ≡ self.now }
    {
        Start {
            moment: self.moment,
            is_counted: true,
        }
    }

    /// How many nanoseconds ago it was, unless that was counted.
    pub fn uncounted_until(&self, now: u128) -> Option<u128> {
        if self.is_counted {
            return None;
        }
        Some(elapsed_since(self.moment, now))
    }
}
