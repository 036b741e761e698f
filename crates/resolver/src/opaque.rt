//! Fetching from one opaque source, which gives a value for a key or none.
//!
//! `Actor` is the machine: it takes inputs with their moments and answers with effects. `Resolver` is
//! a handle of the mailbox of its loop, which `init` runs over a `Fetcher` in a thread; `open` gives the loop
//! itself. `init_watched` and `open_watched` do the same with a watcher, which is told what the loop takes and does.

pub use resolver_actor::opaque::{Actor, Effect, Event, Input, Phase, Row, laws};
use resolver_mailbox::mailbox::Unrecorded;
pub use resolver_opaque_loop::{
    Config, Fetcher, Loop, Resolver, init, init_watched, open, open_watched,
};

/// A handle of the mailbox of an actor's loop, as `init` answers it, for fetches that name no peers.
pub type ActorHandle<K, S, Q, R> = Resolver<K, S, (), Q, Unrecorded, R>;
