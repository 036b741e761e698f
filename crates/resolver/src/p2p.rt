//! Fetching from peers: the engine and its mailbox, the parts that they stand on, and parts for
//! tests.
//!
//! `Core` is the engine that fetches: it takes inputs one step after another, as the peer machine takes
//! them, and answers with effects. `Engine` owns such a core, the end of its mailbox that takes messages,
//! and what its caller lends. `Mailbox` is a handle of that mailbox.

mod answers;
mod config;
mod engine;
mod hands;
mod looping;
mod mail;
pub mod mocks;
mod monitor;
mod starting;

pub use config::Config;
pub use engine::Engine;
pub use looping::Loop;
pub use monitor::{Monitor, Rows};
pub use resolver_core::p2p::{
    Core, Durations, MAX_RESPONSE_OVERHEAD, Metrics, Phases, REQUEST_OVERHEAD, Tally, effects,
    fetcher, inputs, laws, max_message_size, named, rows, sampling, score, wire,
};
pub use resolver_handles::mailbox::{FetchKey, Mailbox, Message};
use resolver_mailbox::mailbox::Unrecorded;
pub use resolver_runtime::Producer;

/// A handle of the mailbox of an engine, as `Engine::new` answers it.
pub type EngineHandle<K, P, S, Q, R> = Mailbox<K, P, S, Q, Unrecorded, R>;
