//! What a caller lends to the loops of a resolver, and what both loops are made of.
//!
//! Lent are a consumer and a producer, the sources that a loop polls, a clock, and a `Watcher`, which is told what a loop does. `mocks` has some
//! for tests. Beside them stand the traits of the handles through which a resolver is asked,
//! `Resolver` and `TargetedResolver`.
//!
//! A loop takes what is ready, one input a `Turn`, until its `Ending`. `start` runs one in a thread,
//! and its `Handle` waits for the end. `Judging` and `Serving` are consumer and producer with what
//! they haven't answered, `Peers` the sources of peers. `Awaited` holds the one-shots that a loop
//! waits for, each under its number. `Tracker` is for callers with a loop of their own: it hands
//! values to its consumer, each under a number, and is polled for what is said of them.
#![tactic(auto)]

pub mod mocks;
mod running;
mod tracker;
mod traits;

pub use running::awaited::Awaited;
pub use running::deadline::{earlier, poll_moment};
pub use running::ending::Ending;
pub use running::handle::{Handle, start};
pub use running::judging::Judging;
pub use running::peers::Peers;
pub use running::serving::Serving;
pub use running::turn::{TURNS, Turn};
pub use tracker::Tracker;
pub use traits::blocker::Blocker;
pub use traits::clock::Clock;
pub use traits::consumer::Consumer;
pub use traits::producer::Producer;
pub use traits::provider::Provider;
pub use traits::receiver::Receiver;
pub use traits::resolver::{Resolver, TargetedResolver};
pub use traits::watcher::{Unwatched, Watcher};
