//! What fetches from one opaque source, as its users see it: the handle through which it is asked,
//! and the loop that asks the source.
//!
//! `init` answers with a `Resolver`, a handle of a mailbox, and runs a loop that takes what is put there,
//! an actor over a `Fetcher`, in a thread. `open` gives the `Loop` itself, for a caller that polls it. `init_watched` and
//! `open_watched` do the same with a watcher, which is told what the loop takes and does.
#![tactic(auto)]

mod attempts;
mod config;
mod fetcher;
mod hands;
mod looping;
mod opening;

pub use config::Config;
pub use fetcher::Fetcher;
pub use looping::Loop;
pub use opening::{init, init_watched, open, open_watched};
pub use resolver_handles::resolver::{Message, Resolver};
