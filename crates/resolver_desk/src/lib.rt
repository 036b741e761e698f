//! What lies under a mailbox's lock: the messages that are ready to be taken, what waits behind them while it
//! is full (`Pending`), and the book of calls.
#![tactic(auto)]

mod book;
mod booking;
pub mod desk;
mod drain;
pub mod entry;
mod pending;

pub use pending::Pending;
