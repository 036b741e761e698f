//! What a caller lends to a loop, and what a resolver's users ask of it.

pub mod blocker;
pub mod clock;
pub mod consumer;
pub mod producer;
pub mod provider;
pub mod receiver;
pub mod resolver;
pub mod watcher;
