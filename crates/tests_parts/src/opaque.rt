//! The loop of an actor over an opaque source.

mod lent;
mod looping;
mod running;
