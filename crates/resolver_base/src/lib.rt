//! What every part of the resolver stands on: names of keys and peers, refusals, moments, numbers that are
//! given once, and what the caller lends to a machine: a way to the peers, and numbers that are drawn.
//!
//! `Fault` is why a call was refused.
#![tactic(auto)]

pub mod check;
pub mod draws;
pub mod faithful;
pub mod fault;
pub mod feedback;
pub mod moment;
pub mod numbers;
pub mod public_key;
pub mod seeded;
pub mod sender;
pub mod span;
pub mod unreliable;

pub use check::Check;
pub use draws::Draws;
pub use faithful::Faithful;
pub use fault::Fault;
pub use feedback::Feedback;
pub use moment::Moment;
pub use numbers::Numbers;
pub use public_key::PublicKey;
pub use seeded::Seeded;
pub use sender::Sender;
pub use span::Span;
pub use unreliable::Unreliable;
