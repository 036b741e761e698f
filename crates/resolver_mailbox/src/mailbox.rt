//! Where callers leave messages for a resolver.
//!
//! A `Desk` holds the messages that are ready to be taken, and merges what comes while there is no
//! room for more. A mailbox is a desk under one lock, between any number of `Sender`s and one
//! `Receiver`.

mod agreeing;
mod counted;
mod exact;
mod naming;
mod opening;
mod receiver;
mod sender;
mod share;
mod taken;

pub use exact::Exact;
pub use naming::{Names, Naming, Pages, Puts, Takes, Unrecorded};
pub use opening::{new, recorded};
pub use receiver::Receiver;
pub use resolver_desk::desk::Desk;
pub use resolver_desk::entry::{Entry, Posted};
pub use sender::Sender;
pub use share::Share;
