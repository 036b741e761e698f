//! What a resolver is asked, as its machine takes it, and what waits while a mailbox is full.

pub use resolver_core::ingress::{FetchKey, Kept, Message, Metadata, Predicate, Test, laws};
pub use resolver_desk::Pending;
