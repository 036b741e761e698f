//! What a resolver is asked, as its machine takes it.

pub use resolver_messages::{FetchKey, Kept, Message, Metadata, Predicate, Test, laws};
