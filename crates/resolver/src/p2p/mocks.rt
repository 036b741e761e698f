//! Parts for tests of what stands on a resolver.

pub use resolver_mailbox::mocks::Key;
pub use resolver_runtime::mocks::{Consumer, Producer, Quiet};
pub use resolver_wire::wire::{Message, Payload};
