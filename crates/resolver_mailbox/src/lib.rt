//! Where callers leave what they ask of a resolver.
//!
//! `mailbox::Desk` holds what was left, and merges what comes while there is no room for more. A
//! mailbox is a desk under one lock, between any number of `mailbox::Sender`s and one
//! `mailbox::Receiver`. `mocks` has a key for tests.
#![tactic(auto)]

pub mod mailbox;
pub mod mocks;
