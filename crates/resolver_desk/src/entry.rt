//! The calls on a desk.

use resolver_messages::Message;

/// A put that was answered Ok or Backoff.
#[derive(Debug, Drop)]
pub struct Posted<K, S, M, Q> {
    /// The number of the handle.
    pub handle: u64,
    /// Its place among the handle's puts, from 0 on.
    pub place: u64,
    /// What was put.
    pub message: Message<K, S, M, Q>,
    /// Whether it was answered Ok, and else Backoff.
    pub is_ok: bool,
}

/// A call that changed a desk.
#[derive(Debug, Drop)]
pub enum Entry<K, S, M, Q> {
    /// A message was put.
    Put(Posted<K, S, M, Q>),
    /// This message was taken.
    Take(Message<K, S, M, Q>),
    /// The desk was closed.
    Close,
}
