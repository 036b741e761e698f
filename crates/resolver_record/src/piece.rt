//! What a recorded line is made of.

use bytes::Bytes;

/// A piece of a recorded line. Names are numbered when the line is written.
#[derive(Drop)]
pub enum Piece<K, P, S> {
    /// Here begins a line of the script.
    Input,
    /// Here begins an effect, which is a comment in the script.
    Effect,
    /// Here begins another comment.
    Note,
    Word(&'static str),
    Number(u128),
    /// The name of a request as a message spells it.
    Id(u64),
    Key(K),
    /// A key as the byte by which a script's messages spell it.
    KeyByte(K),
    Peer(P),
    Subscriber(S),
    /// A key that was never wanted.
    NoKey,
    /// A subscriber that never wanted anything.
    NoSubscriber,
    /// Bytes as two hexadecimal digits each.
    Bytes(Bytes),
}
