//! Two peers in memory, and the way to them.

ghost use Rattle.std.specs.Prelude.{◌<◌, ◌^◌, length, IfOk};

use crate::peers::network::Peer;
use anyhow::Result;
use bytes::{Bytes, BytesMut};
use futures::channel::mpsc;
use resolver::base::{Check, Feedback, Sender, Unreliable};
use resolver::p2p::mocks::Key;
use resolver::p2p::wire::{Message, Payload};
use std::alloc::{AllocError, Global};

/// The peer that lacks the blocks of even heights.
pub const SPARSE: Peer = Peer(1);

/// The peer that has all blocks.
pub const FULL: Peer = Peer(2);

/// The way to the peers. They answer as soon as they are asked, and not at all of heights that they haven't reached.
#[derive(Drop)]
pub struct Wire {
    pub alloc: Global,
    pub post: mpsc::UnboundedSender<(Peer, Bytes)>,
    /// The height that they have reached.
    pub tip: u8,
}

impl Wire {
    /// Puts a peer's answer to a request where the engine takes it.
    fn ask(&mut self, peer: Peer, request: Bytes) -> Result<()> {
        let request: Message<Key> = Message::decode(request)?;
        if let Payload::Request(height) = request.payload {
            if height.0 <= self.tip {
                let answer = answer(self.alloc, request.id, peer, height)?;
                let _ = self.post.unbounded_send((peer, answer));
            }
        }
        Ok(())
    }
}

/// What a peer answers to the request of this id for this height.
fn answer(alloc: Global, id: u64, peer: Peer, height: Key) -> Result<Bytes> {
    let payload = if peer == SPARSE && height.0 % 2 == 0 {
        Payload::Error
    } else {
        Payload::Response(block(alloc, peer, height)?)
    };
    let message: Message<Key> = Message { id, payload };
    let mut out = BytesMut::new(alloc);
    message.write(&mut out)?;
    Ok(out.freeze()?)
}

/// The block of this height: the height, and the name of the peer that has it.
fn block(alloc: Global, peer: Peer, height: Key) -> Result<Bytes, AllocError>
    ensures short { IfOk result (λ block. length block < 2 ^ 32) }
{
    Bytes::copy_from_slice(alloc, &[height.0, peer.0])
}

impl Sender for Wire {
    type PublicKey = Peer;

    fn check(&mut self, _: &Peer) -> Check {
        Check::Clear
    }

    fn send(&mut self, peer: &Peer, message: Bytes, _: bool) -> Unreliable {
        match self.ask(*peer, message) {
            Ok(()) => Unreliable::Outcome(Feedback::Ok),
            Err(_) => Unreliable::Rejected,
        }
    }
}
