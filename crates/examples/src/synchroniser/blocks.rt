//! What becomes of a block that came.

ghost use Rattle.std.specs.Prelude.{◌≡◌, IfErr};
ghost use Rattle.resolver_base.specs.declared.fault.Fault.TheVariants.{OutOfMemory};

use crate::peers::network::Peer;
use bytes::Bytes;
use futures::channel::{mpsc, oneshot};
use resolver::base::Fault;
use resolver::p2p::mocks::Key;
use resolver::{Consumer, Delivery};
use std::alloc::Global;

/// A block that came, and the peer that had it.
#[derive(Clone, Copy)]
pub struct Block {
    pub height: Key,
    pub from: Peer,
}

/// Finds a block right that says its own height, and tells of it.
#[derive(Drop)]
pub struct Blocks {
    pub alloc: Global,
    pub told: mpsc::UnboundedSender<Block>,
}

impl Consumer for Blocks {
    type Key = Key;

    type Value = Bytes;

    type Subscriber = u16;

    type Outcome = bool;

    fn deliver(
        &mut self,
        delivery: Delivery<Key, u16>,
        value: Bytes,
    ) -> Result<oneshot::Receiver<bool>, Fault>
        ensures only { IfErr result (λ fault. fault ≡ OutOfMemory) }
    {
        let (verdict, outcome) = oneshot::channel(self.alloc)?;
        let block = read(delivery.key, value.as_slice());
        let _ = verdict.send(block.is_some());
        if let Some(block) = block {
            let _ = self.told.unbounded_send(block);
        }
        Ok(outcome)
    }
}

/// The block of this height, if these bytes are it: the height, and the name of the peer that has it.
fn read(height: Key, bytes: &[u8]) -> Option<Block> {
    match bytes {
        [own, peer] if *own == height.0 => Some(Block {
            height,
            from: Peer(*peer),
        }),
        _ => None,
    }
}
