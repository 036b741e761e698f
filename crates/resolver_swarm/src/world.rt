//! What is around the nodes, and what will happen to them.

use crate::agenda::Agenda;
use crate::counts::Counts;
use crate::height::Height;
use crate::network::Network;
use crate::settings::Settings;
use crate::shelf::Shelf;
use bytes::Bytes;
use resolver_backfill::Without;
use resolver_base::{Fault, Moment};
use resolver_core::p2p::inputs::Event;
use std::alloc::{AllocError, Global};

/// What happens to a node. Nodes are numbers, and each has one subscriber, 0.
pub type Happens = Event<Height, u16, u16, Without<Height, u16>>;

/// What will happen.
#[derive(Drop)]
pub enum Coming {
    /// This happens to a node.
    Event { node: u16, event: Happens },
    /// A message arrives, where both nodes are there.
    Message { from: u16, to: u16, bytes: Bytes },
    /// A node has waited until now.
    Wake { node: u16 },
    /// One of the nodes leaves.
    Leaving,
    /// A node comes back.
    Return { node: u16 },
}

/// What is around the nodes.
#[derive(Drop)]
pub struct World {
    pub alloc: Global,
    pub settings: Settings,
    pub now: Moment,
    pub agenda: Agenda<Coming>,
    pub network: Network,
    pub shelf: Shelf,
    pub counts: Counts,
}

impl World {
    /// A world in which nothing has happened.
    pub fn new(alloc: Global, settings: Settings) -> Result<World, Fault> {
        Ok(World {
            alloc,
            settings,
            now: Moment { nanoseconds: 0 },
            agenda: Agenda::new(alloc),
            network: Network::new(alloc, settings)?,
            shelf: Shelf::new(alloc, settings.keys, settings.value)?,
            counts: Counts::new(alloc),
        })
    }

    /// The moment that comes so many nanoseconds later.
    pub fn later(&self, nanoseconds: u128) -> Moment {
        let later = self.now.nanoseconds.saturating_add(nanoseconds);
        Moment::from_nanos(later).unwrap_or(self.now)
    }

    /// This happens to a node at this moment, after all that will happen at it already.
    pub fn soon(&mut self, node: u16, event: Happens) -> Result<(), AllocError> {
        self.agenda
            .put_soon(self.now, Coming::Event { node, event })
    }

    /// A node sends another one a message.
    pub fn send(&mut self, from: u16, to: u16, bytes: Bytes) -> Result<(), AllocError> {
        if let Some(at) = self.network.send(self.now, from, bytes.len()) {
            self.agenda.put(at, Coming::Message { from, to, bytes })?;
        }
        Ok(())
    }
}
