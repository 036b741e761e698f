//! The network between the nodes.

use crate::settings::{Kind, Settings, nanos};
use resolver_base::{Draws, Moment, Seeded};
use std::alloc::{AllocError, Global};

/// What is between two nodes: messages take their time, queue behind one another at the sender, and get lost.
#[derive(Drop)]
pub struct Network {
    settings: Settings,
    draws: Seeded,
    /// From when on each node's line is free, in nanoseconds.
    free: Vec<u128>,
    /// Which nodes are there.
    present: Vec<bool>,
    /// How many messages were lost.
    pub lost: u64,
}

/// By how much a slow node is slower.
const SLOWER: u128 = 10;

impl Network {
    /// A network of nodes that are all there.
    pub fn new(alloc: Global, settings: Settings) -> Result<Network, AllocError> {
        let mut network = Network {
            settings,
            draws: Seeded::new(settings.seed),
            free: Vec::new(alloc),
            present: Vec::new(alloc),
            lost: 0,
        };
        for _ in 0..settings.nodes {
            network.free.push(0)?;
            network.present.push(true)?;
        }
        Ok(network)
    }

    /// Whether a node is there.
    pub fn is_present(&self, name: u16) -> bool {
        self.present
            .get(usize::from(name))
            .copied()
            .unwrap_or(false)
    }

    /// A node comes or leaves.
    pub fn set_present(&mut self, name: u16, is_present: bool) {
        if let Some(present) = self.present.get_mut(usize::from(name)) {
            *present = is_present;
        }
    }

    /// One of the nodes, as is drawn.
    pub fn pick(&mut self) -> u16 {
        let drawn = self.draws.below(u128::from(self.settings.nodes).max(1));
        u16::try_from(drawn).unwrap_or(0)
    }

    /// By how much a node is slower than others.
    fn slowness(&self, name: u16) -> u128 {
        match self.settings.kind(name) {
            Kind::Slow => SLOWER,
            _ => 1,
        }
    }

    /// When a node's line has sent so many bytes that are put on it now, in nanoseconds.
    fn sent(&mut self, now: u128, from: u16, length: usize) -> u128 {
        let bandwidth = u128::from(self.settings.bandwidth);
        if bandwidth == 0 {
            return now;
        }
        let takes = (length as u128).saturating_mul(1_000_000_000) / bandwidth;
        let takes = takes.saturating_mul(self.slowness(from));
        match self.free.get_mut(usize::from(from)) {
            Some(free) => {
                *free = now.max(*free).saturating_add(takes);
                *free
            }
            None => now,
        }
    }

    /// When a message of so many bytes that is sent now arrives, unless it is lost.
    pub fn send(&mut self, now: Moment, from: u16, length: usize) -> Option<Moment> {
        let sent = self.sent(now.nanoseconds, from, length);
        let latency = nanos(self.settings.latency).saturating_mul(self.slowness(from));
        let jitter = self.draws.below(nanos(self.settings.jitter) + 1);
        let is_lost = self.draws.below(1000) < u128::from(self.settings.loss);
        if is_lost {
            self.lost = self.lost.saturating_add(1);
            return None;
        }
        Moment::from_nanos(sent.saturating_add(latency).saturating_add(jitter))
    }
}
