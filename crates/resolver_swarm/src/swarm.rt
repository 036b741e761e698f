//! A run of many nodes.

ghost use Rattle.std.specs.Prelude.{◌≡◌, ◌↔◌, IfSome, None};
ghost use Rattle.resolver_swarm.specs.Having.{AreShared, IsBehind, IsLacking, IsShared};
ghost use Rattle.resolver_swarm.specs.Height.{number_of};
ghost use Rattle.resolver_swarm.specs.Judging.{ComplainsUnless};

use crate::height::Height;
use crate::judging::complaint::Complaint;
use crate::nodes::node::Node;
use crate::report::{Progress, Report};
use crate::settings::{Kind, MS, Settings, nanos};
use crate::world::{Coming, Happens, World};
use resolver_base::{Fault, Moment};
use resolver_core::p2p::inputs::Event;
use std::alloc::{AllocError, Global};

/// Many nodes over one network.
#[derive(Drop)]
pub struct Swarm {
    world: World,
    nodes: Vec<Node>,
    /// The index of the last peer set.
    index: u64,
    /// How many fellows there are, and how many have all keys.
    fellows: u64,
    synced: u64,
    /// How many tenths of all keys were told of.
    tenths: u64,
    /// The node that a complaint is of, if one is.
    broken: Option<(u16, Complaint)>,
    is_over: bool,
}

impl Swarm {
    /// The nodes of these settings, each of which knows all others from the beginning.
    pub fn new(alloc: Global, settings: Settings) -> Result<Swarm, Fault> {
        let mut swarm = Swarm {
            world: World::new(alloc, settings)?,
            nodes: Vec::new(alloc),
            index: 0,
            fellows: 0,
            synced: 0,
            tenths: 0,
            broken: None,
            is_over: false,
        };
        for name in 0..settings.nodes {
            let node = Node::new(alloc, name, &settings)?;
            swarm.fellows = swarm
                .fellows
                .saturating_add(u64::from(node.kind == Kind::Fellow));
            swarm.nodes.push(node)?;
        }
        swarm.announce()?;
        swarm.put_leaving()?;
        Ok(swarm)
    }

    /// Which node is wrong, and what is wrong with it, if one is.
    pub fn broken(&self) -> Option<(u16, Complaint)> {
        self.broken
    }

    /// The script of the node that is recorded, if one is.
    pub fn script(&self) -> Option<&str> {
        self.nodes
            .iter()
            .find_map(|node| node.script.as_ref())
            .map(|script| script.as_str())
    }

    /// Tells all nodes who is there.
    fn announce(&mut self) -> Result<(), Fault> {
        let present = self.present()?;
        for node in 0..self.world.settings.nodes {
            let (index, peers) = (self.index, present.clone()?);
            self.world.soon(node, Event::PeerSet { index, peers })?;
        }
        self.index = self.index.saturating_add(1);
        Ok(())
    }

    /// The nodes that are there.
    fn present(&self) -> Result<Vec<u16>, AllocError> {
        let names = 0..self.world.settings.nodes;
        names
            .filter(|name| self.world.network.is_present(*name))
            .collect(self.world.alloc)
    }

    /// A node will leave, where nodes come and go.
    fn put_leaving(&mut self) -> Result<(), AllocError> {
        let churn = self.world.settings.churn;
        if churn == 0 {
            return Ok(());
        }
        let at = self.world.later(nanos(churn));
        self.world.agenda.put(at, Coming::Leaving)
    }

    /// One of the nodes leaves, and will come back.
    fn leave(&mut self) -> Result<(), Fault> {
        let node = self.world.network.pick();
        if self.world.network.is_present(node) {
            self.world.network.set_present(node, false);
            let at = self.world.later(nanos(self.world.settings.churn));
            self.world.agenda.put(at, Coming::Return { node })?;
            self.announce()?;
        }
        self.put_leaving()?;
        Ok(())
    }

    /// This happens to a node.
    fn feed(&mut self, node: u16, event: Option<Happens>) -> Result<(), Fault> {
        let Some(node) = self.nodes.get_mut(usize::from(node)) else {
            return Ok(());
        };
        let was_synced = node.synced.is_some();
        match event {
            Some(event) => node.take(&mut self.world, event)?,
            None => node.wake(&mut self.world)?,
        }
        if node.synced.is_some() && !was_synced {
            self.synced = self.synced.saturating_add(1);
        }
        if let Some(complaint) = node.judge.complaint {
            self.broken = Some((node.name, complaint));
        }
        Ok(())
    }

    /// What was to come happens.
    fn happen(&mut self, coming: Coming) -> Result<(), Fault> {
        match coming {
            Coming::Event { node, event } => self.feed(node, Some(event)),
            Coming::Wake { node } => self.feed(node, None),
            Coming::Message { from, to, bytes } => {
                let network = &self.world.network;
                if network.is_present(from) && network.is_present(to) {
                    let peer = from;
                    self.feed(to, Some(Event::Net { peer, bytes }))?;
                }
                Ok(())
            }
            Coming::Leaving => self.leave(),
            Coming::Return { node } => {
                self.world.network.set_present(node, true);
                self.announce()
            }
        }
    }

    /// Lets time go on to what comes next, which happens. The run is over once all fellows have all keys, one is
    /// wrong, or nothing more comes before its end.
    fn turn(&mut self) -> Result<(), Fault> {
        if self.broken.is_some() || self.synced == self.fellows {
            return self.end();
        }
        let end = nanos(self.world.settings.until);
        match self.world.agenda.take() {
            Some((at, coming)) if at.nanoseconds <= end => {
                self.world.now = self.world.now.max(at);
                self.happen(coming)
            }
            Some(_) => self.end(),
            None => {
                self.judge_end();
                self.end()
            }
        }
    }

    /// The run is over. Whole rows are compared once more.
    fn end(&mut self) -> Result<(), Fault> {
        self.is_over = true;
        for node in self.nodes.iter_mut() {
            node.compare_rows()?;
            let complaint = node.judge.complaint.map(|complaint| (node.name, complaint));
            self.broken = self.broken.or(complaint);
        }
        Ok(())
    }

    /// Nothing more happens: a fellow is wrong that lacks a key which some node has. No liar has one.
    fn judge_end(&mut self)
        ensures judged { ComplainsUnless self.old.broken self.new.broken
            (AreShared self.old.nodes.items self.old.world.settings.keys) }
        ensures named { self.old.broken ≡ None → IfSome self.new.broken
            (λ found. IsBehind self.old.nodes.items self.old.world.settings.keys found.0) }
        ensures found { self.new ≡ record self.old { broken = self.new.broken } }
    {
        if let Some(name) = self.find_lacking() {
            self.broken = self.broken.or(Some((name, Complaint::Lacking)));
        }
    }

    /// A fellow that lacks a key which some node has: of the first such key the first.
    fn find_lacking(&self) -> Option<u16>
        ensures shared { (result ≡ None)
            ↔ AreShared self.now.nodes.items self.now.world.settings.keys }
        ensures behind { IfSome result
            (IsBehind self.now.nodes.items self.now.world.settings.keys) }
    {
        for number in 0..self.world.settings.keys {
            if let Some(name) = self.find_without(Height::of(number)) {
                return Some(name);
            }
        }
        None
    }

    /// The first fellow that lacks this key, if some node has it.
    fn find_without(&self, key: Height) -> Option<u16>
        ensures shared { (result ≡ None) ↔ IsShared self.now.nodes.items (number_of key) }
        ensures lacking { IfSome result (IsLacking self.now.nodes.items (number_of key)) }
    {
        if !self.nodes.iter().any(|node| node.has(key)) {
            return None;
        }
        let lacking = self.nodes.iter().find(|node| node.lacks(key))?;
        Some(lacking.name)
    }

    /// Goes on until another tenth of all keys was found right, and says how far the run is; or to its end.
    pub fn advance(&mut self) -> Result<Option<Progress>, Fault> {
        for _ in 0..u64::MAX {
            if self.is_over {
                break;
            }
            self.turn()?;
            if self.has_next_tenth() {
                return Ok(Some(self.progress()));
            }
        }
        Ok(None)
    }

    /// How many keys all fellows are to have.
    fn wanted(&self) -> u64 {
        self.fellows
            .saturating_mul(u64::from(self.world.settings.keys))
    }

    /// Whether another tenth of all keys was found right.
    fn has_next_tenth(&mut self) -> bool {
        let held = self.world.counts.held.saturating_mul(10);
        let tenths = held / self.wanted().max(1);
        let is_next = tenths > self.tenths;
        self.tenths = tenths;
        is_next
    }

    /// How far the run is.
    pub fn progress(&self) -> Progress {
        let open = self.nodes.iter().map(|node| node.judge.open_requests());
        Progress {
            milliseconds: self.world.now.nanoseconds / MS,
            held: self.world.counts.held,
            wanted: self.wanted(),
            open: open.fold(0, |sum: usize, count| sum.saturating_add(count)),
            blocked: self.world.counts.blockings.len(),
        }
    }

    /// How the run went.
    pub fn report(&self) -> Result<Report, AllocError> {
        let mut synced: Vec<Moment> = self
            .nodes
            .iter()
            .filter_map(|node| node.synced)
            .collect(self.world.alloc)?;
        synced.sort_unstable();
        Report::new(&self.world, synced, self.fellows)
    }
}
