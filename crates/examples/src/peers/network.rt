//! A network in memory of which is seen who sends.

ghost use Rattle.std.proofs.Common.{rules};

use anyhow::{Result, bail};
use bytes::Bytes;
use futures::channel::mpsc;
use resolver::base::{Check, Faithful, PublicKey, Sender, Unreliable};
use resolver::node::{Inbox, Link, Weather, network};
use std::alloc::Global;
use std::fmt;

/// A name of an engine.
#[derive(Clone, Copy, PartialEq, Eq, PartialOrd, Ord, Hash)]
pub struct Peer(pub u8);

impl PublicKey for Peer {}

impl Faithful for Peer {
    ghost clones = { Prim.search rules };
}

/// What is seen of engine 0: whom it asked, who answered, and whom it blocked.
#[derive(Clone, Copy)]
pub enum Seen {
    Asked(Peer),
    Answered(Peer),
    Blocked(Peer),
}

impl fmt::Display for Seen {
    fn fmt<W: fmt::Write>(&self, f: &mut fmt::Formatter<W>) -> fmt::Result {
        match self {
            Seen::Asked(peer) => write!(f, "asked {}", peer.0),
            Seen::Answered(peer) => write!(f, "{} answered", peer.0),
            Seen::Blocked(peer) => write!(f, "blocked {}", peer.0),
        }
    }
}

/// Where it is told.
pub type Told = mpsc::UnboundedSender<Seen>;

/// An engine's way to the others, which tells what it sends.
#[derive(Drop)]
pub struct Wire {
    pub me: Peer,
    pub link: Link<Peer>,
    pub told: Told,
}

/// What an engine has of the network: its way to the others, and what it receives.
pub type End = (Wire, Inbox<Peer>);

/// A network of three engines, 0 to 2.
pub fn joined(alloc: Global, told: &Told) -> Result<(End, End, End)> {
    let names = Vec::from_slice(alloc, &[Peer(0), Peer(1), Peer(2)])?;
    let mut ends = network(alloc, names, Weather::FAIR)?;
    let third = last(&mut ends, Peer(2), told)?;
    let second = last(&mut ends, Peer(1), told)?;
    let first = last(&mut ends, Peer(0), told)?;
    Ok((first, second, third))
}

/// The last end, which is this engine's.
fn last(ends: &mut Vec<(Link<Peer>, Inbox<Peer>)>, me: Peer, told: &Told) -> Result<End> {
    let Some((link, inbox)) = ends.pop() else {
        bail!("no end is left");
    };
    let told = told.clone()?;
    Ok((Wire { me, link, told }, inbox))
}

impl Sender for Wire {
    type PublicKey = Peer;

    fn check(&mut self, peer: &Peer) -> Check {
        self.link.check(peer)
    }

    fn send(&mut self, peer: &Peer, message: Bytes, priority: bool) -> Unreliable {
        let seen = match self.me {
            Peer(0) => Seen::Asked(*peer),
            other => Seen::Answered(other),
        };
        let _ = self.told.unbounded_send(seen);
        self.link.send(peer, message, priority)
    }
}
