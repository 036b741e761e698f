//! A network between the nodes of one process, which loses and reorders messages by a seed.

ghost use Rattle.std.specs.Prelude.{◌≡◌, IfErr};
ghost use Rattle.resolver_base.specs.declared.fault.Fault.TheVariants.{OutOfMemory};

use crate::inbox::Inbox;
use bytes::Bytes;
use futures::channel::mpsc;
use futures::channel::mpsc::UnboundedSender;
use resolver_base::{Check, Draws, Fault, Feedback, PublicKey, Seeded, Sender, Unreliable};
use std::alloc::{AllocError, Global};
use std::collections::BTreeMap;

/// How a network treats the messages of a node.
#[derive(Clone, Copy, Debug, PartialEq, Eq)]
pub struct Weather {
    /// Of 1,000 messages so many are lost.
    pub lost: u16,
    /// Of 1,000 messages so many are held back until another one is sent to the same node.
    pub held: u16,
    /// Which these are follows from the seed.
    pub seed: u64,
}

impl Weather {
    /// Every message arrives, in the order in which they are sent.
    pub const FAIR: Weather = Weather {
        lost: 0,
        held: 0,
        seed: 0,
    };
}

/// Where messages to a node are put.
type Post<P> = UnboundedSender<(P, Bytes)>;

/// The way to one node, with a message that is held back.
#[derive(Drop)]
struct Way<P> {
    post: Post<P>,
    held: Option<Bytes>,
}

/// A node's way to the others.
#[derive(Drop)]
pub struct Link<P: Ord> {
    me: P,
    ways: BTreeMap<P, Way<P>>,
    weather: Weather,
    draws: Seeded,
}

/// What a node has of a network: its way to the others, and what it receives.
pub type End<P> = (Link<P>, Inbox<P>);

/// A network of these nodes, with an end for each, in their order. Of equal names the first has what
/// is sent to them. It takes memory for each pair of nodes.
pub fn network<P: PublicKey + Drop>(
    alloc: Global,
    names: Vec<P>,
    weather: Weather,
) -> Result<Vec<End<P>>, Fault>
    ensures only { IfErr result (λ fault. fault ≡ OutOfMemory) }
{
    let mut posts = Vec::with_capacity(alloc, names.len())?;
    let mut inboxes = Vec::with_capacity(alloc, names.len())?;
    for name in names {
        let (post, messages) = mpsc::unbounded(alloc)?;
        posts.push((name, post))?;
        inboxes.push(Inbox::new(messages))?;
    }
    let mut ends = Vec::with_capacity(alloc, posts.len())?;
    for inbox in inboxes {
        let seed = weather.seed.wrapping_add(ends.len() as u64);
        let Some((name, _)) = posts.get(ends.len()) else {
            break;
        };
        let link = Link {
            me: name.clone()?,
            ways: ways(alloc, posts.as_slice())?,
            weather,
            draws: Seeded::new(seed),
        };
        ends.push((link, inbox))?;
    }
    Ok(ends)
}

/// The ways to all nodes.
fn ways<P: PublicKey + Drop>(
    alloc: Global,
    posts: &[(P, Post<P>)],
) -> Result<BTreeMap<P, Way<P>>, AllocError> {
    let mut ways = BTreeMap::new(alloc);
    for (name, post) in posts {
        if !ways.contains_key(name) {
            let way = Way {
                post: post.clone()?,
                held: None,
            };
            ways.insert(name.clone()?, way)?;
        }
    }
    Ok(ways)
}

impl<P: PublicKey + Drop> Link<P> {
    /// Whether this is one of so many of 1,000.
    fn happens(&mut self, of_a_thousand: u16) -> bool {
        self.draws.below(1_000) < u128::from(of_a_thousand)
    }

    /// Puts a message on its way, and then the one that was held back for it.
    fn put(&mut self, peer: &P, message: Bytes) -> Result<(), AllocError> {
        let Some(way) = self.ways.get_mut(peer) else {
            return Ok(());
        };
        let held = way.held.take();
        let _ = way.post.unbounded_send((self.me.clone()?, message));
        if let Some(held) = held {
            let _ = way.post.unbounded_send((self.me.clone()?, held));
        }
        Ok(())
    }

    /// Holds a message back, unless one is held back already: then both are sent.
    fn hold(&mut self, peer: &P, message: Bytes) -> Result<(), AllocError> {
        match self.ways.get_mut(peer) {
            Some(way) if way.held.is_none() => {
                way.held = Some(message);
                Ok(())
            }
            _ => self.put(peer, message),
        }
    }
}

impl<P: PublicKey + Drop> Sender for Link<P> {
    type PublicKey = P;

    /// Every node may be sent to at any time.
    fn check(&mut self, _: &P) -> Check {
        Check::Clear
    }

    /// Every message is accepted, also one that is lost, or that is for nobody; but where memory is
    /// refused.
    fn send(&mut self, peer: &P, message: Bytes, _: bool) -> Unreliable {
        let is_lost = self.happens(self.weather.lost);
        let is_held = self.happens(self.weather.held);
        if is_lost {
            return Unreliable::Outcome(Feedback::Ok);
        }
        let put = if is_held {
            self.hold(peer, message)
        } else {
            self.put(peer, message)
        };
        match put {
            Ok(()) => Unreliable::Outcome(Feedback::Ok),
            Err(_) => Unreliable::Rejected,
        }
    }
}
