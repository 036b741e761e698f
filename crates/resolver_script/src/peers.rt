//! Scripts that feed the engine, which fetches from peers.

use crate::endings::Fault;
use crate::kept::Kept;
use crate::machine::Turn;
use crate::peer::Peer;
use crate::planning::items_of;
use crate::print;
use crate::script::{Said, Timing, Why, Wish};
use resolver_base::Moment;
use resolver_core::p2p::Core;
use resolver_core::p2p::rows::Row;
use resolver_fetch::fetcher::{Answer, Config};
use resolver_mailbox::mocks::Key;
use resolver_messages::FetchKey;
use resolver_model_peer::inputs::{Event, Happening, Input};
use resolver_types::NonEmptyVec;
use std::alloc::{AllocError, Global};
use std::io::Write;

/// What the engine is told.
type Told = Event<Key, Peer, u16, Kept>;

/// A key that is wanted, of these peers where it has some.
type Wanted = FetchKey<Key, u16, Option<NonEmptyVec<Peer>>>;

/// What the engine takes.
type Taken = Input<Key, Peer, u16, Kept>;

/// The engine that a script opened, of which nothing but its core takes part in a script. Priorities are off.
#[derive(Drop)]
pub struct Peers {
    core: Core<Key, Peer, u16, Kept>,
    alloc: Global,
}

impl Peers {
    /// A new engine.
    pub fn new(alloc: Global, timing: Timing) -> Self {
        let config = Config {
            me: timing.me.map(Peer),
            fetch_timeout: timing.timeout,
            retry_delay: timing.delay,
            peer_limit: timing.limit,
            priority_requests: false,
        };
        Peers {
            core: Core::new(alloc, config, false),
            alloc,
        }
    }

    /// Feeds what happened.
    pub fn happens(&mut self, now: Moment, said: Said) -> Result<Turn, Fault> {
        match event_of(self.alloc, said) {
            Ok(Some(event)) => {
                let now = now.nanoseconds;
                Ok(self.step(Input::Happens(Happening { now, event })))
            }
            Ok(None) => Ok(Turn::Wrong(Why::OtherMachine)),
            Err(fault) => Err(fault),
        }
    }

    /// Feeds what the open scan is answered.
    pub fn answers(&mut self, answer: Answer) -> Turn {
        self.step(Input::Answers(answer))
    }

    fn step(&mut self, input: Taken) -> Turn {
        match self.core.step(input) {
            Ok(effects) => Turn::Peers(effects),
            Err(fault) => Turn::Refused(fault),
        }
    }

    /// The demanded keys, in their order.
    pub fn rows(&self) -> Result<Vec<Row<Key, u16, Peer>>, resolver_base::Fault> {
        self.core.rows()
    }

    /// When a scan may do something, if a key waits.
    pub fn wake_up(&self) -> Option<u128> {
        self.core.get_pending_deadline()
    }

    /// Prints the rows and the wake-up. Of an engine that has failed there is nothing to show.
    pub fn show<W: Write>(&self, output: &mut W) -> Result<(), Fault> {
        match self.core.rows() {
            Ok(rows) => print::rows(output, rows, self.core.get_pending_deadline()),
            Err(resolver_base::Fault::Failed) => print::wake(output, None),
            Err(_) => Err(Fault::Memory),
        }
    }
}

/// What the engine is told, if this happens to it.
fn event_of(alloc: Global, said: Said) -> Result<Option<Told>, Fault> {
    Ok(Some(match said {
        Said::Fetch(wish) => Event::Fetch(items(alloc, wish)?),
        Said::FetchAll(fetches) => Event::Fetch(items_of(alloc, fetches)?),
        Said::Retain(kept) => Event::Retain(kept),
        Said::Verdict { number, outcome } => Event::Verdict { number, outcome },
        Said::Wake => Event::PendingDue,
        Said::Stop => Event::End,
        Said::Fetched { .. } => return Ok(None),
        Said::Timeout => Event::ActiveDue,
        Said::Peers { index, peers } => Event::PeerSet {
            index,
            peers: named(alloc, &peers)?,
        },
        Said::Blocked(peers) => Event::Blocked(named(alloc, &peers)?),
        Said::Net { peer, bytes } => Event::Net {
            peer: Peer(peer),
            bytes,
        },
        Said::Served { serve, value } => Event::Served { serve, value },
    }))
}

/// What a subscriber wants.
fn items(alloc: Global, wish: Wish) -> Result<Vec<Wanted>, Fault> {
    let item = FetchKey {
        key: Key(wish.key),
        subscribers: NonEmptyVec::new(alloc, (wish.subscriber, wish.mark))?,
        metadata: targets(alloc, wish.targets)?,
    };
    let mut items = Vec::new(alloc);
    items.push(item)?;
    Ok(items)
}

/// The peers that a subscriber names, if it names some.
fn targets(
    alloc: Global,
    peers: Option<NonEmptyVec<u8>>,
) -> Result<Option<NonEmptyVec<Peer>>, AllocError> {
    match peers {
        Some(peers) => Ok(NonEmptyVec::try_from(named(alloc, peers.as_slice())?).ok()),
        None => Ok(None),
    }
}

/// Peers by their numbers.
fn named(alloc: Global, numbers: &[u8]) -> Result<Vec<Peer>, AllocError> {
    let mut peers = Vec::new(alloc);
    for number in numbers {
        peers.push(Peer(*number))?;
    }
    Ok(peers)
}
