//! Scans of a fetcher with many keys and peers: each key is made to wait; scans are begun while every peer is
//! blocked, and the wake-up is asked for; each scan's first request is taken; and each request is answered, or its time
//! is over.

use crate::fault::Fault;
use crate::fetcher::{
    Node, aim, answer_to, begin, block, expire, know, limit, may_wait, record, respond, scan, wait,
    wakes,
};
use crate::spent::{Driven, Kind, Load, Steps, Times, drive};
use crate::workload::{CONFIG, named, scattered};
use resolver_fetch::fetcher::{Config, Fetcher};
use std::alloc::Global;
use std::rt::Clock;

/// The targets of a key that has some.
const TARGETS: u16 = 4;

/// How many scans go over new peers.
const ANEW: u64 = 16;

/// The steps that one fetcher takes in turn, and those that have a fetcher of their own.
const TURNS: &[&[Steps]] = &[
    &[
        Steps(Kind::Ready, Times::Keys, "ready", "keys"),
        Steps(Kind::Idle, Times::Keys, "scan, all blocked", "questions"),
        Steps(Kind::Wake, Times::Keys, "wake-up", "keys"),
        Steps(Kind::Scan, Times::Keys, "scan", "requests"),
        Steps(Kind::Respond, Times::Keys, "respond", "requests"),
    ],
    &[Steps(Kind::Overdue, Times::Keys, "timeout", "requests")],
    &[Steps(Kind::Round, Times::Keys, "round", "requests")],
    &[Steps(
        Kind::Aimed,
        Times::Keys,
        "scan for a key with targets",
        "requests",
    )],
    &[Steps(Kind::Limit, Times::Peers, "peer in vain", "questions")],
    &[Steps(
        Kind::Anew,
        Times::Just(ANEW),
        "scan of new peers",
        "requests",
    )],
];

/// Takes keys through fetchers that know the peers.
pub fn run(rt: &(impl AllocGlobal + Clock + Print), load: &Load) -> Result<(), Fault> {
    for table in TURNS {
        let config = Config {
            peer_limit: load.limit,
            ..CONFIG
        };
        drive(rt, Fetcher::new(rt.alloc(), config), table, load)?;
    }
    Ok(())
}

/// What a fetcher that knows the peers needs before the steps of a kind: keys wait while every peer is blocked, and
/// then each is asked for; in a round keys wait, and so they do for new peers; keys with targets have a few each; one
/// key is tried with each peer in vain, and where the time of requests is over each key was asked for.
fn prepare(alloc: Global, fetcher: &mut Node, kind: Kind, load: &Load) -> Result<(), Fault> {
    match kind {
        Kind::Ready => block(fetcher, named(alloc, 0, load.peers)?),
        Kind::Aimed => {
            aim_all(alloc, fetcher, load.keys, load.peers)?;
            wait_all(fetcher, load.keys)
        }
        Kind::Limit => {
            wait_all(fetcher, 1)?;
            begin(fetcher)?;
            Ok(())
        }
        Kind::Anew => wait_all(fetcher, ANEW),
        Kind::Overdue => {
            wait_all(fetcher, load.keys)?;
            ask_all(fetcher, load.keys)
        }
        _ => wait_all(fetcher, load.keys),
    }
}

/// Has so many keys wait.
fn wait_all(fetcher: &mut Node, size: u64) -> Result<(), Fault> {
    for i in 0..size {
        wait(fetcher, scattered(i))?;
    }
    Ok(())
}

/// Asks for so many keys that wait.
fn ask_all(fetcher: &mut Node, size: u64) -> Result<(), Fault> {
    for i in 0..size {
        let _asked = scan(fetcher, i)?;
    }
    Ok(())
}

/// Gives so many keys a few targets each.
fn aim_all(alloc: Global, fetcher: &mut Node, size: u64, peers: u16) -> Result<(), Fault> {
    for i in 0..size {
        let first = i % u64::from(peers.max(1));
        aim(fetcher, scattered(i), named(alloc, first as u16, TARGETS)?)?;
    }
    Ok(())
}

impl Driven for Node {
    /// The fetcher knows the peers before its first steps, and none is blocked when it scans.
    fn prepare(&mut self, alloc: Global, kind: Kind, load: &Load) -> Result<(), Fault> {
        match kind {
            Kind::Idle | Kind::Wake | Kind::Respond => Ok(()),
            Kind::Scan => block(self, Vec::new(alloc)),
            _ => {
                know(alloc, self, load.peers)?;
                prepare(alloc, self, kind, load)
            }
        }
    }

    /// It counts a key that waits then, is asked for or answered, or a scan that goes on.
    fn take(&mut self, alloc: Global, kind: Kind, i: u64) -> Result<u64, Fault> {
        Ok(u64::from(take(alloc, self, kind, i)?))
    }
}

/// Takes one step, and says whether a key waits then, is asked for or answered, or a scan goes on.
fn take(alloc: Global, fetcher: &mut Node, kind: Kind, i: u64) -> Result<bool, Fault> {
    match kind {
        Kind::Ready => {
            if !may_wait(fetcher, scattered(i)) {
                return Ok(false);
            }
            wait(fetcher, scattered(i))?;
        }
        Kind::Idle => return begin(fetcher),
        Kind::Wake => return Ok(wakes(fetcher)),
        Kind::Respond => return Ok(answer_to(fetcher, scattered(i))),
        Kind::Overdue => return Ok(expire(fetcher)),
        Kind::Round => return round(fetcher, i),
        Kind::Limit => return limit(fetcher, i),
        Kind::Anew => {
            block(fetcher, Vec::new(alloc))?;
            let _asked = scan(fetcher, i)?;
        }
        _ => {
            let _asked = scan(fetcher, i)?;
        }
    }
    Ok(true)
}

/// Asks for a key and answers its request, and says whether there was one. The peer's score changes.
fn round(fetcher: &mut Node, seed: u64) -> Result<bool, Fault> {
    let (id, peer) = scan(fetcher, seed)?;
    let answered = respond(fetcher, id, peer);
    record(fetcher, peer, id);
    Ok(answered)
}
