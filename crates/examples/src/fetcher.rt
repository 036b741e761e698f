//! Twenty keys are asked of four peers, over a network in memory and with draws from a seed. The fetcher
//! itself is peer 0, and the network refuses peer 3. It prints how many requests each peer got, and what
//! becomes of the keys.

mod network;

use anyhow::{Result, bail};
use network::{Network, Peer};
use resolver::base::Seeded;
use resolver::p2p::fetcher::{Config, Fetcher};
use resolver::p2p::mocks::Key;
use std::alloc::Global;

type Asker = Fetcher<Key, Peer>;

/// How many keys wait, are asked and were not answered in time, and how many requests each peer got.
#[derive(Drop)]
struct Told {
    waiting: usize,
    asked: usize,
    overdue: u32,
    taken: [u64; 4],
}

/// Asks for the keys, and prints what became of them.
pub fn run(rt: &(impl AllocGlobal + Print)) -> Result<()> {
    let told = shown(rt.alloc())?;
    let [_, first, second, third] = told.taken;
    println!(rt; "{} wait, {} asked", told.waiting, told.asked)?;
    println!(rt;
        "requests: {} in all, {third} of peer 3",
        first.saturating_add(second)
    )?;
    println!(rt; "{} were not answered in time", told.overdue)?;
    Ok(())
}

/// Wants twenty keys, asks for them, and waits until the time of each request is over.
fn shown(alloc: Global) -> Result<Told> {
    let peers = peers(alloc)?;
    let mut fetcher = opened(alloc);
    work(&mut fetcher, peers)
}

/// The peers 0 to 3.
fn peers(alloc: Global) -> Result<Vec<Peer>> {
    let mut peers = Vec::new(alloc);
    for name in 0..4 {
        peers.push(Peer(name))?;
    }
    Ok(peers)
}

/// Does what the program shows.
fn work(fetcher: &mut Asker, peers: Vec<Peer>) -> Result<Told> {
    if fetcher.is_scanning() {
        bail!("a scan is open");
    }
    fetcher.reconcile(peers)?;
    want_all(fetcher, 20)?;
    let mut network = Network::new();
    ask_all(fetcher, &mut network, 20)?;
    Ok(Told {
        waiting: fetcher.len_pending(),
        asked: fetcher.len_active(),
        overdue: time_out_all(fetcher, 20)?,
        taken: network.taken,
    })
}

/// A fetcher that is called 0. A request has 1,000 nanoseconds, and a key that is asked for again waits 100.
fn opened(alloc: Global) -> Asker {
    let config = Config {
        me: Some(Peer(0)),
        fetch_timeout: 1_000,
        retry_delay: 100,
        peer_limit: None,
        priority_requests: false,
    };
    Fetcher::new(alloc, config)
}

/// Has the keys from 0 on wait. A key may be made to wait where it is in no phase and no scan is open.
fn want_all(fetcher: &mut Asker, count: u8) -> Result<()> {
    for name in 0..count {
        let key = Key(name);
        if fetcher.is_scanning() || fetcher.is_waiting(&key) || fetcher.is_asked(&key) {
            bail!("{key} is in a phase");
        }
        fetcher.add_ready(key, 0)?;
    }
    Ok(())
}

/// Asks for so many keys, each by a scan of its own. A scan may be begun where none is open.
fn ask_all(fetcher: &mut Asker, network: &mut Network, count: u8) -> Result<()> {
    let mut draws = Seeded::new(7);
    for now in 0..count {
        if fetcher.is_scanning() {
            bail!("a scan is open");
        }
        fetcher.fetch(network, &mut draws, u128::from(now))?;
    }
    Ok(())
}

/// Counts the requests whose time is over once the last one's is, and has each key wait again.
fn time_out_all(fetcher: &mut Asker, count: u8) -> Result<u32> {
    let mut overdue = 0_u32;
    for _ in 0..count {
        if fetcher.is_scanning() {
            bail!("a scan is open");
        }
        if let Some(key) = fetcher.pop_active(1_000 + u128::from(count)) {
            fetcher.add_retry(key, 1_000 + u128::from(count))?;
            overdue = overdue.saturating_add(1);
        }
    }
    Ok(overdue)
}
