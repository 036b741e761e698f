//! A fetcher, call by call.
//!
//! Each call of the fetcher stands in a function by itself, which is not inlined, so that its instructions can
//! be counted by its name.

use crate::fault::{Fault, done};
use crate::workload::{Peer, named, scattered};
use resolver_base::Check;
use resolver_fetch::fetcher::{Answer, Ask, Fetcher};
use resolver_types::NonEmptyVec;
use std::alloc::Global;

/// A fetcher of numbered keys, which asks numbered peers.
pub type Node = Fetcher<u64, Peer>;

/// What a scan asks, if it goes on.
#[derive(Clone, Copy)]
pub enum Asked {
    Nothing,
    /// For a number below this one.
    Draw(u128),
    /// Whether a peer may be sent to.
    Check,
    /// That a request of this id is sent to this peer.
    Request(u64, Peer),
}

/// A second, in nanoseconds.
const SECOND: u128 = 1_000_000_000;

/// Has a fetcher know so many peers, and take in a response of each, so that each has a weight of its own.
pub fn know(alloc: Global, fetcher: &mut Node, peers: u16) -> Result<(), Fault> {
    if fetcher.is_scanning() {
        return Err(Fault::Refused);
    }
    fetcher.reconcile(named(alloc, 0, peers)?)?;
    for peer in 0..peers {
        record(fetcher, Peer(peer), u64::from(peer));
    }
    Ok(())
}

/// Has these peers blocked.
pub fn block(fetcher: &mut Node, peers: Vec<Peer>) -> Result<(), Fault> {
    if fetcher.is_scanning() {
        return Err(Fault::Refused);
    }
    done(fetcher.set_blocked(peers))
}

/// The two look-ups with which `wait` begins, alone, so that they can be told from the rest of it.
#[inline(never)]
pub fn may_wait(fetcher: &Node, key: u64) -> bool {
    !fetcher.is_scanning() && !fetcher.is_waiting(&key) && !fetcher.is_asked(&key)
}

/// Has a key wait that is in no phase. That it is in none takes two look-ups.
#[inline(never)]
pub fn wait(fetcher: &mut Node, key: u64) -> Result<(), Fault> {
    if fetcher.is_scanning() || fetcher.is_waiting(&key) || fetcher.is_asked(&key) {
        return Err(Fault::Refused);
    }
    done(fetcher.add_ready(key, 0))
}

/// Limits the peers of a key to these.
pub fn aim(fetcher: &mut Node, key: u64, targets: Vec<Peer>) -> Result<(), Fault> {
    let Ok(targets) = NonEmptyVec::try_from(targets) else {
        return Err(Fault::Refused);
    };
    if fetcher.is_scanning() {
        return Err(Fault::Refused);
    }
    done(fetcher.add_targets(key, targets))
}

/// Whether a key waits, of which the wake-up tells.
#[inline(never)]
pub fn wakes(fetcher: &Node) -> bool {
    fetcher.get_pending_deadline().is_some()
}

/// Begins a scan. It says whether the scan asks something.
#[inline(never)]
pub fn begin(fetcher: &mut Node) -> Result<bool, Fault> {
    if fetcher.is_scanning() {
        return Err(Fault::Refused);
    }
    Ok(is_open(question(fetcher.scan_begin(0))?))
}

/// What is asked.
fn question(
    answered: Result<Option<Ask<u64, Peer>>, resolver_base::Fault>,
) -> Result<Asked, Fault> {
    match answered {
        Ok(None) => Ok(Asked::Nothing),
        Ok(Some(Ask::Draw(bound))) => Ok(Asked::Draw(bound)),
        Ok(Some(Ask::Check(_))) => Ok(Asked::Check),
        Ok(Some(Ask::Request { peer, id, .. })) => Ok(Asked::Request(id, peer)),
        Err(_) => Err(Fault::Refused),
    }
}

/// Whether a scan goes on.
fn is_open(asked: Asked) -> bool {
    !matches!(asked, Asked::Nothing)
}

/// Answers what a scan asks.
fn answer(fetcher: &mut Node, answer: Answer) -> Result<Asked, Fault> {
    question(fetcher.scan_answer(answer))
}

/// Has the peer drawn by weight. It answers the bound of the next draw.
#[inline(never)]
fn draw_mode(fetcher: &mut Node) -> Result<u128, Fault> {
    match answer(fetcher, Answer::Drawn(3)) {
        Ok(Asked::Draw(bound)) => Ok(bound),
        _ => Err(Fault::Refused),
    }
}

/// Draws the peer.
#[inline(never)]
fn draw_peer(fetcher: &mut Node, number: u128) -> Result<Asked, Fault> {
    answer(fetcher, Answer::Drawn(number))
}

/// The peer may be sent to, and the first id is 0. It answers the id of the request, and its peer.
#[inline(never)]
fn allow(fetcher: &mut Node) -> Result<(u64, Peer), Fault> {
    let mut asked = answer(fetcher, Answer::Checked(Check::Clear));
    if let Ok(Asked::Draw(_)) = asked {
        asked = answer(fetcher, Answer::Drawn(0));
    }
    match asked {
        Ok(Asked::Request(id, peer)) => Ok((id, peer)),
        _ => Err(Fault::Refused),
    }
}

/// The peer may not be sent to. It says whether the scan asks something more.
#[inline(never)]
fn forbid(fetcher: &mut Node) -> Result<Asked, Fault> {
    answer(fetcher, Answer::Checked(Check::Until(1)))
}

/// The request is on its way.
#[inline(never)]
fn send(fetcher: &mut Node) -> Result<Asked, Fault> {
    answer(fetcher, Answer::Sent(true))
}

/// Takes in a response of a peer.
#[inline(never)]
pub fn record(fetcher: &mut Node, peer: Peer, seed: u64) {
    if !fetcher.is_scanning() {
        fetcher.record_response(&peer, SECOND, scattered(seed) >> 40);
    }
}

/// Takes out the request that a response answers, and says whether there was one.
#[inline(never)]
pub fn respond(fetcher: &mut Node, id: u64, peer: Peer) -> bool {
    !fetcher.is_scanning() && fetcher.pop_response(id, &peer, 0).is_some()
}

/// Takes out a request whose time is over, and says whether there was one. The peer is charged.
#[inline(never)]
pub fn expire(fetcher: &mut Node) -> bool {
    !fetcher.is_scanning() && fetcher.pop_active(1).is_some()
}

/// Answers the request for a key, and says whether there is one.
pub fn answer_to(fetcher: &mut Node, key: u64) -> bool {
    let Some((id, request)) = fetcher.request(&key) else {
        return false;
    };
    let peer = request.peer;
    respond(fetcher, id, peer)
}

/// A scan, up to its first request, which is taken. The peer is drawn by weight. It answers the id of the
/// request, and its peer.
#[inline(never)]
pub fn scan(fetcher: &mut Node, seed: u64) -> Result<(u64, Peer), Fault> {
    begin(fetcher)?;
    draw(fetcher, seed)?;
    let request = allow(fetcher)?;
    send(fetcher)?;
    Ok(request)
}

/// An open scan tries a peer in vain. It says whether the scan goes on.
#[inline(never)]
pub fn limit(fetcher: &mut Node, seed: u64) -> Result<bool, Fault> {
    draw(fetcher, seed)?;
    Ok(is_open(forbid(fetcher)?))
}

/// Draws a peer by weight.
fn draw(fetcher: &mut Node, seed: u64) -> Result<Asked, Fault> {
    match draw_mode(fetcher)? {
        0 => Err(Fault::Refused),
        total => draw_peer(fetcher, u128::from(scattered(seed)) % total),
    }
}
