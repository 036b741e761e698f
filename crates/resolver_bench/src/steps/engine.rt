//! Events of the engine's core.
//!
//! On the short way each key is fetched, asked for in the same step, answered and judged complete. On the other one
//! all keys wait first, and are tried again twice.

use crate::fault::Fault;
use crate::spent::{Driven, Kind, Load, Steps, Times, drive};
use crate::workload::{All, CONFIG, Peer, fetch as items_of, listed, named, scattered};
use bytes::Bytes;
use resolver::p2p::Core;
use resolver::p2p::effects::Effect;
use resolver::p2p::inputs::{Event, Happening, Input};
use resolver_base::Check;
use resolver_fetch::fetcher::{Answer, Ask};
use resolver_types::{NonEmptyVec, Outcome, Resolution};
use std::alloc::Global;
use std::rt::Clock;
use tests_support::wide::Name;

/// The subscribers of each key.
const SUBSCRIBERS: u16 = 4;

/// How often an event is taken that goes over all keys or peers.
const FEW: u64 = 4;

/// More than a scan asks before its first request is taken.
const ASKS: u64 = 8;

/// How many keys are fetched that have targets.
const AIMED: u64 = 64;

/// The targets of such a key.
const TARGETS: u16 = 4;

/// The short way of each key.
const WAY: &[Steps] = &[
    Steps(Kind::Request, Times::Keys, "fetch and ask", "effects"),
    Steps(Kind::Answer, Times::Keys, "answer", "effects"),
    Steps(Kind::Complete, Times::Keys, "complete", "effects"),
];

/// Keys that wait first, and are tried again twice.
const AGAIN: &[Steps] = &[
    Steps(Kind::Wait, Times::Keys, "wait", "effects"),
    Steps(Kind::Ask, Times::Keys, "ask", "effects"),
    Steps(Kind::Aimed, Times::Just(AIMED), "targets", "effects"),
    Steps(Kind::Stale, Times::Just(FEW), "old peers", "effects"),
    Steps(Kind::Absent, Times::Just(FEW), "retain", "effects"),
    Steps(Kind::Block, Times::Just(FEW), "block", "effects"),
    Steps(Kind::Answer, Times::Keys, "answer", "effects"),
    Steps(Kind::Unresolved, Times::Keys, "unresolved", "effects"),
    Steps(Kind::Ask, Times::Keys, "ask again", "effects"),
    Steps(Kind::Overdue, Times::Keys, "timeout", "effects"),
    Steps(Kind::Ask, Times::Keys, "ask a third time", "effects"),
    Steps(Kind::Answer, Times::Keys, "answer", "effects"),
    Steps(Kind::Complete, Times::Keys, "complete", "effects"),
];

type Engine = Core<Name, Peer, u16, All>;

type Happened = Event<Name, Peer, u16, All>;

type Told = Vec<Effect<Name, Peer, u16>>;

/// What a scan asks, if it goes on.
#[derive(Clone, Copy)]
enum Asked {
    Nothing,
    /// A number below this one.
    Draw(u128),
    /// Whether a peer may be sent to.
    Check,
    /// That a request of this id is sent to this peer.
    Request(u64, Peer),
}

/// A core, what it was told to send last, the moment, and the number of the next delivery to be judged.
#[derive(Drop)]
struct Driver {
    engine: Engine,
    requests: Vec<(u64, Peer)>,
    now: u32,
    judged: u64,
}

/// Takes each key the short way.
pub fn run_way(rt: &(impl AllocGlobal + Clock + Print), load: &Load) -> Result<(), Fault> {
    run(rt, WAY, load)
}

/// Has each key wait first, and be tried again twice.
pub fn run_again(rt: &(impl AllocGlobal + Clock + Print), load: &Load) -> Result<(), Fault> {
    run(rt, AGAIN, load)
}

/// Takes keys through a core that knows the peers.
fn run(rt: &(impl AllocGlobal + Clock + Print), table: &[Steps], load: &Load) -> Result<(), Fault> {
    let driver = Driver {
        engine: Core::new(rt.alloc(), CONFIG, false),
        requests: Vec::new(rt.alloc()),
        now: 0,
        judged: 0,
    };
    drive(rt, driver, table, load)
}

/// Keys that don't come in their order, each once.
fn name(i: u64) -> Name {
    Name::numbered((scattered(i) % (1 << 32)) as u32)
}

impl Driven for Driver {
    /// The engine knows all peers, and all are blocked while keys wait that nobody is asked for. Each time that keys
    /// are asked for, or that requests are over, is later than the last.
    fn prepare(&mut self, alloc: Global, kind: Kind, load: &Load) -> Result<(), Fault> {
        let (engine, now) = (&mut self.engine, self.now);
        match kind {
            Kind::Request => {
                know(engine, now, named(alloc, 0, load.peers)?)?;
            }
            Kind::Wait => {
                know(engine, now, named(alloc, 0, load.peers)?)?;
                block_all(engine, now, named(alloc, 0, load.peers)?)?;
            }
            Kind::Ask => {
                self.requests.clear();
                self.now = now.saturating_add(2);
                let told = unblock(&mut self.engine, self.now, Vec::new(alloc))?;
                self.answer_scan(told, 0)?;
            }
            Kind::Overdue => self.now = now.saturating_add(2),
            _ => {}
        }
        Ok(())
    }

    /// It counts the effects.
    fn take(&mut self, alloc: Global, kind: Kind, i: u64) -> Result<u64, Fault> {
        let (engine, now) = (&mut self.engine, self.now);
        let told = match kind {
            Kind::Request if i == 0 => fetch_anew(engine, now, fetched(alloc, i)?)?,
            Kind::Request => fetch(engine, now, fetched(alloc, i)?)?,
            Kind::Wait => wait(engine, now, fetched(alloc, i)?)?,
            Kind::Aimed => fetch_of_few(engine, now, aimed(alloc, i)?)?,
            Kind::Ask => begin(engine, now)?,
            Kind::Answer => answer(engine, now, answered(alloc, &self.requests, i)?)?,
            Kind::Complete => complete(engine, now, judged(&mut self.judged))?,
            Kind::Unresolved => unresolved(engine, now, judged(&mut self.judged))?,
            Kind::Overdue => time_out(engine, now)?,
            Kind::Stale => old_peers(engine, now, named(alloc, 0, 1)?)?,
            Kind::Block => block(engine, now, named(alloc, (i % FEW) as u16, 1)?)?,
            _ => retain(engine, now)?,
        };
        self.answer_scan(told, i)
    }
}

impl Driver {
    /// Answers what a scan asks until it is over. It counts the effects.
    fn answer_scan(&mut self, told: Told, seed: u64) -> Result<u64, Fault> {
        let mut counted = told.len() as u64;
        let mut asked = asked_by(told);
        for _ in 0..ASKS {
            let told = match asked {
                Asked::Nothing => return Ok(counted),
                Asked::Draw(bound) => draw(&mut self.engine, number_below(bound, seed))?,
                Asked::Check => check(&mut self.engine)?,
                Asked::Request(id, peer) => {
                    self.requests.push((id, peer))?;
                    send(&mut self.engine)?
                }
            };
            counted = counted.saturating_add(told.len() as u64);
            asked = asked_by(told);
        }
        Ok(counted)
    }
}

/// What is asked behind the other effects.
fn asked_by(told: Told) -> Asked {
    let asked = match told.last() {
        Some(Effect::Ask(Ask::Draw(bound))) => Asked::Draw(*bound),
        Some(Effect::Ask(Ask::Check(_))) => Asked::Check,
        Some(Effect::Ask(Ask::Request { id, peer, .. })) => Asked::Request(*id, *peer),
        _ => Asked::Nothing,
    };
    asked
}

/// A number below this one.
fn number_below(bound: u128, seed: u64) -> u128 {
    match bound {
        0 => 0,
        bound => u128::from(scattered(seed)) % bound,
    }
}

/// A fetch of a key for its subscribers.
fn fetched(alloc: Global, i: u64) -> Result<Happened, Fault> {
    let subscribers = listed(alloc, SUBSCRIBERS)?;
    Ok(Event::Fetch(items_of(alloc, name(i), subscribers, None)?))
}

/// A fetch of another key, which a few peers may be asked for.
fn aimed(alloc: Global, i: u64) -> Result<Happened, Fault> {
    let key = name(i.wrapping_add(1 << 31));
    let first = i % u64::from(TARGETS);
    let targets = NonEmptyVec::try_from(named(alloc, first as u16, TARGETS)?).ok();
    let subscribers = listed(alloc, SUBSCRIBERS)?;
    Ok(Event::Fetch(items_of(alloc, key, subscribers, targets)?))
}

/// A response of one byte to the request that was told at this place.
fn answered(alloc: Global, requests: &[(u64, Peer)], i: u64) -> Result<Happened, Fault> {
    let Some((id, peer)) = requests.get(i as usize) else {
        return Err(Fault::Refused);
    };
    let [a, b, c, d, e, f, g, h] = id.to_be_bytes();
    let bytes = Bytes::copy_from_slice(alloc, &[a, b, c, d, e, f, g, h, 1, 1, 0])?;
    Ok(Event::Net { peer: *peer, bytes })
}

/// The number of the next delivery to be judged.
fn judged(next: &mut u64) -> u64 {
    let number = *next;
    *next = next.wrapping_add(1);
    number
}

fn told(answer: Result<Told, resolver_base::Fault>) -> Result<Told, Fault> {
    match answer {
        Ok(told) => Ok(told),
        Err(fault) => Err(fault.into()),
    }
}

fn happen(engine: &mut Engine, now: u32, event: Happened) -> Result<Told, Fault> {
    let now = u128::from(now);
    told(engine.step(Input::Happens(Happening { now, event })))
}

/// A fetch of a new key, with the beginning of the scan that asks for it.
#[inline(never)]
fn fetch(engine: &mut Engine, now: u32, event: Happened) -> Result<Told, Fault> {
    happen(engine, now, event)
}

/// The same where the scan has the peers that may be asked to weigh.
#[inline(never)]
fn fetch_anew(engine: &mut Engine, now: u32, event: Happened) -> Result<Told, Fault> {
    happen(engine, now, event)
}

/// A fetch of a new key which a few peers may be asked for, with the beginning of its scan.
#[inline(never)]
fn fetch_of_few(engine: &mut Engine, now: u32, event: Happened) -> Result<Told, Fault> {
    happen(engine, now, event)
}

/// A fetch of a new key while no peer may be asked.
#[inline(never)]
fn wait(engine: &mut Engine, now: u32, event: Happened) -> Result<Told, Fault> {
    happen(engine, now, event)
}

/// The beginning of a scan.
#[inline(never)]
fn begin(engine: &mut Engine, now: u32) -> Result<Told, Fault> {
    happen(engine, now, Event::PendingDue)
}

/// A drawn number. The first one for a key says how the peer is drawn, the second one draws it.
#[inline(never)]
fn draw(engine: &mut Engine, number: u128) -> Result<Told, Fault> {
    told(engine.step(Input::Answers(Answer::Drawn(number))))
}

/// The peer may be sent to.
#[inline(never)]
fn check(engine: &mut Engine) -> Result<Told, Fault> {
    told(engine.step(Input::Answers(Answer::Checked(Check::Clear))))
}

/// The request was accepted.
#[inline(never)]
fn send(engine: &mut Engine) -> Result<Told, Fault> {
    told(engine.step(Input::Answers(Answer::Sent(true))))
}

/// A response.
#[inline(never)]
fn answer(engine: &mut Engine, now: u32, event: Happened) -> Result<Told, Fault> {
    happen(engine, now, event)
}

/// A verdict that all subscribers have what they want.
#[inline(never)]
fn complete(engine: &mut Engine, now: u32, number: u64) -> Result<Told, Fault> {
    let outcome = Some(Outcome::Resolved(Resolution::Complete));
    happen(engine, now, Event::Verdict { number, outcome })
}

/// A verdict by which the key is tried again.
#[inline(never)]
fn unresolved(engine: &mut Engine, now: u32, number: u64) -> Result<Told, Fault> {
    let outcome = Some(Outcome::Unresolved);
    happen(engine, now, Event::Verdict { number, outcome })
}

/// The time of a request is over.
#[inline(never)]
fn time_out(engine: &mut Engine, now: u32) -> Result<Told, Fault> {
    happen(engine, now, Event::ActiveDue)
}

/// A retain that keeps all: nobody wanted the key that is dropped.
#[inline(never)]
fn retain(engine: &mut Engine, now: u32) -> Result<Told, Fault> {
    happen(engine, now, Event::Retain(All))
}

/// A set of peers that is older than the last one.
#[inline(never)]
fn old_peers(engine: &mut Engine, now: u32, peers: Vec<Peer>) -> Result<Told, Fault> {
    happen(engine, now, Event::PeerSet { index: 0, peers })
}

/// Another set of peers.
fn know(engine: &mut Engine, now: u32, peers: Vec<Peer>) -> Result<Told, Fault> {
    happen(engine, now, Event::PeerSet { index: 1, peers })
}

/// One blocked peer, and another one each time.
#[inline(never)]
fn block(engine: &mut Engine, now: u32, peers: Vec<Peer>) -> Result<Told, Fault> {
    happen(engine, now, Event::Blocked(peers))
}

/// All peers are blocked.
fn block_all(engine: &mut Engine, now: u32, peers: Vec<Peer>) -> Result<Told, Fault> {
    happen(engine, now, Event::Blocked(peers))
}

/// No peer is blocked any more, with the beginning of a scan that has the peers that may be asked to weigh.
#[inline(never)]
fn unblock(engine: &mut Engine, now: u32, none: Vec<Peer>) -> Result<Told, Fault> {
    happen(engine, now, Event::Blocked(none))
}
