//! The engine's core with many keys: each is fetched while every peer is blocked; then a peer is asked for
//! each of them; each request is answered; and each response is judged complete.

use crate::fault::Fault;
use crate::spent::{Driven, Kind, Load, Steps, Times, drive};
use crate::workload::{All, CONFIG, Peer, fetch, listed, named, scattered};
use bytes::Bytes;
use resolver::p2p::Core;
use resolver::p2p::effects::Effect;
use resolver::p2p::inputs::{Event, Happening, Input};
use resolver_base::Check;
use resolver_fetch::fetcher::{Answer, Ask};
use resolver_types::{Outcome, Resolution};
use std::alloc::Global;
use std::rt::Clock;
use tests_support::wide::Name;

/// The subscribers of each key.
const SUBSCRIBERS: u16 = 4;

/// The steps that are taken for each key.
const STEPS: &[Steps] = &[
    Steps(Kind::Wait, Times::Keys, "wait", "effects"),
    Steps(Kind::Ask, Times::Keys, "ask", "effects"),
    Steps(Kind::Answer, Times::Keys, "answer", "effects"),
    Steps(Kind::Complete, Times::Keys, "complete", "effects"),
];

/// Keys that don't come in their order, each once.
fn name(i: u64) -> Name {
    Name::numbered((scattered(i) % (1 << 32)) as u32)
}

/// More than a scan asks before its first request is taken.
const ASKS: u64 = 8;

type Engine = Core<Name, Peer, u16, All>;

type Step = Event<Name, Peer, u16, All>;

type Told = Vec<Effect<Name, Peer, u16>>;

/// Takes every key through an engine.
pub fn run(rt: &(impl AllocGlobal + Clock + Print), load: &Load) -> Result<(), Fault> {
    drive(rt, Core::new(rt.alloc(), CONFIG, false), STEPS, load)
}

impl Driven for Engine {
    /// The engine knows all peers, and all are blocked while the keys wait. Then none is.
    fn prepare(&mut self, alloc: Global, kind: Kind, load: &Load) -> Result<(), Fault> {
        let blocked = match kind {
            Kind::Wait => {
                let peers = named(alloc, 0, load.peers)?;
                take(self, Event::PeerSet { index: 0, peers })?;
                named(alloc, 0, load.peers)?
            }
            Kind::Ask => Vec::new(alloc),
            _ => return Ok(()),
        };
        take(self, Event::Blocked(blocked))?;
        Ok(())
    }

    /// It counts the effects.
    fn take(&mut self, alloc: Global, kind: Kind, i: u64) -> Result<u64, Fault> {
        take(self, event_of(alloc, kind, i)?)
    }
}

/// Takes one event, and the scan that it begins. It counts the effects.
fn take(engine: &mut Engine, event: Step) -> Result<u64, Fault> {
    let happening = Happening { now: 0, event };
    let (mut counted, mut answer) = step(engine, Input::Happens(happening))?;
    for _ in 0..ASKS {
        let Some(given) = answer else {
            return Ok(counted);
        };
        let (more, next) = step(engine, Input::Answers(given))?;
        counted = counted.saturating_add(more);
        answer = next;
    }
    Ok(counted)
}

/// Takes one input. It counts the effects, and has the answer to what they ask.
fn step(
    engine: &mut Engine,
    input: Input<Name, Peer, u16, All>,
) -> Result<(u64, Option<Answer>), Fault> {
    match engine.step(input) {
        Ok(told) => {
            let counted = told.len() as u64;
            let answer = answer_to(&told);
            Ok((counted, answer))
        }
        Err(fault) => Err(fault.into()),
    }
}

/// A zero, or leave, where something is asked: the first peer is asked, and the first id is 0.
fn answer_to(told: &Told) -> Option<Answer> {
    match told.last() {
        Some(Effect::Ask(Ask::Draw(_))) => Some(Answer::Drawn(0)),
        Some(Effect::Ask(Ask::Check(_))) => Some(Answer::Checked(Check::Clear)),
        Some(Effect::Ask(Ask::Request { .. })) => Some(Answer::Sent(true)),
        _ => None,
    }
}

/// The event of one key. Requests and deliveries have the numbers of their keys' order.
fn event_of(alloc: Global, kind: Kind, i: u64) -> Result<Step, Fault> {
    Ok(match kind {
        Kind::Wait => {
            let subscribers = listed(alloc, SUBSCRIBERS)?;
            Event::Fetch(fetch(alloc, name(i), subscribers, None)?)
        }
        Kind::Ask => Event::PendingDue,
        Kind::Answer => Event::Net {
            peer: Peer(0),
            bytes: response(alloc, i)?,
        },
        _ => Event::Verdict {
            number: i,
            outcome: Some(Outcome::Resolved(Resolution::Complete)),
        },
    })
}

/// A response of one byte to the request of this id.
fn response(alloc: Global, id: u64) -> Result<Bytes, Fault> {
    let [a, b, c, d, e, f, g, h] = id.to_be_bytes();
    Ok(Bytes::copy_from_slice(alloc, &[a, b, c, d, e, f, g, h, 1, 1, 0])?)
}
