//! A model of an engine's core: which keys are wanted by whom, and what is to be told of each event.
//!
//! It takes what the core takes, follows what the core asks and is answered, and writes down what the core is to
//! tell by the definitions of the peer machine. Of scans it says what may be asked, and not what is drawn.

use crate::chaos::lines::{
    write_block, write_cancel, write_credit, write_delivery, write_effect, write_produce,
    write_reply,
};
use crate::chaos::message::{Message, read};
use crate::chaos::trail::Trail;
use crate::chaos::wanted::{Open, Response, Wanted};
use crate::fakes::world::Setting;
use crate::scan::{Shown, Stage};
use crate::twin::Happened;
use bytes::Bytes;
use resolver::p2p::FetchKey;
use resolver::p2p::effects::Effect;
use resolver::p2p::inputs::Event;
use resolver::p2p::mocks::Key;
use resolver::{Outcome, Resolution};
use std::alloc::{AllocError, Global};
use std::collections::{BTreeMap, BTreeSet};
use tests_support::names::Peer;

/// How long a request may take, in nanoseconds.
pub const TIMEOUT: u128 = 50;

/// How long a key waits before it is tried again, in nanoseconds.
pub const DELAY: u128 = 10;

/// What is wanted of an engine, and what it is to tell.
#[derive(Drop)]
pub struct Model {
    pub alloc: Global,
    pub setting: Setting,
    /// When the last event came.
    pub now: u128,
    pub keys: BTreeMap<u8, Wanted>,
    /// The index of the last peer set.
    index: Option<u64>,
    pub peers: BTreeSet<u8>,
    pub blocked: BTreeSet<u8>,
    /// The deliveries without a verdict, by their numbers.
    open: BTreeMap<u64, Open>,
    /// The peers that asked and have no reply, each with its id, by the numbers of the serves.
    serves: BTreeMap<u64, (u8, u64)>,
    next_delivery: u64,
    next_serve: u64,
    /// The responses that earned a credit or a block.
    paid: BTreeSet<u64>,
    pub trail: Trail,
    /// What the core is to tell of the last event, and what it told.
    pub expected: String,
    pub told: String,
    /// What was wrong first.
    pub complaint: Option<&'static str>,
}

impl Model {
    /// An engine of which nothing is wanted, and that knows no peer.
    pub fn new(alloc: Global, setting: Setting) -> Model {
        Model {
            alloc,
            setting,
            now: 0,
            keys: BTreeMap::new(alloc),
            index: None,
            peers: BTreeSet::new(alloc),
            blocked: BTreeSet::new(alloc),
            open: BTreeMap::new(alloc),
            serves: BTreeMap::new(alloc),
            next_delivery: 0,
            next_serve: 0,
            paid: BTreeSet::new(alloc),
            trail: Trail::new(alloc),
            expected: String::new(alloc),
            told: String::new(alloc),
            complaint: None,
        }
    }

    /// Something is wrong.
    pub fn complain(&mut self, why: &'static str) {
        if self.complaint.is_none() {
            self.complaint = Some(why);
        }
    }

    /// Something is wrong unless this holds.
    pub fn expect(&mut self, holds: bool, why: &'static str) {
        if !holds {
            self.complain(why);
        }
    }

    /// The core takes an event.
    pub fn take(&mut self, now: u64, event: &Happened) -> Result<(), AllocError> {
        self.now = now as u128;
        self.expected.clear();
        self.told.clear();
        self.trail.is_open = false;
        match event {
            Event::Fetch(items) => self.fetch_all(items.as_slice()),
            Event::Retain(below) => self.retain(below.0),
            Event::PeerSet { index, peers } => self.set_peers(*index, peers.as_slice()),
            Event::Blocked(peers) => self.set_blocked(peers.as_slice()),
            Event::ActiveDue => {
                self.time_out();
                Ok(())
            }
            Event::PendingDue => Ok(()),
            Event::Verdict { number, outcome } => self.judge(*number, *outcome),
            Event::Served { serve, value } => self.reply(*serve, value.as_ref()),
            Event::Net { peer, bytes } => self.receive(peer.0, bytes.as_slice()),
            Event::End => self.end(),
        }
    }

    fn fetch_all(&mut self, items: &[FetchKey<Key, Peer, u16>]) -> Result<(), AllocError> {
        for item in items {
            self.fetch(item)?;
        }
        Ok(())
    }

    fn fetch(&mut self, item: &FetchKey<Key, Peer, u16>) -> Result<(), AllocError> {
        let key = item.key.0;
        let is_new = !self.keys.contains_key(&key);
        if is_new {
            let due = self.now;
            let is_retry = false;
            let wanted = Wanted::new(self.alloc, Stage::Waiting { is_retry, due });
            self.keys.insert(key, wanted)?;
        }
        let Some(wanted) = self.keys.get_mut(&key) else {
            return Ok(());
        };
        for (subscriber, _) in item.subscribers.iter() {
            wanted.subscribers.insert(*subscriber)?;
        }
        wanted.aim(is_new, item.metadata.as_ref())
    }

    /// Subscribers from this one on are let go.
    fn retain(&mut self, below: u16) -> Result<(), AllocError> {
        for wanted in self.keys.values_mut() {
            wanted.subscribers.retain(|subscriber| *subscriber < below);
            if wanted.subscribers.is_empty() {
                note_cancel(&mut self.expected, wanted.stage)?;
            }
        }
        self.keys.retain(|_, wanted| !wanted.subscribers.is_empty());
        Ok(())
    }

    fn set_peers(&mut self, index: u64, peers: &[Peer]) -> Result<(), AllocError> {
        if self.index.is_some_and(|last| index <= last) {
            return Ok(());
        }
        self.index = Some(index);
        replace(&mut self.peers, peers)
    }

    fn set_blocked(&mut self, peers: &[Peer]) -> Result<(), AllocError> {
        replace(&mut self.blocked, peers)
    }

    /// The key of the first request whose time is over, by its deadline and then by its id.
    fn overdue(&self) -> Option<u8> {
        let mut first: Option<(u128, u64, u8)> = None;
        for (key, wanted) in self.keys.iter() {
            let Stage::Asked { id, deadline, .. } = wanted.stage else {
                continue;
            };
            let place = (deadline, id, *key);
            if deadline <= self.now && first.is_none_or(|other| place < other) {
                first = Some(place);
            }
        }
        match first {
            Some((_, _, key)) => Some(key),
            None => None,
        }
    }

    fn time_out(&mut self) {
        if let Some(key) = self.overdue() {
            self.retry(key);
        }
    }

    /// The key is tried again, after the delay.
    fn retry(&mut self, key: u8) {
        let due = self.now.saturating_add(DELAY);
        if let Some(wanted) = self.keys.get_mut(&key) {
            wanted.stage = Stage::Waiting {
                is_retry: true,
                due,
            };
        }
    }

    /// Hands a response out to all who want its key, under the next number.
    fn deliver(&mut self, key: u8, response: Response) -> Result<(), AllocError> {
        let number = self.next_delivery;
        self.next_delivery = number.saturating_add(1);
        let Some(wanted) = self.keys.get_mut(&key) else {
            return Ok(());
        };
        wanted.stage = Stage::Judged(number);
        let subscribers = wanted.subscribers.iter().copied().collect(self.alloc)?;
        let open = Open {
            key,
            subscribers,
            response,
        };
        write_delivery(
            &mut self.expected,
            number,
            open.response.number,
            key,
            open.subscribers.as_slice(),
            open.response.value.as_slice(),
        )?;
        self.open.insert(number, open)?;
        Ok(())
    }

    /// The consumer says this of a delivery, or dropped it.
    fn judge(&mut self, number: u64, outcome: Option<Outcome>) -> Result<(), AllocError> {
        let Some(open) = self.open.remove(&number) else {
            return Ok(());
        };
        self.pay(&open.response, outcome)?;
        let is_live = match self.keys.get(&open.key) {
            Some(wanted) => wanted.stage == Stage::Judged(number),
            None => false,
        };
        if is_live {
            self.rule(open, outcome)?;
        }
        Ok(())
    }

    /// A response earns its peer a credit or a block, unless it was judged to be complete before.
    fn pay(&mut self, response: &Response, outcome: Option<Outcome>) -> Result<(), AllocError> {
        if response.is_accepted {
            return Ok(());
        }
        let lines = &mut self.expected;
        match outcome {
            Some(Outcome::Resolved(_)) => write_credit(
                lines,
                response.number,
                response.peer,
                response.elapsed,
                response.value.len() as u64,
            ),
            Some(Outcome::Invalid) => write_block(lines, response.number, response.peer),
            _ => Ok(()),
        }
    }

    /// What a verdict that counts does to its key.
    fn rule(&mut self, open: Open, outcome: Option<Outcome>) -> Result<(), AllocError> {
        let was_accepted = open.response.is_accepted;
        match outcome {
            Some(Outcome::Resolved(Resolution::Complete)) => return self.hand_on(open, true),
            None => return self.hand_on(open, was_accepted),
            Some(Outcome::Ignored) => drop(self.keys.remove(&open.key)),
            Some(Outcome::Invalid) if was_accepted => drop(self.keys.remove(&open.key)),
            Some(Outcome::Resolved(Resolution::Partial) | Outcome::Unresolved | Outcome::Invalid) =>
                { self.retry(open.key) }
        }
        Ok(())
    }

    /// Those whom a delivery names are served. The rest get its response.
    fn hand_on(&mut self, open: Open, is_accepted: bool) -> Result<(), AllocError> {
        let Open {
            key,
            subscribers,
            mut response,
        } = open;
        response.is_accepted = is_accepted;
        let Some(wanted) = self.keys.get_mut(&key) else {
            return Ok(());
        };
        wanted
            .subscribers
            .retain(|subscriber| !subscribers.as_slice().contains(subscriber));
        if wanted.subscribers.is_empty() {
            self.keys.remove(&key);
            return Ok(());
        }
        self.deliver(key, response)
    }

    /// The producer has these bytes for a serve, or none.
    fn reply(&mut self, serve: u64, value: Option<&Bytes>) -> Result<(), AllocError> {
        let Some((peer, id)) = self.serves.remove(&serve) else {
            return Ok(());
        };
        let mut bytes = Vec::new(self.alloc);
        bytes.extend_from_slice(&id.to_be_bytes())?;
        match value {
            Some(value) => {
                bytes.push(1)?;
                bytes.push(u8::try_from(value.len()).unwrap_or(u8::MAX))?;
                bytes.extend_from_slice(value.as_slice())?;
            }
            None => bytes.push(2)?,
        }
        write_reply(&mut self.expected, peer, bytes.as_slice())
    }

    /// The key that is asked for of this peer under this id.
    fn key_of(&self, id: u64, peer: u8) -> Option<u8> {
        for (key, wanted) in self.keys.iter() {
            if wanted.asked() == Some((id, peer)) {
                return Some(*key);
            }
        }
        None
    }

    fn receive(&mut self, peer: u8, bytes: &[u8]) -> Result<(), AllocError> {
        match read(bytes) {
            Some(Message::Request { id, key }) => self.produce(peer, id, key),
            Some(Message::Response { id, value }) => self.respond(peer, id, value),
            Some(Message::Error { id }) => {
                if let Some(key) = self.key_of(id, peer) {
                    self.retry(key);
                }
                Ok(())
            }
            None => Ok(()),
        }
    }

    fn produce(&mut self, peer: u8, id: u64, key: u8) -> Result<(), AllocError> {
        let serve = self.next_serve;
        self.next_serve = serve.saturating_add(1);
        self.serves.insert(serve, (peer, id))?;
        write_produce(&mut self.expected, serve, key)
    }

    /// How long a key's request has taken, in nanoseconds.
    fn elapsed(&self, key: u8) -> u128 {
        match self.keys.get(&key) {
            Some(
                Wanted {
                    stage: Stage::Asked { deadline, .. },
                    ..
                },
            ) => self.now.saturating_add(TIMEOUT).saturating_sub(*deadline),
            _ => 0,
        }
    }

    fn respond(&mut self, peer: u8, id: u64, value: &[u8]) -> Result<(), AllocError> {
        let Some(key) = self.key_of(id, peer) else {
            return Ok(());
        };
        let response = Response {
            number: self.next_delivery,
            peer,
            elapsed: self.elapsed(key),
            value: value.iter().copied().collect(self.alloc)?,
            is_accepted: false,
        };
        self.deliver(key, response)
    }

    fn end(&mut self) -> Result<(), AllocError> {
        for wanted in self.keys.values() {
            note_cancel(&mut self.expected, wanted.stage)?;
        }
        self.keys.clear();
        self.open.clear();
        self.serves.clear();
        Ok(())
    }

    /// The core tells this.
    pub fn note_effect(&mut self, effect: &Effect<Key, Peer, u16>) -> Result<(), AllocError> {
        let mut subscribers = Vec::new(self.alloc);
        match effect {
            Effect::Deliver { delivery, .. } => {
                for (subscriber, _) in delivery.subscribers.iter() {
                    subscribers.push(*subscriber)?;
                }
            }
            Effect::Credit { response, .. } | Effect::Block { response, .. } => {
                let is_first = self.paid.insert(*response)?;
                self.expect(is_first, "a response earned twice");
            }
            _ => {}
        }
        write_effect(&mut self.told, effect, subscribers.as_slice())
    }

    /// What was told, and the keys that are left, are judged once an event is over.
    pub fn judge_event(&mut self, rows: &[Shown]) -> Result<(), AllocError> {
        self.judge_scan();
        let mut wanted = Vec::new(self.alloc);
        for (key, one) in self.keys.iter() {
            let stage = one.stage;
            wanted.push(Shown { key: *key, stage })?;
        }
        let are_same = wanted.as_slice() == rows;
        self.expect(
            are_same,
            "other keys are wanted, or another thing is done for them",
        );
        let is_told = self.expected == self.told;
        self.expect(is_told, "another thing is told");
        Ok(())
    }
}

/// A key that nobody wants any more is called off: a delivery that is judged is canceled.
fn note_cancel(lines: &mut String, stage: Stage) -> Result<(), AllocError> {
    match stage {
        Stage::Judged(number) => write_cancel(lines, number),
        _ => Ok(()),
    }
}

/// These peers take the place of others.
fn replace(set: &mut BTreeSet<u8>, peers: &[Peer]) -> Result<(), AllocError> {
    set.clear();
    for peer in peers {
        set.insert(peer.0)?;
    }
    Ok(())
}
