//! A model of a node's core.

ghost use Rattle.std.specs.Prelude.{◌≡◌, ◌↔◌, ◌+◌, IsTrue, IsSome, IfSome, OnOk, false, None, Some};
ghost use Rattle.std.specs.Ordering.{nat_cmp};
ghost use Rattle.std.specs.BTreeMap.{Updates, get};
ghost use Rattle.std.specs.Bool.{OnFalse, OnTrue};
ghost use Rattle.std.specs.Option.{option_copied};
ghost use Rattle.resolver_swarm.specs.Keeping.{AreThose, Follows, Hears, IsAnswered, IsRuled, Joins, Replaces, TimesOut, answer_in, retires, said_in, sent_to};
ghost use Rattle.resolver_swarm.specs.Judging.{AreCounted, AreRowsOf, ComplainsUnless, HasWork, HaveRequests, IsAnswer, IsAwake, IsEligible, IsLater, IsListed, IsNoted, IsTold, IsUnjudged, MayRequest, clear_of, deadline_of, first_deadline, first_found};

use crate::height::Height;
use crate::judging::complaint::Complaint;
use crate::judging::requests::{Asked, Requests};
use crate::judging::said::{Said, read};
use crate::settings::{Settings, nanos};
use crate::world::Happens;
use resolver_core::base::{Check, NonEmptyVec};
use resolver_core::ingress::FetchKey;
use resolver_core::p2p::Phases;
use resolver_core::p2p::effects::Effect;
use resolver_core::p2p::inputs::Event;
use resolver_core::p2p::rows::{Phase, Row};
use resolver_core::{Outcome, Resolution};
use std::alloc::{AllocError, Global};
use std::collections::{BTreeMap, BTreeSet};

/// What a core is to have and to do, and what it did wrong first. Nothing is given up in a run, so no retain is told.
#[derive(Drop)]
pub struct Judge {
    pub me: u16,
    pub limit: u32,
    pub timeout: u128,
    pub now: u128,
    pub index: Option<u64>,
    pub peers: BTreeSet<u16>,
    pub blocked: BTreeSet<u16>,
    /// The numbers of the keys that were fetched and not retired.
    pub demand: BTreeSet<u16>,
    /// The requests without an answer.
    pub asked: Requests,
    /// The keys of the deliveries without a verdict, by their numbers. A node gives a verdict at once, so they are few.
    pub judged: BTreeMap<u64, Height>,
    /// The senders of the responses that have earned nothing, by their numbers.
    pub senders: BTreeMap<u64, u16>,
    /// The request that was answered by the last event with a value.
    pub answered: Option<Asked>,
    /// The peer that may be sent to, as the last check said.
    pub clear: Option<u16>,
    /// The keys whose rows the last event, and what was asked and told since, may have changed.
    pub touched: Vec<Height>,
    /// How many events were taken since whole rows were compared.
    pub unseen: usize,
    /// What is wrong, if something is: what was found first.
    pub complaint: Option<Complaint>,
}

impl Judge {
    /// A judge of the node of this name, which wants nothing and knows nobody.
    pub fn new(alloc: Global, me: u16, settings: &Settings) -> Judge {
        Judge {
            me,
            limit: settings.peer_limit,
            timeout: nanos(settings.timeout),
            now: 0,
            index: None,
            peers: BTreeSet::new(alloc),
            blocked: BTreeSet::new(alloc),
            demand: BTreeSet::new(alloc),
            asked: Requests::new(alloc),
            judged: BTreeMap::new(alloc),
            senders: BTreeMap::new(alloc),
            answered: None,
            clear: None,
            touched: Vec::new(alloc),
            unseen: 0,
            complaint: None,
        }
    }

    /// How many requests have no answer.
    pub fn open_requests(&self) -> usize {
        self.asked.len()
    }

    /// Something is wrong.
    fn complain(&mut self, complaint: Complaint)
        ensures found { self.new
            ≡ record self.old { complaint = first_found self.old.complaint complaint } }
        ensures some { IsSome self.new.complaint }
    {
        match self.complaint {
            Some(_) => {}
            None => self.complaint = Some(complaint),
        }
    }

    /// Something is wrong unless this holds.
    pub(crate) fn expect(&mut self, holds: bool, complaint: Complaint)
        ensures judged { ComplainsUnless self.old.complaint self.new.complaint
            (IsTrue holds) }
        ensures found { self.new ≡ record self.old { complaint = self.new.complaint } }
    {
        if !holds {
            self.complain(complaint);
        }
    }

    /// The core takes an event.
    pub fn take(&mut self, now: u128, event: &Happens) -> Result<(), AllocError>
        ensures moment { self.new.now ≡ now }
        ensures silent { self.new.complaint ≡ self.old.complaint }
        ensures unchecked { self.new.clear ≡ None }
        ensures senders { self.new.senders ≡ self.old.senders }
        ensures taken { OnOk result (Follows event.now self.old self.new) }
    {
        self.now = now;
        self.answered = None;
        self.clear = None;
        self.touched.clear();
        self.follow(event)
    }

    /// Follows an event, by what it says.
    fn follow(&mut self, event: &Happens) -> Result<(), AllocError>
        requires { self.old.answered ≡ None }
        ensures rest { self.new ≡ record self.old {
          index = self.new.index;
          peers = self.new.peers;
          blocked = self.new.blocked;
          demand = self.new.demand;
          asked = self.new.asked;
          judged = self.new.judged;
          answered = self.new.answered;
          touched = self.new.touched;
        } }
        ensures taken { OnOk result (Follows event.now self.old self.new) }
    {
        match event {
            Event::Fetch(items) => self.want(items.as_slice()),
            Event::PeerSet { index, peers } => self.set_peers(*index, peers.as_slice()),
            Event::Blocked(peers) => replace(&mut self.blocked, peers.as_slice()),
            Event::ActiveDue => self.time_out(),
            Event::Verdict { number, outcome } => self.rule(*number, *outcome),
            Event::Net { peer, bytes } => self.receive(*peer, bytes.as_slice()),
            Event::Retain(_) | Event::PendingDue | Event::Served { .. } | Event::End => Ok(()),
        }
    }

    /// The keys of these items are demanded, beside those that were.
    fn want(
        &mut self,
        items: &[FetchKey<Height, u16, Option<NonEmptyVec<u16>>>],
    ) -> Result<(), AllocError>
        ensures demand { OnOk result (Joins items.now self.old.demand self.new.demand) }
        ensures rest { self.new ≡ record self.old {
          demand = self.new.demand;
          touched = self.new.touched;
        } }
    {
        for item in items {
            self.demand.insert(item.key.number())?;
            self.touched.push(item.key)?;
        }
        Ok(())
    }

    /// A set takes the place of the last one where its index is greater.
    fn set_peers(&mut self, index: u64, peers: &[u16]) -> Result<(), AllocError>
        ensures set { OnOk result (Replaces index peers.now self.old self.new) }
        ensures rest { self.new ≡ record self.old {
          index = self.new.index;
          peers = self.new.peers;
        } }
    {
        if self.index.is_some_and(|last| index <= last) {
            return Ok(());
        }
        self.index = Some(index);
        replace(&mut self.peers, peers)
    }

    /// The time of a request is over: of the first one, by its deadline and then by its id.
    fn time_out(&mut self) -> Result<(), AllocError>
        ensures over { TimesOut self.old.now self.old.asked self.new.asked }
        ensures rest { self.new ≡ record self.old {
          asked = self.new.asked;
          touched = self.new.touched;
        } }
    {
        let Some((deadline, id)) = self.asked.first() else {
            return Ok(());
        };
        if deadline > self.now {
            return Ok(());
        }
        if let Some(asked) = self.asked.remove(id) {
            self.touched.push(asked.key)?;
        }
        Ok(())
    }

    /// A verdict: a key that is complete, or that is let go, is retired.
    fn rule(&mut self, number: u64, outcome: Option<Outcome>) -> Result<(), AllocError>
        ensures judged { Updates nat_cmp self.old.judged self.new.judged number None }
        ensures ruled { IsRuled outcome
            (get nat_cmp self.old.judged number) self.old.demand self.new.demand }
        ensures rest { self.new ≡ record self.old {
          judged = self.new.judged;
          demand = self.new.demand;
          touched = self.new.touched;
        } }
    {
        let Some(key) = self.judged.remove(&number) else {
            return Ok(());
        };
        if is_retiring(outcome) {
            self.demand.remove(&key.number());
        }
        Ok(self.touched.push(key)?)
    }

    /// A message of a peer ends the request that it answers.
    fn receive(&mut self, peer: u16, bytes: &[u8]) -> Result<(), AllocError>
        requires { self.old.answered ≡ None }
        ensures answered { self.new.answered ≡ answer_in peer (said_in bytes.now) self.old.asked }
        ensures heard { Hears peer (said_in bytes.now) self.old.asked self.new.asked }
        ensures rest { self.new ≡ record self.old {
          asked = self.new.asked;
          answered = self.new.answered;
          touched = self.new.touched;
        } }
    {
        let Some(said) = read(bytes) else {
            return Ok(());
        };
        if let Some(asked) = self.hear(peer, said) {
            self.touched.push(asked.key)?;
        }
        Ok(())
    }

    /// What a peer says ends the request that it answers. That request, if there is one.
    fn hear(&mut self, peer: u16, said: Said) -> Option<Asked>
        requires { self.old.answered ≡ None }
        ensures answered { self.new.answered ≡ answer_in peer (Some said) self.old.asked }
        ensures heard { Hears peer (Some said) self.old.asked self.new.asked }
        ensures rest { self.new ≡ record self.old {
          asked = self.new.asked;
          answered = self.new.answered;
        } }
    {
        match said {
            Said::Request => None,
            Said::Response { id } => {
                self.answered = self.end_request(id, peer);
                self.answered
            }
            Said::Missing { id } => self.end_request(id, peer),
        }
    }

    /// Ends the request of this id, if this peer was asked.
    fn end_request(&mut self, id: u64, peer: u16) -> Option<Asked>
        ensures asked { result ≡ sent_to peer (get nat_cmp self.old.asked.by_id id) }
        ensures ended { IsAnswered peer id self.old.asked self.new.asked }
        ensures rest { self.new ≡ record self.old { asked = self.new.asked } }
    {
        let asked = self.asked.get(id)?;
        if asked.peer != peer {
            return None;
        }
        self.asked.remove(id)
    }

    /// Whether a peer may be asked: it is of the last set, neither the node itself nor blocked, and has fewer requests
    /// than it may have.
    pub fn is_eligible(&self, peer: u16) -> bool
        ensures { IsTrue result ↔ IsEligible self.entry.now peer }
    {
        self.peers.contains(&peer)
            && peer != self.me
            && !self.blocked.contains(&peer)
            && (self.limit == 0 || self.asked.load(peer) < u64::from(self.limit))
    }

    /// A peer is looked at, which says this.
    pub fn note_check(&mut self, peer: u16, check: Check)
        ensures judged { ComplainsUnless self.old.complaint self.new.complaint
            (IsEligible self.old peer) }
        ensures clear { self.new.clear ≡ clear_of peer check }
    {
        self.clear = match check {
            Check::Clear => Some(peer),
            Check::Until(_) => None,
        };
        let is_eligible = self.is_eligible(peer);
        self.expect(is_eligible, Complaint::Ineligible);
    }

    /// Whether a key may be asked for under this id: it is wanted, neither asked for nor judged, and the id is free.
    fn may_request(&self, key: Height, id: u64) -> bool
        ensures { IsTrue result ↔ MayRequest self.entry.now key id }
    {
        self.demand.contains(&key.number())
            && !self.asked.has_key(key)
            && !self.is_judged(key)
            && self.asked.get(id).is_none()
    }

    /// A request is sent, and accepted or not.
    pub fn note_request(
        &mut self,
        key: Height,
        peer: u16,
        id: u64,
        is_accepted: bool,
    ) -> Result<(), AllocError>
        ensures judged { ComplainsUnless self.old.complaint self.new.complaint
            (IsEligible self.old peer × (self.old.clear ≡ Some peer) × MayRequest self.old key id) }
        ensures noted { OnOk result (OnTrue is_accepted (get nat_cmp self.new.asked.by_id id
            ≡ Some (record { key = key; peer = peer; deadline = deadline_of self.old }))) }
        ensures refused { OnFalse is_accepted (self.new.asked ≡ self.old.asked) }
    {
        let is_eligible = self.is_eligible(peer) && self.clear == Some(peer);
        self.expect(is_eligible, Complaint::Ineligible);
        let is_right = self.may_request(key, id);
        self.expect(is_right, Complaint::Request);
        if is_accepted {
            let deadline = self.now.saturating_add(self.timeout);
            let asked = Asked {
                key,
                peer,
                deadline,
            };
            self.asked.put(id, asked)?;
        }
        Ok(self.touched.push(key)?)
    }

    /// The core tells this.
    pub fn note_effect(&mut self, effect: &Effect<Height, u16, u16>) -> Result<(), AllocError>
        ensures judged { ComplainsUnless self.old.complaint self.new.complaint
            (IsTold self.old effect.now) }
    {
        match effect {
            Effect::Deliver {
                number,
                delivery,
                ..
            } => self.note_delivery(*number, delivery.key),
            Effect::Credit { response, source } => {
                self.note_earning(*response, source.peer);
                Ok(())
            }
            Effect::Block { response, peer } => {
                self.note_earning(*response, *peer);
                Ok(())
            }
            Effect::Ask(_)
            | Effect::Cancel { .. }
            | Effect::Produce { .. }
            | Effect::Reply { .. } => Ok(()),
        }
    }

    /// A key's value is handed out: it is what the asked peer answered just now.
    fn note_delivery(&mut self, number: u64, key: Height) -> Result<(), AllocError>
        ensures judged { ComplainsUnless self.old.complaint self.new.complaint
            (IsAnswer self.old.answered key) }
        ensures used { self.new.answered ≡ None }
        ensures sender { OnOk result (IfSome self.old.answered (λ asked.
            get nat_cmp self.new.senders number ≡ Some asked.peer)) }
        ensures known { OnOk result (IfSome self.old.answered (λ _.
            get nat_cmp self.new.judged number ≡ Some key)) }
    {
        let answered = self.answered.take();
        let is_answer = answered.is_some_and(|asked| asked.key == key);
        self.expect(is_answer, Complaint::Delivery);
        if let Some(asked) = answered {
            self.senders.insert(number, asked.peer)?;
            self.judged.insert(number, key)?;
        }
        Ok(())
    }

    /// A response earns its sender a credit or a block, and nothing after that.
    fn note_earning(&mut self, response: u64, peer: u16)
        ensures judged { ComplainsUnless self.old.complaint self.new.complaint
            (get nat_cmp self.old.senders response ≡ Some peer) }
        ensures once { get nat_cmp self.new.senders response ≡ None }
    {
        let is_right = self.senders.remove(&response) == Some(peer);
        self.expect(is_right, Complaint::Earned);
    }

    /// What the core counts once an event is over: how many keys are demanded, asked for and judged.
    pub fn note_phases(&mut self, phases: Phases)
        ensures judged { ComplainsUnless self.old.complaint self.new.complaint
            (AreCounted self.old phases × (self.old.answered ≡ None)) }
    {
        self.unseen = self.unseen.saturating_add(1);
        let is_demand = count_of(phases) == self.demand.len() as u128;
        self.expect(is_demand, Complaint::Demand);
        let are_asked = phases.asked == self.asked.len() as u64;
        self.expect(are_asked, Complaint::Requests);
        let are_judged = phases.judged == self.judged.len() as u64;
        self.expect(are_judged, Complaint::Requests);
        let is_unanswered = self.answered.is_none();
        self.expect(is_unanswered, Complaint::Delivery);
    }

    /// What the core lists of a key once an event is over, if it lists it: whether it is demanded, and what is done for
    /// it.
    pub fn note_row(&mut self, key: Height, row: Option<&Row<Height, u16, u16>>)
        ensures judged { ComplainsUnless self.old.complaint self.new.complaint
            (IsListed self.old key (option_copied row.entry)) }
    {
        let is_demand = row.is_some() == self.demand.contains(&key.number());
        self.expect(is_demand, Complaint::Demand);
        let is_known = match row {
            Some(row) => row.key == key && self.is_known(row),
            None => true,
        };
        self.expect(is_known, Complaint::Requests);
    }

    /// Whether all rows are to be compared: four times as many events were taken since they were as there are rows, so
    /// that an event costs a quarter of a row.
    pub fn wants_rows(&self) -> bool {
        self.unseen / 4 >= self.demand.len()
    }

    /// What the core lists once an event is over: the demand, and the open requests.
    pub fn note_rows(&mut self, rows: &[Row<Height, u16, u16>])
        ensures judged { ComplainsUnless self.old.complaint self.new.complaint
            (AreRowsOf self.old.demand.keys rows.now × HaveRequests self.old rows.now) }
    {
        self.unseen = 0;
        let is_demand = self.has_demand(rows);
        self.expect(is_demand, Complaint::Demand);
        let are_asked = self.has_requests(rows);
        self.expect(are_asked, Complaint::Requests);
    }

    /// Whether the rows are the demanded keys, in their order.
    fn has_demand(&self, rows: &[Row<Height, u16, u16>]) -> bool
        ensures { IsTrue result ↔ AreRowsOf self.entry.now.demand.keys rows.now }
    {
        rows.len() == self.demand.len()
            && rows
                .iter()
                .zip(self.demand.iter())
                .all(|(row, number)| row.key.number() == *number)
    }

    /// Whether the rows have the open requests.
    fn has_requests(&self, rows: &[Row<Height, u16, u16>]) -> bool
        ensures { IsTrue result ↔ HaveRequests self.entry.now rows.now }
    {
        let asked = rows
            .iter()
            .filter(|row| matches!(row.phase, Phase::Asked { .. }));
        asked.count() == self.asked.len() && rows.iter().all(|row| self.is_known(row))
    }

    /// Whether what is done for a row's key is what the requests and the deliveries say.
    fn is_known(&self, row: &Row<Height, u16, u16>) -> bool
        ensures { IsTrue result ↔ IsNoted
            self.entry.now.asked self.entry.now.judged row.now.key row.now.phase }
    {
        match &row.phase {
            Phase::Waiting { .. } => !self.asked.has_key(row.key) && !self.is_judged(row.key),
            Phase::Asked { id, peer, deadline } => {
                let asked = Asked {
                    key: row.key,
                    peer: *peer,
                    deadline: *deadline,
                };
                self.asked.get(*id) == Some(asked)
            }
            Phase::Judged { number } => self.judged.get(number) == Some(&row.key),
        }
    }

    /// Whether a key's delivery has no verdict.
    fn is_judged(&self, key: Height) -> bool
        ensures { (result ≡ false) ↔ IsUnjudged self.entry.now.judged key }
    {
        self.judged.values().any(|other| *other == key)
    }

    /// When the time of the first request is over.
    fn next_deadline(&self) -> Option<u128>
        ensures { result ≡ first_deadline self.entry.now.asked.deadlines.keys }
    {
        self.asked.first().map(|(deadline, _)| deadline)
    }

    /// Whether there is a key that waits and a peer that may be asked. It goes through the peers, and only where nothing
    /// will wake the node.
    fn has_work(&self) -> bool
        ensures { IsTrue result ↔ HasWork self.entry.now }
    {
        let busy = self.asked.len().saturating_add(self.judged.len());
        self.demand.len() > busy && self.peers.iter().any(|peer| self.is_eligible(*peer))
    }

    /// What the core waits for, once all that is due was fed.
    pub fn note_waits(&mut self, active: Option<u128>, pending: Option<u128>)
        ensures judged { ComplainsUnless self.old.complaint self.new.complaint
            ((active ≡ first_deadline self.old.asked.deadlines.keys)
            × IsLater self.old.now active × IsLater self.old.now pending
            × IsAwake self.old pending) }
    {
        let is_timed = active == self.next_deadline();
        self.expect(is_timed, Complaint::Deadline);
        let is_fed = is_later(self.now, active) && is_later(self.now, pending);
        self.expect(is_fed, Complaint::Overdue);
        let is_awake = pending.is_some_and(|wake| wake < u128::MAX) || !self.has_work();
        self.expect(is_awake, Complaint::Asleep);
    }
}

/// How many keys there are, in whatever phase.
fn count_of(phases: Phases) -> u128
    ensures { result ≡ phases.waiting + phases.asked + phases.judged }
{
    u128::from(phases.waiting) + u128::from(phases.asked) + u128::from(phases.judged)
}

/// Whether a node is woken later than now, if it is woken.
fn is_later(now: u128, wake: Option<u128>) -> bool
    ensures { IsTrue result ↔ IsLater now wake }
{
    match wake {
        Some(wake) => wake > now,
        None => true,
    }
}

/// Whether a verdict retires its key, where one subscriber wants it.
fn is_retiring(outcome: Option<Outcome>) -> bool
    ensures { result ≡ retires outcome }
{
    match outcome {
        Some(Outcome::Resolved(resolution)) => matches!(resolution, Resolution::Complete),
        Some(Outcome::Invalid) => false,
        Some(Outcome::Unresolved) => false,
        Some(Outcome::Ignored) => true,
        None => true,
    }
}

/// These peers take the place of others.
fn replace(set: &mut BTreeSet<u16>, peers: &[u16]) -> Result<(), AllocError>
    ensures { OnOk result (AreThose peers.now set.new) }
{
    set.clear();
    for peer in peers {
        set.insert(*peer)?;
    }
    Ok(())
}
