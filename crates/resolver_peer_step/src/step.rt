//! What an input does to the parts.

ghost use Rattle.std.specs.Prelude.{◌≡◌, ◌<◌, ◌^◌, ℕ, Err, false, is_some, OnErr};
ghost use Rattle.resolver_base.specs.declared.fault.Fault.TheVariants.{OutOfMemory};
ghost use Rattle.resolver_model_peer.specs.Parties.{parties};
ghost use Rattle.resolver_model_peer.specs.Peer.{Happens, Machine, does, happen};
ghost use Rattle.resolver_model_peer.specs.PeerSteps.{is_passed_over, takes_no_memory};
ghost use Rattle.resolver_peer_step.specs.EngineSteps.{Taken};
ghost use Rattle.resolver_peer_step.specs.Going.{Goes, IsTied};
ghost use Rattle.resolver_peer_step.specs.Said.{codec, event_of, fed_of};
ghost use Rattle.resolver_peer_step.specs.Tied.{Agrees};

use crate::parts::Parts;
use resolver_base::{Fault, Span};
use resolver_metrics::metrics::Metrics;
use resolver_model_peer::effects::Effect;
use resolver_model_peer::inputs::{Event, Input};
use resolver_types::Predicate;

impl<K: Span + Drop, P: Ord + Clone + Drop, S: Ord + Clone + Drop> Parts<K, P, S> {
    /// Takes an input, unless it is refused, and counts what comes of it. What is refused counts
    /// nothing. Where an event is over, a scan begins if the wake-up is not later than its moment.
    pub fn take<Q: Predicate<K, S> + Drop>(
        &mut self,
        input: Input<K, P, S, Q>,
        effects: &mut Vec<Effect<K, P, S>>,
        metrics: &mut Metrics,
    ) -> Result<(), Fault>
        requires tied { IsTied (parties K.cmp S.cmp P.cmp) self.old }
        requires keys_clone { (x y : K) → K.is_clone x y → y ≡ x }
        requires peers_clone { (x y : P) → P.is_clone x y → y ≡ x }
        requires subscribers_clone { (x y : S) → S.is_clone x y → y ≡ x }
        ensures takes { (m : Machine K S P) (moment : ℕ)
            → Agrees (parties K.cmp S.cmp P.cmp) self.old m
            → Taken (parties K.cmp S.cmp P.cmp) (codec K.SIZE K.bytes_of K.read_from) m
            (fed_of (codec K.SIZE K.bytes_of K.read_from) Q.keeps moment input)
            effects.old.items effects.new.items self.new result }
        ensures err { OnErr result (metrics.new ≡ metrics.old) }
    {
        match input {
            Input::Happens(happening) => {
                if self.is_scanning() {
                    return Err(Fault::Busy);
                }
                self.happen(happening.now, happening.event, effects, metrics)
            }
            Input::Answers(answer) => self.scan_answer(answer, effects, metrics),
        }
    }

    /// Takes an event, and begins the scan that it gives rise to. What is refused counts nothing.
    fn happen<Q: Predicate<K, S> + Drop>(
        &mut self,
        now: u128,
        event: Event<K, P, S, Q>,
        effects: &mut Vec<Effect<K, P, S>>,
        metrics: &mut Metrics,
    ) -> Result<(), Fault>
        requires closed { is_some self.old.fetcher.scan ≡ false }
        requires tied { IsTied (parties K.cmp S.cmp P.cmp) self.old }
        requires moment { now < 2 ^ 94 }
        requires keys_clone { (x y : K) → K.is_clone x y → y ≡ x }
        requires peers_clone { (x y : P) → P.is_clone x y → y ≡ x }
        requires subscribers_clone { (x y : S) → S.is_clone x y → y ≡ x }
        ensures goes { (m : Machine K S P) → Agrees (parties K.cmp S.cmp P.cmp) self.old m
            → Goes (parties K.cmp S.cmp P.cmp) (codec K.SIZE K.bytes_of K.read_from)
            (happen (parties K.cmp S.cmp P.cmp) m now
            (event_of (codec K.SIZE K.bytes_of K.read_from) Q.keeps event))
            effects.old.items effects.new.items self.new result }
        ensures memory { result ≡ Err OutOfMemory → (m : Machine K S P)
            → Agrees (parties K.cmp S.cmp P.cmp) self.old m
            → takes_no_memory (parties K.cmp S.cmp P.cmp) m now
            (Happens (event_of (codec K.SIZE K.bytes_of K.read_from) Q.keeps event)) ≡ false }
        ensures err { OnErr result (metrics.new ≡ metrics.old) }
    {
        let before = *metrics;
        let happened = self.advance_and_scan(now, event, effects, metrics);
        if happened.is_err() {
            *metrics = before;
        }
        happened
    }

    /// Takes an event, and begins the scan that it gives rise to. Where memory or numbers are
    /// wanting, something may have been counted.
    fn advance_and_scan<Q: Predicate<K, S> + Drop>(
        &mut self,
        now: u128,
        event: Event<K, P, S, Q>,
        effects: &mut Vec<Effect<K, P, S>>,
        metrics: &mut Metrics,
    ) -> Result<(), Fault>
        requires closed { is_some self.old.fetcher.scan ≡ false }
        requires tied { IsTied (parties K.cmp S.cmp P.cmp) self.old }
        requires moment { now < 2 ^ 94 }
        requires keys_clone { (x y : K) → K.is_clone x y → y ≡ x }
        requires peers_clone { (x y : P) → P.is_clone x y → y ≡ x }
        requires subscribers_clone { (x y : S) → S.is_clone x y → y ≡ x }
        ensures goes { (m : Machine K S P) → Agrees (parties K.cmp S.cmp P.cmp) self.old m
            → Goes (parties K.cmp S.cmp P.cmp) (codec K.SIZE K.bytes_of K.read_from)
            (happen (parties K.cmp S.cmp P.cmp) m now
            (event_of (codec K.SIZE K.bytes_of K.read_from) Q.keeps event))
            effects.old.items effects.new.items self.new result }
        ensures memory { result ≡ Err OutOfMemory → (m : Machine K S P)
            → Agrees (parties K.cmp S.cmp P.cmp) self.old m
            → takes_no_memory (parties K.cmp S.cmp P.cmp) m now
            (Happens (event_of (codec K.SIZE K.bytes_of K.read_from) Q.keeps event)) ≡ false }
    {
        self.advance(now, event, effects, metrics)?;
        self.scan(now, effects)
    }

    /// Takes an event.
    fn advance<Q: Predicate<K, S> + Drop>(
        &mut self,
        now: u128,
        event: Event<K, P, S, Q>,
        effects: &mut Vec<Effect<K, P, S>>,
        metrics: &mut Metrics,
    ) -> Result<(), Fault>
        requires closed { is_some self.old.fetcher.scan ≡ false }
        requires tied { IsTied (parties K.cmp S.cmp P.cmp) self.old }
        requires moment { now < 2 ^ 94 }
        requires keys_clone { (x y : K) → K.is_clone x y → y ≡ x }
        requires peers_clone { (x y : P) → P.is_clone x y → y ≡ x }
        requires subscribers_clone { (x y : S) → S.is_clone x y → y ≡ x }
        ensures goes { (m : Machine K S P) → Agrees (parties K.cmp S.cmp P.cmp) self.old m
            → Goes (parties K.cmp S.cmp P.cmp) (codec K.SIZE K.bytes_of K.read_from)
            (does (parties K.cmp S.cmp P.cmp) m now
            (event_of (codec K.SIZE K.bytes_of K.read_from) Q.keeps event))
            effects.old.items effects.new.items self.new result }
        ensures memory { result ≡ Err OutOfMemory → (m : Machine K S P)
            → Agrees (parties K.cmp S.cmp P.cmp) self.old m
            → is_passed_over (parties K.cmp S.cmp P.cmp) m now
            (event_of (codec K.SIZE K.bytes_of K.read_from) Q.keeps event) ≡ false }
    {
        match event {
            Event::Fetch(items) => self.fetch(now, items),
            Event::Retain(keep) => self.retain(&keep, effects, metrics),
            Event::PeerSet { index, peers } => self.peer_set(index, peers),
            Event::Blocked(peers) => self.block(peers),
            Event::ActiveDue => self.time_out(now, metrics),
            Event::PendingDue => Ok(()),
            Event::Verdict { number, outcome } => {
                self.verdict(now, number, outcome, effects, metrics)
            }
            Event::Served { serve, value } => self.served(now, serve, value, effects, metrics),
            Event::Net { peer, bytes } => self.net(now, peer, bytes, effects, metrics),
            Event::End => self.end(effects),
        }
    }
}
