//! What a scan does to the parts.

ghost use Rattle.std.specs.Prelude.{◌≡◌, ◌<◌, ◌^◌, false, true, not, None, Ok, Err, Some, is_some, IfErr, OnErr};
ghost use Rattle.resolver_base.specs.declared.fault.Fault.TheVariants.{OutOfMemory};
ghost use Rattle.resolver_fetch_scan.specs.Scan.{is_over};
ghost use Rattle.resolver_model_peer.specs.Parties.{parties};
ghost use Rattle.resolver_model_peer.specs.Peer.{Machine, active_deadline, is_due, scanned, wake_up};
ghost use Rattle.resolver_peer_step.specs.ScanAnswers.{Answered};
ghost use Rattle.resolver_peer_step.specs.Going.{Goes};
ghost use Rattle.resolver_peer_step.specs.Said.{codec};
ghost use Rattle.resolver_peer_step.specs.Tied.{Agrees};

use crate::counted::count_answer;
use crate::parts::Parts;
use resolver_base::{Fault, Span};
use resolver_fetch::fetcher::Answer;
use resolver_metrics::metrics::Metrics;
use resolver_model_peer::effects::Effect;
use resolver_model_peer::questions::tell_asked;

impl<K: Ord + Drop, P: Ord + Drop, S: Ord + Drop> Parts<K, P, S> {
    /// Whether a scan is open: it expects an answer.
    pub(crate) fn is_scanning(&self) -> bool
        ensures { (m : Machine K S P) → Agrees (parties K.cmp S.cmp P.cmp) self.now m
            → result ≡ not (is_over m.scan) }
    {
        self.fetcher.is_scanning()
    }

    /// When a scan may do something, if a key waits.
    pub fn pending_deadline(&self) -> Option<u128>
        ensures { (m : Machine K S P) → Agrees (parties K.cmp S.cmp P.cmp) self.now m
            → result ≡ wake_up (parties K.cmp S.cmp P.cmp) m }
    {
        self.fetcher.get_pending_deadline()
    }

    /// When the time of a request is over next, if there is a request.
    pub fn active_deadline(&self) -> Option<u128>
        ensures { (m : Machine K S P) → Agrees (parties K.cmp S.cmp P.cmp) self.now m
            → result ≡ active_deadline (parties K.cmp S.cmp P.cmp) m }
    {
        self.fetcher.get_active_deadline()
    }
}

impl<K: Span + Drop, P: Ord + Clone + Drop, S: Ord + Drop> Parts<K, P, S> {
    /// Begins a scan where the wake-up is not later than now, and tells what it asks.
    pub(crate) fn scan(
        &mut self,
        now: u128,
        effects: &mut Vec<Effect<K, P, S>>,
    ) -> Result<(), Fault>
        requires moment { now < 2 ^ 94 }
        requires closed { is_some self.old.fetcher.scan ≡ false }
        requires keys_clone { (x y : K) → K.is_clone x y → y ≡ x }
        requires peers_clone { (x y : P) → P.is_clone x y → y ≡ x }
        ensures goes { (m : Machine K S P) → Agrees (parties K.cmp S.cmp P.cmp) self.old m
            → m.scan.expects ≡ None
            → Goes (parties K.cmp S.cmp P.cmp) (codec K.SIZE K.bytes_of K.read_from)
            (Some (scanned (parties K.cmp S.cmp P.cmp) m now))
            effects.old.items effects.new.items self.new result }
        ensures memory { result ≡ Err OutOfMemory → (m : Machine K S P)
            → Agrees (parties K.cmp S.cmp P.cmp) self.old m
            → is_due now (wake_up (parties K.cmp S.cmp P.cmp) m) ≡ true }
        ensures only { IfErr result (λ fault. fault ≡ OutOfMemory) }
    {
        // Most events find that no key waits, which costs less to see than when one is due.
        if self.fetcher.len_pending() == 0 {
            return Ok(());
        }
        let Some(due) = self.pending_deadline() else {
            return Ok(());
        };
        if due > now {
            return Ok(());
        }
        let asked = self.fetcher.scan_begin(now)?;
        tell_asked(effects, asked)
    }

    /// Takes an answer to what the open scan asked, and tells what it asks now. An answer that the
    /// scan doesn't expect, or a number out of range, is refused and changes nothing. What is refused
    /// counts nothing.
    pub(crate) fn scan_answer(
        &mut self,
        answer: Answer,
        effects: &mut Vec<Effect<K, P, S>>,
        metrics: &mut Metrics,
    ) -> Result<(), Fault>
        requires keys_clone { (x y : K) → K.is_clone x y → y ≡ x }
        requires peers_clone { (x y : P) → P.is_clone x y → y ≡ x }
        ensures takes { (m : Machine K S P) → Agrees (parties K.cmp S.cmp P.cmp) self.old m
            → Answered (parties K.cmp S.cmp P.cmp) (codec K.SIZE K.bytes_of K.read_from) m answer
            effects.old.items effects.new.items self.new result }
        ensures err { OnErr result (metrics.new ≡ metrics.old) }
    {
        let asked = self.fetcher.scan_answer(answer)?;
        tell_asked(effects, asked)?;
        count_answer(&mut metrics.requests_sent, answer);
        Ok(())
    }
}
