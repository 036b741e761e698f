//! The scans of a fetcher.

ghost use Rattle.std.specs.Prelude.{◌≡◌, ◌≢◌, ◌+◌, ◌<◌, ◌^◌, ℕ, true, false, Ok, Err, Some, None, [], if◌then◌else◌, is_some, length, option_map, IsTrue, IfErr, IfOk, OnErr, OnOk};
ghost use Rattle.std.specs.BTreeMap.{is_at};
ghost use Rattle.std.specs.List.Sorted.{IsStrictlySortedBy};
ghost use Rattle.std.specs.Map.{lookup};
ghost use Rattle.std.specs.Map.Iter.{ShowsInOrder, deref};
ghost use Rattle.resolver_fetch_scan.specs.Trying.{apart_from, sampled};
ghost use Rattle.resolver_fetch_scan.specs.Known.{known_by, with_load};
ghost use Rattle.resolver_fetch_scan.specs.Pools.{resampled, reweighed, whole};
ghost use Rattle.resolver_fetch_requests.specs.Loads.{IsLoadedBy, fills, one_more};
ghost use Rattle.resolver_fetch_requests.specs.Requests.{is_asked};
ghost use Rattle.std.specs.BTreeMap.{insert_entry};
ghost use Rattle.resolver_priority_set.specs.Priorities.{pair_order};
ghost use Rattle.resolver_base.specs.declared.fault.Fault.TheVariants.{OutOfMemory};
ghost use Rattle.resolver_fetch_scan.specs.declared.step.Step.TheVariants.{Accept, Clear, Fail};
ghost use Rattle.resolver_fetch_scan.specs.Fetcher as calls;
ghost use Rattle.std.specs.Ordering.{nat_cmp};
ghost use Rattle.resolver_fetch_requests.specs.Ids.{is_held};
ghost use Rattle.resolver_fetch.specs.Cursor.{ExpectsNewId, IsRight, TakesNewId, opened, scan_of};
ghost use Rattle.resolver_fetch_scan.specs.Fetcher.{AsksNewId, question};
ghost use Rattle.resolver_fetch.specs.LeftPeers.{IsAtHand, pool_for, whole_for};
ghost use Rattle.resolver_fetch_scan.specs.Orders.{orders};
ghost use Rattle.resolver_fetch_waiting.specs.Queues.{placed, retry_queue};
ghost use Rattle.resolver_fetch.specs.Seeking.{first_until, next_behind, next_of, scan_at, tried_behind, tried_next, trying_key};
ghost use Rattle.resolver_fetch_scan.specs.Waiting.{place_order};
ghost use Rattle.resolver_fetch.specs.Stepping.{after_all, after_step, expecting};
ghost use Rattle.resolver_fetch_scan.specs.ScanSteps.{ask_for};
ghost use Rattle.resolver_fetch_scan.specs.TrailLaws.{AnswersRightly, BeginsRightly};

use crate::fetcher::peers::Peers;
use crate::fetcher::{Answer, Ask, Fetcher, ID};
use resolver_base::Fault;
use resolver_fetch_requests::requests::Requests;
use resolver_fetch_scan::cursor::{Cursor, put_request};
use resolver_fetch_scan::pool::Pool;
use resolver_fetch_scan::step::{Step, ask_for, step_of};
use resolver_fetch_scan::targets::Targets;
use resolver_fetch_scan::trail::{Expected, Reason, Trail};
use resolver_fetch_scan::trying::{Next, Trying};
use std::collections::BTreeMap;
use std::collections::btree_set::Range;

impl<K: Ord + Clone + Drop, P: Ord + Clone + Drop> Fetcher<K, P> {
    /// Begins a scan at this moment, where none is open, and says what it asks; nothing where it is
    /// over at once. Where memory is refused, nothing changes.
    ///
    /// The waiting keys that are due are gone over in their order, up to the first with a peer that
    /// may be asked. Where no peer may be asked at all it takes constant time; else time logarithmic
    /// in keys, and linear in the targets of the keys that it passes, but for a pass over the peers
    /// where they are new. Keys and names are cloned; clones are to equal their sources.
    pub fn scan_begin(&mut self, now: u128) -> Result<Option<Ask<K, P>>, Fault>
    where
        requires moment { now < 2 ^ 94 }
        requires closed { is_some self.old.scan ≡ false }
        requires keys_clone { (x y : K) → K.is_clone x y → y ≡ x }
        requires peers_clone { (x y : P) → P.is_clone x y → y ≡ x }
        ensures ok { OnOk result
            (self.new ≡ calls.scan_begin (orders K.cmp P.cmp) now self.old) }
        ensures asked { IfOk result (λ ask. ask ≡ question (orders K.cmp P.cmp) self.new) }
        ensures law { OnOk result
            (BeginsRightly (orders K.cmp P.cmp) now self.old self.new) }
        ensures err { OnErr result (self.new ≡ self.old) }
        ensures only { IfErr result (λ fault. fault ≡ OutOfMemory) }
    {
        let trail = Trail::new(self.alloc);
        let next = self.find(now, &trail)?;
        Ok(self.go_on(now, trail, next))
    }

    /// Takes an answer to what the open scan asked, and says what it asks now; nothing where it is
    /// over. An answer that the scan doesn't expect is `Unasked`, a number that isn't below the
    /// asked bound `OutOfRange`; then, and where memory is refused, nothing changes. Memory may be
    /// refused only where the answer is taken. The id of a request that it asks for is held by no
    /// other.
    ///
    /// It takes time logarithmic in the peers, where a request is accepted for each that was tried
    /// for its key, unless that key has no peer left: then the due keys behind it are gone over, as
    /// in `scan_begin`. Keys and names are cloned; clones are to equal their sources.
    pub fn scan_answer(&mut self, answer: Answer) -> Result<Option<Ask<K, P>>, Fault>
    where
        requires keys_clone { (x y : K) → K.is_clone x y → y ≡ x }
        requires peers_clone { (x y : P) → P.is_clone x y → y ≡ x }
        ensures ok { OnOk result
            (calls.scan_answer (orders K.cmp P.cmp) answer self.old ≡ (Ok tt, self.new)) }
        ensures asked { IfOk result (λ ask. ask ≡ question (orders K.cmp P.cmp) self.new) }
        ensures law { OnOk result
            (AnswersRightly (orders K.cmp P.cmp) answer self.old self.new) }
        ensures new_id { IfOk result (λ ask. AsksNewId (orders K.cmp P.cmp) self.new ask) }
        ensures refused { IfErr result (λ fault. fault ≢ OutOfMemory
            → calls.scan_answer (orders K.cmp P.cmp) answer self.old ≡ (Err fault, self.old)) }
        ensures takes { IfErr result (λ fault. fault ≡ OutOfMemory
            → (calls.scan_answer (orders K.cmp P.cmp) answer self.old).0 ≡ Ok tt) }
        ensures err { OnErr result (self.new ≡ self.old) }
    {
        let Some(cursor) = self.cursor.take() else {
            return Err(Fault::Unasked);
        };
        match step_of(&cursor.trying, &cursor.expects, answer) {
            Ok(step) => self.go(cursor, step),
            Err(fault) => {
                self.cursor = Some(cursor);
                Err(fault)
            }
        }
    }

    /// A scan takes a step. Where memory is refused, it stays as it was.
    fn go(&mut self, cursor: Cursor<K, P>, step: Step<P>) -> Result<Option<Ask<K, P>>, Fault>
    where
        requires keys_clone { (x y : K) → K.is_clone x y → y ≡ x }
        requires peers_clone { (x y : P) → P.is_clone x y → y ≡ x }
        requires closed { is_some self.old.scan ≡ false }
        requires right { IsRight (orders K.cmp P.cmp) self.old self.old.asked self.old.last_id
            cursor }
        requires new_id { TakesNewId self.old.asked self.old.last_id step }
        ensures ok { OnOk result (self.new
            ≡ after_step (orders K.cmp P.cmp) (scan_of cursor) cursor.trying.key step self.old) }
        ensures asked { IfOk result (λ ask. ask ≡ question (orders K.cmp P.cmp) self.new) }
        ensures new_id { IfOk result (λ ask. AsksNewId (orders K.cmp P.cmp) self.new ask) }
        ensures err { OnErr result (self.new ≡ opened cursor self.old) }
        ensures only { IfErr result (λ fault. fault ≡ OutOfMemory) }
    {
        match step {
            Step::Expect(expected) => self.expect(cursor, expected, self.last_id),
            Step::Clear(peer) => self.clear_to_send(cursor, peer),
            Step::Send(peer, id) => self.expect(cursor, Expected::Sending(peer, id), Some(id)),
            Step::Fail(peer, reason) => self.fail(cursor, peer, reason),
            Step::Accept(peer, id) => self.accept(cursor, peer, id),
        }
    }

    /// A scan expects this, and the last id is this one. Where memory is refused, it stays as it
    /// was.
    fn expect(
        &mut self,
        mut cursor: Cursor<K, P>,
        expected: Expected<P>,
        last_id: Option<ID>,
    ) -> Result<Option<Ask<K, P>>, Fault>
    where
        requires keys_clone { (x y : K) → K.is_clone x y → y ≡ x }
        requires peers_clone { (x y : P) → P.is_clone x y → y ≡ x }
        requires right { IsRight (orders K.cmp P.cmp) self.old self.old.asked self.old.last_id
            cursor }
        requires new_id { ExpectsNewId self.old.asked last_id expected }
        requires none_yet { last_id ≡ None → self.old.asked ≡ [] }
        ensures ok { OnOk result (self.new
            ≡ expecting (orders K.cmp P.cmp) (scan_of cursor) expected last_id self.old) }
        ensures asked { IfOk result (λ ask. ask ≡ question (orders K.cmp P.cmp) self.new) }
        ensures new_id { IfOk result (λ ask. AsksNewId (orders K.cmp P.cmp) self.new ask) }
        ensures err { OnErr result (self.new ≡ opened cursor self.old) }
        ensures only { IfErr result (λ fault. fault ≡ OutOfMemory) }
    {
        match ask_for(self.priority_requests, &cursor.trying, &expected) {
            Ok(ask) => {
                cursor.expects = expected;
                self.cursor = Some(cursor);
                self.last_id = last_id;
                self.pending.wake();
                Ok(Some(ask))
            }
            Err(fault) => {
                self.cursor = Some(cursor);
                Err(fault)
            }
        }
    }

    /// The peer may be sent to: the id of the request is drawn, or the next one is taken.
    fn clear_to_send(&mut self, cursor: Cursor<K, P>, peer: P) -> Result<Option<Ask<K, P>>, Fault>
    where
        requires keys_clone { (x y : K) → K.is_clone x y → y ≡ x }
        requires peers_clone { (x y : P) → P.is_clone x y → y ≡ x }
        requires closed { is_some self.old.scan ≡ false }
        requires right { IsRight (orders K.cmp P.cmp) self.old self.old.asked self.old.last_id
            cursor }
        ensures ok { OnOk result (self.new ≡ after_step (orders K.cmp P.cmp) (scan_of cursor)
            cursor.trying.key (Clear peer) self.old) }
        ensures asked { IfOk result (λ ask. ask ≡ question (orders K.cmp P.cmp) self.new) }
        ensures new_id { IfOk result (λ ask. AsksNewId (orders K.cmp P.cmp) self.new ask) }
        ensures err { OnErr result (self.new ≡ opened cursor self.old) }
        ensures only { IfErr result (λ fault. fault ≡ OutOfMemory) }
    {
        match self.last_id {
            Some(last) => {
                let id = self.requests.next_id(last);
                self.expect(cursor, Expected::Sending(peer, id), Some(id))
            }
            None => self.expect(cursor, Expected::FirstId(peer), None),
        }
    }

    /// The peer was tried in vain: the scan goes on. Where memory is refused, it stays as it was.
    fn fail(
        &mut self,
        mut cursor: Cursor<K, P>,
        peer: P,
        reason: Reason,
    ) -> Result<Option<Ask<K, P>>, Fault>
    where
        requires keys_clone { (x y : K) → K.is_clone x y → y ≡ x }
        requires peers_clone { (x y : P) → P.is_clone x y → y ≡ x }
        requires closed { is_some self.old.scan ≡ false }
        requires right { IsRight (orders K.cmp P.cmp) self.old self.old.asked self.old.last_id
            cursor }
        ensures ok { OnOk result (self.new ≡ after_step (orders K.cmp P.cmp) (scan_of cursor)
            cursor.trying.key (Fail peer reason) self.old) }
        ensures asked { IfOk result (λ ask. ask ≡ question (orders K.cmp P.cmp) self.new) }
        ensures new_id { IfOk result (λ ask. AsksNewId (orders K.cmp P.cmp) self.new ask) }
        ensures err { OnErr result (self.new ≡ opened cursor self.old) }
        ensures only { IfErr result (λ fault. fault ≡ OutOfMemory) }
    {
        if cursor.trying.is_last(&peer) {
            return self.pass(cursor, peer, reason);
        }
        if let Err(fault) = cursor.fail(&peer, reason) {
            self.cursor = Some(cursor);
            return Err(fault);
        }
        let moment = cursor.moment;
        let (trail, trying) = cursor.into_tries();
        let rest = Next::Try(trying);
        Ok(self.go_on(moment, trail, rest))
    }

    /// The last peer that was left was tried in vain: the scan goes on behind the key. Where memory
    /// is refused, it stays as it was.
    fn pass(
        &mut self,
        mut cursor: Cursor<K, P>,
        peer: P,
        reason: Reason,
    ) -> Result<Option<Ask<K, P>>, Fault>
    where
        requires keys_clone { (x y : K) → K.is_clone x y → y ≡ x }
        requires peers_clone { (x y : P) → P.is_clone x y → y ≡ x }
        requires closed { is_some self.old.scan ≡ false }
        requires right { IsRight (orders K.cmp P.cmp) self.old self.old.asked self.old.last_id
            cursor }
        requires last { length (apart_from P.cmp peer cursor.trying.left) ≡ 0 }
        ensures ok { OnOk result (self.new ≡ after_step (orders K.cmp P.cmp) (scan_of cursor)
            cursor.trying.key (Fail peer reason) self.old) }
        ensures asked { IfOk result (λ ask. ask ≡ question (orders K.cmp P.cmp) self.new) }
        ensures new_id { IfOk result (λ ask. AsksNewId (orders K.cmp P.cmp) self.new ask) }
        ensures err { OnErr result (self.new ≡ opened cursor self.old) }
        ensures only { IfErr result (λ fault. fault ≡ OutOfMemory) }
    {
        if let Err(fault) = cursor.note(&peer, reason) {
            self.cursor = Some(cursor);
            return Err(fault);
        }
        match self.find_behind(&cursor) {
            Ok(next) => {
                let moment = cursor.moment;
                Ok(self.go_on(moment, cursor.into_trail(), next))
            }
            Err(fault) => {
                cursor.trail.pop();
                self.cursor = Some(cursor);
                Err(fault)
            }
        }
    }

    /// What a scan does next where its key has no peer left. Nothing else changes.
    fn find_behind(&mut self, cursor: &Cursor<K, P>) -> Result<Next<K, P>, Fault>
    where
        requires moment { cursor.now.moment < 2 ^ 94 }
        requires keys_clone { (x y : K) → K.is_clone x y → y ≡ x }
        requires peers_clone { (x y : P) → P.is_clone x y → y ≡ x }
        ensures ok { IfOk result (λ next. next ≡ next_behind (orders K.cmp P.cmp) self.old
            cursor.now.moment cursor.now.trail
            (cursor.now.trying.place, cursor.now.trying.key)) }
        ensures ordered { IsStrictlySortedBy (pair_order place_order K.cmp) self.old.waiting }
        ensures same { self.new ≡ self.old }
        ensures only { IfErr result (λ fault. fault ≡ OutOfMemory) }
    {
        let mut at_hand = self.peers.take_pool();
        let found = self.next_behind(cursor, &mut at_hand);
        self.peers.put_pool(at_hand);
        found
    }

    /// The same, with the peers at hand.
    fn next_behind(
        &self,
        cursor: &Cursor<K, P>,
        at_hand: &mut Option<Pool<P>>,
    ) -> Result<Next<K, P>, Fault>
    where
        requires moment { cursor.now.moment < 2 ^ 94 }
        requires keys_clone { (x y : K) → K.is_clone x y → y ≡ x }
        requires peers_clone { (x y : P) → P.is_clone x y → y ≡ x }
        requires at_hand { IsAtHand (orders K.cmp P.cmp) self.now at_hand.old }
        ensures ok { IfOk result (λ next. next ≡ next_behind (orders K.cmp P.cmp) self.now
            cursor.now.moment cursor.now.trail
            (cursor.now.trying.place, cursor.now.trying.key)) }
        ensures ordered { IsStrictlySortedBy (pair_order place_order K.cmp) self.now.waiting }
        ensures at_hand { IsAtHand (orders K.cmp P.cmp) self.now at_hand.new }
        ensures only { IfErr result (λ fault. fault ≡ OutOfMemory) }
    {
        match self.seek_behind(&cursor.trying, cursor.moment, &cursor.trail, at_hand)? {
            Some(trying) => Ok(Next::Try(trying)),
            None => Ok(Next::Wait(cursor.trail.moment(cursor.moment, self.retry_delay))),
        }
    }

    /// The request is on its way, and the scan is over. Where memory is refused, it stays as it
    /// was.
    fn accept(&mut self, cursor: Cursor<K, P>, peer: P, id: ID) -> Result<Option<Ask<K, P>>, Fault>
    where
        requires keys_clone { (x y : K) → K.is_clone x y → y ≡ x }
        requires peers_clone { (x y : P) → P.is_clone x y → y ≡ x }
        requires closed { is_some self.old.scan ≡ false }
        requires right { IsRight (orders K.cmp P.cmp) self.old self.old.asked self.old.last_id
            cursor }
        requires new_id { is_held self.old.asked id ≡ false }
        requires taken { self.old.last_id ≡ Some id }
        ensures ok { OnOk result (self.new ≡ after_step (orders K.cmp P.cmp) (scan_of cursor)
            cursor.trying.key (Accept peer id) self.old) }
        ensures over { IfOk result (λ ask. ask ≡ None) }
        ensures err { OnErr result (self.new ≡ opened cursor self.old) }
        ensures only { IfErr result (λ fault. fault ≡ OutOfMemory) }
    {
        self.peers.order();
        let time = self.fetch_timeout;
        match send(&mut self.requests, &mut self.peers, &cursor, peer, id, time) {
            Ok(name) => {
                let trying = cursor.into_trying();
                self.pending.remove(&trying.pair.1, trying.is_retry);
                keep_pool(&self.targets, &mut self.peers, trying, name);
                Ok(None)
            }
            Err(fault) => {
                self.cursor = Some(cursor);
                Err(fault)
            }
        }
    }

    /// A scan of this moment that tried this does what is next, or ends where there is nothing.
    fn go_on(&mut self, moment: u128, trail: Trail<K, P>, next: Next<K, P>) -> Option<Ask<K, P>>
    where
        requires moment { moment < 2 ^ 94 }
        requires closed { is_some self.old.scan ≡ false }
        requires next { next ≡ next_of (orders K.cmp P.cmp) self.old moment trail }
        ensures after { self.new ≡ after_all (orders K.cmp P.cmp) moment trail self.old }
        ensures asked { result ≡ question (orders K.cmp P.cmp) self.new }
        ensures new_id { AsksNewId (orders K.cmp P.cmp) self.new result }
    {
        match next {
            Next::Try(trying) => {
                let bound = u128::from(trying.retries) + 4;
                self.pending.wake();
                let cursor = Cursor {
                    moment,
                    trail,
                    trying,
                    expects: Expected::Mode,
                };
                self.cursor = Some(cursor);
                Some(Ask::Draw(bound))
            }
            Next::Wait(other) => {
                self.pending.sleep(moment, other);
                None
            }
        }
    }

    /// What a scan of this moment does next after this trail. Nothing else changes.
    fn find(&mut self, moment: u128, trail: &Trail<K, P>) -> Result<Next<K, P>, Fault>
    where
        requires moment { moment < 2 ^ 94 }
        requires keys_clone { (x y : K) → K.is_clone x y → y ≡ x }
        requires peers_clone { (x y : P) → P.is_clone x y → y ≡ x }
        ensures ok { IfOk result
            (λ next. next ≡ next_of (orders K.cmp P.cmp) self.old moment trail.now) }
        ensures same { self.new ≡ self.old }
        ensures only { IfErr result (λ fault. fault ≡ OutOfMemory) }
    {
        let mut at_hand = self.peers.take_pool();
        let found = self.next_of(moment, trail, &mut at_hand);
        self.peers.put_pool(at_hand);
        found
    }

    /// The same, with the peers at hand.
    fn next_of(
        &self,
        moment: u128,
        trail: &Trail<K, P>,
        at_hand: &mut Option<Pool<P>>,
    ) -> Result<Next<K, P>, Fault>
    where
        requires moment { moment < 2 ^ 94 }
        requires keys_clone { (x y : K) → K.is_clone x y → y ≡ x }
        requires peers_clone { (x y : P) → P.is_clone x y → y ≡ x }
        requires at_hand { IsAtHand (orders K.cmp P.cmp) self.now at_hand.old }
        ensures ok { IfOk result
            (λ next. next ≡ next_of (orders K.cmp P.cmp) self.now moment trail.now) }
        ensures at_hand { IsAtHand (orders K.cmp P.cmp) self.now at_hand.new }
        ensures only { IfErr result (λ fault. fault ≡ OutOfMemory) }
    {
        match self.seek(moment, trail, at_hand)? {
            Some(trying) => Ok(Next::Try(trying)),
            None => Ok(Next::Wait(trail.moment(moment, self.retry_delay))),
        }
    }

    /// What a scan of this moment tries after this trail: the first waiting key that is due and
    /// has a peer left.
    ///
    /// It takes constant time where no peer may be asked at all, else a look at each due key that
    /// it passes, and two look-ups more.
    fn seek(
        &self,
        moment: u128,
        trail: &Trail<K, P>,
        at_hand: &mut Option<Pool<P>>,
    ) -> Result<Option<Trying<K, P>>, Fault>
    where
        requires keys_clone { (x y : K) → K.is_clone x y → y ≡ x }
        requires peers_clone { (x y : P) → P.is_clone x y → y ≡ x }
        requires at_hand { IsAtHand (orders K.cmp P.cmp) self.now at_hand.old }
        ensures ok { IfOk result (λ found. found
            ≡ tried_next (orders K.cmp P.cmp) self.now moment trail.now) }
        ensures at_hand { IsAtHand (orders K.cmp P.cmp) self.now at_hand.new }
        ensures only { IfErr result (λ fault. fault ≡ OutOfMemory) }
    {
        if self.peers().none_askable() {
            return Ok(None);
        }
        let queue = self.pending.keys().fresh().range_from(0)?;
        if let Some(found) = self.first_until(queue, false, moment, trail, at_hand)? {
            return Ok(Some(found));
        }
        self.seek_retry(moment, trail, at_hand)
    }

    /// What a scan of this moment tries after this trail of the keys behind the one that it tried.
    fn seek_behind(
        &self,
        tried: &Trying<K, P>,
        moment: u128,
        trail: &Trail<K, P>,
        at_hand: &mut Option<Pool<P>>,
    ) -> Result<Option<Trying<K, P>>, Fault>
    where
        requires keys_clone { (x y : K) → K.is_clone x y → y ≡ x }
        requires peers_clone { (x y : P) → P.is_clone x y → y ≡ x }
        requires at_hand { IsAtHand (orders K.cmp P.cmp) self.now at_hand.old }
        ensures ok { IfOk result (λ found. found ≡ tried_behind (orders K.cmp P.cmp) self.now
            (tried.now.place, tried.now.key) (scan_at moment trail.now)) }
        ensures ordered { IsStrictlySortedBy (pair_order place_order K.cmp) self.now.waiting }
        ensures at_hand { IsAtHand (orders K.cmp P.cmp) self.now at_hand.new }
        ensures only { IfErr result (λ fault. fault ≡ OutOfMemory) }
    {
        let keys = self.pending.keys();
        keys.law();
        if tried.is_retry {
            let behind = keys.retry().range_after(&tried.pair);
            return self.first_until(behind, true, moment, trail, at_hand);
        }
        let behind = keys.fresh().range_after(&tried.pair);
        if let Some(found) = self.first_until(behind, false, moment, trail, at_hand)? {
            return Ok(Some(found));
        }
        self.seek_retry(moment, trail, at_hand)
    }

    /// The first key that is tried again, is due and has a peer left after this trail.
    fn seek_retry(
        &self,
        moment: u128,
        trail: &Trail<K, P>,
        at_hand: &mut Option<Pool<P>>,
    ) -> Result<Option<Trying<K, P>>, Fault>
    where
        requires keys_clone { (x y : K) → K.is_clone x y → y ≡ x }
        requires peers_clone { (x y : P) → P.is_clone x y → y ≡ x }
        requires at_hand { IsAtHand (orders K.cmp P.cmp) self.now at_hand.old }
        ensures ok { IfOk result (λ found. found ≡ first_until (orders K.cmp P.cmp) self.now
            trail.now moment (placed true (retry_queue self.now.waiting))) }
        ensures at_hand { IsAtHand (orders K.cmp P.cmp) self.now at_hand.new }
        ensures only { IfErr result (λ fault. fault ≡ OutOfMemory) }
    {
        let queue = self.pending.keys().retry().range_from(0)?;
        self.first_until(queue, true, moment, trail, at_hand)
    }

    /// The first of these keys of a queue, up to a moment, that has a peer left after this trail.
    fn first_until(
        &self,
        queue: Range<'_, (u128, K)>,
        is_retry: bool,
        moment: u128,
        trail: &Trail<K, P>,
        at_hand: &mut Option<Pool<P>>,
    ) -> Result<Option<Trying<K, P>>, Fault>
    where
        requires keys_clone { (x y : K) → K.is_clone x y → y ≡ x }
        requires peers_clone { (x y : P) → P.is_clone x y → y ≡ x }
        requires ordered { IsStrictlySortedBy (pair_order nat_cmp K.cmp) queue }
        requires runs { ShowsInOrder (deref {X = ℕ × K}) }
        requires at_hand { IsAtHand (orders K.cmp P.cmp) self.now at_hand.old }
        ensures ok { IfOk result (λ found. found ≡ first_until (orders K.cmp P.cmp) self.now
            trail.now moment (placed is_retry queue.entry)) }
        ensures at_hand { IsAtHand (orders K.cmp P.cmp) self.now at_hand.new }
        ensures only { IfErr result (λ fault. fault ≡ OutOfMemory) }
    {
        for pair in queue {
            if pair.0 > moment {
                return Ok(None);
            }
            let trying = self.trying(pair, is_retry, trail, at_hand)?;
            if trying.count() > 0 {
                return Ok(Some(trying));
            }
        }
        Ok(None)
    }

    /// What there is to try of a waiting key after this trail.
    fn trying(
        &self,
        pair: &(u128, K),
        is_retry: bool,
        trail: &Trail<K, P>,
        at_hand: &mut Option<Pool<P>>,
    ) -> Result<Trying<K, P>, Fault>
    where
        requires keys_clone { (x y : K) → K.is_clone x y → y ≡ x }
        requires peers_clone { (x y : P) → P.is_clone x y → y ≡ x }
        requires at_hand { IsAtHand (orders K.cmp P.cmp) self.now at_hand.old }
        ensures ok { IfOk result (λ trying. trying ≡ trying_key (orders K.cmp P.cmp) self.now
            trail.now (record { is_retry = is_retry; due = pair.now.0 }, pair.now.1)) }
        ensures at_hand { IsAtHand (orders K.cmp P.cmp) self.now at_hand.new }
        ensures only { IfErr result (λ fault. fault ≡ OutOfMemory) }
    {
        let (due, key) = pair;
        let again = key.clone()?;
        let pool = self.pool_for(key, trail, at_hand)?;
        Ok(Trying {
            is_retry,
            pair: (*due, again),
            retries: self.retries(key),
            pool,
        })
    }

    /// The peers that may be asked for a key, and of them those that are left after this trail.
    fn pool_for(
        &self,
        key: &K,
        trail: &Trail<K, P>,
        at_hand: &mut Option<Pool<P>>,
    ) -> Result<Pool<P>, Fault>
    where
        requires peers_clone { (x y : P) → P.is_clone x y → y ≡ x }
        requires at_hand { IsAtHand (orders K.cmp P.cmp) self.now at_hand.old }
        ensures ok { IfOk result
            (λ pool. pool ≡ pool_for (orders K.cmp P.cmp) self.now trail.now key.now) }
        ensures at_hand { IsAtHand (orders K.cmp P.cmp) self.now at_hand.new }
        ensures only { IfErr result (λ fault. fault ≡ OutOfMemory) }
    {
        let mut pool = self.peers_for(key, at_hand)?;
        for peer in trail.tried(key) {
            pool.forget(peer)?;
        }
        Ok(pool)
    }

    /// The peers that may be asked for a key: where it has no targets those at hand, else a few of
    /// their own.
    fn peers_for(&self, key: &K, at_hand: &mut Option<Pool<P>>) -> Result<Pool<P>, Fault>
    where
        requires peers_clone { (x y : P) → P.is_clone x y → y ≡ x }
        requires at_hand { IsAtHand (orders K.cmp P.cmp) self.now at_hand.old }
        ensures ok { IfOk result
            (λ pool. pool ≡ whole_for (orders K.cmp P.cmp) self.now key.now) }
        ensures at_hand { IsAtHand (orders K.cmp P.cmp) self.now at_hand.new }
        ensures only { IfErr result (λ fault. fault ≡ OutOfMemory) }
    {
        self.peers().pool_for(self.targets.get(key), at_hand)
    }
}

/// Puts the request that a scan sent, and counts it for its peer where that is limited, whose name it
/// answers if the request fills it. Where memory is refused, nothing changes.
///
/// The name is cloned; clones are to equal their sources.
fn send<K: Ord + Clone + Drop, P: Ord + Clone + Drop>(
    requests: &mut Requests<K, P>,
    peers: &mut Peers<P>,
    cursor: &Cursor<K, P>,
    peer: P,
    id: ID,
    timeout: u128,
) -> Result<Option<P>, Fault>
    requires moment { cursor.now.moment < 2 ^ 94 }
    requires timeout { timeout < 2 ^ 94 }
    requires keys_clone { (x y : K) → K.is_clone x y → y ≡ x }
    requires peers_clone { (x y : P) → P.is_clone x y → y ≡ x }
    requires new_id { is_held requests.old id ≡ false }
    requires new_key { is_asked K.cmp requests.old cursor.now.trying.key ≡ false }
    requires loaded { IsLoadedBy P.cmp requests.old (known_by P.cmp peers.old).load }
    ensures ok { OnOk result (requests.new ≡ insert_entry nat_cmp requests.old id (record {
      key = cursor.now.trying.key;
      peer = peer;
      start = cursor.now.moment;
      deadline = cursor.now.moment + timeout;
    })) }
    ensures counted { OnOk result (known_by P.cmp peers.new
        ≡ with_load (option_map (one_more P.cmp peer)) (known_by P.cmp peers.old)) }
    ensures name { IfOk result
        (λ name. name ≡ (if fills P.cmp peer peers.old.counts then Some peer else None)) }
    ensures err { OnErr result (requests.new ≡ requests.old) }
    ensures err_peers { OnErr result (known_by P.cmp peers.new ≡ known_by P.cmp peers.old) }
    ensures only { IfErr result (λ fault. fault ≡ OutOfMemory) }
{
    let _count = requests.len();
    if !peers.is_limited() {
        put_request(requests, cursor, peer, id, timeout)?;
        return Ok(None);
    }
    let name = peer.clone()?;
    let fills = peers.sent(&name)?;
    match put_request(requests, cursor, peer, id, timeout) {
        Ok(()) => Ok(fills.then_some(name)),
        Err(fault) => {
            peers.freed(&name);
            Err(fault)
        }
    }
}

/// Keeps the peers that a key was tried with which any key without targets is drawn from. This one
/// was sent a request meanwhile, if there is one.
fn keep_pool<K: Ord + Drop, P: Ord + Drop>(
    targets: &BTreeMap<K, Targets<P>>,
    peers: &mut Peers<P>,
    trying: Trying<K, P>,
    sent: Option<P>,
)
    requires all { lookup (is_at (K.cmp trying.key)) targets.now.entries ≡ None
        → sampled P.cmp (known_by P.cmp peers.old)
        ≡ resampled P.cmp (known_by P.cmp peers.old) sent trying.all }
    ensures { peers.new ≡ peers.old }
{
    if targets.contains_key(&trying.pair.1) {
        return;
    }
    let mut pool = trying.pool;
    resample(&mut pool, peers, sent);
    peers.put_pool(Some(pool));
}

/// All peers of a pool are left again. This one weighs what it weighs now, if there is one.
fn resample<P: Ord + Drop>(pool: &mut Pool<P>, peers: &Peers<P>, sent: Option<P>)
    ensures { pool.new ≡ whole (resampled P.cmp (known_by P.cmp peers.now) sent pool.old.all) }
{
    pool.restore();
    if let Some(peer) = sent {
        set_weight(pool, &peer, peers.weight(&peer));
    }
}

/// The peer weighs this, if it is in the set.
fn set_weight<P: Ord + Drop>(pool: &mut Pool<P>, peer: &P, weight: Option<u64>)
    ensures { pool.new ≡ reweighed P.cmp peer.now weight pool.old }
{
    if let Some(weight) = weight {
        pool.set(peer, weight);
    }
}
