//! Which key is asked for next, of which peer, under which id, and when to look again.
//!
//! A key that is wanted waits, fresh or to be tried again, until a scan finds a peer that takes a
//! request for it; then it is asked, until a response, word that the data is missing, or its time
//! ends that. A scan is driven by questions and answers: what an `Ask` asks, an `Answer` answers.

mod fetching;
pub mod laws;
mod peers;
mod scanning;

ghost use Rattle.std.specs.Prelude.{◌≡◌, Bool, None, false, ◌<◌, ◌^◌, filter, if◌then◌else◌, length, is_some, option_map, IfErr, IfSome, OnErr, OnOk};
ghost use Rattle.std.specs.Option.{option_copied};
ghost use Rattle.std.specs.Fn.{FnReturnsAt};
ghost use Rattle.resolver_base.specs.Answering.{AnswersBy};
ghost use Rattle.resolver_priority_set.specs.Priorities.{has_item};
ghost use Rattle.resolver_base.specs.declared.fault.Fault.TheVariants.{OutOfMemory};
ghost use Rattle.resolver_fetch_scan.specs.Fetcher as calls;
ghost use Rattle.resolver_fetch_scan.specs.Fetcher.{EachOnce, IsTimely, opening};
ghost use Rattle.resolver_fetch_scan.specs.Orders.{orders};
ghost use Rattle.resolver_fetch_waiting.specs.Pending.{awake};
ghost use Rattle.resolver_fetch_waiting.specs.Queues.{IsQueued, fresh_queue, retry_queue};
ghost use Rattle.resolver_fetch_requests.specs.Loads.{IsLoadedBy};
ghost use Rattle.resolver_fetch_requests.specs.Requests.{is_asked, request_for};
ghost use Rattle.resolver_fetch_scan.specs.Known.{known_by};
ghost use Rattle.resolver_fetch.specs.LeftPeers.{loaded_by};
ghost use Rattle.resolver_fetch_scan.specs.Snapshot.{known};
ghost use Rattle.resolver_sampling.specs.Times.{charged, elapsed_since};

use crate::fetcher::peers::Peers;
pub use fetching::answer_to;
use resolver_base::Fault;
use resolver_fetch_requests::requests::Requests;
pub use resolver_fetch_requests::requests::{ID, Request};
pub use resolver_fetch_scan::config::Config;
use resolver_fetch_scan::cursor::Cursor;
pub use resolver_fetch_scan::place::Place;
pub use resolver_fetch_scan::scan::{Answer, Ask};
use resolver_fetch_scan::targets::{Targets, join_targets};
pub use resolver_fetch_scan::{config, place, scan};
use resolver_fetch_waiting::pending::Pending;
use resolver_fetch_waiting::retries::count_retry;
use resolver_priority_set::PrioritySet;
use resolver_sampling::score::{DURATION_MAX, elapsed_since};
use resolver_sequence::sequence::Slot;
use resolver_types::NonEmptyVec;
use std::alloc::Global;
use std::collections::BTreeMap;
use std::fmt;
use std::fmt::{Formatter, Write};
use std::marker::Model;
use std::num::NonZeroU32;

/// The keys that wait or are asked for, their targets and retries, and the peers.
///
/// Moments are in nanoseconds, and below 2^94 where they are handed in. A call that names one key
/// or one peer takes time logarithmic in the number of keys and peers, unless it says otherwise.
///
/// Each key is asked for by a scan of its own, over a network and draws:
///
/// ```rust
/// let mut draws = Seeded::new(7);
/// for now in 0..count {
///     if fetcher.is_scanning() {
///         bail!("a scan is open");
///     }
///     fetcher.fetch(network, &mut draws, u128::from(now))?;
/// }
/// ```
#[derive(Drop)]
pub struct Fetcher<K: Ord, P: Ord> {
    pending: Pending<K>,
    requests: Requests<K, P>,
    targets: BTreeMap<K, Targets<P>>,
    retries: BTreeMap<K, u32>,
    peers: Peers<P>,
    fetch_timeout: u128,
    retry_delay: u128,
    peer_limit: Option<NonZeroU32>,
    priority_requests: bool,
    last_id: Option<ID>,
    /// Where the open scan stands.
    cursor: Option<Cursor<K, P>>,
    alloc: Global,
}

impl<K: Ord, P: Ord> Model for Fetcher<K, P> {
    ghost use Rattle.std.specs.NonZero.{non_zero_u32_get};
    ghost use Rattle.std.specs.Prelude.{◌≡◌, IfSome, option_map};
    ghost use Rattle.resolver_fetch.specs.Cursor.{IsKept, IsRight, scan_of};
    ghost use Rattle.resolver_fetch_scan.specs.Fetcher.{Fetcher};
    ghost use Rattle.resolver_fetch_scan.specs.Orders.{orders};
    ghost use Rattle.resolver_fetch.specs.Seeking.{searched};
    ghost use Rattle.resolver_fetch_requests.specs.Loads.{load_of};
    ghost use Rattle.resolver_fetch_scan.specs.Known.{known_by};

    ghost Value = { Fetcher K P };

    ghost view = { λ a. record {
      waiting = a.pending.keys;
      asked = a.requests;
      targets = a.targets.entries;
      retries = a.retries.entries;
      peers = a.peers.set;
      blocked = a.peers.blocked;
      configuration = record {
        me = a.peers.local;
        fetch_timeout = a.fetch_timeout;
        retry_delay = a.retry_delay;
        peer_limit = a.peer_limit;
        priority_requests = a.priority_requests;
      };
      waiter = a.pending.waiter;
      last_id = a.last_id;
      scan = option_map scan_of a.cursor;
    } };

    ghost invariant = { λ a. IsKept K.cmp a.fetch_timeout a.retry_delay a.last_id a.pending.keys a.requests
        × ((known_by P.cmp a.peers).load ≡ load_of P.cmp (option_map non_zero_u32_get a.peer_limit) a.requests)
        × IfSome a.cursor (IsRight (orders K.cmp P.cmp)
        (searched a.pending.keys a.targets.entries a.retries.entries (known_by P.cmp a.peers) (record {
          me = a.peers.local;
          fetch_timeout = a.fetch_timeout;
          retry_delay = a.retry_delay;
          peer_limit = a.peer_limit;
          priority_requests = a.priority_requests;
        }) a.requests) a.requests a.last_id) };
}

/// How many keys wait, how many requests have no answer, and whether a scan is open.
impl<K: Ord + Drop, P: Ord + Drop> fmt::Debug for Fetcher<K, P> {
    fn fmt<W: Write>(&self, f: &mut Formatter<W>) -> fmt::Result {
        f.debug_struct("Fetcher")
            .field("pending", &self.len_pending())
            .field("active", &self.len_active())
            .field("is_scanning", &self.is_scanning())
            .finish_non_exhaustive()
    }
}

impl<K: Ord + Drop, P: Ord + Drop> Fetcher<K, P> {
    /// What is known of the peers.
    fn peers(&self) -> &Peers<P>
        ensures { known_by P.cmp result.now
            ≡ known (orders K.cmp P.cmp) (calls.snapshot (orders K.cmp P.cmp) self.now) }
    {
        &self.peers
    }

    /// No key is wanted, and no peer is known.
    pub fn new(alloc: Global, config: Config<P>) -> Self
        requires { IsTimely config.fetch_timeout config.retry_delay }
        ensures { result ≡ opening config }
    {
        Fetcher {
            pending: Pending::new(alloc),
            requests: Requests::new(alloc),
            targets: BTreeMap::new(alloc),
            retries: BTreeMap::new(alloc),
            peers: Peers::new(alloc, config.me, config.peer_limit),
            fetch_timeout: config.fetch_timeout,
            retry_delay: config.retry_delay,
            peer_limit: config.peer_limit,
            priority_requests: config.priority_requests,
            last_id: None,
            cursor: None,
            alloc,
        }
    }

    /// How many keys wait.
    pub fn len_pending(&self) -> usize
        ensures { result ≡ length self.now.waiting }
    {
        self.pending.keys().len()
    }

    /// How many requests have no answer.
    pub fn len_active(&self) -> usize
        ensures { result ≡ length self.now.asked }
    {
        self.requests.len()
    }

    /// Whether this key waits.
    pub fn is_waiting(&self, key: &K) -> bool
        ensures { result ≡ has_item K.cmp self.now.waiting key.now }
    {
        self.pending.keys().contains(key)
    }

    /// Whether this key is asked for.
    pub fn is_asked(&self, key: &K) -> bool
        ensures { result ≡ is_asked K.cmp self.now.asked key.now }
    {
        self.requests.is_asked(key)
    }

    /// Where this key waits, if it waits.
    pub fn place(&self, key: &K) -> Option<Place>
        ensures value { result ≡ calls.place_of (orders K.cmp P.cmp) self.now key.now }
        ensures once { EachOnce K.cmp self.now.waiting self.now.asked }
    {
        self.pending.keys().place(key)
    }

    /// The fresh keys with their dues, in the order of dues and then of keys. It takes no memory.
    pub fn fresh_queue(&self) -> &PrioritySet<K, u128>
        ensures keys { result.now ≡ fresh_queue self.now.waiting }
        ensures whole { IsQueued self.now.waiting }
        ensures once { EachOnce K.cmp self.now.waiting self.now.asked }
    {
        self.pending.keys().fresh()
    }

    /// The keys that are tried again with their dues, in that order. It takes no memory.
    pub fn retry_queue(&self) -> &PrioritySet<K, u128>
        ensures keys { result.now ≡ retry_queue self.now.waiting }
        ensures whole { IsQueued self.now.waiting }
        ensures once { EachOnce K.cmp self.now.waiting self.now.asked }
    {
        self.pending.keys().retry()
    }

    /// The request for this key with its id, if it is asked for.
    pub fn request(&self, key: &K) -> Option<(ID, &Request<K, P>)>
        ensures value { option_map (λ r. (r.0, r.1.now)) result
            ≡ request_for K.cmp self.now.asked key.now }
        ensures once { EachOnce K.cmp self.now.waiting self.now.asked }
    {
        self.requests.get_for(key)
    }

    /// The peers that may be asked for this key, in the order in which they were added, if they are
    /// limited to some.
    pub fn targets(&self, key: &K) -> Option<&[P]>
        ensures { option_copied result ≡ calls.targets_of (orders K.cmp P.cmp) self.now key.now }
    {
        let targets = self.targets.get(key)?;
        Some(targets.listed())
    }

    /// Whether a scan is open: it expects an answer.
    pub fn is_scanning(&self) -> bool
        ensures { result ≡ is_some self.now.scan }
    {
        self.cursor.is_some()
    }

    /// Whether the peers that may be asked for this key are limited to some.
    pub fn has_targets(&self, key: &K) -> bool
        ensures { result ≡ is_some (calls.targets_of (orders K.cmp P.cmp) self.now key.now) }
    {
        self.targets.contains_key(key)
    }

    /// How often this key was put back to be tried again, at most `u32::MAX`.
    pub fn retries(&self, key: &K) -> u32
        ensures { result ≡ calls.retries_of (orders K.cmp P.cmp) self.now key.now }
    {
        match self.retries.get(key) {
            Some(retries) => *retries,
            None => 0,
        }
    }

    /// The weight with which a peer of the latest set is drawn: 0 where it is the local one, blocked,
    /// or has as many requests as it may have, else that of its score. There is none for other peers.
    pub fn weight(&self, peer: &P) -> Option<u64>
        ensures { result ≡ calls.weight (orders K.cmp P.cmp) peer.now self.now }
    {
        self.peers().weight(peer)
    }

    /// When a scan may do something, if a key waits. It takes time logarithmic in the waiting keys.
    pub fn get_pending_deadline(&self) -> Option<u128>
        ensures { result ≡ calls.pending_deadline self.now }
    {
        self.pending.deadline()
    }

    /// When the time of a request is over next, if there is a request.
    pub fn get_active_deadline(&self) -> Option<u128>
        ensures { result ≡ calls.active_deadline self.now }
    {
        self.requests.deadline()
    }

    /// Takes these peers in place of the latest set. Those that stay keep their scores. Where
    /// memory is refused, nothing changes. It takes time linear in the peers, times a logarithm.
    pub fn reconcile(&mut self, peers: Vec<P>) -> Result<(), Fault>
        requires closed { is_some self.old.scan ≡ false }
        ensures ok { OnOk result
            (self.new ≡ calls.reconcile (orders K.cmp P.cmp) peers.items self.old) }
        ensures err { OnErr result (self.new ≡ self.old) }
        ensures only { IfErr result (λ fault. fault ≡ OutOfMemory) }
    {
        self.peers.reconcile(peers)?;
        self.peers.tidy();
        self.pending.wake();
        Ok(())
    }

    /// Takes these peers as the ones that are blocked. Where memory is refused, nothing changes.
    /// It takes time linear in the peers, times a logarithm.
    pub fn set_blocked(&mut self, peers: Vec<P>) -> Result<(), Fault>
        requires closed { is_some self.old.scan ≡ false }
        ensures ok { OnOk result
            (self.new ≡ calls.set_blocked (orders K.cmp P.cmp) peers.items self.old) }
        ensures err { OnErr result (self.new ≡ self.old) }
        ensures only { IfErr result (λ fault. fault ≡ OutOfMemory) }
    {
        self.peers.set_blocked(peers)?;
        self.pending.wake();
        Ok(())
    }

    /// Has a key wait, which may be asked for at once. Where memory is refused, nothing changes.
    ///
    /// The key is cloned; clones are to equal their sources.
    #[inline]
    pub fn add_ready(&mut self, key: K, now: u128) -> Result<(), Fault>
    where
        K: Clone,
        requires closed { is_some self.old.scan ≡ false }
        requires not_waiting { has_item K.cmp self.old.waiting key ≡ false }
        requires not_asked { is_asked K.cmp self.old.asked key ≡ false }
        requires moment { now < 2 ^ 94 }
        requires keys_clone { (x y : K) → K.is_clone x y → y ≡ x }
        ensures ok { OnOk result
            (self.new ≡ calls.add_ready (orders K.cmp P.cmp) key now self.old) }
        ensures err { OnErr result (self.new ≡ self.old) }
        ensures only { IfErr result (λ fault. fault ≡ OutOfMemory) }
    {
        self.pending.put(key, Place::fresh(now))
    }

    /// Has a key wait until the retry delay is over, and counts that it is tried once more. Where
    /// memory is refused, nothing changes.
    ///
    /// The key is cloned; clones are to equal their sources.
    pub fn add_retry(&mut self, key: K, now: u128) -> Result<(), Fault>
    where
        K: Clone,
        requires closed { is_some self.old.scan ≡ false }
        requires not_waiting { has_item K.cmp self.old.waiting key ≡ false }
        requires not_asked { is_asked K.cmp self.old.asked key ≡ false }
        requires moment { now < 2 ^ 94 }
        requires keys_clone { (x y : K) → K.is_clone x y → y ≡ x }
        ensures ok { OnOk result
            (self.new ≡ calls.add_retry (orders K.cmp P.cmp) key now self.old) }
        ensures err { OnErr result (self.new ≡ self.old) }
        ensures only { IfErr result (λ fault. fault ≡ OutOfMemory) }
    {
        let place = Place::retry(now + self.retry_delay);
        count_retry(&mut self.retries, &mut self.pending, key, place)
    }

    /// Limits the peers that may be asked for a key to these and those that were given before.
    /// Where memory is refused, nothing changes. It takes time linear in all of these targets, times
    /// a logarithm.
    ///
    /// The names are cloned; clones are to equal their sources.
    pub fn add_targets(&mut self, key: K, peers: NonEmptyVec<P>) -> Result<(), Fault>
    where
        P: Clone,
        requires closed { is_some self.old.scan ≡ false }
        requires peers_clone { (x y : P) → P.is_clone x y → y ≡ x }
        ensures ok { OnOk result
            (self.new ≡ calls.add_targets (orders K.cmp P.cmp) key peers self.old) }
        ensures err { OnErr result (self.new ≡ self.old) }
        ensures only { IfErr result (λ fault. fault ≡ OutOfMemory) }
    {
        join_targets(self.alloc, &mut self.targets, key, peers.into_vec())?;
        self.pending.wake();
        Ok(())
    }

    /// Any peer may be asked for this key.
    pub fn clear_targets(&mut self, key: &K)
        requires closed { is_some self.old.scan ≡ false }
        ensures { self.new ≡ calls.clear_targets (orders K.cmp P.cmp) key.now self.old }
    {
        self.targets.remove(key);
        self.pending.wake();
    }

    /// Forgets the targets and the retries of a key.
    pub fn clear(&mut self, key: &K)
        requires closed { is_some self.old.scan ≡ false }
        requires not_waiting { has_item K.cmp self.old.waiting key.now ≡ false }
        requires not_asked { is_asked K.cmp self.old.asked key.now ≡ false }
        ensures { self.new ≡ calls.clear (orders K.cmp P.cmp) key.now self.old }
    {
        if !self.targets.is_empty() {
            self.targets.remove(key);
        }
        self.retries.remove(key);
    }

    /// Forgets the keys that aren't kept, in whatever phase they are. `keep` is pure. It takes time
    /// linear in what there is of keys, times a logarithm.
    pub fn retain<F: Fn(&K) -> bool>(&mut self, keep: F)
        requires closed { is_some self.old.scan ≡ false }
        requires callable { F.IsAlwaysCallable keep }
        requires pure { (test : K → Bool) × AnswersBy F.Fn keep test }
        ensures { (test : K → Bool) → AnswersBy F.Fn keep test
            → self.new ≡ calls.retain (orders K.cmp P.cmp) test self.old }
    {
        self.pending.retain(
            |key| -> bool
                requires { F.IsAlwaysCallable keep }
                ensures { FnReturnsAt F.Fn keep key.now result }
            { keep(key) },
        );
        free_each(&self.requests, &mut self.peers, &keep);
        self.requests.retain(
            |key| -> bool
                requires { F.IsAlwaysCallable keep }
                ensures { FnReturnsAt F.Fn keep key.now result }
            { keep(key) },
        );
        self.targets.retain(
            |key, targets| -> bool
                requires { F.IsAlwaysCallable keep }
                ensures answer { FnReturnsAt F.Fn keep key.now result }
                ensures same { targets.new ≡ targets.old }
            { keep(key) },
        );
        self.retries.retain(
            |key, retries| -> bool
                requires { F.IsAlwaysCallable keep }
                ensures answer { FnReturnsAt F.Fn keep key.now result }
                ensures same { retries.new ≡ retries.old }
            { keep(key) },
        );
    }

    /// Takes in that a peer's useful response took `elapsed` nanoseconds and had `bytes` bytes. A
    /// peer that isn't in the latest set is passed over.
    pub fn record_response(&mut self, peer: &P, elapsed: u128, bytes: u64)
        requires closed { is_some self.old.scan ≡ false }
        ensures { self.new
            ≡ calls.record_response (orders K.cmp P.cmp) peer.now elapsed bytes self.old }
    {
        self.peers.record(peer, elapsed, bytes);
    }

    /// Takes out the request whose time is over first, if it is over now, and charges its peer.
    /// Of equal deadlines the smaller id comes first.
    pub fn pop_active(&mut self, now: u128) -> Option<K>
        requires closed { is_some self.old.scan ≡ false }
        requires moment { now < 2 ^ 94 }
        ensures popped { (result, self.new) ≡ calls.pop_active (orders K.cmp P.cmp) now self.old }
        ensures idle { IfSome result (calls.IsIdle (orders K.cmp P.cmp) self.new) }
    {
        let overdue = self.requests.take_overdue(now)?;
        self.peers.freed(&overdue.peer);
        let time = charged(self.fetch_timeout, self.retry_delay);
        self.peers.record(&overdue.peer, time, 0);
        Some(overdue.key)
    }

    /// Takes out the request that a response of this peer under this id answers, and says how long
    /// it took. Where there is none, nothing changes. Where requests are limited a scan may be begun
    /// at once then: the peer may be asked again. It takes no memory.
    #[inline]
    pub fn pop_response(&mut self, id: ID, peer: &P, now: u128) -> Option<(K, u128)>
        requires closed { is_some self.old.scan ≡ false }
        requires moment { now < 2 ^ 94 }
        ensures popped { (result, self.new)
            ≡ calls.pop_response (orders K.cmp P.cmp) id peer.now now self.old }
        ensures idle { IfSome result
            (λ popped. calls.IsIdle (orders K.cmp P.cmp) self.new popped.0) }
    {
        let request = self.pop_request(id, peer)?;
        Some((request.key, elapsed_since(request.start, now)))
    }

    /// Takes out the request that a response of this peer under this id answers, as
    /// `pop_response` does, and answers the whole of it.
    #[inline]
    pub fn pop_request(&mut self, id: ID, peer: &P) -> Option<Request<K, P>>
        requires closed { is_some self.old.scan ≡ false }
        ensures popped { (result, self.new)
            ≡ calls.pop_request (orders K.cmp P.cmp) id peer.now self.old }
        ensures idle { IfSome result
            (λ request. calls.IsIdle (orders K.cmp P.cmp) self.new request.key) }
    {
        let request = self.requests.take_matching(id, peer)?;
        self.peers.freed(&request.peer);
        if self.peers.is_limited() {
            self.pending.wake();
        }
        Some(request)
    }

    /// Takes out the request that a peer answers without data, and charges the peer. Where there
    /// is none, nothing changes. It takes no memory.
    pub fn pop_missing(&mut self, id: ID, peer: &P, now: u128) -> Option<K>
        requires closed { is_some self.old.scan ≡ false }
        requires moment { now < 2 ^ 94 }
        ensures popped { (result, self.new)
            ≡ calls.pop_missing (orders K.cmp P.cmp) id peer.now now self.old }
        ensures idle { IfSome result (calls.IsIdle (orders K.cmp P.cmp) self.new) }
    {
        let missed = self.requests.take_matching(id, peer)?;
        self.peers.freed(&missed.peer);
        let time = charged(elapsed_since(missed.start, now), self.retry_delay);
        self.peers.record(&missed.peer, time, 0);
        Some(missed.key)
    }
}

/// Each peer has as many requests fewer as it has of those whose keys aren't kept.
fn free_each<K: Ord + Drop, P: Ord + Drop, F: Fn(&K) -> bool>(
    requests: &Requests<K, P>,
    peers: &mut Peers<P>,
    keep: &F,
)
    requires callable { F.IsAlwaysCallable keep.now }
    requires loaded { IsLoadedBy P.cmp requests.now (known_by P.cmp peers.old).load }
    ensures { (test : K → Bool) → AnswersBy F.Fn keep.now test → known_by P.cmp peers.new
        ≡ loaded_by P.cmp (filter (λ r. test r.1.key) requests.now) (known_by P.cmp peers.old) }
{
    if !peers.is_limited() {
        return;
    }
    for slot in requests.slots() {
        if let Slot::Held { value: request, .. } = slot {
            if !keep(&request.key) {
                peers.freed(&request.peer);
            }
        }
    }
}

/// What a peer is charged that did not help for some time.
fn charged(time: u128, delay: u128) -> u128
    requires time { time < 2 ^ 96 }
    requires delay { delay < 2 ^ 94 }
    ensures { result ≡ charged time delay }
{
    (time + delay).min(DURATION_MAX)
}
