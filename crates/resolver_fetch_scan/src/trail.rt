//! What a scan tried, and what it expects.

ghost use Rattle.std.specs.Prelude.{◌≡◌, ◌<◌, ◌^◌, List, [], ◌∷◌, ◌++◌, IfErr, OnErr, OnOk};
ghost use Rattle.std.specs.BTreeMap.{is_at};
ghost use Rattle.std.specs.Map.{lookup};
ghost use Rattle.std.specs.Option.{option_map_or};
ghost use Rattle.std.specs.Ordering.{is_eq};
ghost use Rattle.resolver_base.specs.declared.fault.Fault.TheVariants.{OutOfMemory};
ghost use Rattle.resolver_fetch_scan.specs.declared.trail.Try.{Try};
ghost use Rattle.resolver_fetch_scan.specs.Scan.{least, least_until, limit_of, trail_moment};
ghost use Rattle.resolver_fetch_scan.specs.Tried.{noted, peers_tried};

use resolver_base::Fault;
use resolver_fetch_requests::requests::ID;
use std::alloc::{AllocError, Global};
use std::collections::BTreeMap;
use std::marker::Model;

/// Why a peer was not asked for a key.
#[derive(Clone, Copy)]
pub enum Reason {
    /// It may not be sent to before this moment, in nanoseconds.
    Limited(u128),
    /// The request was refused.
    Refused,
}

impl Reason {
    /// The moment before which the peer may not be sent to, if that was the reason.
    fn limit(self) -> Option<u128>
        ensures { result ≡ limit_of self }
    {
        match self {
            Reason::Limited(until) => Some(until),
            Reason::Refused => None,
        }
    }
}

/// A peer that was tried for a key in vain.
#[derive(Drop)]
pub struct Try<K, P> {
    /// The key.
    pub key: K,
    /// Who was tried for it.
    pub peer: P,
    /// Why it was not asked.
    pub reason: Reason,
}

/// What a scan expects.
#[derive(Drop)]
pub enum Expected<P> {
    /// A number that says how the peer is drawn.
    Mode,
    /// The number that draws it by weight.
    ByWeight,
    /// The number that draws it by place.
    ByPlace,
    /// A word on this peer.
    Checking(P),
    /// The first id ever, for a request to this peer.
    FirstId(P),
    /// A word on the request to this peer, under this id.
    Sending(P, ID),
}

/// What a scan tried in vain. Contracts see it as the list of its tries.
///
/// A call on one key takes time logarithmic in the number of keys that were tried.
#[derive(Drop)]
pub struct Trail<K: Ord, P> {
    tries: Vec<Try<K, P>>,
    /// Whom they name for each key, in their order.
    peers: BTreeMap<K, Vec<P>>,
    alloc: Global,
}

impl<K: Ord, P> Model for Trail<K, P> {
    ghost use Rattle.std.specs.Prelude.{◌≡◌, List, []};
    ghost use Rattle.std.specs.BTreeMap.{is_at};
    ghost use Rattle.std.specs.Map.{lookup};
    ghost use Rattle.std.specs.Option.{option_map_or};
    ghost use Rattle.resolver_fetch_scan.specs.Tried.{peers_tried};
    ghost use Rattle.resolver_fetch_scan.specs.declared.trail.Try.{Try};

    ghost Value = { List (Try K P) };

    ghost view = { λ a. a.tries.items };

    ghost invariant = { λ a. (key : K)
        → option_map_or (λ peers. peers.items) (lookup (is_at (K.cmp key)) a.peers.entries) []
        ≡ peers_tried K.cmp a.tries.items key };
}

impl<K: Ord + Drop, P: Drop> Trail<K, P> {
    /// Nothing was tried.
    pub fn new(alloc: Global) -> Self
        ensures { result ≡ [] }
    {
        Trail {
            tries: Vec::new(alloc),
            peers: BTreeMap::new(alloc),
            alloc,
        }
    }

    /// Forgets all of it.
    pub fn clear(&mut self)
        ensures { self.new ≡ [] }
    {
        self.tries.clear();
        self.peers.clear();
    }

    /// Notes a try. Where memory is refused, nothing changes.
    pub fn push(&mut self, key: K, peer: P, reason: Reason) -> Result<(), Fault>
    where
        K: Clone,
        P: Clone,
        requires keys_clone { (x y : K) → K.is_clone x y → y ≡ x }
        requires peers_clone { (x y : P) → P.is_clone x y → y ≡ x }
        ensures ok { OnOk result
            (self.new ≡ self.old ++ record { key = key; peer = peer; reason = reason } ∷ []) }
        ensures err { OnErr result (self.new ≡ self.old) }
        ensures only { IfErr result (λ fault. fault ≡ OutOfMemory) }
    {
        self.tries.reserve(1)?;
        let named = key.clone()?;
        let again = peer.clone()?;
        note(self.alloc, &mut self.peers, named, again)?;
        self.tries.push_reserved(Try { key, peer, reason });
        Ok(())
    }

    /// Takes back the last try.
    pub fn pop(&mut self)
        ensures { (before : List (Try K P)) (last : Try K P)
            → self.old ≡ before ++ last ∷ [] → self.new ≡ before }
    {
        let Some(last) = self.tries.pop() else {
            return;
        };
        if let Some(peers) = self.peers.get_mut(&last.key) {
            peers.pop();
        }
    }

    /// The peers that were tried for a key, in the order of the tries.
    pub fn tried(&self, key: &K) -> &[P]
        ensures { result.now ≡ peers_tried K.cmp self.now key.now }
    {
        match self.peers.get(key) {
            Some(peers) => peers.as_slice(),
            None => &[],
        }
    }

    /// When what was tried may be tried again, if anything was tried: at the least limit, or after
    /// the delay where there were refusals alone. Moments and delay are in nanoseconds, and below
    /// 2^94. It takes time linear in what was tried.
    pub fn moment(&self, now: u128, delay: u128) -> Option<u128>
        requires now { now < 2 ^ 94 }
        requires delay { delay < 2 ^ 94 }
        ensures { result ≡ trail_moment delay now self.now }
    {
        if self.tries.is_empty() {
            return None;
        }
        match least_until(&self.tries) {
            Some(limit) => Some(limit),
            None => Some(now + delay),
        }
    }
}

/// Notes that a peer was tried for a key. Where memory is refused, the same peers are named.
fn note<K: Ord + Drop, P: Drop>(
    alloc: Global,
    peers: &mut BTreeMap<K, Vec<P>>,
    key: K,
    peer: P,
) -> Result<(), AllocError>
    ensures ok { OnOk result ((other : K)
        → option_map_or (λ ps. ps.items) (lookup (is_at (K.cmp other)) peers.new.entries) []
        ≡ noted (is_eq (K.cmp other key)) peer
        (option_map_or (λ ps. ps.items) (lookup (is_at (K.cmp other)) peers.old.entries) [])) }
    ensures err { OnErr result ((other : K)
        → option_map_or (λ ps. ps.items) (lookup (is_at (K.cmp other)) peers.new.entries) []
        ≡ option_map_or (λ ps. ps.items) (lookup (is_at (K.cmp other)) peers.old.entries) []) }
{
    if let Some(there) = peers.get_mut(&key) {
        there.push(peer)?;
        return Ok(());
    }
    let mut first = Vec::new(alloc);
    first.push(peer)?;
    peers.insert(key, first)?;
    Ok(())
}

/// The least moment until which a peer may not be sent to, if there is one.
fn least_until<K, P>(trail: &[Try<K, P>]) -> Option<u128>
    ensures { result ≡ least_until trail.now }
{
    let mut limit = None;
    for tried in trail {
        limit = least(limit, tried.reason.limit());
    }
    limit
}

/// The lesser of two moments, or the one that there is.
pub fn least(moment: Option<u128>, later: Option<u128>) -> Option<u128>
    ensures { result ≡ least moment later }
{
    match moment {
        Some(first) => match later {
            Some(second) => Some(first.min(second)),
            None => Some(first),
        },
        None => later,
    }
}
