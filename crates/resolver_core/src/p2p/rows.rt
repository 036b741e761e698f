//! The demanded keys: who wants each, of whom it may be asked, and what is being done for it.

ghost use Rattle.std.specs.Prelude.{◌≡◌, ◌<◌, true, length, map, IfErr, IfOk, IfSome};
ghost use Rattle.std.specs.List.{IsDistinct};
ghost use Rattle.std.specs.List.Sorted.{IsStrictlySortedBy};
ghost use Rattle.std.specs.Ordering.{is_eq};
ghost use Rattle.resolver_types.specs.Names.{names};
ghost use Rattle.resolver_types.specs.Table.{is_asked};
ghost use Rattle.resolver_base.specs.declared.fault.Fault.TheVariants.{OutOfMemory};
ghost use Rattle.resolver_model_peer.specs.Parties.{parties};
ghost use Rattle.resolver_model_peer.specs.Peer.{Machine, row_of};
ghost use Rattle.resolver_peer_step.specs.Going.{IsTied};
ghost use Rattle.resolver_core.specs.Listed.{listed, listed_phase, listed_row};
ghost use Rattle.resolver_peer_step.specs.Tied.{Agrees};

use resolver_base::Fault;
use resolver_demand::subscribers::Subscribers;
use resolver_peer_step::parts::Parts;
use resolver_types::NonEmptyVec;
use std::marker::Model;

/// What is being done for a demanded key.
#[derive(Debug, Drop)]
pub enum Phase<P> {
    /// It may be asked for once this moment has come, in nanoseconds.
    Waiting {
        /// Whether it is tried again: fresh keys are asked for before.
        is_retry: bool,
        due: u128,
    },
    /// The peer was asked for it, under this id.
    Asked {
        id: u64,
        peer: P,
        /// When its time is over, in nanoseconds.
        deadline: u128,
    },
    /// A response was handed out under this number, and has no verdict yet.
    Judged {
        number: u64,
    },
}

/// The peers that may be asked for a key, in the order in which they were added.
#[derive(Debug, Drop)]
pub struct Targets<P> {
    peers: Vec<P>,
}

impl<P> Model for Targets<P> {
    ghost use Rattle.std.specs.Prelude.{List};

    ghost Value = { List P };

    ghost view = { λ a. a.peers.items };
}

impl<P> Targets<P> {
    /// The peers in their order.
    pub fn as_slice(&self) -> &[P]
        ensures { result.now ≡ self.now }
    {
        self.peers.as_slice()
    }
}

/// A demanded key.
#[derive(Debug, Drop)]
pub struct Row<K, S, P> {
    /// The data that is wanted.
    pub key: K,
    /// Who wants it, in the order of the subscribers, with their trace marks.
    pub subscribers: NonEmptyVec<(S, u64)>,
    /// Who may be asked for it, if not any peer.
    pub targets: Option<Targets<P>>,
    /// How often it was put back to be tried again, at most `u32::MAX`.
    pub retries: u32,
    /// What is being done for it.
    pub phase: Phase<P>,
}

/// The demanded keys, in their order. It takes time linear in what is listed, times a
/// logarithm.
pub(crate) fn rows<K: Ord + Clone + Drop, P: Ord + Clone + Drop, S: Ord + Clone + Drop>(
    parts: &Parts<K, P, S>,
) -> Result<Vec<Row<K, S, P>>, Fault>
    requires keys_clone { (x y : K) → K.is_clone x y → y ≡ x }
    requires peers_clone { (x y : P) → P.is_clone x y → y ≡ x }
    requires subscribers_clone { (x y : S) → S.is_clone x y → y ≡ x }
    requires tied { IsTied (parties K.cmp S.cmp P.cmp) parts.now }
    ensures rows { (m : Machine K S P) → Agrees (parties K.cmp S.cmp P.cmp) parts.now m
        → IfOk result (λ rows. rows.items ≡ map listed m.rows) }
    ensures once { IfOk result
        (λ rows. IsDistinct (λ k l. is_eq (K.cmp k l)) (map (λ row. row.key) rows.items)) }
    ensures ordered { IfOk result
        (λ rows. IsStrictlySortedBy K.cmp (map (λ row. row.key) rows.items)) }
    ensures only { IfErr result (λ fault. fault ≡ OutOfMemory) }
{
    let mut list = Vec::with_capacity(parts.alloc, parts.demand.len())?;
    for (key, subscribers) in parts.demand.iter() {
        list.push(listed(parts, key, subscribers)?)?;
    }
    Ok(list)
}

/// The row of a key, if it is demanded. It takes time logarithmic in the keys, and linear in what is listed.
pub(crate) fn find<K: Ord + Clone + Drop, P: Ord + Clone + Drop, S: Ord + Clone + Drop>(
    parts: &Parts<K, P, S>,
    key: &K,
) -> Result<Option<Row<K, S, P>>, Fault>
    requires keys_clone { (x y : K) → K.is_clone x y → y ≡ x }
    requires peers_clone { (x y : P) → P.is_clone x y → y ≡ x }
    requires subscribers_clone { (x y : S) → S.is_clone x y → y ≡ x }
    requires tied { IsTied (parties K.cmp S.cmp P.cmp) parts.now }
    ensures row { (m : Machine K S P) → Agrees (parties K.cmp S.cmp P.cmp) parts.now m
        → IfOk result (λ row. row ≡ listed_row (parties K.cmp S.cmp P.cmp) m key.now) }
    ensures only { IfErr result (λ fault. fault ≡ OutOfMemory) }
{
    match parts.demand.get(key) {
        Some(subscribers) => Ok(Some(listed(parts, key, subscribers)?)),
        None => Ok(None),
    }
}

/// The row of a demanded key with these subscribers.
fn listed<K: Ord + Clone + Drop, P: Ord + Clone + Drop, S: Ord + Clone + Drop>(
    parts: &Parts<K, P, S>,
    key: &K,
    subscribers: &Subscribers<S>,
) -> Result<Row<K, S, P>, Fault>
    requires keys_clone { (x y : K) → K.is_clone x y → y ≡ x }
    requires peers_clone { (x y : P) → P.is_clone x y → y ≡ x }
    requires subscribers_clone { (x y : S) → S.is_clone x y → y ≡ x }
    requires tied { IsTied (parties K.cmp S.cmp P.cmp) parts.now }
    requires wanted { is_asked (names K.cmp S.cmp) parts.now.demand key.now ≡ true }
    requires some { 0 < length subscribers.now }
    ensures row { (m : Machine K S P) → Agrees (parties K.cmp S.cmp P.cmp) parts.now m
        → IfSome (row_of (parties K.cmp S.cmp P.cmp) m key.now)
        (λ row. subscribers.now ≡ row.subscribers
        → IfOk result (λ shown. shown ≡ listed (key.now, row))) }
    ensures only { IfErr result (λ fault. fault ≡ OutOfMemory) }
{
    let Ok(subscribers) = NonEmptyVec::try_from(subscribers.copied(parts.alloc)?) else {
        unreachable!()
    };
    Ok(Row {
        key: key.clone()?,
        subscribers,
        targets: listed_targets(parts, key)?,
        retries: parts.fetcher.retries(key),
        phase: listed_phase(parts, key)?,
    })
}

/// The peers that may be asked for a key, if they are limited to some.
fn listed_targets<K: Ord + Clone + Drop, P: Ord + Clone + Drop, S: Ord + Clone + Drop>(
    parts: &Parts<K, P, S>,
    key: &K,
) -> Result<Option<Targets<P>>, Fault>
    requires peers_clone { (x y : P) → P.is_clone x y → y ≡ x }
    ensures targets { (m : Machine K S P) → Agrees (parties K.cmp S.cmp P.cmp) parts.now m
        → IfSome (row_of (parties K.cmp S.cmp P.cmp) m key.now)
        (λ row. IfOk result (λ targets. targets ≡ row.targets)) }
    ensures only { IfErr result (λ fault. fault ≡ OutOfMemory) }
{
    let Some(peers) = parts.fetcher.targets(key) else {
        return Ok(None);
    };
    Ok(Some(Targets {
        peers: peers.to_vec(parts.alloc)?,
    }))
}

/// What is being done for a demanded key.
fn listed_phase<K: Ord + Clone + Drop, P: Ord + Clone + Drop, S: Ord + Clone + Drop>(
    parts: &Parts<K, P, S>,
    key: &K,
) -> Result<Phase<P>, Fault>
    requires peers_clone { (x y : P) → P.is_clone x y → y ≡ x }
    requires tied { IsTied (parties K.cmp S.cmp P.cmp) parts.now }
    requires wanted { is_asked (names K.cmp S.cmp) parts.now.demand key.now ≡ true }
    ensures phase { (m : Machine K S P) → Agrees (parties K.cmp S.cmp P.cmp) parts.now m
        → IfSome (row_of (parties K.cmp S.cmp P.cmp) m key.now)
        (λ row. IfOk result (λ phase. phase ≡ listed_phase row.phase)) }
    ensures only { IfErr result (λ fault. fault ≡ OutOfMemory) }
{
    if let Some(place) = parts.fetcher.place(key) {
        return Ok(Phase::Waiting {
            is_retry: place.is_retry,
            due: place.due,
        });
    }
    if let Some((id, request)) = parts.fetcher.request(key) {
        return Ok(Phase::Asked {
            id,
            peer: request.peer.clone()?,
            deadline: request.deadline,
        });
    }
    let Some(number) = parts.entries.number(key) else {
        unreachable!()
    };
    Ok(Phase::Judged { number })
}
