//! Keys and fetches that the workloads have in common.

ghost use Rattle.std.specs.Prelude.{true};
ghost use Rattle.std.proofs.Common.{rules};

use crate::fault::Fault;
use resolver_base::{Faithful, PublicKey};
use resolver_fetch::fetcher::Config;
use resolver_mailbox::mailbox::Exact;
use resolver_messages::FetchKey;
use resolver_types::{NonEmptyVec, Predicate};
use std::alloc::{AllocError, Global};

/// Keeps every subscriber. No workload has a retain.
#[derive(Clone, Copy, Debug)]
pub struct All;

impl<K: Eq, S: Eq> Predicate<K, S> for All {
    ghost keeps = { λ _ _ _. true };

    fn keep(&self, _: &K, _: &S) -> bool {
        true
    }

    ghost alike = { λ q k l s t same_key same_subscriber. Prim.search rules };
}

impl Faithful for All {
    ghost clones = { λ x y is. Prim.search rules };
}

impl Exact for All {
    fn is_same(&self, _: &All) -> bool {
        true
    }
}

/// A name of a peer.
#[derive(Clone, Copy, Debug, PartialEq, Eq, PartialOrd, Ord, Hash)]
pub struct Peer(pub u16);

impl PublicKey for Peer {}

/// What a fetcher and an engine are made with.
pub const CONFIG: Config<Peer> = Config {
    me: None,
    fetch_timeout: 1,
    retry_delay: 1,
    peer_limit: None,
    priority_requests: false,
};

/// A fetch of one key, in a list with room for no other.
pub fn fetch<K: Drop, S: Drop, M: Drop>(
    alloc: Global,
    key: K,
    subscribers: NonEmptyVec<(S, u64)>,
    metadata: M,
) -> Result<Vec<FetchKey<K, S, M>>, AllocError> {
    let mut items = Vec::with_capacity(alloc, 1)?;
    items.push(FetchKey {
        key,
        subscribers,
        metadata,
    })?;
    Ok(items)
}

/// So many subscribers, from 0 on.
pub fn listed(alloc: Global, count: u16) -> Result<NonEmptyVec<(u16, u64)>, Fault> {
    let mut subscribers = NonEmptyVec::new(alloc, (0, 0))?;
    for subscriber in 1..count {
        subscribers.push((subscriber, 0))?;
    }
    Ok(subscribers)
}

/// So many peers in their order, from this one on.
pub fn named(alloc: Global, first: u16, count: u16) -> Result<Vec<Peer>, Fault> {
    let mut peers = Vec::with_capacity(alloc, usize::from(count))?;
    for peer in 0..count {
        peers.push(Peer(first.wrapping_add(peer)))?;
    }
    Ok(peers)
}

/// Keys that don't come in their order, each once.
pub fn scattered(i: u64) -> u64 {
    i.wrapping_mul(0x9e37_79b9_7f4a_7c15)
}
