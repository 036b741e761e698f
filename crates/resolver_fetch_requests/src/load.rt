//! How many requests without an answer each peer has, where that is limited.

ghost use Rattle.std.specs.Prelude.{◌≡◌, ◌+◌, ◌<◌, ◌^◌, [], Some, IfErr, IfOk, OnErr, OnOk};
ghost use Rattle.std.specs.NonZero.{non_zero_u32_get};
ghost use Rattle.resolver_base.specs.declared.fault.Fault.TheVariants.{OutOfMemory};
ghost use Rattle.resolver_fetch_requests.specs.Loads.{counted, fills, frees, is_full, loaded, one_fewer, one_more};

use resolver_base::Fault;
use std::alloc::Global;
use std::collections::BTreeMap;
use std::marker::Model;
use std::num::NonZeroU32;

/// How many requests one peer may have, and how many each has.
///
/// A peer is counted from its first request on, and stays so at 0 when its last one ends, until
/// `tidy`. A call takes one look-up, in time logarithmic in the number of peers that are counted;
/// where a peer is not counted yet, its first request takes one more.
#[derive(Drop)]
pub struct Load<P: Ord> {
    limit: NonZeroU32,
    /// Of the peers that are counted: of some it may be 0.
    counts: BTreeMap<P, u64>,
}

impl<P: Ord> Model for Load<P> {
    ghost use Rattle.std.specs.NonZero.{non_zero_u32_get};
    ghost use Rattle.resolver_fetch_requests.specs.Loads.{Counts};

    ghost Value = { Counts P };

    ghost view = { λ a. record {
      limit = non_zero_u32_get a.limit;
      counts = a.counts.entries;
    } };
}

impl<P: Ord + Drop> Load<P> {
    /// No peer has a request.
    pub fn new(alloc: Global, limit: NonZeroU32) -> Self
        ensures { result ≡ record { limit = non_zero_u32_get limit; counts = [] } }
    {
        Load {
            limit,
            counts: BTreeMap::new(alloc),
        }
    }

    /// Whether a peer has as many requests as it may have.
    pub fn is_full(&self, peer: &P) -> bool
        ensures { result ≡ is_full (Some (loaded P.cmp self.now)) peer.now }
    {
        self.count(peer) >= u64::from(self.limit.get())
    }

    /// A peer has one more. Says whether it is full now and was not before. Where memory is refused,
    /// nothing changes.
    pub fn add(&mut self, peer: P) -> Result<bool, Fault>
        requires room { counted P.cmp self.old.counts peer + 1 < 2 ^ 64 }
        ensures ok { OnOk result
            (loaded P.cmp self.new ≡ one_more P.cmp peer (loaded P.cmp self.old)) }
        ensures fills { IfOk result (λ is. is ≡ fills P.cmp peer (Some self.old)) }
        ensures err { OnErr result (self.new ≡ self.old) }
        ensures only { IfErr result (λ fault. fault ≡ OutOfMemory) }
    {
        let limit = u64::from(self.limit.get());
        if let Some(count) = self.counts.get_mut(&peer) {
            *count += 1;
            return Ok(*count == limit);
        }
        self.counts.insert(peer, 1)?;
        Ok(limit == 1)
    }

    /// A peer has one fewer, if it has one. Says whether it was full before and is not now.
    pub fn remove(&mut self, peer: &P) -> bool
        ensures fewer { loaded P.cmp self.new ≡ one_fewer P.cmp peer.now (loaded P.cmp self.old) }
        ensures frees { result ≡ frees P.cmp peer.now (Some self.old) }
    {
        let Some(count) = self.counts.get_mut(peer) else {
            return false;
        };
        let before = *count;
        *count = before.saturating_sub(1);
        before == u64::from(self.limit.get())
    }

    /// Forgets the peers that have none, in time linear in those that are counted. It takes no memory.
    pub fn tidy(&mut self)
        ensures { loaded P.cmp self.new ≡ loaded P.cmp self.old }
    {
        self.counts.retain(|_, count| *count > 0);
    }

    /// How many a peer has.
    fn count(&self, peer: &P) -> u64
        ensures { result ≡ counted P.cmp self.now.counts peer.now }
    {
        match self.counts.get(peer) {
            Some(count) => *count,
            None => 0,
        }
    }
}
