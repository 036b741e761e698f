//! What a fetch does to the parts.

ghost use Rattle.std.specs.Prelude.{◌≡◌, ◌<◌, ◌^◌, false, is_some, map, IfErr, OnOk};
ghost use Rattle.resolver_base.specs.declared.fault.Fault.TheVariants.{OutOfMemory};
ghost use Rattle.resolver_model_peer.specs.Parties.{parties};
ghost use Rattle.resolver_model_peer.specs.Peer.{Machine, fetch, fetch_one, row_of};
ghost use Rattle.resolver_peer_step.specs.Going.{IsTied};
ghost use Rattle.resolver_peer_step.specs.Said.{item_of};
ghost use Rattle.resolver_peer_step.specs.Tied.{Agrees};

use crate::parts::Parts;
use crate::targets::{aim, ready};
use resolver_base::Fault;
use resolver_messages::FetchKey;
use resolver_model_peer::inflight::Start;
use resolver_types::NonEmptyVec;

/// A key to fetch, who wants it, and the peers that may be asked, if not any.
pub type Item<K, P, S> = FetchKey<K, S, Option<NonEmptyVec<P>>>;

impl<K: Ord + Clone + Drop, P: Ord + Clone + Drop, S: Ord + Clone + Drop> Parts<K, P, S> {
    /// Takes subscribers of keys. A key that is new waits from now on.
    pub(crate) fn fetch(&mut self, now: u128, items: Vec<Item<K, P, S>>) -> Result<(), Fault>
        requires closed { is_some self.old.fetcher.scan ≡ false }
        requires tied { IsTied (parties K.cmp S.cmp P.cmp) self.old }
        requires moment { now < 2 ^ 94 }
        requires keys_clone { (x y : K) → K.is_clone x y → y ≡ x }
        requires peers_clone { (x y : P) → P.is_clone x y → y ≡ x }
        requires subscribers_clone { (x y : S) → S.is_clone x y → y ≡ x }
        ensures ok { (m : Machine K S P) → Agrees (parties K.cmp S.cmp P.cmp) self.old m
            → OnOk result (Agrees (parties K.cmp S.cmp P.cmp) self.new
            (fetch (parties K.cmp S.cmp P.cmp) m now (map item_of items.items))) }
        ensures only { IfErr result (λ fault. fault ≡ OutOfMemory) }
    {
        for item in items {
            self.fetch_one(now, item)?;
        }
        Ok(())
    }

    /// Takes subscribers of one key.
    fn fetch_one(&mut self, now: u128, item: Item<K, P, S>) -> Result<(), Fault>
        requires closed { is_some self.old.fetcher.scan ≡ false }
        requires tied { IsTied (parties K.cmp S.cmp P.cmp) self.old }
        requires moment { now < 2 ^ 94 }
        requires keys_clone { (x y : K) → K.is_clone x y → y ≡ x }
        requires peers_clone { (x y : P) → P.is_clone x y → y ≡ x }
        requires subscribers_clone { (x y : S) → S.is_clone x y → y ≡ x }
        ensures ok { (m : Machine K S P) → Agrees (parties K.cmp S.cmp P.cmp) self.old m
            → OnOk result (Agrees (parties K.cmp S.cmp P.cmp) self.new
            (fetch_one (parties K.cmp S.cmp P.cmp) m now (item_of item)
            (row_of (parties K.cmp S.cmp P.cmp) m item.key))) }
        ensures only { IfErr result (λ fault. fault ≡ OutOfMemory) }
    {
        let FetchKey {
            key,
            subscribers,
            metadata,
            ..
        } = item;
        let wanted = key.clone()?;
        let is_new = self.demand.insert(wanted, subscribers)?;
        if !is_new {
            return aim(&mut self.fetcher, key, metadata);
        }
        let tracked = key.clone()?;
        self.entries.insert_new(tracked, Start::at(now))?;
        ready(&mut self.fetcher, now, key, metadata)
    }
}
