//! The peers that may be asked for a key.

ghost use Rattle.std.specs.Prelude.{◌≡◌, [], length, unwrap_or, IfOk, OnErr, OnOk};
ghost use Rattle.std.specs.BTreeMap.{insert_entry, is_at};
ghost use Rattle.std.specs.List.Sorted.{IsStrictlySortedBy};
ghost use Rattle.std.specs.Map.{lookup};
ghost use Rattle.std.specs.Map.Iter.{ShowsInOrder, deref};
ghost use Rattle.std.specs.BTreeSet.{contains};
ghost use Rattle.resolver_types.specs.Joined.{joined_one};
ghost use Rattle.resolver_fetch_scan.specs.Orders.{is_one_of};
ghost use Rattle.resolver_fetch_scan.specs.Peers.{is_target_of, with_targets};

use std::alloc::{AllocError, Global};
use std::collections::btree_set::Iter;
use std::collections::{BTreeMap, BTreeSet};
use std::marker::Model;

/// The peers that may be asked for a key, each once, in the order in which they were added.
/// Contracts see them as that list.
#[derive(Drop)]
pub struct Targets<P: Ord> {
    listed: Vec<P>,
    /// The same peers, in their own order.
    names: BTreeSet<P>,
}

impl<P: Ord> Model for Targets<P> {
    ghost use Rattle.std.specs.Prelude.{◌≡◌, List};
    ghost use Rattle.std.specs.BTreeSet.{contains};
    ghost use Rattle.resolver_fetch_scan.specs.Orders.{is_one_of};

    ghost Value = { List P };

    ghost view = { λ a. a.listed.items };

    ghost invariant = { λ a. (peer : P)
        → contains P.cmp a.names peer ≡ is_one_of P.cmp a.listed.items peer };
}

impl<P: Ord + Drop> Targets<P> {
    /// No peers.
    pub fn new(alloc: Global) -> Self
        ensures { result ≡ [] }
    {
        Targets {
            listed: Vec::new(alloc),
            names: BTreeSet::new(alloc),
        }
    }

    /// Whether this peer is one of them. It takes logarithmic time.
    pub fn contains(&self, peer: &P) -> bool
        ensures { result ≡ is_one_of P.cmp self.now peer.now }
    {
        self.names.contains(peer)
    }

    /// The peers, in the order in which they were added.
    pub fn listed(&self) -> &[P]
        ensures { result.now ≡ self.now }
    {
        self.listed.as_slice()
    }

    /// How many there are.
    pub fn len(&self) -> usize
        ensures { result ≡ length self.now }
    {
        self.listed.len()
    }

    /// The same peers in their own order.
    pub fn names(&self) -> Iter<'_, P>
        ensures ordered { IsStrictlySortedBy P.cmp result }
        ensures same { (peer : P) → is_one_of P.cmp result peer ≡ is_one_of P.cmp self.now peer }
        ensures runs { ShowsInOrder (deref {X = P}) }
    {
        self.names.iter()
    }

    /// Puts those of these peers last, in their order, that aren't there yet. Where memory is
    /// refused, nothing changes. It takes time linear in both lengths, times a logarithm.
    pub fn join(&mut self, peers: Vec<P>) -> Result<(), AllocError>
    where
        P: Clone,
        requires peers_clone { (x y : P) → P.is_clone x y → y ≡ x }
        ensures ok { OnOk result (self.new ≡ with_targets P.cmp self.old peers.items) }
        ensures err { OnErr result (self.new ≡ self.old) }
    {
        let mut all = self.copy()?;
        for peer in peers {
            all.add(peer)?;
        }
        *self = all;
        Ok(())
    }

    /// Those of these peers, in their order, each once.
    fn of(alloc: Global, peers: Vec<P>) -> Result<Self, AllocError>
    where
        P: Clone,
        requires peers_clone { (x y : P) → P.is_clone x y → y ≡ x }
        ensures { IfOk result (λ targets. targets ≡ with_targets P.cmp [] peers.items) }
    {
        let mut targets = Targets::new(alloc);
        targets.join(peers)?;
        Ok(targets)
    }

    /// Puts this peer last if it isn't there yet.
    fn add(&mut self, peer: P) -> Result<(), AllocError>
    where
        P: Clone,
        requires peers_clone { (x y : P) → P.is_clone x y → y ≡ x }
        ensures { OnOk result (self.new ≡ joined_one (is_target_of P.cmp) self.old peer) }
    {
        if self.contains(&peer) {
            return Ok(());
        }
        self.listed.reserve(1)?;
        self.names.insert(peer.clone()?)?;
        self.listed.push_reserved(peer);
        Ok(())
    }

    /// The same peers in the same order.
    fn copy(&self) -> Result<Self, AllocError>
    where
        P: Clone,
        requires peers_clone { (x y : P) → P.is_clone x y → y ≡ x }
        ensures { IfOk result (λ copied. copied ≡ self.now) }
    {
        Ok(Targets {
            listed: self.listed.clone()?,
            names: self.names.clone()?,
        })
    }
}

/// Adds targets of a key.
pub fn join_targets<K: Ord + Drop, P: Ord + Clone + Drop>(
    alloc: Global,
    targets: &mut BTreeMap<K, Targets<P>>,
    key: K,
    peers: Vec<P>,
) -> Result<(), AllocError>
    requires peers_clone { (x y : P) → P.is_clone x y → y ≡ x }
    ensures ok { OnOk result (targets.new.entries
        ≡ insert_entry K.cmp targets.old.entries key (with_targets P.cmp
        (unwrap_or (lookup (is_at (K.cmp key)) targets.old.entries) []) peers.items)) }
    ensures err { OnErr result (targets.new.entries ≡ targets.old.entries) }
{
    if let Some(there) = targets.get_mut(&key) {
        return there.join(peers);
    }
    let first = Targets::of(alloc, peers)?;
    targets.insert(key, first)?;
    Ok(())
}
