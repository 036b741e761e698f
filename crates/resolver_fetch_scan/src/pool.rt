//! Peers with what they weigh, as a scan draws from them.

ghost use Rattle.std.specs.Prelude.{◌≡◌, ◌==◌, ◌<◌, [], length, sum, All, IfErr, IfOk, OnErr, OnOk};
ghost use Rattle.std.specs.BTreeMap.{is_at};
ghost use Rattle.std.specs.List.Sorted.{IsStrictlySortedBy};
ghost use Rattle.std.specs.Map.{keys_of, set_value};
ghost use Rattle.std.specs.Option.{option_copied};
ghost use Rattle.resolver_base.specs.declared.fault.Fault.TheVariants.{OutOfMemory};
ghost use Rattle.resolver_sampling.specs.LeftPlaces.{restored};
ghost use Rattle.resolver_sampling.specs.SumTrees.{mark};
ghost use Rattle.resolver_fetch_scan.specs.Pools.{IsFound, revalued, whole};
ghost use Rattle.resolver_fetch_scan.specs.Trying.{apart_from, at_place, at_weight, weights_of};

use resolver_base::Fault;
use resolver_sampling::sampling::WeightedIndex;
use std::alloc::{AllocError, Global};
use std::marker::Model;

/// Peers in their order with what they weigh, and which of them are left. Contracts see both as
/// lists.
///
/// A call takes time logarithmic in the number of peers, unless it says otherwise. A pool is moved
/// as a pointer, since a scan hands it on with each question.
#[derive(Drop)]
pub struct Pool<P: Ord> {
    held: Box<Held<P>>,
}

/// What a pool holds.
#[derive(Drop)]
struct Held<P> {
    names: Vec<P>,
    /// What each of them weighs: nothing once it is left no more.
    weights: WeightedIndex,
    /// The places of those that are left no more, with what they weighed, the last one last.
    taken: Vec<(usize, u64)>,
}

impl<P: Ord> Model for Pool<P> {
    ghost use Rattle.resolver_sampling.specs.LeftPlaces.{restored};
    ghost use Rattle.resolver_fetch_scan.specs.Pools.{IsPool, Pool, weighing, weighted};

    ghost Value = { Pool P };

    ghost view = { λ a. record {
      all = weighted a.held.value.names.items (restored a.held.value.weights a.held.value.taken.items);
      left = weighing (weighted a.held.value.names.items a.held.value.weights);
    } };

    ghost invariant = { λ a. IsPool P.cmp a.held.value.names.items a.held.value.weights
        a.held.value.taken.items };
}

impl<P: Ord + Drop> Pool<P> {
    /// These peers, which stand in their order; those are left that weigh something. It takes linear
    /// time.
    pub fn new(alloc: Global, peers: Vec<(P, u64)>) -> Result<Self, Fault>
        requires ordered { IsStrictlySortedBy P.cmp (keys_of peers.items) }
        ensures ok { IfOk result (λ pool. pool ≡ whole peers.items) }
        ensures only { IfErr result (λ fault. fault ≡ OutOfMemory) }
    {
        let (names, weights) = apart(alloc, peers)?;
        let weights = WeightedIndex::new(alloc, &weights)?;
        let held = Held {
            names,
            weights,
            taken: Vec::new(alloc),
        };
        Ok(Pool {
            held: Box::new(alloc, held)?,
        })
    }

    /// What those left weigh together, in constant time.
    pub fn total(&self) -> u128
        ensures { result ≡ sum (weights_of self.now.left) }
    {
        self.held.weights.total()
    }

    /// How many are left, in constant time.
    pub fn count(&self) -> u128
        ensures { result ≡ length self.now.left }
    {
        self.held.weights.positive_count() as u128
    }

    /// The peer left in whose interval of the weights a number lies, if it lies in one.
    pub fn by_weight(&self, number: u128) -> Option<&P>
        ensures { option_copied result ≡ at_weight self.now.left number }
    {
        let held = &*self.held;
        if number >= held.weights.total() {
            return None;
        }
        held.names.get(held.weights.pick(number))
    }

    /// The peer at a place among those left.
    pub fn by_place(&self, number: u128) -> Option<&P>
        ensures { option_copied result ≡ at_place self.now.left number }
    {
        let held = &*self.held;
        if number >= held.weights.positive_count() as u128 {
            return None;
        }
        held.names.get(held.weights.pick_positive(number))
    }

    /// Whether none is left but this one.
    pub fn is_last(&self, peer: &P) -> bool
        ensures { result ≡ (length (apart_from P.cmp peer.now self.now.left) == 0) }
    {
        let held = &*self.held;
        let count = held.weights.positive_count();
        match place_of(&held.names, peer) {
            Some(place) => count == mark(held.weights.weight(place)),
            None => count == 0,
        }
    }

    /// The peer is left no more. Where memory is refused, nothing changes.
    pub fn forget(&mut self, peer: &P) -> Result<(), Fault>
        ensures ok { OnOk result
            (self.new ≡ record self.old { left = apart_from P.cmp peer.now self.old.left }) }
        ensures err { OnErr result (self.new ≡ self.old) }
        ensures only { IfErr result (λ fault. fault ≡ OutOfMemory) }
    {
        let held = &mut *self.held;
        let Some(place) = place_of(&held.names, peer) else {
            return Ok(());
        };
        let weight = held.weights.weight(place);
        held.taken.push((place, weight))?;
        held.weights.set(place, 0);
        Ok(())
    }

    /// All that weigh something are left again. It takes time linear in those that were taken, times a logarithm.
    pub fn restore(&mut self)
        ensures { self.new ≡ whole self.old.all }
    {
        let held = &mut *self.held;
        restore(&mut held.weights, &mut held.taken);
    }

    /// This peer weighs this, if it is one of them, and all that weigh something are left again.
    pub fn set(&mut self, peer: &P, weight: u64)
        ensures { self.new ≡ whole (set_value (is_at (P.cmp peer.now)) self.old.all weight) }
    {
        let held = &mut *self.held;
        restore(&mut held.weights, &mut held.taken);
        let Some(place) = place_of(&held.names, peer) else {
            return;
        };
        held.weights.set(place, weight);
    }

    /// This peer weighs this, if it is one of them and weighs something, and all that weigh
    /// something are left again.
    pub fn revalue(&mut self, peer: &P, value: u64)
        requires some { 0 < value }
        ensures { self.new ≡ revalued P.cmp peer.now value self.old }
    {
        let held = &mut *self.held;
        restore(&mut held.weights, &mut held.taken);
        let Some(place) = place_of(&held.names, peer) else {
            return;
        };
        if held.weights.weight(place) == 0 {
            return;
        }
        held.weights.set(place, value);
    }
}

/// The names of these peers, and what they weigh.
fn apart<P: Drop>(alloc: Global, peers: Vec<(P, u64)>) -> Result<(Vec<P>, Vec<u64>), AllocError>
    ensures names { IfOk result (λ lists. lists.0.items ≡ keys_of peers.items) }
    ensures weights { IfOk result (λ lists. lists.1.items ≡ weights_of peers.items) }
{
    let mut names = Vec::with_capacity(alloc, peers.len())?;
    let mut weights = Vec::with_capacity(alloc, peers.len())?;
    for (peer, weight) in peers {
        names.push(peer)?;
        weights.push(weight)?;
    }
    Ok((names, weights))
}

/// Gives the places that were taken what they weighed, the last one first.
fn restore(weights: &mut WeightedIndex, taken: &mut Vec<(usize, u64)>)
    requires within { All (λ one. one.0 < length weights.old) taken.old.items }
    ensures weights { weights.new ≡ restored weights.old taken.old.items }
    ensures none { taken.new.items ≡ [] }
{
    while let Some((place, weight)) = taken.pop() {
        weights.set(place, weight);
    }
}

/// One for a weight, and zero for none.
fn mark(weight: u64) -> usize
    ensures { result ≡ mark weight }
{
    if weight > 0 { 1 } else { 0 }
}

/// The place of a peer among names in their order, if it is one of them.
fn place_of<P: Ord>(names: &[P], peer: &P) -> Option<usize>
    requires ordered { IsStrictlySortedBy P.cmp names.now }
    ensures { IsFound P.cmp names.now peer.now result }
{
    match names.binary_search(peer) {
        Ok(place) => Some(place),
        Err(_) => None,
    }
}
