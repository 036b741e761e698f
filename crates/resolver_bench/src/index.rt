//! An index of as many weights as there are peers: it is made, places are drawn, and weights are set.

use crate::fault::Fault;
use crate::spent::{Driven, Kind, Load, Steps, Times, drive};
use crate::workload::scattered;
use resolver_sampling::sampling::WeightedIndex;
use std::alloc::Global;
use std::rt::Clock;

/// The steps that are taken.
const STEPS: &[Steps] = &[
    Steps(Kind::Index, Times::Just(16), "index", "places"),
    Steps(Kind::Pick, Times::Keys, "pick", "places"),
    Steps(Kind::Set, Times::Keys, "set", "places"),
];

/// An index, and the weights that it was made of.
#[derive(Drop)]
struct Choices {
    weights: Vec<u64>,
    index: WeightedIndex,
}

/// Takes an index of as many places as there are peers through draws and weights.
pub fn run(rt: &(impl AllocGlobal + Clock + Print), load: &Load) -> Result<(), Fault> {
    let weights = weights(rt.alloc(), load.peers)?;
    match WeightedIndex::new(rt.alloc(), &weights) {
        Ok(index) => drive(rt, Choices { weights, index }, STEPS, load),
        Err(fault) => Err(fault.into()),
    }
}

/// So many weights that differ.
fn weights(alloc: Global, places: u16) -> Result<Vec<u64>, Fault> {
    let mut weights = Vec::with_capacity(alloc, usize::from(places))?;
    for place in 0..places {
        weights.push(scattered(u64::from(place)) >> 40)?;
    }
    Ok(weights)
}

impl Driven for Choices {
    /// It counts places: those of an index that is made, those of a positive weight that are drawn, and those
    /// that have another weight then.
    fn take(&mut self, alloc: Global, kind: Kind, i: u64) -> Result<u64, Fault> {
        match kind {
            Kind::Index => make(alloc, &self.weights),
            Kind::Pick => Ok(pick(&self.index, scattered(i))),
            _ => Ok(set(&mut self.index, scattered(i))),
        }
    }
}

/// Makes the index once, and counts its places.
#[inline(never)]
fn make(alloc: Global, weights: &[u64]) -> Result<u64, Fault> {
    let index = WeightedIndex::new(alloc, weights)?;
    let places = index.count() as u64;
    Ok(places)
}

/// Draws a place, and counts it where it has a weight.
#[inline(never)]
fn pick(index: &WeightedIndex, seed: u64) -> u64 {
    let total = index.total();
    if total == 0 {
        return 0;
    }
    let place = index.pick(u128::from(seed) % total);
    u64::from(index.weight(place) > 0)
}

/// Gives a place another weight, and counts it.
#[inline(never)]
fn set(index: &mut WeightedIndex, seed: u64) -> u64 {
    let count = index.count() as u64;
    if count == 0 {
        return 0;
    }
    let place = seed % count;
    index.set(place as usize, seed >> 40);
    1
}
