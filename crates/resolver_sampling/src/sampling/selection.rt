//! Draws without replacement.

ghost use Rattle.std.specs.Prelude.{◌≡◌, ◌<◌, ◌↔◌, length, sum, Contains, IsTrue, IfOk, IfErr};
ghost use Rattle.resolver_sampling.specs.Selections.{Remaining, begun, weights_left, by_weight, by_count, Takes, DrawsByWeight, DrawsEachOnce};
ghost use Rattle.resolver_sampling.specs.Visits.{VisitsAtMost};

use crate::sampling::{Visits, WeightedIndex};
use std::alloc::{AllocFailed, Global};
use std::marker::Model;

/// Draws without replacement from an index, which it owns until it ends.
///
/// Contracts see it as the weights, and the places of positive weight that are left, in order.
/// What it needs is reserved when it begins: no call on it takes memory. A draw takes time
/// logarithmic in the number of places.
#[derive(Debug, Drop)]
pub struct Selection {
    /// The places that are taken weigh nothing in it.
    index: WeightedIndex,
    /// The places that are taken, with what they weighed, in the order of the draws.
    taken: Vec<(usize, u64)>,
}

impl Model for Selection {
    ghost use Rattle.std.specs.Vec.{vec_capacity};
    ghost use Rattle.resolver_sampling.specs.Selections.{Remaining, positive_places};
    ghost use Rattle.resolver_sampling.specs.LeftPlaces.{IsTaken, restored};

    ghost Value = { Remaining };

    ghost view = { λ selection. record {
      weights = restored selection.index selection.taken.items;
      left = positive_places selection.index;
    } };

    ghost invariant = { λ selection. IsTaken selection.index selection.taken.items (vec_capacity selection.taken) };
}

impl Selection {
    /// Begins draws from an index. Where memory is refused, the index comes back in the error.
    pub(super) fn new(
        alloc: Global,
        index: WeightedIndex,
    ) -> Result<Self, AllocFailed<WeightedIndex>>
        ensures ok { IfOk result (λ selection. selection ≡ begun index) }
        ensures value_returned { IfErr result (λ failed. failed.value ≡ index) }
    {
        match Vec::with_capacity(alloc, index.positive_count()) {
            Ok(taken) => Ok(Selection { index, taken }),
            Err(_) => Err(AllocFailed { value: index }),
        }
    }

    /// Whether no place is left.
    pub fn is_empty(&self) -> bool
        ensures { IsTrue result ↔ (length self.now.left ≡ 0) }
    {
        self.index.positive_count() == 0
    }

    /// The sum of the weights of the places left, in constant time. Of the numbers below it, as many
    /// as its weight take each of them.
    pub fn left_total(&self) -> u128
        ensures total { result ≡ sum (weights_left self.now) }
        ensures positive { 0 < length self.now.left → 0 < result }
        ensures draws { DrawsByWeight self.now }
    {
        self.index.total()
    }

    /// How many places are left, in constant time. Of the numbers below it, one takes each of them.
    pub fn left_count(&self) -> usize
        ensures count { result ≡ length self.now.left }
        ensures draws { DrawsEachOnce self.now }
    {
        self.index.positive_count()
    }

    /// Takes the place that a number below `left_total` chooses among the weights left.
    pub fn take_weighted(&mut self, number: u128) -> usize
        requires { number < sum (weights_left self.old) }
        ensures place { result ≡ by_weight self.old number }
        ensures taken { Takes self.old self.new result }
    {
        self.take_weighted_counted(number, &mut Visits::new())
    }

    /// The same, which counts its visits.
    pub fn take_weighted_counted(&mut self, number: u128, visits: &mut Visits) -> usize
        requires { number < sum (weights_left self.old) }
        ensures place { result ≡ by_weight self.old number }
        ensures taken { Takes self.old self.new result }
        ensures visits { VisitsAtMost 3 (length self.old.weights) visits.old visits.new }
    {
        let place = self.index.pick_counted(number, visits);
        self.take(place, visits);
        place
    }

    /// Takes the place left that has as many before it as the number, which is below `left_count`.
    pub fn take_uniform(&mut self, number: u128) -> usize
        requires { number < length self.old.left }
        ensures place { result ≡ by_count self.old number }
        ensures taken { Takes self.old self.new result }
    {
        self.take_uniform_counted(number, &mut Visits::new())
    }

    /// The same, which counts its visits.
    pub fn take_uniform_counted(&mut self, number: u128, visits: &mut Visits) -> usize
        requires { number < length self.old.left }
        ensures place { result ≡ by_count self.old number }
        ensures taken { Takes self.old self.new result }
        ensures visits { VisitsAtMost 3 (length self.old.weights) visits.old visits.new }
    {
        let place = self.index.pick_positive_counted(number, visits);
        self.take(place, visits);
        place
    }

    /// Takes a place that is left.
    fn take(&mut self, place: usize, visits: &mut Visits)
        requires { Contains self.old.left place }
        ensures taken { Takes self.old self.new place }
        ensures visits { VisitsAtMost 2 (length self.old.weights) visits.old visits.new }
    {
        let weight = self.index.replace(place, 0, visits);
        self.taken.push_reserved((place, weight));
    }

    /// Ends the draws and gives the index back, with the weights that it had. It takes time linear
    /// in the places that were taken, times a logarithm.
    pub fn end(self) -> WeightedIndex
        ensures { result ≡ self.weights }
    {
        let mut index = self.index;
        let mut taken = self.taken;
        while let Some((place, weight)) = taken.pop() {
            index.set(place, weight);
        }
        index
    }
}
