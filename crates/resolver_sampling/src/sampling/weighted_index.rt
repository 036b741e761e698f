//! A list of weights.

ghost use Rattle.std.specs.Prelude.{◌≡◌, ◌<◌, length, sum, map, slice_index, slice_set, All, IfOk, IfErr};
ghost use Rattle.resolver_base.specs.declared.fault.Fault.TheVariants.{OutOfMemory};
ghost use Rattle.resolver_sampling.specs.Choice.{IsIn, changed, chosen};
ghost use Rattle.resolver_sampling.specs.Selections.{begun, positive_places, weights_left};
ghost use Rattle.resolver_sampling.specs.SumTrees.{mark};
ghost use Rattle.resolver_sampling.specs.Visits.{VisitsAtMost};

use crate::sampling::{Selection, Visits};
use crate::{Tree, mark};
use resolver_base::Fault;
use std::alloc::{AllocFailed, Global};
use std::marker::Model;

/// A list of weights, from which places are drawn. Contracts see it as that list.
///
/// The weights stand in a tree of sums, and the positive ones are counted in another. A call takes
/// time logarithmic in the number of places, unless it says otherwise.
#[derive(Debug, Drop)]
pub struct WeightedIndex {
    sums: Tree,
    counts: Tree,
    alloc: Global,
}

impl Model for WeightedIndex {
    ghost use Rattle.std.specs.Prelude.{◌≡◌, ℕ, List, map};
    ghost use Rattle.resolver_sampling.specs.SumTrees.{mark};

    ghost Value = { List ℕ };

    ghost view = { λ index. index.sums };

    ghost invariant = { λ index. index.counts ≡ map mark index.sums };
}

impl WeightedIndex {
    /// An index of these weights, in time linear in their number. The only error is refused memory.
    pub fn new(alloc: Global, weights: &[u64]) -> Result<Self, Fault>
        ensures ok { IfOk result (λ index. index ≡ weights.now) }
        ensures only { IfErr result (λ fault. fault ≡ OutOfMemory) }
    {
        Ok(WeightedIndex {
            sums: Tree::of_weights(alloc, weights)?,
            counts: Tree::of_marks(alloc, weights)?,
            alloc,
        })
    }

    /// How many places there are, in constant time.
    pub fn count(&self) -> usize
        ensures { result ≡ length self.now }
    {
        self.sums.len()
    }

    /// The weight of a place, in constant time.
    pub fn weight(&self, place: usize) -> u64
        requires { place < length self.now }
        ensures { result ≡ slice_index self.now place }
    {
        self.sums.get(place, &mut Visits::new())
    }

    /// The sum of the weights, in constant time.
    pub fn total(&self) -> u128
        ensures { result ≡ sum self.now }
    {
        self.sums.total()
    }

    /// Gives a place another weight.
    pub fn set(&mut self, place: usize, weight: u64)
        requires { place < length self.old }
        ensures { self.new ≡ slice_set self.old place weight }
    {
        self.set_counted(place, weight, &mut Visits::new());
    }

    /// The same, which counts its visits.
    pub fn set_counted(&mut self, place: usize, weight: u64, visits: &mut Visits)
        requires { place < length self.old }
        ensures set { self.new ≡ slice_set self.old place weight }
        ensures visits { VisitsAtMost 2 (length self.old) visits.old visits.new }
    {
        let _was = self.replace(place, weight, visits);
    }

    /// Gives places other weights, one after another, each in logarithmic time.
    pub fn update(&mut self, changes: &[(usize, u64)])
        requires { All (λ change. change.0 < length self.old) changes.now }
        ensures { self.new ≡ changed self.old changes.now }
    {
        for (place, weight) in changes {
            self.set(*place, *weight);
        }
    }

    /// The place that a number below the total chooses: the weights are intervals, one after
    /// another, and the number lies in that of the place.
    pub fn pick(&self, number: u128) -> usize
        requires { number < sum self.now }
        ensures place { result ≡ chosen self.now number }
        ensures interval { IsIn self.now result number }
        ensures within { result < length self.now }
    {
        self.pick_counted(number, &mut Visits::new())
    }

    /// The same, which counts its visits.
    pub fn pick_counted(&self, number: u128, visits: &mut Visits) -> usize
        requires { number < sum self.now }
        ensures place { result ≡ chosen self.now number }
        ensures interval { IsIn self.now result number }
        ensures within { result < length self.now }
        ensures visits { VisitsAtMost 1 (length self.now) visits.old visits.new }
    {
        self.sums.choose(number, visits)
    }

    /// Begins draws without replacement, in time linear in the number of places. Where memory is
    /// refused, the index comes back in the error.
    pub fn without_replacement(self) -> Result<Selection, AllocFailed<WeightedIndex>>
        ensures ok { IfOk result (λ selection. selection ≡ begun self) }
        ensures total { IfOk result (λ selection. sum (weights_left selection) ≡ sum self) }
        ensures value_returned { IfErr result (λ failed. failed.value ≡ self) }
    {
        Selection::new(self.alloc, self)
    }

    /// How many weights are positive, in constant time.
    pub fn positive_count(&self) -> usize
        ensures places { result ≡ length (positive_places self.now) }
        ensures marks { result ≡ sum (map mark self.now) }
    {
        self.counts.total() as usize
    }

    /// The place of positive weight that has as many of them before it as the number.
    pub fn pick_positive(&self, number: u128) -> usize
        requires { number < length (positive_places self.now) }
        ensures place { result ≡ slice_index (positive_places self.now) number }
        ensures marks { result ≡ chosen (map mark self.now) number }
    {
        self.pick_positive_counted(number, &mut Visits::new())
    }

    /// The same, which counts its visits.
    pub fn pick_positive_counted(&self, number: u128, visits: &mut Visits) -> usize
        requires { number < length (positive_places self.now) }
        ensures place { result ≡ slice_index (positive_places self.now) number }
        ensures marks { result ≡ chosen (map mark self.now) number }
        ensures visits { VisitsAtMost 1 (length self.now) visits.old visits.new }
    {
        self.counts.choose(number, visits)
    }

    /// Gives a place another weight, and gives back the one that it had.
    pub(super) fn replace(&mut self, place: usize, weight: u64, visits: &mut Visits) -> u64
        requires { place < length self.old }
        ensures was { result ≡ slice_index self.old place }
        ensures set { self.new ≡ slice_set self.old place weight }
        ensures visits { VisitsAtMost 2 (length self.old) visits.old visits.new }
    {
        let was = self.sums.replace(place, weight, visits);
        if mark(was) != mark(weight) {
            self.counts.replace(place, mark(weight), visits);
        }
        was
    }
}
