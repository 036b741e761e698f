//! What indexes and selections choose.

ghost use Rattle.std.specs.Prelude.{◌≡◌};

use crate::support::{equal, equal_at, holds};
use resolver_sampling::sampling::{Selection, Visits, WeightedIndex, is_weighted};
use std::alloc::Global;
use std::panic::Expect;
use std::process::Abort;

/// Compares an index's weights.
fn has_weights(rt: &impl Abort, index: &WeightedIndex, weights: &[u64]) {
    equal(rt, &index.count(), &weights.len());
    for (place, weight) in weights.iter().enumerate() {
        holds(rt, place < index.count());
        equal_at(rt, &place, &index.weight(place), weight);
    }
}

/// Ends a selection, and compares the index's weights.
fn ends_with(rt: &impl Abort, selection: Selection, weights: &[u64]) {
    let index = selection.end();
    has_weights(rt, &index, weights);
}

/// Begins draws without replacement.
fn begun(rt: &impl Abort, index: WeightedIndex) -> Selection {
    index.without_replacement().expect(rt, "memory")
}

/// An index that is made of these weights.
fn index_of(rt: &impl Abort, alloc: Global, weights: &[u64]) -> WeightedIndex
    ensures { result ≡ weights.now }
{
    WeightedIndex::new(alloc, weights).expect(rt, "memory")
}

/// Compares the places that numbers choose, and what the weights come to together. No choice goes to more than
/// so many places.
fn picks(
    rt: &impl Abort,
    index: &WeightedIndex,
    total: u128,
    most: u64,
    choices: &[(u128, usize)],
) {
    equal(rt, &index.total(), &total);
    for (number, place) in choices {
        let mut visits = Visits::new();
        holds(rt, *number < index.total());
        equal_at(rt, number, &index.pick(*number), place);
        equal_at(rt, number, &index.pick_counted(*number, &mut visits), place);
        holds(rt, visits.count() <= most);
    }
}

#[test]
fn index_choices(rt: HostRuntime) {
    const CHOICES: &[(u128, usize)] = &[(0, 0), (1, 0), (2, 0), (3, 2), (4, 2)];
    let index = index_of(&rt, rt.alloc(), &[3, 0, 2]);
    picks(&rt, &index, 5, 3, CHOICES);
}

#[test]
fn takes_one_place(rt: HostRuntime) {
    let rt = &rt;
    let mut selection = begun(rt, index_of(rt, rt.alloc(), &[3, 0, 2]));
    holds(rt, selection.left_total() > 0);
    equal(rt, &selection.take_weighted(0), &0);
    equal(
        rt,
        &(selection.left_total(), selection.left_count()),
        &(2, 1),
    );
    ends_with(rt, selection, &[3, 0, 2]);
}

#[test]
fn takes_all_places(rt: HostRuntime) {
    let rt = &rt;
    let mut index = index_of(rt, rt.alloc(), &[1, 1, 1, 1]);
    equal(rt, &index.count(), &4);
    index.set(1, 0);
    index.update(&[(0, 7), (2, 2), (0, 3), (3, 5)]);
    has_weights(rt, &index, &[3, 0, 2, 5]);
    let mut selection = begun(rt, index);
    takes_each(rt, &mut selection);
    ends_with(rt, selection, &[3, 0, 2, 5]);
}

/// Takes the places 2, 3 and 0, after which there is none left.
fn takes_each(rt: &impl Abort, selection: &mut Selection) {
    holds(rt, selection.left_count() > 1);
    equal(rt, &selection.take_uniform(1), &2);
    equal(rt, &selection.left_total(), &8);
    holds(rt, selection.left_total() > 3);
    equal(rt, &selection.take_weighted(3), &3);
    holds(rt, !selection.is_empty());
    holds(rt, selection.left_count() > 0);
    equal(rt, &selection.take_uniform(0), &0);
    holds(rt, selection.is_empty());
    equal(rt, &selection.left_total(), &0);
}

#[test]
fn nothing_to_choose(rt: HostRuntime) {
    let rt = &rt;
    const ZEROS: &[&[u64]] = &[&[], &[0, 0, 0]];
    for weights in ZEROS {
        let index = index_of(rt, rt.alloc(), weights);
        equal(rt, &index.total(), &0);
        let selection = begun(rt, index);
        holds(rt, selection.is_empty());
        let left = (selection.left_total(), selection.left_count());
        equal(rt, &left, &(0, 0));
        ends_with(rt, selection, weights);
    }
}

#[test]
fn weights_of_each_length(rt: HostRuntime) {
    const LENGTHS: &[&[u64]] = &[&[], &[7], &[3, 0, 2]];
    for weights in LENGTHS {
        let index = index_of(&rt, rt.alloc(), weights);
        has_weights(&rt, &index, weights);
    }
}

#[test]
fn updates_of_each_length(rt: HostRuntime) {
    let rt = &rt;
    let mut index = index_of(rt, rt.alloc(), &[1, 1, 1]);
    index.update(&[]);
    has_weights(rt, &index, &[1, 1, 1]);
    holds(rt, index.count() == 3);
    index.update(&[(1, 4)]);
    has_weights(rt, &index, &[1, 4, 1]);
    index.update(&[(2, 5), (0, 6), (2, 7)]);
    has_weights(rt, &index, &[6, 4, 7]);
}

#[test]
fn index_wide_weights(rt: HostRuntime) {
    const CHOICES: &[(u128, usize)] = &[
        (18_446_744_073_709_551_614, 0),
        (36_893_488_147_419_103_230, 2),
    ];
    let index = index_of(&rt, rt.alloc(), &[u64::MAX; 3]);
    picks(&rt, &index, 55_340_232_221_128_654_845, 3, CHOICES);
}

/// An index of a thousand places, each of which weighs its number.
fn thousand_places(rt: &impl Abort, alloc: Global) -> WeightedIndex {
    let mut weights = Vec::new(alloc);
    for weight in 0..1_000_u64 {
        weights.push(weight).expect(rt, "memory");
    }
    let index = index_of(rt, alloc, &weights);
    index
}

#[test]
fn index_thousand_places(rt: HostRuntime) {
    const CHOICES: &[(u128, usize)] = &[(0, 1), (498_500, 998), (499_499, 999)];
    let index = thousand_places(&rt, rt.alloc());
    picks(&rt, &index, 499_500, 11, CHOICES);
}

#[test]
fn index_sets_one_of_a_thousand_places(rt: HostRuntime) {
    let rt = &rt;
    let mut index = thousand_places(rt, rt.alloc());
    let mut visits = Visits::new();
    equal(rt, &visits.count(), &0);
    holds(rt, index.count() > 998);
    index.set_counted(998, 0, &mut visits);
    equal(rt, &index.weight(998), &0);
    holds(rt, visits.count() <= 22);
}

#[test]
fn draws_are_counted(rt: HostRuntime) {
    let rt = &rt;
    let mut selection = begun(rt, index_of(rt, rt.alloc(), &[3, 0, 2, 5]));
    let mut visits = Visits::new();
    holds(rt, selection.left_count() > 1);
    equal(rt, &selection.take_uniform_counted(1, &mut visits), &2);
    holds(rt, visits.count() <= 12);
    let mut visits = Visits::new();
    holds(rt, selection.left_total() > 3);
    equal(rt, &selection.take_weighted_counted(3, &mut visits), &3);
    holds(rt, visits.count() <= 12);
    ends_with(rt, selection, &[3, 0, 2, 5]);
}

#[test]
fn four_numbers_mean_weighted(rt: HostRuntime) {
    const NUMBERS: &[(u128, bool)] = &[(0, true), (3, true), (4, false), (u128::MAX, false)];
    for (number, weighted) in NUMBERS {
        equal_at(&rt, number, &is_weighted(*number), weighted);
    }
}
