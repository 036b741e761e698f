//! Numbers that count how often they are visited.

ghost use Rattle.std.specs.Prelude.{◌≡◌, ◌<◌, ◌+◌, ◌-◌, ◌≤◌, ◌^◌, length, slice_index, slice_set};
ghost use Rattle.resolver_sampling.specs.Visits.{visited};

use crate::Visits;
use std::marker::Model;

/// A list of numbers, each of which is got at by a call that counts one visit, and in no other way.
#[derive(Debug, Drop)]
pub(super) struct Stored {
    numbers: Vec<u128>,
}

impl Model for Stored {
    ghost use Rattle.std.specs.Prelude.{ℕ, List};

    ghost Value = { List ℕ };

    ghost view = { λ stored. stored.numbers.items };
}

impl Stored {
    /// These numbers.
    pub(super) fn new(numbers: Vec<u128>) -> Self
        ensures { result ≡ numbers.items }
    {
        Stored { numbers }
    }

    /// How many there are.
    pub(super) fn len(&self) -> usize
        ensures { result ≡ length self.now }
    {
        self.numbers.len()
    }

    /// The number at a place.
    pub(super) fn read(&self, place: usize, visits: &mut Visits) -> u128
        requires { place < length self.now }
        ensures value { result ≡ slice_index self.now place }
        ensures visit { visits.new ≡ visited visits.old }
    {
        visits.add();
        self.numbers[place]
    }

    /// Puts another number at a place, and gives back the one that was there.
    pub(super) fn replace(&mut self, place: usize, number: u128, visits: &mut Visits) -> u128
        requires { place < length self.old }
        ensures was { result ≡ slice_index self.old place }
        ensures set { self.new ≡ slice_set self.old place number }
        ensures visit { visits.new ≡ visited visits.old }
    {
        visits.add();
        let was = self.numbers[place];
        self.numbers[place] = number;
        was
    }

    /// Makes the number at a place less by one number, and then more by another.
    pub(super) fn shift(&mut self, place: usize, less: u128, more: u128, visits: &mut Visits)
        requires within { place < length self.old }
        requires holds { less ≤ slice_index self.old place }
        requires fits { slice_index self.old place - less + more < 2 ^ 128 }
        ensures set { self.new
            ≡ slice_set self.old place (slice_index self.old place - less + more) }
        ensures visit { visits.new ≡ visited visits.old }
    {
        visits.add();
        self.numbers[place] = self.numbers[place] - less + more;
    }
}
