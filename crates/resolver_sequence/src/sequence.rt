//! A map by numbers that go up.

ghost use Rattle.std.specs.Prelude.{◌≡◌, ◌<◌, ◌≤◌, ◌^◌, ◌==◌, ℕ, Bool, false, None, Some, [], filter, insert, length, slice_get, is_none, is_some, if◌then◌else◌, IfErr, IfNone, OnErr, OnOk};
ghost use Rattle.std.specs.BTreeMap.{insert_entry, is_at};
ghost use Rattle.std.specs.List.Sorted.{IsStrictlySortedBy};
ghost use Rattle.std.specs.Map.{keys_of, lookup, remove_entry};
ghost use Rattle.std.specs.Option.{option_copied, option_map};
ghost use Rattle.std.specs.Ordering.{nat_cmp};
ghost use Rattle.resolver_base.specs.Answering.{AnswersBy};
ghost use Rattle.resolver_sequence.specs.declared.sequence.Slot.TheVariants.{Held};
ghost use Rattle.resolver_sequence.specs.Sequence.{AreKept, IsKeptBy, IsPlaced, begins_empty, entries_of, number_of, numbers_of, slot_of, value_at, value_of, with_value};

use std::alloc::{AllocFailed, Global};
use std::collections::VecDeque;
use std::marker::Model;
use std::mem;

/// Values under numbers, in their order, for numbers that mostly go up and are taken in about that order, as the ids of
/// requests are.
///
/// Contracts see it as the list of the numbers with their values. A value is put under a number above all others in
/// constant time, and under another in linear time. It is found in constant time where no number between the least and
/// its own is missing, else in logarithmic time, and taken in as much, on average: a place stays, empty, until most
/// are. The memory for the most values that were held at once stays taken.
#[derive(Debug, Drop)]
pub struct Sequence<T> {
    /// In the order of their numbers.
    slots: VecDeque<Slot<T>>,
    /// How many hold a value.
    held: usize,
}

/// A number with its value, and alone once that is taken.
#[derive(Debug, Drop)]
pub enum Slot<T> {
    Held { number: u64, value: T },
    Taken { number: u64 },
}

impl<T> Slot<T> {
    /// The number.
    fn number(&self) -> u64
        ensures { result ≡ number_of self.now }
    {
        match self {
            Slot::Held { number, .. } | Slot::Taken { number } => *number,
        }
    }

    /// The value, unless it was taken.
    fn value(&self) -> Option<&T>
        ensures { option_copied result ≡ value_of self.now }
    {
        match self {
            Slot::Held { value, .. } => Some(value),
            Slot::Taken { .. } => None,
        }
    }

    /// Puts a value in place of the one that is there.
    fn replace(&mut self, value: T) -> Option<T>
        ensures had { result ≡ value_of self.old }
        ensures after { self.new ≡ slot_of (number_of self.old) (Some value) }
    {
        let number = self.number();
        mem::replace(self, Slot::Held { number, value }).into_value()
    }

    /// Takes the value out.
    fn take(&mut self) -> Option<T>
        ensures had { result ≡ value_of self.old }
        ensures after { self.new ≡ slot_of (number_of self.old) None }
    {
        let number = self.number();
        mem::replace(self, Slot::Taken { number }).into_value()
    }

    fn into_value(self) -> Option<T>
        ensures { result ≡ value_of self }
    {
        match self {
            Slot::Held { value, .. } => Some(value),
            Slot::Taken { .. } => None,
        }
    }
}

impl<T> Model for Sequence<T> {
    ghost use Rattle.std.specs.Prelude.{List, ℕ};
    ghost use Rattle.resolver_sequence.specs.Sequence.{AreKept, entries_of};

    ghost Value = { List (ℕ × T) };

    ghost view = { λ a. entries_of a.slots.items };

    ghost invariant = { λ a. AreKept a.slots.items a.held };
}

impl<T: Drop> Sequence<T> {
    /// Nothing is held.
    pub fn new(alloc: Global) -> Self
        ensures { result ≡ [] }
    {
        Sequence {
            slots: VecDeque::new(alloc),
            held: 0,
        }
    }

    /// How many values there are.
    pub fn len(&self) -> usize
        ensures value { result ≡ length self.now }
        ensures few { result < 2 ^ 63 }
        ensures ordered { IsStrictlySortedBy nat_cmp (keys_of self.now) }
    {
        self.held
    }

    /// Whether there is no value.
    pub fn is_empty(&self) -> bool
        ensures { result ≡ (length self.now == 0) }
    {
        self.held == 0
    }

    /// The value under this number.
    pub fn get(&self, number: u64) -> Option<&T>
        ensures { option_copied result ≡ lookup (is_at (nat_cmp number)) self.now }
    {
        match place(&self.slots, number) {
            Ok(at) => self.slots[at].value(),
            Err(_) => None,
        }
    }

    /// Whether there is a value under this number.
    pub fn contains(&self, number: u64) -> bool
        ensures { result ≡ is_some (lookup (is_at (nat_cmp number)) self.now) }
    {
        self.get(number).is_some()
    }

    /// The least number with its value, if there is any.
    pub fn first(&self) -> Option<(u64, &T)>
        ensures { option_map (λ e. (e.0, e.1.now)) result ≡ slice_get self.now 0 }
    {
        let slot = self.slots.front()?;
        let value = slot.value()?;
        Some((slot.number(), value))
    }

    /// The numbers in their order, each with its value, and some whose value was taken.
    pub fn slots(&self) -> &VecDeque<Slot<T>>
        ensures entries { entries_of result.now.items ≡ self.now }
        ensures ordered { IsStrictlySortedBy nat_cmp (keys_of self.now) }
    {
        &self.slots
    }

    /// Drops all values.
    pub fn clear(&mut self)
        ensures { self.new ≡ [] }
    {
        self.slots.clear();
        self.held = 0;
    }

    /// Puts a value under a number, in place of the one that is there. Where memory is refused, the value is handed
    /// back, and nothing changes.
    pub fn insert(&mut self, number: u64, value: T) -> Result<(), AllocFailed<T>>
        ensures ok { OnOk result (self.new ≡ insert_entry nat_cmp self.old number value) }
        ensures err { OnErr result (self.new ≡ self.old) }
        ensures value_returned { IfErr result (λ refused. refused.value ≡ value) }
        ensures ordered { IsStrictlySortedBy nat_cmp (keys_of self.new) }
    {
        match place(&self.slots, number) {
            Ok(at) => {
                let more = fill(&mut self.slots, at, value);
                self.held += more;
                Ok(())
            }
            Err(at) => {
                put(&mut self.slots, at, number, value)?;
                self.held += 1;
                Ok(())
            }
        }
    }

    /// Takes the value under this number out, if there is one.
    pub fn remove(&mut self, number: u64) -> Option<T>
        ensures value { result ≡ lookup (is_at (nat_cmp number)) self.old }
        ensures after { self.new ≡ remove_entry (is_at (nat_cmp number)) self.old }
        ensures none { IfNone result (self.new ≡ self.old) }
        ensures ordered { IsStrictlySortedBy nat_cmp (keys_of self.new) }
    {
        match place(&self.slots, number) {
            Ok(at) => {
                let value = empty(&mut self.slots, at)?;
                self.held -= 1;
                trim(&mut self.slots);
                squeeze(&mut self.slots, self.held);
                Some(value)
            }
            Err(_) => None,
        }
    }

    /// Drops the values that aren't kept. `keep` is pure.
    pub fn retain<F: Fn(&T) -> bool>(&mut self, keep: F)
        requires { F.IsAlwaysCallable keep }
        ensures kept { (test : T → Bool) → AnswersBy F.Fn keep test
            → self.new ≡ filter (λ e. test e.1) self.old }
        ensures fewer { (test : ℕ × T → Bool)
            → length (filter test self.new) ≤ length (filter test self.old) }
        ensures found { (number : ℕ) (value : T)
            → lookup (is_at (nat_cmp number)) self.new ≡ Some value
            → lookup (is_at (nat_cmp number)) self.old ≡ Some value }
        ensures ordered { IsStrictlySortedBy nat_cmp (keys_of self.new) }
    {
        self.slots.retain(
            |slot| -> bool
                requires { F.IsAlwaysCallable keep }
                ensures { IsKeptBy F.Fn keep slot.now result }
            { is_kept(&keep, slot) },
        );
        self.held = self.slots.len();
    }
}

/// Where a number stands among slots, or else would stand.
fn place<T>(slots: &VecDeque<Slot<T>>, number: u64) -> Result<usize, usize>
    requires { IsStrictlySortedBy nat_cmp (numbers_of slots.now.items) }
    ensures { IsPlaced slots.now.items number result }
{
    let Some(first) = slots.front() else {
        return Err(0);
    };
    let at = number.wrapping_sub(first.number()) as usize;
    if let Some(slot) = slots.get(at) {
        if slot.number() == number {
            return Ok(at);
        }
    }
    if let Some(last) = slots.back() {
        if last.number() < number {
            return Err(slots.len());
        }
    }
    slots.binary_search_by_key(&number, |slot| slot.number())
}

/// Gives the slot at a place a value, and answers by how many there are more then: one, if it was empty.
fn fill<T: Drop>(slots: &mut VecDeque<Slot<T>>, at: usize, value: T) -> usize
    requires { at < length slots.old.items }
    ensures more { result ≡ (if is_none (value_at slots.old.items at) then 1 else 0) }
    ensures after { slots.new.items ≡ with_value slots.old.items at (Some value) }
{
    match slots[at].replace(value) {
        Some(_) => 0,
        None => 1,
    }
}

/// Takes the value of the slot at a place.
fn empty<T: Drop>(slots: &mut VecDeque<Slot<T>>, at: usize) -> Option<T>
    requires { at < length slots.old.items }
    ensures had { result ≡ value_at slots.old.items at }
    ensures after { slots.new.items ≡ with_value slots.old.items at None }
{
    slots[at].take()
}

/// Puts a slot with a value at a place, before the one that stands there. Where memory is refused, the value is
/// handed back, and nothing changes.
fn put<T: Drop>(
    slots: &mut VecDeque<Slot<T>>,
    at: usize,
    number: u64,
    value: T,
) -> Result<(), AllocFailed<T>>
    requires { at ≤ length slots.old.items }
    ensures ok { OnOk result (slots.new.items
        ≡ insert slots.old.items at (Held number value)) }
    ensures err { OnErr result (slots.new.items ≡ slots.old.items) }
    ensures value_returned { IfErr result (λ refused. refused.value ≡ value) }
{
    let slot = Slot::Held { number, value };
    if let Err(refused) = slots.insert(at, slot) {
        let Slot::Held { value, .. } = refused.value else {
            unreachable!()
        };
        return Err(AllocFailed { value });
    }
    Ok(())
}

/// Drops the empty slots before the first value.
fn trim<T: Drop>(slots: &mut VecDeque<Slot<T>>)
    requires { IsStrictlySortedBy nat_cmp (numbers_of slots.old.items) }
    ensures same { entries_of slots.new.items ≡ entries_of slots.old.items }
    ensures rising { IsStrictlySortedBy nat_cmp (numbers_of slots.new.items) }
    ensures full { begins_empty slots.new.items ≡ false }
{
    while begins_empty(slots) {
        slots.pop_front();
    }
}

/// Whether there is a first slot that is empty.
fn begins_empty<T>(slots: &VecDeque<Slot<T>>) -> bool
    ensures { result ≡ begins_empty slots.now.items }
{
    match slots.front() {
        Some(slot) => slot.value().is_none(),
        None => false,
    }
}

/// Drops the empty slots, where they are most of all.
fn squeeze<T: Drop>(slots: &mut VecDeque<Slot<T>>, held: usize)
    requires rising { IsStrictlySortedBy nat_cmp (numbers_of slots.old.items) }
    requires full { begins_empty slots.old.items ≡ false }
    ensures same { entries_of slots.new.items ≡ entries_of slots.old.items }
    ensures rising { IsStrictlySortedBy nat_cmp (numbers_of slots.new.items) }
    ensures full { begins_empty slots.new.items ≡ false }
{
    if slots.len() / 2 > held {
        slots.retain(|slot| slot.value().is_some());
    }
}

/// Whether a slot has a value that is kept.
fn is_kept<T, F: Fn(&T) -> bool>(keep: &F, slot: &Slot<T>) -> bool
    requires { F.IsAlwaysCallable keep.now }
    ensures { IsKeptBy F.Fn keep.now slot.now result }
{
    match slot.value() {
        Some(value) => keep(value),
        None => false,
    }
}
