//! Inputs, as they are spelled.

ghost use Rattle.std.specs.Ordering.{nat_cmp};
ghost use Rattle.resolver_types.specs.Names.{names};
ghost use Rattle.resolver_model_opaque.specs.OpaqueInputs.{event_of, input_of};
ghost use Rattle.resolver_flat.specs.Leavings.{stays};
ghost use Rattle.resolver_flat.specs.Naming.{shape};
ghost use Rattle.resolver_flat.specs.Reading.{Gives};
ghost use Rattle.resolver_flat_actor.specs.Inputs.{event_at, fetch_at, fetched_at, input_at, input_from, retain_at, verdict_at};

use bytes::Bytes;
use resolver_flat::reading::{list, moment, number, octet, outcome, value, whole};
use resolver_flat::{FlatName, Leaving, Misread};
use resolver_model_opaque::inputs::{Event, Input};
use std::alloc::Global;

/// What happens to an actor in bytes.
pub type Happens<K> = Event<K, Bytes, u64, Leaving<K, u64>>;

/// What such an actor takes.
pub type Taken<K> = Input<K, Bytes, u64, Leaving<K, u64>>;

/// The input that these bytes spell, all of them.
pub fn input_from<K: FlatName>(alloc: Global, bytes: &[u8]) -> Result<Taken<K>, Misread>
    ensures { Gives (input_of (stays (names K.cmp nat_cmp))) result
        (input_from (shape K.SIZE K.bytes_of K.read_from K.cmp) bytes.now) }
{
    let (input, bytes) = input(alloc, bytes)?;
    whole(input, bytes)
}

#[tactic(auto, unfolding(crate::specs::Inputs::input_at))]
fn input<K: FlatName>(alloc: Global, bytes: &[u8]) -> Result<(Taken<K>, &[u8]), Misread>
    ensures { Gives (λ x. (input_of (stays (names K.cmp nat_cmp)) x.0, x.1.now)) result
        (input_at (shape K.SIZE K.bytes_of K.read_from K.cmp) bytes.now) }
{
    let (now, bytes) = moment(bytes)?;
    let (tag, bytes) = octet(bytes)?;
    let (event, bytes) = event(alloc, tag, bytes)?;
    let input = Input {
        now: now.nanoseconds,
        event,
    };
    Ok((input, bytes))
}

#[tactic(auto, unfolding(crate::specs::Inputs::event_at))]
fn event<K: FlatName>(alloc: Global, tag: u8, bytes: &[u8]) -> Result<(Happens<K>, &[u8]), Misread>
    ensures { Gives (λ x. (event_of (stays (names K.cmp nat_cmp)) x.0, x.1.now)) result
        (event_at (shape K.SIZE K.bytes_of K.read_from K.cmp) tag bytes.now) }
{
    match tag {
        0 => fetch(alloc, bytes),
        1 => retain(alloc, bytes),
        2 => fetched(alloc, bytes),
        3 => verdict(bytes),
        4 => Ok((Event::RetriesDue, bytes)),
        5 => Ok((Event::End, bytes)),
        _ => Err(Misread::Misspelled),
    }
}

#[tactic(auto, unfolding(crate::specs::Inputs::fetch_at))]
fn fetch<K: FlatName>(alloc: Global, bytes: &[u8]) -> Result<(Happens<K>, &[u8]), Misread>
    ensures { Gives (λ x. (event_of (stays (names K.cmp nat_cmp)) x.0, x.1.now)) result
        (fetch_at (shape K.SIZE K.bytes_of K.read_from K.cmp) bytes.now) }
{
    let (items, bytes) = list(alloc, bytes)?;
    Ok((Event::Fetch(items), bytes))
}

#[tactic(auto, unfolding(crate::specs::Inputs::retain_at))]
fn retain<K: FlatName>(alloc: Global, bytes: &[u8]) -> Result<(Happens<K>, &[u8]), Misread>
    ensures { Gives (λ x. (event_of (stays (names K.cmp nat_cmp)) x.0, x.1.now)) result
        (retain_at (shape K.SIZE K.bytes_of K.read_from K.cmp) bytes.now) }
{
    let (pairs, bytes) = list(alloc, bytes)?;
    Ok((Event::Retain(Leaving::of(alloc, pairs)?), bytes))
}

#[tactic(auto, unfolding(crate::specs::Inputs::fetched_at))]
fn fetched<K: FlatName>(alloc: Global, bytes: &[u8]) -> Result<(Happens<K>, &[u8]), Misread>
    ensures { Gives (λ x. (event_of (stays (names K.cmp nat_cmp)) x.0, x.1.now)) result
        (fetched_at (shape K.SIZE K.bytes_of K.read_from K.cmp) bytes.now) }
{
    let (attempt, bytes) = number(bytes)?;
    let (value, bytes) = value(alloc, bytes)?;
    Ok((Event::Fetched { attempt, value }, bytes))
}

#[tactic(auto, unfolding(crate::specs::Inputs::verdict_at))]
fn verdict<K: FlatName>(bytes: &[u8]) -> Result<(Happens<K>, &[u8]), Misread>
    ensures { Gives (λ x. (event_of (stays (names K.cmp nat_cmp)) x.0, x.1.now)) result
        (verdict_at (shape K.SIZE K.bytes_of K.read_from K.cmp) bytes.now) }
{
    let (number, bytes) = number(bytes)?;
    let (outcome, bytes) = outcome(bytes)?;
    Ok((Event::Verdict { number, outcome }, bytes))
}
