//! Inputs, as they are spelled.

ghost use Rattle.std.specs.Prelude.{ℕ};
ghost use Rattle.std.specs.Ordering.{nat_cmp};
ghost use Rattle.resolver_types.specs.Names.{names};
ghost use Rattle.resolver_peer_step.specs.Said.{codec, event_of, fed_of};
ghost use Rattle.resolver_flat.specs.Leavings.{stays};
ghost use Rattle.resolver_flat.specs.Naming.{shape};
ghost use Rattle.resolver_flat.specs.Reading.{Gives};
ghost use Rattle.resolver_flat_machine.specs.Inputs.{answer_at, answers_at, blocked_at, drawn_at, event_at, fetch_at, happens_at, input_at, input_from, net_at, peer_set_at, retain_at, sent_at, served_at, until_at, verdict_at};

use resolver_base::Check;
use resolver_fetch_scan::scan::Answer;
use resolver_flat::reading::{
    flag, list, moment, name, number, octet, outcome, rest, value, whole, wide,
};
use resolver_flat::{FlatName, Leaving, Misread};
use resolver_model_peer::inputs::{Event, Happening, Input};
use std::alloc::Global;

/// What happens around a core in bytes.
pub type Happens<K> = Event<K, K, u64, Leaving<K, u64>>;

/// What such a core takes.
pub type Taken<K> = Input<K, K, u64, Leaving<K, u64>>;

/// Tags from this one on are answers to a scan.
const ANSWERS: u8 = 16;

/// The input that these bytes spell, all of them.
pub fn input_from<K: FlatName>(alloc: Global, bytes: &[u8]) -> Result<Taken<K>, Misread>
    ensures { (moment : ℕ) → Gives
        (fed_of (codec K.SIZE K.bytes_of K.read_from) (stays (names K.cmp nat_cmp)) moment)
        result
        (input_from (shape K.SIZE K.bytes_of K.read_from K.cmp) moment bytes.now) }
{
    let (input, bytes) = input(alloc, bytes)?;
    whole(input, bytes)
}

#[tactic(auto, unfolding(crate::specs::Inputs::input_at))]
fn input<K: FlatName>(alloc: Global, bytes: &[u8]) -> Result<(Taken<K>, &[u8]), Misread>
    ensures { (moment : ℕ) → Gives
        (λ x. (
          fed_of (codec K.SIZE K.bytes_of K.read_from)
              (stays (names K.cmp nat_cmp)) moment x.0,
          x.1.now,
        )) result
        (input_at (shape K.SIZE K.bytes_of K.read_from K.cmp) moment bytes.now) }
{
    let (tag, bytes) = octet(bytes)?;
    if tag < ANSWERS {
        event_behind(alloc, tag, bytes)
    } else {
        answer_behind(tag, bytes)
    }
}

#[tactic(auto, unfolding(crate::specs::Inputs::happens_at))]
fn event_behind<K: FlatName>(
    alloc: Global,
    tag: u8,
    bytes: &[u8],
) -> Result<(Taken<K>, &[u8]), Misread>
    ensures { (moment : ℕ) → Gives
        (λ x. (
          fed_of (codec K.SIZE K.bytes_of K.read_from)
              (stays (names K.cmp nat_cmp)) moment x.0,
          x.1.now,
        )) result
        (happens_at (shape K.SIZE K.bytes_of K.read_from K.cmp) tag bytes.now) }
{
    let (now, bytes) = moment(bytes)?;
    let (event, bytes) = event(alloc, tag, bytes)?;
    let happening = Happening {
        now: now.nanoseconds,
        event,
    };
    Ok((Input::Happens(happening), bytes))
}

#[tactic(auto, unfolding(crate::specs::Inputs::answers_at))]
fn answer_behind<K: FlatName>(tag: u8, bytes: &[u8]) -> Result<(Taken<K>, &[u8]), Misread>
    ensures { (moment : ℕ) → Gives
        (λ x. (
          fed_of (codec K.SIZE K.bytes_of K.read_from)
              (stays (names K.cmp nat_cmp)) moment x.0,
          x.1.now,
        )) result
        (answers_at (shape K.SIZE K.bytes_of K.read_from K.cmp) moment tag bytes.now) }
{
    let (answer, bytes) = answer(tag, bytes)?;
    Ok((Input::Answers(answer), bytes))
}

#[tactic(auto, unfolding(crate::specs::Inputs::answer_at))]
fn answer(tag: u8, bytes: &[u8]) -> Result<(Answer, &[u8]), Misread>
    ensures { Gives (λ x. (x.0, x.1.now)) result (answer_at tag bytes.now) }
{
    match tag {
        16 => drawn(bytes),
        17 => Ok((Answer::Checked(Check::Clear), bytes)),
        18 => until(bytes),
        19 => sent(bytes),
        _ => Err(Misread::Misspelled),
    }
}

#[tactic(auto, unfolding(crate::specs::Inputs::drawn_at))]
fn drawn(bytes: &[u8]) -> Result<(Answer, &[u8]), Misread>
    ensures { Gives (λ x. (x.0, x.1.now)) result (drawn_at bytes.now) }
{
    let (number, bytes) = wide(bytes)?;
    Ok((Answer::Drawn(number), bytes))
}

#[tactic(auto, unfolding(crate::specs::Inputs::until_at))]
fn until(bytes: &[u8]) -> Result<(Answer, &[u8]), Misread>
    ensures { Gives (λ x. (x.0, x.1.now)) result (until_at bytes.now) }
{
    let (until, bytes) = moment(bytes)?;
    Ok((Answer::Checked(Check::Until(until.nanoseconds)), bytes))
}

#[tactic(auto, unfolding(crate::specs::Inputs::sent_at))]
fn sent(bytes: &[u8]) -> Result<(Answer, &[u8]), Misread>
    ensures { Gives (λ x. (x.0, x.1.now)) result (sent_at bytes.now) }
{
    let (accepted, bytes) = flag(bytes)?;
    Ok((Answer::Sent(accepted), bytes))
}

#[tactic(auto, unfolding(crate::specs::Inputs::event_at))]
fn event<K: FlatName>(alloc: Global, tag: u8, bytes: &[u8]) -> Result<(Happens<K>, &[u8]), Misread>
    ensures { Gives
        (λ x. (
          event_of (codec K.SIZE K.bytes_of K.read_from)
              (stays (names K.cmp nat_cmp)) x.0,
          x.1.now,
        )) result
        (event_at (shape K.SIZE K.bytes_of K.read_from K.cmp) tag bytes.now) }
{
    match tag {
        0 => fetch(alloc, bytes),
        1 => retain(alloc, bytes),
        2 => peer_set(alloc, bytes),
        3 => blocked(alloc, bytes),
        4 => Ok((Event::ActiveDue, bytes)),
        5 => Ok((Event::PendingDue, bytes)),
        6 => verdict(bytes),
        7 => served(alloc, bytes),
        8 => net(alloc, bytes),
        9 => Ok((Event::End, bytes)),
        _ => Err(Misread::Misspelled),
    }
}

#[tactic(auto, unfolding(crate::specs::Inputs::fetch_at))]
fn fetch<K: FlatName>(alloc: Global, bytes: &[u8]) -> Result<(Happens<K>, &[u8]), Misread>
    ensures { Gives
        (λ x. (
          event_of (codec K.SIZE K.bytes_of K.read_from)
              (stays (names K.cmp nat_cmp)) x.0,
          x.1.now,
        )) result
        (fetch_at (shape K.SIZE K.bytes_of K.read_from K.cmp) bytes.now) }
{
    let (items, bytes) = list(alloc, bytes)?;
    Ok((Event::Fetch(items), bytes))
}

#[tactic(auto, unfolding(crate::specs::Inputs::retain_at))]
fn retain<K: FlatName>(alloc: Global, bytes: &[u8]) -> Result<(Happens<K>, &[u8]), Misread>
    ensures { Gives
        (λ x. (
          event_of (codec K.SIZE K.bytes_of K.read_from)
              (stays (names K.cmp nat_cmp)) x.0,
          x.1.now,
        )) result
        (retain_at (shape K.SIZE K.bytes_of K.read_from K.cmp) bytes.now) }
{
    let (pairs, bytes) = list(alloc, bytes)?;
    Ok((Event::Retain(Leaving::of(alloc, pairs)?), bytes))
}

#[tactic(auto, unfolding(crate::specs::Inputs::peer_set_at))]
fn peer_set<K: FlatName>(alloc: Global, bytes: &[u8]) -> Result<(Happens<K>, &[u8]), Misread>
    ensures { Gives
        (λ x. (
          event_of (codec K.SIZE K.bytes_of K.read_from)
              (stays (names K.cmp nat_cmp)) x.0,
          x.1.now,
        )) result
        (peer_set_at (shape K.SIZE K.bytes_of K.read_from K.cmp) bytes.now) }
{
    let (index, bytes) = number(bytes)?;
    let (peers, bytes) = list(alloc, bytes)?;
    Ok((Event::PeerSet { index, peers }, bytes))
}

#[tactic(auto, unfolding(crate::specs::Inputs::blocked_at))]
fn blocked<K: FlatName>(alloc: Global, bytes: &[u8]) -> Result<(Happens<K>, &[u8]), Misread>
    ensures { Gives
        (λ x. (
          event_of (codec K.SIZE K.bytes_of K.read_from)
              (stays (names K.cmp nat_cmp)) x.0,
          x.1.now,
        )) result
        (blocked_at (shape K.SIZE K.bytes_of K.read_from K.cmp) bytes.now) }
{
    let (peers, bytes) = list(alloc, bytes)?;
    Ok((Event::Blocked(peers), bytes))
}

#[tactic(auto, unfolding(crate::specs::Inputs::verdict_at))]
fn verdict<K: FlatName>(bytes: &[u8]) -> Result<(Happens<K>, &[u8]), Misread>
    ensures { Gives
        (λ x. (
          event_of (codec K.SIZE K.bytes_of K.read_from)
              (stays (names K.cmp nat_cmp)) x.0,
          x.1.now,
        )) result
        (verdict_at (shape K.SIZE K.bytes_of K.read_from K.cmp) bytes.now) }
{
    let (number, bytes) = number(bytes)?;
    let (outcome, bytes) = outcome(bytes)?;
    Ok((Event::Verdict { number, outcome }, bytes))
}

#[tactic(auto, unfolding(crate::specs::Inputs::served_at))]
fn served<K: FlatName>(alloc: Global, bytes: &[u8]) -> Result<(Happens<K>, &[u8]), Misread>
    ensures { Gives
        (λ x. (
          event_of (codec K.SIZE K.bytes_of K.read_from)
              (stays (names K.cmp nat_cmp)) x.0,
          x.1.now,
        )) result
        (served_at (shape K.SIZE K.bytes_of K.read_from K.cmp) bytes.now) }
{
    let (serve, bytes) = number(bytes)?;
    let (value, bytes) = value(alloc, bytes)?;
    Ok((Event::Served { serve, value }, bytes))
}

#[tactic(auto, unfolding(crate::specs::Inputs::net_at))]
fn net<K: FlatName>(alloc: Global, bytes: &[u8]) -> Result<(Happens<K>, &[u8]), Misread>
    ensures { Gives
        (λ x. (
          event_of (codec K.SIZE K.bytes_of K.read_from)
              (stays (names K.cmp nat_cmp)) x.0,
          x.1.now,
        )) result
        (net_at (shape K.SIZE K.bytes_of K.read_from K.cmp) bytes.now) }
{
    let (peer, bytes) = name(bytes)?;
    let (sent, left) = rest(alloc, bytes)?;
    Ok((Event::Net { peer, bytes: sent }, left))
}
