//! Reading from the front of bytes. Numbers lie with their low byte first.

ghost use Rattle.std.specs.Prelude.{◌≡◌, ℕ, Option, Some, List, length, IfOk};
ghost use Rattle.std.specs.Int.{w32, w64, w128};
ghost use Rattle.resolver_flat.specs.declared.reading.Misread.TheVariants.{OutOfMemory};
ghost use Rattle.resolver_flat.specs.Naming.{shape};
ghost use Rattle.resolver_flat.specs.Reading.{Gives, both_at, chunk_at, flag_at, item_at, list_at, many_at, moment_at, name_at, nothing_at, number_at, octet_at, option_at, outcome_at, rest_at, some_at, whole};

use crate::name::FlatName;
use bytes::Bytes;
use resolver_base::Moment;
use resolver_messages::FetchKey;
use resolver_types::{NonEmptyVec, Outcome, Resolution};
use std::alloc::{AllocError, AllocFailed, Global};

/// Why bytes are not read.
#[derive(Clone, Copy, Debug, PartialEq, Eq)]
pub enum Misread {
    /// They don't spell what is to be read.
    Misspelled,
    /// Memory is wanting for what they spell.
    OutOfMemory,
}

impl From<AllocError> for Misread {
    ghost from_gives = { λ _ misread. misread ≡ OutOfMemory };

    fn from(_: AllocError) -> Misread {
        Misread::OutOfMemory
    }
}

impl<T: Drop> From<AllocFailed<T>> for Misread {
    ghost from_gives = { λ _ misread. misread ≡ OutOfMemory };

    fn from(_: AllocFailed<T>) -> Misread {
        Misread::OutOfMemory
    }
}

/// What has a spelling of its own.
pub trait Spelled: Sized {
    /// What bytes begin with, and the bytes after it.
    ghost at: { List ℕ → Option (Self × List ℕ) };

    /// Takes one from the front, and answers it with the bytes after it.
    fn read(alloc: Global, bytes: &[u8]) -> Result<(Self, &[u8]), Misread>
        ensures { Gives (λ x. (x.0, x.1.now)) result (at bytes.now) };
}

impl Spelled for u64 {
    ghost at = { number_at w64 };

    fn read(_: Global, bytes: &[u8]) -> Result<(Self, &[u8]), Misread> {
        number(bytes)
    }
}

impl<K: FlatName> Spelled for K {
    ghost at = { name_at (shape K.SIZE K.bytes_of K.read_from K.cmp) };

    fn read(_: Global, bytes: &[u8]) -> Result<(Self, &[u8]), Misread> {
        name(bytes)
    }
}

impl<A: Spelled + Drop, B: Spelled + Drop> Spelled for (A, B) {
    ghost at = { both_at A.at B.at };

    #[tactic(auto, unfolding(crate::specs::Reading::both_at))]
    fn read(alloc: Global, bytes: &[u8]) -> Result<(Self, &[u8]), Misread> {
        let (first, bytes) = A::read(alloc, bytes)?;
        let (second, bytes) = B::read(alloc, bytes)?;
        Ok(((first, second), bytes))
    }
}

impl<K: FlatName> Spelled for FetchKey<K, u64, ()> {
    ghost at = { item_at (shape K.SIZE K.bytes_of K.read_from K.cmp) nothing_at };

    #[tactic(auto, unfolding(crate::specs::Reading::item_at))]
    fn read(alloc: Global, bytes: &[u8]) -> Result<(Self, &[u8]), Misread> {
        let (key, bytes) = name(bytes)?;
        let (subscribers, bytes) = some(alloc, bytes)?;
        let item = FetchKey {
            key,
            subscribers,
            metadata: (),
        };
        Ok((item, bytes))
    }
}

impl<K: FlatName> Spelled for FetchKey<K, u64, Option<NonEmptyVec<K>>> {
    ghost at = { item_at (shape K.SIZE K.bytes_of K.read_from K.cmp)
        (option_at (some_at (name_at (shape K.SIZE K.bytes_of K.read_from K.cmp)))) };

    #[tactic(auto, unfolding(crate::specs::Reading::item_at))]
    fn read(alloc: Global, bytes: &[u8]) -> Result<(Self, &[u8]), Misread> {
        let (key, bytes) = name(bytes)?;
        let (subscribers, bytes) = some(alloc, bytes)?;
        let (metadata, bytes) = targets(alloc, bytes)?;
        let item = FetchKey {
            key,
            subscribers,
            metadata,
        };
        Ok((item, bytes))
    }
}

/// So many bytes.
#[tactic(auto, unfolding(crate::specs::Reading::chunk_at))]
fn chunk<const N: usize>(bytes: &[u8]) -> Result<([u8; N], &[u8]), Misread>
    ensures gives { Gives (λ x. (x.0, x.1.now)) result (chunk_at N bytes.now) }
    ensures long { IfOk result (λ x. length x.0 ≡ N) }
{
    match bytes.split_first_chunk::<N>() {
        Some((front, rest)) => Ok((*front, rest)),
        None => Err(Misread::Misspelled),
    }
}

/// One byte.
#[tactic(auto, unfolding(crate::specs::Reading::octet_at))]
pub fn octet(bytes: &[u8]) -> Result<(u8, &[u8]), Misread>
    ensures { Gives (λ x. (x.0, x.1.now)) result (octet_at bytes.now) }
{
    match bytes.split_first() {
        Some((first, rest)) => Ok((*first, rest)),
        None => Err(Misread::Misspelled),
    }
}

/// A number of eight bytes.
#[tactic(auto, unfolding(crate::specs::Reading::number_at))]
pub fn number(bytes: &[u8]) -> Result<(u64, &[u8]), Misread>
    ensures { Gives (λ x. (x.0, x.1.now)) result (number_at w64 bytes.now) }
{
    let (number, bytes) = chunk::<8>(bytes)?;
    Ok((u64::from_le_bytes(number), bytes))
}

/// A number of sixteen bytes.
#[tactic(auto, unfolding(crate::specs::Reading::number_at))]
pub fn wide(bytes: &[u8]) -> Result<(u128, &[u8]), Misread>
    ensures { Gives (λ x. (x.0, x.1.now)) result (number_at w128 bytes.now) }
{
    let (number, bytes) = chunk::<16>(bytes)?;
    Ok((u128::from_le_bytes(number), bytes))
}

/// How many there are: a number of four bytes.
#[tactic(auto, unfolding(crate::specs::Reading::number_at))]
pub fn count(bytes: &[u8]) -> Result<(u32, &[u8]), Misread>
    ensures { Gives (λ x. (x.0, x.1.now)) result (number_at w32 bytes.now) }
{
    let (count, bytes) = chunk::<4>(bytes)?;
    Ok((u32::from_le_bytes(count), bytes))
}

/// A name.
#[tactic(auto, unfolding(crate::specs::Reading::name_at, crate::specs::Reading::chunk_at))]
pub fn name<K: FlatName>(bytes: &[u8]) -> Result<(K, &[u8]), Misread>
    ensures { Gives (λ x. (x.0, x.1.now)) result
        (name_at (shape K.SIZE K.bytes_of K.read_from K.cmp) bytes.now) }
{
    if bytes.len() < K::SIZE {
        return Err(Misread::Misspelled);
    }
    let (front, rest) = bytes.split_at(K::SIZE);
    match K::read(front) {
        Some(name) => Ok((name, rest)),
        None => Err(Misread::Misspelled),
    }
}

/// Whether: 0 or 1, and no other byte.
#[tactic(auto, unfolding(crate::specs::Reading::flag_at))]
pub fn flag(bytes: &[u8]) -> Result<(bool, &[u8]), Misread>
    ensures { Gives (λ x. (x.0, x.1.now)) result (flag_at bytes.now) }
{
    let (flag, bytes) = octet(bytes)?;
    match flag {
        0 => Ok((false, bytes)),
        1 => Ok((true, bytes)),
        _ => Err(Misread::Misspelled),
    }
}

/// A moment or a duration: a number of sixteen bytes below 2^94.
#[tactic(auto, unfolding(crate::specs::Reading::moment_at))]
pub fn moment(bytes: &[u8]) -> Result<(Moment, &[u8]), Misread>
    ensures { Gives (λ x. (x.0.nanoseconds, x.1.now)) result (moment_at bytes.now) }
{
    let (nanoseconds, bytes) = wide(bytes)?;
    match Moment::from_nanos(nanoseconds) {
        Some(moment) => Ok((moment, bytes)),
        None => Err(Misread::Misspelled),
    }
}

/// So many, one behind the other.
fn many<T: Spelled + Drop>(
    alloc: Global,
    bytes: &[u8],
    count: u32,
) -> Result<(Vec<T>, &[u8]), Misread>
    ensures { Gives (λ x. (x.0.items, x.1.now)) result (many_at T.at count bytes.now) }
{
    let mut list = Vec::new(alloc);
    let mut rest = bytes;
    let mut left = count;
    while left > 0 {
        let (one, after) = T::read(alloc, rest)?;
        list.push(one)?;
        rest = after;
        left -= 1;
    }
    Ok((list, rest))
}

/// A list behind its length.
#[tactic(auto, unfolding(crate::specs::Reading::list_at))]
pub fn list<T: Spelled + Drop>(alloc: Global, bytes: &[u8]) -> Result<(Vec<T>, &[u8]), Misread>
    ensures { Gives (λ x. (x.0.items, x.1.now)) result (list_at T.at bytes.now) }
{
    let (count, bytes) = count(bytes)?;
    many(alloc, bytes, count)
}

/// A list that is not empty, behind its length.
#[tactic(auto, unfolding(crate::specs::Reading::some_at))]
pub fn some<T: Spelled + Drop>(
    alloc: Global,
    bytes: &[u8],
) -> Result<(NonEmptyVec<T>, &[u8]), Misread>
    ensures { Gives (λ x. (x.0, x.1.now)) result (some_at T.at bytes.now) }
{
    let (items, bytes) = list(alloc, bytes)?;
    match NonEmptyVec::try_from(items) {
        Ok(items) => Ok((items, bytes)),
        Err(_) => Err(Misread::Misspelled),
    }
}

/// Which peers may be asked, behind a flag: without them any may.
#[tactic(auto, unfolding(crate::specs::Reading::option_at))]
fn targets<K: FlatName>(
    alloc: Global,
    bytes: &[u8],
) -> Result<(Option<NonEmptyVec<K>>, &[u8]), Misread>
    ensures { Gives (λ x. (x.0, x.1.now)) result
        (option_at (some_at (name_at (shape K.SIZE K.bytes_of K.read_from K.cmp))) bytes.now) }
{
    let (named, bytes) = flag(bytes)?;
    if !named {
        return Ok((None, bytes));
    }
    let (peers, bytes) = some(alloc, bytes)?;
    Ok((Some(peers), bytes))
}

/// All that is left.
#[tactic(auto, unfolding(crate::specs::Reading::rest_at))]
pub fn rest(alloc: Global, bytes: &[u8]) -> Result<(Bytes, &[u8]), Misread>
    ensures { Gives (λ x. (x.0, x.1.now)) result (rest_at bytes.now) }
{
    Ok((Bytes::copy_from_slice(alloc, bytes)?, &[]))
}

/// A value, which is all that is left, behind a flag: or none.
#[tactic(auto, unfolding(crate::specs::Reading::option_at))]
pub fn value(alloc: Global, bytes: &[u8]) -> Result<(Option<Bytes>, &[u8]), Misread>
    ensures { Gives (λ x. (x.0, x.1.now)) result (option_at rest_at bytes.now) }
{
    let (is_there, bytes) = flag(bytes)?;
    if !is_there {
        return Ok((None, bytes));
    }
    let (value, bytes) = rest(alloc, bytes)?;
    Ok((Some(value), bytes))
}

/// An outcome: a byte from 1 to 5, or 0 where the delivery was dropped.
#[tactic(auto, unfolding(crate::specs::Reading::outcome_at))]
pub fn outcome(bytes: &[u8]) -> Result<(Option<Outcome>, &[u8]), Misread>
    ensures { Gives (λ x. (x.0, x.1.now)) result (outcome_at bytes.now) }
{
    let (tag, bytes) = octet(bytes)?;
    match tag {
        0 => Ok((None, bytes)),
        1 => Ok((Some(Outcome::Resolved(Resolution::Complete)), bytes)),
        2 => Ok((Some(Outcome::Resolved(Resolution::Partial)), bytes)),
        3 => Ok((Some(Outcome::Invalid), bytes)),
        4 => Ok((Some(Outcome::Unresolved), bytes)),
        5 => Ok((Some(Outcome::Ignored), bytes)),
        _ => Err(Misread::Misspelled),
    }
}

/// What was read, where no byte is left.
pub fn whole<T: Drop>(one: T, rest: &[u8]) -> Result<T, Misread>
    ensures { Gives (λ x. x) result (whole (Some (one, rest.now))) }
{
    if rest.is_empty() {
        Ok(one)
    } else {
        Err(Misread::Misspelled)
    }
}
