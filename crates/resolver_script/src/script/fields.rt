//! The fields of a line, and what each says. A field that is not there can't be read.

ghost use Rattle.std.specs.Prelude.{◌≡◌, ◌≤◌, ◌<◌, ◌^◌, ◌⊎◌, ◌-◌, [], map, Ok, Err, IsTrue, IfOk, IfErr};
ghost use Rattle.std.specs.NonZero.{non_zero_u32_get};
ghost use Rattle.std.specs.Option.{option_copied};
ghost use Rattle.std.specs.Char.{is_ascii_digit};
ghost use Rattle.std.specs.List.{list_all};
ghost use Rattle.resolver_script.specs.declared.script.Unread.TheVariants.{OutOfMemory, Unreadable};
ghost use Rattle.resolver_script.specs.declared.script.wrong.Why.TheVariants.{Zero};
ghost use Rattle.resolver_script.specs.Numbers.{begins_plainly, list_of, number_in, number_of, numbers_in, parts_of, within};

use crate::script::{Unread, Why};
use bytes::Bytes;
use memchr::memchr;
use resolver_base::Moment;
use resolver_types::NonEmptyVec;
use std::alloc::{AllocError, Global};
use std::num::NonZeroU32;

/// The fields of a line, between single spaces, and how many were asked for.
#[derive(Drop)]
pub struct Fields<'a> {
    /// What stands behind the fields that were asked for, if more stand there.
    rest: Option<&'a str>,
    count: usize,
}

impl<'a> Fields<'a> {
    /// The fields of this line, of which none was asked for.
    pub fn new(line: &'a str) -> Fields<'a> {
        Fields {
            rest: Some(line),
            count: 0,
        }
    }

    /// The next field, if there is one.
    pub fn next(&mut self) -> Option<&'a str> {
        self.count = self.count.saturating_add(1);
        let rest = self.rest?;
        match memchr(b' ', rest.as_bytes()) {
            Some(end) => {
                self.rest = rest.get(end + 1..);
                rest.get(..end)
            }
            None => {
                self.rest = None;
                Some(rest)
            }
        }
    }

    /// How many fields were asked for: the number of the last one, counted from 1.
    pub fn count(&self) -> usize {
        self.count
    }
}

/// A key: at most 255.
pub fn key(field: Option<&str>) -> Result<u8, Unread>
    ensures { result ≡ number_of (option_copied field.entry) 255 }
{
    Ok(number(field, u128::from(u8::MAX))? as u8)
}

/// A peer: at most 255.
pub fn peer(field: Option<&str>) -> Result<u8, Unread>
    ensures { result ≡ number_of (option_copied field.entry) 255 }
{
    Ok(number(field, u128::from(u8::MAX))? as u8)
}

/// A subscriber: at most 65535.
pub fn subscriber(field: Option<&str>) -> Result<u16, Unread>
    ensures { result ≡ number_of (option_copied field.entry) 65535 }
{
    Ok(number(field, u128::from(u16::MAX))? as u16)
}

/// A mark, an index, or the number of a delivery, an attempt or a serve.
pub fn count(field: Option<&str>) -> Result<u64, Unread>
    ensures { result ≡ number_of (option_copied field.entry) (2 ^ 64 - 1) }
{
    Ok(number(field, u128::from(u64::MAX))? as u64)
}

/// A drawn number, or the moment of a limit.
pub fn wide(field: Option<&str>) -> Result<u128, Unread>
    ensures { result ≡ number_of (option_copied field.entry) (2 ^ 128 - 1) }
{
    number(field, u128::MAX)
}

/// A moment or a duration, in nanoseconds: below 2^94.
pub fn moment(field: Option<&str>) -> Result<Moment, Unread>
    ensures is { IfOk result
        (λ moment. number_of (option_copied field.entry) (2 ^ 94 - 1) ≡ Ok moment.nanoseconds) }
    ensures err { IfErr result
        (λ unread. number_of (option_copied field.entry) (2 ^ 94 - 1) ≡ Err unread) }
{
    let nanoseconds = number(field, (1 << 94) - 1)?;
    Ok(Moment { nanoseconds })
}

/// A duration that is not 0.
pub fn timeout(field: Option<&str>) -> Result<u128, Unread>
    ensures is { IfOk result (λ n. number_of (option_copied field.entry) (2 ^ 94 - 1) ≡ Ok n) }
    ensures some { IfOk result (λ n. 0 < n) }
    ensures limit { IfOk result (λ n. n < 2 ^ 94) }
    ensures err { IfErr result (λ unread.
        (number_of (option_copied field.entry) (2 ^ 94 - 1) ≡ Err unread)
        ⊎ ((unread ≡ Unreadable Zero) × (number_of (option_copied field.entry) (2 ^ 94 - 1) ≡ Ok 0))) }
{
    let nanoseconds = number(field, (1 << 94) - 1)?;
    if nanoseconds == 0 {
        return Err(Unread::Unreadable(Why::Zero));
    }
    Ok(nanoseconds)
}

/// How many requests one peer may have: from 1 to 2^32 - 1.
pub fn limit(field: Option<&str>) -> Result<NonZeroU32, Unread>
    ensures is { IfOk result (λ most.
        number_of (option_copied field.entry) (2 ^ 32 - 1) ≡ Ok (non_zero_u32_get most)) }
    ensures err { IfErr result (λ unread.
        (number_of (option_copied field.entry) (2 ^ 32 - 1) ≡ Err unread)
        ⊎ ((unread ≡ Unreadable Zero) × (number_of (option_copied field.entry) (2 ^ 32 - 1) ≡ Ok 0))) }
{
    let most = number(field, u128::from(u32::MAX))? as u32;
    NonZeroU32::new(most).ok_or(Unread::Unreadable(Why::Zero))
}

/// A decimal number up to `most`, without sign or leading zeros.
fn number(field: Option<&str>, most: u128) -> Result<u128, Unread>
    ensures is { result ≡ number_of (option_copied field.entry) most }
    ensures limit { IfOk result (λ n. n ≤ most) }
{
    let digits = field.ok_or(Unread::Unreadable(Why::Missing))?;
    if !begins_plainly(digits.as_bytes()) {
        return Err(Unread::Unreadable(Why::NoNumber));
    }
    match digits.parse::<u64>() {
        Ok(n) => within(u128::from(n), most),
        Err(_) => long_number(digits, most),
    }
}

/// The same, of a number that has more than 64 bits, if it is one.
fn long_number(digits: &str, most: u128) -> Result<u128, Unread>
    requires begins { IsTrue (begins_plainly digits.now) }
    ensures { result ≡ number_in digits.now most }
{
    if !are_digits(digits.as_bytes()) {
        return Err(Unread::Unreadable(Why::NoNumber));
    }
    match digits.parse::<u128>() {
        Ok(n) => within(n, most),
        Err(_) => Err(Unread::Unreadable(Why::Above(most))),
    }
}

/// A number, if it is within its limit.
fn within(number: u128, most: u128) -> Result<u128, Unread>
    ensures { result ≡ within number most }
{
    if number <= most {
        Ok(number)
    } else {
        Err(Unread::Unreadable(Why::Above(most)))
    }
}

/// Whether a digit comes first, which is 0 only where it stands alone.
fn begins_plainly(digits: &[u8]) -> bool
    ensures { result ≡ begins_plainly digits.now }
{
    match digits {
        [] => false,
        [digit] => digit.is_ascii_digit(),
        [first, ..] => first.is_ascii_digit() && *first != b'0',
    }
}

/// Whether each byte is a decimal digit.
fn are_digits(bytes: &[u8]) -> bool
    ensures { result ≡ list_all is_ascii_digit bytes.now }
{
    bytes.iter().all(|byte| byte.is_ascii_digit())
}

/// Peers, joined by commas; `-` is the empty list.
pub fn peers(alloc: Global, field: Option<&str>) -> Result<Vec<u8>, Unread>
    ensures is { IfOk result (λ peers. list_of (option_copied field.entry) 255 ≡ Ok peers.items) }
    ensures err { IfErr result
        (λ unread. (unread ≡ OutOfMemory) ⊎ (list_of (option_copied field.entry) 255 ≡ Err unread)) }
{
    match field {
        Some("-") => Ok(Vec::new(alloc)),
        Some(text) => numbers(alloc, &parts(alloc, text)?),
        None => Err(Unread::Unreadable(Why::Missing)),
    }
}

/// Keys, joined by commas; `-` is the empty list.
pub fn keys(alloc: Global, field: Option<&str>) -> Result<Vec<u8>, Unread>
    ensures is { IfOk result (λ keys. list_of (option_copied field.entry) 255 ≡ Ok keys.items) }
    ensures err { IfErr result
        (λ unread. (unread ≡ OutOfMemory) ⊎ (list_of (option_copied field.entry) 255 ≡ Err unread)) }
{
    peers(alloc, field)
}

/// Peers, joined by commas: one at least.
pub fn targets(alloc: Global, field: Option<&str>) -> Result<NonEmptyVec<u8>, Unread>
    ensures is { IfOk result (λ peers. list_of (option_copied field.entry) 255 ≡ Ok peers) }
    ensures err { IfErr result (λ unread. (unread ≡ OutOfMemory)
        ⊎ (list_of (option_copied field.entry) 255 ≡ Err unread)
        ⊎ (list_of (option_copied field.entry) 255 ≡ Ok [])) }
{
    match NonEmptyVec::try_from(peers(alloc, field)?) {
        Ok(peers) => Ok(peers),
        Err(_) => Err(Unread::Unreadable(Why::NoPeers)),
    }
}

/// What stands between the commas.
fn parts(alloc: Global, text: &str) -> Result<Vec<&str>, AllocError>
    ensures { IfOk result (λ parts. map (λ part. part.now) parts.items ≡ parts_of text.now) }
{
    text.split(',').collect(alloc)
}

/// Peers, one in each part.
fn numbers(alloc: Global, parts: &[&str]) -> Result<Vec<u8>, Unread>
    ensures is { IfOk result
        (λ peers. numbers_in (map (λ part. part.now) parts.now) 255 ≡ Ok peers.items) }
    ensures err { IfErr result (λ unread. (unread ≡ OutOfMemory)
        ⊎ (numbers_in (map (λ part. part.now) parts.now) 255 ≡ Err unread)) }
{
    let mut numbers = Vec::new(alloc);
    for part in parts {
        match peer(Some(*part)) {
            Ok(number) => numbers.push(number)?,
            Err(_) => return Err(Unread::Unreadable(Why::NoList)),
        }
    }
    Ok(numbers)
}

/// Bytes as `x` and hexadecimal digits of either case, two a byte.
pub fn bytes(alloc: Global, field: Option<&str>) -> Result<Bytes, Unread> {
    let field = field.ok_or(Unread::Unreadable(Why::Missing))?;
    let digits = field
        .strip_prefix('x')
        .ok_or(Unread::Unreadable(Why::NoBytes))?;
    match hex::decode(alloc, digits) {
        Ok(bytes) => Ok(Bytes::from_vec(bytes)?),
        Err(hex::FromHexError::OutOfMemory) => Err(Unread::OutOfMemory),
        Err(_) => Err(Unread::Unreadable(Why::NoBytes)),
    }
}
