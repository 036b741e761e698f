//! The lines of a script.

ghost use Rattle.std.specs.Prelude.{◌≡◌, ◌<◌, ◌^◌};
ghost use Rattle.resolver_script.specs.declared.script.Unread.TheVariants.{OutOfMemory};

mod fields;
mod inputs;
mod wrong;

use crate::kept::Kept;
use crate::planning::Planned;
use bytes::Bytes;
use fields::{Fields, limit, moment, peer, timeout};
use inputs::{of_both_machines, of_peers, of_plans, of_scans, of_sources};
use resolver_base::Moment;
use resolver_fetch::fetcher::Answer;
use resolver_mailbox::mocks::Key;
use resolver_types::{Fetch, NonEmptyVec, Outcome};
use std::alloc::{AllocError, AllocFailed, Global};
use std::num::NonZeroU32;
use std::str;
pub use wrong::{Why, Wrong};

/// How an engine that fetches from peers asks them, in nanoseconds.
#[derive(Clone, Copy)]
pub struct Timing {
    /// The local peer, if there is one.
    pub me: Option<u8>,
    /// How long a request may take.
    pub timeout: u128,
    /// How long a key waits before it is tried again.
    pub delay: u128,
    /// How many requests one peer may have, if that is limited.
    pub limit: Option<NonZeroU32>,
    ghost positive: { 0 < timeout },
    ghost timeout_in_range: { timeout < 2 ^ 94 },
    ghost delay_in_range: { delay < 2 ^ 94 },
}

/// What a line says.
#[derive(Drop)]
pub enum Command {
    /// `opaque DELAY`: a new actor.
    Opaque { delay: Moment },
    /// `p2p ME TIMEOUT DELAY` and `p2p ME TIMEOUT DELAY LIMIT`: a new engine.
    Peers(Timing),
    /// `at T`: the moment from now on.
    At(Moment),
    /// `show`: prints the rows and the wake-up.
    Show,
    /// Something happened.
    Happens(Said),
    /// `drawn N`, `checked clear`, `checked T`, `sent accepted` and `sent refused`: what the open
    /// scan asked is answered.
    Answers(Answer),
    /// `backfill S M`, `want LIST` and `done LIST`: what is planned.
    Plans(Planned),
}

/// What a line says that happened.
#[derive(Drop)]
pub enum Said {
    /// `fetch K S M` and `fetch K S M LIST`: a subscriber wants a key.
    Fetch(Wish),
    /// `want LIST`: the plan's subscriber wants keys.
    FetchAll(Vec<Fetch<Key, u16>>),
    /// `keep-sub S`, `drop-key K` and `done LIST`: subscribers want their keys no more.
    Retain(Kept),
    /// `verdict N W`: what the consumer said, or nothing where it dropped the delivery.
    Verdict {
        number: u64,
        outcome: Option<Outcome>,
    },
    /// `wake`: it is time to ask for keys that wait.
    Wake,
    /// `stop`: nothing is wanted any more.
    Stop,
    /// `fetched A BYTES` or `fetched A none`: what the opaque source answered.
    Fetched {
        attempt: u64,
        value: Option<Bytes>,
    },
    /// `timeout`: a request's time is over.
    Timeout,
    /// `peers INDEX LIST`: the peers of a set.
    Peers {
        index: u64,
        peers: Vec<u8>,
    },
    /// `blocked LIST`: all peers that are blocked.
    Blocked(Vec<u8>),
    /// `net P BYTES`: what a peer sent.
    Net {
        peer: u8,
        bytes: Bytes,
    },
    /// `served N BYTES` or `served N dropped`: what the producer has for a peer's request.
    Served {
        serve: u64,
        value: Option<Bytes>,
    },
}

/// A subscriber that wants a key, and the peers that it names for it, if it names some.
#[derive(Drop)]
pub struct Wish {
    pub key: u8,
    pub subscriber: u16,
    pub mark: u64,
    pub targets: Option<NonEmptyVec<u8>>,
}

/// Why a field was not read.
#[derive(Clone, Copy)]
pub enum Unread {
    /// It says nothing that a script may say there.
    Unreadable(Why),
    OutOfMemory,
}

/// Why a line was not read.
#[derive(Clone, Copy)]
pub enum Rejected {
    /// It says nothing that a script may say.
    Unreadable(Wrong),
    OutOfMemory,
}

impl From<AllocError> for Unread {
    ghost from_gives = { λ _ unread. unread ≡ OutOfMemory };

    fn from(_: AllocError) -> Unread {
        Unread::OutOfMemory
    }
}

impl<T: Drop> From<AllocFailed<T>> for Unread {
    ghost from_gives = { λ _ unread. unread ≡ OutOfMemory };

    fn from(_: AllocFailed<T>) -> Unread {
        Unread::OutOfMemory
    }
}

/// Whether a line is skipped: it is empty or a comment.
pub fn is_skipped(line: &[u8]) -> bool {
    matches!(line, [] | [b'#', ..])
}

/// What a line says that is not skipped. It lacks its LF.
pub fn parse(alloc: Global, line: &[u8]) -> Result<Command, Rejected> {
    let Ok(text) = str::from_utf8(line) else {
        return Err(Rejected::Unreadable(Wrong::of_line(Why::NoText)));
    };
    let mut fields = Fields::new(text);
    match read_fields(alloc, &mut fields) {
        Ok(command) => Ok(command),
        Err(Unread::Unreadable(why)) => {
            Err(Rejected::Unreadable(Wrong::found(line, fields.count(), why)))
        }
        Err(Unread::OutOfMemory) => Err(Rejected::OutOfMemory),
    }
}

/// What all fields of a line say.
fn read_fields(alloc: Global, fields: &mut Fields<'_>) -> Result<Command, Unread> {
    let Some(word) = fields.next() else {
        return Err(Unread::Unreadable(Why::Missing));
    };
    let read = read_command(alloc, word, fields);
    if read.is_err() || fields.next().is_none() {
        return read;
    }
    Err(Unread::Unreadable(Why::TooMany))
}

/// What a line says that begins with this word.
fn read_command(alloc: Global, word: &str, fields: &mut Fields<'_>) -> Result<Command, Unread> {
    if let Some(said) = of_both_machines(alloc, word, fields)? {
        return Ok(Command::Happens(said));
    }
    if let Some(said) = of_sources(alloc, word, fields)? {
        return Ok(Command::Happens(said));
    }
    if let Some(command) = of_the_script(word, fields)? {
        return Ok(command);
    }
    if let Some(answer) = of_scans(word, fields)? {
        return Ok(Command::Answers(answer));
    }
    if let Some(said) = of_peers(alloc, word, fields)? {
        return Ok(Command::Happens(said));
    }
    match of_plans(alloc, word, fields)? {
        Some(planned) => Ok(Command::Plans(planned)),
        None => Err(Unread::Unreadable(Why::NoWord)),
    }
}

/// What a line says that opens a machine, or that no machine is fed, if its word does so.
fn of_the_script(word: &str, fields: &mut Fields<'_>) -> Result<Option<Command>, Unread> {
    Ok(Some(match word {
        "opaque" => Command::Opaque {
            delay: moment(fields.next())?,
        },
        "p2p" => Command::Peers(read_timing(fields)?),
        "at" => Command::At(moment(fields.next())?),
        "show" => Command::Show,
        _ => return Ok(None),
    }))
}

fn read_timing(fields: &mut Fields<'_>) -> Result<Timing, Unread> {
    let me = match fields.next() {
        Some("-") => None,
        field => Some(peer(field)?),
    };
    let timeout = timeout(fields.next())?;
    let delay = moment(fields.next())?.nanoseconds;
    let limit = match fields.next() {
        None => None,
        field => Some(limit(field)?),
    };
    Ok(Timing {
        me,
        timeout,
        delay,
        limit,
    })
}
