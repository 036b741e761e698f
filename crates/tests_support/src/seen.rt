//! What goes wrong around an engine, and what its fakes are asked, as lines.

use crate::kinds::{EffectKind, InputKind};
use crate::names::Peer;
use bytes::Bytes;
use futures::channel::mpsc;
use resolver_base::{Check, Feedback};
use resolver_mailbox::mocks::Key;
use resolver_types::Delivery;
use std::alloc::AllocError;
use std::fmt;
use std::fmt::{Display, Formatter, Write};

/// What goes wrong around an engine. Checks and sends are counted from 1.
#[derive(Clone, Copy, Debug)]
pub enum Wrong {
    Nothing,
    /// The consumer has no memory.
    Consumer,
    /// The consumer drops every one-shot.
    Drops,
    /// The producer has no memory.
    Producer,
    /// So many checks, from the first of these on, say that the peer is to wait for this moment.
    Checks { first: u64, count: u64, until: u64 },
    /// So many sends, from the first of these on, are refused.
    Sends { first: u64, count: u64 },
    /// Every send is refused whose number is a multiple of seven.
    Sevenths,
    /// One check of eight says that the peer is to wait for a moment up to `until`, and one send of four is refused,
    /// by draws that follow from the seed.
    Drawn { seed: u64, until: u32 },
}

impl Wrong {
    /// What the check of this number says.
    pub fn check(self, number: u64) -> Check {
        match self {
            Wrong::Checks {
                first,
                count,
                until,
            } if is_in(number, first, count) => Check::Until(until as u128),
            _ => Check::Clear,
        }
    }

    /// Whether the send of this number is refused.
    pub fn is_refused(self, number: u64) -> bool {
        match self {
            Wrong::Sends { first, count } => is_in(number, first, count),
            Wrong::Sevenths => number % 7 == 0,
            _ => false,
        }
    }
}

/// Whether a number is one of so many from the first one on.
fn is_in(number: u64, first: u64, count: u64) -> bool {
    number >= first && number - first < count
}

/// Bytes as `x` and two digits for each.
#[derive(Clone, Copy)]
pub struct Hex<'a>(pub &'a [u8]);

impl fmt::Display for Hex<'_> {
    fn fmt<W: Write>(&self, f: &mut Formatter<W>) -> fmt::Result {
        f.write_str("x")?;
        for byte in self.0 {
            write!(f, "{byte:02x}")?;
        }
        Ok(())
    }
}

/// What the fakes are asked.
#[derive(Drop)]
pub enum Seen {
    Drew(u128),
    Checked(Peer),
    /// A check that was answered by a moment.
    Limited(Peer),
    /// A send, and whether it has priority.
    Sent(Peer, Bytes, bool),
    /// The same of one that was refused.
    Refused(Peer, Bytes, bool),
    Delivered(Delivery<Key, u16>, Bytes),
    Produced(Key),
    Blocked(Peer),
    /// A look of an opaque source.
    Looked(Key),
    /// A watcher was told of an input, with its moment where it is an event.
    Took(InputKind, Option<u128>),
    /// A watcher was told of an effect.
    Wanted(EffectKind),
}

/// A line for each.
impl fmt::Display for Seen {
    fn fmt<W: Write>(&self, f: &mut Formatter<W>) -> fmt::Result {
        match self {
            Seen::Drew(below) => write!(f, "draw {below}"),
            Seen::Checked(peer) => write!(f, "check {}", peer.0),
            Seen::Limited(peer) => write!(f, "limit {}", peer.0),
            Seen::Sent(peer, bytes, priority) => write_send(f, "send", *peer, bytes, *priority),
            Seen::Refused(peer, bytes, priority) => {
                write_send(f, "refuse", *peer, bytes, *priority)
            },
            Seen::Delivered(delivery, value) => write_delivery(f, delivery, value),
            Seen::Produced(key) => write!(f, "produce {}", key.0),
            Seen::Blocked(peer) => write!(f, "block {}", peer.0),
            Seen::Looked(key) => write!(f, "look {}", key.0),
            Seen::Took(kind, Some(now)) => write!(f, "told {} at {now}", kind.word()),
            Seen::Took(kind, None) => write!(f, "told {}", kind.word()),
            Seen::Wanted(kind) => write!(f, "told of {}", kind.words()),
        }
    }
}

fn write_send<W: Write>(
    f: &mut Formatter<W>,
    word: &str,
    peer: Peer,
    bytes: &Bytes,
    priority: bool,
) -> fmt::Result {
    let priority = if priority { " first" } else { "" };
    write!(f, "{word} {} {}{priority}", peer.0, Hex(bytes.as_slice()))
}

fn write_delivery<W: Write>(
    f: &mut Formatter<W>,
    delivery: &Delivery<Key, u16>,
    value: &Bytes,
) -> fmt::Result {
    write!(f, "deliver {} to", delivery.key.0)?;
    for (subscriber, mark) in delivery.subscribers.iter() {
        write!(f, " {subscriber}:{mark}")?;
    }
    write!(f, " {}", Hex(value.as_slice()))
}

/// Where a test is told of it.
pub type Told = mpsc::UnboundedSender<Seen>;

/// Tells what was asked, where anybody listens.
pub fn tell(told: &Told, seen: Seen) {
    drop(told.unbounded_send(seen));
}

/// Writes what some fakes were asked since the last time.
pub fn spell<T: fmt::Display + Drop>(
    text: &mut String,
    told: &mut mpsc::UnboundedReceiver<T>,
) -> Result<(), AllocError> {
    for _ in 0..100_000_u64 {
        let Ok(seen) = told.try_recv() else {
            return Ok(());
        };
        let written = writeln!(text, "{seen}");
        written?;
    }
    Ok(())
}

/// Writes a line of a word and of what is said of it.
pub fn spell_said(
    text: &mut String,
    word: &str,
    said: impl Display + Copy,
) -> Result<(), AllocError> {
    writeln!(text, "{word} {said}")
}

/// Writes how a fetch was taken.
pub fn spell_feedback(text: &mut String, feedback: Feedback) -> Result<(), AllocError> {
    writeln!(text, "{feedback:?}")
}
