//! What a node's core takes, as lines of a script for `resolver-replay`.

use crate::height::Height;
use crate::settings::{Settings, nanos};
use crate::world::Happens;
use resolver_core::base::{Check, NonEmptyVec};
use resolver_core::ingress::FetchKey;
use resolver_core::p2p::fetcher::Answer;
use resolver_core::p2p::inputs::Event;
use resolver_core::{Outcome, Resolution};
use std::alloc::{AllocError, Global};
use std::fmt::Write;

/// The lines of a node. A script has keys and peers up to 255, so that of a run with more can't be read.
#[derive(Drop)]
pub struct Script {
    lines: String,
    now: u128,
}

/// A key that is wanted.
type Item = FetchKey<Height, u16, Option<NonEmptyVec<u16>>>;

impl Script {
    /// The script of a node of this name. It opens the core, and a plan.
    pub fn new(alloc: Global, me: u16, settings: &Settings) -> Result<Script, AllocError> {
        let mut lines = String::new(alloc);
        let (timeout, delay) = (nanos(settings.timeout), nanos(settings.delay));
        write!(lines, "p2p {me} {timeout} {delay}")?;
        if settings.peer_limit > 0 {
            write!(lines, " {}", settings.peer_limit)?;
        }
        writeln!(lines, "\nbackfill 0 0")?;
        Ok(Script { lines, now: 0 })
    }

    /// The lines.
    pub fn as_str(&self) -> &str {
        self.lines.as_str()
    }

    /// The core takes this event.
    pub fn note_event(&mut self, now: u128, event: &Happens) -> Result<(), AllocError> {
        if now > self.now {
            self.now = now;
            writeln!(self.lines, "at {now}")?;
        }
        match event {
            Event::Fetch(items) => self.note_wants(items.as_slice()),
            Event::PeerSet { index, peers } => {
                write!(self.lines, "peers {index} ")?;
                self.end_list(peers.as_slice())
            }
            Event::Blocked(peers) => {
                self.lines.push_str("blocked ")?;
                self.end_list(peers.as_slice())
            }
            Event::ActiveDue => self.lines.push_str("timeout\n"),
            Event::PendingDue => self.lines.push_str("wake\n"),
            Event::Verdict { number, outcome } => {
                writeln!(self.lines, "verdict {number} {}", word_of(*outcome))
            }
            Event::Served { serve, value } => self.note_served(
                *serve,
                value.as_ref().map(|value| value.as_slice()),
            ),
            Event::Net { peer, bytes } => {
                write!(self.lines, "net {peer} ")?;
                self.end_message(bytes.as_slice())
            }
            Event::Retain(_) | Event::End => self.lines.push_str("stop\n"),
        }
    }

    /// The core takes this answer.
    pub fn note_answer(&mut self, answer: Answer) -> Result<(), AllocError> {
        match answer {
            Answer::Drawn(number) => writeln!(self.lines, "drawn {number}"),
            Answer::Checked(Check::Clear) => self.lines.push_str("checked clear\n"),
            Answer::Checked(Check::Until(moment)) => writeln!(self.lines, "checked {moment}"),
            Answer::Sent(true) => self.lines.push_str("sent accepted\n"),
            Answer::Sent(false) => self.lines.push_str("sent refused\n"),
        }
    }

    /// A line that has a plan want these keys.
    fn note_wants(&mut self, items: &[Item]) -> Result<(), AllocError> {
        self.lines.push_str("want ")?;
        let mut comma = "";
        for item in items {
            write!(self.lines, "{comma}{}", item.key.number())?;
            comma = ",";
        }
        self.lines.push_str("\n")
    }

    /// The rest of a line that lists peers.
    fn end_list(&mut self, peers: &[u16]) -> Result<(), AllocError> {
        let mut comma = "";
        for peer in peers {
            write!(self.lines, "{comma}{peer}")?;
            comma = ",";
        }
        self.lines
            .push_str(if peers.is_empty() { "-\n" } else { "\n" })
    }

    /// The producer has these bytes, or none.
    fn note_served(&mut self, serve: u64, value: Option<&[u8]>) -> Result<(), AllocError> {
        write!(self.lines, "served {serve} ")?;
        match value {
            Some(value) => self.end_bytes(value),
            None => self.lines.push_str("dropped\n"),
        }
    }

    /// The rest of a line that has a message. A script's key has one byte, so that of a request has its last byte alone.
    fn end_message(&mut self, bytes: &[u8]) -> Result<(), AllocError> {
        match bytes {
            [a, b, c, d, e, f, g, h, 0, _, low] => {
                self.end_bytes(&[*a, *b, *c, *d, *e, *f, *g, *h, 0, *low])
            }
            _ => self.end_bytes(bytes),
        }
    }

    /// The rest of a line that has bytes.
    fn end_bytes(&mut self, bytes: &[u8]) -> Result<(), AllocError> {
        self.lines.push_str("x")?;
        for byte in bytes {
            write!(self.lines, "{byte:02x}")?;
        }
        self.lines.push_str("\n")
    }
}

/// A verdict's word.
fn word_of(outcome: Option<Outcome>) -> &'static str {
    match outcome {
        Some(Outcome::Resolved(Resolution::Complete)) => "complete",
        Some(Outcome::Resolved(Resolution::Partial)) => "partial",
        Some(Outcome::Unresolved) => "unresolved",
        Some(Outcome::Invalid) => "invalid",
        Some(Outcome::Ignored) => "ignored",
        None => "dropped",
    }
}
