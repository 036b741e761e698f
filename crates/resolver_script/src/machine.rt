//! The machine that a script feeds.

use crate::endings::Fault;
use crate::opaque::Opaque;
use crate::peer::Peer;
use crate::peers::Peers;
use crate::script::{Said, Why};
use bytes::Bytes;
use resolver_base::Moment;
use resolver_fetch::fetcher::Answer;
use resolver_mailbox::mocks::Key;
use resolver_model_peer::effects::Effect;
use std::io::Write;

/// What came of a command.
#[derive(Drop)]
pub enum Turn {
    /// The machine was fed nothing.
    Quiet,
    /// The rows and the wake-up are to be printed.
    Show,
    /// The actor took what it was fed, and wants this done.
    Opaque(Vec<resolver_opaque_actor::Effect<Key, Bytes, u16>>),
    /// The engine took what it was fed, and wants this done.
    Peers(Vec<Effect<Key, Peer, u16>>),
    /// The machine refused what it was fed.
    Refused(resolver_base::Fault),
    /// The command may not stand here.
    Wrong(Why),
}

impl Turn {
    /// Whether the machine took what it was fed.
    pub fn is_taken(&self) -> bool {
        matches!(self, Turn::Opaque(_) | Turn::Peers(_))
    }

    /// Why the command may not stand here, if it may not.
    pub fn why(&self) -> Option<Why> {
        match self {
            Turn::Wrong(why) => Some(*why),
            _ => None,
        }
    }
}

/// The machine that a script feeds.
#[derive(Drop)]
pub enum Machine {
    Opaque(Opaque),
    Peers(Peers),
}

impl Machine {
    /// Prints its rows and its wake-up.
    pub fn show<W: Write>(&self, output: &mut W) -> Result<(), Fault> {
        match self {
            Machine::Opaque(actor) => actor.show(output),
            Machine::Peers(engine) => engine.show(output),
        }
    }

    /// Feeds what happened.
    pub fn happens(&mut self, now: Moment, said: Said) -> Result<Turn, Fault> {
        match self {
            Machine::Opaque(actor) => actor.happens(now, said),
            Machine::Peers(engine) => engine.happens(now, said),
        }
    }

    /// Feeds what the open scan is answered.
    pub fn answers(&mut self, answer: Answer) -> Turn {
        match self {
            Machine::Opaque(_) => Turn::Wrong(Why::OtherMachine),
            Machine::Peers(engine) => engine.answers(answer),
        }
    }
}
