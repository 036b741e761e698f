//! Effects and rows of the actor, which fetches from an opaque source, as lines.

use crate::print::{Lined, deliver, demand, line_of_number, line_of_numbers, word_and_number};
use bytes::Bytes;
use resolver_mailbox::mocks::Key;
use resolver_opaque_actor::{Effect, Phase, Row};
use std::io;
use std::io::Write;

impl Lined for Effect<Key, Bytes, u16> {
    fn print<W: Write>(&self, output: &mut W) -> io::Result<()> {
        match self {
            Effect::Start { attempt, key } => {
                word_and_number(output, b"start ", *attempt)?;
                line_of_number(output, b" ", u64::from(key.0))
            }
            Effect::Abort { attempt } => line_of_number(output, b"abort ", *attempt),
            Effect::Deliver {
                number,
                response,
                delivery,
                value,
            } => deliver(output, *number, *response, delivery, value),
            Effect::Cancel { number } => line_of_number(output, b"cancel ", *number),
        }
    }
}

/// A demanded key.
impl Lined for Row<Key, u16> {
    fn print<W: Write>(&self, output: &mut W) -> io::Result<()> {
        demand(output, self.key, self.subscribers.as_slice())?;
        let (word, number) = match self.phase {
            Phase::Waiting { due } => (" phase waiting", due),
            Phase::Asked { attempt } => (" phase asked", u128::from(attempt)),
            Phase::Judged { number } => (" phase judged", u128::from(number)),
        };
        line_of_numbers(output, word, &[number])
    }
}
