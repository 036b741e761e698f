//! Effects and rows of the engine, which fetches from peers, as lines.

use crate::peer::Peer;
use crate::print::{
    Lined, bytes, deliver, demand, line_of_number, line_of_numbers, word_and_number,
};
use resolver_core::p2p::rows::{Phase, Row};
use resolver_fetch::fetcher::Ask;
use resolver_mailbox::mocks::Key;
use resolver_model_peer::effects::Effect;
use resolver_model_peer::named::Source;
use std::io;
use std::io::Write;

impl Lined for Effect<Key, Peer, u16> {
    fn print<W: Write>(&self, output: &mut W) -> io::Result<()> {
        match self {
            Effect::Ask(ask) => question(output, ask),
            Effect::Deliver {
                number,
                response,
                delivery,
                value,
            } => deliver(output, *number, *response, delivery, value),
            Effect::Cancel { number } => line_of_number(output, b"cancel ", *number),
            Effect::Produce { serve, key } => {
                line_of_numbers(output, "produce", &[u128::from(*serve), u128::from(key.0)])
            }
            Effect::Reply { peer, bytes, .. } => reply(output, *peer, bytes.as_slice()),
            Effect::Credit { response, source } => credit(output, *response, source),
            Effect::Block { response, peer } => {
                line_of_numbers(
                    output,
                    "block",
                    &[u128::from(*response), u128::from(peer.0)],
                )
            }
        }
    }
}

/// Prints what a scan asks.
fn question<W: Write>(output: &mut W, ask: &Ask<Key, Peer>) -> io::Result<()> {
    match ask {
        Ask::Draw(below) => line_of_numbers(output, "draw", &[*below]),
        Ask::Check(peer) => line_of_number(output, b"check ", u64::from(peer.0)),
        Ask::Request { peer, id, key, .. } => line_of_numbers(
            output,
            "request",
            &[u128::from(peer.0), u128::from(*id), u128::from(key.0)],
        ),
    }
}

fn reply<W: Write>(output: &mut W, peer: Peer, message: &[u8]) -> io::Result<()> {
    word_and_number(output, b"reply ", u64::from(peer.0))?;
    bytes(output, message)?;
    output.write_all(b"\n")
}

fn credit<W: Write>(output: &mut W, response: u64, source: &Source<Peer>) -> io::Result<()> {
    let numbers = [
        u128::from(response),
        u128::from(source.peer.0),
        source.elapsed,
        u128::from(source.bytes),
    ];
    line_of_numbers(output, "credit", &numbers)
}

/// A demanded key.
impl Lined for Row<Key, u16, Peer> {
    fn print<W: Write>(&self, output: &mut W) -> io::Result<()> {
        demand(output, self.key, self.subscribers.as_slice())?;
        match &self.targets {
            None => output.write_all(b" targets all")?,
            Some(peers) => targets(output, peers.as_slice())?,
        }
        write!(output, " retries {}", self.retries)?;
        phase(output, &self.phase)
    }
}

/// Prints the peers that may be asked for a key.
fn targets<W: Write>(output: &mut W, targets: &[Peer]) -> io::Result<()> {
    output.write_all(b" targets ")?;
    let mut before: &[u8] = b"";
    for peer in targets {
        word_and_number(output, before, u64::from(peer.0))?;
        before = b",";
    }
    Ok(())
}

/// Prints what is being done for a key.
fn phase<W: Write>(output: &mut W, phase: &Phase<Peer>) -> io::Result<()> {
    match phase {
        Phase::Waiting {
            is_retry: false,
            due,
        } => line_of_numbers(output, " phase waiting fresh", &[*due]),
        Phase::Waiting {
            is_retry: true,
            due,
        } => line_of_numbers(output, " phase waiting retry", &[*due]),
        Phase::Asked { id, peer, deadline } => line_of_numbers(
            output,
            " phase asked",
            &[u128::from(*id), u128::from(peer.0), *deadline],
        ),
        Phase::Judged { number } => line_of_number(output, b" phase judged ", *number),
    }
}
