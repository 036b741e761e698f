//! What a command may be the cause of.

use resolver_core::Outcome;
use resolver_core::base::Check;
use resolver_core::p2p::fetcher::Answer;
use resolver_script::script::{Command, Said, Timing};
use std::alloc::{AllocError, Global};

/// What a command may be the cause of, as far as a picture shows it.
#[derive(Drop)]
pub enum Cause {
    /// An actor was opened.
    Source,
    /// An engine was opened.
    Engine(Timing),
    /// The time of a request is over.
    Timeout,
    /// A peer sent something.
    Message,
    /// A response was right.
    Resolved,
    /// A peer may not be sent to before some moment.
    Postponed,
    /// An open scan was answered something else.
    Answer,
    /// The peers of a set, with its index.
    Set(u64, Vec<u8>),
    /// All peers that are blocked.
    Blocked(Vec<u8>),
    /// Nothing else than what effects and rows show.
    Other,
}

impl Cause {
    /// What this command may be the cause of.
    pub fn of(command: &Command) -> Result<Cause, AllocError> {
        Ok(match command {
            Command::Opaque { .. } => Cause::Source,
            Command::Peers(timing) => Cause::Engine(*timing),
            Command::Answers(answer) => of_answer(*answer),
            Command::Happens(said) => of_said(said)?,
            Command::At(_) | Command::Show | Command::Plans(_) => Cause::Other,
        })
    }

    /// Whether it answers an open scan: then it is of the moment at which the scan began.
    pub fn is_answer(&self) -> bool {
        matches!(self, Cause::Answer | Cause::Postponed)
    }
}

fn of_answer(answer: Answer) -> Cause {
    match answer {
        Answer::Checked(Check::Until(_)) => Cause::Postponed,
        _ => Cause::Answer,
    }
}

fn of_said(said: &Said) -> Result<Cause, AllocError> {
    Ok(match said {
        Said::Timeout => Cause::Timeout,
        Said::Net { .. } => Cause::Message,
        Said::Verdict {
            outcome: Some(Outcome::Resolved(_)),
            ..
        } => Cause::Resolved,
        Said::Peers { index, peers } => Cause::Set(*index, peers.clone()?),
        Said::Blocked(peers) => Cause::Blocked(peers.clone()?),
        _ => Cause::Other,
    })
}
