//! What an engine takes and wants, as lines.

use crate::fetches::put_fetches;
use crate::leaving::put_retain;
use crate::log::Log;
use bytes::Bytes;
use resolver::base::{Check, Predicate, Span};
use resolver::p2p::effects::Effect;
use resolver::p2p::fetcher::{Answer, Ask};
use resolver::p2p::inputs::{Event, Input};
use resolver::p2p::named::Source;
use resolver::p2p::wire::{Message, Payload};
use resolver::{Delivery, Outcome, Resolution};
use std::alloc::AllocError;

/// The engine takes this.
pub fn put_input<K, P, S, Q>(
    log: &mut Log<K, P, S>,
    input: &Input<K, P, S, Q>,
) -> Result<(), AllocError>
where
    K: Span + Drop,
    P: Ord + Clone + Drop,
    S: Ord + Clone + Drop,
    Q: Predicate<K, S>,
{
    match input {
        Input::Happens(happening) => {
            log.at(happening.now)?;
            put_event(log, &happening.event)
        }
        Input::Answers(answer) => put_answer(log, *answer),
    }
}

fn put_event<K, P, S, Q>(
    log: &mut Log<K, P, S>,
    event: &Event<K, P, S, Q>,
) -> Result<(), AllocError>
where
    K: Span + Drop,
    P: Ord + Clone + Drop,
    S: Ord + Clone + Drop,
    Q: Predicate<K, S>,
{
    match event {
        Event::Fetch(items) => put_fetches(log, items.as_slice()),
        Event::Retain(keep) => put_retain(log, keep),
        Event::PeerSet { index, peers } => {
            log.input("peers ")?;
            log.number(u128::from(*index))?;
            log.word(" ")?;
            log.peers(peers.as_slice())
        }
        Event::Blocked(peers) => {
            log.input("blocked ")?;
            log.peers(peers.as_slice())
        }
        Event::ActiveDue => log.input("timeout"),
        Event::PendingDue => log.input("wake"),
        Event::Verdict { number, outcome } => put_verdict(log, *number, *outcome),
        Event::Served { serve, value } => put_given(log, "served ", *serve, value, "dropped"),
        Event::Net { peer, bytes } => put_net(log, peer, bytes),
        Event::End => log.input("stop"),
    }
}

/// What a peer sent. A script's keys have one byte, so a request's is spelled anew, and what is no message is
/// none there either.
fn put_net<K, P, S>(log: &mut Log<K, P, S>, peer: &P, bytes: &Bytes) -> Result<(), AllocError>
where
    K: Span + Drop,
    P: Ord + Clone + Drop,
    S: Ord + Drop,
{
    log.input("net ")?;
    log.peer(peer)?;
    log.word(" ")?;
    match Message::<K>::decode(bytes.clone()?) {
        Ok(
            Message {
                id,
                payload: Payload::Request(key),
            },
        ) => {
            log.word("x")?;
            log.id(id)?;
            log.word("00")?;
            log.key_byte(&key)
        }
        Ok(_) => log.bytes(bytes),
        Err(_) => log.word("x"),
    }
}

fn put_answer<K: Ord + Drop, P: Ord + Drop, S: Ord + Drop>(
    log: &mut Log<K, P, S>,
    answer: Answer,
) -> Result<(), AllocError> {
    match answer {
        Answer::Drawn(number) => {
            log.input("drawn ")?;
            log.number(number)
        }
        Answer::Checked(Check::Clear) => log.input("checked clear"),
        Answer::Checked(Check::Until(moment)) => {
            log.input("checked ")?;
            log.number(moment)
        }
        Answer::Sent(true) => log.input("sent accepted"),
        Answer::Sent(false) => log.input("sent refused"),
    }
}

/// What the consumer said of a delivery.
pub fn put_verdict<K: Ord + Drop, P: Ord + Drop, S: Ord + Drop>(
    log: &mut Log<K, P, S>,
    number: u64,
    outcome: Option<Outcome>,
) -> Result<(), AllocError> {
    log.input("verdict ")?;
    log.number(u128::from(number))?;
    log.word(match outcome {
        Some(Outcome::Resolved(Resolution::Complete)) => " complete",
        Some(Outcome::Resolved(Resolution::Partial)) => " partial",
        Some(Outcome::Unresolved) => " unresolved",
        Some(Outcome::Invalid) => " invalid",
        Some(Outcome::Ignored) => " ignored",
        None => " dropped",
    })
}

/// What was given under a number, or that nothing was.
pub fn put_given<K: Ord + Drop, P: Ord + Drop, S: Ord + Drop>(
    log: &mut Log<K, P, S>,
    word: &'static str,
    number: u64,
    value: &Option<Bytes>,
    none: &'static str,
) -> Result<(), AllocError> {
    log.input(word)?;
    log.number(u128::from(number))?;
    log.word(" ")?;
    match value {
        Some(value) => log.bytes(value),
        None => log.word(none),
    }
}

/// The engine wants this.
pub fn put_effect<K, P, S>(
    log: &mut Log<K, P, S>,
    effect: &Effect<K, P, S>,
) -> Result<(), AllocError>
where
    K: Ord + Clone + Drop,
    P: Ord + Clone + Drop,
    S: Ord + Clone + Drop,
{
    match effect {
        Effect::Ask(ask) => put_question(log, ask),
        Effect::Deliver {
            number,
            response,
            delivery,
            value,
        } => put_delivery(log, *number, *response, delivery, value),
        Effect::Cancel { number } => {
            log.effect("cancel ")?;
            log.number(u128::from(*number))
        }
        Effect::Produce { serve, key } => {
            log.effect("produce ")?;
            log.number(u128::from(*serve))?;
            log.word(" ")?;
            log.key(key)
        }
        Effect::Reply { peer, bytes, .. } => {
            log.effect("reply ")?;
            log.peer(peer)?;
            log.word(" ")?;
            log.bytes(bytes)
        }
        Effect::Credit { response, source } => put_credit(log, *response, source),
        Effect::Block { response, peer } => {
            log.effect("block ")?;
            log.number(u128::from(*response))?;
            log.word(" ")?;
            log.peer(peer)
        }
    }
}

/// What a scan asks.
fn put_question<K, P, S>(log: &mut Log<K, P, S>, ask: &Ask<K, P>) -> Result<(), AllocError>
where
    K: Ord + Clone + Drop,
    P: Ord + Clone + Drop,
    S: Ord + Drop,
{
    match ask {
        Ask::Draw(below) => {
            log.effect("draw ")?;
            log.number(*below)
        }
        Ask::Check(peer) => {
            log.effect("check ")?;
            log.peer(peer)
        }
        Ask::Request { peer, id, key, .. } => {
            log.effect("request ")?;
            log.peer(peer)?;
            log.word(" ")?;
            log.number(u128::from(*id))?;
            log.word(" ")?;
            log.key(key)
        }
    }
}

/// A value that is handed to the consumer.
pub fn put_delivery<K, P, S>(
    log: &mut Log<K, P, S>,
    number: u64,
    response: u64,
    delivery: &Delivery<K, S>,
    value: &Bytes,
) -> Result<(), AllocError>
where
    K: Ord + Clone + Drop,
    P: Ord + Drop,
    S: Ord + Clone + Drop,
{
    log.effect("deliver ")?;
    log.number(u128::from(number))?;
    log.word(" ")?;
    log.key(&delivery.key)?;
    put_subscribers(log, delivery.subscribers.as_slice())?;
    log.word(" ")?;
    log.bytes(value)?;
    if response == number {
        return Ok(());
    }
    log.word(" again ")?;
    log.number(u128::from(response))
}

/// Subscribers, joined by commas, behind a space.
fn put_subscribers<K: Ord + Drop, P: Ord + Drop, S: Ord + Clone + Drop>(
    log: &mut Log<K, P, S>,
    subscribers: &[(S, u64)],
) -> Result<(), AllocError> {
    let mut before = " ";
    for (subscriber, _) in subscribers {
        log.word(before)?;
        log.subscriber(subscriber)?;
        before = ",";
    }
    Ok(())
}

fn put_credit<K: Ord + Drop, P: Ord + Clone + Drop, S: Ord + Drop>(
    log: &mut Log<K, P, S>,
    response: u64,
    source: &Source<P>,
) -> Result<(), AllocError> {
    log.effect("credit ")?;
    log.number(u128::from(response))?;
    log.word(" ")?;
    log.peer(&source.peer)?;
    log.word(" ")?;
    log.number(source.elapsed)?;
    log.word(" ")?;
    log.number(u128::from(source.bytes))
}
