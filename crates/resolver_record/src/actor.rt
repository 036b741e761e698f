//! What an actor takes and wants, as lines.

use crate::engine::{put_delivery, put_given, put_verdict};
use crate::fetches::put_fetches;
use crate::leaving::put_retain;
use crate::log::Log;
use bytes::Bytes;
use resolver::base::Predicate;
use resolver::opaque::{Effect, Event, Input};
use std::alloc::AllocError;

/// The actor takes this.
pub fn put_input<K, S, Q>(
    log: &mut Log<K, (), S>,
    input: &Input<K, Bytes, S, Q>,
) -> Result<(), AllocError>
where
    K: Ord + Clone + Drop,
    S: Ord + Clone + Drop,
    Q: Predicate<K, S>,
{
    log.at(input.now)?;
    match &input.event {
        Event::Fetch(items) => put_fetches(log, items.as_slice()),
        Event::Retain(keep) => put_retain(log, keep),
        Event::Fetched { attempt, value } => put_given(log, "fetched ", *attempt, value, "none"),
        Event::Verdict { number, outcome } => put_verdict(log, *number, *outcome),
        Event::RetriesDue => log.input("wake"),
        Event::End => log.input("stop"),
    }
}

/// The actor wants this.
pub fn put_effect<K, S>(
    log: &mut Log<K, (), S>,
    effect: &Effect<K, Bytes, S>,
) -> Result<(), AllocError>
where
    K: Ord + Clone + Drop,
    S: Ord + Clone + Drop,
{
    match effect {
        Effect::Start { attempt, key } => {
            log.effect("start ")?;
            log.number(u128::from(*attempt))?;
            log.word(" ")?;
            log.key(key)
        }
        Effect::Abort { attempt } => {
            log.effect("abort ")?;
            log.number(u128::from(*attempt))
        }
        Effect::Deliver {
            number,
            response,
            delivery,
            value,
        } => put_delivery(log, *number, *response, delivery, value),
        Effect::Cancel { number } => {
            log.effect("cancel ")?;
            log.number(u128::from(*number))
        }
    }
}
