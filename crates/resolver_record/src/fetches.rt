//! Fetches, as lines.

use crate::log::Log;
use resolver::base::NonEmptyVec;
use resolver::ingress::FetchKey;
use std::alloc::AllocError;

/// Which peers a fetch names, if it names some.
pub trait Targets<P> {
    fn listed(&self) -> Option<&[P]>;
}

impl<P> Targets<P> for Option<NonEmptyVec<P>> {
    fn listed(&self) -> Option<&[P]> {
        match self {
            Some(peers) => Some(peers.as_slice()),
            None => None,
        }
    }
}

impl<P> Targets<P> for () {
    fn listed(&self) -> Option<&[P]> {
        None
    }
}

/// One message of fetches. A line says one of a subscriber, or several of one subscriber and mark, in key order and of
/// any peer, as a plan has them.
pub fn put_fetches<K, P, S, M>(
    log: &mut Log<K, P, S>,
    items: &[FetchKey<K, S, M>],
) -> Result<(), AllocError>
where
    K: Ord + Clone + Drop,
    P: Ord + Clone + Drop,
    S: Ord + Clone + Drop,
    M: Targets<P>,
{
    for item in items {
        put_pairs(log, item)?;
    }
    match items {
        [item] if item.subscribers.len() == 1 => put_fetch(log, item),
        [first, rest @ ..] if are_planned(first, rest) => put_plan(log, first, items),
        _ => log.leave_unsaid("a message of several fetches"),
    }
}

/// Who wants a key.
fn put_pairs<K, P, S, M>(log: &mut Log<K, P, S>, item: &FetchKey<K, S, M>) -> Result<(), AllocError>
where
    K: Ord + Clone + Drop,
    P: Ord + Drop,
    S: Ord + Clone + Drop,
{
    for (subscriber, _) in item.subscribers.as_slice() {
        log.pair(&item.key, subscriber)?;
    }
    Ok(())
}

/// A line of one fetch of one subscriber.
fn put_fetch<K, P, S, M>(log: &mut Log<K, P, S>, item: &FetchKey<K, S, M>) -> Result<(), AllocError>
where
    K: Ord + Clone + Drop,
    P: Ord + Clone + Drop,
    S: Ord + Clone + Drop,
    M: Targets<P>,
{
    let (subscriber, mark) = item.subscribers.first();
    log.input("fetch ")?;
    log.key(&item.key)?;
    log.word(" ")?;
    log.subscriber(subscriber)?;
    log.word(" ")?;
    log.number(u128::from(*mark))?;
    match item.metadata.listed() {
        Some(peers) => {
            log.word(" ")?;
            log.peers(peers)
        }
        None => Ok(()),
    }
}

/// Whether all have one subscriber and mark, and no targets, in key order.
fn are_planned<K: Ord + Drop, P, S: Ord + Drop, M: Targets<P>>(
    first: &FetchKey<K, S, M>,
    rest: &[FetchKey<K, S, M>],
) -> bool {
    let mut before = first;
    if !is_like(first, first) {
        return false;
    }
    for item in rest {
        if !is_like(first, item) || before.key >= item.key {
            return false;
        }
        before = item;
    }
    true
}

/// Whether this has one subscriber, who is the first of that one, with its mark, and no targets.
fn is_like<K: Drop, P, S: Ord + Drop, M: Targets<P>>(
    first: &FetchKey<K, S, M>,
    item: &FetchKey<K, S, M>,
) -> bool {
    let (subscriber, mark) = first.subscribers.first();
    let (other, other_mark) = item.subscribers.first();
    item.subscribers.len() == 1
        && subscriber == other
        && mark == other_mark
        && item.metadata.listed().is_none()
}

/// Lines of a plan that wants these keys.
fn put_plan<K, P, S, M>(
    log: &mut Log<K, P, S>,
    first: &FetchKey<K, S, M>,
    items: &[FetchKey<K, S, M>],
) -> Result<(), AllocError>
where
    K: Ord + Clone + Drop,
    P: Ord + Drop,
    S: Ord + Clone + Drop,
{
    let (subscriber, mark) = first.subscribers.first();
    log.input("backfill ")?;
    log.subscriber(subscriber)?;
    log.word(" ")?;
    log.number(u128::from(*mark))?;
    log.input("want ")?;
    let mut comma = "";
    for item in items {
        log.word(comma)?;
        log.key(&item.key)?;
        comma = ",";
    }
    Ok(())
}
