//! What lines say to a machine or a plan. Each call reads the lines that begin with one of its words, and
//! answers none for another word.

use crate::kept::Kept;
use crate::planning::Planned;
use crate::script::fields::{
    Fields, bytes, count, key, keys, peer, peers, subscriber, targets, wide,
};
use crate::script::{Said, Unread, Why, Wish};
use bytes::Bytes;
use resolver_base::Check;
use resolver_fetch::fetcher::Answer;
use resolver_types::{Outcome, Resolution};
use std::alloc::Global;

/// What both machines are told.
pub fn of_both_machines(
    alloc: Global,
    word: &str,
    fields: &mut Fields<'_>,
) -> Result<Option<Said>, Unread> {
    Ok(Some(match word {
        "fetch" => Said::Fetch(wish(alloc, fields)?),
        "keep-sub" => Said::Retain(Kept::Subscriber(subscriber(fields.next())?)),
        "drop-key" => Said::Retain(Kept::AllBut(key(fields.next())?)),
        "verdict" => verdict(fields)?,
        "wake" => Said::Wake,
        "stop" => Said::Stop,
        _ => return Ok(None),
    }))
}

/// What an opaque source answers.
pub fn of_sources(
    alloc: Global,
    word: &str,
    fields: &mut Fields<'_>,
) -> Result<Option<Said>, Unread> {
    match word {
        "fetched" => {
            let attempt = count(fields.next())?;
            let value = value_or(alloc, "none", fields.next())?;
            Ok(Some(Said::Fetched { attempt, value }))
        }
        _ => Ok(None),
    }
}

/// What happens among peers.
pub fn of_peers(
    alloc: Global,
    word: &str,
    fields: &mut Fields<'_>,
) -> Result<Option<Said>, Unread> {
    Ok(Some(match word {
        "timeout" => Said::Timeout,
        "peers" => peer_set(alloc, fields)?,
        "blocked" => Said::Blocked(peers(alloc, fields.next())?),
        "net" => net(alloc, fields)?,
        "served" => served(alloc, fields)?,
        _ => return Ok(None),
    }))
}

/// What a scan is answered.
pub fn of_scans(word: &str, fields: &mut Fields<'_>) -> Result<Option<Answer>, Unread> {
    Ok(Some(match word {
        "drawn" => Answer::Drawn(wide(fields.next())?),
        "checked" => Answer::Checked(check(fields.next())?),
        "sent" => Answer::Sent(is_accepted(fields.next())?),
        _ => return Ok(None),
    }))
}

/// What is planned.
pub fn of_plans(
    alloc: Global,
    word: &str,
    fields: &mut Fields<'_>,
) -> Result<Option<Planned>, Unread> {
    Ok(Some(match word {
        "backfill" => opened(fields)?,
        "want" => Planned::Want(keys(alloc, fields.next())?),
        "done" => Planned::Done(keys(alloc, fields.next())?),
        _ => return Ok(None),
    }))
}

fn opened(fields: &mut Fields<'_>) -> Result<Planned, Unread> {
    let subscriber = subscriber(fields.next())?;
    let mark = count(fields.next())?;
    Ok(Planned::Open { subscriber, mark })
}

fn wish(alloc: Global, fields: &mut Fields<'_>) -> Result<Wish, Unread> {
    let key = key(fields.next())?;
    let subscriber = subscriber(fields.next())?;
    let mark = count(fields.next())?;
    let targets = match fields.next() {
        None => None,
        field => Some(targets(alloc, field)?),
    };
    Ok(Wish {
        key,
        subscriber,
        mark,
        targets,
    })
}

fn verdict(fields: &mut Fields<'_>) -> Result<Said, Unread> {
    let number = count(fields.next())?;
    let outcome = outcome(fields.next())?;
    Ok(Said::Verdict { number, outcome })
}

fn outcome(field: Option<&str>) -> Result<Option<Outcome>, Unread> {
    match field {
        Some("complete") => Ok(Some(Outcome::Resolved(Resolution::Complete))),
        Some("partial") => Ok(Some(Outcome::Resolved(Resolution::Partial))),
        Some("unresolved") => Ok(Some(Outcome::Unresolved)),
        Some("invalid") => Ok(Some(Outcome::Invalid)),
        Some("ignored") => Ok(Some(Outcome::Ignored)),
        Some("dropped") => Ok(None),
        Some(_) => Err(Unread::Unreadable(Why::NoWord)),
        None => Err(Unread::Unreadable(Why::Missing)),
    }
}

fn peer_set(alloc: Global, fields: &mut Fields<'_>) -> Result<Said, Unread> {
    let index = count(fields.next())?;
    let peers = peers(alloc, fields.next())?;
    Ok(Said::Peers { index, peers })
}

fn net(alloc: Global, fields: &mut Fields<'_>) -> Result<Said, Unread> {
    let peer = peer(fields.next())?;
    let bytes = bytes(alloc, fields.next())?;
    Ok(Said::Net { peer, bytes })
}

fn served(alloc: Global, fields: &mut Fields<'_>) -> Result<Said, Unread> {
    let serve = count(fields.next())?;
    let value = value_or(alloc, "dropped", fields.next())?;
    Ok(Said::Served { serve, value })
}

/// Bytes, or the word that says that there are none.
fn value_or(alloc: Global, none: &str, field: Option<&str>) -> Result<Option<Bytes>, Unread> {
    if field == Some(none) {
        return Ok(None);
    }
    Ok(Some(bytes(alloc, field)?))
}

fn check(field: Option<&str>) -> Result<Check, Unread> {
    match field {
        Some("clear") => Ok(Check::Clear),
        field => Ok(Check::Until(wide(field)?)),
    }
}

fn is_accepted(field: Option<&str>) -> Result<bool, Unread> {
    match field {
        Some("accepted") => Ok(true),
        Some("refused") => Ok(false),
        Some(_) => Err(Unread::Unreadable(Why::NoWord)),
        None => Err(Unread::Unreadable(Why::Missing)),
    }
}
