//! `resolver-bench` tries the parts that a resolver is made of. It is no part of the product.
//!
//! It takes worked rows through the parts, call by call. Then it drives the opaque actor, the engine's core, a
//! fetcher and a full mailbox with many keys, one key with many subscribers, and an index with many places, and
//! prints how many steps that took and what they had. With the word `rows` as its argument it takes the rows
//! alone. With a number of keys, and of that key's subscribers, it takes none, and prints nanoseconds a step too;
//! with a number of peers as a second argument it drives only what knows peers, and with a third one a fetcher
//! asks one peer for so many keys at once. With the word `steps`, a number of keys and one of peers it takes each
//! event of both machines, with `way` those of a key's short way through the engine's core.
#![tactic(auto)]

mod actor;
mod engine;
mod fault;
mod fetcher;
mod index;
mod mailbox;
mod refused;
mod scans;
mod spent;
mod steps;
mod tracker;
mod workload;

use fault::Fault;
use spent::Load;
use std::env;
use std::env::Env;
use std::num::NonZeroU32;
use std::process::ExitCode;
use std::random::RandomSource;
use std::rt::Clock;
use std::str::FromStr;
use std::sync::Wait;
use steps::Events;

/// How many keys there are where no argument says it.
const FEW: u64 = 100;

/// How many peers there are, in turn, where no argument says it.
const PEERS: &[u16] = &[16, 256, 4_096];

/// What is done, by the arguments.
struct Work {
    /// Whether the rows are taken.
    with_rows: bool,
    /// Which events are taken one by one, where nothing else is driven.
    events: Option<Events>,
    /// What is driven, if anything is: with no peers all that there is, and what knows peers in turn with few and
    /// with many of them.
    load: Option<Load>,
}

fn main(rt: HostRuntime) -> ExitCode {
    match run(&rt) {
        Ok(()) => ExitCode::SUCCESS,
        Err(fault) => {
            let _ = eprintln!(rt; "fault: {}", fault.text());
            ExitCode::FAILURE
        }
    }
}

fn run<R: AllocGlobal + Clock + Env + Print + Wait + RandomSource + Copy + Drop>(
    rt: &R,
) -> Result<(), Fault> {
    let Work {
        with_rows,
        events,
        load,
    } = asked(rt)?;
    if with_rows {
        refused::run(rt)?;
    }
    match (load, events) {
        (None, _) => Ok(()),
        (Some(load), Some(events)) => steps::run(rt, events, &load),
        (Some(load), None) if load.peers > 0 => run_peers(rt, &load),
        (Some(load), None) => run_all(rt, &load),
    }
}

/// Drives all, and what knows peers with few and with many of them.
fn run_all<R: AllocGlobal + Clock + Print + Wait + RandomSource + Copy + Drop>(
    rt: &R,
    load: &Load,
) -> Result<(), Fault> {
    actor::run(rt, load)?;
    mailbox::run(*rt, load)?;
    tracker::run(rt, load)?;
    for peers in PEERS {
        run_peers(
            rt,
            &Load {
                peers: *peers,
                ..*load
            },
        )?;
    }
    Ok(())
}

/// Drives what knows peers.
fn run_peers(rt: &(impl AllocGlobal + Clock + Print), load: &Load) -> Result<(), Fault> {
    println!(rt; "with {} peers:", load.peers)?;
    engine::run(rt, load)?;
    scans::run(rt, load)?;
    index::run(rt, load)
}

/// The work that the arguments ask for.
fn asked(rt: &(impl AllocGlobal + Env)) -> Result<Work, Fault> {
    let mut arguments = env::args(rt)?;
    let _ = arguments.next();
    let first = arguments.next();
    let second = arguments.next();
    let third = arguments.next();
    asked_by(first.as_deref(), second.as_deref(), third.as_deref())
}

/// The work that the first argument and the others ask for.
fn asked_by(first: Option<&str>, second: Option<&str>, third: Option<&str>) -> Result<Work, Fault> {
    let Some(word) = first else {
        let load = Load {
            keys: FEW,
            peers: 0,
            limit: None,
            with_time: false,
        };
        return Ok(Work {
            with_rows: true,
            events: None,
            load: Some(load),
        });
    };
    if word == "rows" {
        return Ok(Work {
            with_rows: true,
            events: None,
            load: None,
        });
    }
    asked_in_numbers(word, second.unwrap_or("0"), third.unwrap_or("0"))
}

/// The work for so many keys and peers, which stand behind a word where only some events are taken.
fn asked_in_numbers(word: &str, second: &str, third: &str) -> Result<Work, Fault> {
    let events = events_of(word);
    let (keys, peers, limit) = match events {
        Some(_) => (second, third, "0"),
        None => (word, second, third),
    };
    let load = Load {
        keys: number(keys)?,
        peers: number(peers)?,
        limit: NonZeroU32::new(number(limit)?),
        with_time: true,
    };
    Ok(Work {
        with_rows: false,
        events,
        load: Some(load),
    })
}

/// The events that a word asks for.
fn events_of(word: &str) -> Option<Events> {
    match word {
        "steps" => Some(Events::All),
        "way" => Some(Events::Way),
        _ => None,
    }
}

/// The number that an argument writes.
fn number<T: FromStr>(digits: &str) -> Result<T, Fault>
where
    T::Err: Drop,
{
    match digits.parse::<T>() {
        Ok(number) => Ok(number),
        Err(_) => Err(Fault::Size),
    }
}
