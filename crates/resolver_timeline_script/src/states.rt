//! What is done for the keys that are wanted, after a step.

use resolver_actor::opaque;
use resolver_core::p2p::rows;
use resolver_script::endings::Fault;
use resolver_script::opaque::Opaque;
use resolver_script::peers::Peers;
use resolver_timeline::lane::{Phase, State};
use std::alloc::Global;

/// The states of an actor's keys.
pub fn of_source(alloc: Global, actor: &Opaque) -> Result<Vec<State>, Fault> {
    let Ok(rows) = actor.rows() else {
        return Err(Fault::Memory);
    };
    let mut states = Vec::with_capacity(alloc, rows.len())?;
    for row in rows.iter() {
        let (key, phase) = (row.key.0, phase_of_source(row.phase));
        states.push(State { key, phase })?;
    }
    Ok(states)
}

/// What is done for an actor's key. One that waits was asked for in vain.
fn phase_of_source(phase: opaque::Phase) -> Phase {
    match phase {
        opaque::Phase::Waiting { .. } => Phase::Retrying,
        opaque::Phase::Asked { attempt } => Phase::Asked {
            peer: None,
            number: attempt,
        },
        opaque::Phase::Judged { number } => Phase::Judged { number },
    }
}

/// The states of an engine's keys at a moment, with or without an open scan. One that has failed shows none.
pub fn of_peers(
    alloc: Global,
    engine: &Peers,
    now: u128,
    is_scanning: bool,
) -> Result<Vec<State>, Fault> {
    let rows = match engine.rows() {
        Ok(rows) => rows,
        Err(resolver_core::base::Fault::Failed) => return Ok(Vec::new(alloc)),
        Err(_) => return Err(Fault::Memory),
    };
    let mut states = Vec::with_capacity(alloc, rows.len())?;
    for row in rows.iter() {
        let key = row.key.0;
        let phase = match &row.phase {
            rows::Phase::Waiting { is_retry, due } => {
                waiting(*is_retry, *due <= now && !is_scanning)
            }
            rows::Phase::Asked { id, peer, .. } => Phase::Asked {
                peer: Some(peer.0),
                number: *id,
            },
            rows::Phase::Judged { number } => Phase::Judged { number: *number },
        };
        states.push(State { key, phase })?;
    }
    Ok(states)
}

/// What a key that waits is shown as. One that is due is held, once no scan tries it.
fn waiting(is_retry: bool, is_held: bool) -> Phase {
    if is_held {
        Phase::Held
    } else if is_retry {
        Phase::Retrying
    } else {
        Phase::Waiting
    }
}
