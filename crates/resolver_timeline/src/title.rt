//! What a picture is called.

use crate::axis::Axis;
use crate::run::{Kind, Run};
use std::alloc::{AllocError, Global};

/// What a picture is called: how many keys it has, how long it is, and of which machine.
pub fn title(alloc: Global, run: &Run, axis: &Axis) -> Result<String, AllocError> {
    let (keys, length) = (run.lanes.len(), axis.length());
    let noun = if keys == 1 { "key" } else { "keys" };
    let machine = match run.kind {
        Kind::Opaque => "an actor, which fetches from one source",
        Kind::Peers { .. } => "an engine, which fetches from peers",
    };
    format!(in alloc; "{keys} {noun} in {length}: {machine}")
}
