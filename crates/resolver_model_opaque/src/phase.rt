//! What is kept of a demanded key beside its subscribers, and what is being done for it.

ghost use Rattle.std.specs.Prelude.{◌≡◌};
ghost use Rattle.resolver_model_opaque.specs.OpaqueByPhase.{listed_phase, phase_of};

use resolver_delivery::{Entries, Entry};

/// What is being done for a demanded key.
#[derive(Clone, Copy, Debug, PartialEq, Eq)]
pub enum Phase {
    /// It is asked for again once this moment has come, in nanoseconds.
    Waiting { due: u128 },
    /// The source was asked for it, under this attempt.
    Asked { attempt: u64 },
    /// A value was handed out under this number, and has no verdict yet.
    Judged { number: u64 },
}

/// What was done last for a key, before any value was handed out for it.
#[derive(Clone, Copy, Debug)]
pub enum Stage {
    /// It is asked for again once this moment has come, in nanoseconds.
    Waiting { due: u128 },
    /// The source was asked for it, under this attempt.
    Asked { attempt: u64 },
}

/// What is kept of the keys beside their subscribers.
pub type Keys<K, S, V> = Entries<K, S, V, (), Stage>;

/// What is being done for a key.
pub fn listed_phase<V>(entry: &Entry<V, (), Stage>) -> Phase
    ensures { result ≡ listed_phase (phase_of entry.now) }
{
    if let Some(number) = entry.number {
        if entry.response.is_some() {
            return Phase::Judged { number };
        }
    }
    match entry.state {
        Stage::Waiting { due } => Phase::Waiting { due },
        Stage::Asked { attempt } => Phase::Asked { attempt },
    }
}
