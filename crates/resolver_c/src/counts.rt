//! What a core has counted, as it is handed out.

ghost use Rattle.std.specs.Prelude.{◌≡◌};
ghost use Rattle.resolver_c.specs.Calls.{Counted};
ghost use Rattle.resolver_c.specs.Halves.{counts_of, ends_of, lasted_of};

use crate::deadline::{high_of, low_of};
use resolver_flat_machine::Machine;
use resolver_metrics::metrics::{Durations, Metrics, Tally};

/// How often each of four ends came. Each count stops at its last number.
#[repr(C)]
#[derive(Clone, Copy)]
pub struct Ends {
    /// It came to what was wanted.
    pub success: u64,
    /// It can't be told whether it did.
    pub ambiguous: u64,
    /// It did not.
    pub failure: u64,
    /// Nobody waited for it any more.
    pub dropped: u64,
}

/// How many times were measured, and their sum in nanoseconds, of 128 bits in two halves.
#[repr(C)]
#[derive(Clone, Copy)]
pub struct Lasted {
    /// How many times.
    pub count: u64,
    /// The low half of their sum.
    pub nanoseconds_low: u64,
    /// The high half of their sum.
    pub nanoseconds_high: u64,
}

/// What a core has counted since it was opened, and how much of three things it has now: the words are
/// those of `resolver_metrics`.
#[repr(C)]
#[derive(Clone, Copy)]
pub struct Counts {
    /// The keys that wait now.
    pub fetch_pending: u64,
    /// The requests without an answer now.
    pub fetch_active: u64,
    /// The peers' requests that the producer has now.
    pub serve_processing: u64,
    /// Success: a credit. Ambiguous: `Unresolved`. Failure: `Invalid`, a request's time that was over,
    /// and data that a peer has not. Dropped: `Ignored`, and a key whose delivery was dropped.
    pub fetch: Ends,
    /// Success: a key that a retain called off. Dropped: a retain that called off none.
    pub cancel: Ends,
    /// Success: a peer's request that the producer had bytes for. Failure: one that it dropped.
    pub serve: Ends,
    /// Success: a request that was accepted to be sent. Dropped: one that was refused.
    pub requests_sent: Ends,
    /// From a peer's request to the bytes of the producer.
    pub serve_duration: Lasted,
    /// From a key's first fetch to its first `Complete`.
    pub fetch_duration: Lasted,
    /// From the request to the response, of each credit.
    pub resolves: Lasted,
}

/// What the machine has counted.
pub fn count(machine: &Machine, counts: &mut Counts) -> u8
    ensures { Counted machine.now counts.old (result, counts.new) }
{
    match machine.metrics() {
        Some(metrics) => {
            *counts = counts_of(&metrics);
            0
        }
        None => 67,
    }
}

fn counts_of(metrics: &Metrics) -> Counts
    ensures { result ≡ counts_of metrics.now }
{
    Counts {
        fetch_pending: metrics.fetch_pending,
        fetch_active: metrics.fetch_active,
        serve_processing: metrics.serve_processing,
        fetch: ends_of(&metrics.fetch),
        cancel: ends_of(&metrics.cancel),
        serve: ends_of(&metrics.serve),
        requests_sent: ends_of(&metrics.requests_sent),
        serve_duration: lasted_of(&metrics.serve_duration),
        fetch_duration: lasted_of(&metrics.fetch_duration),
        resolves: lasted_of(&metrics.resolves),
    }
}

fn ends_of(tally: &Tally) -> Ends
    ensures { result ≡ ends_of tally.now }
{
    Ends {
        success: tally.success,
        ambiguous: tally.ambiguous,
        failure: tally.failure,
        dropped: tally.dropped,
    }
}

fn lasted_of(durations: &Durations) -> Lasted
    ensures { result ≡ lasted_of durations.now }
{
    Lasted {
        count: durations.count,
        nanoseconds_low: low_of(durations.nanoseconds),
        nanoseconds_high: high_of(durations.nanoseconds),
    }
}
