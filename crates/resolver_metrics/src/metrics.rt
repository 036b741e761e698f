//! What an engine counts.

ghost use Rattle.std.specs.Prelude.{◌≡◌};
ghost use Rattle.resolver_metrics.specs.Counters.{measured, no_tally, raised, uncounted, unmeasured};

use std::fmt;
use std::fmt::{Formatter, Write};

/// How often each of four ends came. Each count stops at `u64::MAX`.
#[derive(Clone, Copy, Debug, PartialEq, Eq)]
pub struct Tally {
    pub success: u64,
    pub ambiguous: u64,
    pub failure: u64,
    pub dropped: u64,
}

impl Tally {
    /// Nothing has ended.
    fn init() -> Self
        ensures { result ≡ no_tally }
    {
        Tally {
            success: 0,
            ambiguous: 0,
            failure: 0,
            dropped: 0,
        }
    }

    /// A line for each count, under the name of what was counted.
    fn expose<W: Write>(&self, f: &mut Formatter<W>, name: &str) -> fmt::Result {
        writeln!(f, "# TYPE {name}_total counter")?;
        writeln!(f, "{name}_total{{status=\"success\"}} {}", self.success)?;
        writeln!(f, "{name}_total{{status=\"ambiguous\"}} {}", self.ambiguous)?;
        writeln!(f, "{name}_total{{status=\"failure\"}} {}", self.failure)?;
        writeln!(f, "{name}_total{{status=\"dropped\"}} {}", self.dropped)
    }
}

/// How many times were measured, and their sum. Each stops at the last number of its type.
#[derive(Clone, Copy, Debug, PartialEq, Eq)]
pub struct Durations {
    pub count: u64,
    pub nanoseconds: u128,
}

impl Durations {
    /// Nothing was measured.
    fn init() -> Self
        ensures { result ≡ unmeasured }
    {
        Durations {
            count: 0,
            nanoseconds: 0,
        }
    }

    /// Measures once more.
    pub fn measure(&mut self, nanoseconds: u128)
        ensures { self.new ≡ measured nanoseconds self.old }
    {
        raise(&mut self.count, 1);
        self.nanoseconds = self.nanoseconds.saturating_add(nanoseconds);
    }

    /// Their sum in seconds, and how many there are.
    fn expose<W: Write>(&self, f: &mut Formatter<W>, name: &str) -> fmt::Result {
        let seconds = self.nanoseconds / 1_000_000_000;
        let rest = self.nanoseconds % 1_000_000_000;
        writeln!(f, "# TYPE {name}_seconds summary")?;
        writeln!(f, "{name}_seconds_sum {seconds}.{rest:09}")?;
        writeln!(f, "{name}_seconds_count {}", self.count)
    }
}

/// What an engine has counted since it was made, and how much of three things it has now. A step
/// that is refused counts nothing.
#[derive(Clone, Copy, Debug, PartialEq, Eq)]
pub struct Metrics {
    /// The keys that wait.
    pub fetch_pending: u64,
    /// The requests without an answer.
    pub fetch_active: u64,
    /// The peers' requests that the producer has.
    pub serve_processing: u64,
    /// Success: a credit. Ambiguous: `Unresolved`, of a response that was not accepted. Failure:
    /// `Invalid`, a request's time that was over, and data that a peer has not. Dropped: `Ignored`
    /// on a delivery that was not called off; and a key that is retired as the consumer dropped its
    /// delivery, whose response was not accepted.
    pub fetch: Tally,
    /// Success: a key that a retain called off. Dropped: a retain that called off none.
    pub cancel: Tally,
    /// Success: a peer's request that the producer had bytes for. Failure: one that it dropped.
    pub serve: Tally,
    /// From a peer's request to the bytes of the producer.
    pub serve_duration: Durations,
    /// From a key's first fetch to its first `Complete`, that was not called off before.
    pub fetch_duration: Durations,
    /// Success: a request that was accepted to be sent. Dropped: one that was refused.
    pub requests_sent: Tally,
    /// From the request to the response, of each credit.
    pub resolves: Durations,
}

impl Metrics {
    /// Nothing was counted, and there is nothing.
    pub fn init() -> Self
        ensures { result ≡ uncounted }
    {
        Metrics {
            fetch_pending: 0,
            fetch_active: 0,
            serve_processing: 0,
            fetch: Tally::init(),
            cancel: Tally::init(),
            serve: Tally::init(),
            serve_duration: Durations::init(),
            fetch_duration: Durations::init(),
            requests_sent: Tally::init(),
            resolves: Durations::init(),
        }
    }
}

/// A line for each number, in Prometheus's text format: what a node hands to its scraper.
impl fmt::Display for Metrics {
    fn fmt<W: Write>(&self, f: &mut Formatter<W>) -> fmt::Result {
        expose_gauge(f, "fetch_pending", self.fetch_pending)?;
        expose_gauge(f, "fetch_active", self.fetch_active)?;
        expose_gauge(f, "serve_processing", self.serve_processing)?;
        self.fetch.expose(f, "fetch")?;
        self.cancel.expose(f, "cancel")?;
        self.serve.expose(f, "serve")?;
        self.serve_duration.expose(f, "serve_duration")?;
        self.fetch_duration.expose(f, "fetch_duration")?;
        self.requests_sent.expose(f, "requests_sent")?;
        self.resolves.expose(f, "resolves")
    }
}

/// A number that goes up and down, under its name.
fn expose_gauge<W: Write>(f: &mut Formatter<W>, name: &str, value: u64) -> fmt::Result {
    writeln!(f, "# TYPE {name} gauge")?;
    writeln!(f, "{name} {value}")
}

/// Counts some more.
pub fn raise(counter: &mut u64, by: u64)
    ensures { counter.new ≡ raised by counter.old }
{
    *counter = counter.saturating_add(by);
}
