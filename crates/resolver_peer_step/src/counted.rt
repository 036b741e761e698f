//! What is counted of what happens.

ghost use Rattle.std.specs.Prelude.{◌≡◌};
ghost use Rattle.resolver_peer_step.specs.Counted.{answered, called_off, is_answer, measured_if, retired, sent};

use bytes::Bytes;
use resolver_fetch::fetcher::Answer;
use resolver_metrics::metrics::{Metrics, Tally, raise};
use resolver_types::Outcome;

/// Counts a retain that called off so many keys.
pub(crate) fn count_retain(tally: &mut Tally, ended: u64)
    ensures { tally.new ≡ called_off ended tally.old }
{
    if ended == 0 {
        raise(&mut tally.dropped, 1);
    } else {
        raise(&mut tally.success, ended);
    }
}

/// Counts what the producer had for a peer's request, after so many nanoseconds: a response, or word that there is
/// none.
pub(crate) fn count_serve(metrics: &mut Metrics, value: &Option<Bytes>, elapsed: u128)
    ensures { metrics.new ≡ record metrics.old {
      serve = answered (is_answer value.now) metrics.old.serve;
      serve_duration = measured_if (is_answer value.now) elapsed metrics.old.serve_duration;
    } }
{
    if is_answer(value) {
        raise(&mut metrics.serve.success, 1);
        metrics.serve_duration.measure(elapsed);
    } else {
        raise(&mut metrics.serve.failure, 1);
    }
}

/// Whether this answer of the producer is a response: more bytes than a message can carry are told to the peer as none.
fn is_answer(value: &Option<Bytes>) -> bool
    ensures { result ≡ is_answer value.now }
{
    matches!(value, Some(bytes) if bytes.len() <= u32::MAX as usize)
}

/// Counts a request that was accepted to be sent, or refused. Other answers to a scan aren't counted.
pub(crate) fn count_answer(tally: &mut Tally, answer: Answer)
    ensures { tally.new ≡ sent answer tally.old }
{
    match answer {
        Answer::Sent(true) => raise(&mut tally.success, 1),
        Answer::Sent(false) => raise(&mut tally.dropped, 1),
        Answer::Drawn(_) | Answer::Checked(_) => {}
    }
}

/// Counts a key that is retired: dropped, where the consumer ignored what came, or dropped the
/// delivery of a response that wasn't accepted.
pub(crate) fn count_retired(tally: &mut Tally, accepted: bool, outcome: Option<Outcome>)
    ensures { tally.new ≡ retired accepted outcome tally.old }
{
    match outcome {
        None if !accepted => raise(&mut tally.dropped, 1),
        Some(Outcome::Ignored) => raise(&mut tally.dropped, 1),
        _ => {}
    }
}
