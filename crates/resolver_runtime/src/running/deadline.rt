//! A wait for the earlier of two deadlines.

ghost use Rattle.std.specs.Prelude.{◌≡◌, ◌<◌, ◌^◌, IfSome};
ghost use Rattle.futures.specs.Poll.{OnPending};
ghost use Rattle.futures.specs.Task.{IsArmed, Keeps};
ghost use Rattle.resolver_runtime.specs.Deadlines.{earlier};

use crate::Clock;
use futures::task::{Context, Poll};

/// No moment of a clock reaches it.
const END_OF_TIME: u128 = 1 << 94;

/// The earlier of two deadlines, where there are any.
pub fn earlier(first: Option<u128>, second: Option<u128>) -> Option<u128>
    ensures { result ≡ earlier first second }
{
    match (first, second) {
        (None, second) => second,
        (Some(first), None) => Some(first),
        (Some(first), Some(second)) => Some(if second < first { second } else { first }),
    }
}

/// Ready once this moment has come. Where there is none, or it is past every moment that a clock
/// has, the clock isn't asked, and nothing wakes the task for it.
pub fn poll_moment<C: Clock>(clock: &mut C, cx: &mut Context<'_>, moment: Option<u128>) -> Poll<()>
    ensures armed { OnPending result (IfSome moment (λ at. at < 2 ^ 94 → IsArmed cx.new)) }
    ensures kept { Keeps cx.old cx.new }
{
    match moment {
        Some(at) if at < END_OF_TIME => clock.poll_until(cx, at),
        _ => Poll::Pending,
    }
}
