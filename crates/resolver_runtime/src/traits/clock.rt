//! Time, as the caller has it.

ghost use Rattle.std.specs.Prelude.{◌<◌, ◌^◌};
ghost use Rattle.futures.specs.Poll.{OnPending};
ghost use Rattle.futures.specs.Task.{IsArmed, Keeps};

use futures::task::{Context, Poll};

/// Moments, in nanoseconds. Nothing is promised of how fast they pass, nor that they never go back.
pub trait Clock {
    /// The moment: below 2^94.
    fn now(&self) -> u128
        ensures { result < 2 ^ 94 };

    /// Ready once this moment has come. Until then the task is woken when it does.
    fn poll_until(&mut self, cx: &mut Context<'_>, moment: u128) -> Poll<()>
        ensures armed { OnPending result (IsArmed cx.new) }
        ensures kept { Keeps cx.old cx.new };
}
