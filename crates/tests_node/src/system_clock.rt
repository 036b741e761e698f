//! The clock over the machine's time, against that time.

ghost use Rattle.std.specs.Prelude.{◌<◌, ◌^◌};
ghost use Rattle.futures.specs.Poll.{OnPending};
ghost use Rattle.futures.specs.Task.{IsArmed, Keeps};

use crate::support::holds;
use futures::Future;
use futures::executor::block_on;
use futures::task::{Context, Poll};
use futures::test::MockTask;
use resolver_node::SystemClock;
use resolver_runtime::Clock;
use std::alloc::AllocGlobal;
use std::panic::Expect;
use std::process::Abort;
use std::random::RandomSource;
use std::sync::Wait;
use std::time::{Duration, Instant};
use std::{thread, time};

const MILLISECOND: u128 = 1_000_000;

/// A task that waits for a moment, by one call or by one for each of two moments, the later one first.
#[derive(Drop)]
struct Until<'a, C> {
    clock: &'a mut C,
    moment: u128,
    later: Option<u128>,
}

impl<C: Clock> Future for Until<'_, C> {
    type Output = ();

    fn poll(&mut self, cx: &mut Context<'_>) -> Poll<()> {
        if let Some(later) = self.later {
            if self.clock.poll_until(cx, later).is_ready() {
                return Poll::Ready(());
            }
        }
        self.clock.poll_until(cx, self.moment)
    }
}

/// Lets a task wait so many milliseconds, where it asks for the later moment first, if there is one. It takes
/// no less, and no more than ten seconds longer.
fn waits<R>(rt: R, milliseconds: u64, later: Option<u64>)
where
    R: Abort + thread::Threads + Wait + time::Clock + RandomSource + AllocGlobal,
    R: Copy + Drop + Send + 'static,
{
    let (mut clock, timer) = SystemClock::start(rt).expect(&rt, "memory");
    let begun = Instant::now(&rt).expect(&rt, "the time");
    let now = clock.now();
    let until = Until {
        moment: now + u128::from(milliseconds) * MILLISECOND,
        later: later.map(|later| now + u128::from(later) * MILLISECOND),
        clock: &mut clock,
    };
    block_on(&rt, until).expect(&rt, "memory");
    let took = begun.elapsed(&rt).expect(&rt, "the time");
    holds(&rt, took >= Duration::from_millis(milliseconds));
    holds(&rt, took < Duration::from_millis(10_000));
    drop(clock);
    timer.join(&rt);
}

#[test]
fn wakes_after_a_tenth_of_a_second(rt: HostRuntime) {
    waits(rt, 100, None);
}

#[test]
fn wakes_after_a_second(rt: HostRuntime) {
    waits(rt, 1_000, None);
}

#[test]
fn wakes_at_the_earlier_moment_that_is_asked_for_later(rt: HostRuntime) {
    waits(rt, 100, Some(3_600_000));
}
