//! The machine's time.

ghost use Rattle.std.specs.Prelude.{◌≡◌, ◌<◌, ◌^◌, IfErr};
ghost use Rattle.futures.specs.Poll.{OnPending};
ghost use Rattle.futures.specs.Task.{IsArmed, Keeps};
ghost use Rattle.resolver_base.specs.declared.fault.Fault.TheVariants.{OutOfMemory};

use futures::spin::lock;
use futures::task::{Context, Poll, Source, Waker};
use resolver_base::Fault;
use resolver_runtime::Clock;
use std::alloc::AllocGlobal;
use std::sync::{Arc, Mutex, Wait};
use std::thread::{JoinHandle, Parker, Threads};
use std::time::{Duration, Instant};
use std::{thread, time};

/// What is waited for.
#[derive(Drop)]
struct Alarm {
    /// The least moment.
    due: Option<u128>,
    waker: Option<Waker>,
    is_over: bool,
}

/// What a clock shares with its timer.
#[derive(Drop)]
struct Shared {
    alarm: Mutex<Alarm>,
    /// Where the timer rests.
    rest: Parker,
    passed: Source,
}

/// What a timer does next.
#[derive(Drop)]
enum Next {
    End,
    Rest,
    RestFor(Duration),
}

impl Shared {
    fn new() -> Shared {
        let alarm = Alarm {
            due: None,
            waker: None,
            is_over: false,
        };
        Shared {
            alarm: Mutex::new(alarm),
            rest: Parker::new(),
            passed: Source::new(),
        }
    }

    /// Wakes the task whose moment has come by now, and says how long the timer rests then.
    fn next(&self, now: u128) -> Next {
        let Some(mut guard) = lock(&self.alarm) else {
            return Next::End;
        };
        let alarm = &mut *guard;
        if alarm.is_over {
            return Next::End;
        }
        match alarm.due {
            None => Next::Rest,
            Some(due) if due > now => Next::RestFor(nanoseconds(due - now)),
            Some(_) => {
                alarm.due = None;
                alarm.waker = None;
                Next::Rest
            }
        }
    }

    /// Has the timer end.
    fn end(&self) {
        if let Some(mut guard) = lock(&self.alarm) {
            let alarm = &mut *guard;
            alarm.is_over = true;
            alarm.waker = None;
        }
        self.rest.unpark();
    }
}

/// So many nanoseconds, or 2^64 - 1 where they are more.
fn nanoseconds(count: u128) -> Duration {
    Duration::from_nanos(u64::try_from(count).unwrap_or(u64::MAX))
}

/// How many nanoseconds have passed since then. Where the system's time can't be read, it is 0.
fn since<R: time::Clock>(rt: &R, start: Option<Instant>) -> u128
    ensures { result < 2 ^ 94 }
{
    match (start, Instant::now(rt)) {
        (Some(start), Ok(now)) => now.duration_since(start).as_nanos(),
        _ => 0,
    }
}

/// A clock over the machine's time, in nanoseconds since it was made. The time never goes back, and a
/// computer that sleeps may stop it.
///
/// A thread of its own, its timer, wakes the task that waits for a moment, once it has come; it sleeps
/// meanwhile, and for good where no moment is waited for. The timer ends once the clock is dropped.
pub struct SystemClock<R> {
    rt: R,
    /// There is none where the system's time could not be read.
    start: Option<Instant>,
    shared: Arc<Shared>,
}

impl<R: Drop> Drop for SystemClock<R> {
    /// Has the timer end.
    fn drop(self) {
        self.shared.end();
        let Self {
            rt: _,
            start: _,
            shared: _,
        } = self;
    }
}

/// A clock's thread. Who drops it leaves the thread to itself, which ends with the clock all the same.
#[derive(Drop)]
pub struct Timer {
    thread: JoinHandle<()>,
}

impl Timer {
    /// Waits for the end of the timer, which comes once its clock is dropped: a loop drops its clock as
    /// it ends.
    pub fn join<R: Threads>(self, rt: &R) {
        self.thread.join(rt)
    }
}

impl<R> SystemClock<R>
where
    R: Threads + Wait + time::Clock + AllocGlobal + Copy + Drop + Send + 'static,
{
    /// A clock that stands at 0 now, and its timer. Where memory is refused or no thread can be made,
    /// there is none.
    pub fn start(rt: R) -> Result<(SystemClock<R>, Timer), Fault>
        ensures only { IfErr result (λ fault. fault ≡ OutOfMemory) }
    {
        let start = Instant::now(&rt).ok();
        let shared = Arc::new(rt.alloc(), Shared::new())?;
        let timed = Arc::try_clone(&shared)?;
        let clock = SystemClock { rt, start, shared };
        match thread::spawn(&rt, move || run(&rt, &timed, start)) {
            Ok(thread) => Ok((clock, Timer { thread })),
            Err(_) => Err(Fault::OutOfMemory),
        }
    }
}

/// Wakes tasks as their moments come, until the clock is dropped.
fn run<R: Wait + time::Clock>(rt: &R, shared: &Shared, start: Option<Instant>) {
    for _ in rt.forever() {
        match shared.next(since(rt, start)) {
            Next::End => return,
            Next::Rest => shared.rest.park(rt),
            Next::RestFor(duration) => shared.rest.park_timeout(rt, duration),
        }
    }
}

impl<R: time::Clock> Clock for SystemClock<R> {
    fn now(&self) -> u128 {
        since(&self.rt, self.start)
    }

    /// Of several moments that no task was woken for yet, the least counts.
    fn poll_until(&mut self, cx: &mut Context<'_>, moment: u128) -> Poll<()> {
        if self.now() >= moment {
            return Poll::Ready(());
        }
        let Some(mut guard) = lock(&self.shared.alarm) else {
            return cx.yield_now();
        };
        let alarm = &mut *guard;
        if alarm.due.is_none_or(|due| moment < due) {
            alarm.due = Some(moment);
            self.shared.rest.unpark();
        }
        cx.register(&self.shared.passed, &mut alarm.waker)
    }
}
