//! Clocks that a test puts forward.

ghost use Rattle.std.specs.Prelude.{◌<◌, ◌^◌};
ghost use Rattle.futures.specs.Poll.{OnPending};
ghost use Rattle.futures.specs.Task.{IsArmed, Keeps};

use futures::channel::mpsc;
use futures::spin::lock;
use futures::task::{Context, Poll, Source, Waker};
use resolver_runtime::Clock;
use std::alloc::{AllocError, Global};
use std::sync::{Arc, Mutex};

#[derive(Drop)]
struct Time {
    now: u64,
    /// The last moment that was waited for.
    awaited: Option<u128>,
    waker: Option<Waker>,
}

/// A moment that a test puts forward.
#[derive(Drop)]
pub struct Watch {
    changed: Source,
    time: Mutex<Time>,
}

impl Watch {
    /// Returns a watch that stands at 0.
    pub fn new() -> Watch {
        Watch {
            changed: Source::new(),
            time: Mutex::new(Time {
                now: 0,
                awaited: None,
                waker: None,
            }),
        }
    }

    /// A watch that stands at 0, for two.
    pub fn shared(alloc: Global) -> Result<(Arc<Watch>, Arc<Watch>), AllocError> {
        match Arc::new(alloc, Watch::new()) {
            Ok(watch) => match Arc::try_clone(&watch) {
                Ok(other) => Ok((watch, other)),
                Err(error) => {
                    drop(watch);
                    Err(error)
                }
            },
            Err(error) => Err(error.into()),
        }
    }

    /// From now on it is this moment.
    pub fn put(&self, now: u64) {
        let woken = match lock(&self.time) {
            Some(mut guard) => {
                let time = &mut *guard;
                time.now = now;
                time.waker.take()
            }
            None => None,
        };
        drop(woken);
    }

    /// The last moment that was waited for since this was asked, if there was any.
    pub fn awaited(&self) -> Option<u128> {
        match lock(&self.time) {
            Some(mut guard) => {
                let time = &mut *guard;
                time.awaited.take()
            }
            None => None,
        }
    }
}

/// A clock that stands until its test puts it forward.
#[derive(Drop)]
pub struct Standing {
    pub watch: Arc<Watch>,
}

impl Clock for Standing {
    fn now(&self) -> u128 {
        match lock(&self.watch.time) {
            Some(time) => time.now as u128,
            None => 0,
        }
    }

    fn poll_until(&mut self, cx: &mut Context<'_>, moment: u128) -> Poll<()> {
        let Some(mut guard) = lock(&self.watch.time) else {
            return cx.yield_now();
        };
        let time = &mut *guard;
        if time.now as u128 >= moment {
            Poll::Ready(())
        } else {
            time.awaited = Some(moment);
            cx.register(&self.watch.changed, &mut time.waker)
        }
    }
}

/// A clock that stands, and tells its test each moment that it is to wait for.
#[derive(Drop)]
pub struct Telling {
    pub clock: Standing,
    pub moments: mpsc::UnboundedSender<u128>,
}

impl Clock for Telling {
    fn now(&self) -> u128 {
        self.clock.now()
    }

    fn poll_until(&mut self, cx: &mut Context<'_>, moment: u128) -> Poll<()> {
        let _ = self.moments.unbounded_send(moment);
        self.clock.poll_until(cx, moment)
    }
}
