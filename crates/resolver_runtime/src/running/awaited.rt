//! One-shots that a loop waits for.

ghost use Rattle.std.specs.Prelude.{◌≡◌, ◌≢◌, ◌+◌, IfErr, IfOk, OnErr, OnOk};
ghost use Rattle.futures.specs.Poll.{OnPending};
ghost use Rattle.futures.specs.Task.{IsArmed, Keeps};
ghost use Rattle.resolver_base.specs.declared.fault.Fault.TheVariants.{OutOfMemory};

use futures::channel::oneshot;
use futures::spin::lock;
use futures::stream::FuturesUnordered;
use futures::task::{Context, Poll};
use futures::{Future, Stream};
use resolver_base::Fault;
use std::alloc::Global;
use std::collections::BTreeMap;
use std::marker::Model;
use std::sync::{Arc, Mutex};

/// Where an answer comes: shared by the set that polls it and the index by which it is closed. Only
/// the loop's thread takes the lock.
type Place<T> = Arc<Mutex<oneshot::Receiver<T>>>;

/// The answer under a number, or none where its sender was dropped or it was closed before.
#[derive(Drop)]
struct Answer<T> {
    number: u64,
    place: Place<T>,
}

impl<T: Drop> Future for Answer<T> {
    type Output = (u64, Option<T>);

    fn poll(&mut self, cx: &mut Context<'_>) -> Poll<(u64, Option<T>)> {
        let Some(mut receiver) = lock(&self.place) else {
            return cx.yield_now();
        };
        match receiver.poll(cx) {
            Poll::Ready(Ok(value)) => Poll::Ready((self.number, Some(value))),
            Poll::Ready(Err(_)) => Poll::Ready((self.number, None)),
            Poll::Pending => Poll::Pending,
        }
    }
}

/// One-shots that a loop waits for, each under its number. A poll looks only at those that were
/// woken, so answers cost no walk over what is open; an open number takes logarithmic time and an
/// allocation.
///
/// Contracts see how many are open.
#[derive(Drop)]
pub struct Awaited<T> {
    alloc: Global,
    answers: FuturesUnordered<Answer<T>>,
    places: BTreeMap<u64, Place<T>>,
}

impl<T> Model for Awaited<T> {
    ghost use Rattle.std.specs.Prelude.{ℕ};
    ghost use Rattle.futures.specs.Queued.{set_len};

    ghost Value = { ℕ };

    ghost view = { λ a. set_len a.answers };
}

impl<T: Drop> Awaited<T> {
    /// Nothing is open.
    pub fn new(alloc: Global) -> Result<Self, Fault>
        ensures none { IfOk result (λ awaited. awaited ≡ 0) }
        ensures only { IfErr result (λ fault. fault ≡ OutOfMemory) }
    {
        Ok(Awaited {
            alloc,
            answers: FuturesUnordered::new(alloc)?,
            places: BTreeMap::new(alloc),
        })
    }

    /// How many numbers are open.
    pub fn len(&self) -> usize
        ensures { result ≡ self.now }
    {
        self.answers.len()
    }

    /// Waits for what comes here, under a number that isn't open. Where memory is refused, it is
    /// dropped, and nothing changes.
    pub fn add(&mut self, number: u64, receiver: oneshot::Receiver<T>) -> Result<(), Fault>
        ensures ok { OnOk result (self.new ≡ self.old + 1) }
        ensures err { OnErr result (self.new ≡ self.old) }
        ensures only { IfErr result (λ fault. fault ≡ OutOfMemory) }
    {
        let place = Arc::new(self.alloc, Mutex::new(receiver))?;
        let other = Arc::try_clone(&place)?;
        self.places.insert(number, other)?;
        if self.answers.push(Answer { number, place }).is_err() {
            self.places.remove(&number);
            return Err(Fault::OutOfMemory);
        }
        Ok(())
    }

    /// Takes no answer under this number from now on. One that had come is still given by the next
    /// polls, and else that there is none.
    pub fn close(&mut self, number: u64)
        ensures { self.new ≡ self.old }
    {
        if let Some(place) = self.places.get(&number) {
            if let Some(mut receiver) = lock(place) {
                receiver.close();
            }
        }
    }

    /// The next number whose answer has come, or never will, which is then no longer open. Where
    /// there is none so far, the task is woken by the next; where nothing is open, nothing wakes it.
    pub fn poll_any(&mut self, cx: &mut Context<'_>) -> Poll<(u64, Option<T>)>
        ensures armed { OnPending result (self.old ≢ 0 → IsArmed cx.new) }
        ensures kept { Keeps cx.old cx.new }
    {
        if self.answers.is_empty() {
            return Poll::Pending;
        }
        match self.answers.poll_next(cx) {
            Poll::Ready(Some((number, value))) => {
                self.places.remove(&number);
                Poll::Ready((number, value))
            }
            Poll::Ready(None) => cx.yield_now(),
            Poll::Pending => Poll::Pending,
        }
    }
}
