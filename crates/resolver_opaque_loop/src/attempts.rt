//! Looks for values that are under way.

ghost use Rattle.std.specs.Prelude.{◌≡◌, None, [], IfErr};
ghost use Rattle.std.specs.BTreeMap.{is_at};
ghost use Rattle.std.specs.Map.{remove_entry};
ghost use Rattle.std.specs.Ordering.{nat_cmp};
ghost use Rattle.futures.specs.Poll.{IfReady};
ghost use Rattle.futures.specs.Task.{Keeps};
ghost use Rattle.resolver_base.specs.declared.fault.Fault.TheVariants.{OutOfMemory};

use futures::future::{AbortHandle, Abortable};
use futures::stream::FuturesUnordered;
use futures::task::{Context, Poll};
use futures::{Future, Stream};
use resolver_base::Fault;
use std::alloc::Global;
use std::collections::BTreeMap;

/// What comes of a look, under its number. One that was given up comes to nothing.
#[derive(Drop)]
struct Attempt<F> {
    number: u64,
    look: Abortable<F>,
}

impl<V, F: Future<Output = Option<V>>> Future for Attempt<F> {
    type Output = (u64, Option<V>);

    ghost can_poll = { λ a. F.can_poll a.look.task };

    fn poll(&mut self, cx: &mut Context<'_>) -> Poll<(u64, Option<V>)> {
        match self.look.poll(cx) {
            Poll::Ready(Ok(value)) => Poll::Ready((self.number, value)),
            Poll::Ready(Err(_)) => Poll::Ready((self.number, None)),
            Poll::Pending => Poll::Pending,
        }
    }
}

/// Looks that are under way, each under the number of its attempt, and none once they were ended. A
/// poll looks only at those that were woken.
#[derive(Drop)]
pub(crate) struct Attempts<F> {
    alloc: Global,
    looks: Option<FuturesUnordered<Attempt<F>>>,
    handles: BTreeMap<u64, AbortHandle>,
}

impl<V, F: Future<Output = Option<V>>> Attempts<F> {
    /// Nothing is looked for.
    pub(crate) fn new(alloc: Global) -> Result<Self, Fault>
        ensures only { IfErr result (λ fault. fault ≡ OutOfMemory) }
    {
        Ok(Attempts {
            alloc,
            looks: Some(FuturesUnordered::new(alloc)?),
            handles: BTreeMap::new(alloc),
        })
    }

    /// Takes a look, under a number that no other has. Where memory is refused, or the looks were ended,
    /// it is dropped.
    pub(crate) fn add(&mut self, number: u64, future: F) -> Result<(), Fault>
        requires pollable { (future : F) → F.can_poll future }
        ensures only { IfErr result (λ fault. fault ≡ OutOfMemory) }
    {
        let Some(looks) = &mut self.looks else {
            return Ok(());
        };
        let (look, handle) = Abortable::new(self.alloc, future)?;
        self.handles.insert(number, handle)?;
        if looks.push(Attempt { number, look }).is_err() {
            self.handles.remove(&number);
            return Err(Fault::OutOfMemory);
        }
        Ok(())
    }

    /// Gives the look under this number up: the next poll drops it.
    pub(crate) fn abort(&mut self, number: u64) {
        if let Some(handle) = self.handles.remove(&number) {
            handle.abort();
        }
    }

    /// Gives every look up, and drops it at once. None is taken from now on.
    pub(crate) fn end(&mut self)
        ensures gone { self.new.looks ≡ None }
        ensures forgotten { self.new.handles.entries ≡ [] }
    {
        self.looks = None;
        self.handles.clear();
    }

    /// The next number whose look is over, with the value: nothing of it is kept. Where there is none so far, the
    /// task is woken by the next.
    pub(crate) fn poll_any(&mut self, cx: &mut Context<'_>) -> Poll<(u64, Option<V>)>
        requires pollable { (future : F) → F.can_poll future }
        ensures forgets { IfReady result (λ said. self.new.handles.entries
            ≡ remove_entry (is_at (nat_cmp said.0)) self.old.handles.entries) }
        ensures kept { Keeps cx.old cx.new }
    {
        let looks = match &mut self.looks {
            Some(looks) if !looks.is_empty() => looks,
            _ => return Poll::Pending,
        };
        match looks.poll_next(cx) {
            Poll::Ready(Some((number, value))) => {
                self.handles.remove(&number);
                Poll::Ready((number, value))
            }
            Poll::Ready(None) => cx.yield_now(),
            Poll::Pending => Poll::Pending,
        }
    }
}
