//! Where verdicts are awaited.

ghost use Rattle.std.specs.Prelude.{◌≡◌, IsSome, IfErr};
ghost use Rattle.std.specs.BTreeMap.{is_at};
ghost use Rattle.std.specs.Map.{lookup};
ghost use Rattle.std.specs.Ordering.{nat_cmp};
ghost use Rattle.futures.specs.Poll.{IfReady};
ghost use Rattle.futures.specs.Task.{Keeps};
ghost use Rattle.resolver_base.specs.declared.fault.Fault.TheVariants.{OutOfMemory};

use futures::Future;
use futures::channel::oneshot;
use futures::task::{Context, Poll};
use resolver_base::Fault;
use resolver_delivery::Entries;
use resolver_types::Outcome;
use std::alloc::Global;
use std::collections::BTreeMap;

/// The one-shots of deliveries, by their numbers.
#[derive(Drop)]
pub(super) struct Verdicts<O> {
    awaited: BTreeMap<u64, oneshot::Receiver<O>>,
}

impl<O: Drop> Verdicts<O> {
    pub(super) fn new(alloc: Global) -> Self {
        Verdicts {
            awaited: BTreeMap::new(alloc),
        }
    }

    /// Awaits the verdict on a delivery.
    pub(super) fn put(&mut self, number: u64, verdict: oneshot::Receiver<O>) -> Result<(), Fault>
        ensures only { IfErr result (λ fault. fault ≡ OutOfMemory) }
    {
        self.awaited.insert(number, verdict)?;
        Ok(())
    }

    /// Awaits the verdict on a delivery no more.
    pub(super) fn forget(&mut self, number: u64) {
        self.awaited.remove(&number);
    }
}

impl<O: Into<Outcome> + Drop> Verdicts<O> {
    /// The first open delivery whose verdict came, was dropped, or which is canceled.
    pub(super) fn poll<K: Ord + Drop, S: Drop, V: Drop, C: Drop, T: Drop>(
        &mut self,
        cx: &mut Context<'_>,
        entries: &Entries<K, S, V, C, T>,
    ) -> Poll<(u64, Option<Outcome>)>
        ensures is_open { IfReady result
            (λ said. IsSome (lookup (is_at (nat_cmp said.0)) entries.now.going)) }
        ensures kept { Keeps cx.old cx.new }
    {
        for (number, verdict) in self.awaited.iter_mut() {
            let Some(open) = entries.open(*number) else {
                continue;
            };
            if entries.number(&open.delivery.key) != Some(*number) {
                return Poll::Ready((*number, last_word(verdict)));
            }
            if let Poll::Ready(said) = verdict.poll(cx) {
                return Poll::Ready((*number, said.ok().map(Into::into)));
            }
        }
        Poll::Pending
    }
}

/// The verdict on a canceled delivery, if it had already come. None can come from now on.
fn last_word<O: Into<Outcome> + Drop>(verdict: &mut oneshot::Receiver<O>) -> Option<Outcome> {
    verdict.close();
    match verdict.try_recv() {
        Ok(said) => said.map(Into::into),
        Err(_) => None,
    }
}
