//! A look at an engine whose loop runs.

ghost use Rattle.std.specs.Prelude.{◌≡◌, ◌⊎◌, IfErr};
ghost use Rattle.futures.specs.Poll.{OnPending, IfReady};
ghost use Rattle.futures.specs.Task.{IsArmed, Keeps};
ghost use Rattle.resolver_base.specs.declared.fault.Fault.TheVariants.{Ended, OutOfMemory};

use futures::channel::mpsc::{UnboundedReceiver, UnboundedSender};
use futures::channel::{mpsc, oneshot};
use futures::spin::lock;
use futures::task::{Context, Poll};
use futures::{Future, Stream};
use resolver_base::{Faithful, Fault, Span};
use resolver_core::p2p::rows::Row;
use resolver_core::p2p::{Core, Phases};
use resolver_metrics::metrics::Metrics;
use resolver_runtime::TURNS;
use resolver_types::Predicate;
use std::alloc::{AllocError, Global};
use std::sync::{Arc, Mutex, Wait};

/// The rows, or why there are none.
type Listed<K, P, S> = Result<Vec<Row<K, S, P>>, Fault>;

/// What an engine counted, and how many keys are in each phase.
#[derive(Clone, Copy)]
struct Counts {
    metrics: Metrics,
    phases: Phases,
}

/// A look at an engine, which another thread may take while the engine's loop runs. `Engine::monitor` hands
/// it out.
///
/// The counts are those after the loop's last poll: each takes at most `TURNS` inputs. They stay once the
/// loop is over. An engine that is fed by hand shows its own, by its own calls.
#[derive(Drop)]
pub struct Monitor<K, P, S> {
    alloc: Global,
    counts: Arc<Mutex<Counts>>,
    asks: UnboundedSender<oneshot::Sender<Listed<K, P, S>>>,
}

impl<K: Drop, P: Drop, S: Drop> Monitor<K, P, S> {
    /// What the engine has counted since it was made, and how many keys wait, requests have no answer and
    /// serves are open. It waits while the loop writes these numbers down.
    pub fn metrics<R: Wait>(&self, rt: &R) -> Metrics {
        self.counts.lock(rt).metrics
    }

    /// How many demanded keys are in each phase. It waits as `metrics` does.
    pub fn phases<R: Wait>(&self, rt: &R) -> Phases {
        self.counts.lock(rt).phases
    }

    /// Asks the loop for the demanded keys, which it lists after its next turns: that takes it time linear in what
    /// is listed, and memory. Where memory is refused to this call (`OutOfMemory`), nothing is asked.
    pub fn rows(&self) -> Result<Rows<K, P, S>, Fault>
        ensures only { IfErr result (λ fault. fault ≡ OutOfMemory) }
    {
        let (asked, rows) = oneshot::channel(self.alloc)?;
        match self.asks.unbounded_send(asked) {
            Ok(()) => {}
            Err(_) => {}
        }
        Ok(Rows { rows })
    }

    /// Another look at the same engine.
    pub fn clone(&self) -> Result<Self, AllocError> {
        let counts = Arc::try_clone(&self.counts)?;
        let asks = self.asks.clone()?;
        Ok(Monitor {
            alloc: self.alloc,
            counts,
            asks,
        })
    }
}

/// The demanded keys, in their order, once the loop has listed them: each stands in one row, so in one phase.
///
/// `Ended` where the loop is over, and `OutOfMemory` where memory was refused for the list.
#[derive(Drop)]
pub struct Rows<K, P, S> {
    rows: oneshot::Receiver<Listed<K, P, S>>,
}

impl<K: Drop, P: Drop, S: Drop> Future for Rows<K, P, S> {
    type Output = Result<Vec<Row<K, S, P>>, Fault>;

    fn poll(&mut self, cx: &mut Context<'_>) -> Poll<Listed<K, P, S>> {
        match self.rows.poll(cx) {
            Poll::Ready(Ok(rows)) => Poll::Ready(rows),
            Poll::Ready(Err(_)) => Poll::Ready(Err(Fault::Ended)),
            Poll::Pending => Poll::Pending,
        }
    }
}

/// The loop's side of its monitors.
#[derive(Drop)]
pub(crate) struct Shown<K, P, S> {
    monitor: Monitor<K, P, S>,
    asks: UnboundedReceiver<oneshot::Sender<Listed<K, P, S>>>,
}

impl<K: Drop, P: Drop, S: Drop> Shown<K, P, S> {
    /// Of an engine that has counted this.
    pub(crate) fn new(alloc: Global, metrics: Metrics, phases: Phases) -> Result<Self, Fault>
        ensures only { IfErr result (λ fault. fault ≡ OutOfMemory) }
    {
        let (sender, asks) = mpsc::unbounded(alloc)?;
        let counts = Arc::new(alloc, Mutex::new(Counts { metrics, phases }))?;
        let monitor = Monitor {
            alloc,
            counts,
            asks: sender,
        };
        Ok(Shown { monitor, asks })
    }

    /// A look at the engine.
    pub(crate) fn monitor(&self) -> Result<Monitor<K, P, S>, Fault>
        ensures only { IfErr result (λ fault. fault ≡ OutOfMemory) }
    {
        Ok(self.monitor.clone()?)
    }
}

impl<K, P, S> Shown<K, P, S>
where
    K: Span + Faithful + Drop,
    P: Ord + Faithful + Drop,
    S: Ord + Faithful + Drop,
{
    /// Writes down what the engine has counted, and answers who asked for its rows. Who asks later
    /// wakes the task.
    pub(crate) fn show<Q: Predicate<K, S> + Drop>(
        &mut self,
        core: &Core<K, P, S, Q>,
        cx: &mut Context<'_>,
    )
        ensures kept { Keeps cx.old cx.new }
    {
        let counts = Counts {
            metrics: core.metrics(),
            phases: core.phases(),
        };
        if let Some(mut shown) = lock(&self.monitor.counts) {
            *shown = counts;
        }
        for _ in 0..TURNS {
            match self.asks.poll_next(cx) {
                Poll::Ready(Some(asked)) => drop(asked.send(core.rows())),
                Poll::Ready(None) => return,
                Poll::Pending => return,
            }
        }
        let _: Poll<()> = cx.yield_now();
    }
}
