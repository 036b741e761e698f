//! A loop that a test polls by hand, and what is seen of that.

use crate::seen::{Seen, spell};
use futures::channel::mpsc;
use futures::task::Poll;
use futures::test::MockTask;
use resolver_runtime::Ending;
use std::alloc::AllocError;
use std::fmt::Write;

/// A machine's loop, as a test knows it, which polls it by hand.
pub trait Polled {
    /// Polls it once.
    fn poll_once(&mut self, task: &MockTask) -> Poll<Ending>;
}

/// Polls the loop for as long as its task is woken, as an executor does, or until it is over. A new task is woken.
pub fn settle<L: Polled>(task: &MockTask, looped: &mut L) -> Poll<Ending> {
    for _ in 0..1000_u64 {
        if !task.is_woken() {
            return Poll::Pending;
        }
        let polled = looped.poll_once(task);
        if polled.is_ready() {
            return polled;
        }
    }
    Poll::Pending
}

/// Whether a loop waits, is busy or over, and then what its owner is told.
fn word_of(polled: Poll<Ending>, is_busy: bool) -> &'static str {
    match polled {
        Poll::Ready(ending) => match ending.into_result() {
            Ok(()) => "complete",
            Err(fault) => fault.name(),
        },
        Poll::Pending if is_busy => "busy",
        Poll::Pending => "-",
    }
}

/// Polls the loop, and writes what the fakes were asked, and whether it waits, is busy or over.
pub fn turn<L: Polled>(
    text: &mut String,
    task: &MockTask,
    looped: &mut L,
    told: &mut mpsc::UnboundedReceiver<Seen>,
) -> Result<(), AllocError> {
    let polled = settle(task, looped);
    spell(text, told)?;
    let word = word_of(polled, task.is_woken());
    writeln!(text, "{word}")?;
    Ok(())
}
