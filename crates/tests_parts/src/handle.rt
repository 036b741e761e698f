//! What the owner of a loop in a thread is told at its end.

use crate::support::equal;
use futures::Future;
use futures::task::{Context, Poll};
use resolver_base::Fault;
use resolver_runtime::{Ending, start};
use std::alloc::AllocGlobal;
use std::panic::Expect;
use std::process::Abort;
use std::random::RandomSource;
use std::sync::Wait;
use std::thread::Threads;

/// A loop that is over at its first poll.
#[derive(Drop)]
struct Over(Ending);

impl Future for Over {
    type Output = Ending;

    fn poll(&mut self, _cx: &mut Context<'_>) -> Poll<Ending> {
        Poll::Ready(self.0)
    }
}

/// That this is what the owner of a loop is told that ends so.
fn is_told<R>(rt: R, ending: Ending, expected: Result<(), Fault>)
where
    R: Abort + Threads + Wait + RandomSource + AllocGlobal + Copy + Drop + Send + 'static,
{
    let handle = start(rt, Over(ending)).expect(&rt, "a thread");
    equal(&rt, &handle.join(&rt), &expected);
}

#[test]
fn a_loop_that_ended_well(rt: HostRuntime) {
    is_told(rt, Ending::Complete, Ok(()));
}

#[test]
fn a_loop_that_wanted_memory(rt: HostRuntime) {
    is_told(rt, Ending::OutOfMemory, Err(Fault::OutOfMemory));
}

#[test]
fn a_loop_that_wanted_numbers(rt: HostRuntime) {
    is_told(rt, Ending::Exhausted, Err(Fault::Exhausted));
}
