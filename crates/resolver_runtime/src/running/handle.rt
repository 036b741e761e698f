//! A loop in a thread.

ghost use Rattle.std.specs.Prelude.{◌≡◌, ◌⊎◌, IfErr};
ghost use Rattle.resolver_base.specs.declared.fault.Fault.TheVariants.{OutOfMemory, Exhausted};

use crate::running::ending::Ending;
use futures::Future;
use futures::executor::block_on_queue;
use futures::task::{Doorbell, Queue};
use resolver_base::Fault;
use std::alloc::AllocGlobal;
use std::random::RandomSource;
use std::sync::Wait;
use std::thread::{JoinHandle, Threads};
use std::{io, thread};

/// A loop's thread. Who drops it leaves the thread to itself: the loop runs on.
#[derive(Drop)]
pub struct Handle {
    thread: JoinHandle<Ending>,
}

impl Handle {
    /// Waits for the end of the loop, and says how it ended: Ok where its mailbox, or a source that it can't
    /// do without, was closed; `OutOfMemory` where memory was refused to it or to what it was lent; `Exhausted`
    /// where 2^64 numbers of one kind were used up. Nothing else ends it: dropping handles of its
    /// mailbox doesn't, so call `close` on one first.
    pub fn join<R: Threads>(self, rt: &R) -> Result<(), Fault>
        ensures only { IfErr result (λ fault. (fault ≡ OutOfMemory) ⊎ (fault ≡ Exhausted)) }
    {
        let Handle { thread } = self;
        thread.join(rt).into_result()
    }
}

/// Polls a loop in a thread of its own until it is over. Where memory is refused or no thread can
/// be made, the loop is dropped.
pub fn start<R, F>(rt: R, looped: F) -> Result<Handle, Fault>
where
    R: Threads + Wait + RandomSource + AllocGlobal + Copy + Drop + Send + 'static,
    F: Future<Output = Ending> + Send + 'static,
    requires { F.can_poll looped }
    ensures only { IfErr result (λ fault. fault ≡ OutOfMemory) }
{
    let Ok(queue) = queue(&rt) else {
        return Err(Fault::OutOfMemory);
    };
    let run = move || -> Ending
        requires { F.can_poll looped }
    { run(&rt, &queue, looped) };
    match thread::spawn(&rt, run) {
        Ok(thread) => Ok(Handle { thread }),
        Err(_) => Err(Fault::OutOfMemory),
    }
}

/// A queue with room for its one task, so that a loop begins without memory.
fn queue<R: RandomSource + AllocGlobal>(rt: &R) -> io::Result<Queue> {
    let queue = Queue::new(rt, Doorbell::parking())?;
    queue.add()?.cancel();
    Ok(queue)
}

/// Polls a loop in this thread until it is over.
fn run<R: Wait, F: Future<Output = Ending>>(rt: &R, queue: &Queue, looped: F) -> Ending
    requires { F.can_poll looped }
{
    match block_on_queue(rt, queue, looped) {
        Ok(ending) => ending,
        Err(_) => Ending::OutOfMemory,
    }
}
