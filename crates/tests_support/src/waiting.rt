//! Waits of a test.

use futures::StreamExt;
use futures::channel::mpsc;
use futures::executor::block_on;
use std::alloc::AllocGlobal;
use std::io;
use std::random::RandomSource;
use std::sync::Wait;

/// What comes next, once it is there.
pub fn next<R, T: Drop>(rt: &R, receiver: &mut mpsc::UnboundedReceiver<T>) -> io::Result<Option<T>>
where
    R: Wait + RandomSource + AllocGlobal,
{
    block_on(rt, receiver.next())
}
