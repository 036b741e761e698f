//! A mailbox that is full from its first message on: fetches of distinct keys are put one by one,
//! and then all that waits is taken.

use crate::fault::Fault;
use crate::spent::{Driven, Kind, Load, Steps, Times, take_each, tell};
use crate::workload::{All, fetch, scattered};
use futures::{FutureExt, StreamExt};
use resolver_base::Feedback;
use resolver_mailbox::mailbox::{self, Naming, Receiver, Sender, Unrecorded};
use resolver_messages::Message;
use resolver_types::NonEmptyVec;
use std::alloc::Global;
use std::num::NonZeroUsize;
use std::random::RandomSource;
use std::rt::Clock;
use std::sync::Wait;
use std::time::Instant;

/// The steps that are taken. What waits then is taken by itself.
const STEPS: &[Steps] = &[Steps(Kind::Put, Times::Keys, "put", "fetches")];

/// A handle that puts: `N` names the mailbox.
pub type Putter<N, R> = Sender<u64, u16, (), All, N, R>;

/// The end that takes.
pub type Taker<N, R> = Receiver<u64, u16, (), All, N, R>;

/// Puts a fetch of each key, closes the mailbox, and takes what waits.
pub fn run<R: AllocGlobal + Clock + Print + Wait + RandomSource + Copy + Drop>(
    rt: R,
    load: &Load,
) -> Result<(), Fault> {
    match mailbox::new(rt, rt.alloc(), NonZeroUsize::MIN) {
        Ok((mut sender, mut receiver)) => put_and_take(&rt, &mut sender, &mut receiver, load),
        Err(fault) => Err(fault.into()),
    }
}

/// The same of a mailbox that is lent.
fn put_and_take<R: AllocGlobal + Clock + Print + Wait + RandomSource + Drop>(
    rt: &R,
    sender: &mut Putter<Unrecorded, R>,
    receiver: &mut Taker<Unrecorded, R>,
    load: &Load,
) -> Result<(), Fault> {
    take_each(rt, sender, STEPS, load)?;
    sender.close();
    let began = Instant::now(rt).ok();
    let taken = take_waiting(rt, receiver);
    tell(rt, load, began, ("take", "fetches"), taken)
}

impl<R: Wait + Drop> Driven for Putter<Unrecorded, R> {
    /// Puts a fetch of a key. It counts a put that was not refused.
    fn take(&mut self, alloc: Global, _: Kind, i: u64) -> Result<u64, Fault> {
        let feedback = put(alloc, self, scattered(i), (0, 0))?;
        Ok(u64::from(feedback != Feedback::Closed))
    }
}

/// Puts a fetch of a key for a subscriber with its mark.
pub fn put<N: Naming, R: Wait>(
    alloc: Global,
    handle: &mut Putter<N, R>,
    key: u64,
    subscriber: (u16, u64),
) -> Result<Feedback, resolver_base::Fault> {
    let subscribers = NonEmptyVec::new(alloc, subscriber)?;
    let items = fetch(alloc, key, subscribers, ())?;
    handle.enqueue(Message::Fetch(items))
}

/// Takes all messages, and counts them and their fetches.
#[inline(never)]
fn take_waiting<R: AllocGlobal + Wait + RandomSource + Drop>(
    rt: &R,
    receiver: &mut Taker<Unrecorded, R>,
) -> Result<(u64, u64), Fault> {
    let mut steps: u64 = 0;
    let mut counted: u64 = 0;
    for _ in rt.forever() {
        match taken(rt, receiver)? {
            Some(message) => counted = counted.saturating_add(fetches(message)),
            None => break,
        }
        steps = steps.saturating_add(1);
    }
    Ok((steps, counted))
}

/// Takes a message; none where the mailbox has ended, or none is ready.
fn taken<R: AllocGlobal + Wait + RandomSource + Drop>(
    rt: &R,
    receiver: &mut Taker<Unrecorded, R>,
) -> Result<Option<Message<u64, u16, (), All>>, resolver_base::Fault> {
    match receiver.next().now_or_never(rt) {
        Ok(Some(Some(Ok(message)))) => Ok(Some(message)),
        Ok(Some(Some(Err(fault)))) => Err(fault),
        Ok(_) => Ok(None),
        Err(_) => Err(resolver_base::Fault::OutOfMemory),
    }
}

/// How many fetches a message has that was taken.
fn fetches(message: Message<u64, u16, (), All>) -> u64 {
    match &message {
        Message::Fetch(items) => items.len() as u64,
        Message::Retain(_) => 0,
    }
}
