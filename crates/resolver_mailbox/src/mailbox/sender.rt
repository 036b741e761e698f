//! A handle that puts messages.

ghost use Rattle.std.specs.Prelude.{◌≡◌, ◌≢◌, false, true, None, Ok, IfOk, IfErr, IfSome, OnErr};
ghost use Rattle.std.specs.Option.{option_copied, option_map};
ghost use Rattle.resolver_base.specs.declared.fault.Fault.TheVariants.{Exhausted, OutOfMemory};
ghost use Rattle.resolver_base.specs.declared.feedback.Feedback.TheVariants.{Closed};
ghost use Rattle.resolver_messages.specs.Waiting.{told_of};
ghost use Rattle.resolver_mailbox.specs.Shares.{IsAdded, marked};

use crate::mailbox::counted::{Counted, Seat};
use crate::mailbox::naming::Naming;
use crate::mailbox::share::Share;
use futures::task::Source;
use resolver_base::{Faithful, Fault, Feedback};
use resolver_messages::{Message, Metadata};
use resolver_types::Predicate;
use std::alloc::{AllocError, Global};
use std::hash::Hash;
use std::marker::Model;
use std::sync::{Arc, Mutex, Wait};

/// What senders and receiver have in common: a desk under one lock, and where a message or a close
/// is awaited.
#[derive(Drop)]
pub(super) struct Shared<K: Ord + Hash, S: Ord, M: Metadata, Q: Predicate<K, S>, N: Naming, R> {
    pub(super) arrived: Source,
    pub(super) state: Mutex<Counted<K, S, M, Q, N, R>>,
}

impl<
    K: Ord + Hash + Faithful + Drop,
    S: Ord + Faithful + Drop,
    M: Metadata + Drop,
    Q: Predicate<K, S> + Faithful + Drop,
    N: Naming,
    R: Wait,
> Shared<K, S, M, Q, N, R> {
    /// Closes the desk, and wakes who waits once the lock is free.
    pub(super) fn close(&self, rt: &R) {
        let mut guard = self.state.lock(rt);
        let state = &mut *guard;
        state.close();
        let woken = state.waker.take();
        drop(guard);
        drop(woken);
    }
}

/// A handle of a mailbox, which puts messages. Any number of them may be used at once, each by its
/// own thread.
///
/// Contracts see its share, or none. Dropping a handle closes nothing.
///
/// Fetches of fifty keys are put, one by one:
///
/// ```rust
/// for key in first..first.saturating_add(50) {
///     let mut items = Vec::new(alloc);
///     items.push(FetchKey {
///         key,
///         subscribers: NonEmptyVec::new(alloc, (10, 0))?,
///         metadata: (),
///     })?;
///     putter.enqueue(Message::Fetch(items))?;
/// }
/// ```
pub struct Sender<K: Ord + Hash, S: Ord, M: Metadata, Q: Predicate<K, S>, N: Naming, R> {
    pub(super) alloc: Global,
    pub(super) shared: Arc<Shared<K, S, M, Q, N, R>>,
    pub(super) seat: Seat<K, S, M, Q, N, R>,
}

// By hand: docs/PROVING.md says what that saves whoever owns one.
impl<
    K: Ord + Hash + Drop,
    S: Ord + Drop,
    M: Metadata + Drop,
    Q: Predicate<K, S> + Drop,
    N: Naming,
    R: Drop,
> Drop for Sender<K, S, M, Q, N, R> {
    fn drop(self) {
        let Self {
            alloc: _,
            shared: _,
            seat: _,
        } = self;
    }
}

impl<K: Ord + Hash, S: Ord, M: Metadata, Q: Predicate<K, S>, N: Naming, R> Model
    for Sender<K, S, M, Q, N, R> {
    ghost use Rattle.std.specs.Prelude.{Option};
    ghost use Rattle.resolver_mailbox.specs.Shares.{Share};

    ghost Value = { Option (Share K S M Q) };

    ghost view = { λ a. a.seat };
}

impl<K: Ord + Hash, S: Ord, M: Metadata, Q: Predicate<K, S>, N: Naming, R> Sender<
    K,
    S,
    M,
    Q,
    N,
    R,
> {
    /// What this handle has put. There is none in a mailbox that isn't recorded, and before the
    /// first put.
    pub fn share(&self) -> Option<&Share<K, S, M, Q, N>>
        ensures { option_copied result ≡ self.now }
    {
        self.seat.share()
    }
}

impl<K: Ord + Hash, S: Ord, M: Metadata, Q: Predicate<K, S>, N: Naming, R: Copy> Sender<
    K,
    S,
    M,
    Q,
    N,
    R,
> {
    /// A new handle of the same mailbox, without a share.
    pub fn clone(&self) -> Result<Self, AllocError>
        ensures { IfOk result (λ handle. handle ≡ None) }
    {
        let shared = Arc::try_clone(&self.shared)?;
        Ok(Sender {
            alloc: self.alloc,
            shared,
            seat: Seat::new(*self.seat.rt()),
        })
    }
}

impl<
    K: Ord + Hash + Faithful + Drop,
    S: Ord + Faithful + Drop,
    M: Metadata + Drop,
    Q: Predicate<K, S> + Faithful + Drop,
    N: Naming,
    R: Wait,
> Sender<K, S, M, Q, N, R> {
    /// Puts a message: in the ready list where it has room (Ok), else with what waits (Backoff). A
    /// closed mailbox takes none (Closed). It waits for the mailbox's lock.
    ///
    /// In a recorded mailbox a message that is put goes last in this handle's share; the first one
    /// numbers the handle. Once the share is marked, Closed is the only answer. Where memory is
    /// refused (`OutOfMemory`), or a number for the handle (`Exhausted`), nothing changes and the
    /// message is dropped.
    pub fn enqueue(&mut self, message: Message<K, S, M, Q>) -> Result<Feedback, Fault>
        ensures added { N.is_recorded ≡ true → IfOk result (λ feedback. feedback ≢ Closed
            → IsAdded (told_of message) self.old self.new) }
        ensures unrecorded { N.is_recorded ≡ false → IfOk result (λ feedback. feedback ≢ Closed
            → self.new ≡ self.old) }
        ensures closed { IfOk result (λ feedback. feedback ≡ Closed
            → self.new ≡ option_map marked self.old) }
        ensures stays { IfSome self.old (λ share. share.is_closed ≡ true → result ≡ Ok Closed) }
        ensures err { OnErr result (self.new ≡ self.old) }
        ensures only { IfErr result (λ fault. fault ≢ OutOfMemory → fault ≡ Exhausted) }
        ensures exhausted { IfErr result (λ fault. fault ≡ Exhausted
            → (N.is_recorded ≡ true) × (self.old ≡ None)) }
    {
        if let Some(share) = self.seat.share() {
            if share.is_closed() {
                return Ok(Feedback::Closed);
            }
        }
        let mut guard = self.shared.state.lock(self.seat.rt());
        let state = &mut *guard;
        let answer = state.put(self.alloc, &mut self.seat, message);
        let woken = state.waker.take();
        drop(guard);
        drop(woken);
        answer
    }

    /// Closes the mailbox, for good. What waits can still be taken. The share stays as it is.
    pub fn close(&mut self)
        ensures { self.new ≡ self.old }
    {
        self.shared.close(self.seat.rt());
    }
}
