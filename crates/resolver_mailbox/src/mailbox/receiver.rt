//! The end that takes messages.

ghost use Rattle.std.specs.Prelude.{◌≡◌, ◌≢◌, ◌++◌, [], false, true, if◌then◌else◌, map, IfOk, IfErr, IfSome, IsOk};
ghost use Rattle.futures.specs.Poll.{IfReady, OnPending};
ghost use Rattle.futures.specs.Task.{Covers, IsArmed, Keeps};
ghost use Rattle.resolver_base.specs.declared.fault.Fault.TheVariants.{OutOfMemory, Uneven};
ghost use Rattle.resolver_types.specs.Names.{names};
ghost use Rattle.resolver_messages.specs.Waiting.{told_of};
ghost use Rattle.resolver_desk.specs.Book.{IsBook, call_of};
ghost use Rattle.resolver_mailbox.specs.Given.{given};
ghost use Rattle.resolver_mailbox.specs.Shares.{Agrees, Differs};

use crate::mailbox::agreeing::agreed;
use crate::mailbox::exact::Exact;
use crate::mailbox::naming::Naming;
use crate::mailbox::sender::Shared;
use crate::mailbox::share::Share;
use crate::mailbox::taken::Taken;
use futures::Stream;
use futures::task::{Context, Poll};
use resolver_base::{Faithful, Fault};
use resolver_desk::entry::Entry;
use resolver_messages::{Message, Metadata};
use resolver_types::Predicate;
use std::alloc::Global;
use std::hash::Hash;
use std::marker::Model;
use std::sync::{Arc, Wait};

/// The end of a mailbox that takes messages: a stream, which ends when the mailbox is closed and
/// nothing waits.
///
/// Contracts see what it gave, and the source at which its task is woken.
pub struct Receiver<K: Ord + Hash, S: Ord, M: Metadata, Q: Predicate<K, S>, N: Naming, R> {
    pub(super) rt: R,
    pub(super) alloc: Global,
    pub(super) shared: Arc<Shared<K, S, M, Q, N, R>>,
    pub(super) taken: Taken<K, S, M, Q, N>,
}

// By hand: docs/PROVING.md says what that saves whoever owns one.
impl<
    K: Ord + Hash + Drop,
    S: Ord + Drop,
    M: Metadata + Drop,
    Q: Predicate<K, S> + Drop,
    N: Naming,
    R: Drop,
> Drop for Receiver<K, S, M, Q, N, R> {
    fn drop(self) {
        let Self {
            rt: _,
            alloc: _,
            shared: _,
            taken: _,
        } = self;
    }
}

impl<K: Ord + Hash, S: Ord, M: Metadata, Q: Predicate<K, S>, N: Naming, R> Model
    for Receiver<K, S, M, Q, N, R> {
    ghost use Rattle.std.specs.Arc.{arc_value};
    ghost use Rattle.resolver_mailbox.specs.Given.{Inbox};

    ghost Value = { Inbox K S M Q };

    ghost view = { λ a. record {
      taken = a.taken;
      arrived = (arc_value a.shared).arrived.id;
    } };
}

impl<K: Ord + Hash, S: Ord, M: Metadata, Q: Predicate<K, S>, N: Naming, R> Receiver<
    K,
    S,
    M,
    Q,
    N,
    R,
> {
    /// What the receiver of a recorded mailbox gave, in its order. It is empty in another mailbox.
    pub fn taken(&self) -> &[Message<K, S, M, Q>]
        ensures { map told_of result.now ≡ self.now.taken }
    {
        self.taken.as_slice()
    }
}

impl<
    K: Ord + Hash + Faithful + Drop,
    S: Ord + Faithful + Drop,
    M: Metadata + Drop,
    Q: Predicate<K, S> + Faithful + Drop,
    N: Naming,
    R: Wait,
> Receiver<K, S, M, Q, N, R> {
    /// Closes the mailbox, for good. What waits can still be taken.
    pub fn close(&mut self)
        ensures { self.new.taken ≡ self.old.taken }
    {
        self.shared.close(&self.rt);
    }

    /// A copy of the book of calls, where it agrees with what this receiver gave and with the
    /// shares of handles that are lent; else `Uneven`. In a mailbox that isn't recorded it is empty.
    /// Where memory is refused (`OutOfMemory`), nothing changes. It waits for the mailbox's lock.
    ///
    /// It takes time in proportion to the book for each share, and to copy the messages.
    pub fn book(&self, shares: &[&Share<K, S, M, Q, N>]) -> Result<Vec<Entry<K, S, M, Q>>, Fault>
    where
        K: Exact,
        S: Exact,
        M: Exact,
        Q: Exact,
        ensures agrees { IfOk result (λ book. Agrees (map call_of book.items) self.now.taken
            (map (λ share. share.now) shares.now)) }
        ensures uneven { N.is_recorded ≡ false → IfErr result (λ fault. fault ≡ Uneven
            → Differs {M = M} [] self.now.taken (map (λ share. share.now) shares.now)) }
        ensures legal { N.is_recorded ≡ true → IfOk result
            (λ book. IsBook (names K.cmp S.cmp) Q.keeps (map call_of book.items)) }
        ensures none { N.is_recorded ≡ false → IfOk result
            (λ book. map call_of book.items ≡ []) }
        ensures only { IfErr result (λ fault. fault ≢ OutOfMemory → fault ≡ Uneven) }
    {
        let guard = self.shared.state.lock(&self.rt);
        let book = guard.calls(self.alloc)?;
        drop(guard);
        agreed(book, self.taken.as_slice(), shares)
    }
}

impl<
    K: Ord + Hash + Faithful + Drop,
    S: Ord + Faithful + Drop,
    M: Metadata + Drop,
    Q: Predicate<K, S> + Faithful + Drop,
    N: Naming,
    R: Wait + Drop,
> Stream for Receiver<K, S, M, Q, N, R> {
    type Item = Result<Message<K, S, M, Q>, Fault>;

    ghost needs = { λ r s. s ≡ r.arrived };

    /// Takes the first message that is ready. Where there is none, the task is woken by the next
    /// put and by a close. In a recorded mailbox a take needs memory; where it is refused
    /// (`OutOfMemory`), nothing changes. In another mailbox it takes none.
    fn poll_next(&mut self, cx: &mut Context<'_>) -> Poll<Option<Self::Item>>
        ensures registered { OnPending result
            (Covers cx.new (λ s. s ≡ self.new.arrived)) }
        ensures armed { OnPending result (IsArmed cx.new) }
        ensures kept { Keeps cx.old cx.new }
        ensures listed { self.new.taken ≡ (if N.is_recorded
            then self.old.taken ++ given result else self.old.taken) }
        ensures memory { N.is_recorded ≡ false → IfReady result (λ item. IfSome item IsOk) }
        ensures only { IfReady result (λ item. IfSome item
            (λ message. IfErr message (λ fault. fault ≡ OutOfMemory))) }
    {
        let mut guard = self.shared.state.lock(&self.rt);
        let state = &mut *guard;
        match state.take(self.alloc, &mut self.taken) {
            Err(fault) => Poll::Ready(Some(Err(fault))),
            Ok(Some(message)) => Poll::Ready(Some(Ok(message))),
            Ok(None) => {
                if state.is_over() {
                    Poll::Ready(None)
                } else {
                    cx.register(&self.shared.arrived, &mut state.waker)
                }
            }
        }
    }
}
