//! What lies under a mailbox's lock.

ghost use Rattle.std.specs.Prelude.{◌≡◌, ◌≢◌, ◌<◌, ◌↔◌, ◌++◌, [], false, true, is_some, map, None, Some, Ok, Err, IsTrue, IfOk, IfErr, OnOk, OnErr};
ghost use Rattle.std.specs.NonZero.{non_zero_usize_get};
ghost use Rattle.std.specs.Option.{ForSome, option_copied, option_map, option_to_list};
ghost use Rattle.resolver_base.specs.declared.fault.Fault.TheVariants.{Exhausted, OutOfMemory};
ghost use Rattle.resolver_base.specs.declared.feedback.Feedback.TheVariants.{Closed};
ghost use Rattle.resolver_messages.specs.Waiting.{told_of};
ghost use Rattle.resolver_types.specs.Names.{names};
ghost use Rattle.resolver_desk.specs.Book.{IsBook, call_of};
ghost use Rattle.resolver_desk.specs.Desk.{IsOver, calls_of, desk_closed, desk_put, desk_taken, empty_book, empty_desk, feedback_of};
ghost use Rattle.resolver_mailbox.specs.Shares.{IsAdded, IsCounted, marked};

use crate::mailbox::agreeing::copied;
use crate::mailbox::naming::{Names, Naming, Pages, Puts, Takes};
use crate::mailbox::share::Share;
use crate::mailbox::taken::Taken;
use futures::task::Waker;
use resolver_base::{Faithful, Fault, Feedback};
use resolver_desk::desk::Desk;
use resolver_desk::entry::Entry;
use resolver_messages::{Message, Metadata};
use resolver_types::Predicate;
use std::alloc::Global;
use std::hash::Hash;
use std::marker::{Model, PhantomData};
use std::num::NonZeroUsize;
use std::sync::ledger;

/// Where a handle keeps its share, if it has one. A put needs one.
///
/// It is made of the handle's runtime, by value. So a call that has its handle and can't copy the
/// runtime has one seat, and can put under no other. Contracts see the share, or none.
#[derive(Drop)]
pub(super) struct Seat<K, S, M, Q, N: Names, R> {
    rt: R,
    share: Option<Share<K, S, M, Q, N>>,
}

impl<K, S, M, Q, N: Names, R> Model for Seat<K, S, M, Q, N, R> {
    ghost use Rattle.std.specs.Prelude.{Option};
    ghost use Rattle.resolver_mailbox.specs.Shares.{Share};

    ghost Value = { Option (Share K S M Q) };

    ghost view = { λ a. a.share };
}

impl<K, S, M, Q, N: Names, R> Seat<K, S, M, Q, N, R> {
    /// Of a handle that has put nothing.
    pub(super) fn new(rt: R) -> Self
        ensures { result ≡ None }
    {
        Seat { rt, share: None }
    }

    /// The handle's runtime.
    pub(super) fn rt(&self) -> &R {
        &self.rt
    }

    /// The share.
    pub(super) fn share(&self) -> Option<&Share<K, S, M, Q, N>>
        ensures { option_copied result ≡ self.now }
    {
        self.share.as_ref()
    }
}

/// The totals of a recorded desk, and the parts that no handle has so far.
#[derive(Drop)]
struct Totals<N: Names> {
    puts: ledger::Book<Puts<N>>,
    takes: ledger::Book<Takes<N>>,
    spare: ledger::Share<Puts<N>>,
    ghost unused: { spare.amount ≡ 0 },
}

/// A desk, the totals of its puts and its takes where it is recorded, and who waits for a message.
///
/// Between its calls the totals are the numbers of puts and takes in the desk's book.
#[derive(Drop)]
pub(super) struct Counted<K: Ord + Hash, S: Ord, M: Metadata, Q: Predicate<K, S>, N: Naming, R> {
    desk: Desk<K, S, M, Q>,
    totals: Option<Totals<N>>,
    pub(super) waker: Option<Waker>,
    seats: PhantomData<R>,
    ghost recorded: { is_some desk.book ≡ N.is_recorded },
    ghost totaled: { is_some totals ≡ N.is_recorded },
    ghost counted: { ForSome totals
        (λ t. IsCounted t.puts.total t.takes.total t.spare.parts desk) },
}

impl<
    K: Ord + Hash + Faithful + Drop,
    S: Ord + Faithful + Drop,
    M: Metadata + Drop,
    Q: Predicate<K, S> + Faithful + Drop,
    N: Naming,
    R,
> Counted<K, S, M, Q, N, R> {
    /// With a new desk, which isn't recorded and has room for this many ready messages.
    pub(super) fn unrecorded(alloc: Global, capacity: NonZeroUsize) -> Result<Self, Fault>
        requires { N.is_recorded ≡ false }
        ensures desk { IfOk result
            (λ state. state.desk ≡ empty_desk (non_zero_usize_get capacity) None) }
        ensures only { IfErr result (λ fault. fault ≡ OutOfMemory) }
    {
        Ok(Counted {
            desk: Desk::new(alloc, capacity)?,
            totals: None,
            waker: None,
            seats: PhantomData,
        })
    }

    /// With a new desk, which is recorded and has room for this many ready messages, and the part
    /// of its takes. Its puts and takes are counted in these two ledgers.
    pub(super) fn recorded(
        alloc: Global,
        capacity: NonZeroUsize,
        pages: Pages,
    ) -> Result<(Self, ledger::Share<Takes<N>>), Fault>
        requires kind { N.is_recorded ≡ true }
        requires puts { pages.puts.name ≡ N.puts }
        requires takes { pages.takes.name ≡ N.takes }
        ensures desk { IfOk result
            (λ made. made.0.desk ≡ empty_desk (non_zero_usize_get capacity) (Some empty_book)) }
        ensures whole { IfOk result (λ made. (made.1.parts ≡ 1) × (made.1.amount ≡ 0)) }
        ensures only { IfErr result (λ fault. fault ≡ OutOfMemory) }
    {
        let desk = Desk::recorded(alloc, capacity)?;
        let Pages { puts, takes } = pages;
        let (puts, spare) = puts.open::<Puts<N>>();
        let (takes, part) = takes.open::<Takes<N>>();
        let state = Counted {
            desk,
            totals: Some(Totals { puts, takes, spare }),
            waker: None,
            seats: PhantomData,
        };
        Ok((state, part))
    }

    /// Puts a message of the handle with this seat. Where memory or a number is refused, nothing
    /// changes. A closed desk takes no memory.
    pub(super) fn put(
        &mut self,
        alloc: Global,
        seat: &mut Seat<K, S, M, Q, N, R>,
        message: Message<K, S, M, Q>,
    ) -> Result<Feedback, Fault>
        ensures feedback { IfOk result (λ feedback. feedback ≡ feedback_of self.old.desk) }
        ensures desk { OnOk result (self.new.desk ≡ desk_put (names K.cmp S.cmp) M.merged Q.keeps
            (option_map (λ s. s.handle) seat.old) (told_of message) self.old.desk) }
        ensures added { N.is_recorded ≡ true → IfOk result (λ feedback. feedback ≢ Closed
            → IsAdded (told_of message) seat.old seat.new) }
        ensures unrecorded { N.is_recorded ≡ false → IfOk result (λ feedback. feedback ≢ Closed
            → seat.new ≡ seat.old) }
        ensures closed { IfOk result (λ feedback. feedback ≡ Closed
            → seat.new ≡ option_map marked seat.old) }
        ensures err { OnErr result (seat.new ≡ seat.old) }
        ensures err_desk { OnErr result (self.new.desk ≡ self.old.desk) }
        ensures shut { OnErr result (self.old.desk.is_closed ≡ false) }
        ensures only { IfErr result (λ fault. fault ≢ OutOfMemory → fault ≡ Exhausted) }
        ensures exhausted { IfErr result (λ fault. fault ≡ Exhausted
            → (N.is_recorded ≡ true) × (seat.old ≡ None)) }
    {
        let share = &mut seat.share;
        if self.desk.is_closed() {
            if let Some(share) = share {
                share.mark();
            }
            return Ok(Feedback::Closed);
        }
        let Some(totals) = &mut self.totals else {
            let (feedback, _) = self.desk.put(None, message)?;
            return Ok(feedback);
        };
        if let Some(share) = share {
            return share.put(alloc, &mut self.desk, &mut totals.puts, message);
        }
        let (feedback, first) = Share::first(
            alloc,
            &mut self.desk,
            &mut totals.puts,
            &mut totals.spare,
            message,
        )?;
        *share = Some(first);
        Ok(feedback)
    }

    /// Takes a message, and keeps a copy in the receiver's list where the mailbox is recorded.
    /// Where memory is refused, nothing changes. In another mailbox it takes none.
    pub(super) fn take(
        &mut self,
        alloc: Global,
        taken: &mut Taken<K, S, M, Q, N>,
    ) -> Result<Option<Message<K, S, M, Q>>, Fault>
        ensures desk { IfOk result (λ given. (option_map told_of given, self.new.desk)
            ≡ desk_taken self.old.desk) }
        ensures listed { N.is_recorded ≡ true → IfOk result (λ given. taken.new
            ≡ taken.old ++ option_to_list (option_map told_of given)) }
        ensures unrecorded { N.is_recorded ≡ false → taken.new ≡ taken.old }
        ensures err { OnErr result (taken.new ≡ taken.old) }
        ensures err_desk { OnErr result (self.new.desk ≡ self.old.desk) }
        ensures memory { OnErr result (N.is_recorded ≡ true) }
        ensures only { IfErr result (λ fault. fault ≡ OutOfMemory) }
    {
        let Some(totals) = &mut self.totals else {
            return self.desk.take();
        };
        taken.take(alloc, &mut self.desk, &mut totals.takes)
    }

    /// The calls on the desk so far, in their order. There are none where it isn't recorded.
    pub(super) fn calls(&self, alloc: Global) -> Result<Vec<Entry<K, S, M, Q>>, Fault>
        ensures only { IfErr result (λ fault. fault ≡ OutOfMemory) }
        ensures same { IfOk result
            (λ calls. map call_of calls.items ≡ calls_of self.now.desk) }
        ensures legal { N.is_recorded ≡ true → IfOk result
            (λ calls. IsBook (names K.cmp S.cmp) Q.keeps (map call_of calls.items)) }
        ensures none { N.is_recorded ≡ false → IfOk result
            (λ calls. map call_of calls.items ≡ []) }
    {
        self.desk.law();
        copied(alloc, self.desk.calls())
    }

    /// Closes the desk.
    pub(super) fn close(&mut self)
        ensures { self.new.desk ≡ desk_closed self.old.desk }
    {
        self.desk.close();
    }

    /// Whether the desk was closed and nothing is left to be taken.
    pub(super) fn is_over(&self) -> bool
        ensures { IsTrue result ↔ IsOver self.now.desk }
    {
        self.desk.is_over()
    }
}
