//! What one handle has put.

ghost use Rattle.std.specs.Prelude.{◌≡◌, ◌≢◌, ◌≤◌, ◌<◌, ◌+◌, ◌^◌, ◌-◌, ◌∷◌, [], false, true, is_some, map, None, Some, IfOk, IfErr, OnOk, OnErr};
ghost use Rattle.std.specs.Vec.{vec_len, vec_capacity};
ghost use Rattle.resolver_base.specs.declared.fault.Fault.TheVariants.{Exhausted, OutOfMemory};
ghost use Rattle.resolver_types.specs.Names.{names};
ghost use Rattle.resolver_messages.specs.Waiting.{told_of};
ghost use Rattle.resolver_desk.specs.Desk.{desk_put, feedback_of};
ghost use Rattle.resolver_mailbox.specs.Shares.{first_share, marked, numbered, with_message};

use crate::mailbox::naming::{Names, Puts};
use resolver_base::{Faithful, Fault, Feedback};
use resolver_desk::desk::Desk;
use resolver_messages::{Message, Metadata};
use resolver_types::Predicate;
use std::alloc::Global;
use std::hash::Hash;
use std::marker::Model;
use std::sync::ledger;

/// What one handle of a recorded mailbox has put, in its order, and whether it was answered Closed
/// since.
///
/// Contracts see all of it. By its type it has a part in the total of its mailbox's puts, which is
/// the number of its messages.
#[derive(Drop)]
pub struct Share<K, S, M, Q, N: Names> {
    handle: u64,
    puts: Vec<Message<K, S, M, Q>>,
    is_closed: bool,
    part: ledger::Share<Puts<N>>,
}

impl<K, S, M, Q, N: Names> Model for Share<K, S, M, Q, N> {
    ghost use Rattle.std.specs.Prelude.{◌≡◌, ◌<◌, map};
    ghost use Rattle.std.specs.Vec.{vec_len};
    ghost use Rattle.resolver_messages.specs.Waiting.{told_of};
    ghost use Rattle.resolver_mailbox.specs.Shares.{Share};

    ghost Value = { Share K S M Q };

    ghost view = { λ a. record {
      handle = a.handle;
      puts = map told_of a.puts.items;
      is_closed = a.is_closed;
    } };

    ghost invariant = { λ a. (0 < a.part.parts) × (a.part.amount ≡ vec_len a.puts) };
}

impl<K, S, M, Q, N: Names> Share<K, S, M, Q, N> {
    /// The number of the handle.
    pub fn handle(&self) -> u64
        ensures { result ≡ self.now.handle }
    {
        self.handle
    }

    /// The messages that were put and answered Ok or Backoff.
    pub fn puts(&self) -> &[Message<K, S, M, Q>]
        ensures { map told_of result.now ≡ self.now.puts }
    {
        self.puts.as_slice()
    }

    /// Whether the handle was answered Closed.
    pub fn is_closed(&self) -> bool
        ensures { result ≡ self.now.is_closed }
    {
        self.is_closed
    }

    /// Notes that the handle was answered Closed.
    pub(super) fn mark(&mut self)
        ensures { self.new ≡ marked self.old }
    {
        self.is_closed = true;
    }
}

impl<
    K: Ord + Hash + Faithful + Drop,
    S: Ord + Faithful + Drop,
    M: Metadata + Drop,
    Q: Predicate<K, S> + Faithful + Drop,
    N: Names,
> Share<K, S, M, Q, N> {
    /// Puts a message of this handle on an open recorded desk. Where memory is refused, nothing
    /// changes.
    pub(super) fn put(
        &mut self,
        alloc: Global,
        desk: &mut Desk<K, S, M, Q>,
        total: &mut ledger::Book<Puts<N>>,
        message: Message<K, S, M, Q>,
    ) -> Result<Feedback, Fault>
        requires unclosed { desk.old.is_closed ≡ false }
        requires recorded { is_some desk.old.book ≡ true }
        ensures feedback { IfOk result (λ feedback. feedback ≡ feedback_of desk.old) }
        ensures listed { OnOk result (self.new ≡ with_message (told_of message) self.old) }
        ensures desk { OnOk result (desk.new ≡ desk_put (names K.cmp S.cmp) M.merged Q.keeps
            (Some self.old.handle) (told_of message) desk.old) }
        ensures total { OnOk result (total.new.total ≡ total.old.total + 1) }
        ensures err { OnErr result (self.new ≡ self.old) }
        ensures err_desk { OnErr result (desk.new ≡ desk.old) }
        ensures err_total { OnErr result (total.new.total ≡ total.old.total) }
        ensures only { IfErr result (λ fault. fault ≡ OutOfMemory) }
    {
        let copy = ready_copy(alloc, &mut self.puts, &message)?;
        let (feedback, _) = desk.put(Some(self.handle), message)?;
        total.add(&mut self.part, 1);
        self.puts.push_reserved(copy);
        Ok(feedback)
    }

    /// Puts the first message of a handle on an open recorded desk, which numbers the handle. Where
    /// memory or a number is refused, nothing changes.
    pub(super) fn first(
        alloc: Global,
        desk: &mut Desk<K, S, M, Q>,
        total: &mut ledger::Book<Puts<N>>,
        spare: &mut ledger::Share<Puts<N>>,
        message: Message<K, S, M, Q>,
    ) -> Result<(Feedback, Self), Fault>
        requires unclosed { desk.old.is_closed ≡ false }
        requires recorded { is_some desk.old.book ≡ true }
        requires parts { spare.old.parts + numbered desk.old ≡ 2 ^ 64 - 1 }
        requires unused { spare.old.amount ≡ 0 }
        ensures feedback { IfOk result (λ answer. answer.0 ≡ feedback_of desk.old) }
        ensures share { IfOk result (λ answer. answer.1
            ≡ first_share (numbered desk.old) (told_of message)) }
        ensures desk { OnOk result (desk.new ≡ desk_put (names K.cmp S.cmp) M.merged Q.keeps
            None (told_of message) desk.old) }
        ensures total { OnOk result (total.new.total ≡ total.old.total + 1) }
        ensures spare { OnOk result (spare.new.parts + 1 ≡ spare.old.parts) }
        ensures unused { spare.new.amount ≡ 0 }
        ensures err_desk { OnErr result (desk.new ≡ desk.old) }
        ensures err_total { OnErr result (total.new.total ≡ total.old.total) }
        ensures err_spare { OnErr result (spare.new.parts ≡ spare.old.parts) }
        ensures only { IfErr result (λ fault. fault ≢ OutOfMemory → fault ≡ Exhausted) }
    {
        let puts = first_copied(alloc, &message)?;
        let (feedback, Some(handle)) = desk.put(None, message)? else {
            unreachable!()
        };
        let mut part = spare.split_off(1, 0);
        total.add(&mut part, 1);
        let share = Share {
            handle,
            puts,
            is_closed: false,
            part,
        };
        Ok((feedback, share))
    }
}

/// A copy of the message, for which this list then has room.
pub(super) fn ready_copy<
    K: Faithful + Drop,
    S: Faithful + Drop,
    M: Metadata + Drop,
    Q: Faithful + Drop,
>(
    alloc: Global,
    puts: &mut Vec<Message<K, S, M, Q>>,
    message: &Message<K, S, M, Q>,
) -> Result<Message<K, S, M, Q>, Fault>
    ensures only { IfErr result (λ fault. fault ≡ OutOfMemory) }
    ensures same { puts.new.items ≡ puts.old.items }
    ensures room { OnOk result (vec_len puts.new < vec_capacity puts.new) }
    ensures copy { IfOk result (λ copy. told_of copy ≡ told_of message.now) }
{
    puts.reserve(1)?;
    message.copy(alloc)
}

/// A list of a copy of the message.
fn first_copied<K: Faithful + Drop, S: Faithful + Drop, M: Metadata + Drop, Q: Faithful + Drop>(
    alloc: Global,
    message: &Message<K, S, M, Q>,
) -> Result<Vec<Message<K, S, M, Q>>, Fault>
    ensures only { IfErr result (λ fault. fault ≡ OutOfMemory) }
    ensures list { IfOk result (λ puts. map told_of puts.items ≡ told_of message.now ∷ []) }
{
    let mut puts = Vec::with_capacity(alloc, 1)?;
    puts.push_reserved(message.copy(alloc)?);
    Ok(puts)
}
