//! What a receiver gave.

ghost use Rattle.std.specs.Prelude.{◌≡◌, ◌+◌, ◌++◌, [], false, true, is_some, length, map, IfOk, IfErr, OnErr};
ghost use Rattle.std.specs.Option.{option_map, option_to_list};
ghost use Rattle.resolver_base.specs.declared.fault.Fault.TheVariants.{OutOfMemory};
ghost use Rattle.resolver_messages.specs.Waiting.{told_of};
ghost use Rattle.resolver_desk.specs.Desk.{desk_taken};

use crate::mailbox::naming::{Naming, Takes};
use crate::mailbox::share::ready_copy;
use resolver_base::{Faithful, Fault};
use resolver_desk::desk::Desk;
use resolver_messages::{Message, Metadata};
use resolver_types::Predicate;
use std::alloc::Global;
use std::hash::Hash;
use std::marker::Model;
use std::sync::ledger;

/// What the receiver of a recorded mailbox gave, in its order. It is empty in another mailbox.
///
/// Contracts see the list. By its type it is as long as the total of its mailbox's takes.
#[derive(Drop)]
pub(super) struct Taken<K, S, M, Q, N: Naming> {
    items: Vec<Message<K, S, M, Q>>,
    part: Option<ledger::Share<Takes<N>>>,
}

impl<K, S, M, Q, N: Naming> Model for Taken<K, S, M, Q, N> {
    ghost use Rattle.std.specs.Prelude.{List, ◌≡◌, [], is_some, map, MatchOption};
    ghost use Rattle.std.specs.Vec.{vec_len};
    ghost use Rattle.resolver_messages.specs.Waiting.{Told, told_of};

    ghost Value = { List (Told K S M Q) };

    ghost view = { λ a. map told_of a.items.items };

    ghost invariant = { λ a. (is_some a.part ≡ N.is_recorded) × MatchOption a.part
        (a.items.items ≡ [])
        (λ part. (part.parts ≡ 1) × (part.amount ≡ vec_len a.items)) };
}

impl<K, S, M, Q, N: Naming> Taken<K, S, M, Q, N> {
    /// Of a mailbox that isn't recorded.
    pub(super) fn unrecorded(alloc: Global) -> Self
        requires { N.is_recorded ≡ false }
        ensures { result ≡ [] }
    {
        Taken {
            items: Vec::new(alloc),
            part: None,
        }
    }

    /// Of a recorded mailbox, of which nothing was taken.
    pub(super) fn new(alloc: Global, part: ledger::Share<Takes<N>>) -> Self
        requires recorded { N.is_recorded ≡ true }
        requires whole { (part.parts ≡ 1) × (part.amount ≡ 0) }
        ensures { result ≡ [] }
    {
        Taken {
            items: Vec::new(alloc),
            part: Some(part),
        }
    }

    /// The messages.
    pub(super) fn as_slice(&self) -> &[Message<K, S, M, Q>]
        ensures { map told_of result.now ≡ self.now }
    {
        self.items.as_slice()
    }
}

impl<
    K: Ord + Hash + Faithful + Drop,
    S: Ord + Faithful + Drop,
    M: Metadata + Drop,
    Q: Predicate<K, S> + Faithful + Drop,
    N: Naming,
> Taken<K, S, M, Q, N> {
    /// Takes a message from a recorded desk, and keeps a copy of it. Where memory is refused,
    /// nothing changes.
    pub(super) fn take(
        &mut self,
        alloc: Global,
        desk: &mut Desk<K, S, M, Q>,
        total: &mut ledger::Book<Takes<N>>,
    ) -> Result<Option<Message<K, S, M, Q>>, Fault>
        requires recorded { N.is_recorded ≡ true }
        ensures desk { IfOk result (λ taken. (option_map told_of taken, desk.new)
            ≡ desk_taken desk.old) }
        ensures listed { IfOk result (λ taken. self.new
            ≡ self.old ++ option_to_list (option_map told_of taken)) }
        ensures total { IfOk result (λ taken. total.new.total
            ≡ total.old.total + length (option_to_list (option_map told_of taken))) }
        ensures err { OnErr result (self.new ≡ self.old) }
        ensures err_desk { OnErr result (desk.new ≡ desk.old) }
        ensures err_total { OnErr result (total.new.total ≡ total.old.total) }
        ensures only { IfErr result (λ fault. fault ≡ OutOfMemory) }
    {
        let Some(part) = &mut self.part else {
            unreachable!()
        };
        let Some(front) = desk.front() else {
            return Ok(None);
        };
        let copy = ready_copy(alloc, &mut self.items, front)?;
        let Some(message) = desk.take()? else {
            unreachable!()
        };
        total.add(part, 1);
        self.items.push_reserved(copy);
        Ok(Some(message))
    }
}
