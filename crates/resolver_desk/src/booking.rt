//! Calls that are written into a book.

ghost use Rattle.std.specs.Prelude.{◌≡◌, ◌≤◌, ◌<◌, ◌+◌, ◌^◌, map, length, None, IfOk, IfErr, OnOk, OnErr};
ghost use Rattle.std.specs.Vec.{vec_len, vec_capacity};
ghost use Rattle.resolver_base.specs.declared.fault.Fault.TheVariants.{Exhausted};
ghost use Rattle.resolver_messages.specs.Waiting.{told_of};
ghost use Rattle.resolver_desk.specs.Book.{Close, Take, call_of, closes, puts_of};
ghost use Rattle.resolver_desk.specs.Desk.{book_of, empty_book, next_of, number_of, with_call, with_put_of};
ghost use Rattle.std.specs.HashMap.{spare};

use crate::book::Book;
use crate::entry::{Entry, Posted};
use resolver_base::Fault;
use resolver_messages::Message;
use std::alloc::{AllocError, Global};
use std::collections::HashMap;

impl<K: Drop, S: Drop, M: Drop, Q: Drop> Book<K, S, M, Q> {
    /// A book without calls.
    pub(crate) fn new(alloc: Global) -> Result<Self, AllocError>
        ensures { IfOk result (λ book. book_of book ≡ empty_book) }
    {
        Ok(Book {
            calls: Vec::with_capacity(alloc, 1)?,
            counts: HashMap::new(alloc),
            next_handle: 0,
        })
    }

    /// The number of a handle that puts, and the number of the next handle then.
    pub(crate) fn number(&self, handle: Option<u64>) -> Result<(u64, u64), Fault>
        ensures number { IfOk result (λ numbers. numbers.0 ≡ number_of handle (book_of self.now)) }
        ensures next { IfOk result (λ numbers. numbers.1 ≡ next_of handle (book_of self.now)) }
        ensures only { IfErr result (λ fault. fault ≡ Exhausted) }
        ensures exhausted { OnErr result
            ((handle ≡ None) × (self.now.next_handle + 1 ≡ 2 ^ 64)) }
    {
        if let Some(number) = handle {
            return Ok((number, self.next_handle));
        }
        let next = self.next_handle.checked_add(1).ok_or(Fault::Exhausted)?;
        Ok((self.next_handle, next))
    }

    /// How many puts of this handle there are.
    fn count(&self, number: u64) -> u64
        ensures count { result ≡ length (puts_of number (map call_of self.now.calls.items)) }
        ensures within { result ≤ vec_len self.now.calls }
    {
        self.counts.get(&number).copied().unwrap_or(0)
    }

    /// Makes room for a put, and for a close behind it.
    pub(crate) fn reserve(&mut self) -> Result<(), AllocError>
        ensures same { book_of self.new ≡ book_of self.old }
        ensures calls { OnOk result (vec_len self.new.calls + 2 ≤ vec_capacity self.new.calls) }
        ensures counts { OnOk result (1 ≤ spare self.new.counts) }
    {
        self.calls.reserve(2)?;
        self.counts.reserve(1)
    }

    /// Books a put of this handle, for which there is room.
    pub(crate) fn put(&mut self, number: u64, next: u64, message: Message<K, S, M, Q>, is_ok: bool)
        requires calls { vec_len self.old.calls + 2 ≤ vec_capacity self.old.calls }
        requires counts { 1 ≤ spare self.old.counts }
        ensures { book_of self.new
            ≡ with_put_of number next (told_of message) is_ok (book_of self.old) }
    {
        let place = self.count(number);
        if self.counts.insert(number, place + 1).is_err() {
            unreachable!()
        }
        self.next_handle = next;
        self.calls.push_reserved(Entry::Put(Posted {
            handle: number,
            place,
            message,
            is_ok,
        }));
    }

    /// Books a take. Where memory is refused, nothing changes.
    pub(crate) fn take(&mut self, message: Message<K, S, M, Q>) -> Result<(), AllocError>
        ensures ok { OnOk result
            (book_of self.new ≡ with_call (Take (told_of message)) (book_of self.old)) }
        ensures err { OnErr result (book_of self.new ≡ book_of self.old) }
    {
        self.calls.reserve(2)?;
        self.calls.push_reserved(Entry::Take(message));
        Ok(())
    }

    /// Books a close.
    pub(crate) fn close(&mut self)
        requires unclosed { closes (map call_of self.old.calls.items) ≡ 0 }
        ensures { book_of self.new ≡ with_call Close (book_of self.old) }
    {
        self.calls.push_reserved(Entry::Close);
    }
}
