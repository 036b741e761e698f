//! What is ready to be taken, and what waits behind it.

ghost use Rattle.std.specs.Prelude.{◌≡◌, ◌≤◌, ◌<◌, ◌∷◌, ◌++◌, ◌↔◌, [], map, take, nat_lt, None, Some, is_some, true, false, IsTrue, IfOk, IfErr, OnOk, OnErr, MatchOption, ◌≢◌, ◌+◌, ◌^◌, if◌then◌else◌, length};
ghost use Rattle.std.specs.NonZero.{non_zero_usize_get};
ghost use Rattle.std.specs.Option.{ForSome, option_copied, option_map};
ghost use Rattle.std.specs.Vec.{vec_len, vec_capacity};
ghost use Rattle.std.specs.VecDeque.{deque_capacity};
ghost use Rattle.resolver_base.specs.declared.fault.Fault.TheVariants.{Exhausted, OutOfMemory};
ghost use Rattle.resolver_types.specs.Names.{names};
ghost use Rattle.resolver_messages.specs.Waiting.{IsRight, behind_first, handled, told_of, waiting};
ghost use Rattle.resolver_desk.specs.Book.{Close, Take, call_of, closes};
ghost use Rattle.resolver_desk.specs.Desk.{IsKept, IsOver, answered, book_of, calls_of, desk_closed, desk_put, desk_taken, empty_book, empty_desk, feedback_of, has_room, next_of, number_of, with_call, with_put};
ghost use Rattle.std.specs.HashMap.{spare};

use crate::Pending;
use crate::book::Book;
use crate::entry::Entry;
use resolver_base::{Fault, Feedback};
use resolver_messages::{Message, Metadata};
use resolver_types::Predicate;
use std::alloc::Global;
use std::collections::VecDeque;
use std::hash::Hash;
use std::marker::Model;
use std::num::NonZeroUsize;

/// Messages that are ready to be taken, and what waits while there is no room for more. In a
/// recorded desk there is also the book of the calls.
///
/// Contracts see all of it.
#[derive(Drop)]
pub struct Desk<K: Ord + Hash, S: Ord, M: Metadata, Q: Predicate<K, S>> {
    capacity: usize,
    ready: VecDeque<Message<K, S, M, Q>>,
    pending: Pending<K, S, M, Q>,
    is_closed: bool,
    book: Option<Book<K, S, M, Q>>,
    alloc: Global,
}

impl<K: Ord + Hash, S: Ord, M: Metadata, Q: Predicate<K, S>> Model for Desk<K, S, M, Q> {
    ghost use Rattle.std.specs.Prelude.{◌≤◌};
    ghost use Rattle.std.specs.VecDeque.{deque_capacity};
    ghost use Rattle.resolver_types.specs.Names.{names};
    ghost use Rattle.resolver_desk.specs.Desk.{Desk, IsKept, desk_of};

    ghost Value = { Desk K S M Q };

    ghost view = { λ a. desk_of a.capacity a.ready.items a.pending a.is_closed a.book };

    ghost invariant = { λ a. (a.capacity ≤ deque_capacity a.ready)
        × IsKept (names K.cmp S.cmp) Q.keeps
        (desk_of a.capacity a.ready.items a.pending a.is_closed a.book) };
}

impl<
    K: Ord + Hash + Clone + Drop,
    S: Ord + Clone + Drop,
    M: Metadata + Drop,
    Q: Predicate<K, S> + Clone + Drop,
> Desk<K, S, M, Q> {
    /// A desk with room for this many ready messages. Takes the memory for them.
    pub fn new(alloc: Global, capacity: NonZeroUsize) -> Result<Self, Fault>
        ensures empty { IfOk result
            (λ desk. desk ≡ empty_desk (non_zero_usize_get capacity) None) }
        ensures only { IfErr result (λ fault. fault ≡ OutOfMemory) }
    {
        let capacity = capacity.get();
        Ok(Desk {
            capacity,
            ready: VecDeque::with_capacity(alloc, capacity)?,
            pending: Pending::new(alloc),
            is_closed: false,
            book: None,
            alloc,
        })
    }

    /// The same, with a book of the calls.
    pub fn recorded(alloc: Global, capacity: NonZeroUsize) -> Result<Self, Fault>
        ensures empty { IfOk result
            (λ desk. desk ≡ empty_desk (non_zero_usize_get capacity) (Some empty_book)) }
        ensures only { IfErr result (λ fault. fault ≡ OutOfMemory) }
    {
        let capacity = capacity.get();
        Ok(Desk {
            capacity,
            ready: VecDeque::with_capacity(alloc, capacity)?,
            pending: Pending::new(alloc),
            is_closed: false,
            book: Some(Book::new(alloc)?),
            alloc,
        })
    }

    /// Puts a message: last in the ready list where it has room (Ok), else to what waits
    /// (Backoff). A closed desk takes none (Closed).
    ///
    /// In a recorded desk `handle` is the number of the handle that puts, or none where it has put
    /// nothing so far; it then gets the next number, which is answered. Any number is booked.
    /// Where memory or a number is refused, nothing changes, and the message is dropped. A desk that
    /// isn't recorded takes memory only for what waits, and a closed one takes none.
    pub fn put(
        &mut self,
        handle: Option<u64>,
        message: Message<K, S, M, Q>,
    ) -> Result<(Feedback, Option<u64>), Fault>
        requires keys_clone { (x y : K) → K.is_clone x y → y ≡ x }
        requires subscribers_clone { (x y : S) → S.is_clone x y → y ≡ x }
        requires tests_clone { (x y : Q) → Q.is_clone x y → y ≡ x }
        ensures answer { IfOk result
            (λ answer. answer ≡ (feedback_of self.old, answered handle self.old)) }
        ensures ok { OnOk result (self.new ≡ desk_put (names K.cmp S.cmp) M.merged Q.keeps
            handle (told_of message) self.old) }
        ensures err { OnErr result (self.new ≡ self.old) }
        ensures shut { OnErr result (self.old.is_closed ≡ false) }
        ensures room { OnErr result
            (has_room self.old ≡ true → is_some self.old.book ≡ true) }
        ensures only { IfErr result (λ fault. fault ≢ OutOfMemory → fault ≡ Exhausted) }
        ensures exhausted { IfErr result (λ fault. fault ≡ Exhausted → (handle ≡ None)
            × MatchOption self.old.book ⊥ (λ book. book.next_handle + 1 ≡ 2 ^ 64)) }
        ensures numbers { OnOk result (self.old.is_closed ≡ false → handle ≡ None
            → ForSome self.old.book (λ book. book.next_handle + 1 < 2 ^ 64)) }
    {
        if self.is_closed {
            return Ok((Feedback::Closed, handle));
        }
        let (is_ok, number) = post(
            &mut self.book,
            &mut self.ready,
            &mut self.pending,
            self.capacity,
            self.alloc,
            handle,
            message,
        )?;
        Ok((feedback(is_ok), number))
    }

    /// The message that a take would give.
    pub fn front(&self) -> Option<&Message<K, S, M, Q>>
        ensures { option_map told_of (option_copied result) ≡ (desk_taken self.now).0 }
    {
        self.ready.front()
    }

    /// Takes the first message that is ready. The first that waits then moves into its room. In a
    /// recorded desk that takes memory; where it is refused, nothing changes.
    pub fn take(&mut self) -> Result<Option<Message<K, S, M, Q>>, Fault>
        requires keys_clone { (x y : K) → K.is_clone x y → y ≡ x }
        requires subscribers_clone { (x y : S) → S.is_clone x y → y ≡ x }
        requires tests_clone { (x y : Q) → Q.is_clone x y → y ≡ x }
        ensures ok { IfOk result (λ taken. (option_map told_of taken, self.new)
            ≡ desk_taken self.old) }
        ensures err { OnErr result (self.new ≡ self.old) }
        ensures recorded { OnErr result (is_some self.old.book ≡ true) }
        ensures only { IfErr result (λ fault. fault ≡ OutOfMemory) }
    {
        let Some(front) = self.ready.front() else {
            return Ok(None);
        };
        match note_take(&mut self.book, front, self.alloc) {
            Ok(()) => Ok(Some(serve(&mut self.ready, &mut self.pending))),
            Err(failed) => Err(Fault::from(failed)),
        }
    }

    /// Whether the desk was closed.
    pub fn is_closed(&self) -> bool
        ensures { result ≡ self.now.is_closed }
    {
        self.is_closed
    }

    /// Whether the desk was closed and nothing is left to be taken.
    pub fn is_over(&self) -> bool
        ensures { IsTrue result ↔ IsOver self.now }
    {
        self.ready.is_empty() && self.is_closed
    }

    /// The calls so far, in their order. There are none where the desk isn't recorded.
    pub fn calls(&self) -> &[Entry<K, S, M, Q>]
        ensures { map call_of result.now ≡ calls_of self.now }
    {
        match &self.book {
            Some(book) => book.calls.as_slice(),
            None => &[],
        }
    }

    /// The law of a desk, which holds between its calls. This does nothing.
    pub fn law(&self)
        ensures { IsKept (names K.cmp S.cmp) Q.keeps self.now }
    {
        let _is_closed = self.is_closed;
    }

    /// Closes the desk, for good. What waits can still be taken.
    pub fn close(&mut self)
        ensures { self.new ≡ desk_closed self.old }
    {
        if self.is_closed {
            return;
        }
        note_close(&mut self.book);
        self.is_closed = true;
    }
}

/// Places a message, and books its put by this handle where there is a book. Says whether the ready
/// list had room, and the number of the handle. Where memory or a number is refused, nothing changes.
fn post<
    K: Ord + Hash + Clone + Drop,
    S: Ord + Clone + Drop,
    M: Metadata + Drop,
    Q: Predicate<K, S> + Clone + Drop,
>(
    book: &mut Option<Book<K, S, M, Q>>,
    ready: &mut VecDeque<Message<K, S, M, Q>>,
    pending: &mut Pending<K, S, M, Q>,
    capacity: usize,
    alloc: Global,
    handle: Option<u64>,
    message: Message<K, S, M, Q>,
) -> Result<(bool, Option<u64>), Fault>
    requires keys_clone { (x y : K) → K.is_clone x y → y ≡ x }
    requires subscribers_clone { (x y : S) → S.is_clone x y → y ≡ x }
    requires tests_clone { (x y : Q) → Q.is_clone x y → y ≡ x }
    requires room { capacity ≤ deque_capacity ready.old }
    ensures is_ok { IfOk result (λ posted. posted.0 ≡ nat_lt (length ready.old.items) capacity) }
    ensures number { IfOk result (λ posted. posted.1
        ≡ option_map (number_of handle) (option_map book_of book.old)) }
    ensures ready { IfOk result (λ posted. map told_of ready.new.items
        ≡ (if posted.0 then map told_of ready.old.items ++ told_of message ∷ []
        else map told_of ready.old.items)) }
    ensures pending { IfOk result (λ posted. pending.new ≡ (if posted.0 then pending.old
        else handled (names K.cmp S.cmp) M.merged Q.keeps pending.old (told_of message))) }
    ensures right { IfOk result (λ posted. posted.0 ≡ false → IsRight (names K.cmp S.cmp) Q.keeps
        (waiting pending.old ++ told_of message ∷ []) (waiting pending.new)) }
    ensures book { IfOk result (λ posted. option_map book_of book.new
        ≡ option_map (with_put handle (told_of message) posted.0) (option_map book_of book.old)) }
    ensures capacity { deque_capacity ready.new ≡ deque_capacity ready.old }
    ensures err { OnErr result ((map told_of ready.new.items ≡ map told_of ready.old.items)
        × (pending.new ≡ pending.old) × (option_map book_of book.new ≡ option_map book_of book.old)) }
    ensures full { OnErr result (nat_lt (length (map told_of ready.old.items)) capacity ≡ true
        → is_some book.old ≡ true) }
    ensures only { IfErr result (λ fault. fault ≢ OutOfMemory → fault ≡ Exhausted) }
    ensures exhausted { IfErr result (λ fault. fault ≡ Exhausted → (handle ≡ None)
        × MatchOption book.old ⊥ (λ book. book.next_handle + 1 ≡ 2 ^ 64)) }
    ensures numbers { OnOk result (handle ≡ None
        → ForSome (option_map book_of book.old) (λ book. book.next_handle + 1 < 2 ^ 64)) }
{
    let Some(book) = book else {
        let is_ok = place(ready, pending, capacity, message)?;
        return Ok((is_ok, None));
    };
    let (number, next, copy) = prepare(book, handle, &message, alloc)?;
    let is_ok = place(ready, pending, capacity, message)?;
    book.put(number, next, copy, is_ok);
    Ok((is_ok, Some(number)))
}

/// What a put by this handle needs of its book: the number of the handle, that of the next one, a
/// copy of the message, and room for it and for a close behind it. The calls stay the same.
fn prepare<K: Clone + Drop, S: Clone + Drop, M: Metadata + Drop, Q: Clone + Drop>(
    book: &mut Book<K, S, M, Q>,
    handle: Option<u64>,
    message: &Message<K, S, M, Q>,
    alloc: Global,
) -> Result<(u64, u64, Message<K, S, M, Q>), Fault>
    requires keys_clone { (x y : K) → K.is_clone x y → y ≡ x }
    requires subscribers_clone { (x y : S) → S.is_clone x y → y ≡ x }
    requires tests_clone { (x y : Q) → Q.is_clone x y → y ≡ x }
    ensures same { book_of book.new ≡ book_of book.old }
    ensures calls { OnOk result (vec_len book.new.calls + 2 ≤ vec_capacity book.new.calls) }
    ensures counts { OnOk result (1 ≤ spare book.new.counts) }
    ensures number { IfOk result (λ ready. ready.0 ≡ number_of handle (book_of book.old)) }
    ensures next { IfOk result (λ ready. ready.1 ≡ next_of handle (book_of book.old)) }
    ensures copy { IfOk result (λ ready. told_of ready.2 ≡ told_of message.now) }
    ensures only { IfErr result (λ fault. fault ≢ OutOfMemory → fault ≡ Exhausted) }
    ensures exhausted { IfErr result (λ fault. fault ≡ Exhausted
        → (handle ≡ None) × (book.old.next_handle + 1 ≡ 2 ^ 64)) }
{
    let (number, next) = book.number(handle)?;
    book.reserve()?;
    let copy = message.copy(alloc)?;
    Ok((number, next, copy))
}

/// Books a take of this message, where there is a book. Where memory is refused, nothing changes.
fn note_take<K: Clone + Drop, S: Clone + Drop, M: Metadata + Drop, Q: Clone + Drop>(
    book: &mut Option<Book<K, S, M, Q>>,
    front: &Message<K, S, M, Q>,
    alloc: Global,
) -> Result<(), Fault>
    requires keys_clone { (x y : K) → K.is_clone x y → y ≡ x }
    requires subscribers_clone { (x y : S) → S.is_clone x y → y ≡ x }
    requires tests_clone { (x y : Q) → Q.is_clone x y → y ≡ x }
    ensures ok { OnOk result (option_map book_of book.new
        ≡ option_map (with_call (Take (told_of front.now))) (option_map book_of book.old)) }
    ensures err { OnErr result (option_map book_of book.new ≡ option_map book_of book.old) }
    ensures recorded { OnErr result (is_some book.old ≡ true) }
    ensures only { IfErr result (λ fault. fault ≡ OutOfMemory) }
{
    let Some(book) = book else {
        return Ok(());
    };
    book.take(front.copy(alloc)?)?;
    Ok(())
}

/// Books a close, where there is a book.
fn note_close<K: Drop, S: Drop, M: Drop, Q: Drop>(book: &mut Option<Book<K, S, M, Q>>)
    requires { ForSome (option_map book_of book.old) (λ book. closes book.calls ≡ 0) }
    ensures { option_map book_of book.new
        ≡ option_map (with_call Close) (option_map book_of book.old) }
{
    if let Some(book) = book {
        book.close();
    }
}

/// What a put answers where the desk is open.
fn feedback(is_ok: bool) -> Feedback
    ensures { result ≡ (if is_ok then Feedback.Ok else Feedback.Backoff) }
{
    if is_ok {
        Feedback::Ok
    } else {
        Feedback::Backoff
    }
}

/// Places a message: last in the ready list where it has room, else with what waits. Says whether
/// it had. Where memory is refused, nothing changes.
fn place<
    K: Ord + Hash + Clone + Drop,
    S: Ord + Clone + Drop,
    M: Metadata + Drop,
    Q: Predicate<K, S> + Drop,
>(
    ready: &mut VecDeque<Message<K, S, M, Q>>,
    pending: &mut Pending<K, S, M, Q>,
    capacity: usize,
    message: Message<K, S, M, Q>,
) -> Result<bool, Fault>
    requires keys_clone { (x y : K) → K.is_clone x y → y ≡ x }
    requires subscribers_clone { (x y : S) → S.is_clone x y → y ≡ x }
    requires room { capacity ≤ deque_capacity ready.old }
    ensures is_ok { IfOk result (λ is_ok. is_ok ≡ nat_lt (length ready.old.items) capacity) }
    ensures ready { IfOk result (λ is_ok. map told_of ready.new.items
        ≡ (if is_ok then map told_of ready.old.items ++ told_of message ∷ []
        else map told_of ready.old.items)) }
    ensures pending { IfOk result (λ is_ok. pending.new ≡ (if is_ok then pending.old
        else handled (names K.cmp S.cmp) M.merged Q.keeps pending.old (told_of message))) }
    ensures right { IfOk result (λ is_ok. is_ok ≡ false → IsRight (names K.cmp S.cmp) Q.keeps
        (waiting pending.old ++ told_of message ∷ []) (waiting pending.new)) }
    ensures capacity { deque_capacity ready.new ≡ deque_capacity ready.old }
    ensures err { OnErr result ((map told_of ready.new.items ≡ map told_of ready.old.items)
        × (pending.new ≡ pending.old)) }
    ensures full { OnErr result (nat_lt (length (map told_of ready.old.items)) capacity ≡ false) }
    ensures only { IfErr result (λ fault. fault ≡ OutOfMemory) }
{
    if ready.len() < capacity {
        ready.push_back_reserved(message);
        return Ok(true);
    }
    pending.handle(message)?;
    Ok(false)
}

/// Takes the first message that is ready, and moves the first that waits into its room.
fn serve<
    K: Ord + Hash + Clone + Drop,
    S: Ord + Clone + Drop,
    M: Metadata + Drop,
    Q: Predicate<K, S> + Drop,
>(
    ready: &mut VecDeque<Message<K, S, M, Q>>,
    pending: &mut Pending<K, S, M, Q>,
) -> Message<K, S, M, Q>
    requires { 0 < length ready.old.items }
    ensures first { told_of result ∷ map told_of ready.new.items
        ≡ map told_of ready.old.items ++ take 1 (waiting pending.old) }
    ensures pending { pending.new ≡ behind_first pending.old }
    ensures capacity { deque_capacity ready.new ≡ deque_capacity ready.old }
{
    let Some(first) = ready.pop_front() else {
        unreachable!()
    };
    if let Some(next) = pending.pop() {
        ready.push_back_reserved(next);
    }
    first
}
