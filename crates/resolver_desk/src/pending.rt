//! What waits while a mailbox is full.

ghost use Rattle.std.specs.Prelude.{◌≡◌, ◌∷◌, ◌++◌, [], map, length, take, IsTrue, IfErr, OnOk, OnErr, ◌↔◌};
ghost use Rattle.resolver_base.specs.declared.fault.Fault.TheVariants.{OutOfMemory};
ghost use Rattle.std.specs.Option.{option_to_list};
ghost use Rattle.resolver_types.specs.Names.{names};
ghost use Rattle.resolver_messages.specs.Waiting.{IsApart, Drains, Fetches, HandsBack, Retains, IsRight, batch_told, behind_first, handled, item_of, no_backlog, told_of, waiting};

use crate::drain::{drain_retains, offer_batch};
use resolver_base::Fault;
use resolver_messages::batch::{kept_places, prune_all, put_all};
use resolver_messages::places::Places;
use resolver_messages::{FetchKey, Message, Metadata};
use resolver_types::Predicate;
use std::alloc::Global;
use std::collections::VecDeque;
use std::hash::Hash;
use std::marker::Model;
use std::mem;

/// What waits: tests of subscribers, and then fetches as one batch, in which each key stands once.
///
/// Contracts see both lists.
#[derive(Drop)]
pub struct Pending<K: Ord + Hash, S: Ord, M, Q> {
    retains: VecDeque<Q>,
    batch: Vec<FetchKey<K, S, M>>,
    places: Places<K>,
    alloc: Global,
}

impl<K: Ord + Hash, S: Ord, M, Q> Model for Pending<K, S, M, Q> {
    ghost use Rattle.resolver_types.specs.Names.{names};
    ghost use Rattle.resolver_messages.specs.Waiting.{Backlog, IsFiled, backlog_of};

    ghost Value = { Backlog K S M Q };

    ghost view = { λ a. backlog_of a.retains.items a.batch.items };

    ghost invariant = { λ a. IsFiled (names K.cmp S.cmp) a.places a.batch.items };
}

impl<
    K: Ord + Hash + Clone + Drop,
    S: Ord + Clone + Drop,
    M: Metadata + Drop,
    Q: Predicate<K, S> + Drop,
> Pending<K, S, M, Q> {
    /// Nothing waits.
    pub fn new(alloc: Global) -> Self
        ensures { result ≡ no_backlog }
    {
        Pending {
            retains: VecDeque::new(alloc),
            batch: Vec::new(alloc),
            places: Places::new(alloc),
            alloc,
        }
    }

    /// Whether nothing waits.
    pub fn is_empty(&self) -> bool
        ensures { IsTrue result ↔ (waiting self.now ≡ []) }
    {
        self.retains.is_empty() && self.batch.is_empty()
    }

    /// In the batch each key stands once. This does nothing.
    pub fn law(&self)
        ensures { IsApart (names K.cmp S.cmp) self.now.batch }
    {
        let _count = self.batch.len();
    }

    /// Takes a message. Where memory is refused, nothing changes, and the message is dropped.
    ///
    /// A fetch joins the one of its key that waits: new subscribers go last, those that are there
    /// keep their mark, and what else is said of both merges. A new key goes last. A test prunes
    /// the fetches that wait at once, and is then queued.
    ///
    /// Keys are compared in their order, and never hashed: a fetch finds its key in time logarithmic
    /// in the keys that wait, whichever they are. To join a fetch takes time and memory for the
    /// subscribers and the targets of both, and where it has many, times their logarithm; a test
    /// takes linear time, and a logarithm for each key that stays.
    pub fn handle(&mut self, message: Message<K, S, M, Q>) -> Result<(), Fault>
        requires keys_clone { (x y : K) → K.is_clone x y → y ≡ x }
        requires subscribers_clone { (x y : S) → S.is_clone x y → y ≡ x }
        ensures ok { OnOk result (self.new
            ≡ handled (names K.cmp S.cmp) M.merged Q.keeps self.old (told_of message)) }
        ensures right { OnOk result (IsRight (names K.cmp S.cmp) Q.keeps
            (waiting self.old ++ told_of message ∷ []) (waiting self.new)) }
        ensures err { OnErr result (self.new ≡ self.old) }
        ensures only { IfErr result (λ fault. fault ≡ OutOfMemory) }
    {
        match message {
            Message::Fetch(items) => self.fetch(items),
            Message::Retain(keep) => self.retain(keep),
        }
    }

    /// Queues fetches, one after another.
    fn fetch(&mut self, items: Vec<FetchKey<K, S, M>>) -> Result<(), Fault>
        requires keys_clone { (x y : K) → K.is_clone x y → y ≡ x }
        requires subscribers_clone { (x y : S) → S.is_clone x y → y ≡ x }
        ensures ok { OnOk result (self.new ≡ handled (names K.cmp S.cmp) M.merged Q.keeps
            self.old (Fetches (map item_of items.items))) }
        ensures right { OnOk result (IsRight (names K.cmp S.cmp) Q.keeps
            (waiting self.old ++ Fetches (map item_of items.items) ∷ []) (waiting self.new)) }
        ensures err { OnErr result (self.new ≡ self.old) }
        ensures only { IfErr result (λ fault. fault ≡ OutOfMemory) }
    {
        put_all(self.alloc, &mut self.batch, &mut self.places, items)?;
        Ok(())
    }

    /// Takes the subscribers that aren't kept from the fetches that wait, and the fetches that have
    /// none then, and queues the test.
    fn retain(&mut self, keep: Q) -> Result<(), Fault>
        requires keys_clone { (x y : K) → K.is_clone x y → y ≡ x }
        ensures ok { OnOk result (self.new
            ≡ handled (names K.cmp S.cmp) M.merged Q.keeps self.old (Retains keep)) }
        ensures right { OnOk result (IsRight (names K.cmp S.cmp) Q.keeps
            (waiting self.old ++ Retains keep ∷ []) (waiting self.new)) }
        ensures err { OnErr result (self.new ≡ self.old) }
        ensures only { IfErr result (λ fault. fault ≡ OutOfMemory) }
    {
        self.retains.reserve(1)?;
        let places = kept_places(self.alloc, self.batch.as_slice(), &keep)?;
        let room = Vec::with_capacity(self.alloc, self.batch.len())?;
        let batch = mem::replace(&mut self.batch, Vec::new(self.alloc));
        self.batch = prune_all(room, batch, &keep);
        self.places = places;
        self.retains.push_back_reserved(keep);
        Ok(())
    }

    /// Offers what waits: the tests in their order, and then all fetches as one batch. What `push`
    /// hands back is put back at its place, and the drain stops. It takes no memory.
    ///
    /// `push` answers nothing where it takes a message, and else that same message.
    pub fn drain<F>(&mut self, mut push: F)
    where
        F: FnMut(Message<K, S, M, Q>) -> Option<Message<K, S, M, Q>>,
        requires callable { F.IsAlwaysCallable push }
        requires hands_back { HandsBack F.step }
        ensures { Drains F.step push (waiting self.old) (waiting self.new) }
    {
        if drain_retains(&mut self.retains, &mut push) {
            self.drain_batch(&mut push);
        }
    }

    /// Takes the first message that waits, if any does: a test, or all fetches as one batch. It takes
    /// no memory.
    pub fn pop(&mut self) -> Option<Message<K, S, M, Q>>
        ensures first { map told_of (option_to_list result) ≡ take 1 (waiting self.old) }
        ensures rest { self.new ≡ behind_first self.old }
    {
        if let Some(keep) = self.retains.pop_front() {
            return Some(Message::Retain(keep));
        }
        if self.batch.is_empty() {
            return None;
        }
        self.places.clear();
        let batch = mem::replace(&mut self.batch, Vec::new(self.alloc));
        Some(Message::Fetch(batch))
    }

    /// Offers the fetches that wait as one batch.
    fn drain_batch<F>(&mut self, push: &mut F)
    where
        F: FnMut(Message<K, S, M, Q>) -> Option<Message<K, S, M, Q>>,
        requires callable { F.IsAlwaysCallable push.old }
        requires hands_back { HandsBack F.step }
        ensures callable { F.IsAlwaysCallable push.new }
        ensures retains { self.new.retains ≡ self.old.retains }
        ensures drains { Drains F.step push.old
            (batch_told self.old.batch) (batch_told self.new.batch) }
    {
        if self.batch.is_empty() {
            return;
        }
        let batch = mem::replace(&mut self.batch, Vec::new(self.alloc));
        match offer_batch(push, batch) {
            None => self.places.clear(),
            Some(back) => self.batch = back,
        }
    }
}
