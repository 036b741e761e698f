//! The requests without an answer, by their ids, by when their time is over, and by their keys.

mod deadlines;
pub mod request;

ghost use Rattle.std.specs.Prelude.{◌≡◌, ◌≤◌, ◌<◌, ◌^◌, ℕ, Bool, false, None, Some, [], filter, length, IfErr, IfSome, OnErr, OnOk};
ghost use Rattle.std.specs.BTreeMap.{insert_entry};
ghost use Rattle.std.specs.Fn.{FnReturnsAt};
ghost use Rattle.std.specs.Option.{option_copied, option_map};
ghost use Rattle.std.specs.Ordering.{nat_cmp};
ghost use Rattle.resolver_base.specs.Answering.{AnswersBy};
ghost use Rattle.resolver_base.specs.declared.fault.Fault.TheVariants.{OutOfMemory};
ghost use Rattle.resolver_fetch_requests.specs.declared.requests.request.Request.{Request};
ghost use Rattle.resolver_fetch_requests.specs.Ids.{is_held, next_id};
ghost use Rattle.resolver_sequence.specs.Sequence.{entries_of};
ghost use Rattle.resolver_fetch_requests.specs.Requests.{IsTaken, ids_of, is_asked, request_for, request_of, soonest, taken_matching, taken_overdue, without_request};

use deadlines::Deadlines;
pub use request::{ID, Request};
use resolver_base::Fault;
use resolver_sequence::sequence::{Sequence, Slot};
use std::alloc::Global;
use std::collections::{BTreeMap, VecDeque};
use std::marker::Model;

/// The requests without an answer, by their ids. Contracts see them as a list in that order.
///
/// A call on one request takes time logarithmic in their number.
#[derive(Drop)]
pub struct Requests<K: Ord, P> {
    by_id: Sequence<Request<K, P>>,
    deadlines: Deadlines,
    /// The same ids, by the keys that are asked for.
    by_key: BTreeMap<K, ID>,
    alloc: Global,
}

impl<K: Ord, P> Model for Requests<K, P> {
    ghost use Rattle.std.specs.Prelude.{List, ℕ};
    ghost use Rattle.resolver_fetch_requests.specs.declared.requests.request.Request.{Request};
    ghost use Rattle.resolver_fetch_requests.specs.Deadlines.{AreKept};

    ghost Value = { List (ℕ × Request K P) };

    ghost view = { λ a. a.by_id };

    ghost invariant = { λ a. AreKept K.cmp a.by_id a.deadlines a.by_key.entries };
}

impl<K: Ord + Drop, P: Drop> Requests<K, P> {
    /// No requests.
    pub fn new(alloc: Global) -> Self
        ensures { result ≡ [] }
    {
        Requests {
            by_id: Sequence::new(alloc),
            deadlines: Deadlines::new(),
            by_key: BTreeMap::new(alloc),
            alloc,
        }
    }

    /// How many requests there are.
    pub fn len(&self) -> usize
        ensures value { result ≡ length self.now }
        ensures few { result < 2 ^ 63 }
    {
        self.by_id.len()
    }

    /// The request of this id, if it has no answer.
    pub fn get(&self, id: ID) -> Option<&Request<K, P>>
        ensures { option_copied result ≡ request_of self.now id }
    {
        self.by_id.get(id)
    }

    /// Whether a request is for this key.
    pub fn is_asked(&self, key: &K) -> bool
        ensures { result ≡ is_asked K.cmp self.now key.now }
    {
        self.by_key.contains_key(key)
    }

    /// The request for a key, with its id.
    pub fn get_for(&self, key: &K) -> Option<(ID, &Request<K, P>)>
        ensures value { option_map (λ r. (r.0, r.1.now)) result
            ≡ request_for K.cmp self.now key.now }
        ensures once { length (ids_of K.cmp self.now key.now) ≤ 1 }
    {
        let id = self.by_key.get(key)?;
        let request = self.by_id.get(*id)?;
        Some((*id, request))
    }

    /// Puts a request at its place. Where memory is refused, nothing changes.
    ///
    /// The key is cloned; clones are to equal their sources. An id that isn't the greatest takes time
    /// linear in the requests. While ids and deadlines go up, no list of the deadlines is kept. The
    /// first that doesn't go up has those of all requests listed, in their number times its
    /// logarithm, and until no request is left each has its deadline listed.
    pub fn insert(&mut self, id: ID, request: Request<K, P>) -> Result<(), Fault>
    where
        K: Clone,
        requires keys_clone { (x y : K) → K.is_clone x y → y ≡ x }
        requires new_id { is_held self.old id ≡ false }
        requires new_key { is_asked K.cmp self.old request.key ≡ false }
        ensures ok { OnOk result (self.new ≡ insert_entry nat_cmp self.old id request) }
        ensures err { OnErr result (self.new ≡ self.old) }
        ensures only { IfErr result (λ fault. fault ≡ OutOfMemory) }
    {
        let key = request.key.clone()?;
        self.by_key.insert(key, id)?;
        let deadline = request.deadline;
        if let Err(fault) = self.deadlines.put(self.alloc, &self.by_id, id, deadline) {
            self.by_key.remove(&request.key);
            return Err(fault);
        }
        if let Err(refused) = self.by_id.insert(id, request) {
            self.deadlines.remove(id, deadline);
            self.by_key.remove(&refused.value.key);
            return Err(Fault::OutOfMemory);
        }
        Ok(())
    }

    /// Takes out the request of this id, if it is there.
    pub fn remove(&mut self, id: ID) -> Option<Request<K, P>>
        ensures value { result ≡ request_of self.old id }
        ensures after { self.new ≡ without_request id self.old }
    {
        let request = self.by_id.remove(id)?;
        self.deadlines.remove(id, request.deadline);
        self.by_key.remove(&request.key);
        Some(request)
    }

    /// Drops the requests whose keys aren't kept. `keep` is pure.
    pub fn retain<F: Fn(&K) -> bool>(&mut self, keep: F)
        requires { F.IsAlwaysCallable keep }
        ensures kept { (test : K → Bool) → AnswersBy F.Fn keep test
            → self.new ≡ filter (λ r. test r.1.key) self.old }
        ensures fewer { (key : K)
            → length (ids_of K.cmp self.new key) ≤ length (ids_of K.cmp self.old key) }
        ensures none { self.old ≡ [] → self.new ≡ [] }
    {
        self.by_id.retain(
            |request| -> bool
                requires { F.IsAlwaysCallable keep }
                ensures { FnReturnsAt F.Fn keep request.now.key result }
            { keeps(&keep, &request.key) },
        );
        let by_id = &self.by_id;
        self.deadlines.retain(by_id);
        self.by_key.retain(|_, id| by_id.contains(*id));
    }

    /// The requests with their ids, in the order of the ids, and ids of some that were taken out.
    pub fn slots(&self) -> &VecDeque<Slot<Request<K, P>>>
        ensures { entries_of result.now.items ≡ self.now }
    {
        self.by_id.slots()
    }

    /// The moment at which the time of a request is over next, if there is a request.
    pub fn deadline(&self) -> Option<u128>
        ensures { result ≡ option_map (λ r. r.1.deadline) (soonest self.now) }
    {
        let (_, deadline) = self.first()?;
        Some(deadline)
    }

    /// Takes out the request whose time is over first, if it is over now.
    pub fn take_overdue(&mut self, now: u128) -> Option<Request<K, P>>
        ensures taken { (result, self.new) ≡ taken_overdue self.old now }
        ensures out { IfSome result (IsTaken self.old self.new) }
    {
        let (id, deadline) = self.first()?;
        if deadline <= now {
            self.remove(id)
        } else {
            None
        }
    }

    /// The id that follows the last one, past those that a request has. It takes a look-up more
    /// for each id that it passes. No request has it: there are always fewer requests than ids.
    pub fn next_id(&self, last: ID) -> ID
        ensures value { result ≡ next_id self.now last }
        ensures free { is_held self.now result ≡ false }
    {
        let mut id = last;
        for _tried in 0..self.by_id.len() {
            id = id.wrapping_add(1);
            if !self.by_id.contains(id) {
                return id;
            }
        }
        id.wrapping_add(1)
    }

    /// The request whose time is over first, and when.
    fn first(&self) -> Option<(ID, u128)>
        ensures value { result ≡ option_map (λ r. (r.0, r.1.deadline)) (soonest self.now) }
        ensures found { (r : ℕ × Request K P) → soonest self.now ≡ Some r
            → request_of self.now r.0 ≡ Some r.1 }
    {
        self.deadlines.first(&self.by_id)
    }
}

impl<K: Ord + Drop, P: Ord + Drop> Requests<K, P> {
    /// Takes out the request of this id, if it went to this peer. It takes no memory.
    #[inline]
    pub fn take_matching(&mut self, id: ID, peer: &P) -> Option<Request<K, P>>
        ensures taken { (result, self.new) ≡ taken_matching P.cmp self.old id peer.now }
        ensures out { IfSome result (IsTaken self.old self.new) }
    {
        let request = self.by_id.get(id)?;
        if peer.cmp(&request.peer).is_eq() {
            self.remove(id)
        } else {
            None
        }
    }
}

/// What a test answers of a key.
fn keeps<K, F: Fn(&K) -> bool>(keep: &F, key: &K) -> bool
    requires { F.IsAlwaysCallable keep.now }
    ensures { FnReturnsAt F.Fn keep.now key.now result }
{
    keep(key)
}
