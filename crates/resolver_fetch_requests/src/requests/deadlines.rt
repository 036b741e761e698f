//! When the time of each request is over, and how it is known whose is over first.

ghost use Rattle.std.specs.Prelude.{◌≡◌, ℕ, Option, None, Some, IfErr, IfOk, IsTrue, OnErr, OnOk};
ghost use Rattle.std.specs.List.Sorted.{IsStrictlySortedBy};
ghost use Rattle.std.specs.Map.{keys_of};
ghost use Rattle.std.specs.Option.{option_map};
ghost use Rattle.std.specs.Ordering.{nat_cmp};
ghost use Rattle.resolver_base.specs.declared.fault.Fault.TheVariants.{OutOfMemory};
ghost use Rattle.resolver_fetch_requests.specs.Deadlines.{AreInOrder, AreListed, AreTimed, IsPart, times_of, with_time, without_time};
ghost use Rattle.resolver_fetch_requests.specs.Requests.{soonest};

use crate::requests::request::{ID, Request};
use resolver_base::Fault;
use resolver_sequence::sequence::{Sequence, Slot};
use std::alloc::Global;
use std::collections::BTreeSet;

/// How it is known whose time is over first.
///
/// While moments don't go back and ids don't wrap, the request with the least id is the one. Once
/// they do, the deadlines are listed, until a request is put where none is held.
#[derive(Drop)]
pub(super) enum Deadlines {
    /// The deadlines come in the order of the ids. No id is greater than the last, and no deadline
    /// is later than the latest.
    InOrder { last: ID, latest: u128 },
    /// The deadlines with their ids, in order.
    Listed(BTreeSet<(u128, ID)>),
}

impl Deadlines {
    /// Of no request.
    pub(super) fn new() -> Self
        ensures { (times : ℕ → Option ℕ) → ((id : ℕ) → times id ≡ None) → AreTimed times result }
    {
        Deadlines::InOrder { last: 0, latest: 0 }
    }

    /// The request whose time is over first, and when.
    pub(super) fn first<K: Drop, P: Drop>(
        &self,
        requests: &Sequence<Request<K, P>>,
    ) -> Option<(ID, u128)>
        requires ids { IsStrictlySortedBy nat_cmp (keys_of requests.now) }
        requires timed { AreTimed (times_of requests.now) self.now }
        ensures { result ≡ option_map (λ r. (r.0, r.1.deadline)) (soonest requests.now) }
    {
        match self {
            Deadlines::InOrder { .. } => {
                let (id, request) = requests.first()?;
                Some((id, request.deadline))
            }
            Deadlines::Listed(pairs) => {
                let (deadline, id) = pairs.first()?;
                Some((*id, *deadline))
            }
        }
    }

    /// Puts the deadline of a request that isn't held so far. Where memory is refused, nothing
    /// changes.
    ///
    /// The first that doesn't come in order has those of all requests listed.
    pub(super) fn put<K: Drop, P: Drop>(
        &mut self,
        alloc: Global,
        requests: &Sequence<Request<K, P>>,
        id: ID,
        deadline: u128,
    ) -> Result<(), Fault>
        requires timed { AreTimed (times_of requests.now) self.old }
        requires new_id { times_of requests.now id ≡ None }
        ensures ok { OnOk result
            (AreTimed (with_time (times_of requests.now) id deadline) self.new) }
        ensures err { OnErr result (self.new ≡ self.old) }
        ensures only { IfErr result (λ fault. fault ≡ OutOfMemory) }
    {
        if self.precede(requests, id, deadline) {
            *self = Deadlines::InOrder {
                last: id,
                latest: deadline,
            };
            return Ok(());
        }
        if let Deadlines::Listed(pairs) = self {
            pairs.insert((deadline, id))?;
            return Ok(());
        }
        let mut pairs = pairs_of(alloc, requests)?;
        pairs.insert((deadline, id))?;
        *self = Deadlines::Listed(pairs);
        Ok(())
    }

    /// Whether the deadlines come in the order of the ids, with this one as the last.
    fn precede<K: Drop, P: Drop>(
        &self,
        requests: &Sequence<Request<K, P>>,
        id: ID,
        deadline: u128,
    ) -> bool
        requires { AreTimed (times_of requests.now) self.now }
        ensures { IsTrue result
            → AreInOrder (with_time (times_of requests.now) id deadline) id deadline }
    {
        if requests.is_empty() {
            return true;
        }
        match self {
            Deadlines::InOrder { last, latest } => *last <= id && *latest <= deadline,
            Deadlines::Listed(_) => false,
        }
    }

    /// Takes the deadline of a request out.
    pub(super) fn remove(&mut self, id: ID, deadline: u128)
        ensures { (times : ℕ → Option ℕ) → AreTimed times self.old → times id ≡ Some deadline
            → AreTimed (without_time times id) self.new }
    {
        if let Deadlines::Listed(pairs) = self {
            pairs.remove(&(deadline, id));
        }
    }

    /// Drops the deadlines of the requests that aren't held any more.
    pub(super) fn retain<K: Drop, P: Drop>(&mut self, held: &Sequence<Request<K, P>>)
        ensures { (times : ℕ → Option ℕ) → AreTimed times self.old
            → IsPart (times_of held.now) times
            → AreTimed (times_of held.now) self.new }
    {
        if let Deadlines::Listed(pairs) = self {
            pairs.retain(|pair| held.contains(pair.1));
        }
    }
}

/// The deadlines of these requests with their ids, in order.
fn pairs_of<K: Drop, P: Drop>(
    alloc: Global,
    requests: &Sequence<Request<K, P>>,
) -> Result<BTreeSet<(u128, ID)>, Fault>
    ensures pairs { IfOk result (λ pairs. AreListed (times_of requests.now) pairs.keys) }
    ensures only { IfErr result (λ fault. fault ≡ OutOfMemory) }
{
    let mut pairs = BTreeSet::new(alloc);
    for slot in requests.slots() {
        if let Slot::Held {
            number,
            value: request,
        } = slot
        {
            pairs.insert((request.deadline, *number))?;
        }
    }
    Ok(pairs)
}
