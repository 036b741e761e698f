//! How an engine is asked.

ghost use Rattle.std.specs.Prelude.{◌≡◌, [], ◌∷◌, map, None, Some};
ghost use Rattle.std.specs.Option.{option_copied};
ghost use Rattle.resolver_handles.specs.Handles.{PutsOne, asked};
ghost use Rattle.resolver_messages.specs.Waiting.{Fetches, Retains};

use crate::put as asking;
use resolver_base::{Faithful, Fault, Feedback, PublicKey, Span};
use resolver_mailbox::mailbox::{Naming, Sender, Share};
use resolver_runtime::{Resolver, TargetedResolver};
use resolver_types::{Fetch, NonEmptyVec, Predicate};
use std::alloc::{AllocError, Global};
use std::hash::Hash;
use std::marker::Model;
use std::sync::Wait;

/// A key to fetch, who wants it, and the peers that may be asked; none means any peer.
pub type FetchKey<K, P, S> = resolver_messages::FetchKey<K, S, Option<NonEmptyVec<P>>>;

/// What an engine is told.
pub type Message<K, P, S, Q> = resolver_messages::Message<K, S, Option<NonEmptyVec<P>>, Q>;

/// A handle of an engine's mailbox, through which keys are fetched. Any number of them may be used at
/// once, each by its own thread.
///
/// Contracts see the share of its sender, or none. Each call of `Resolver` and `TargetedResolver`
/// puts one message, and waits for the mailbox's lock. Dropping a handle closes nothing.
#[derive(Drop)]
pub struct Mailbox<
    K: Ord + Hash,
    P: Ord + Faithful + Drop,
    S: Ord,
    Q: Predicate<K, S>,
    N: Naming,
    R,
> {
    alloc: Global,
    sender: Sender<K, S, Option<NonEmptyVec<P>>, Q, N, R>,
}

impl<K: Ord + Hash, P: Ord + Faithful + Drop, S: Ord, Q: Predicate<K, S>, N: Naming, R> Model
    for Mailbox<K, P, S, Q, N, R> {
    ghost use Rattle.std.specs.Prelude.{List, Option};
    ghost use Rattle.resolver_mailbox.specs.Shares.{Share};

    ghost Value = { Option (Share K S (Option (List P)) Q) };

    ghost view = { λ a. a.sender };
}

impl<K: Ord + Hash, P: Ord + Faithful + Drop, S: Ord, Q: Predicate<K, S>, N: Naming, R> Mailbox<
    K,
    P,
    S,
    Q,
    N,
    R,
> {
    /// A handle that puts what it is told by this sender.
    pub fn over(alloc: Global, sender: Sender<K, S, Option<NonEmptyVec<P>>, Q, N, R>) -> Self
        ensures { result ≡ sender }
    {
        Mailbox { alloc, sender }
    }

    /// What this handle has put. There is none in a mailbox that isn't recorded, and before the
    /// first put.
    pub fn share(&self) -> Option<&Share<K, S, Option<NonEmptyVec<P>>, Q, N>>
        ensures { option_copied result ≡ self.now }
    {
        self.sender.share()
    }
}

impl<
    K: Ord + Hash + Drop,
    P: Ord + Faithful + Drop,
    S: Ord + Drop,
    Q: Predicate<K, S> + Drop,
    N: Naming,
    R: Copy,
> Clone for Mailbox<K, P, S, Q, N, R> {
    ghost is_clone = { λ _ handle. handle ≡ None };

    /// A new handle of the same mailbox, without a share.
    fn clone(&self) -> Result<Self, AllocError> {
        Ok(Mailbox {
            alloc: self.alloc,
            sender: self.sender.clone()?,
        })
    }
}

impl<
    K: Ord + Hash + Faithful + Drop,
    P: Ord + Faithful + Drop,
    S: Ord + Faithful + Drop,
    Q: Predicate<K, S> + Faithful + Drop,
    N: Naming,
    R: Wait,
> Mailbox<K, P, S, Q, N, R> {
    /// Closes the mailbox, for good, and puts nothing. What waits is still taken. The share stays
    /// as it is. It waits for the mailbox's lock.
    pub fn close(&mut self)
        ensures { self.new ≡ self.old }
    {
        self.sender.close();
    }
}

impl<K, P, S, Q, N, R> Resolver for Mailbox<K, P, S, Q, N, R>
where
    K: Span + Faithful + Drop + Send + 'static,
    P: PublicKey + Faithful + Drop + Send + 'static,
    S: Ord + Faithful + Drop + Send + 'static,
    Q: Predicate<K, S> + Faithful + Drop + Send + 'static,
    N: Naming + Send + Sync + 'static,
    R: Wait + Copy + Send + 'static,
{
    type Key = K;

    type Subscriber = S;

    type Predicate = Q;

    ghost asks = { λ was fetches answer now. PutsOne N.is_recorded
        (Fetches (map (λ fetch. asked fetch None) fetches)) was answer now };

    ghost retains = { λ was keep answer now. PutsOne N.is_recorded (Retains keep) was answer now };

    /// Any peer may be asked.
    fn fetch(&mut self, fetch: Fetch<K, S>) -> Result<Feedback, Fault>
        ensures puts { PutsOne N.is_recorded (Fetches (asked fetch None ∷ []))
            self.old result self.new }
    {
        asking::ask(self.alloc, &mut self.sender, fetch)
    }

    /// Any peer may be asked.
    fn fetch_all(&mut self, fetches: Vec<Fetch<K, S>>) -> Result<Feedback, Fault>
        ensures puts { PutsOne N.is_recorded
            (Fetches (map (λ fetch. asked fetch None) fetches.items)) self.old result self.new }
    {
        asking::ask_all(self.alloc, &mut self.sender, fetches)
    }

    fn retain(&mut self, keep: Q) -> Result<Feedback, Fault>
        ensures puts { PutsOne N.is_recorded (Retains keep) self.old result self.new }
    {
        asking::retain(&mut self.sender, keep)
    }
}

impl<K, P, S, Q, N, R> TargetedResolver for Mailbox<K, P, S, Q, N, R>
where
    K: Span + Faithful + Drop + Send + 'static,
    P: PublicKey + Faithful + Drop + Send + 'static,
    S: Ord + Faithful + Drop + Send + 'static,
    Q: Predicate<K, S> + Faithful + Drop + Send + 'static,
    N: Naming + Send + Sync + 'static,
    R: Wait + Copy + Send + 'static,
{
    type PublicKey = P;

    ghost asks_of = { λ was targeted answer now. PutsOne N.is_recorded
        (Fetches (map (λ one. asked one.0 (Some one.1)) targeted)) was answer now };

    fn fetch_targeted(
        &mut self,
        fetch: Fetch<K, S>,
        targets: NonEmptyVec<P>,
    ) -> Result<Feedback, Fault>
        ensures puts { PutsOne N.is_recorded (Fetches (asked fetch (Some targets) ∷ []))
            self.old result self.new }
    {
        asking::ask(self.alloc, &mut self.sender, (fetch, targets))
    }

    fn fetch_all_targeted(
        &mut self,
        targeted: Vec<(Fetch<K, S>, NonEmptyVec<P>)>,
    ) -> Result<Feedback, Fault>
        ensures puts { PutsOne N.is_recorded
            (Fetches (map (λ one. asked one.0 (Some one.1)) targeted.items))
            self.old result self.new }
    {
        asking::ask_all(self.alloc, &mut self.sender, targeted)
    }
}
