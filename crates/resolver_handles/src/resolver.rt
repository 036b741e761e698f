//! How an actor over an opaque source is asked.

ghost use Rattle.std.specs.Prelude.{◌≡◌, [], ◌∷◌, map, None};
ghost use Rattle.std.specs.Option.{option_copied};
ghost use Rattle.resolver_handles.specs.Handles.{PutsOne, asked};
ghost use Rattle.resolver_messages.specs.Waiting.{Fetches, Retains};

use crate::put as asking;
use resolver_base::{Faithful, Fault, Feedback, PublicKey, Span};
use resolver_mailbox::mailbox::{Naming, Sender, Share};
use resolver_runtime::{Resolver as Asks, TargetedResolver};
use resolver_types::{Fetch, NonEmptyVec, Predicate};
use std::alloc::{AllocError, Global};
use std::hash::Hash;
use std::marker::{Model, PhantomData};
use std::sync::Wait;

/// What an actor over an opaque source is told: nothing is said of a fetch beside its key and its
/// subscribers.
pub type Message<K, S, Q> = resolver_messages::Message<K, S, (), Q>;

/// A handle of the mailbox of an actor's loop, through which keys are fetched. Any number of them may
/// be used at once, each by its own thread. There is one source, so targets are left out.
///
/// Contracts see the share of its sender, or none. Each call of the traits `Resolver` and
/// `TargetedResolver` puts one message, and waits for the mailbox's lock. Dropping a handle closes
/// nothing.
#[derive(Drop)]
pub struct Resolver<K: Ord + Hash, S: Ord, P, Q: Predicate<K, S>, N: Naming, R> {
    alloc: Global,
    sender: Sender<K, S, (), Q, N, R>,
    peers: PhantomData<P>,
}

impl<K: Ord + Hash, S: Ord, P, Q: Predicate<K, S>, N: Naming, R> Model
    for Resolver<K, S, P, Q, N, R> {
    ghost use Rattle.std.specs.Prelude.{Option};
    ghost use Rattle.resolver_mailbox.specs.Shares.{Share};

    ghost Value = { Option (Share K S (Unit {0}) Q) };

    ghost view = { λ a. a.sender };
}

impl<K: Ord + Hash, S: Ord, P, Q: Predicate<K, S>, N: Naming, R> Resolver<K, S, P, Q, N, R> {
    /// A handle that puts what it is told by this sender.
    pub fn over(alloc: Global, sender: Sender<K, S, (), Q, N, R>) -> Self
        ensures { result ≡ sender }
    {
        Resolver {
            alloc,
            sender,
            peers: PhantomData,
        }
    }

    /// What this handle has put. There is none in a mailbox that isn't recorded, and before the
    /// first put.
    pub fn share(&self) -> Option<&Share<K, S, (), Q, N>>
        ensures { option_copied result ≡ self.now }
    {
        self.sender.share()
    }
}

impl<K: Ord + Hash + Drop, S: Ord + Drop, P, Q: Predicate<K, S> + Drop, N: Naming, R: Copy> Clone
    for Resolver<K, S, P, Q, N, R> {
    ghost is_clone = { λ _ handle. handle ≡ None };

    /// A new handle of the same mailbox, without a share.
    fn clone(&self) -> Result<Self, AllocError> {
        Ok(Resolver {
            alloc: self.alloc,
            sender: self.sender.clone()?,
            peers: PhantomData,
        })
    }
}

impl<
    K: Ord + Hash + Faithful + Drop,
    S: Ord + Faithful + Drop,
    P,
    Q: Predicate<K, S> + Faithful + Drop,
    N: Naming,
    R: Wait,
> Resolver<K, S, P, Q, N, R> {
    /// Closes the mailbox, for good, and puts nothing. What waits is still taken. The share stays
    /// as it is. It waits for the mailbox's lock.
    pub fn close(&mut self)
        ensures { self.new ≡ self.old }
    {
        self.sender.close();
    }
}

impl<K, S, P, Q, N, R> Asks for Resolver<K, S, P, Q, N, R>
where
    K: Span + Faithful + Drop + Send + 'static,
    S: Ord + Faithful + Drop + Send + 'static,
    P: Send + 'static,
    Q: Predicate<K, S> + Faithful + Drop + Send + 'static,
    N: Naming + Send + Sync + 'static,
    R: Wait + Copy + Send + 'static,
{
    type Key = K;

    type Subscriber = S;

    type Predicate = Q;

    ghost asks = { λ was fetches answer now. PutsOne N.is_recorded
        (Fetches (map (λ fetch. asked fetch tt) fetches)) was answer now };

    ghost retains = { λ was keep answer now. PutsOne N.is_recorded (Retains keep) was answer now };

    fn fetch(&mut self, fetch: Fetch<K, S>) -> Result<Feedback, Fault>
        ensures puts { PutsOne N.is_recorded (Fetches (asked fetch tt ∷ []))
            self.old result self.new }
    {
        asking::ask(self.alloc, &mut self.sender, fetch)
    }

    fn fetch_all(&mut self, fetches: Vec<Fetch<K, S>>) -> Result<Feedback, Fault>
        ensures puts { PutsOne N.is_recorded
            (Fetches (map (λ fetch. asked fetch tt) fetches.items)) self.old result self.new }
    {
        asking::ask_all(self.alloc, &mut self.sender, fetches)
    }

    fn retain(&mut self, keep: Q) -> Result<Feedback, Fault>
        ensures puts { PutsOne N.is_recorded (Retains keep) self.old result self.new }
    {
        asking::retain(&mut self.sender, keep)
    }
}

impl<K, S, P, Q, N, R> TargetedResolver for Resolver<K, S, P, Q, N, R>
where
    K: Span + Faithful + Drop + Send + 'static,
    S: Ord + Faithful + Drop + Send + 'static,
    P: PublicKey + Drop + Send + 'static,
    Q: Predicate<K, S> + Faithful + Drop + Send + 'static,
    N: Naming + Send + Sync + 'static,
    R: Wait + Copy + Send + 'static,
{
    type PublicKey = P;

    ghost asks_of = { λ was targeted answer now. PutsOne N.is_recorded
        (Fetches (map (λ one. asked one.0 tt) targeted)) was answer now };

    /// The targets are left out.
    fn fetch_targeted(
        &mut self,
        fetch: Fetch<K, S>,
        _targets: NonEmptyVec<P>,
    ) -> Result<Feedback, Fault>
        ensures puts { PutsOne N.is_recorded (Fetches (asked fetch tt ∷ []))
            self.old result self.new }
    {
        self.fetch(fetch)
    }

    /// The targets are left out.
    fn fetch_all_targeted(
        &mut self,
        targeted: Vec<(Fetch<K, S>, NonEmptyVec<P>)>,
    ) -> Result<Feedback, Fault>
        ensures puts { PutsOne N.is_recorded
            (Fetches (map (λ one. asked one.0 tt) targeted.items)) self.old result self.new }
    {
        asking::ask_all(self.alloc, &mut self.sender, targeted)
    }
}
