//! What a resolver is asked.

ghost use Rattle.std.specs.Prelude.{◌≡◌, ◌<◌, [], ◌∷◌, length, IfOk, IfErr, OnOk, OnErr};
ghost use Rattle.resolver_base.specs.declared.fault.Fault.TheVariants.{OutOfMemory};

use resolver_base::Fault;
use resolver_types::{Fetch, NonEmptyVec};
use std::alloc::Global;

/// A key to fetch and who wants it, with what else is said of the fetch.
///
/// `M` is `()` where nothing is said, and an optional list of targets where peers may be named.
#[derive(Debug, Drop)]
pub struct FetchKey<K, S, M> {
    /// The data that is wanted.
    pub key: K,
    /// Who wants it, with their trace marks.
    pub subscribers: NonEmptyVec<(S, u64)>,
    /// What else is said of the fetch.
    pub metadata: M,
    pub ghost wanted: { 0 < length subscribers },
}

impl<K: Drop, S: Drop, M: Default> FetchKey<K, S, M> {
    /// A fetch of this key for its one subscriber, of which nothing else is said. Where memory is
    /// refused, the fetch is dropped.
    pub fn from_fetch(alloc: Global, fetch: Fetch<K, S>) -> Result<Self, Fault>
        ensures key { IfOk result (λ item. item.key ≡ fetch.key) }
        ensures one { IfOk result
            (λ item. item.subscribers ≡ (fetch.subscriber, fetch.mark) ∷ []) }
        ensures default { IfOk result (λ item. M.is_default item.metadata) }
        ensures only { IfErr result (λ fault. fault ≡ OutOfMemory) }
    {
        let subscribers = NonEmptyVec::new(alloc, (fetch.subscriber, fetch.mark))?;
        Ok(FetchKey {
            key: fetch.key,
            subscribers,
            metadata: M::default(),
        })
    }
}

/// What a resolver is told.
#[derive(Debug, Drop)]
pub enum Message<K, S, M, Q> {
    /// Fetch these.
    Fetch(Vec<FetchKey<K, S, M>>),
    /// Keep the subscribers that this test keeps, and no other.
    Retain(Q),
}
