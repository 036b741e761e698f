//! How what is asked for stands in a message.

ghost use Rattle.std.specs.Prelude.{◌≡◌, IfOk, None, Some};
ghost use Rattle.resolver_handles.specs.Handles.{asked};
ghost use Rattle.resolver_messages.specs.Waiting.{Item, item_of};

use resolver_messages::FetchKey;
use resolver_types::{Fetch, NonEmptyVec};
use std::alloc::{AllocError, Global};

/// What can be asked for: a fetch, by itself or with its targets.
///
/// `M` is what a message says of a fetch besides: `()` where nothing is said, and an optional list
/// of targets where peers may be named.
pub trait Asked<K, S, M> {
    /// How it stands in a message.
    ghost item: { Self → Item K S M };

    /// Makes it what stands in a message. Where memory is refused, it is dropped.
    fn into_item(self, alloc: Global) -> Result<FetchKey<K, S, M>, AllocError>
        ensures { IfOk result (λ made. item_of made ≡ item self) };
}

/// A fetch for its one subscriber, of which this is said.
fn said_of<K: Drop, S: Drop, M: Drop>(
    alloc: Global,
    fetch: Fetch<K, S>,
    metadata: M,
) -> Result<FetchKey<K, S, M>, AllocError>
    ensures { IfOk result (λ made. item_of made ≡ asked fetch metadata) }
{
    let subscribers = NonEmptyVec::new(alloc, (fetch.subscriber, fetch.mark))?;
    Ok(FetchKey {
        key: fetch.key,
        subscribers,
        metadata,
    })
}

/// Nothing is said of a fetch.
impl<K: Drop, S: Drop> Asked<K, S, ()> for Fetch<K, S> {
    ghost item = { λ fetch. asked fetch tt };

    fn into_item(self, alloc: Global) -> Result<FetchKey<K, S, ()>, AllocError> {
        said_of(alloc, self, ())
    }
}

/// Any peer may be asked.
impl<K: Drop, S: Drop, P: Drop> Asked<K, S, Option<NonEmptyVec<P>>> for Fetch<K, S> {
    ghost item = { λ fetch. asked fetch None };

    fn into_item(
        self,
        alloc: Global,
    ) -> Result<FetchKey<K, S, Option<NonEmptyVec<P>>>, AllocError> {
        said_of(alloc, self, None)
    }
}

/// The targets of a fetch are left out where no peer can be named.
impl<K: Drop, S: Drop, P: Drop> Asked<K, S, ()> for (Fetch<K, S>, NonEmptyVec<P>) {
    ghost item = { λ one. asked one.0 tt };

    fn into_item(self, alloc: Global) -> Result<FetchKey<K, S, ()>, AllocError> {
        said_of(alloc, self.0, ())
    }
}

/// The targets alone may be asked.
impl<K: Drop, S: Drop, P: Drop> Asked<K, S, Option<NonEmptyVec<P>>>
    for (Fetch<K, S>, NonEmptyVec<P>) {
    ghost item = { λ one. asked one.0 (Some one.1) };

    fn into_item(
        self,
        alloc: Global,
    ) -> Result<FetchKey<K, S, Option<NonEmptyVec<P>>>, AllocError> {
        said_of(alloc, self.0, Some(self.1))
    }
}
