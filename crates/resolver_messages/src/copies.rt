//! Messages that are copied.

ghost use Rattle.std.specs.Prelude.{◌≡◌, map, IfErr, IfOk};
ghost use Rattle.resolver_base.specs.declared.fault.Fault.TheVariants.{OutOfMemory};
ghost use Rattle.resolver_messages.specs.Waiting.{item_of, told_of};

use crate::Metadata;
use crate::message::{FetchKey, Message};
use resolver_base::Fault;
use std::alloc::Global;

impl<K: Clone + Drop, S: Clone + Drop, M: Metadata + Drop> FetchKey<K, S, M> {
    /// The same again.
    fn copy(&self) -> Result<Self, Fault>
        requires keys_clone { (x y : K) → K.is_clone x y → y ≡ x }
        requires subscribers_clone { (x y : S) → S.is_clone x y → y ≡ x }
        ensures same { IfOk result (λ copy. item_of copy ≡ item_of self.now) }
        ensures only { IfErr result (λ fault. fault ≡ OutOfMemory) }
    {
        Ok(FetchKey {
            key: self.key.clone()?,
            subscribers: self.subscribers.clone()?,
            metadata: self.metadata.copy()?,
        })
    }
}

impl<K: Clone + Drop, S: Clone + Drop, M: Metadata + Drop, Q: Clone + Drop> Message<K, S, M, Q> {
    /// The same again, which takes time and memory in proportion to the message.
    pub fn copy(&self, alloc: Global) -> Result<Self, Fault>
        requires keys_clone { (x y : K) → K.is_clone x y → y ≡ x }
        requires subscribers_clone { (x y : S) → S.is_clone x y → y ≡ x }
        requires tests_clone { (x y : Q) → Q.is_clone x y → y ≡ x }
        ensures same { IfOk result (λ copy. told_of copy ≡ told_of self.now) }
        ensures only { IfErr result (λ fault. fault ≡ OutOfMemory) }
    {
        Ok(match self {
            Message::Fetch(items) => Message::Fetch(copies(alloc, items.as_slice())?),
            Message::Retain(keep) => Message::Retain(keep.clone()?),
        })
    }
}

/// The same fetches again.
fn copies<K: Clone + Drop, S: Clone + Drop, M: Metadata + Drop>(
    alloc: Global,
    items: &[FetchKey<K, S, M>],
) -> Result<Vec<FetchKey<K, S, M>>, Fault>
    requires keys_clone { (x y : K) → K.is_clone x y → y ≡ x }
    requires subscribers_clone { (x y : S) → S.is_clone x y → y ≡ x }
    ensures same { IfOk result (λ copies. map item_of copies.items ≡ map item_of items.now) }
    ensures only { IfErr result (λ fault. fault ≡ OutOfMemory) }
{
    let mut copies = Vec::with_capacity(alloc, items.len())?;
    for item in items {
        copies.push(item.copy()?)?;
    }
    Ok(copies)
}
