//! A producer over a map.

ghost use Rattle.std.specs.Prelude.{◌≡◌, [], IfErr, OnErr, OnOk};
ghost use Rattle.std.specs.BTreeMap.{insert_entry};
ghost use Rattle.resolver_base.specs.declared.fault.Fault.TheVariants.{OutOfMemory};

use crate::traits::producer::Producer as Source;
use bytes::Bytes;
use futures::channel::oneshot;
use resolver_base::{Fault, Span};
use std::alloc::Global;
use std::collections::BTreeMap;
use std::marker::Model;

/// Answers at once from the values that were put in.
///
/// Contracts see it as these values, in the order of their keys.
#[derive(Drop)]
pub struct Producer<K: Ord, V> {
    alloc: Global,
    values: BTreeMap<K, V>,
}

impl<K: Ord, V> Model for Producer<K, V> {
    ghost use Rattle.std.specs.Prelude.{List};

    ghost Value = { List (K × V) };

    ghost view = { λ a. a.values.entries };
}

impl<K: Ord + Drop, V: Drop> Producer<K, V> {
    /// It has no value.
    pub fn new(alloc: Global) -> Self
        ensures { result ≡ [] }
    {
        Producer {
            alloc,
            values: BTreeMap::new(alloc),
        }
    }

    /// Has this value under this key, in place of another. Where memory is refused, nothing changes.
    pub fn insert(&mut self, key: K, value: V) -> Result<(), Fault>
        ensures ok { OnOk result (self.new ≡ insert_entry K.cmp self.old key value) }
        ensures err { OnErr result (self.new ≡ self.old) }
        ensures only { IfErr result (λ fault. fault ≡ OutOfMemory) }
    {
        self.values.insert(key, value)?;
        Ok(())
    }
}

impl<K, V> Source for Producer<K, V>
where
    K: Span + Drop + 'static,
    V: Clone + Into<Bytes> + Drop + 'static,
{
    type Key = K;

    /// Hands a clone of the value in, or drops the sender where there is none. The values stay.
    fn produce(&mut self, key: K) -> Result<oneshot::Receiver<Bytes>, Fault>
        ensures same { self.new ≡ self.old }
        ensures only { IfErr result (λ fault. fault ≡ OutOfMemory) }
    {
        let (sender, receiver) = oneshot::channel(self.alloc)?;
        if let Some(value) = self.values.get(&key) {
            let _ = sender.send(value.clone()?.into());
        }
        Ok(receiver)
    }
}
