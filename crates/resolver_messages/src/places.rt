//! The places of a batch's keys, found by key.

ghost use Rattle.std.specs.Prelude.{◌≡◌, [], ◌∷◌, ◌++◌, List, None, OnOk, OnErr};
ghost use Rattle.std.specs.BTreeMap.{is_at};
ghost use Rattle.std.specs.Map.{lookup, remove_entry};
ghost use Rattle.resolver_messages.specs.Places.{IsPlaced};

use std::alloc::{AllocError, Global};
use std::collections::BTreeMap;
use std::marker::Model;

/// The place of each key in a batch. Keys are compared and never hashed, so no choice of keys makes
/// a look-up long.
///
/// Contracts see the keys in order, each with its place. `IsPlaced` says what they are of the
/// batch's keys.
#[derive(Drop)]
pub struct Places<K: Ord> {
    by_key: BTreeMap<K, usize>,
}

impl<K: Ord> Model for Places<K> {
    ghost use Rattle.std.specs.Prelude.{List, ℕ};

    ghost Value = { List (K × ℕ) };

    ghost view = { λ a. a.by_key.entries };
}

impl<K: Ord + Drop> Places<K> {
    /// No key.
    pub fn new(alloc: Global) -> Self
        ensures { result ≡ [] }
    {
        Places {
            by_key: BTreeMap::new(alloc),
        }
    }

    /// The place of a key, if it is there. It is found in logarithmic time.
    pub(super) fn get(&self, key: &K) -> Option<usize>
        ensures { result ≡ lookup (is_at (K.cmp key.now)) self.now }
    {
        self.by_key.get(key).copied()
    }

    /// Puts a new key last. Where memory is refused, nothing changes.
    pub(super) fn insert(&mut self, key: K) -> Result<(), AllocError>
        requires absent { lookup (is_at (K.cmp key)) self.old ≡ None }
        ensures placed { OnOk result ((keys : List K)
            → IsPlaced K.cmp self.old keys → IsPlaced K.cmp self.new (keys ++ key ∷ [])) }
        ensures back { OnOk result (remove_entry (is_at (K.cmp key)) self.new ≡ self.old) }
        ensures err { OnErr result (self.new ≡ self.old) }
    {
        let place = self.by_key.len();
        self.by_key.insert(key, place)?;
        Ok(())
    }

    /// Takes a key out.
    pub(super) fn remove(&mut self, key: &K)
        ensures { self.new ≡ remove_entry (is_at (K.cmp key.now)) self.old }
    {
        self.by_key.remove(key);
    }

    /// Takes every key out.
    pub fn clear(&mut self)
        ensures { self.new ≡ [] }
    {
        self.by_key.clear();
    }
}
