//! Keys by the attempts under which they were asked for.

ghost use Rattle.std.specs.Prelude.{◌≡◌, ℕ, [], Some, None, if◌then◌else◌, IfErr, OnErr, OnOk};
ghost use Rattle.std.specs.BTreeMap.{is_at};
ghost use Rattle.std.specs.Map.{lookup};
ghost use Rattle.std.specs.Option.{option_copied};
ghost use Rattle.std.specs.Ordering.{nat_cmp};
ghost use Rattle.resolver_base.specs.declared.fault.Fault.TheVariants.{OutOfMemory};

use resolver_base::Fault;
use std::alloc::Global;
use std::collections::HashMap;
use std::marker::Model;

/// Keys by their attempts. Attempts are the actor's own numbers, which nobody outside picks, so they
/// stand in a hash table.
///
/// Contracts see it as the list of its pairs, in an order that is left open.
#[derive(Drop)]
pub struct ByAttempt<K> {
    table: HashMap<u64, K>,
}

impl<K> Model for ByAttempt<K> {
    ghost use Rattle.std.specs.Prelude.{List, ℕ};

    ghost Value = { List (ℕ × K) };

    ghost view = { λ a. a.table.entries };
}

impl<K: Drop> ByAttempt<K> {
    /// No attempt.
    pub fn new(alloc: Global) -> Self
        ensures { result ≡ [] }
    {
        ByAttempt {
            table: HashMap::new(alloc),
        }
    }

    /// The key of an attempt, if there is one.
    pub fn get(&self, attempt: &u64) -> Option<&K>
        ensures { option_copied result ≡ lookup (is_at (nat_cmp attempt.now)) self.now }
    {
        self.table.get(attempt)
    }

    /// The attempt leads to this key. Where memory is refused, nothing changes.
    pub fn insert(&mut self, attempt: u64, key: K) -> Result<(), Fault>
        ensures ok { OnOk result ((a : ℕ) → lookup (is_at (nat_cmp a)) self.new
            ≡ if is_at (nat_cmp attempt) a then Some key
            else lookup (is_at (nat_cmp a)) self.old) }
        ensures err { OnErr result (self.new ≡ self.old) }
        ensures only { IfErr result (λ fault. fault ≡ OutOfMemory) }
    {
        self.table.insert(attempt, key)?;
        Ok(())
    }

    /// The attempt leads nowhere.
    pub fn remove(&mut self, attempt: u64)
        ensures { (a : ℕ) → lookup (is_at (nat_cmp a)) self.new
            ≡ if is_at (nat_cmp attempt) a then None
            else lookup (is_at (nat_cmp a)) self.old }
    {
        self.table.remove(&attempt);
    }

    /// No attempt leads anywhere.
    pub fn clear(&mut self)
        ensures { self.new ≡ [] }
    {
        self.table.clear();
    }
}
