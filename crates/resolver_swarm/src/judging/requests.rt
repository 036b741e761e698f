//! The requests of a node that have no answer.

ghost use Rattle.std.specs.Prelude.{◌≡◌, ◌+◌, ◌-◌, ◌^◌, min, true, false, length, slice_get, None, Some, OnOk, IfSome};
ghost use Rattle.std.specs.Ordering.{nat_cmp};
ghost use Rattle.std.specs.BTreeMap.{get};
ghost use Rattle.std.specs.BTreeSet.{Updates, contains};
ghost use Rattle.resolver_swarm.specs.Height.{number_of};
ghost use Rattle.resolver_swarm.specs.Judging.{load_of};
ghost use Rattle.resolver_swarm.specs.Keeping.{Ends};

use crate::height::Height;
use std::alloc::{AllocError, Global};
use std::collections::{BTreeMap, BTreeSet};

/// A request without an answer.
#[derive(Clone, Copy, Debug, PartialEq, Eq)]
pub struct Asked {
    pub key: Height,
    pub peer: u16,
    /// When its time is over, in nanoseconds.
    pub deadline: u128,
}

/// The requests without an answer. A call takes time logarithmic in how many there are.
#[derive(Drop)]
pub struct Requests {
    by_id: BTreeMap<u64, Asked>,
    /// Their deadlines, each with the id of its request.
    deadlines: BTreeSet<(u128, u64)>,
    /// The numbers of their keys.
    keys: BTreeSet<u16>,
    /// How many each peer has that was asked.
    loads: BTreeMap<u16, u64>,
}

impl Requests {
    /// Nobody was asked.
    pub fn new(alloc: Global) -> Requests {
        Requests {
            by_id: BTreeMap::new(alloc),
            deadlines: BTreeSet::new(alloc),
            keys: BTreeSet::new(alloc),
            loads: BTreeMap::new(alloc),
        }
    }

    /// How many there are.
    pub fn len(&self) -> usize
        ensures { result ≡ length self.now.by_id.entries }
    {
        self.by_id.len()
    }

    /// Whether there is none.
    pub fn is_empty(&self) -> bool {
        self.by_id.is_empty()
    }

    /// The request of this id.
    pub fn get(&self, id: u64) -> Option<Asked>
        ensures { result ≡ get nat_cmp self.now.by_id id }
    {
        self.by_id.get(&id).copied()
    }

    /// Whether a key is asked for.
    pub fn has_key(&self, key: Height) -> bool
        ensures { result ≡ contains nat_cmp self.now.keys (number_of key) }
    {
        self.keys.contains(&key.number())
    }

    /// How many a peer has.
    pub fn load(&self, peer: u16) -> u64
        ensures { result ≡ load_of self.now.loads peer }
    {
        self.loads.get(&peer).copied().unwrap_or(0)
    }

    /// When the time of the first one is over, and its id. Of equal moments the smaller id is first.
    pub fn first(&self) -> Option<(u128, u64)>
        ensures { result ≡ slice_get self.now.deadlines.keys 0 }
    {
        self.deadlines.first().copied()
    }

    /// A request is sent under this id.
    pub fn put(&mut self, id: u64, asked: Asked) -> Result<(), AllocError>
        ensures put { OnOk result (get nat_cmp self.new.by_id id ≡ Some asked) }
        ensures keys { OnOk result
            (Updates nat_cmp self.old.keys self.new.keys (number_of asked.key) true) }
        ensures load { OnOk result (load_of self.new.loads asked.peer
            ≡ min (load_of self.old.loads asked.peer + 1) (2 ^ 64 - 1)) }
    {
        self.by_id.insert(id, asked)?;
        self.deadlines.insert((asked.deadline, id))?;
        self.keys.insert(asked.key.number())?;
        let load = self.load(asked.peer).saturating_add(1);
        self.loads.insert(asked.peer, load)?;
        Ok(())
    }

    /// The request of this id ends, if there is one.
    pub fn remove(&mut self, id: u64) -> Option<Asked>
        ensures removed { result ≡ get nat_cmp self.old.by_id id }
        ensures ended { Ends id self.old self.new }
        ensures keys { IfSome result (λ asked.
            Updates nat_cmp self.old.keys self.new.keys (number_of asked.key) false) }
        ensures load { IfSome result (λ asked. load_of self.new.loads asked.peer
            ≡ load_of self.old.loads asked.peer - 1) }
    {
        let asked = self.by_id.remove(&id)?;
        self.deadlines.remove(&(asked.deadline, id));
        self.keys.remove(&asked.key.number());
        self.unload(asked.peer);
        Some(asked)
    }

    /// A peer has one less.
    fn unload(&mut self, peer: u16)
        ensures requests { self.new.by_id ≡ self.old.by_id }
        ensures keys { self.new.keys ≡ self.old.keys }
        ensures load { load_of self.new.loads peer ≡ load_of self.old.loads peer - 1 }
    {
        let left = self.load(peer).saturating_sub(1);
        match self.loads.get_mut(&peer) {
            Some(load) if left > 0 => *load = left,
            _ => {
                self.loads.remove(&peer);
            }
        }
    }
}
