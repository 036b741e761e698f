//! The key that a scan tries.

ghost use Rattle.std.specs.Prelude.{◌≡◌, ◌==◌, length, sum, IfErr, OnErr, OnOk};
ghost use Rattle.resolver_base.specs.declared.fault.Fault.TheVariants.{OutOfMemory};
ghost use Rattle.std.specs.Option.{option_copied};
ghost use Rattle.resolver_fetch_scan.specs.Trying.{apart_from, at_place, at_weight, weights_of};

use crate::pool::Pool;
use resolver_base::Fault;
use std::marker::Model;

/// The key that a scan tries, and the peers that are left for it.
///
/// A call takes time logarithmic in the peers, unless it says otherwise.
#[derive(Drop)]
pub struct Trying<K, P: Ord> {
    /// Whether the key is tried again, or is fresh.
    pub is_retry: bool,
    /// The key, behind its due in nanoseconds, as its queue has it.
    pub pair: (u128, K),
    /// How often it was tried again so far.
    pub retries: u32,
    /// The peers that may be asked for it; those that were not tried for it are left.
    pub pool: Pool<P>,
}

/// What a scan does next.
#[derive(Drop)]
pub enum Next<K, P: Ord> {
    /// It tries this key.
    Try(Trying<K, P>),
    /// It ends in vain, and may be begun again once a key becomes due, or at this moment, in
    /// nanoseconds.
    Wait(Option<u128>),
}

impl<K, P: Ord> Model for Trying<K, P> {
    ghost use Rattle.resolver_fetch_scan.specs.Trying.{Trying};

    ghost Value = { Trying K P };

    ghost view = { λ a. record {
      place = record { is_retry = a.is_retry; due = a.pair.0 };
      key = a.pair.1;
      retries = a.retries;
      all = a.pool.all;
      left = a.pool.left;
    } };
}

impl<K, P: Ord + Drop> Trying<K, P> {
    /// What the peers left weigh, in constant time.
    pub fn total(&self) -> u128
        ensures { result ≡ sum (weights_of self.now.left) }
    {
        self.pool.total()
    }

    /// How many peers are left, in constant time.
    pub fn count(&self) -> u128
        ensures { result ≡ length self.now.left }
    {
        self.pool.count()
    }

    /// The peer left in whose interval of the weights a number lies, if it lies in one.
    pub fn by_weight(&self, number: u128) -> Option<&P>
        ensures { option_copied result ≡ at_weight self.now.left number }
    {
        self.pool.by_weight(number)
    }

    /// The peer at a place among those left.
    pub fn by_place(&self, number: u128) -> Option<&P>
        ensures { option_copied result ≡ at_place self.now.left number }
    {
        self.pool.by_place(number)
    }

    /// Whether no peer is left for it but this one.
    pub fn is_last(&self, peer: &P) -> bool
        ensures { result ≡ (length (apart_from P.cmp peer.now self.now.left) == 0) }
    {
        self.pool.is_last(peer)
    }

    /// The peer is left no more. Where memory is refused, nothing changes.
    pub fn forget(&mut self, peer: &P) -> Result<(), Fault>
        ensures ok { OnOk result (self.new
            ≡ record self.old { left = apart_from P.cmp peer.now self.old.left }) }
        ensures err { OnErr result (self.new ≡ self.old) }
        ensures only { IfErr result (λ fault. fault ≡ OutOfMemory) }
    {
        self.pool.forget(peer)
    }
}
