//! The parts of the engine: who wants what, what is judged, and what is asked for.

ghost use Rattle.std.specs.Prelude.{◌≡◌, None, Err, true, false, is_some, IfErr, OnOk};
ghost use Rattle.resolver_base.specs.declared.fault.Fault.TheVariants.{OutOfMemory};
ghost use Rattle.resolver_fetch_scan.specs.Fetcher.{IsTimely};
ghost use Rattle.resolver_model_peer.specs.Parties.{parties};
ghost use Rattle.resolver_model_peer.specs.Peer.{Machine, opening, is_newer, peer_set, block};
ghost use Rattle.resolver_peer_step.specs.Tied.{Agrees};

use resolver_base::{Fault, Numbers};
use resolver_delivery::Entries;
use resolver_demand::subscribers::Tracker;
use resolver_fetch::fetcher::{Config, Fetcher};
use resolver_model_peer::inflight::Inflight;
use resolver_model_peer::serves::OpenServe;
use std::alloc::Global;
use std::collections::BTreeMap;

/// The parts of the engine. Each has what it says of one peer machine; together they are that
/// machine.
#[derive(Drop)]
pub struct Parts<K: Ord, P: Ord, S: Ord> {
    /// Who wants which key.
    pub demand: Tracker<K, S>,
    /// The deliveries in progress, and the cached responses.
    pub entries: Inflight<K, P, S>,
    /// The keys that wait or are asked for, and the peers.
    pub fetcher: Fetcher<K, P>,
    /// What peers ask for, by the numbers under which the producer has it.
    pub serves: BTreeMap<u64, OpenServe<P>>,
    /// The number of the next one.
    pub next_serve: Numbers,
    /// The index of the latest set of peers, if there was one.
    pub last_index: Option<u64>,
    /// Whether replies are sent before other messages.
    pub priority_responses: bool,
    /// Where memory comes from.
    pub alloc: Global,
}

impl<K: Ord + Drop, P: Ord + Drop, S: Ord + Drop> Parts<K, P, S> {
    /// Nothing is wanted, and no peer is known.
    pub fn new(alloc: Global, configuration: Config<P>, priority_responses: bool) -> Self
        requires { IsTimely configuration.fetch_timeout configuration.retry_delay }
        ensures { Agrees (parties K.cmp S.cmp P.cmp) result
            (opening configuration priority_responses) }
    {
        Parts {
            demand: Tracker::new(alloc),
            entries: Entries::new(alloc),
            fetcher: Fetcher::new(alloc, configuration),
            serves: BTreeMap::new(alloc),
            next_serve: Numbers::new(),
            last_index: None,
            priority_responses,
            alloc,
        }
    }

    /// Takes a set of peers in place of the last, if its index is greater.
    pub(crate) fn peer_set(&mut self, index: u64, peers: Vec<P>) -> Result<(), Fault>
        requires closed { is_some self.old.fetcher.scan ≡ false }
        ensures ok { (m : Machine K S P) → Agrees (parties K.cmp S.cmp P.cmp) self.old m
            → OnOk result (Agrees (parties K.cmp S.cmp P.cmp) self.new
            (peer_set (parties K.cmp S.cmp P.cmp) m index peers.items)) }
        ensures memory { result ≡ Err OutOfMemory
            → is_newer self.old.last_index index ≡ true }
        ensures only { IfErr result (λ fault. fault ≡ OutOfMemory) }
    {
        if let Some(last) = self.last_index {
            if index <= last {
                return Ok(());
            }
        }
        self.fetcher.reconcile(peers)?;
        self.last_index = Some(index);
        Ok(())
    }

    /// Takes these peers as the ones that are blocked.
    pub(crate) fn block(&mut self, peers: Vec<P>) -> Result<(), Fault>
        requires closed { is_some self.old.fetcher.scan ≡ false }
        ensures ok { (m : Machine K S P) → Agrees (parties K.cmp S.cmp P.cmp) self.old m
            → OnOk result (Agrees (parties K.cmp S.cmp P.cmp) self.new
            (block (parties K.cmp S.cmp P.cmp) m peers.items)) }
        ensures only { IfErr result (λ fault. fault ≡ OutOfMemory) }
    {
        self.fetcher.set_blocked(peers)
    }
}
