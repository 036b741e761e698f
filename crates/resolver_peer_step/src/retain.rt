//! What is no longer wanted: subscribers that a predicate doesn't keep, or all of them.

ghost use Rattle.std.specs.Prelude.{◌≡◌, Some, false, is_some};
ghost use Rattle.resolver_delivery.specs.Entries.{retained};
ghost use Rattle.resolver_types.specs.Names.{names};
ghost use Rattle.resolver_types.specs.Table.{is_asked};
ghost use Rattle.resolver_fetch_scan.specs.Fetcher as calls;
ghost use Rattle.resolver_fetch_scan.specs.Orders.{orders};
ghost use Rattle.resolver_model_peer.specs.Parties.{parties};
ghost use Rattle.resolver_model_peer.specs.Peer.{Machine, end, retain};
ghost use Rattle.resolver_peer_step.specs.Going.{Goes};
ghost use Rattle.resolver_peer_step.specs.Said.{codec};
ghost use Rattle.resolver_peer_step.specs.Tied.{Agrees};

use crate::counted::count_retain;
use crate::parts::Parts;
use resolver_base::{Fault, Span};
use resolver_demand::subscribers::Tracker;
use resolver_fetch::fetcher::Fetcher;
use resolver_metrics::metrics::Metrics;
use resolver_model_peer::canceled::{cancel_all, cancel_each};
use resolver_model_peer::effects::Effect;
use resolver_model_peer::inflight::Inflight;
use resolver_types::Predicate;

impl<K: Span + Drop, P: Ord + Drop, S: Ord + Drop> Parts<K, P, S> {
    /// Removes the subscribers that aren't kept, and calls off what is done for the keys that have
    /// none then. It takes time linear in the subscribers and in the keys, these times a logarithm.
    pub(crate) fn retain<Q: Predicate<K, S>>(
        &mut self,
        keep: &Q,
        effects: &mut Vec<Effect<K, P, S>>,
        metrics: &mut Metrics,
    ) -> Result<(), Fault>
        requires keys_clone { (x y : K) → K.is_clone x y → y ≡ x }
        requires closed { is_some self.old.fetcher.scan ≡ false }
        ensures { (m : Machine K S P) → Agrees (parties K.cmp S.cmp P.cmp) self.old m
            → Goes (parties K.cmp S.cmp P.cmp) (codec K.SIZE K.bytes_of K.read_from)
            (Some (retain m (Q.keeps keep.now))) effects.old.items effects.new.items self.new
            result }
    {
        let emptied = self.demand.retain(keep)?;
        cancel_each(&self.entries, emptied.as_slice(), effects)?;
        forget(&self.demand, &mut self.entries, &mut self.fetcher);
        count_retain(&mut metrics.cancel, emptied.len() as u64);
        Ok(())
    }

    /// Calls off all that is done, and nothing is wanted any more.
    pub(crate) fn end(&mut self, effects: &mut Vec<Effect<K, P, S>>) -> Result<(), Fault>
        requires closed { is_some self.old.fetcher.scan ≡ false }
        ensures { (m : Machine K S P) → Agrees (parties K.cmp S.cmp P.cmp) self.old m
            → Goes (parties K.cmp S.cmp P.cmp) (codec K.SIZE K.bytes_of K.read_from)
            (Some (end m)) effects.old.items effects.new.items self.new result }
    {
        cancel_all(&self.entries, effects)?;
        self.demand.clear();
        self.entries.clear();
        self.fetcher.retain(|_| false);
        self.serves.clear();
        Ok(())
    }
}

/// Drops the keys that nobody wants.
fn forget<K: Ord + Drop, P: Ord + Drop, S: Ord + Drop>(
    demand: &Tracker<K, S>,
    entries: &mut Inflight<K, P, S>,
    fetcher: &mut Fetcher<K, P>,
)
    requires closed { is_some fetcher.old.scan ≡ false }
    ensures entries { entries.new ≡ retained (is_asked (names K.cmp S.cmp) demand.now) entries.old }
    ensures fetcher { fetcher.new ≡ calls.retain (orders K.cmp P.cmp)
        (is_asked (names K.cmp S.cmp) demand.now) fetcher.old }
{
    entries.retain(|key| demand.contains(key));
    fetcher.retain(|key| demand.contains(key));
}
