//! What a request that did not help does to the parts.

ghost use Rattle.std.specs.Prelude.{◌≡◌, ◌<◌, ◌^◌, Err, false, is_none, is_some, IfErr, OnOk};
ghost use Rattle.resolver_base.specs.declared.fault.Fault.TheVariants.{OutOfMemory};
ghost use Rattle.resolver_fetch_requests.specs.Requests.{overdue};
ghost use Rattle.resolver_model_peer.specs.Parties.{parties};
ghost use Rattle.resolver_model_peer.specs.Peer.{Machine, answered, misses, snapshot, times_out};
ghost use Rattle.resolver_peer_step.specs.Tied.{Agrees};

use crate::parts::Parts;
use resolver_base::Fault;
use resolver_metrics::metrics::{Metrics, raise};

impl<K: Ord + Clone + Drop, P: Ord + Drop, S: Ord + Drop> Parts<K, P, S> {
    /// The request whose time is over is asked no more, and its key is tried again later.
    pub(crate) fn time_out(&mut self, now: u128, metrics: &mut Metrics) -> Result<(), Fault>
        requires closed { is_some self.old.fetcher.scan ≡ false }
        requires moment { now < 2 ^ 94 }
        requires keys_clone { (x y : K) → K.is_clone x y → y ≡ x }
        ensures ok { (m : Machine K S P) → Agrees (parties K.cmp S.cmp P.cmp) self.old m
            → OnOk result (Agrees (parties K.cmp S.cmp P.cmp) self.new
            (times_out (parties K.cmp S.cmp P.cmp) m now
            (overdue (snapshot (parties K.cmp S.cmp P.cmp) m).asked now))) }
        ensures memory { result ≡ Err OutOfMemory
            → (m : Machine K S P) → Agrees (parties K.cmp S.cmp P.cmp) self.old m
            → is_none (overdue (snapshot (parties K.cmp S.cmp P.cmp) m).asked now) ≡ false }
        ensures only { IfErr result (λ fault. fault ≡ OutOfMemory) }
    {
        let Some(key) = self.fetcher.pop_active(now) else {
            return Ok(());
        };
        raise(&mut metrics.fetch.failure, 1);
        self.fetcher.add_retry(key, now)
    }

    /// The request that this peer has no data for is asked no more, and its key is tried again
    /// later.
    pub(crate) fn miss(
        &mut self,
        now: u128,
        peer: &P,
        id: u64,
        metrics: &mut Metrics,
    ) -> Result<(), Fault>
        requires closed { is_some self.old.fetcher.scan ≡ false }
        requires moment { now < 2 ^ 94 }
        requires keys_clone { (x y : K) → K.is_clone x y → y ≡ x }
        ensures ok { (m : Machine K S P) → Agrees (parties K.cmp S.cmp P.cmp) self.old m
            → OnOk result (Agrees (parties K.cmp S.cmp P.cmp) self.new
            (misses (parties K.cmp S.cmp P.cmp) m now
            (answered (parties K.cmp S.cmp P.cmp) m peer.now id))) }
        ensures memory { result ≡ Err OutOfMemory
            → (m : Machine K S P) → Agrees (parties K.cmp S.cmp P.cmp) self.old m
            → is_none (answered (parties K.cmp S.cmp P.cmp) m peer.now id) ≡ false }
        ensures only { IfErr result (λ fault. fault ≡ OutOfMemory) }
    {
        let Some(key) = self.fetcher.pop_missing(id, peer, now) else {
            return Ok(());
        };
        raise(&mut metrics.fetch.failure, 1);
        self.fetcher.add_retry(key, now)
    }
}
