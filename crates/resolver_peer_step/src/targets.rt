//! Which peers may be asked for a key, where it is fetched.

ghost use Rattle.std.specs.Prelude.{◌≡◌, ◌<◌, ◌^◌, false, is_some, IfErr, OnOk};
ghost use Rattle.resolver_priority_set.specs.Priorities.{has_item};
ghost use Rattle.resolver_base.specs.declared.fault.Fault.TheVariants.{OutOfMemory};
ghost use Rattle.resolver_fetch_requests.specs.Requests.{is_asked};
ghost use Rattle.resolver_fetch_scan.specs.Orders.{orders};
ghost use Rattle.resolver_peer_step.specs.Aiming.{aimed, readied};

use resolver_base::Fault;
use resolver_fetch::fetcher::Fetcher;
use resolver_types::NonEmptyVec;

/// A key that is there may be asked of more peers, or of any.
pub(crate) fn aim<K: Ord + Drop, P: Ord + Clone + Drop>(
    fetcher: &mut Fetcher<K, P>,
    key: K,
    targets: Option<NonEmptyVec<P>>,
) -> Result<(), Fault>
    requires closed { is_some fetcher.old.scan ≡ false }
    requires peers_clone { (x y : P) → P.is_clone x y → y ≡ x }
    ensures ok { OnOk result (fetcher.new ≡ aimed (orders K.cmp P.cmp) key targets fetcher.old) }
    ensures only { IfErr result (λ fault. fault ≡ OutOfMemory) }
{
    let Some(peers) = targets else {
        fetcher.clear_targets(&key);
        return Ok(());
    };
    if !fetcher.has_targets(&key) {
        return Ok(());
    }
    fetcher.add_targets(key, peers)
}

/// A new key waits, and may be asked of these peers, or of any.
pub(crate) fn ready<K: Ord + Clone + Drop, P: Ord + Clone + Drop>(
    fetcher: &mut Fetcher<K, P>,
    now: u128,
    key: K,
    targets: Option<NonEmptyVec<P>>,
) -> Result<(), Fault>
    requires closed { is_some fetcher.old.scan ≡ false }
    requires not_waiting { has_item K.cmp fetcher.old.waiting key ≡ false }
    requires not_asked { is_asked K.cmp fetcher.old.asked key ≡ false }
    requires moment { now < 2 ^ 94 }
    requires keys_clone { (x y : K) → K.is_clone x y → y ≡ x }
    requires peers_clone { (x y : P) → P.is_clone x y → y ≡ x }
    ensures ok { OnOk result
        (fetcher.new ≡ readied (orders K.cmp P.cmp) now key targets fetcher.old) }
    ensures only { IfErr result (λ fault. fault ≡ OutOfMemory) }
{
    if let Some(peers) = targets {
        let aimed = key.clone()?;
        fetcher.add_targets(aimed, peers)?;
    }
    fetcher.add_ready(key, now)
}
