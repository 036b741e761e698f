//! What an engine shows of its counts.

ghost use Rattle.std.specs.Prelude.{◌≡◌, length};
ghost use Rattle.resolver_model_peer.specs.Parties.{parties};
ghost use Rattle.resolver_model_peer.specs.Peer.{Machine};
ghost use Rattle.resolver_peer_step.specs.Tied.{Agrees, fetcher_of};
ghost use Rattle.resolver_core.specs.Phased.{IsPhased};

use resolver_metrics::metrics::Metrics;
use resolver_peer_step::parts::Parts;

/// How many demanded keys are in each phase.
#[derive(Clone, Copy, Debug, PartialEq, Eq)]
pub struct Phases {
    /// The keys that wait.
    pub waiting: u64,
    /// The keys of which a peer was asked, and that have no answer.
    pub asked: u64,
    /// The keys whose response was handed out, and has no verdict.
    pub judged: u64,
}

/// How many demanded keys are in each phase: what neither waits nor is asked for is judged.
pub(crate) fn phases_of<K: Ord + Drop, P: Ord + Drop, S: Ord + Drop>(
    parts: &Parts<K, P, S>,
) -> Phases
    ensures { (m : Machine K S P) → Agrees (parties K.cmp S.cmp P.cmp) parts.now m
        → IsPhased (parties K.cmp S.cmp P.cmp) m result }
{
    let demanded = parts.demand.len();
    let waiting = parts.fetcher.len_pending();
    let asked = parts.fetcher.len_active();
    let judged = demanded.saturating_sub(waiting).saturating_sub(asked);
    Phases {
        waiting: waiting as u64,
        asked: asked as u64,
        judged: judged as u64,
    }
}

/// What was counted, with how many keys wait, requests have no answer and serves are open.
pub(crate) fn metrics<K: Ord + Drop, P: Ord + Drop, S: Ord + Drop>(
    parts: &Parts<K, P, S>,
    counted: &Metrics,
) -> Metrics
    ensures pending { (m : Machine K S P) → Agrees (parties K.cmp S.cmp P.cmp) parts.now m
        → result.fetch_pending ≡ length (fetcher_of (parties K.cmp S.cmp P.cmp) m).waiting }
    ensures active { (m : Machine K S P) → Agrees (parties K.cmp S.cmp P.cmp) parts.now m
        → result.fetch_active ≡ length (fetcher_of (parties K.cmp S.cmp P.cmp) m).asked }
    ensures serves { (m : Machine K S P) → Agrees (parties K.cmp S.cmp P.cmp) parts.now m
        → result.serve_processing ≡ length m.serves }
    ensures counted { counted.now ≡ record result {
      fetch_pending = counted.now.fetch_pending;
      fetch_active = counted.now.fetch_active;
      serve_processing = counted.now.serve_processing;
    } }
{
    Metrics {
        fetch_pending: parts.fetcher.len_pending() as u64,
        fetch_active: parts.fetcher.len_active() as u64,
        serve_processing: parts.serves.len() as u64,
        ..*counted
    }
}
