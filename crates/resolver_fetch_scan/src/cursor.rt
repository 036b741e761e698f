//! Where an open scan stands.

ghost use Rattle.std.specs.Prelude.{◌≡◌, ◌+◌, ◌<◌, ◌^◌, [], ◌∷◌, ◌++◌, Some, false, IfErr, OnErr, OnOk};
ghost use Rattle.std.specs.BTreeMap.{insert_entry};
ghost use Rattle.std.specs.Ordering.{nat_cmp};
ghost use Rattle.resolver_fetch_requests.specs.Ids.{is_held};
ghost use Rattle.resolver_fetch_requests.specs.Requests.{is_asked};
ghost use Rattle.resolver_base.specs.declared.fault.Fault.TheVariants.{OutOfMemory};
ghost use Rattle.resolver_fetch_scan.specs.Trying.{apart_from};

use crate::trail::{Expected, Reason, Trail};
use crate::trying::Trying;
use resolver_base::Fault;
use resolver_fetch_requests::requests::{ID, Request, Requests};

/// Where an open scan stands.
#[derive(Drop)]
pub struct Cursor<K: Ord, P: Ord> {
    /// When it was begun, in nanoseconds.
    pub moment: u128,
    /// What it tried in vain.
    pub trail: Trail<K, P>,
    /// What it tries.
    pub trying: Trying<K, P>,
    /// What it is to be answered next.
    pub expects: Expected<P>,
}

impl<K: Ord + Clone + Drop, P: Ord + Clone + Drop> Cursor<K, P> {
    /// Notes that a peer was tried for the key in vain. Where memory is refused, nothing changes.
    pub fn note(&mut self, peer: &P, reason: Reason) -> Result<(), Fault>
    where
        requires keys_clone { (x y : K) → K.is_clone x y → y ≡ x }
        requires peers_clone { (x y : P) → P.is_clone x y → y ≡ x }
        ensures ok { OnOk result (self.new ≡ record self.old {
          trail = self.old.trail
              ++ record { key = self.old.trying.key; peer = peer.now; reason = reason } ∷ [];
        }) }
        ensures err { OnErr result (self.new ≡ self.old) }
        ensures only { IfErr result (λ fault. fault ≡ OutOfMemory) }
    {
        let key = self.trying.pair.1.clone()?;
        self.trail.push(key, peer.clone()?, reason)
    }

    /// Notes that a peer was tried for the key in vain, and has it left no more. Where memory is
    /// refused, nothing changes.
    pub fn fail(&mut self, peer: &P, reason: Reason) -> Result<(), Fault>
    where
        requires keys_clone { (x y : K) → K.is_clone x y → y ≡ x }
        requires peers_clone { (x y : P) → P.is_clone x y → y ≡ x }
        ensures ok { OnOk result (self.new ≡ record self.old {
          trail = self.old.trail
              ++ record { key = self.old.trying.key; peer = peer.now; reason = reason } ∷ [];
          trying = record self.old.trying { left = apart_from P.cmp peer.now self.old.trying.left };
        }) }
        ensures err { OnErr result (self.new ≡ self.old) }
        ensures only { IfErr result (λ fault. fault ≡ OutOfMemory) }
    {
        self.note(peer, reason)?;
        if let Err(fault) = self.trying.forget(peer) {
            self.trail.pop();
            return Err(fault);
        }
        Ok(())
    }
}

impl<K: Ord + Drop, P: Ord + Drop> Cursor<K, P> {
    /// What it tries. The rest is dropped.
    pub fn into_trying(self) -> Trying<K, P>
        ensures { result ≡ self.trying }
    {
        self.trying
    }

    /// What it tried in vain. The rest is dropped.
    pub fn into_trail(self) -> Trail<K, P>
        ensures { result ≡ self.trail }
    {
        self.trail
    }

    /// What it tried in vain, and what it tries.
    pub fn into_tries(self) -> (Trail<K, P>, Trying<K, P>)
        ensures { result ≡ (self.trail, self.trying) }
    {
        (self.trail, self.trying)
    }
}

/// Puts the request that a scan sent. Where memory is refused, nothing changes.
pub fn put_request<K: Ord + Clone + Drop, P: Ord + Drop>(
    requests: &mut Requests<K, P>,
    cursor: &Cursor<K, P>,
    peer: P,
    id: ID,
    timeout: u128,
) -> Result<(), Fault>
    requires moment { cursor.now.moment < 2 ^ 94 }
    requires timeout { timeout < 2 ^ 94 }
    requires keys_clone { (x y : K) → K.is_clone x y → y ≡ x }
    requires new_id { is_held requests.old id ≡ false }
    requires new_key { is_asked K.cmp requests.old cursor.now.trying.key ≡ false }
    ensures ok { OnOk result (requests.new ≡ insert_entry nat_cmp requests.old id (record {
      key = cursor.now.trying.key;
      peer = peer;
      start = cursor.now.moment;
      deadline = cursor.now.moment + timeout;
    })) }
    ensures err { OnErr result (requests.new ≡ requests.old) }
    ensures only { IfErr result (λ fault. fault ≡ OutOfMemory) }
{
    let request = Request {
        key: cursor.trying.pair.1.clone()?,
        peer,
        start: cursor.moment,
        deadline: cursor.moment + timeout,
    };
    requests.insert(id, request)
}
