//! The peers that may be asked.

ghost use Rattle.std.specs.Prelude.{◌≡◌, ◌↔◌, ◌+◌, ◌<◌, ◌^◌, is_some, None, Some, [], option_map, option_to_list, length, if◌then◌else◌, IsTrue, IfOk, IfErr, IfSome, OnErr, OnOk};
ghost use Rattle.std.specs.List.{IsDistinct};
ghost use Rattle.std.specs.List.Sorted.{IsStrictlySortedBy};
ghost use Rattle.std.specs.BTreeMap.{is_at};
ghost use Rattle.std.specs.Map.{keys_of, lookup};
ghost use Rattle.std.specs.Option.{option_copied};
ghost use Rattle.std.specs.Ordering.{eq_by_cmp};
ghost use Rattle.resolver_base.specs.declared.fault.Fault.TheVariants.{OutOfMemory};
ghost use Rattle.resolver_fetch_scan.specs.Known.{known_by, with_load, askable, askable_at, eligible, is_eligible, is_local, is_target, may_be_asked, weight_in};
ghost use Rattle.resolver_fetch_scan.specs.Peers.{observed, replaced, set_of};
ghost use Rattle.resolver_sampling.specs.Scores.{averaged, weight_of};
ghost use Rattle.resolver_fetch_requests.specs.Loads.{counted, fills, frees, is_full, loaded, one_fewer, one_more};
ghost use Rattle.std.specs.NonZero.{non_zero_u32_get};
ghost use Rattle.resolver_fetch_scan.specs.Pools.{IsWhole, recounted, revalued, reweighed, weighs, whole};
ghost use Rattle.resolver_fetch_scan.specs.Trying.{drawn_from, sampled, weighed};

use resolver_base::Fault;
use resolver_fetch_requests::load::Load;
use resolver_fetch_scan::pool::Pool;
use resolver_fetch_scan::targets::Targets;
use resolver_sampling::score::Score;
use std::alloc::{AllocError, Global};
use std::collections::{BTreeMap, BTreeSet};
use std::marker::Model;
use std::num::NonZeroU32;

/// The latest set of peers with their scores, the local name, the peers that are blocked, and how
/// many requests each peer has, where they are limited.
///
/// A call on one peer takes time logarithmic in their number.
#[derive(Drop)]
pub(super) struct Peers<P: Ord> {
    local: Option<P>,
    set: BTreeMap<P, Score>,
    blocked: BTreeSet<P>,
    load: Option<Load<P>>,
    /// How many peers may be asked at all.
    allowed: usize,
    /// The set with what each peer weighs, unless a scan has it or it is to be made anew.
    pool: Option<Pool<P>>,
    alloc: Global,
}

impl<P: Ord> Model for Peers<P> {
    ghost use Rattle.std.specs.Prelude.{◌≡◌};
    ghost use Rattle.resolver_fetch_scan.specs.Known.{Company, askable, known_by};
    ghost use Rattle.resolver_fetch_scan.specs.Pools.{IsWhole};

    ghost Value = { Company P };

    ghost view = { λ a. record {
      local = a.local;
      set = a.set.entries;
      blocked = a.blocked.keys;
      counts = a.load;
    } };

    ghost invariant = { λ a. (a.allowed ≡ askable P.cmp (known_by P.cmp
        (record { local = a.local; set = a.set.entries; blocked = a.blocked.keys; counts = a.load })))
        × IsWhole P.cmp (known_by P.cmp
        (record { local = a.local; set = a.set.entries; blocked = a.blocked.keys; counts = a.load }))
        a.pool };
}

impl<P: Ord + Drop> Peers<P> {
    /// No peers, of which this one would be the local one, and each may have so many requests.
    pub(super) fn new(alloc: Global, local: Option<P>, limit: Option<NonZeroU32>) -> Self
        ensures value { result ≡ record {
          local = local;
          set = [];
          blocked = [];
          counts = option_map (λ most. record { limit = non_zero_u32_get most; counts = [] }) limit;
        } }
    {
        let load = match limit {
            Some(limit) => Some(Load::new(alloc, limit)),
            None => None,
        };
        Peers {
            local,
            set: BTreeMap::new(alloc),
            blocked: BTreeSet::new(alloc),
            load,
            allowed: 0,
            pool: None,
            alloc,
        }
    }

    /// No peer stands twice in the set. This does nothing.
    pub(super) fn law(&self)
        ensures { IsDistinct (eq_by_cmp P.cmp) (keys_of self.now.set) }
    {
        let _count = self.set.len();
    }

    /// The set is in the order of the peers, and they can be counted. This does nothing.
    pub(super) fn order(&self)
        ensures ordered { IsStrictlySortedBy P.cmp (keys_of self.now.set) }
        ensures few { length self.now.set < 2 ^ 63 }
    {
        let _count = self.set.len();
    }

    /// Whether no peer may be asked for any key, in constant time.
    pub(super) fn none_askable(&self) -> bool
        ensures { IsTrue result ↔ (askable P.cmp (known_by P.cmp self.now) ≡ 0) }
    {
        self.allowed == 0
    }

    /// Whether the requests of one peer are limited.
    pub(super) fn is_limited(&self) -> bool
        ensures { result ≡ is_some self.now.counts }
    {
        self.load.is_some()
    }

    /// A peer has one request more. Says whether that fills it. Where memory is refused, nothing
    /// changes.
    ///
    /// The name is cloned; clones are to equal their sources.
    pub(super) fn sent(&mut self, peer: &P) -> Result<bool, Fault>
    where
        P: Clone,
        requires peers_clone { (x y : P) → P.is_clone x y → y ≡ x }
        requires room { IfSome self.old.counts
            (λ c. counted P.cmp c.counts peer.now + 1 < 2 ^ 64) }
        ensures ok { OnOk result (known_by P.cmp self.new
            ≡ with_load (option_map (one_more P.cmp peer.now)) (known_by P.cmp self.old)) }
        ensures fills { IfOk result (λ is. is ≡ fills P.cmp peer.now self.old.counts) }
        ensures err { OnErr result (self.new ≡ self.old) }
        ensures only { IfErr result (λ fault. fault ≡ OutOfMemory) }
    {
        self.order();
        if !add_to(&mut self.load, peer)? {
            return Ok(false);
        }
        let before = weight(&self.local, &self.set, &self.blocked, &None, peer);
        let now = full_weight(before);
        self.allowed = recounted(self.allowed, before, now);
        reweigh(&mut self.pool, peer, now);
        Ok(true)
    }

    /// A peer has one request fewer.
    #[inline]
    pub(super) fn freed(&mut self, peer: &P)
        ensures { known_by P.cmp self.new
            ≡ with_load (option_map (one_fewer P.cmp peer.now)) (known_by P.cmp self.old) }
    {
        if self.load.is_some() {
            self.free(peer);
        }
    }

    /// The same where requests are counted.
    fn free(&mut self, peer: &P)
        ensures { known_by P.cmp self.new
            ≡ with_load (option_map (one_fewer P.cmp peer.now)) (known_by P.cmp self.old) }
    {
        self.order();
        if !remove_from(&mut self.load, peer) {
            return;
        }
        let now = weight(&self.local, &self.set, &self.blocked, &self.load, peer);
        let before = full_weight(now);
        self.allowed = recounted(self.allowed, before, now);
        reweigh(&mut self.pool, peer, now);
    }

    /// The weight with which a peer of the set is drawn: 0 where it is the local one, blocked or
    /// full, else that of its score. There is none for other peers.
    pub(super) fn weight(&self, peer: &P) -> Option<u64>
        ensures { result ≡ weight_in P.cmp (known_by P.cmp self.now) peer.now }
    {
        weight(&self.local, &self.set, &self.blocked, &self.load, peer)
    }

    /// The peers that may be asked for a key with these targets, in their order, with what they
    /// weigh. Where there are fewer targets than peers, each of them is looked up; else it takes
    /// one pass over the peers, with a look-up in the targets for each.
    ///
    /// The names are cloned; clones are to equal their sources.
    pub(super) fn eligible(&self, targets: Option<&Targets<P>>) -> Result<Vec<(P, u64)>, Fault>
    where
        P: Clone,
        requires peers_clone { (x y : P) → P.is_clone x y → y ≡ x }
        ensures ok { IfOk result
            (λ peers. peers.items ≡ weighed (eligible P.cmp (known_by P.cmp self.now) (option_copied targets.entry))) }
        ensures only { IfErr result (λ fault. fault ≡ OutOfMemory) }
    {
        match targets {
            Some(few) if few.len() < self.set.len() => self.eligible_among(few),
            _ => self.eligible_of_all(targets),
        }
    }

    /// The same by a pass over the peers.
    fn eligible_of_all(&self, targets: Option<&Targets<P>>) -> Result<Vec<(P, u64)>, Fault>
    where
        P: Clone,
        requires peers_clone { (x y : P) → P.is_clone x y → y ≡ x }
        ensures ok { IfOk result
            (λ peers. peers.items ≡ weighed (eligible P.cmp (known_by P.cmp self.now) (option_copied targets.entry))) }
        ensures only { IfErr result (λ fault. fault ≡ OutOfMemory) }
    {
        let mut peers = Vec::new(self.alloc);
        for (peer, score) in &self.set {
            if self.is_eligible(targets, peer) {
                peers.push((peer.clone()?, score.weight()))?;
            }
        }
        Ok(peers)
    }

    /// The same by a look-up of each target.
    fn eligible_among(&self, targets: &Targets<P>) -> Result<Vec<(P, u64)>, Fault>
    where
        P: Clone,
        requires peers_clone { (x y : P) → P.is_clone x y → y ≡ x }
        requires ordered { IsStrictlySortedBy P.cmp (keys_of self.now.set) }
        ensures ok { IfOk result
            (λ peers. peers.items ≡ weighed (eligible P.cmp (known_by P.cmp self.now) (Some targets.now))) }
        ensures only { IfErr result (λ fault. fault ≡ OutOfMemory) }
    {
        let mut peers = Vec::new(self.alloc);
        for name in targets.names() {
            if let Some((peer, weight)) = self.askable_at(name) {
                peers.push((peer.clone()?, weight))?;
            }
        }
        Ok(peers)
    }

    /// The peer of this name with what it weighs, if it may be asked.
    fn askable_at(&self, name: &P) -> Option<(&P, u64)>
        requires ordered { IsStrictlySortedBy P.cmp (keys_of self.now.set) }
        ensures { option_to_list (option_map (λ p. (p.0.now, p.1)) result)
            ≡ weighed (askable_at P.cmp (known_by P.cmp self.now) name.now) }
    {
        let (peer, score) = self.set.get_key_value(name)?;
        if self.may_be_asked(peer) {
            Some((peer, score.weight()))
        } else {
            None
        }
    }

    /// Whether a peer of the set may be asked for a key with these targets.
    fn is_eligible(&self, targets: Option<&Targets<P>>, peer: &P) -> bool
        ensures { result ≡ is_eligible P.cmp (known_by P.cmp self.now) (option_copied targets.entry) peer.now }
    {
        self.may_be_asked(peer) && is_target(targets, peer)
    }

    /// Whether a peer of the set may be asked for any key.
    fn may_be_asked(&self, peer: &P) -> bool
        ensures { result ≡ may_be_asked P.cmp (known_by P.cmp self.now) peer.now }
    {
        may_be_asked(&self.local, &self.blocked, &self.load, peer)
    }

    /// Hands out the set, where it is at hand.
    pub(super) fn take_pool(&mut self) -> Option<Pool<P>>
        ensures whole { IsWhole P.cmp (known_by P.cmp self.old) result }
        ensures same { self.new ≡ self.old }
    {
        self.pool.take()
    }

    /// Takes the set back.
    pub(super) fn put_pool(&mut self, pool: Option<Pool<P>>)
        requires whole { IsWhole P.cmp (known_by P.cmp self.old) pool }
        ensures same { self.new ≡ self.old }
    {
        self.pool = pool;
    }

    /// Those that are drawn from for a key with these targets: where it has none those at hand, if
    /// they are, else a pool that is made anew.
    ///
    /// The names are cloned; clones are to equal their sources.
    pub(super) fn pool_for(
        &self,
        targets: Option<&Targets<P>>,
        at_hand: &mut Option<Pool<P>>,
    ) -> Result<Pool<P>, Fault>
    where
        P: Clone,
        requires peers_clone { (x y : P) → P.is_clone x y → y ≡ x }
        requires whole { IsWhole P.cmp (known_by P.cmp self.now) at_hand.old }
        ensures ok { IfOk result (λ pool. pool
            ≡ whole (drawn_from P.cmp (known_by P.cmp self.now) (option_copied targets.entry))) }
        ensures whole { IsWhole P.cmp (known_by P.cmp self.now) at_hand.new }
        ensures only { IfErr result (λ fault. fault ≡ OutOfMemory) }
    {
        match targets {
            Some(_) => self.new_pool(targets),
            None => match at_hand.take() {
                Some(all) => Ok(all),
                None => self.new_pool(targets),
            },
        }
    }

    /// The same in a pool that is made anew.
    fn new_pool(&self, targets: Option<&Targets<P>>) -> Result<Pool<P>, Fault>
    where
        P: Clone,
        requires peers_clone { (x y : P) → P.is_clone x y → y ≡ x }
        ensures ok { IfOk result (λ pool. pool
            ≡ whole (drawn_from P.cmp (known_by P.cmp self.now) (option_copied targets.entry))) }
        ensures only { IfErr result (λ fault. fault ≡ OutOfMemory) }
    {
        self.order();
        let peers = match targets {
            Some(_) => self.eligible(targets)?,
            None => self.sampled()?,
        };
        Pool::new(self.alloc, peers)
    }

    /// The peers of the set, with what they weigh for a key without targets.
    fn sampled(&self) -> Result<Vec<(P, u64)>, Fault>
    where
        P: Clone,
        requires peers_clone { (x y : P) → P.is_clone x y → y ≡ x }
        ensures ok { IfOk result (λ peers. peers.items ≡ sampled P.cmp (known_by P.cmp self.now)) }
        ensures only { IfErr result (λ fault. fault ≡ OutOfMemory) }
    {
        let mut peers = Vec::with_capacity(self.alloc, self.set.len())?;
        for (peer, score) in self.set.iter() {
            let weight = if self.may_be_asked(peer) {
                score.weight()
            } else {
                0
            };
            peers.push((peer.clone()?, weight))?;
        }
        Ok(peers)
    }

    /// Takes these peers in place of the last ones. Those that stay keep their scores. Where
    /// memory is refused, nothing changes.
    pub(super) fn reconcile(&mut self, peers: Vec<P>) -> Result<(), Fault>
        ensures ok { OnOk result
            (self.new ≡ record self.old { set = replaced P.cmp self.old.set peers.items }) }
        ensures err { OnErr result (self.new ≡ self.old) }
        ensures only { IfErr result (λ fault. fault ≡ OutOfMemory) }
    {
        let set = rated(self.alloc, &self.set, peers)?;
        self.allowed = count_askable(&self.local, &set, &self.blocked, &self.load);
        self.set = set;
        self.pool = None;
        Ok(())
    }

    /// Forgets who has no request, where they are counted, in time linear in the peers that are.
    pub(super) fn tidy(&mut self)
        ensures { known_by P.cmp self.new ≡ known_by P.cmp self.old }
    {
        tidy(&mut self.load);
    }

    /// Takes these peers as the ones that are blocked. Where memory is refused, nothing changes.
    pub(super) fn set_blocked(&mut self, peers: Vec<P>) -> Result<(), Fault>
        ensures ok { OnOk result
            (self.new ≡ record self.old { blocked = set_of P.cmp peers.items }) }
        ensures err { OnErr result (self.new ≡ self.old) }
        ensures only { IfErr result (λ fault. fault ≡ OutOfMemory) }
    {
        let blocked = distinct(self.alloc, peers)?;
        self.allowed = count_askable(&self.local, &self.set, &blocked, &self.load);
        self.blocked = blocked;
        self.pool = None;
        Ok(())
    }

    /// Takes in what a request to a peer took, in nanoseconds, and gave. A peer that isn't in the
    /// set is passed over.
    pub(super) fn record(&mut self, peer: &P, elapsed: u128, bytes: u64)
        ensures { self.new ≡ record self.old {
          set = observed P.cmp self.old.set peer.now
              (record { elapsed = elapsed; bytes = bytes });
        } }
    {
        if let Some(value) = observe(&mut self.set, peer, elapsed, bytes) {
            revalue(&mut self.pool, peer, value);
        }
    }
}

/// How many peers of a set may be asked, with this local name, these blocked peers and this load.
fn count_askable<P: Ord + Drop>(
    local: &Option<P>,
    set: &BTreeMap<P, Score>,
    blocked: &BTreeSet<P>,
    load: &Option<Load<P>>,
) -> usize
    ensures { result ≡ askable P.cmp (known_by P.cmp (record {
      local = local.now;
      set = set.now.entries;
      blocked = blocked.now.keys;
      counts = load.now;
    })) }
{
    let mut count = 0;
    for (peer, _) in set.iter() {
        if may_be_asked(local, blocked, load, peer) {
            count += 1;
        }
    }
    count
}

/// Whether a peer of a set may be asked, with this local name, these blocked peers and this load.
fn may_be_asked<P: Ord + Drop>(
    local: &Option<P>,
    blocked: &BTreeSet<P>,
    load: &Option<Load<P>>,
    peer: &P,
) -> bool
    ensures { result ≡ may_be_asked P.cmp
        (known_by P.cmp
        (record { local = local.now; set = []; blocked = blocked.now.keys; counts = load.now }))
        peer.now }
{
    !is_local(local, peer) && !blocked.contains(peer) && !is_full(load, peer)
}

/// Whether a peer has as many requests as it may have.
fn is_full<P: Ord + Drop>(load: &Option<Load<P>>, peer: &P) -> bool
    ensures { result ≡ is_full (option_map (loaded P.cmp) load.now) peer.now }
{
    match load {
        Some(load) => load.is_full(peer),
        None => false,
    }
}

/// What a peer of a set weighs, with this local name, these blocked peers and this load.
fn weight<P: Ord + Drop>(
    local: &Option<P>,
    set: &BTreeMap<P, Score>,
    blocked: &BTreeSet<P>,
    load: &Option<Load<P>>,
    peer: &P,
) -> Option<u64>
    ensures { result ≡ weight_in P.cmp (known_by P.cmp (record {
      local = local.now;
      set = set.now.entries;
      blocked = blocked.now.keys;
      counts = load.now;
    })) peer.now }
{
    let score = set.get(peer)?;
    weight_if_asked(local, blocked, load, peer, Some(score.weight()))
}

/// What a peer weighs whose score has this weight, with this local name, these blocked peers and
/// this load.
fn weight_if_asked<P: Ord + Drop>(
    local: &Option<P>,
    blocked: &BTreeSet<P>,
    load: &Option<Load<P>>,
    peer: &P,
    weight: Option<u64>,
) -> Option<u64>
    ensures { result ≡ option_map (λ weight. if may_be_asked P.cmp
        (known_by P.cmp
        (record { local = local.now; set = []; blocked = blocked.now.keys; counts = load.now }))
        peer.now then weight else 0) weight }
{
    let weight = weight?;
    if may_be_asked(local, blocked, load, peer) {
        Some(weight)
    } else {
        Some(0)
    }
}

/// What a full peer weighs that would weigh this: nothing, if it is in the set.
fn full_weight(weight: Option<u64>) -> Option<u64>
    ensures { result ≡ option_map (λ _. 0) weight }
{
    match weight {
        Some(_) => Some(0),
        None => None,
    }
}

/// A peer has one request more, where they are limited. Says whether that fills it. Where memory is
/// refused, nothing changes.
///
/// The name is cloned; clones are to equal their sources.
fn add_to<P: Ord + Clone + Drop>(load: &mut Option<Load<P>>, peer: &P) -> Result<bool, Fault>
    requires peers_clone { (x y : P) → P.is_clone x y → y ≡ x }
    requires room { IfSome load.old (λ c. counted P.cmp c.counts peer.now + 1 < 2 ^ 64) }
    ensures ok { OnOk result (option_map (loaded P.cmp) load.new
        ≡ option_map (one_more P.cmp peer.now) (option_map (loaded P.cmp) load.old)) }
    ensures fills { IfOk result (λ is. is ≡ fills P.cmp peer.now load.old) }
    ensures err { OnErr result (load.new ≡ load.old) }
    ensures only { IfErr result (λ fault. fault ≡ OutOfMemory) }
{
    match load {
        Some(load) => load.add(peer.clone()?),
        None => Ok(false),
    }
}

/// Forgets the peers that have no request, where they are counted.
fn tidy<P: Ord + Drop>(load: &mut Option<Load<P>>)
    ensures { option_map (loaded P.cmp) load.new ≡ option_map (loaded P.cmp) load.old }
{
    if let Some(load) = load {
        load.tidy();
    }
}

/// A peer has one request fewer, where they are limited. Says whether that frees it.
fn remove_from<P: Ord + Drop>(load: &mut Option<Load<P>>, peer: &P) -> bool
    ensures fewer { option_map (loaded P.cmp) load.new
        ≡ option_map (one_fewer P.cmp peer.now) (option_map (loaded P.cmp) load.old) }
    ensures frees { result ≡ frees P.cmp peer.now load.old }
{
    match load {
        Some(load) => load.remove(peer),
        None => false,
    }
}

/// How many peers may be asked, where one weighs this that weighed that before.
fn recounted(allowed: usize, before: Option<u64>, now: Option<u64>) -> usize
    requires room { allowed + 1 < 2 ^ 64 }
    requires some { IsTrue (weighs before) → 0 < allowed }
    ensures { result ≡ recounted before now allowed }
{
    match (weighs(before), weighs(now)) {
        (true, false) => allowed - 1,
        (false, true) => allowed + 1,
        _ => allowed,
    }
}

/// Whether what weighs this is drawn.
fn weighs(weight: Option<u64>) -> bool
    ensures { result ≡ weighs weight }
{
    match weight {
        Some(weight) => weight > 0,
        None => false,
    }
}

/// Takes in what a request to a peer took and gave, and says what its score weighs then, if it is in
/// the set.
fn observe<P: Ord>(set: &mut BTreeMap<P, Score>, peer: &P, elapsed: u128, bytes: u64) -> Option<u64>
    ensures observed { set.new.entries ≡ observed P.cmp set.old.entries peer.now
        (record { elapsed = elapsed; bytes = bytes }) }
    ensures weight { result ≡ option_map
        (λ averages. weight_of (averaged averages (record { elapsed = elapsed; bytes = bytes })))
        (lookup (is_at (P.cmp peer.now)) set.old.entries) }
    ensures some { IfSome result (λ weight. 0 < weight) }
{
    match set.get_mut(peer) {
        Some(score) => {
            score.record(elapsed, bytes);
            Some(score.weight())
        }
        None => None,
    }
}

/// The peer weighs this, if it is one of those at hand.
fn reweigh<P: Ord + Drop>(pool: &mut Option<Pool<P>>, peer: &P, weight: Option<u64>)
    ensures { pool.new ≡ option_map (reweighed P.cmp peer.now weight) pool.old }
{
    if let Some(weight) = weight {
        if let Some(pool) = pool {
            pool.set(peer, weight);
        }
    }
}

/// The peer weighs this, if it is one of those at hand and weighs something.
fn revalue<P: Ord + Drop>(pool: &mut Option<Pool<P>>, peer: &P, value: u64)
    requires some { 0 < value }
    ensures { pool.new ≡ option_map (revalued P.cmp peer.now value) pool.old }
{
    if let Some(pool) = pool {
        pool.revalue(peer, value);
    }
}

/// Whether a peer is the local one.
fn is_local<P: Ord>(local: &Option<P>, peer: &P) -> bool
    ensures { result ≡ is_local P.cmp local.now peer.now }
{
    match local {
        Some(name) => name.cmp(peer).is_eq(),
        None => false,
    }
}

/// Whether a key with these targets may be asked of a peer.
fn is_target<P: Ord + Drop>(targets: Option<&Targets<P>>, peer: &P) -> bool
    ensures { result ≡ is_target P.cmp (option_copied targets.entry) peer.now }
{
    match targets {
        Some(targets) => targets.contains(peer),
        None => true,
    }
}

/// These peers with the scores that they have, each once, the first of equal ones.
fn rated<P: Ord + Drop>(
    alloc: Global,
    old: &BTreeMap<P, Score>,
    peers: Vec<P>,
) -> Result<BTreeMap<P, Score>, AllocError>
    ensures { IfOk result (λ set. set.entries ≡ replaced P.cmp old.now.entries peers.items) }
{
    let mut set = BTreeMap::new(alloc);
    for peer in peers {
        let score = match old.get(&peer) {
            Some(score) => *score,
            None => Score::default(),
        };
        set.insert(peer, score)?;
    }
    Ok(set)
}

/// These peers, each once, the first of equal ones.
fn distinct<P: Ord + Drop>(alloc: Global, peers: Vec<P>) -> Result<BTreeSet<P>, AllocError>
    ensures { IfOk result (λ set. set.keys ≡ set_of P.cmp peers.items) }
{
    let mut set = BTreeSet::new(alloc);
    for peer in peers {
        set.insert(peer)?;
    }
    Ok(set)
}
