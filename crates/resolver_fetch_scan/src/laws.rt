//! What holds of every scan, by the fetcher's definition. Each function says one law, and does nothing. They are
//! no part of the surface.

ghost use Rattle.resolver_fetch_scan.specs.EligibleLaws.{EligibleMeans};
ghost use Rattle.resolver_fetch_scan.specs.FetcherLaws.{ChoosesBelow, KeepsWeights, NeedsPairs, TriesAll, TriesPairs, WakesLater};
ghost use Rattle.resolver_fetch_scan.specs.Orders.{orders};
ghost use Rattle.resolver_fetch_scan.specs.TrailLaws.{TrailLaw};

/// Exactly the peers of the latest set are eligible for a key that aren't local, blocked or full, and are
/// among its targets, where it has such.
pub fn eligible_means<K: Ord, P: Ord>()
    ensures { EligibleMeans (orders K.cmp P.cmp) }
{}

/// A scan that ends without an accepted request has tried each eligible peer of each due key.
pub fn tries_all<K: Ord, P: Ord>()
    ensures { TriesAll (orders K.cmp P.cmp) }
{}

/// A scan that takes answers while nothing else changes tries pairs of a due key and an eligible
/// peer alone, and none twice.
pub fn tries_pairs<K: Ord, P: Ord>()
    ensures { TriesPairs (orders K.cmp P.cmp) }
{}

/// Where a scan ends in vain that met no limit at or before its moment, the wake-up is later.
pub fn wakes_later<K: Ord, P: Ord>()
    ensures { WakesLater (orders K.cmp P.cmp) }
{}

/// A scan leaves every weight as it was.
pub fn keeps_weights<K: Ord, P: Ord>()
    ensures { KeepsWeights (orders K.cmp P.cmp) }
{}

/// A scan needs no more of its trail than which pairs were tried, and the least limit.
pub fn needs_pairs<K: Ord, P: Ord>()
    ensures { NeedsPairs (orders K.cmp P.cmp) }
{}

/// What each call of a scan promises: it tries pairs of a due key and an eligible peer alone, none twice;
/// where it ends the scan without an accepted request, all of them were tried, and it wakes later; and it leaves
/// every weight but that of a peer that it makes full.
pub fn trail_law<K: Ord, P: Ord>()
    ensures { TrailLaw (orders K.cmp P.cmp) }
{}

/// A number chooses a peer exactly where it is below the asked bound.
pub fn chooses_below<P: Ord>()
    ensures { ChoosesBelow P }
{}
