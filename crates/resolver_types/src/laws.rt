//! How fetches and deliveries compare, whatever their marks are.

ghost use Rattle.std.specs.Prelude.{◌≡◌, ◌&&◌, map};
ghost use Rattle.std.specs.Cmp.Lexicographic.{pointwise, slice_cmp, slice_partial_cmp};
ghost use Rattle.std.specs.Ordering.{is_lt, ordering_then, partial_ordering_then};

use crate::delivery::Delivery;
use crate::fetch::Fetch;
use std::cmp::Ordering;

/// Whether two fetches are equal: of one key, for one subscriber.
pub fn are_equal_fetches<K: PartialEq, S: PartialEq>(
    mine: &Fetch<K, S>,
    theirs: &Fetch<K, S>,
) -> bool
    ensures { result ≡ (K.eq mine.now.key theirs.now.key
        && S.eq mine.now.subscriber theirs.now.subscriber) }
{
    mine == theirs
}

/// How two fetches are ordered: by key, and then by subscriber.
pub fn order_of_fetches<K: Ord, S: Ord>(mine: &Fetch<K, S>, theirs: &Fetch<K, S>) -> Ordering
    ensures { result ≡ ordering_then (K.cmp mine.now.key theirs.now.key)
        (S.cmp mine.now.subscriber theirs.now.subscriber) }
{
    mine.cmp(theirs)
}

/// Whether a fetch is below another one, in that order.
pub fn is_fetch_below<K: Ord, S: Ord>(mine: &Fetch<K, S>, theirs: &Fetch<K, S>) -> bool
    ensures { result ≡ is_lt (ordering_then (K.cmp mine.now.key theirs.now.key)
        (S.cmp mine.now.subscriber theirs.now.subscriber)) }
{
    mine < theirs
}

/// Whether two deliveries are equal: of one key, for equal subscribers, one by one.
pub fn are_equal_deliveries<K: PartialEq, S: PartialEq>(
    mine: &Delivery<K, S>,
    theirs: &Delivery<K, S>,
) -> bool
    ensures { result ≡ (K.eq mine.now.key theirs.now.key && pointwise S.eq
        (map (λ s. s.0) mine.now.subscribers) (map (λ s. s.0) theirs.now.subscribers)) }
{
    mine == theirs
}

/// How two deliveries are ordered: by key, and then by their subscribers.
pub fn order_of_deliveries<K: Ord, S: Ord>(
    mine: &Delivery<K, S>,
    theirs: &Delivery<K, S>,
) -> Ordering
    ensures { result ≡ ordering_then (K.cmp mine.now.key theirs.now.key) (slice_cmp S.cmp
        (map (λ s. s.0) mine.now.subscribers) (map (λ s. s.0) theirs.now.subscribers)) }
{
    mine.cmp(theirs)
}

/// How two deliveries are ordered where keys or subscribers may not compare.
pub fn partial_order_of_deliveries<K: PartialOrd, S: PartialOrd>(
    mine: &Delivery<K, S>,
    theirs: &Delivery<K, S>,
) -> Option<Ordering>
    ensures { result ≡ partial_ordering_then (K.partial_cmp mine.now.key theirs.now.key)
        (slice_partial_cmp S.partial_cmp (map (λ s. s.0) mine.now.subscribers)
        (map (λ s. s.0) theirs.now.subscribers)) }
{
    mine.partial_cmp(theirs)
}
