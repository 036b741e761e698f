//! What a resolver hands out.

ghost use Rattle.std.specs.Prelude.{◌≡◌, IfOk, map};
ghost use Rattle.std.specs.Ordering.{on};
ghost use Rattle.std.specs.Cmp.Lexicographic.{slice_cmp, slice_partial_cmp, pointwise, lists_agrees, lists_po, lists_ties};
ghost use Rattle.std.specs.Cmp.{both_tied, on_po, then_agrees, then_po};
ghost use Rattle.std.specs.Cmp.Rules.{comparing};
ghost use Rattle.std.specs.Ordering.{then_cmp, partial_ordering_then, eq_of_both};
ghost use Rattle.std.proofs.Common.{rules};

use crate::non_empty_vec::NonEmptyVec;
use std::alloc::AllocError;
use std::cmp::Ordering;

/// A value's key, and the subscribers that it is handed to.
///
/// Deliveries compare by key and then by the subscribers in their order, of which a shorter equal
/// beginning is less; marks are not looked at.
#[derive(Clone, Debug, Drop)]
pub struct Delivery<K, S> {
    /// The data that was wanted.
    pub key: K,
    /// Who wants it, with the trace marks.
    pub subscribers: NonEmptyVec<(S, u64)>,
}

impl<K: Clone, S: Clone> Delivery<K, S> {
    /// A delivery that is the same, its marks too. Clones of key and subscribers are to equal them.
    pub fn clone(&self) -> Result<Self, AllocError>
        requires keys_clone { (x y : K) → K.is_clone x y → y ≡ x }
        requires subscribers_clone { (x y : S) → S.is_clone x y → y ≡ x }
        ensures same { IfOk result (λ delivery. delivery ≡ self.now) }
    {
        Ok(Delivery {
            key: self.key.clone()?,
            subscribers: self.subscribers.clone()?,
        })
    }
}

impl<K: PartialEq, S: PartialEq> PartialEq for Delivery<K, S> {
    ghost eq = { eq_of_both (on (λ d. d.key) K.eq) (on (λ d. map (λ s. s.0) d.subscribers) (pointwise S.eq)) };

    ghost laws = { Prim.search (comparing, rules) depth 9 };

    fn eq(&self, other: &Self) -> bool {
        self.key == other.key
            && are_equal(self.subscribers.as_slice(), other.subscribers.as_slice())
    }
}

impl<K: Eq, S: Eq> Eq for Delivery<K, S> {
    ghost laws = { Prim.search (comparing, rules) depth 9 };
}

impl<K: Ord, S: Ord> Ord for Delivery<K, S> {
    ghost cmp = { then_cmp (on (λ d. d.key) K.cmp) (on (λ d. map (λ s. s.0) d.subscribers) (slice_cmp S.cmp)) };

    ghost total = { Prim.search (comparing, rules) depth 9 };

    ghost matches_partial_cmp = { then_agrees (λ d e. K.matches_partial_cmp d.key e.key) (λ d e. lists_agrees S.matches_partial_cmp (map (λ s. s.0) d.subscribers) (map (λ s. s.0) e.subscribers)) };

    ghost matches_eq = { λ d e. both_tied _ _ _ (slice_cmp S.cmp (map (λ s. s.0) d.subscribers) (map (λ s. s.0) e.subscribers)) (K.matches_eq d.key e.key) (lists_ties S.cmp S.matches_eq (map (λ s. s.0) d.subscribers) (map (λ s. s.0) e.subscribers)) };

    fn cmp(&self, other: &Self) -> Ordering {
        match self.key.cmp(&other.key) {
            Ordering::Equal => order_of(self.subscribers.as_slice(), other.subscribers.as_slice()),
            order => order,
        }
    }
}

impl<K: PartialOrd, S: PartialOrd> PartialOrd for Delivery<K, S> {
    ghost partial_cmp = { λ d e. partial_ordering_then (K.partial_cmp d.key e.key) (slice_partial_cmp S.partial_cmp (map (λ s. s.0) d.subscribers) (map (λ s. s.0) e.subscribers)) };

    ghost laws = { then_po (on_po (λ d. d.key) K.PartialOrd.laws) (on_po (λ d. map (λ s. s.0) d.subscribers) (lists_po S.PartialOrd.laws)) };

    fn partial_cmp(&self, other: &Self) -> Option<Ordering> {
        match self.key.partial_cmp(&other.key) {
            Some(Ordering::Equal) => {
                partial_order_of(self.subscribers.as_slice(), other.subscribers.as_slice())
            }
            order => order,
        }
    }
}

/// Whether both lists have equal subscribers, one by one.
fn are_equal<S: PartialEq>(mine: &[(S, u64)], theirs: &[(S, u64)]) -> bool
    ensures { result ≡ pointwise S.eq (map (λ s. s.0) mine.now) (map (λ s. s.0) theirs.now) }
{
    if mine.len() != theirs.len() {
        return false;
    }
    for i in 0..mine.len() {
        if mine[i].0 != theirs[i].0 {
            return false;
        }
    }
    true
}

/// How two lists compare by their subscribers: the first that differ decide, and of equal
/// beginnings the shorter one is less.
fn order_of<S: Ord>(mine: &[(S, u64)], theirs: &[(S, u64)]) -> Ordering
    ensures { result ≡ slice_cmp S.cmp (map (λ s. s.0) mine.now) (map (λ s. s.0) theirs.now) }
{
    for i in 0..mine.len() {
        if i == theirs.len() {
            return Ordering::Greater;
        }
        match mine[i].0.cmp(&theirs[i].0) {
            Ordering::Equal => {}
            order => return order,
        }
    }
    if mine.len() == theirs.len() {
        Ordering::Equal
    } else {
        Ordering::Less
    }
}

/// The same where some subscribers may not compare: none, where the first that aren't equal don't.
fn partial_order_of<S: PartialOrd>(mine: &[(S, u64)], theirs: &[(S, u64)]) -> Option<Ordering>
    ensures { result ≡ slice_partial_cmp S.partial_cmp (map (λ s. s.0) mine.now)
        (map (λ s. s.0) theirs.now) }
{
    for i in 0..mine.len() {
        if i == theirs.len() {
            return Some(Ordering::Greater);
        }
        match mine[i].0.partial_cmp(&theirs[i].0) {
            Some(Ordering::Equal) => {}
            order => return order,
        }
    }
    if mine.len() == theirs.len() {
        Some(Ordering::Equal)
    } else {
        Some(Ordering::Less)
    }
}
