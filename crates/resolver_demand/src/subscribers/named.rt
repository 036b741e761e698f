//! Subscribers that are named, to be looked up.

ghost use Rattle.std.specs.Prelude.{◌≡◌, IfOk};
ghost use Rattle.std.specs.Option.{ForSome};
ghost use Rattle.std.specs.BTreeSet.{contains};
ghost use Rattle.resolver_types.specs.Subscribers.{is_among};

use std::alloc::{AllocError, Global};
use std::cmp::Ordering;
use std::collections::BTreeSet;

/// Up to so many names are searched one by one.
const FEW: usize = 16;

/// A list of subscribers, with an index of them where they are many: a look-up takes logarithmic
/// time.
#[derive(Drop)]
pub(super) struct Named<'a, S: Ord> {
    pub(super) list: &'a [(S, u64)],
    index: Option<BTreeSet<S>>,
    ghost indexed: { ForSome index
        (λ index. (s : S) → contains S.cmp index s ≡ is_among S.cmp list.now s) },
}

impl<'a, S: Ord + Clone + Drop> Named<'a, S> {
    /// An index of these. Repeats count once.
    pub(super) fn new(alloc: Global, list: &'a [(S, u64)]) -> Result<Self, AllocError>
        requires { (x y : S) → S.is_clone x y → y ≡ x }
        ensures { IfOk result (λ named. named.list.now ≡ list.now) }
    {
        if list.len() <= FEW {
            return Ok(Named { list, index: None });
        }
        let index = Some(indexed(alloc, list)?);
        Ok(Named { list, index })
    }
}

/// An index of these.
fn indexed<S: Ord + Clone + Drop>(
    alloc: Global,
    list: &[(S, u64)],
) -> Result<BTreeSet<S>, AllocError>
    requires { (x y : S) → S.is_clone x y → y ≡ x }
    ensures { IfOk result
        (λ index. (s : S) → contains S.cmp index s ≡ is_among S.cmp list.now s) }
{
    let mut index = BTreeSet::new(alloc);
    for one in list {
        index.insert(one.0.clone()?)?;
    }
    Ok(index)
}

impl<'a, S: Ord> Named<'a, S> {
    /// Whether this subscriber is named.
    pub(super) fn has(&self, subscriber: &S) -> bool
        ensures { result ≡ is_among S.cmp self.now.list.now subscriber.now }
    {
        match &self.index {
            Some(index) => index.contains(subscriber),
            None => stands_in(self.list, subscriber),
        }
    }
}

/// Whether this subscriber is in a list.
fn stands_in<S: Ord>(list: &[(S, u64)], subscriber: &S) -> bool
    ensures { result ≡ is_among S.cmp list.now subscriber.now }
{
    list.iter()
        .any(|one| subscriber.cmp(&one.0) == Ordering::Equal)
}
