//! Retains, as lines.

use crate::log::Log;
use resolver::base::Predicate;
use std::alloc::AllocError;
use std::collections::BTreeSet;

/// Which line says whom a predicate keeps.
#[derive(Drop)]
enum Line<K, S> {
    /// All who ever wanted something stay.
    All,
    /// None of them does.
    Nobody,
    /// All stay but those of this key.
    AllBut(K),
    /// This subscriber stays, of every key.
    Only(S),
    /// No line does.
    Unsaid,
}

/// A retain: whom the predicate keeps of all who ever wanted something.
pub fn put_retain<K, P, S, Q>(log: &mut Log<K, P, S>, keep: &Q) -> Result<(), AllocError>
where
    K: Ord + Clone + Drop,
    P: Ord + Drop,
    S: Ord + Clone + Drop,
    Q: Predicate<K, S>,
{
    match line_of(&log.pairs, keep)? {
        Line::All => {
            log.input("drop-key ")?;
            log.no_key()
        }
        Line::Nobody => {
            log.input("keep-sub ")?;
            log.no_subscriber()
        }
        Line::AllBut(key) => {
            log.input("drop-key ")?;
            log.key(&key)
        }
        Line::Only(subscriber) => {
            log.input("keep-sub ")?;
            log.subscriber(&subscriber)
        }
        Line::Unsaid => log.leave_unsaid("a retain"),
    }
}

/// Which line says this.
fn line_of<K, S, Q>(pairs: &BTreeSet<(K, S)>, keep: &Q) -> Result<Line<K, S>, AllocError>
where
    K: Ord + Clone,
    S: Ord + Clone,
    Q: Predicate<K, S>,
{
    let Some((key, _)) = first_of(pairs, keep, false) else {
        return Ok(Line::All);
    };
    let Some((_, subscriber)) = first_of(pairs, keep, true) else {
        return Ok(Line::Nobody);
    };
    if keeps_all_but(pairs, keep, key) {
        return Ok(Line::AllBut(key.clone()?));
    }
    if keeps_only(pairs, keep, subscriber) {
        return Ok(Line::Only(subscriber.clone()?));
    }
    Ok(Line::Unsaid)
}

/// The first pair that is kept, or that isn't.
fn first_of<'a, K: Ord, S: Ord, Q: Predicate<K, S>>(
    pairs: &'a BTreeSet<(K, S)>,
    keep: &Q,
    kept: bool,
) -> Option<&'a (K, S)> {
    for pair in pairs {
        if keep.keep(&pair.0, &pair.1) == kept {
            return Some(pair);
        }
    }
    None
}

/// Whether all pairs are kept but those of this key.
fn keeps_all_but<K: Ord, S: Ord, Q: Predicate<K, S>>(
    pairs: &BTreeSet<(K, S)>,
    keep: &Q,
    key: &K,
) -> bool {
    for pair in pairs {
        if keep.keep(&pair.0, &pair.1) != (pair.0 != *key) {
            return false;
        }
    }
    true
}

/// Whether the pairs of this subscriber are kept, and no others.
fn keeps_only<K: Ord, S: Ord, Q: Predicate<K, S>>(
    pairs: &BTreeSet<(K, S)>,
    keep: &Q,
    subscriber: &S,
) -> bool {
    for pair in pairs {
        if keep.keep(&pair.0, &pair.1) != (pair.1 == *subscriber) {
            return false;
        }
    }
    true
}
