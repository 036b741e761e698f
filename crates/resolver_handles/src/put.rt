//! Calls that put one message.

ghost use Rattle.std.specs.Prelude.{◌≡◌, [], ◌∷◌, map, IfOk, List};
ghost use Rattle.resolver_handles.specs.Handles.{PutsOne, is_marked};
ghost use Rattle.resolver_messages.specs.Waiting.{Fetches, Item, Retains, item_of};

use crate::asked::Asked;
use resolver_base::{Faithful, Fault, Feedback};
use resolver_mailbox::mailbox::{Naming, Sender};
use resolver_messages::{FetchKey, Message, Metadata};
use resolver_types::Predicate;
use std::alloc::{AllocError, Global};
use std::hash::Hash;
use std::sync::Wait;

/// Asks for one key.
pub fn ask<T, K, S, M, Q, N, R>(
    alloc: Global,
    sender: &mut Sender<K, S, M, Q, N, R>,
    asked: T,
) -> Result<Feedback, Fault>
where
    T: Asked<K, S, M>,
    K: Ord + Hash + Faithful + Drop,
    S: Ord + Faithful + Drop,
    M: Metadata + Drop,
    Q: Predicate<K, S> + Faithful + Drop,
    N: Naming,
    R: Wait,
    ensures { PutsOne N.is_recorded (Fetches (T.item asked ∷ [])) sender.old result sender.new }
{
    put(sender, only(alloc, asked))
}

/// Asks for several keys by one message, in their order.
pub fn ask_all<T, K, S, M, Q, N, R>(
    alloc: Global,
    sender: &mut Sender<K, S, M, Q, N, R>,
    asked: Vec<T>,
) -> Result<Feedback, Fault>
where
    T: Asked<K, S, M> + Drop,
    K: Ord + Hash + Faithful + Drop,
    S: Ord + Faithful + Drop,
    M: Metadata + Drop,
    Q: Predicate<K, S> + Faithful + Drop,
    N: Naming,
    R: Wait,
    ensures { PutsOne N.is_recorded (Fetches (map T.item asked.items)) sender.old result sender.new }
{
    put(sender, each(alloc, asked))
}

/// Keeps the subscribers that this test keeps, and no other.
pub fn retain<K, S, M, Q, N, R>(
    sender: &mut Sender<K, S, M, Q, N, R>,
    keep: Q,
) -> Result<Feedback, Fault>
where
    K: Ord + Hash + Faithful + Drop,
    S: Ord + Faithful + Drop,
    M: Metadata + Drop,
    Q: Predicate<K, S> + Faithful + Drop,
    N: Naming,
    R: Wait,
    ensures { PutsOne N.is_recorded (Retains keep) sender.old result sender.new }
{
    sender.enqueue(Message::Retain(keep))
}

/// Puts a message of the fetches that were made. Where memory was refused for these, the answer is
/// Closed on a marked share, and `OutOfMemory` on any other.
fn put<K, S, M, Q, N, R>(
    sender: &mut Sender<K, S, M, Q, N, R>,
    fetches: Result<Vec<FetchKey<K, S, M>>, AllocError>,
) -> Result<Feedback, Fault>
where
    K: Ord + Hash + Faithful + Drop,
    S: Ord + Faithful + Drop,
    M: Metadata + Drop,
    Q: Predicate<K, S> + Faithful + Drop,
    N: Naming,
    R: Wait,
    ensures { (items : List (Item K S M))
        → IfOk fetches (λ fetches. map item_of fetches.items ≡ items)
        → PutsOne N.is_recorded (Fetches items) sender.old result sender.new }
{
    if is_marked(sender) {
        return Ok(Feedback::Closed);
    }
    sender.enqueue(Message::Fetch(fetches?))
}

/// Whether a handle was answered Closed.
fn is_marked<K: Ord + Hash, S: Ord, M: Metadata, Q: Predicate<K, S>, N: Naming, R>(
    sender: &Sender<K, S, M, Q, N, R>,
) -> bool
    ensures { result ≡ is_marked sender.now }
{
    match sender.share() {
        Some(share) => share.is_closed(),
        None => false,
    }
}

/// The fetches of a message that asks for one key.
fn only<T: Asked<K, S, M>, K: Drop, S: Drop, M: Drop>(
    alloc: Global,
    asked: T,
) -> Result<Vec<FetchKey<K, S, M>>, AllocError>
    ensures { IfOk result (λ fetches. map item_of fetches.items ≡ T.item asked ∷ []) }
{
    let item = asked.into_item(alloc)?;
    let mut fetches = Vec::with_capacity(alloc, 1)?;
    fetches.push_reserved(item);
    Ok(fetches)
}

/// The fetches of a message that asks for several keys.
fn each<T: Asked<K, S, M> + Drop, K: Drop, S: Drop, M: Drop>(
    alloc: Global,
    asked: Vec<T>,
) -> Result<Vec<FetchKey<K, S, M>>, AllocError>
    ensures { IfOk result (λ fetches. map item_of fetches.items ≡ map T.item asked.items) }
{
    let mut fetches = Vec::with_capacity(alloc, asked.len())?;
    for one in asked {
        fetches.push(one.into_item(alloc)?)?;
    }
    Ok(fetches)
}
