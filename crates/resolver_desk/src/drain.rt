//! What waits, offered in its order.

ghost use Rattle.std.specs.Prelude.{◌≡◌, ◌++◌, [], List, map, false, None, Some, IsTrue, IfSome, MatchOption};
ghost use Rattle.resolver_messages.specs.Waiting.{Drains, HandsBack, Retains, Takes, Told, item_of};

use resolver_messages::{FetchKey, Message};
use std::collections::VecDeque;

/// Offers tests in their order. One that is handed back is put back, and ends it. Says whether all
/// were taken.
pub(super) fn drain_retains<K: Drop, S: Drop, M: Drop, Q: Drop, F>(
    retains: &mut VecDeque<Q>,
    push: &mut F,
) -> bool
where
    F: FnMut(Message<K, S, M, Q>) -> Option<Message<K, S, M, Q>>,
    requires callable { F.IsAlwaysCallable push.old }
    requires hands_back { HandsBack F.step }
    ensures callable { F.IsAlwaysCallable push.new }
    ensures all { IsTrue result → retains.new.items ≡ [] }
    ensures taken { IsTrue result
        → Takes F.step push.old push.new (map Retains retains.old.items) [] }
    ensures refused { result ≡ false → (behind : List (Told K S M Q)) → Drains F.step push.old
        (map Retains retains.old.items ++ behind) (map Retains retains.new.items ++ behind) }
{
    while let Some(keep) = retains.pop_front() {
        if let Some(back) = offer_retain(push, keep) {
            retains.push_front_reserved(back);
            return false;
        }
    }
    true
}

/// Offers a test, which is answered where it is handed back.
fn offer_retain<K: Drop, S: Drop, M: Drop, Q: Drop, F>(push: &mut F, keep: Q) -> Option<Q>
where
    F: FnMut(Message<K, S, M, Q>) -> Option<Message<K, S, M, Q>>,
    requires callable { F.IsAlwaysCallable push.old }
    requires hands_back { HandsBack F.step }
    ensures callable { F.IsAlwaysCallable push.new }
    ensures same { IfSome result (λ back. back ≡ keep) }
    ensures step { MatchOption result (F.step push.old (Message.Retain keep) None push.new)
        (λ _. (back : _) × F.step push.old (Message.Retain keep) (Some back) push.new) }
{
    let back = push(Message::Retain(keep))?;
    let Message::Retain(keep) = back else {
        unreachable!()
    };
    Some(keep)
}

/// Offers fetches as one batch, which is answered where it is handed back.
pub(super) fn offer_batch<K: Drop, S: Drop, M: Drop, Q: Drop, F>(
    push: &mut F,
    batch: Vec<FetchKey<K, S, M>>,
) -> Option<Vec<FetchKey<K, S, M>>>
where
    F: FnMut(Message<K, S, M, Q>) -> Option<Message<K, S, M, Q>>,
    requires callable { F.IsAlwaysCallable push.old }
    requires hands_back { HandsBack F.step }
    ensures same { IfSome result (λ back. map item_of back.items ≡ map item_of batch.items) }
    ensures step { MatchOption result (F.step push.old (Message.Fetch batch) None push.new)
        (λ _. (back : _) × F.step push.old (Message.Fetch batch) (Some back) push.new) }
{
    let back = push(Message::Fetch(batch))?;
    let Message::Fetch(batch) = back else {
        unreachable!()
    };
    Some(batch)
}
