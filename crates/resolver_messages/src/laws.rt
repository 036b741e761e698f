//! What is true of a backlog whatever waits in it.

ghost use Rattle.std.specs.Prelude.{◌≡◌, ◌++◌, ◌∷◌, [], List, Option};
ghost use Rattle.resolver_types.specs.Names.{names};
ghost use Rattle.resolver_types.specs.Targets.{merged_targets};
ghost use Rattle.resolver_messages.specs.Waiting.{Backlog, IsApart, IsRight, Item, Told, handled, queued_all, waiting};
ghost use Rattle.resolver_messages.specs.Fetched.{fetched_targets};

use crate::metadata::Metadata;
use resolver_types::Predicate;

/// On every demand, what waits after a message is taken does what waited and then the message do,
/// where each key stood once, as `Pending::law` says that it does.
pub fn handling_is_right<K: Ord, S: Ord, M: Metadata, Q: Predicate<K, S>>()
    ensures { (backlog : Backlog K S M Q) (message : Told K S M Q)
        → IsApart (names K.cmp S.cmp) backlog.batch
        → IsRight (names K.cmp S.cmp) Q.keeps (waiting backlog ++ message ∷ [])
        (waiting (handled (names K.cmp S.cmp) M.merged Q.keeps backlog message)) }
{}

/// A machine that takes the fetches that wait after a message as one fetch ends with the same
/// targets as one that takes, as one fetch, those that waited before and then the message's, where
/// each key stood once, as `Pending::law` says that it does.
pub fn targets_stay<K: Ord, S: Ord, P: Eq>()
    ensures { (batch items : List (Item K S (Option (List P))))
        (key : K) (was : Option (Option (List P)))
        → IsApart (names K.cmp S.cmp) batch
        → fetched_targets (names K.cmp S.cmp) P.eq key was
        (queued_all (names K.cmp S.cmp) (merged_targets P.eq) batch items)
        ≡ fetched_targets (names K.cmp S.cmp) P.eq key was (batch ++ items) }
{}
