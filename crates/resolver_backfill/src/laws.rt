//! What is true of every plan, and a worked one. Each function says one of these, and does nothing.

ghost use Rattle.std.specs.Prelude.{◌≡◌, List, [], ◌∷◌, Result};
ghost use Rattle.resolver_base.specs.declared.fault.Fault.{Fault};
ghost use Rattle.resolver_base.specs.declared.feedback.Feedback.{Feedback};
ghost use Rattle.resolver_types.specs.Names.{names};
ghost use Rattle.resolver_backfill.specs.Plans.{Plan, fetches_of, settled};
ghost use Rattle.resolver_backfill.specs.Given.{Call, KeepsGiven, Restores};
ghost use Rattle.resolver_backfill.specs.Telling.{TakenTurns};
ghost use Rattle.resolver_backfill.specs.WorkedPlan.{WorkedPlan};

/// Keys are wanted, done with and forgotten, while another subscriber wants two of them.
pub fn worked_plan()
    ensures { WorkedPlan }
{}

/// After any number of calls, a demand that had the plan's pairs alone of its subscriber, and that was
/// told all answers in turn, has those of the plan as it is then, and all other pairs as they are then.
/// Nothing is told of a key that came for the subscriber, whose pair the resolver retired: it is
/// forgotten.
pub fn calls_keep_demand<K: Ord, S: Ord>()
    ensures { (plan : Plan K S) (calls : List (Call K S)) → KeepsGiven (names K.cmp S.cmp) plan calls }
{}

/// What `fill`, `settle` and `settle_below` have a resolver told keeps to the plan, whether it is taken or
/// not.
pub fn what_is_told_keeps_demand<K: Ord, S: Ord>()
    ensures { (plan : Plan K S) (answer : Result Feedback Fault)
        → TakenTurns (names K.cmp S.cmp) plan answer }
{}

/// To ask again for all that is wanted changes nothing, and restores what was lost.
pub fn again_restores<K: Ord, S: Ord>()
    ensures { (plan : Plan K S)
        → Restores (names K.cmp S.cmp) plan (fetches_of plan plan.wanted) }
{}

/// To forget some keys is to forget one after the other.
pub fn keys_are_forgotten_in_turn<K: Ord, S>()
    ensures { (plan : Plan K S) (key : K) (keys : List K) → settled K.cmp plan (key ∷ keys)
        ≡ settled K.cmp (settled K.cmp plan (key ∷ [])) keys }
{}
