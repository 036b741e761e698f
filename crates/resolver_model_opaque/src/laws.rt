//! Worked runs of the opaque machine's definition, and laws of all its runs. Each function says one of
//! them, and does nothing.

ghost use Rattle.resolver_types.specs.Names.{names};
ghost use Rattle.resolver_model_opaque.specs.OpaqueLaws.{DeadVerdictsPass, InputsAreLawful, RunsKeepDemand};
ghost use Rattle.resolver_model_opaque.specs.OpaqueSteps.{RunsJoin};
ghost use Rattle.resolver_model_opaque.specs.OpaqueWorked.{OpaqueFirstRun, OpaqueWaits, OpaqueRetry, LateSubscriber, DroppedThenFetchedAgain, PrunedThenFetchedAgain, Outcomes, Ends};

use resolver_types::Predicate;

/// A fetch, its value, and a verdict that completes it.
pub fn opaque_first_run()
    ensures { OpaqueFirstRun }
{}

/// A key that the source has no value for waits.
pub fn opaque_waits()
    ensures { OpaqueWaits }
{}

/// A waiting key is asked for again once it is due.
pub fn opaque_retry()
    ensures { OpaqueRetry }
{}

/// A subscriber that comes while a response is judged gets the same response.
pub fn late_subscriber()
    ensures { LateSubscriber }
{}

/// A verdict for a key that was dropped meanwhile changes nothing.
pub fn dropped_then_fetched_again()
    ensures { DroppedThenFetchedAgain }
{}

/// A subscriber that was pruned and came again is named by the older delivery.
pub fn pruned_then_fetched_again()
    ensures { PrunedThenFetchedAgain }
{}

/// Each outcome retires the key or has it wait.
pub fn outcomes()
    ensures { Outcomes }
{}

/// An end calls everything off.
pub fn ends()
    ensures { Ends }
{}

/// A verdict that is not live closes its number and does nothing else.
pub fn dead_verdicts_pass<K: Ord, V, S: Ord>()
    ensures { DeadVerdictsPass (names K.cmp S.cmp) V }
{}

/// Whoever steps the opaque machine from an opening state, in one run or in many, has the demand of
/// all inputs in its rows, as long as it did not fail.
pub fn opaque_keeps_demand<K: Ord, V, S: Ord>()
    ensures { RunsKeepDemand (names K.cmp S.cmp) V }
{}

/// Inputs of the code are as the laws of demand want them, by their types.
pub fn opaque_inputs_are_lawful<K: Ord, V, S: Ord, Q: Predicate<K, S>>()
    ensures { InputsAreLawful (names K.cmp S.cmp) V Q.keeps }
{}

/// A step of the opaque machine is a run of one input, and a run that goes on is one run. A run that
/// ended is the run of more inputs, too.
pub fn opaque_runs_join<K: Ord, V, S: Ord>()
    ensures { RunsJoin (names K.cmp S.cmp) V }
{}
