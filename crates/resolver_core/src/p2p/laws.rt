//! What is true of every step and run of a peer machine, and so of whoever steps a core. Each function
//! says one of these, and does nothing.
//!
//! A core that matches a machine does what it does: `Core::step` and `Core::run` say so of each machine
//! that the core matches when they are called, `Core::new` has it match the opening machine, and
//! `Core::law` says that there is one. Whoever steps a core has a run of that machine, however many
//! calls it came about by (`engine_runs_join`), with these answers, bytes included (`runs_are_said`), and
//! what is true of every run is true of it.

ghost use Rattle.resolver_model_peer.specs.Parties.{parties};
ghost use Rattle.resolver_peer_step.specs.Said.{codec};
ghost use Rattle.resolver_core.specs.EngineLaws.{EngineRunsJoin, RunsAreSaid};
ghost use Rattle.resolver_core.specs.Taking.{CoresTake};

use resolver_base::Span;
pub use resolver_model_peer::laws::{
    asked_once, asks_eligible, asks_well, blocked_target, dead_verdicts_pass, earns_once,
    foreign_and_broken_messages, ids_are_new, invalid_response, judges_by_the_run, keeps_demand,
    late_and_stale_responses, limit_one_peer, limit_peer_returns, limit_timeout, no_second_reply,
    passed_over_pass, pays_once, pays_senders, peer_demand, peer_dropped_then_fetched_again,
    peer_late_subscriber, peer_pruned_then_fetched_again, peer_refusals, refused_sends,
    replies_once, responses_are_delivered, rests_after_scans, run_laws, runs_join, serving,
    stays_awake, timeout_and_limits, tries_once, verdicts_repeated,
};
use resolver_types::Predicate;

/// Whoever steps a core, or has it run, in any number of calls, has one run of each machine that the
/// core matched at first, with these answers, bytes included; and what holds of every run holds of it.
pub fn cores_take<K: Span, P: Ord, S: Ord, Q: Predicate<K, S>>()
    ensures { CoresTake (parties K.cmp S.cmp P.cmp) (codec K.SIZE K.bytes_of K.read_from) Q.keeps }
{}

/// A step of an engine is a run of one input, and a run that goes on is one run. A run that ended is the
/// run of more inputs, too.
pub fn engine_runs_join<K: Span, S: Ord, P: Ord>()
    ensures { EngineRunsJoin (parties K.cmp S.cmp P.cmp) (codec K.SIZE K.bytes_of K.read_from) }
{}

/// The answers of a run of an engine are its machine's own, with the bytes of their messages.
pub fn runs_are_said<K: Span, S: Ord, P: Ord>()
    ensures { RunsAreSaid (parties K.cmp S.cmp P.cmp) (codec K.SIZE K.bytes_of K.read_from) }
{}
