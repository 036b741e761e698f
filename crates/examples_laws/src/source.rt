//! A loop over an actor that fetches from an opaque source.

ghost use Rattle.std.specs.Prelude.{◌≡◌, ◌≢◌, ◌<◌, ◌^◌, ◌++◌, IfOk, map, not};
ghost use Rattle.std.specs.List.{list_any};
ghost use Rattle.resolver_model.specs.Steps.{stops};
ghost use Rattle.resolver_types.specs.Names.{names};
ghost use Rattle.resolver_model.specs.declared.status.Status.TheVariants.{Failed};
ghost use Rattle.resolver_model_opaque.specs.Opaque.{opening};
ghost use Rattle.resolver_model_opaque.specs.OpaqueInputs.{input_of};
ghost use Rattle.resolver_model_opaque.specs.OpaqueLaws.{HasDemand};
ghost use Rattle.resolver_model_opaque.specs.OpaqueSteps.{Runs, answer_of};

use resolver_actor::base::{Faithful, Fault, Predicate};
use resolver_actor::opaque::laws::{
    opaque_inputs_are_lawful, opaque_keeps_demand, opaque_runs_join,
};
use resolver_actor::opaque::{Actor, Effect, Input};
use std::alloc::Global;

/// An actor's answer to one input.
pub type Answer<K, V, S> = Result<Vec<Effect<K, V, S>>, Fault>;

/// An actor that took inputs, and its answers to them.
pub struct Fed<K: Ord, V, S: Ord, Q> {
    pub actor: Actor<K, V, S, Q>,
    pub answers: Vec<Answer<K, V, S>>,
}

/// Opens an actor that takes two lists of inputs one at a time and a third in one call, up to the first
/// `OutOfMemory` or `Exhausted` among its answers.
///
/// Its rows have the demand of all inputs that were taken, unless it failed.
pub fn feed<K, V, S, Q>(
    alloc: Global,
    delay: u128,
    first: Vec<Input<K, V, S, Q>>,
    second: Vec<Input<K, V, S, Q>>,
    third: Vec<Input<K, V, S, Q>>,
) -> Result<Fed<K, V, S, Q>, Fault>
where
    K: Ord + Faithful + Drop,
    V: Faithful + Drop,
    S: Ord + Faithful + Drop,
    Q: Predicate<K, S> + Drop,
    requires { delay < 2 ^ 94 }
    ensures demand { IfOk result (λ fed. fed.actor.status ≢ Failed
        → HasDemand (names K.cmp S.cmp)
        (map (input_of Q.keeps) (first.items ++ second.items ++ third.items))
        (map answer_of fed.answers.items) fed.actor) }
{
    let mut actor = Actor::new(alloc, delay);
    let (goes, mut answers) = step_each(alloc, &mut actor, first)?;
    if goes {
        let mut more = feed_on(alloc, &mut actor, second, third)?;
        answers.append(&mut more)?;
    }
    opaque_keeps_demand::<K, V, S>();
    opaque_inputs_are_lawful::<K, V, S, Q>();
    opaque_runs_join::<K, V, S>();
    Ok(Fed { actor, answers })
}

/// Has an actor take a list one input at a time, and another in one call.
fn feed_on<K, V, S, Q>(
    alloc: Global,
    actor: &mut Actor<K, V, S, Q>,
    inputs: Vec<Input<K, V, S, Q>>,
    more: Vec<Input<K, V, S, Q>>,
) -> Result<Vec<Answer<K, V, S>>, Fault>
where
    K: Ord + Faithful + Drop,
    V: Faithful + Drop,
    S: Ord + Faithful + Drop,
    Q: Predicate<K, S> + Drop,
    ensures runs { IfOk result (λ answers. Runs (names K.cmp S.cmp) actor.old
        (map (input_of Q.keeps) (inputs.items ++ more.items))
        (map answer_of answers.items) actor.new) }
{
    let (goes, mut answers) = step_each(alloc, actor, inputs)?;
    if goes {
        let mut last = actor.run(more)?;
        answers.append(&mut last)?;
    }
    opaque_runs_join::<K, V, S>();
    Ok(answers)
}

/// Has an actor take inputs one at a time, up to an answer that ends it, and says whether it goes on.
fn step_each<K, V, S, Q>(
    alloc: Global,
    actor: &mut Actor<K, V, S, Q>,
    inputs: Vec<Input<K, V, S, Q>>,
) -> Result<(bool, Vec<Answer<K, V, S>>), Fault>
where
    K: Ord + Faithful + Drop,
    V: Faithful + Drop,
    S: Ord + Faithful + Drop,
    Q: Predicate<K, S> + Drop,
    ensures runs { IfOk result (λ r. Runs (names K.cmp S.cmp) actor.old
        (map (input_of Q.keeps) inputs.items) (map answer_of r.1.items) actor.new) }
    ensures goes { IfOk result (λ r. list_any stops (map answer_of r.1.items) ≡ not r.0) }
{
    opaque_runs_join::<K, V, S>();
    let mut answers = Vec::new(alloc);
    for input in inputs {
        let answer = actor.step(input);
        let ends = ends(&answer);
        answers.push(answer)?;
        if ends {
            return Ok((false, answers));
        }
    }
    Ok((true, answers))
}

/// Whether an actor takes nothing more after this answer.
fn ends<K, V, S>(answer: &Answer<K, V, S>) -> bool
    ensures { result ≡ stops (answer_of answer.now) }
{
    matches!(answer, Err(Fault::OutOfMemory | Fault::Exhausted))
}
