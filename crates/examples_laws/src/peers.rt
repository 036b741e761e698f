//! A loop over an engine's core.

ghost use Rattle.std.specs.Prelude.{◌≡◌, ◌++◌, ℕ, IfOk, map, not};
ghost use Rattle.std.specs.List.{list_any};
ghost use Rattle.resolver_model.specs.Steps.{stops};
ghost use Rattle.resolver_fetch_scan.specs.Fetcher.{IsTimely};
ghost use Rattle.resolver_model_peer.specs.Parties.{parties};
ghost use Rattle.resolver_model_peer.specs.Peer.{Machine, opening};
ghost use Rattle.resolver_peer_step.specs.EngineSteps.{all_fed};
ghost use Rattle.resolver_peer_step.specs.Said.{answer_of, codec};
ghost use Rattle.resolver_core.specs.Matching.{Matches};
ghost use Rattle.resolver_core.specs.Taking.{Took};
ghost use Rattle.examples_laws.specs.Feeding.{FedWell};

use resolver_core::base::{Faithful, Fault, Predicate, Span};
use resolver_core::p2p::Core;
use resolver_core::p2p::effects::Effect;
use resolver_core::p2p::fetcher::Config;
use resolver_core::p2p::inputs::Input;
use resolver_core::p2p::laws::{cores_take, stays_awake};
use std::alloc::Global;

/// A core's answer to one input.
pub type Answer<K, P, S> = Result<Vec<Effect<K, P, S>>, Fault>;

/// A core that took inputs, and its answers to them.
pub struct Fed<K: Ord, P: Ord, S: Ord, Q> {
    pub core: Core<K, P, S, Q>,
    pub answers: Vec<Answer<K, P, S>>,
}

/// Opens a core that takes two lists of inputs one at a time and a third in one call, up to the first
/// `OutOfMemory` or `Exhausted` among its answers.
pub fn feed<K, P, S, Q>(
    alloc: Global,
    configuration: Config<P>,
    priority_responses: bool,
    first: Vec<Input<K, P, S, Q>>,
    second: Vec<Input<K, P, S, Q>>,
    third: Vec<Input<K, P, S, Q>>,
) -> Result<Fed<K, P, S, Q>, Fault>
where
    K: Span + Faithful + Drop,
    P: Ord + Faithful + Drop,
    S: Ord + Faithful + Drop,
    Q: Predicate<K, S> + Drop,
    requires { IsTimely configuration.fetch_timeout configuration.retry_delay }
    ensures well { IfOk result (λ fed. FedWell (parties K.cmp S.cmp P.cmp)
        (codec K.SIZE K.bytes_of K.read_from) configuration priority_responses
        (all_fed (codec K.SIZE K.bytes_of K.read_from) Q.keeps 0
        (first.items ++ second.items ++ third.items))
        (map answer_of fed.answers.items) fed.core) }
{
    let mut core = Core::new(alloc, configuration, priority_responses);
    let (goes, mut answers) = step_each(alloc, &mut core, first)?;
    if goes {
        let mut more = feed_on(alloc, &mut core, second, third)?;
        answers.append(&mut more)?;
    }
    cores_take::<K, P, S, Q>();
    stays_awake::<K, S, P>();
    Ok(Fed { core, answers })
}

/// Has a core take a list one input at a time, and another in one call.
fn feed_on<K, P, S, Q>(
    alloc: Global,
    core: &mut Core<K, P, S, Q>,
    inputs: Vec<Input<K, P, S, Q>>,
    more: Vec<Input<K, P, S, Q>>,
) -> Result<Vec<Answer<K, P, S>>, Fault>
where
    K: Span + Faithful + Drop,
    P: Ord + Faithful + Drop,
    S: Ord + Faithful + Drop,
    Q: Predicate<K, S> + Drop,
    ensures took { IfOk result (λ answers. (m : Machine K S P) (moment : ℕ)
        → Matches (parties K.cmp S.cmp P.cmp) core.old m
        → Took (parties K.cmp S.cmp P.cmp) (codec K.SIZE K.bytes_of K.read_from) Q.keeps
        m moment (inputs.items ++ more.items) answers.items core.new) }
{
    let (goes, mut answers) = step_each(alloc, core, inputs)?;
    if goes {
        let mut last = core.run(more)?;
        answers.append(&mut last)?;
    }
    cores_take::<K, P, S, Q>();
    Ok(answers)
}

/// Has a core take inputs one at a time, up to an answer that ends it, and says whether it goes on.
fn step_each<K, P, S, Q>(
    alloc: Global,
    core: &mut Core<K, P, S, Q>,
    inputs: Vec<Input<K, P, S, Q>>,
) -> Result<(bool, Vec<Answer<K, P, S>>), Fault>
where
    K: Span + Faithful + Drop,
    P: Ord + Faithful + Drop,
    S: Ord + Faithful + Drop,
    Q: Predicate<K, S> + Drop,
    ensures took { IfOk result (λ r. (m : Machine K S P) (moment : ℕ)
        → Matches (parties K.cmp S.cmp P.cmp) core.old m
        → Took (parties K.cmp S.cmp P.cmp) (codec K.SIZE K.bytes_of K.read_from) Q.keeps
        m moment inputs.items r.1.items core.new) }
    ensures goes { IfOk result (λ r. list_any stops r.1.items ≡ not r.0) }
{
    cores_take::<K, P, S, Q>();
    let mut answers = Vec::new(alloc);
    for input in inputs {
        let answer = core.step(input);
        let ends = ends(&answer);
        answers.push(answer)?;
        if ends {
            return Ok((false, answers));
        }
    }
    Ok((true, answers))
}

/// Whether a core takes nothing more after this answer.
fn ends<K, P, S>(answer: &Answer<K, P, S>) -> bool
    ensures { result ≡ stops answer.now }
{
    matches!(answer, Err(Fault::OutOfMemory | Fault::Exhausted))
}
