//! The engine's core.

ghost use Rattle.std.specs.Prelude.{◌≡◌, ◌≢◌, ◌⊎◌, ℕ, length, map, IfErr, IfOk, Ok, Err};
ghost use Rattle.std.specs.List.{IsDistinct};
ghost use Rattle.std.specs.List.Sorted.{IsStrictlySortedBy};
ghost use Rattle.std.specs.Ordering.{is_eq};
ghost use Rattle.resolver_base.specs.declared.fault.Fault.TheVariants.{OutOfMemory};
ghost use Rattle.resolver_fetch_scan.specs.Fetcher.{IsTimely};
ghost use Rattle.resolver_fetch_scan.specs.FetcherLaws.{AllAre};
ghost use Rattle.resolver_model.specs.declared.status.Status.TheVariants.{Failed};
ghost use Rattle.resolver_model_peer.specs.Parties.{parties};
ghost use Rattle.resolver_model_peer.specs.Peer.{Machine, active_deadline, opening, wake_up};
ghost use Rattle.resolver_core.specs.Asking.{CanBeAnswered};
ghost use Rattle.resolver_core.specs.Ending.{is_end, is_end_event};
ghost use Rattle.resolver_core.specs.EngineLaws.{RunsWell};
ghost use Rattle.resolver_core.specs.Taking.{Took};
ghost use Rattle.resolver_peer_step.specs.EngineSteps.{Takes, all_fed};
ghost use Rattle.resolver_core.specs.Listed.{listed, listed_row};
ghost use Rattle.resolver_core.specs.Phased.{IsPhased};
ghost use Rattle.resolver_core.specs.Matching.{Matches, UnlessFailed, is_final};
ghost use Rattle.resolver_peer_step.specs.Said.{answer_of, codec, fed_of};
ghost use Rattle.resolver_peer_step.specs.Tied.{fetcher_of};

use crate::p2p::counts::{Phases, metrics, phases_of};
use crate::p2p::rows;
use crate::p2p::rows::Row;
use resolver_base::{Fault, Span};
use resolver_fetch::fetcher::Config;
use resolver_metrics::metrics::Metrics;
use resolver_model::status::{Status, stops};
use resolver_model_peer::effects::Effect;
use resolver_model_peer::inputs::{Event, Input};
use resolver_peer_step::parts::Parts;
use resolver_types::Predicate;
use std::alloc::Global;
use std::marker::{Model, PhantomData};

/// Fetches keys from peers, each from one peer at a time, until no subscriber wants it.
///
/// Contracts say of which peer machines it is the code: of each that it matches it does what the
/// machine does.
pub struct Core<K: Ord, P: Ord, S: Ord, Q> {
    parts: Parts<K, P, S>,
    status: Status,
    counted: Metrics,
    predicate: PhantomData<Q>,
}

impl<K: Ord, P: Ord, S: Ord, Q> Model for Core<K, P, S, Q> {
    ghost use Rattle.resolver_model_peer.specs.Parties.{parties};
    ghost use Rattle.resolver_core.specs.Listed.{listed};
    ghost use Rattle.resolver_core.specs.Matching.{Engine, IsTiedUnlessFailed, held_by};

    ghost Value = { Engine K S P };

    ghost view = { λ a. record { held = held_by a.parts; status = a.status } };

    ghost invariant = { λ a. IsTiedUnlessFailed (parties K.cmp S.cmp P.cmp) a.status a.parts };
}

// By hand: docs/PROVING.md says what that saves whoever owns one.
impl<K: Ord + Drop, P: Ord + Drop, S: Ord + Drop, Q: Drop> Drop for Core<K, P, S, Q> {
    fn drop(self) {
        let Self {
            parts: _,
            status: _,
            counted: _,
            predicate: _,
        } = self;
    }
}

impl<K: Span + Drop, P: Ord + Clone + Drop, S: Ord + Clone + Drop, Q: Predicate<K, S> + Drop> Core<
    K,
    P,
    S,
    Q,
> {
    /// An engine without demand, that knows no peer.
    pub fn new(alloc: Global, configuration: Config<P>, priority_responses: bool) -> Self
        requires { IsTimely configuration.fetch_timeout configuration.retry_delay }
        ensures { Matches (parties K.cmp S.cmp P.cmp) result
            (opening configuration priority_responses) }
    {
        Core {
            parts: Parts::new(alloc, configuration, priority_responses),
            status: Status::Running,
            counted: Metrics::init(),
            predicate: PhantomData,
        }
    }

    /// Some machine is matched, unless the engine has failed. This does nothing.
    pub fn law(&self)
        ensures { UnlessFailed self.now.status ((m : Machine K S P)
            × Matches (parties K.cmp S.cmp P.cmp) self.now m) }
    {
        let _status = &self.status;
    }

    /// Takes one input and answers with its effects, in order.
    ///
    /// `OutOfMemory` and `Exhausted` fail the engine for good: each later step answers `Failed` and
    /// changes nothing, as after `End` each answers `Ended`. While a scan expects an answer, an
    /// event is `Busy`; an answer that no scan expects is `Unasked`, and a number past what was
    /// asked for `OutOfRange`: then nothing changes. What is passed over takes no memory. A number is
    /// asked for below a bound above 0.
    pub fn step(&mut self, input: Input<K, P, S, Q>) -> Result<Vec<Effect<K, P, S>>, Fault>
        requires keys_clone { (x y : K) → K.is_clone x y → y ≡ x }
        requires peers_clone { (x y : P) → P.is_clone x y → y ≡ x }
        requires subscribers_clone { (x y : S) → S.is_clone x y → y ≡ x }
        ensures answerable { IfOk result (λ effects. AllAre CanBeAnswered effects.items) }
        ensures takes { (m : Machine K S P) (moment : ℕ) → Matches (parties K.cmp S.cmp P.cmp) self.old m
            → (n : Machine K S P) × Takes (parties K.cmp S.cmp P.cmp)
            (codec K.SIZE K.bytes_of K.read_from) m
            (fed_of (codec K.SIZE K.bytes_of K.read_from) Q.keeps moment input)
            (answer_of result) n × Matches (parties K.cmp S.cmp P.cmp) self.new n }
    {
        match self.status {
            Status::Running => {}
            Status::Ended => return Err(Fault::Ended),
            Status::Failed => return Err(Fault::Failed),
        }
        let ends = is_end(&input);
        let mut effects = Vec::new(self.parts.alloc);
        match self.parts.take(input, &mut effects, &mut self.counted) {
            Ok(()) => {
                if ends {
                    self.status = Status::Ended;
                }
                Ok(effects)
            }
            Err(fault) => {
                if is_final(fault) {
                    self.status = Status::Failed;
                }
                Err(fault)
            }
        }
    }

    /// Takes inputs one after another, with one answer each, up to the first `OutOfMemory` or
    /// `Exhausted` among the answers.
    ///
    /// From a new engine on, the rows have the pairs that were fetched and not since retired; a
    /// response earns its peer at most one credit or one block; requests go to eligible peers, under
    /// ids that no other request holds; no due key is left behind a wake-up while moments never go
    /// back; and a key that was asked for is not asked for again before it has no subscriber or is
    /// retried.
    ///
    /// The call itself answers `OutOfMemory` where the list of answers can't be made: then no
    /// input was taken and nothing has changed.
    pub fn run(
        &mut self,
        inputs: Vec<Input<K, P, S, Q>>,
    ) -> Result<Vec<Result<Vec<Effect<K, P, S>>, Fault>>, Fault>
        requires keys_clone { (x y : K) → K.is_clone x y → y ≡ x }
        requires peers_clone { (x y : P) → P.is_clone x y → y ≡ x }
        requires subscribers_clone { (x y : S) → S.is_clone x y → y ≡ x }
        ensures took { IfOk result (λ answers. (m : Machine K S P) (moment : ℕ)
            → Matches (parties K.cmp S.cmp P.cmp) self.old m
            → Took (parties K.cmp S.cmp P.cmp) (codec K.SIZE K.bytes_of K.read_from) Q.keeps
            m moment inputs.items answers.items self.new) }
        ensures runs { IfOk result (λ answers. (m : Machine K S P) (moment : ℕ)
            → Matches (parties K.cmp S.cmp P.cmp) self.old m
            → RunsWell (parties K.cmp S.cmp P.cmp) (codec K.SIZE K.bytes_of K.read_from) m
            (all_fed (codec K.SIZE K.bytes_of K.read_from) Q.keeps moment inputs.items)
            (map answer_of answers.items) self.new) }
        ensures err { IfErr result
            (λ fault. (fault ≡ OutOfMemory) × (self.new ≡ self.old)) }
    {
        let mut answers = Vec::with_capacity(self.parts.alloc, inputs.len())?;
        for input in inputs {
            let answer = self.step(input);
            let stops = stops(&answer);
            answers.push_reserved(answer);
            if stops {
                return Ok(answers);
            }
        }
        Ok(answers)
    }

    /// The demanded keys, in their order: each stands in one row, so in one phase. Once the engine
    /// has failed the answer is `Failed`. It takes time linear in what is listed, times a logarithm.
    pub fn rows(&self) -> Result<Vec<Row<K, S, P>>, Fault>
        requires keys_clone { (x y : K) → K.is_clone x y → y ≡ x }
        requires peers_clone { (x y : P) → P.is_clone x y → y ≡ x }
        requires subscribers_clone { (x y : S) → S.is_clone x y → y ≡ x }
        ensures rows { (m : Machine K S P) → Matches (parties K.cmp S.cmp P.cmp) self.now m
            → IfOk result (λ rows. rows.items ≡ map listed m.rows) }
        ensures once { IfOk result
            (λ rows. IsDistinct (λ k l. is_eq (K.cmp k l)) (map (λ row. row.key) rows.items)) }
        ensures ordered { IfOk result
            (λ rows. IsStrictlySortedBy K.cmp (map (λ row. row.key) rows.items)) }
        ensures only { IfErr result (λ fault. (fault ≡ OutOfMemory)
            ⊎ ((fault ≡ Fault.Failed) × (self.now.status ≡ Failed))) }
    {
        match self.status {
            Status::Running => rows::rows(&self.parts),
            Status::Ended => rows::rows(&self.parts),
            Status::Failed => Err(Fault::Failed),
        }
    }

    /// The row of a key as `rows` lists it, if the key is demanded. Once the engine has failed the
    /// answer is `Failed`. It takes time logarithmic in the keys, and linear in the key's subscribers
    /// and targets, which are copied.
    pub fn row(&self, key: &K) -> Result<Option<Row<K, S, P>>, Fault>
        requires keys_clone { (x y : K) → K.is_clone x y → y ≡ x }
        requires peers_clone { (x y : P) → P.is_clone x y → y ≡ x }
        requires subscribers_clone { (x y : S) → S.is_clone x y → y ≡ x }
        ensures row { (m : Machine K S P) → Matches (parties K.cmp S.cmp P.cmp) self.now m
            → IfOk result (λ row. row ≡ listed_row (parties K.cmp S.cmp P.cmp) m key.now) }
        ensures only { IfErr result (λ fault. (fault ≡ OutOfMemory)
            ⊎ ((fault ≡ Fault.Failed) × (self.now.status ≡ Failed))) }
    {
        match self.status {
            Status::Running => rows::find(&self.parts, key),
            Status::Ended => rows::find(&self.parts, key),
            Status::Failed => Err(Fault::Failed),
        }
    }

    /// When a scan may do something, if a key waits. It takes time logarithmic in the waiting keys.
    pub fn get_pending_deadline(&self) -> Option<u128>
        ensures { (m : Machine K S P) → Matches (parties K.cmp S.cmp P.cmp) self.now m
            → m.status ≢ Failed → result ≡ wake_up (parties K.cmp S.cmp P.cmp) m }
    {
        self.parts.pending_deadline()
    }

    /// When the time of a request is over next, if there is a request.
    pub fn get_active_deadline(&self) -> Option<u128>
        ensures { (m : Machine K S P) → Matches (parties K.cmp S.cmp P.cmp) self.now m
            → m.status ≢ Failed → result ≡ active_deadline (parties K.cmp S.cmp P.cmp) m }
    {
        self.parts.active_deadline()
    }

    /// What the engine has counted since it was made, and how many keys wait, requests have no
    /// answer and serves are open now.
    pub fn metrics(&self) -> Metrics
        ensures pending { (m : Machine K S P) → Matches (parties K.cmp S.cmp P.cmp) self.now m
            → m.status ≢ Failed
            → result.fetch_pending ≡ length (fetcher_of (parties K.cmp S.cmp P.cmp) m).waiting }
        ensures active { (m : Machine K S P) → Matches (parties K.cmp S.cmp P.cmp) self.now m
            → m.status ≢ Failed
            → result.fetch_active ≡ length (fetcher_of (parties K.cmp S.cmp P.cmp) m).asked }
        ensures serves { (m : Machine K S P) → Matches (parties K.cmp S.cmp P.cmp) self.now m
            → m.status ≢ Failed → result.serve_processing ≡ length m.serves }
    {
        metrics(&self.parts, &self.counted)
    }

    /// How many demanded keys are in each phase now.
    pub fn phases(&self) -> Phases
        ensures { (m : Machine K S P) → Matches (parties K.cmp S.cmp P.cmp) self.now m
            → m.status ≢ Failed → IsPhased (parties K.cmp S.cmp P.cmp) m result }
    {
        phases_of(&self.parts)
    }
}

/// Whether this input ends the engine.
fn is_end<K, P, S, Q>(input: &Input<K, P, S, Q>) -> bool
    ensures { result ≡ is_end input.now }
{
    match input {
        Input::Happens(happening) => is_end_event(&happening.event),
        Input::Answers(_) => false,
    }
}

fn is_end_event<K, P, S, Q>(event: &Event<K, P, S, Q>) -> bool
    ensures { result ≡ is_end_event event.now }
{
    matches!(event, Event::End)
}

/// Whether a step that was refused so ends all later ones.
fn is_final(fault: Fault) -> bool
    ensures { result ≡ is_final fault }
{
    matches!(fault, Fault::OutOfMemory | Fault::Exhausted)
}
