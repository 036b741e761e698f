//! The actor's machine: inputs, effects, and one step after another.

ghost use Rattle.std.specs.Prelude.{◌≡◌, ◌<◌, ◌^◌, ◌++◌, ◌∷◌, [], None, IfErr, IfOk, IfSome, OnOk, map};
ghost use Rattle.std.specs.Map.{keys_of};
ghost use Rattle.resolver_model_opaque.specs.declared.effects.Effect.TheVariants.{Deliver};
ghost use Rattle.resolver_base.specs.declared.fault.Fault.TheVariants.{OutOfMemory};

use resolver_base::{Fault, Numbers};
use resolver_delivery::copies;
use resolver_demand::subscribers::Tracker;
use resolver_messages::FetchKey;
use resolver_model::ruling::Ruling;
use resolver_model::status::{Status, stops};
use resolver_model_opaque::Stages;
use resolver_model_opaque::effects::Effect;
use resolver_model_opaque::handed::{hand_out_again, ruling_of};
use resolver_model_opaque::inputs::{Event, Input};
use resolver_model_opaque::rows::{Row, call_off_all, call_off_each, forget_each, listed};
use resolver_types::{Delivery, NonEmptyVec, Outcome, Predicate};
use std::alloc::Global;
use std::marker::{Model, PhantomData};

/// Fetches keys from one opaque source, each by one attempt at a time, until no subscriber wants
/// it.
///
/// Contracts see it as the opaque machine: one map from key to row, beside the open deliveries and
/// the next numbers.
///
/// How its effects are carried out:
///
/// ```rust
/// fn step(&mut self, event: Event<u32, u64, u16, AllBut>) -> Result<()> {
///     let now = self.now.nanoseconds;
///     for effect in self.actor.step(Input { now, event })? {
///         match effect {
///             Effect::Start { attempt, key } => self.asked.push((attempt, key))?,
///             Effect::Abort { attempt } => self.asked.retain(|one| one.0 != attempt),
///             Effect::Cancel { number } => self.delivered.retain(|one| one.0 != number),
///             Effect::Deliver {
///                 number,
///                 delivery,
///                 value,
///                 ..
///             } => self.delivered.push((number, delivery, value))?,
///         }
///     }
///     Ok(())
/// }
/// ```
#[derive(Drop)]
pub struct Actor<K: Ord, V, S: Ord, Q> {
    demand: Tracker<K, S>,
    stages: Stages<K, S, V>,
    delay: u128,
    status: Status,
    alloc: Global,
    predicate: PhantomData<Q>,
}

impl<K: Ord, V, S: Ord, Q> Model for Actor<K, V, S, Q> {
    ghost use Rattle.std.specs.Prelude.{◌<◌, ◌^◌};
    ghost use Rattle.resolver_model_opaque.specs.Opaque.{Machine};

    ghost Value = { Machine K V S };

    ghost use Rattle.resolver_opaque_actor.specs.OpaqueActor.{IsSound, machine_of};

    ghost view = { machine_of };

    ghost invariant = { IsSound K.cmp };
}

impl<K: Ord + Clone, V: Clone, S: Ord + Clone, Q: Predicate<K, S> + Drop> Actor<K, V, S, Q> {
    ghost use Rattle.std.specs.Prelude.{◌==◌, Err, Some, false, find, is_none, length};
    ghost use Rattle.std.specs.List.{IsDistinct};
    ghost use Rattle.std.specs.List.Sorted.{IsStrictlySortedBy};
    ghost use Rattle.std.specs.Map.{lookup};
    ghost use Rattle.std.specs.Ordering.{is_eq, nat_cmp};
    ghost use Rattle.std.specs.BTreeMap.{is_at};
    ghost use Rattle.resolver_types.specs.Names.{names};
    ghost use Rattle.resolver_types.specs.Subscribers.{attached_all};
    ghost use Rattle.resolver_model_opaque.specs.Opaque.{opening, start_new, fetch_one, fetch, hand_out, fetched, verdict, does, row_of, next_retry, end, retain, start_again, start_all, waiting_by_due};
    ghost use Rattle.resolver_model_opaque.specs.OpaqueSteps.{Goes, Takes, Runs, answer_of, takes_no_memory};
    ghost use Rattle.resolver_model_opaque.specs.OpaqueInputs.{item_of, event_of, input_of};
    ghost use Rattle.resolver_model_opaque.specs.OpaqueFound.{IsAskedFor, IsIdle};
    ghost use Rattle.resolver_model_opaque.specs.OpaqueListed.{listed};
    ghost use Rattle.resolver_model_opaque.specs.OpaqueLaws.{KeepsDemand};

    /// An actor without demand. A key that the source had no value for is asked for again after
    /// `delay` nanoseconds, which is below 2^94.
    pub fn new(alloc: Global, delay: u128) -> Self
        requires { delay < 2 ^ 94 }
        ensures { result ≡ opening delay }
    {
        Self::starting_at(alloc, delay, Numbers::new())
    }

    /// An actor without demand whose attempts are numbered from here, so that one that takes the
    /// place of another can go on after its last number.
    pub fn starting_at(alloc: Global, delay: u128, attempts: Numbers) -> Self
        requires { delay < 2 ^ 94 }
        ensures { result ≡ record (opening delay) { next_attempt = attempts } }
    {
        Actor {
            demand: Tracker::new(alloc),
            stages: Stages::new(alloc, attempts),
            delay,
            status: Status::Running,
            alloc,
            predicate: PhantomData,
        }
    }

    /// Takes one input and answers with its effects, in order.
    ///
    /// `OutOfMemory` and `Exhausted` fail the actor for good: each later step answers `Failed` and
    /// changes nothing, as after `End` each answers `Ended`. A verdict that is passed over takes no
    /// memory. A fetched value, a verdict and each key that `RetriesDue` asks for again take time
    /// logarithmic in the demanded keys; an attempt's place in the table of attempts, which a key
    /// asked for again takes too, costs as much on average, over many of them.
    pub fn step(&mut self, input: Input<K, V, S, Q>) -> Result<Vec<Effect<K, V, S>>, Fault>
        requires keys_clone { (x y : K) → K.is_clone x y → y ≡ x }
        requires values_clone { (x y : V) → V.is_clone x y → y ≡ x }
        requires subscribers_clone { (x y : S) → S.is_clone x y → y ≡ x }
        ensures { Takes (names K.cmp S.cmp) self.old (input_of Q.keeps input)
            (answer_of result) self.new }
    {
        match self.status {
            Status::Running => {}
            Status::Ended => return Err(Fault::Ended),
            Status::Failed => return Err(Fault::Failed),
        }
        let mut effects = Vec::new(self.alloc);
        match self.advance(input.now, input.event, &mut effects) {
            Ok(()) => Ok(effects),
            Err(fault) => {
                self.status = Status::Failed;
                Err(fault)
            }
        }
    }

    /// Takes inputs one after another, with one answer each, up to the first `OutOfMemory` or
    /// `Exhausted` among the answers.
    ///
    /// The call itself answers `OutOfMemory` where the list of answers can't be made: then no
    /// input was taken and nothing has changed.
    pub fn run(
        &mut self,
        inputs: Vec<Input<K, V, S, Q>>,
    ) -> Result<Vec<Result<Vec<Effect<K, V, S>>, Fault>>, Fault>
        requires keys_clone { (x y : K) → K.is_clone x y → y ≡ x }
        requires values_clone { (x y : V) → V.is_clone x y → y ≡ x }
        requires subscribers_clone { (x y : S) → S.is_clone x y → y ≡ x }
        ensures runs { IfOk result (λ answers. Runs (names K.cmp S.cmp) self.old
            (map (input_of Q.keeps) inputs.items) (map answer_of answers.items) self.new) }
        ensures demand { IfOk result (λ answers. KeepsDemand (names K.cmp S.cmp) self.old
            (map (input_of Q.keeps) inputs.items) (map answer_of answers.items) self.new) }
        ensures err { IfErr result
            (λ fault. (fault ≡ Fault.OutOfMemory) × (self.new ≡ self.old)) }
    {
        let mut answers = Vec::with_capacity(self.alloc, inputs.len())?;
        for input in inputs {
            let answer = self.step(input);
            let stops = stops(&answer);
            answers.push_reserved(answer);
            if stops {
                return Ok(answers);
            }
        }
        Ok(answers)
    }

    /// The demanded keys, in their order: each stands in one row, so in one phase. Where memory is
    /// refused nothing has changed.
    pub fn rows(&self) -> Result<Vec<Row<K, S>>, Fault>
        requires keys_clone { (x y : K) → K.is_clone x y → y ≡ x }
        requires subscribers_clone { (x y : S) → S.is_clone x y → y ≡ x }
        ensures rows { IfOk result (λ rows. rows.items ≡ map listed self.now.rows) }
        ensures once { IfOk result
            (λ rows. IsDistinct (λ k l. is_eq (K.cmp k l)) (map (λ row. row.key) rows.items)) }
        ensures ordered { IfOk result
            (λ rows. IsStrictlySortedBy K.cmp (map (λ row. row.key) rows.items)) }
        ensures only { IfErr result (λ fault. fault ≡ Fault.OutOfMemory) }
    {
        listed(self.alloc, &self.demand, self.stages.entries())
    }

    /// The earliest moment at which a waiting key is due, if a key is waiting: a moment that the
    /// actor was handed and its delay after it, so below 2^95. It takes time logarithmic in the
    /// waiting keys.
    pub fn next_retry(&self) -> Option<u128>
        ensures value { result ≡ next_retry self.now.rows }
        ensures soon { IfSome result (λ due. due < 2 ^ 95) }
    {
        self.stages.next_retry()
    }

    fn advance(
        &mut self,
        now: u128,
        event: Event<K, V, S, Q>,
        effects: &mut Vec<Effect<K, V, S>>,
    ) -> Result<(), Fault>
        requires keys_clone { (x y : K) → K.is_clone x y → y ≡ x }
        requires values_clone { (x y : V) → V.is_clone x y → y ≡ x }
        requires subscribers_clone { (x y : S) → S.is_clone x y → y ≡ x }
        requires moment { now < 2 ^ 94 }
        ensures goes { Goes (does (names K.cmp S.cmp) self.old now (event_of Q.keeps event))
            effects.old.items effects.new.items self.new result }
        ensures memory { result ≡ Err Fault.OutOfMemory
            → takes_no_memory self.old now (event_of Q.keeps event) ≡ false }
    {
        match event {
            Event::Fetch(items) => self.fetch(items, effects),
            Event::Retain(keep) => self.retain(&keep, effects),
            Event::Fetched { attempt, value } => self.fetched(now, attempt, value, effects),
            Event::Verdict { number, outcome } => self.verdict(now, number, outcome, effects),
            Event::RetriesDue => self.start_due(now, effects),
            Event::End => self.end(effects),
        }
    }

    fn fetch(
        &mut self,
        items: Vec<FetchKey<K, S, ()>>,
        effects: &mut Vec<Effect<K, V, S>>,
    ) -> Result<(), Fault>
        requires clones { (x y : K) → K.is_clone x y → y ≡ x }
        requires subscribers_clone { (x y : S) → S.is_clone x y → y ≡ x }
        ensures { Goes (fetch (names K.cmp S.cmp) self.old (map item_of items.items))
            effects.old.items effects.new.items self.new result }
    {
        for item in items {
            self.fetch_one(item, effects)?;
        }
        Ok(())
    }

    fn fetch_one(
        &mut self,
        item: FetchKey<K, S, ()>,
        effects: &mut Vec<Effect<K, V, S>>,
    ) -> Result<(), Fault>
        requires clones { (x y : K) → K.is_clone x y → y ≡ x }
        requires subscribers_clone { (x y : S) → S.is_clone x y → y ≡ x }
        ensures { Goes (fetch_one (names K.cmp S.cmp) self.old (item_of item)
            (row_of (names K.cmp S.cmp) self.old item.key))
            effects.old.items effects.new.items self.new result }
    {
        let FetchKey {
            key,
            subscribers,
            ..
        } = item;
        let Some(subscribers) = self.demand.attach(&key, subscribers)? else {
            return Ok(());
        };
        self.start_new(key, subscribers, effects)
    }

    fn start_new(
        &mut self,
        key: K,
        subscribers: NonEmptyVec<(S, u64)>,
        effects: &mut Vec<Effect<K, V, S>>,
    ) -> Result<(), Fault>
        requires clones { (x y : K) → K.is_clone x y → y ≡ x }
        requires subscribers_clone { (x y : S) → S.is_clone x y → y ≡ x }
        requires absent { row_of (names K.cmp S.cmp) self.old key ≡ None }
        ensures { Goes (start_new (names K.cmp S.cmp) self.old key
            (attached_all S.cmp [] subscribers))
            effects.old.items effects.new.items self.new result }
    {
        let wanted = key.clone()?;
        let tracked = key.clone()?;
        self.demand.insert_new(wanted, subscribers)?;
        match self.stages.ask(tracked) {
            Ok(attempt) => tell(effects, Effect::Start { attempt, key }),
            Err(fault) => {
                self.demand.remove(&key);
                Err(fault)
            }
        }
    }

    fn retain(&mut self, keep: &Q, effects: &mut Vec<Effect<K, V, S>>) -> Result<(), Fault>
        requires clones { (x y : K) → K.is_clone x y → y ≡ x }
        ensures { Goes (Some (retain self.old (Q.keeps keep.now)))
            effects.old.items effects.new.items self.new result }
    {
        let emptied = self.demand.retain(keep)?;
        // The keys of both tables are the same, also where memory is refused.
        let called_off = call_off_each(self.stages.entries(), emptied.as_slice(), effects);
        forget_each(&mut self.stages, emptied);
        called_off
    }

    fn fetched(
        &mut self,
        now: u128,
        attempt: u64,
        value: Option<V>,
        effects: &mut Vec<Effect<K, V, S>>,
    ) -> Result<(), Fault>
        requires keys_clone { (x y : K) → K.is_clone x y → y ≡ x }
        requires values_clone { (x y : V) → V.is_clone x y → y ≡ x }
        requires subscribers_clone { (x y : S) → S.is_clone x y → y ≡ x }
        requires moment { now < 2 ^ 94 }
        ensures { Goes (fetched (names K.cmp S.cmp) self.old now attempt value)
            effects.old.items effects.new.items self.new result }
    {
        let Some(held) = self.stages.asked_by(attempt) else {
            return Ok(());
        };
        let key = held.clone()?;
        match value {
            None => self.stages.wait(&key, now + self.delay),
            Some(value) => self.hand_out(key, value, effects),
        }
    }

    /// Hands a new response out.
    fn hand_out(
        &mut self,
        key: K,
        value: V,
        effects: &mut Vec<Effect<K, V, S>>,
    ) -> Result<(), Fault>
        requires keys_clone { (x y : K) → K.is_clone x y → y ≡ x }
        requires values_clone { (x y : V) → V.is_clone x y → y ≡ x }
        requires subscribers_clone { (x y : S) → S.is_clone x y → y ≡ x }
        requires asked { IsAskedFor (row_of (names K.cmp S.cmp) self.old key) }
        ensures { IfSome (row_of (names K.cmp S.cmp) self.old key) (λ row.
            Goes (hand_out (names K.cmp S.cmp) self.old key row.subscribers self.old.next_number
            value false) effects.old.items effects.new.items self.new result) }
    {
        let Some(subscribers) = self.demand.pending(&key)? else {
            unreachable!()
        };
        let delivery = Delivery { key, subscribers };
        let (told, copy) = copies(&delivery, &value)?;
        let number = self.stages.deliver(delivery, copy)?;
        tell(
            effects,
            Effect::Deliver {
                number,
                response: number,
                delivery: told,
                value,
            },
        )
    }

    fn verdict(
        &mut self,
        now: u128,
        number: u64,
        outcome: Option<Outcome>,
        effects: &mut Vec<Effect<K, V, S>>,
    ) -> Result<(), Fault>
        requires keys_clone { (x y : K) → K.is_clone x y → y ≡ x }
        requires values_clone { (x y : V) → V.is_clone x y → y ≡ x }
        requires subscribers_clone { (x y : S) → S.is_clone x y → y ≡ x }
        requires moment { now < 2 ^ 94 }
        ensures goes { Goes (verdict (names K.cmp S.cmp) self.old now number outcome)
            effects.old.items effects.new.items self.new result }
        ensures memory { result ≡ Err Fault.OutOfMemory
            → is_none (lookup (is_at (nat_cmp number)) self.old.deliveries) ≡ false }
    {
        let Ok(completion) = self.stages.completed(number, outcome) else {
            return Ok(());
        };
        if completion.canceled {
            return Ok(());
        }
        let Delivery { key, subscribers } = completion.delivery;
        match ruling_of(&self.stages, outcome, &key) {
            Ruling::Serve { accepted } => {
                let rest = self.demand.remove_delivered(&key, &subscribers)?;
                let Some(subscribers) = rest else {
                    self.stages.remove(&key);
                    return Ok(());
                };
                let delivery = Delivery { key, subscribers };
                hand_out_again(&mut self.stages, delivery, accepted, effects)
            }
            Ruling::Retry => self.stages.wait(&key, now + self.delay),
            Ruling::Retire => {
                self.demand.remove(&key);
                self.stages.remove(&key);
                Ok(())
            }
        }
    }

    fn start_due(&mut self, now: u128, effects: &mut Vec<Effect<K, V, S>>) -> Result<(), Fault>
        requires keys_clone { (x y : K) → K.is_clone x y → y ≡ x }
        ensures goes { Goes (start_all (names K.cmp S.cmp) self.old
            (waiting_by_due now self.old.rows))
            effects.old.items effects.new.items self.new result }
        ensures memory { result ≡ Err Fault.OutOfMemory
            → (length (waiting_by_due now self.old.rows) == 0) ≡ false }
    {
        while let Some(first) = self.stages.due_first(now) {
            let key = first.clone()?;
            self.start_again(key, effects)?;
        }
        Ok(())
    }

    fn start_again(&mut self, key: K, effects: &mut Vec<Effect<K, V, S>>) -> Result<(), Fault>
        requires keys_clone { (x y : K) → K.is_clone x y → y ≡ x }
        requires own { find (λ k. is_eq (K.cmp key k)) (keys_of self.old.rows) ≡ Some key }
        requires idle { IsIdle (row_of (names K.cmp S.cmp) self.old key) }
        ensures { IfSome (row_of (names K.cmp S.cmp) self.old key) (λ row.
            Goes (start_again (names K.cmp S.cmp) self.old key row.subscribers)
            effects.old.items effects.new.items self.new result) }
    {
        let attempt = self.stages.ask_again(&key)?;
        tell(effects, Effect::Start { attempt, key })
    }

    fn end(&mut self, effects: &mut Vec<Effect<K, V, S>>) -> Result<(), Fault>
        ensures { Goes (Some (end self.old))
            effects.old.items effects.new.items self.new result }
    {
        call_off_all(self.stages.entries(), effects)?;
        self.demand.clear();
        self.stages.clear(self.alloc);
        self.status = Status::Ended;
        Ok(())
    }
}

/// One effect more.
fn tell<K: Drop, V: Drop, S: Drop>(
    effects: &mut Vec<Effect<K, V, S>>,
    effect: Effect<K, V, S>,
) -> Result<(), Fault>
    ensures told { OnOk result (effects.new.items ≡ effects.old.items ++ effect ∷ []) }
    ensures only { IfErr result (λ fault. fault ≡ OutOfMemory) }
{
    Ok(effects.push(effect)?)
}
