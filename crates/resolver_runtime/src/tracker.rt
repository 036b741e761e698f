//! Tracked keys, with a consumer that judges what is delivered for them.

mod verdicts;

ghost use Rattle.std.specs.Prelude.{◌≡◌, ◌≢◌, ◌≤◌, ◌^◌, [], Bool, ◌+◌, not, length, None, IsTrue, IsSome, IfOk, OnOk, OnErr, IfErr};
ghost use Rattle.std.specs.Option.{option_copied};
ghost use Rattle.resolver_base.specs.Answering.{AnswersBy};
ghost use Rattle.resolver_base.specs.declared.fault.Fault.TheVariants.{OutOfMemory, Exhausted};
ghost use Rattle.resolver_delivery.specs.Entries.{accepted, changed, completed, delivered, inserted, is_accepted, is_tracked, number_of, redelivered, removed, response_changed, response_of, retained, state_of, with_response};
ghost use Rattle.futures.specs.Poll.{IfReady, OnPending};
ghost use Rattle.futures.specs.Task.{Keeps};
ghost use Rattle.resolver_runtime.specs.Polled.{Completes};

use crate::Consumer;
use crate::tracker::verdicts::Verdicts;
use futures::task;
use futures::task::Poll;
use resolver_base::{Fault, Numbers};
use resolver_delivery::{Aborted, Completion, Entries, copies};
use resolver_types::{Delivery, Outcome};
use std::alloc::Global;
use std::marker::Model;

/// Tracked keys with the deliveries of their values, which a consumer judges.
///
/// Contracts see the numbered map of keys and open deliveries, as of `Entries`. A call takes time
/// logarithmic in the number of keys and of open deliveries; a poll is linear in the latter.
#[derive(Drop)]
pub struct Tracker<Con: Consumer, Context, State> {
    consumer: Con,
    entries: Entries<Con::Key, Con::Subscriber, Con::Value, Context, State>,
    verdicts: Verdicts<Con::Outcome>,
    numbers: Numbers,
}

impl<Con: Consumer, Context, State> Model for Tracker<Con, Context, State> {
    ghost use Rattle.resolver_delivery.specs.Entries.{Numbered};

    ghost Value = { Numbered Con.Key Con.Subscriber Con.Value Context State };

    ghost view = { λ a. a.entries };
}

impl<Con: Consumer + Drop, Context: Drop, State: Drop> Tracker<Con, Context, State>
where
    Con::Key: Drop,
    Con::Subscriber: Drop,
    Con::Value: Drop,
    Con::Outcome: Drop,
{
    /// No key and no delivery. The first delivery will have the number 0.
    pub fn new(alloc: Global, consumer: Con) -> Self
        ensures { result ≡ record { keys = []; going = []; next = 0 } }
    {
        Tracker {
            consumer,
            entries: Entries::new(alloc),
            verdicts: Verdicts::new(alloc),
            numbers: Numbers::new(),
        }
    }

    /// Tracks a key, and answers whether it is new. A key that is there keeps its state. Where
    /// memory is refused, nothing changes.
    pub fn insert_state(&mut self, key: Con::Key, state: State) -> Result<bool, Fault>
        ensures ok { OnOk result (self.new ≡ inserted Con.Key.cmp key state self.old) }
        ensures is_new { IfOk result (λ new. new ≡ not (is_tracked Con.Key.cmp self.old key)) }
        ensures err { OnErr result (self.new ≡ self.old) }
        ensures only { IfErr result (λ fault. fault ≡ OutOfMemory) }
    {
        self.entries.insert_state(key, state)
    }

    /// The numbered map by itself, for what else is asked of a key or of a number.
    pub fn entries(&self) -> &Entries<Con::Key, Con::Subscriber, Con::Value, Context, State>
        ensures { result.now ≡ self.now }
    {
        &self.entries
    }

    /// What the caller keeps with a key.
    pub fn state(&self, key: &Con::Key) -> Option<&State>
        ensures { option_copied result ≡ state_of Con.Key.cmp self.now key.now }
    {
        self.entries.state(key)
    }

    /// Whether a key is tracked.
    pub fn contains(&self, key: &Con::Key) -> bool
        ensures { result ≡ is_tracked Con.Key.cmp self.now key.now }
    {
        self.entries.contains(key)
    }

    /// Drops a key, and answers whether it was tracked. Its delivery in progress is canceled, and
    /// stays open until it is polled.
    pub fn remove(&mut self, key: &Con::Key) -> bool
        ensures after { self.new ≡ removed Con.Key.cmp key.now self.old }
        ensures was_there { result ≡ is_tracked Con.Key.cmp self.old key.now }
    {
        self.entries.remove(key)
    }

    /// Drops the keys that aren't kept, and answers how many these were. `keep` is pure.
    pub fn retain<F: Fn(&Con::Key) -> bool>(&mut self, keep: F) -> usize
        requires { F.IsAlwaysCallable keep }
        ensures after { (test : Con.Key → Bool) → AnswersBy F.Fn keep test
            → self.new ≡ retained test self.old }
        ensures count { result + length self.new.keys ≡ length self.old.keys }
    {
        self.entries.retain(keep)
    }

    /// Drops all keys, and answers how many there were.
    pub fn drain(&mut self) -> usize
        ensures after { self.new ≡ record self.old { keys = [] } }
        ensures count { result ≡ length self.old.keys }
    {
        self.entries.drain()
    }

    /// Whether a key has a cached response that was accepted.
    pub fn response_accepted(&self, key: &Con::Key) -> bool
        ensures { result ≡ is_accepted Con.Key.cmp self.now key.now }
    {
        self.entries.response_accepted(key)
    }

    /// Notes that a key's cached response was judged to be right.
    pub fn accept_response(&mut self, key: &Con::Key)
        requires cached { IsSome (response_of Con.Key.cmp self.old key.now) }
        ensures { self.new ≡ response_changed Con.Key.cmp key.now accepted self.old }
    {
        self.entries.accept_response(key);
    }

    /// Forgets a key's cached response, if there is one.
    pub fn discard_response(&mut self, key: &Con::Key)
        ensures { self.new ≡ changed Con.Key.cmp key.now (with_response None) self.old }
    {
        self.entries.discard_response(key);
    }

    /// Closes a number, and drops what its verdict was awaited by. It is open no more, and where its
    /// key still holds it, the key has no delivery in progress then. The answer is `Aborted` for a
    /// number that isn't open, and for a canceled one without a verdict.
    pub fn completed(
        &mut self,
        number: u64,
        verdict: Option<Outcome>,
    ) -> Result<Completion<Con::Key, Con::Subscriber, Context>, Aborted>
        ensures { (result, self.new) ≡ completed Con.Key.cmp self.old number verdict }
    {
        self.verdicts.forget(number);
        self.entries.completed(number, verdict)
    }

    /// Completes the first open delivery on which the consumer has said something, or dropped what it
    /// would say it by, or which is canceled. Of a canceled one the receiver is closed first: what
    /// had come by then is its verdict. Pending where there is no such delivery; then the task is
    /// woken when one of the open ones has a verdict.
    ///
    /// It looks at the open deliveries one after another, in the order of their numbers.
    pub fn poll_completion(
        &mut self,
        cx: &mut task::Context<'_>,
    ) -> Poll<Result<Completion<Con::Key, Con::Subscriber, Context>, Aborted>>
        ensures completes { IfReady result
            (λ answer. Completes Con.Key.cmp self.old answer self.new) }
        ensures pending { OnPending result (self.new ≡ self.old) }
        ensures kept { Keeps cx.old cx.new }
    {
        match self.verdicts.poll(cx, &self.entries) {
            Poll::Ready((number, verdict)) => Poll::Ready(self.completed(number, verdict)),
            Poll::Pending => Poll::Pending,
        }
    }
}

impl<Con: Consumer + Drop, Context: Clone + Drop, State: Drop> Tracker<Con, Context, State>
where
    Con::Key: Drop,
    Con::Subscriber: Drop,
    Con::Value: Clone + Drop,
    Con::Outcome: Drop,
{
    /// Hands a new value to the consumer, for the subscribers of its key, and answers the number of
    /// this delivery. The value is cached, not yet accepted, in place of what was. `Exhausted` is
    /// answered where no number is left, before the consumer is told; then, and where memory is
    /// refused, nothing changes. Memory may still be refused once the consumer took the value: then
    /// nobody awaits its verdict.
    pub fn deliver(
        &mut self,
        delivery: Delivery<Con::Key, Con::Subscriber>,
        context: Context,
        value: Con::Value,
    ) -> Result<u64, Fault>
        requires contexts_clone { (x y : Context) → Context.is_clone x y → y ≡ x }
        requires keys_clone { (x y : Con.Key) → Con.Key.is_clone x y → y ≡ x }
        requires subscribers_clone { (x y : Con.Subscriber) → Con.Subscriber.is_clone x y → y ≡ x }
        requires values_clone { (x y : Con.Value) → Con.Value.is_clone x y → y ≡ x }
        requires tracked { IsTrue (is_tracked Con.Key.cmp self.old delivery.key) }
        requires idle { number_of Con.Key.cmp self.old delivery.key ≡ None }
        ensures number { IfOk result (λ number. number ≡ self.old.next) }
        ensures ok { OnOk result (self.new ≡ delivered Con.Key.cmp delivery context value self.old) }
        ensures err { OnErr result (self.new ≡ self.old) }
        ensures only { IfErr result (λ fault. fault ≢ OutOfMemory
            → (fault ≡ Exhausted) × (2 ^ 64 ≤ self.old.next)) }
    {
        let Some(number) = self.numbers.peek() else {
            return self.entries.deliver(delivery, context, value);
        };
        hand_over(
            &mut self.consumer,
            &mut self.verdicts,
            number,
            &delivery,
            &value,
        )?;
        let begun = self.entries.deliver(delivery, context, value);
        self.settle(number, begun.is_ok());
        begun
    }

    /// Hands the cached value of a key to the consumer once more, and answers the number of this
    /// delivery. It is refused as `deliver` is.
    pub fn redeliver(&mut self, delivery: Delivery<Con::Key, Con::Subscriber>) -> Result<u64, Fault>
        requires contexts_clone { (x y : Context) → Context.is_clone x y → y ≡ x }
        requires keys_clone { (x y : Con.Key) → Con.Key.is_clone x y → y ≡ x }
        requires subscribers_clone { (x y : Con.Subscriber) → Con.Subscriber.is_clone x y → y ≡ x }
        requires values_clone { (x y : Con.Value) → Con.Value.is_clone x y → y ≡ x }
        requires cached { IsSome (response_of Con.Key.cmp self.old delivery.key) }
        requires idle { number_of Con.Key.cmp self.old delivery.key ≡ None }
        ensures number { IfOk result (λ number. number ≡ self.old.next) }
        ensures ok { OnOk result (self.new ≡ redelivered Con.Key.cmp delivery self.old) }
        ensures err { OnErr result (self.new ≡ self.old) }
        ensures only { IfErr result (λ fault. fault ≢ OutOfMemory
            → (fault ≡ Exhausted) × (2 ^ 64 ≤ self.old.next)) }
    {
        let Some(number) = self.numbers.peek() else {
            return self.entries.redeliver(delivery);
        };
        let Some(response) = self.entries.response(&delivery.key) else {
            unreachable!()
        };
        hand_over(
            &mut self.consumer,
            &mut self.verdicts,
            number,
            &delivery,
            &response.value,
        )?;
        let begun = self.entries.redeliver(delivery);
        self.settle(number, begun.is_ok());
        begun
    }

    /// Takes a number whose delivery began; of one that didn't, no verdict is awaited.
    fn settle(&mut self, number: u64, has_begun: bool)
        ensures { self.new ≡ self.old }
    {
        if has_begun {
            self.numbers.take();
        } else {
            self.verdicts.forget(number);
        }
    }
}

impl<Con: Consumer + Drop, Context: Drop> Tracker<Con, Context, ()>
where
    Con::Key: Drop,
    Con::Subscriber: Drop,
    Con::Value: Drop,
    Con::Outcome: Drop,
{
    /// Tracks a key, and answers whether it is new. Where memory is refused, nothing changes.
    pub fn insert(&mut self, key: Con::Key) -> Result<bool, Fault>
        ensures ok { OnOk result (self.new ≡ inserted Con.Key.cmp key tt self.old) }
        ensures is_new { IfOk result (λ new. new ≡ not (is_tracked Con.Key.cmp self.old key)) }
        ensures err { OnErr result (self.new ≡ self.old) }
        ensures only { IfErr result (λ fault. fault ≡ OutOfMemory) }
    {
        self.insert_state(key, ())
    }
}

/// Hands copies to the consumer under a number, and awaits its verdict on them.
fn hand_over<Con: Consumer>(
    consumer: &mut Con,
    verdicts: &mut Verdicts<Con::Outcome>,
    number: u64,
    delivery: &Delivery<Con::Key, Con::Subscriber>,
    value: &Con::Value,
) -> Result<(), Fault>
where
    Con::Key: Drop,
    Con::Subscriber: Drop,
    Con::Value: Clone + Drop,
    Con::Outcome: Drop,
    requires keys_clone { (x y : Con.Key) → Con.Key.is_clone x y → y ≡ x }
    requires subscribers_clone { (x y : Con.Subscriber) → Con.Subscriber.is_clone x y → y ≡ x }
    requires values_clone { (x y : Con.Value) → Con.Value.is_clone x y → y ≡ x }
    ensures only { IfErr result (λ fault. fault ≡ OutOfMemory) }
{
    let (delivery, value) = copies(delivery, value)?;
    let verdict = consumer.deliver(delivery, value)?;
    verdicts.put(number, verdict)
}
