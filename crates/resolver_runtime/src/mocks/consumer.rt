//! A consumer that tells its test what it took.

ghost use Rattle.std.specs.Prelude.{◌≡◌, [], IfErr, IfOk, OnErr, OnOk};
ghost use Rattle.std.specs.BTreeMap.{insert_entry, is_at};
ghost use Rattle.std.specs.Map.{lookup, remove_entry};
ghost use Rattle.resolver_base.specs.declared.fault.Fault.TheVariants.{OutOfMemory};
ghost use Rattle.resolver_runtime.specs.Verdict.{is_right};

use crate::traits::consumer::Consumer as Judge;
use futures::channel::mpsc::SendError;
use futures::channel::{mpsc, oneshot};
use resolver_base::{Fault, Span};
use resolver_types::Delivery;
use std::alloc::Global;
use std::collections::BTreeMap;
use std::marker::{Model, PhantomData};

/// Says at once of each value whether it is right: it is where none is expected under its key, and
/// where it equals the one that is. What is right is sent to the test with its key.
///
/// Contracts see it as the values that are expected, in the order of their keys.
#[derive(Drop)]
pub struct Consumer<R: Ord, V, S> {
    alloc: Global,
    expected: BTreeMap<R, V>,
    taken: mpsc::UnboundedSender<(R, V)>,
    subscribers: PhantomData<S>,
}

impl<R: Ord, V, S> Model for Consumer<R, V, S> {
    ghost use Rattle.std.specs.Prelude.{List};

    ghost Value = { List (R × V) };

    ghost view = { λ a. a.expected.entries };
}

impl<R: Ord + Drop, V: Drop, S> Consumer<R, V, S> {
    /// A consumer that expects nothing, and what receives the keys and values that it takes.
    pub fn new(alloc: Global) -> Result<(Self, mpsc::UnboundedReceiver<(R, V)>), Fault>
        ensures none { IfOk result (λ ends. ends.0 ≡ []) }
        ensures only { IfErr result (λ fault. fault ≡ OutOfMemory) }
    {
        let (taken, receiver) = mpsc::unbounded(alloc)?;
        let consumer = Consumer {
            alloc,
            expected: BTreeMap::new(alloc),
            taken,
            subscribers: PhantomData,
        };
        Ok((consumer, receiver))
    }

    /// A consumer that expects nothing, and tells nobody what it takes.
    pub fn dummy(alloc: Global) -> Result<Self, Fault>
        ensures none { IfOk result (λ consumer. consumer ≡ []) }
        ensures only { IfErr result (λ fault. fault ≡ OutOfMemory) }
    {
        let (consumer, _) = Consumer::new(alloc)?;
        Ok(consumer)
    }

    /// Expects this value under this key, in place of another. Where memory is refused, nothing
    /// changes.
    pub fn add_expected(&mut self, key: R, value: V) -> Result<(), Fault>
        ensures ok { OnOk result (self.new ≡ insert_entry R.cmp self.old key value) }
        ensures err { OnErr result (self.new ≡ self.old) }
        ensures only { IfErr result (λ fault. fault ≡ OutOfMemory) }
    {
        self.expected.insert(key, value)?;
        Ok(())
    }

    /// Takes out the value that is expected under this key, if there is one. Then any value is
    /// right there.
    pub fn pop_expected(&mut self, key: &R) -> Option<V>
        ensures value { result ≡ lookup (is_at (R.cmp key.now)) self.old }
        ensures rest { self.new ≡ remove_entry (is_at (R.cmp key.now)) self.old }
    {
        self.expected.remove(key)
    }
}

impl<R: Ord, V: PartialEq, S> Consumer<R, V, S> {
    /// Whether this value is right under this key.
    fn is_right(&self, key: &R, value: &V) -> bool
        ensures { result ≡ is_right V.eq (lookup (is_at (R.cmp key.now)) self.now) value.now }
    {
        match self.expected.get(key) {
            Some(expected) => expected == value,
            None => true,
        }
    }
}

impl<R, V, S> Judge for Consumer<R, V, S>
where
    R: Span + Drop + 'static,
    V: PartialEq + Drop + 'static,
    S: Clone + Eq + Drop + 'static,
{
    type Key = R;

    type Value = V;

    type Subscriber = S;

    type Outcome = bool;

    /// Says whether the value is right, and sends what is right with its key to the test, if it
    /// still listens. What is expected stays.
    fn deliver(
        &mut self,
        delivery: Delivery<R, S>,
        value: V,
    ) -> Result<oneshot::Receiver<bool>, Fault>
        ensures same { self.new ≡ self.old }
        ensures only { IfErr result (λ fault. fault ≡ OutOfMemory) }
    {
        let (verdict, receiver) = oneshot::channel(self.alloc)?;
        let is_right = self.is_right(&delivery.key, &value);
        if is_right {
            if let Err(unsent) = self.taken.unbounded_send((delivery.key, value)) {
                if matches!(unsent.into_send_error(), SendError::OutOfMemory) {
                    return Err(Fault::OutOfMemory);
                }
            }
        }
        let _ = verdict.send(is_right);
        Ok(receiver)
    }
}
