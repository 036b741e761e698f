//! The actor's loop: it turns what is ready into inputs, and carries effects out.

ghost use Rattle.futures.specs.Poll.{OnPending};
ghost use Rattle.futures.specs.Task.{IsArmed, Keeps};

use crate::fetcher::Fetcher;
use crate::hands::Hands;
use futures::task::{Context, Poll};
use futures::{Future, Stream};
use resolver_base::{Faithful, Span};
use resolver_mailbox::mailbox::{Receiver, Unrecorded};
use resolver_messages::Message;
use resolver_opaque_actor::{Actor, Effect, Event, Input};
use resolver_runtime::{Clock, Consumer, Ending, TURNS, Turn, Unwatched, Watcher, poll_moment};
use resolver_types::Predicate;
use std::hash::Hash;
use std::sync::Wait;

/// The next message as an event: the end, once the mailbox is closed and nothing waits.
fn poll_mail<
    K: Ord + Hash + Faithful + Drop,
    V: Drop,
    S: Ord + Faithful + Drop,
    Q: Predicate<K, S> + Faithful + Drop,
    R: Wait + Drop,
>(mail: &mut Receiver<K, S, (), Q, Unrecorded, R>, cx: &mut Context<'_>) -> Poll<Event<K, V, S, Q>>
    ensures armed { OnPending result (IsArmed cx.new) }
    ensures kept { Keeps cx.old cx.new }
{
    match mail.poll_next(cx) {
        Poll::Ready(Some(Ok(Message::Fetch(items)))) => Poll::Ready(Event::Fetch(items)),
        Poll::Ready(Some(Ok(Message::Retain(keep)))) => Poll::Ready(Event::Retain(keep)),
        // A mailbox that isn't recorded takes no memory for a take.
        Poll::Ready(Some(Err(_))) => Poll::Ready(Event::RetriesDue),
        Poll::Ready(None) => Poll::Ready(Event::End),
        Poll::Pending => Poll::Pending,
    }
}

/// An actor with all that it is fed from and that its effects go to, and with what is told of these.
///
/// In each turn it looks for one input, in this order: the end, where memory was refused outside the
/// actor; a value that was fetched; a verdict; a key that waits no longer; a message of the mailbox.
/// A closed mailbox is the end.
#[derive(Drop)]
pub struct Loop<K, V, S, Q, R, W, F, C, T = Unwatched>
where
    K: Ord + Hash,
    S: Ord,
    Q: Predicate<K, S>,
    F: Fetcher,
    C: Consumer,
    C::Outcome: Drop,
{
    pub(crate) actor: Actor<K, V, S, Q>,
    pub(crate) mail: Receiver<K, S, (), Q, Unrecorded, R>,
    pub(crate) clock: W,
    pub(crate) hands: Hands<F, C>,
    pub(crate) watcher: T,
}

impl<K, V, S, Q, R, W, F, C, T> Loop<K, V, S, Q, R, W, F, C, T>
where
    K: Span + Faithful + Drop,
    V: Faithful + Drop,
    S: Ord + Faithful + Drop,
    Q: Predicate<K, S> + Faithful + Drop,
    R: Wait + Drop,
    W: Clock + Drop,
    F: Fetcher<Key = K, Value = V> + Drop,
    C: Consumer<Key = K, Value = V, Subscriber = S> + Drop,
    C::Outcome: Drop,
    T: Watcher<Input<K, V, S, Q>, Effect<K, V, S>> + Drop,
{
    /// The first event that has come.
    fn poll_event(&mut self, cx: &mut Context<'_>) -> Poll<Event<K, V, S, Q>>
        ensures armed { OnPending result (IsArmed cx.new) }
        ensures kept { Keeps cx.old cx.new }
    {
        if self.hands.is_starved {
            return Poll::Ready(Event::End);
        }
        if let Poll::Ready((attempt, value)) = self.hands.attempts.poll_any(cx) {
            return Poll::Ready(Event::Fetched { attempt, value });
        }
        if let Poll::Ready((number, outcome)) = self.hands.judging.poll_verdict(cx) {
            return Poll::Ready(Event::Verdict { number, outcome });
        }
        match self.actor.next_retry() {
            Some(at) if at <= self.clock.now() => return Poll::Ready(Event::RetriesDue),
            _ => {}
        }
        poll_mail(&mut self.mail, cx)
    }

    /// Feeds an input to the actor, and carries out what it answers.
    fn feed(&mut self, input: Input<K, V, S, Q>) -> Option<Ending> {
        self.watcher.takes(&input);
        match self.actor.step(input) {
            Ok(effects) => {
                for effect in effects {
                    self.watcher.wants(&effect);
                    self.hands.carry_out(effect);
                }
                None
            }
            Err(fault) => Ending::of(fault),
        }
    }

    /// Feeds an event, of now.
    fn take(&mut self, event: Event<K, V, S, Q>) -> Turn {
        let ends = matches!(event, Event::End);
        let now = self.clock.now();
        match self.feed(Input { now, event }) {
            Some(ending) => Turn::Over(ending),
            None if !ends => Turn::Again,
            None if self.hands.is_starved => Turn::Over(Ending::OutOfMemory),
            None => Turn::Over(Ending::Complete),
        }
    }

    /// Takes the first input that has come.
    fn poll_turn(&mut self, cx: &mut Context<'_>) -> Poll<Turn>
        ensures armed { OnPending result (IsArmed cx.new) }
        ensures kept { Keeps cx.old cx.new }
    {
        if let Poll::Ready(event) = self.poll_event(cx) {
            return Poll::Ready(self.take(event));
        }
        let due = self.actor.next_retry();
        match poll_moment(&mut self.clock, cx, due) {
            Poll::Ready(()) => Poll::Ready(Turn::Again),
            Poll::Pending => Poll::Pending,
        }
    }

    /// Takes what has come, and is ready once the loop is over, with how it ended, the mailbox closed
    /// and each look dropped. Where nothing has come so far, every source that may give something wakes the task.
    /// After `TURNS` turns it asks to be polled again.
    pub fn poll(&mut self, cx: &mut Context<'_>) -> Poll<Ending>
        ensures armed { OnPending result (IsArmed cx.new) }
        ensures kept { Keeps cx.old cx.new }
    {
        for _ in 0..TURNS {
            match self.poll_turn(cx) {
                Poll::Ready(Turn::Again) => {}
                Poll::Ready(Turn::Over(ending)) => {
                    self.mail.close();
                    self.hands.attempts.end();
                    return Poll::Ready(ending);
                }
                Poll::Pending => return Poll::Pending,
            }
        }
        cx.yield_now()
    }
}

impl<K, V, S, Q, R, W, F, C, T> Future for Loop<K, V, S, Q, R, W, F, C, T>
where
    K: Span + Faithful + Drop,
    V: Faithful + Drop,
    S: Ord + Faithful + Drop,
    Q: Predicate<K, S> + Faithful + Drop,
    R: Wait + Drop,
    W: Clock + Drop,
    F: Fetcher<Key = K, Value = V> + Drop,
    C: Consumer<Key = K, Value = V, Subscriber = S> + Drop,
    C::Outcome: Drop,
    T: Watcher<Input<K, V, S, Q>, Effect<K, V, S>> + Drop,
{
    type Output = Ending;

    fn poll(&mut self, cx: &mut Context<'_>) -> Poll<Ending> {
        Loop::poll(self, cx)
    }
}
