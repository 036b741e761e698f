//! The engine's loop: it turns what is ready into inputs, and carries effects out.

ghost use Rattle.futures.specs.Poll.{OnPending};
ghost use Rattle.futures.specs.Task.{IsArmed, Keeps};

use crate::p2p::hands::Hands;
use crate::p2p::mail::{Mail, poll_mail};
use crate::p2p::monitor::Shown;
use bytes::Bytes;
use futures::Future;
use futures::task::{Context, Poll};
use resolver_base::{Draws, Faithful, PublicKey, Sender, Span};
use resolver_core::p2p::Core;
use resolver_model_peer::effects::Effect;
use resolver_model_peer::inputs::{Event, Happening, Input};
use resolver_runtime::{
    Blocker, Clock, Consumer, Ending, Producer, Provider, Receiver, TURNS, Turn, Unwatched,
    Watcher, earlier, poll_moment,
};
use resolver_types::Predicate;
use std::hash::Hash;
use std::sync::Wait;

/// Whether this deadline has come.
fn is_due(clock: &impl Clock, deadline: Option<u128>) -> bool {
    match deadline {
        Some(at) => at <= clock.now(),
        None => false,
    }
}

/// An engine's core with all that it is fed from and that its effects go to, and with what is told of these.
///
/// In each turn it looks for one input, in this order: the answer that a scan waits for; the end,
/// where memory was refused outside the core; a set of peers; a blocked set; a request whose time is
/// over; a verdict; a message of the mailbox; a key whose time has come; bytes of the producer;
/// a message of a peer. A closed source of sets, mailbox or network is the end.
#[derive(Drop)]
pub struct Loop<P, D, B, K, S, C, O, Q, R, X, Y, W, G, T = Unwatched>
where
    P: Ord + Faithful + Drop,
    K: Ord + Hash,
    S: Ord,
    C: Consumer,
    C::Outcome: Drop,
    Q: Predicate<K, S>,
{
    pub(crate) core: Core<K, P, S, Q>,
    pub(crate) shown: Option<Shown<K, P, S>>,
    pub(crate) mail: Mail<K, P, S, Q, R>,
    pub(crate) hands: Hands<D, B, C, O, X, G>,
    pub(crate) receiver: Y,
    pub(crate) clock: W,
    pub(crate) watcher: T,
}

impl<P, D, B, K, S, C, O, Q, R, X, Y, W, G, T> Loop<P, D, B, K, S, C, O, Q, R, X, Y, W, G, T>
where
    P: PublicKey + Faithful + Drop,
    D: Provider<PublicKey = P> + Drop,
    B: Blocker<PublicKey = P> + Drop,
    K: Span + Faithful + Drop,
    S: Ord + Faithful + Drop,
    C: Consumer<Key = K, Value = Bytes, Subscriber = S> + Drop,
    C::Outcome: Drop,
    O: Producer<Key = K> + Drop,
    Q: Predicate<K, S> + Faithful + Drop,
    R: Wait + Drop,
    X: Sender<PublicKey = P> + Drop,
    Y: Receiver<PublicKey = P> + Drop,
    W: Clock + Drop,
    G: Draws + Drop,
    T: Watcher<Input<K, P, S, Q>, Effect<K, P, S>> + Drop,
{
    /// The first event that has come.
    fn poll_event(&mut self, cx: &mut Context<'_>) -> Poll<Event<K, P, S, Q>>
        ensures armed { OnPending result (IsArmed cx.new) }
        ensures kept { Keeps cx.old cx.new }
    {
        if let Poll::Ready(event) = self.hands.poll_peers(cx) {
            return Poll::Ready(event);
        }
        if is_due(&self.clock, self.core.get_active_deadline()) {
            return Poll::Ready(Event::ActiveDue);
        }
        if let Poll::Ready((number, outcome)) = self.hands.judging.poll_verdict(cx) {
            return Poll::Ready(Event::Verdict { number, outcome });
        }
        if let Poll::Ready(event) = poll_mail(&mut self.mail, cx) {
            return Poll::Ready(event);
        }
        if is_due(&self.clock, self.core.get_pending_deadline()) {
            return Poll::Ready(Event::PendingDue);
        }
        if let Poll::Ready((serve, value)) = self.hands.serving.poll_served(cx) {
            return Poll::Ready(Event::Served { serve, value });
        }
        match self.receiver.poll_recv(cx) {
            Poll::Ready(Some((peer, bytes))) => Poll::Ready(Event::Net { peer, bytes }),
            Poll::Ready(None) => Poll::Ready(Event::End),
            Poll::Pending => Poll::Pending,
        }
    }

    /// Ready once the earlier of the two deadlines has come.
    fn poll_deadlines(&mut self, cx: &mut Context<'_>) -> Poll<()>
        ensures kept { Keeps cx.old cx.new }
    {
        let active = self.core.get_active_deadline();
        let pending = self.core.get_pending_deadline();
        poll_moment(&mut self.clock, cx, earlier(active, pending))
    }

    /// Feeds an input to the core, and carries out what it answers.
    fn feed(&mut self, input: Input<K, P, S, Q>) -> Option<Ending> {
        self.watcher.takes(&input);
        match self.core.step(input) {
            Ok(effects) => {
                for effect in effects {
                    self.watcher.wants(&effect);
                    self.hands.carry_out(effect);
                }
                None
            }
            Err(fault) => Ending::of(fault),
        }
    }

    /// Feeds an event, of now.
    fn take(&mut self, event: Event<K, P, S, Q>) -> Turn {
        let ends = matches!(event, Event::End);
        let now = self.clock.now();
        let ending = self.feed(Input::Happens(Happening { now, event }));
        match ending {
            Some(ending) => Turn::Over(ending),
            None if !ends => Turn::Again,
            None if self.hands.is_starved => Turn::Over(Ending::OutOfMemory),
            None => Turn::Over(Ending::Complete),
        }
    }

    /// Takes the first input that has come.
    fn poll_turn(&mut self, cx: &mut Context<'_>) -> Poll<Turn>
        ensures armed { OnPending result (IsArmed cx.new) }
        ensures kept { Keeps cx.old cx.new }
    {
        if let Some(answer) = self.hands.answer.take() {
            return Poll::Ready(match self.feed(Input::Answers(answer)) {
                Some(ending) => Turn::Over(ending),
                None => Turn::Again,
            });
        }
        if let Poll::Ready(event) = self.poll_event(cx) {
            return Poll::Ready(self.take(event));
        }
        match self.poll_deadlines(cx) {
            Poll::Ready(()) => Poll::Ready(Turn::Again),
            Poll::Pending => Poll::Pending,
        }
    }

    /// Takes what has come, in at most `TURNS` turns.
    fn poll_turns(&mut self, cx: &mut Context<'_>) -> Poll<Ending>
        ensures armed { OnPending result (IsArmed cx.new) }
        ensures kept { Keeps cx.old cx.new }
    {
        for _ in 0..TURNS {
            match self.poll_turn(cx) {
                Poll::Ready(Turn::Again) => {}
                Poll::Ready(Turn::Over(ending)) => {
                    self.mail.close();
                    return Poll::Ready(ending);
                }
                Poll::Pending => return Poll::Pending,
            }
        }
        cx.yield_now()
    }

    /// Takes what has come, and is ready once the loop is over, with how it ended and the mailbox
    /// closed. Where nothing has come so far, every source that may give something wakes the task.
    /// After `TURNS` turns it asks to be polled again.
    pub fn poll(&mut self, cx: &mut Context<'_>) -> Poll<Ending>
        ensures armed { OnPending result (IsArmed cx.new) }
        ensures kept { Keeps cx.old cx.new }
    {
        let polled = self.poll_turns(cx);
        if let Some(shown) = &mut self.shown {
            shown.show(&self.core, cx);
        }
        if polled.is_ready() {
            self.shown = None;
        }
        polled
    }

    /// The machine with all that it counts and lists, for who polls the loop by hand.
    pub fn core(&self) -> &Core<K, P, S, Q> {
        &self.core
    }
}

impl<P, D, B, K, S, C, O, Q, R, X, Y, W, G, T> Future
    for Loop<P, D, B, K, S, C, O, Q, R, X, Y, W, G, T>
where
    P: PublicKey + Faithful + Drop,
    D: Provider<PublicKey = P> + Drop,
    B: Blocker<PublicKey = P> + Drop,
    K: Span + Faithful + Drop,
    S: Ord + Faithful + Drop,
    C: Consumer<Key = K, Value = Bytes, Subscriber = S> + Drop,
    C::Outcome: Drop,
    O: Producer<Key = K> + Drop,
    Q: Predicate<K, S> + Faithful + Drop,
    R: Wait + Drop,
    X: Sender<PublicKey = P> + Drop,
    Y: Receiver<PublicKey = P> + Drop,
    W: Clock + Drop,
    G: Draws + Drop,
    T: Watcher<Input<K, P, S, Q>, Effect<K, P, S>> + Drop,
{
    type Output = Ending;

    fn poll(&mut self, cx: &mut Context<'_>) -> Poll<Ending> {
        Loop::poll(self, cx)
    }
}
