//! What an engine's effects go to, and what comes back from there.

ghost use Rattle.std.specs.Prelude.{◌≡◌, IfErr};
ghost use Rattle.futures.specs.Task.{Keeps};
ghost use Rattle.resolver_base.specs.declared.fault.Fault.TheVariants.{OutOfMemory};
ghost use Rattle.resolver_core.specs.Asking.{CanBeAnswered};

use crate::p2p::answers::Asking;
use bytes::Bytes;
use futures::task::{Context, Poll};
use resolver_base::{Draws, Faithful, Fault, PublicKey, Sender, Span};
use resolver_fetch::fetcher::Answer;
use resolver_model_peer::effects::Effect;
use resolver_model_peer::inputs::Event;
use resolver_runtime::{Blocker, Consumer, Judging, Peers, Producer, Provider, Serving};
use std::alloc::Global;

/// What an engine's effects go to: the sources of peers, the consumer, the producer, and the way to
/// the peers with a source of numbers.
///
/// A loop's calls are proved with all that they hold, so those that need no more than this are its own.
#[derive(Drop)]
pub(crate) struct Hands<D, B, C, O, X, G>
where
    C: Consumer,
    C::Outcome: Drop,
{
    pub(crate) alloc: Global,
    pub(crate) peers: Peers<D, B>,
    pub(crate) judging: Judging<C>,
    pub(crate) serving: Serving<O>,
    pub(crate) asking: Asking<X, G>,
    /// What the open scan is to be told.
    pub(crate) answer: Option<Answer>,
    /// Whether memory was refused outside the core.
    pub(crate) is_starved: bool,
}

impl<P, D, B, K, S, C, O, X, G> Hands<D, B, C, O, X, G>
where
    P: PublicKey + Faithful + Drop,
    D: Provider<PublicKey = P> + Drop,
    B: Blocker<PublicKey = P> + Drop,
    K: Span + Faithful + Drop,
    S: Ord + Faithful + Drop,
    C: Consumer<Key = K, Value = Bytes, Subscriber = S> + Drop,
    C::Outcome: Drop,
    O: Producer<Key = K> + Drop,
    X: Sender<PublicKey = P> + Drop,
    G: Draws + Drop,
{
    /// With nothing judged and nothing looked for. Where memory is refused, all is dropped.
    pub(crate) fn new(
        alloc: Global,
        peers: Peers<D, B>,
        consumer: C,
        producer: O,
        asking: Asking<X, G>,
    ) -> Result<Self, Fault>
        ensures only { IfErr result (λ fault. fault ≡ OutOfMemory) }
    {
        Ok(Hands {
            alloc,
            peers,
            judging: Judging::new(alloc, consumer)?,
            serving: Serving::new(alloc, producer)?,
            asking,
            answer: None,
            is_starved: false,
        })
    }

    /// The end, where memory was refused outside the core, or what is new of the peers.
    pub(crate) fn poll_peers<Q>(&mut self, cx: &mut Context<'_>) -> Poll<Event<K, P, S, Q>>
        ensures kept { Keeps cx.old cx.new }
    {
        if self.is_starved {
            return Poll::Ready(Event::End);
        }
        match self.peers.poll_set(cx) {
            Poll::Ready(Some((index, peers))) => {
                return Poll::Ready(Event::PeerSet { index, peers });
            }
            Poll::Ready(None) => return Poll::Ready(Event::End),
            Poll::Pending => {}
        }
        match self.peers.poll_blocked(cx) {
            Poll::Ready(peers) => Poll::Ready(Event::Blocked(peers)),
            Poll::Pending => Poll::Pending,
        }
    }

    /// Carries an effect out. A request that there is no memory for is refused.
    pub(crate) fn carry_out(&mut self, effect: Effect<K, P, S>)
        requires answerable { CanBeAnswered effect }
    {
        match effect {
            Effect::Ask(ask) => {
                let answer = self.asking.answer(self.alloc, ask);
                self.is_starved |= answer.is_err();
                self.answer = Some(answer.unwrap_or(Answer::Sent(false)));
            }
            Effect::Deliver {
                number,
                response: _,
                delivery,
                value,
            } => self.is_starved |= self.judging.deliver(number, delivery, value).is_err(),
            Effect::Cancel { number } => self.judging.cancel(number),
            Effect::Produce { serve, key } => {
                self.is_starved |= self.serving.produce(serve, key).is_err();
            }
            Effect::Reply {
                peer,
                bytes,
                priority,
            } => {
                self.asking.send(&peer, bytes, priority);
            }
            Effect::Credit {
                response: _,
                source: _,
            } => {}
            Effect::Block { response: _, peer } => self.peers.block(&peer),
        }
    }
}
