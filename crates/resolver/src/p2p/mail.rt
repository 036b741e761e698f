//! What the engine's loop is told by the mailbox.

ghost use Rattle.futures.specs.Poll.{OnPending};
ghost use Rattle.futures.specs.Task.{IsArmed, Keeps};

use futures::Stream;
use futures::task::{Context, Poll};
use resolver_base::Faithful;
use resolver_mailbox::mailbox::{Receiver, Unrecorded};
use resolver_messages::Message;
use resolver_model_peer::inputs::Event;
use resolver_types::{NonEmptyVec, Predicate};
use std::hash::Hash;
use std::sync::Wait;

/// The end of an engine's mailbox that takes messages.
pub(crate) type Mail<K, P, S, Q, R> = Receiver<K, S, Option<NonEmptyVec<P>>, Q, Unrecorded, R>;

/// The next message as an event: the end, once the mailbox is closed and nothing waits.
pub(crate) fn poll_mail<
    K: Ord + Hash + Faithful + Drop,
    P: Ord + Faithful + Drop,
    S: Ord + Faithful + Drop,
    Q: Predicate<K, S> + Faithful + Drop,
    R: Wait + Drop,
>(mail: &mut Mail<K, P, S, Q, R>, cx: &mut Context<'_>) -> Poll<Event<K, P, S, Q>>
    ensures armed { OnPending result (IsArmed cx.new) }
    ensures kept { Keeps cx.old cx.new }
{
    match mail.poll_next(cx) {
        Poll::Ready(Some(Ok(Message::Fetch(items)))) => Poll::Ready(Event::Fetch(items)),
        Poll::Ready(Some(Ok(Message::Retain(predicate)))) => Poll::Ready(Event::Retain(predicate)),
        // A mailbox that isn't recorded takes no memory for a take.
        Poll::Ready(Some(Err(_))) => Poll::Ready(Event::PendingDue),
        Poll::Ready(None) => Poll::Ready(Event::End),
        Poll::Pending => Poll::Pending,
    }
}
