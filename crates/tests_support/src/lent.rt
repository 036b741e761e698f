//! What an engine is lent by a test.

ghost use Rattle.std.specs.Prelude.{◌≡◌, IfErr};
ghost use Rattle.futures.specs.Poll.{OnPending};
ghost use Rattle.futures.specs.Task.{IsArmed, Keeps};
ghost use Rattle.resolver_base.specs.declared.fault.Fault.TheVariants.{OutOfMemory};

use crate::names::Peer;
use crate::seen::{Seen, Told, Wrong, tell};
use bytes::Bytes;
use futures::Stream;
use futures::channel::{mpsc, oneshot};
use futures::task::{Context, Poll};
use resolver_base::{Check, Draws, Fault, Feedback, Seeded, Sender, Unreliable};
use resolver_mailbox::mocks::Key;
use resolver_runtime::{Blocker, Consumer, Producer, Provider, Receiver};
use resolver_types::{Delivery, Outcome};
use std::alloc::Global;

/// Peer sets, blocked sets or messages, as a test gives them.
#[derive(Drop)]
pub struct Given<T> {
    pub told: Told,
    pub given: mpsc::UnboundedReceiver<T>,
}

impl Provider for Given<(u64, Vec<Peer>)> {
    type PublicKey = Peer;

    fn poll_update(&mut self, cx: &mut Context<'_>) -> Poll<Option<(u64, Vec<Peer>)>> {
        self.given.poll_next(cx)
    }
}

impl Blocker for Given<Vec<Peer>> {
    type PublicKey = Peer;

    fn block(&mut self, peer: &Peer) {
        tell(&self.told, Seen::Blocked(*peer));
    }

    fn poll_blocked(&mut self, cx: &mut Context<'_>) -> Poll<Option<Vec<Peer>>> {
        self.given.poll_next(cx)
    }
}

impl Receiver for Given<(Peer, Bytes)> {
    type PublicKey = Peer;

    fn poll_recv(&mut self, cx: &mut Context<'_>) -> Poll<Option<(Peer, Bytes)>> {
        self.given.poll_next(cx)
    }
}

/// A way to the peers that takes everything but what goes wrong.
#[derive(Drop)]
pub struct Wire {
    told: Told,
    wrong: Wrong,
    checks: u64,
    sends: u64,
    drawn: Seeded,
}

impl Wire {
    /// Returns a wire on which nothing was checked or sent yet.
    pub fn new(told: Told, wrong: Wrong) -> Wire {
        let seed = match wrong {
            Wrong::Drawn { seed, .. } => seed,
            _ => 0,
        };
        Wire {
            told,
            wrong,
            checks: 0,
            sends: 0,
            drawn: Seeded::new(seed),
        }
    }

    /// What the check of this number says.
    fn answer_check(&mut self, number: u64) -> Check {
        match self.wrong {
            Wrong::Drawn { until, .. } => {
                if self.drawn.below(8) == 0 {
                    Check::Until(self.drawn.below(u128::from(until) + 1))
                } else {
                    Check::Clear
                }
            }
            wrong => wrong.check(number),
        }
    }

    /// What becomes of the send of this number.
    fn answer_send(&mut self, number: u64) -> Unreliable {
        match self.wrong {
            Wrong::Drawn { .. } => match self.drawn.below(8) {
                0 => Unreliable::Rejected,
                1 => Unreliable::Outcome(Feedback::Closed),
                2 => Unreliable::Outcome(Feedback::Backoff),
                _ => Unreliable::Outcome(Feedback::Ok),
            },
            wrong if wrong.is_refused(number) => Unreliable::Rejected,
            _ => Unreliable::Outcome(Feedback::Ok),
        }
    }
}

impl Sender for Wire {
    type PublicKey = Peer;

    fn check(&mut self, peer: &Peer) -> Check {
        self.checks = self.checks.saturating_add(1);
        let check = self.answer_check(self.checks);
        let seen = match check {
            Check::Clear => Seen::Checked(*peer),
            Check::Until(_) => Seen::Limited(*peer),
        };
        tell(&self.told, seen);
        check
    }

    fn send(&mut self, peer: &Peer, message: Bytes, priority: bool) -> Unreliable {
        self.sends = self.sends.saturating_add(1);
        let answer = self.answer_send(self.sends);
        let seen = if answer.is_accepted() {
            Seen::Sent(*peer, message, priority)
        } else {
            Seen::Refused(*peer, message, priority)
        };
        tell(&self.told, seen);
        answer
    }
}

/// Draws that follow from a seed, or are all 0 where there is none.
#[derive(Drop)]
pub struct Dice {
    pub told: Told,
    pub seeded: Option<Seeded>,
}

impl Draws for Dice {
    fn below(&mut self, n: u128) -> u128 {
        tell(&self.told, Seen::Drew(n));
        match &mut self.seeded {
            Some(seeded) => seeded.below(n),
            None => 0,
        }
    }
}

/// A one-shot.
fn channel<T: Drop>(alloc: Global) -> Result<(oneshot::Sender<T>, oneshot::Receiver<T>), Fault>
    ensures only { IfErr result (λ fault. fault ≡ OutOfMemory) }
{
    match oneshot::channel(alloc) {
        Ok(ends) => Ok(ends),
        Err(error) => Err(error.into()),
    }
}

/// A consumer that hands each delivery's sender to its test, unless it drops them.
#[derive(Drop)]
pub struct Judge {
    pub alloc: Global,
    pub told: Told,
    pub wrong: Wrong,
    pub verdicts: mpsc::UnboundedSender<oneshot::Sender<Outcome>>,
}

impl Consumer for Judge {
    type Key = Key;

    type Value = Bytes;

    type Subscriber = u16;

    type Outcome = Outcome;

    fn deliver(
        &mut self,
        delivery: Delivery<Key, u16>,
        value: Bytes,
    ) -> Result<oneshot::Receiver<Outcome>, Fault>
        ensures only { IfErr result (λ fault. fault ≡ OutOfMemory) }
    {
        let made = match self.wrong {
            Wrong::Consumer => Err(Fault::OutOfMemory),
            _ => channel(self.alloc),
        };
        match made {
            Ok((verdict, receiver)) => {
                tell(&self.told, Seen::Delivered(delivery, value));
                match self.wrong {
                    Wrong::Drops => drop(verdict),
                    _ => drop(self.verdicts.unbounded_send(verdict)),
                }
                Ok(receiver)
            }
            Err(fault) => Err(fault),
        }
    }
}

/// A consumer for a test, which gets the senders of the outcomes.
pub fn make_judge(
    alloc: Global,
    told: &Told,
    wrong: Wrong,
) -> Result<(mpsc::UnboundedReceiver<oneshot::Sender<Outcome>>, Judge), Fault> {
    let (verdicts, senders) = mpsc::unbounded(alloc)?;
    let judge = Judge {
        alloc,
        told: told.clone()?,
        wrong,
        verdicts,
    };
    Ok((senders, judge))
}

/// A producer that hands each request's sender to its test.
#[derive(Drop)]
pub struct Store {
    pub alloc: Global,
    pub told: Told,
    pub wrong: Wrong,
    pub serves: mpsc::UnboundedSender<oneshot::Sender<Bytes>>,
}

impl Producer for Store {
    type Key = Key;

    fn produce(&mut self, key: Key) -> Result<oneshot::Receiver<Bytes>, Fault>
        ensures only { IfErr result (λ fault. fault ≡ OutOfMemory) }
    {
        let made = match self.wrong {
            Wrong::Producer => Err(Fault::OutOfMemory),
            _ => channel(self.alloc),
        };
        match made {
            Ok((serve, receiver)) => {
                tell(&self.told, Seen::Produced(key));
                drop(self.serves.unbounded_send(serve));
                Ok(receiver)
            }
            Err(fault) => Err(fault),
        }
    }
}
