//! An actor's loop in memory over an opaque source, and what its test holds of it.

use bytes::Bytes;
use futures::Future;
use futures::channel::{mpsc, oneshot};
use futures::task::{Context, Poll};
use futures::test::MockTask;
use resolver_base::Feedback;
use resolver_mailbox::mailbox::Unrecorded;
use resolver_mailbox::mocks::Key;
use resolver_opaque_actor::{Effect, Event, Input};
use resolver_opaque_loop::{Fetcher, Loop};
use resolver_runtime::{Ending, Resolver, Watcher};
use resolver_types::{Outcome, Resolution};
use std::alloc::Global;
use std::marker::PhantomData;
use std::panic::Expect;
use std::process::Abort;
use std::sync::{Arc, Mutex, Wait};
use tests_support::kinds::{EffectKind, InputKind};
use tests_support::lent::{Judge, make_judge};
use tests_support::names::{Below, Peer, wanted};
use tests_support::polling::Polled;
use tests_support::seen::{Seen, Told, Wrong, tell};
use tests_support::watch::{Standing, Telling, Watch};

/// A look that a test answers.
#[derive(Drop)]
pub struct Look {
    value: Option<oneshot::Receiver<Option<Bytes>>>,
}

impl Future for Look {
    type Output = Option<Bytes>;

    fn poll(&mut self, cx: &mut Context<'_>) -> Poll<Option<Bytes>> {
        match &mut self.value {
            Some(receiver) => match receiver.poll(cx) {
                Poll::Ready(Ok(value)) => Poll::Ready(value),
                Poll::Ready(Err(_)) => Poll::Ready(None),
                Poll::Pending => Poll::Pending,
            },
            None => Poll::Ready(None),
        }
    }
}

/// A source that hands each look to its test.
#[derive(Drop)]
pub struct Source {
    alloc: Global,
    pub told: Told,
    looks: mpsc::UnboundedSender<Looked>,
}

impl Source {
    fn into_told(self) -> Told {
        let Self {
            alloc: _,
            told,
            looks: _,
        } = self;
        told
    }
}

impl Fetcher for Source {
    type Key = Key;

    type Value = Bytes;

    type Future = Look;

    fn fetch(&self, key: Key) -> Look {
        let Ok((sender, receiver)) = oneshot::channel(self.alloc) else {
            return Look { value: None };
        };
        tell(&self.told, Seen::Looked(key));
        drop(self.looks.unbounded_send(sender));
        Look {
            value: Some(receiver),
        }
    }

    ghost pollable = { λ look. tt };
}

/// A source that has nothing. It says what it is asked for, and then holds its loop up for as long as a gate is locked.
#[derive(Drop)]
pub struct Gated<R> {
    rt: R,
    told: Told,
    gate: Arc<Mutex<()>>,
}

impl<R> Gated<R> {
    /// It tells whom that source tells.
    pub fn new(rt: R, source: Source, gate: Arc<Mutex<()>>) -> Gated<R> {
        Gated {
            rt,
            told: source.into_told(),
            gate,
        }
    }
}

impl<R: Wait + 'static> Fetcher for Gated<R> {
    type Key = Key;

    type Value = Bytes;

    type Future = Look;

    fn fetch(&self, key: Key) -> Look {
        tell(&self.told, Seen::Looked(key));
        drop(self.gate.lock(&self.rt));
        Look { value: None }
    }

    ghost pollable = { λ look. tt };
}

/// A loop that may be polled in each of its states.
pub trait Pollable: Future<Output = Ending> {
    ghost pollable: { (state : Self) → Self.can_poll state };
}

/// The loop of an actor over a source.
type Lending<R, T> = Loop<Key, Bytes, u16, Below, R, Telling, Source, Judge, T>;

impl<R: Wait + Copy + Drop, T: Watcher<Taken, Done> + Drop> Pollable for Lending<R, T> {
    ghost pollable = { λ state. tt };
}

/// What the actor takes.
type Taken = Input<Key, Bytes, u16, Below>;

/// What it wants done.
type Done = Effect<Key, Bytes, u16>;

/// Tells of each call, in the same words as the fakes do. It names what it is told of, since the borrow checker
/// knows the types that values have.
#[derive(Drop)]
pub struct Watching {
    told: Told,
    of: PhantomData<(Taken, Done)>,
}

impl Watching {
    /// Tells whom the fakes tell.
    pub fn new(told: Told) -> Watching {
        Watching {
            told,
            of: PhantomData,
        }
    }
}

impl Watcher<Taken, Done> for Watching {
    fn takes(&mut self, input: &Taken) {
        let kind = match &input.event {
            Event::Fetch(_) => InputKind::Fetch,
            Event::Retain(_) => InputKind::Retain,
            Event::Fetched { .. } => InputKind::Fetched,
            Event::Verdict { .. } => InputKind::Verdict,
            Event::RetriesDue => InputKind::Wake,
            Event::End => InputKind::End,
        };
        tell(&self.told, Seen::Took(kind, Some(input.now)));
    }

    fn wants(&mut self, effect: &Done) {
        let kind = match effect {
            Effect::Start { .. } => EffectKind::Start,
            Effect::Abort { .. } => EffectKind::Abort,
            Effect::Deliver { .. } => EffectKind::Deliver,
            Effect::Cancel { .. } => EffectKind::Cancel,
        };
        tell(&self.told, Seen::Wanted(kind));
    }
}

/// A loop, as a test knows it, which polls it by hand.
#[derive(Drop)]
pub struct Looped<L> {
    pub looped: L,
}

impl<L: Pollable> Polled for Looped<L> {
    fn poll_once(&mut self, task: &MockTask) -> Poll<Ending> {
        task.poll(&mut self.looped)
    }
}

/// A handle of its mailbox.
pub type Asked<R> = resolver_opaque_loop::Resolver<Key, u16, Peer, Below, Unrecorded, R>;

/// Where a look is answered.
pub type Looked = oneshot::Sender<Option<Bytes>>;

/// What a test holds of what an actor is lent.
#[derive(Drop)]
pub struct Held {
    pub looks: mpsc::UnboundedReceiver<Looked>,
    pub verdicts: mpsc::UnboundedReceiver<oneshot::Sender<Outcome>>,
    pub told: mpsc::UnboundedReceiver<Seen>,
    pub moments: mpsc::UnboundedReceiver<u128>,
    pub watch: Arc<Watch>,
}

/// What an actor is lent.
#[derive(Drop)]
pub struct Lent {
    pub clock: Telling,
    pub source: Source,
    pub consumer: Judge,
}

/// A handle of the mailbox, and what a test holds besides.
#[derive(Drop)]
pub struct Ends<A> {
    pub resolver: A,
    pub held: Held,
}

/// A clock that stands at 0, with the moments that it is to wait for, and the watch that puts it forward.
fn make_clock(
    rt: &impl Abort,
    alloc: Global,
) -> (mpsc::UnboundedReceiver<u128>, Arc<Watch>, Telling) {
    let (asked, moments) = mpsc::unbounded(alloc).expect(rt, "memory");
    let (watch, other) = Watch::shared(alloc).expect(rt, "memory");
    let clock = Telling {
        clock: Standing { watch: other },
        moments: asked,
    };
    (moments, watch, clock)
}

/// A source, and where it hands each look to its test.
fn make_source(
    rt: &impl Abort,
    alloc: Global,
    told: &Told,
) -> (mpsc::UnboundedReceiver<Looked>, Source) {
    let (sender, looks) = mpsc::unbounded(alloc).expect(rt, "memory");
    let source = Source {
        alloc,
        told: told.clone().expect(rt, "memory"),
        looks: sender,
    };
    (looks, source)
}

/// What an actor is lent, and the ends of it that its test holds.
pub fn lend(rt: &impl Abort, alloc: Global, wrong: Wrong) -> (Held, Lent) {
    let (moments, watch, clock) = make_clock(rt, alloc);
    let (teller, told) = mpsc::unbounded(alloc).expect(rt, "memory");
    let (looks, source) = make_source(rt, alloc, &teller);
    let (verdicts, consumer) = make_judge(alloc, &teller, wrong).expect(rt, "memory");
    drop(teller);
    let held = Held {
        looks,
        verdicts,
        told,
        moments,
        watch,
    };
    let lent = Lent {
        clock,
        source,
        consumer,
    };
    (held, lent)
}

/// A handle of an actor's mailbox, as a test asks by it.
pub trait Asking {
    /// The subscriber wants this key.
    fn want(&mut self, rt: &impl Abort, key: u8, subscriber: u16) -> Feedback;

    /// The subscribers from this one on are let go.
    fn let_go_from(&mut self, rt: &impl Abort, subscriber: u16);

    fn end(&mut self);
}

impl<R: Wait + Copy + Send + 'static> Asking for Asked<R> {
    fn want(&mut self, rt: &impl Abort, key: u8, subscriber: u16) -> Feedback {
        self.fetch(wanted(key, subscriber)).expect(rt, "memory")
    }

    fn let_go_from(&mut self, rt: &impl Abort, subscriber: u16) {
        self.retain(Below(subscriber)).expect(rt, "memory");
    }

    fn end(&mut self) {
        self.close();
    }
}

/// Answers a look with these bytes, if there are any.
pub fn answer_look(look: Looked, value: Option<&'static [u8]>) {
    let value = match value {
        Some(bytes) => Some(Bytes::from_static(bytes)),
        None => None,
    };
    drop(look.send(value));
}

impl Held {
    /// Answers the first look that has no answer.
    pub fn answer(&mut self, value: Option<&'static [u8]>) {
        if let Ok(look) = self.looks.try_recv() {
            answer_look(look, value);
        }
    }

    /// The consumer says that what was delivered last is what was wanted.
    pub fn complete(&mut self) {
        if let Ok(verdict) = self.verdicts.try_recv() {
            drop(verdict.send(Outcome::Resolved(Resolution::Complete)));
        }
    }
}
