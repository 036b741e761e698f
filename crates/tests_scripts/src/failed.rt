//! A core that has failed, since memory was wanting.

ghost use Rattle.std.specs.Prelude.{◌≡◌};

use crate::cores::{make_core_of, numbered};
use crate::support::assert_same;
use bytes::Bytes;
use resolver::backfill::Without;
use resolver::base::{Check, Fault, NonEmptyVec};
use resolver::ingress::FetchKey;
use resolver::p2p::fetcher::Answer;
use resolver::p2p::inputs::{Event, Happening, Input};
use resolver::p2p::mocks::Key;
use resolver::p2p::{Core, Metrics, Tally};
use resolver::{Outcome, Resolution};
use resolver_script::peer::Peer;
use std::alloc::{AllocError, Global};
use std::panic::Expect;
use std::process::Abort;

/// The subscriber of which there is one.
const SINGLE: u16 = 10;

/// A subscriber. For another `SINGLE` memory is always wanting.
#[derive(Debug, Drop, PartialEq, Eq, PartialOrd, Ord)]
struct Subscriber(u16);

impl Clone for Subscriber {
    ghost is_clone = { λ x y. y ≡ x };

    fn clone(&self) -> Result<Self, AllocError> {
        if self.0 == SINGLE {
            return Err(AllocError);
        }
        Ok(Subscriber(self.0))
    }
}

type Scarce = Core<Key, Peer, Subscriber, Without<Key, Subscriber>>;

type ScarceInput = Input<Key, Peer, Subscriber, Without<Key, Subscriber>>;

/// The response "hi" under the id 5.
const RESPONSE: &[u8] = &[0, 0, 0, 0, 0, 0, 0, 5, 1, 2, 104, 105];

fn happens(event: Event<Key, Peer, Subscriber, Without<Key, Subscriber>>) -> ScarceInput {
    Input::Happens(Happening { now: 0, event })
}

fn receives(bytes: &'static [u8]) -> ScarceInput {
    let bytes = Bytes::from_static(bytes);
    happens(Event::Net {
        peer: Peer(4),
        bytes,
    })
}

fn fetches(rt: &impl Abort, alloc: Global, subscriber: u16) -> ScarceInput {
    let subscriber = Subscriber(subscriber);
    let item = FetchKey {
        key: Key(1),
        subscribers: NonEmptyVec::new(alloc, (subscriber, 0)).expect(rt, "memory"),
        metadata: None,
    };
    let mut items = Vec::new(alloc);
    items.push(item).expect(rt, "memory");
    happens(Event::Fetch(items))
}

/// Gives this to a core.
fn give(core: &mut Scarce, input: ScarceInput) -> Result<(), Fault> {
    drop(core.step(input)?);
    Ok(())
}

/// Gives this to a core, which is to take it.
fn take(rt: &impl Abort, core: &mut Scarce, input: ScarceInput) {
    give(core, input).expect(rt, "an input that is taken");
}

/// A request of peer 4 is answered.
fn serve(rt: &impl Abort, core: &mut Scarce) {
    take(rt, core, receives(&[0, 0, 0, 0, 0, 0, 0, 7, 0, 123]));
    let value = Some(Bytes::from_static(b"ok"));
    take(rt, core, happens(Event::Served { serve: 0, value }));
}

/// This subscriber wants key 1, and peer 4 is asked for it, under the id 5.
fn ask(rt: &impl Abort, alloc: Global, core: &mut Scarce, subscriber: u16) {
    let inputs = [
        happens(Event::PeerSet {
            index: 1,
            peers: numbered(rt, alloc, &[4]),
        }),
        fetches(rt, alloc, subscriber),
        Input::Answers(Answer::Drawn(0)),
        Input::Answers(Answer::Drawn(0)),
        Input::Answers(Answer::Checked(Check::Clear)),
        Input::Answers(Answer::Drawn(5)),
        Input::Answers(Answer::Sent(true)),
    ];
    for input in inputs {
        take(rt, core, input);
    }
}

fn assert_counts(rt: &impl Abort, counted: &Metrics) {
    const ONE: Tally = Tally {
        success: 1,
        ambiguous: 0,
        failure: 0,
        dropped: 0,
    };
    assert_same(rt, counted.requests_sent, ONE);
    assert_same(rt, counted.serve, ONE);
}

/// One serve was answered and one request sent, whatever comes after.
#[test]
fn what_was_counted_stays_once_a_core_failed(rt: HostRuntime) {
    let alloc = rt.alloc();
    let mut core: Scarce = make_core_of(alloc, None);
    serve(&rt, &mut core);
    ask(&rt, alloc, &mut core, SINGLE);
    let answered = give(&mut core, receives(RESPONSE));
    assert_same(&rt, answered, Err(Fault::OutOfMemory));
    assert_counts(&rt, &core.metrics());
    let ended = give(&mut core, happens(Event::End));
    assert_same(&rt, ended, Err(Fault::Failed));
    assert_counts(&rt, &core.metrics());
}

/// A response is right, which is a credit; but memory is wanting to hand it out to who came since, so the verdict is
/// refused.
#[test]
fn a_step_that_is_refused_memory_counts_nothing(rt: HostRuntime) {
    let alloc = rt.alloc();
    let mut core: Scarce = make_core_of(alloc, None);
    ask(&rt, alloc, &mut core, 11);
    take(&rt, &mut core, receives(RESPONSE));
    take(&rt, &mut core, fetches(&rt, alloc, SINGLE));
    let counted = core.metrics();
    let outcome = Some(Outcome::Resolved(Resolution::Complete));
    let answered = give(&mut core, happens(Event::Verdict { number: 0, outcome }));
    assert_same(&rt, answered, Err(Fault::OutOfMemory));
    assert_same(&rt, core.metrics(), counted);
}
