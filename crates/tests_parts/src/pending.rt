//! What waits while a mailbox is full, what is said of a fetch beside its key, and copies of messages.
//!
//! | Line | Says | Prints |
//! |---|---|---|
//! | `fetch K S`, `fetch-below K` | a fetch of the key, or of each below it for subscriber 10, comes to what waits | |
//! | `retain K` | a retain that keeps the keys from this one on | |
//! | `hand KEYS`, `hand-from K PEERS` | the copy of a message: one batch of these keys for subscriber 10, or a key with these peers as its targets | |
//! | `drain -`, `drain retains`, `drain all` | what waits is drained to one that takes nothing, the retains, or all | how many retains were taken, and the batch that was |
//! | `pop` | what waits first goes | the message |
//! | `is-empty` | | whether nothing waits |
//!
//! A message is printed as `retain` with its test, or as `batch` with a line for each key.

ghost use Rattle.std.specs.Prelude.{nat_le};
ghost use Rattle.std.proofs.Common.{rules};

use crate::support::{
    Part, equal, is_written, list, plays, print, unreadable, value, write_subscribers,
};
use resolver_desk::Pending;
use resolver_messages::{FetchKey, Kept, Message, Metadata, Test};
use resolver_types::{Fetch, NonEmptyVec, Predicate};
use std::alloc::Global;
use std::fmt::Write;
use std::panic::Expect;
use std::process::Abort;
use tests_support::transcript::{Line, Said, cases};

/// Passes the subscribers of the keys from a first one on.
#[derive(Clone, Debug, Drop)]
struct FirstKey(u16);

impl Test<u16, u16> for FirstKey {
    ghost passes = { λ test k s. nat_le test.0 k };

    fn test(&self, key: &u16, _subscriber: &u16) -> bool {
        *key >= self.0
    }

    ghost alike = { λ f k l s t same_key same_subscriber. Prim.search rules };
}

/// The peers that may be asked; any, where there are none.
type Targets = Option<NonEmptyVec<u16>>;

type Told = Message<u16, u16, Targets, Kept<FirstKey>>;

type Waiting = Pending<u16, u16, Targets, Kept<FirstKey>>;

fn fetch(rt: &impl Abort, alloc: Global, pending: &mut Waiting, key: u16, subscriber: u16) {
    let fetch = Fetch {
        key,
        subscriber,
        mark: 0,
    };
    let mut items = Vec::new(alloc);
    let item = FetchKey::from_fetch(alloc, fetch).expect(rt, "memory");
    items.push(item).expect(rt, "memory");
    pending.handle(Message::Fetch(items)).expect(rt, "memory");
}

fn fetch_below(rt: &impl Abort, alloc: Global, pending: &mut Waiting, end: u16) {
    for key in 0..end {
        fetch(rt, alloc, pending, key, 10);
    }
}

/// A fetch of a key with its targets for the subscriber 10.
fn item(
    rt: &impl Abort,
    alloc: Global,
    key: u16,
    metadata: Targets,
) -> FetchKey<u16, u16, Targets> {
    FetchKey {
        key,
        subscribers: NonEmptyVec::new(alloc, (10, 0)).expect(rt, "memory"),
        metadata,
    }
}

/// A message that fetches a key of these peers.
fn targeted(rt: &impl Abort, alloc: Global, key: u16, peers: Vec<u16>) -> Told {
    let peers = NonEmptyVec::try_from(peers).ok();
    let mut items = Vec::new(alloc);
    items.push(item(rt, alloc, key, peers)).expect(rt, "memory");
    Message::Fetch(items)
}

/// A message that fetches these keys of any peer.
fn untargeted(rt: &impl Abort, alloc: Global, keys: &[u16]) -> Told {
    let mut items = Vec::new(alloc);
    for key in keys {
        items.push(item(rt, alloc, *key, None)).expect(rt, "memory");
    }
    Message::Fetch(items)
}

/// Hands on a copy of a message, which is let go before.
fn hand_copy(rt: &impl Abort, alloc: Global, pending: &mut Waiting, told: Told) {
    let copy = told.copy(alloc).expect(rt, "memory");
    drop(told);
    pending.handle(copy).expect(rt, "memory");
    pending.law();
}

fn retain(rt: &impl Abort, pending: &mut Waiting, first: u16) {
    let kept = Kept::new(FirstKey(first));
    pending.handle(Message::Retain(kept)).expect(rt, "memory");
}

/// Drains what waits: how many tests were taken, and the batch.
fn drain<M: Metadata + Drop, Q: Predicate<u16, u16> + Drop>(
    pending: &mut Pending<u16, u16, M, Q>,
    takes_tests: bool,
    takes_fetches: bool,
) -> (usize, Option<Message<u16, u16, M, Q>>) {
    let mut tests = 0usize;
    let mut batch = None;
    pending.drain(|message| {
        if matches!(message, Message::Retain(_)) {
            if takes_tests {
                tests = tests.wrapping_add(1);
                return None;
            }
        } else if takes_fetches {
            drop(batch.replace(message));
            return None;
        }
        Some(message)
    });
    (tests, batch)
}

/// Prints a fetch of a message.
fn print_item(rt: &impl Abort, printed: &mut String, item: &FetchKey<u16, u16, Targets>) {
    write!(printed, "> key {} subs ", item.key).expect(rt, "memory");
    write_subscribers(rt, printed, &item.subscribers);
    match &item.metadata {
        Some(peers) => writeln!(printed, " targets {:?}", peers.as_slice()).expect(rt, "memory"),
        None => writeln!(printed, " targets all").expect(rt, "memory"),
    }
}

/// Prints a message, or that there is none.
fn print_message(rt: &impl Abort, printed: &mut String, message: &Option<Told>) {
    match message {
        Some(Message::Fetch(items)) => {
            writeln!(printed, "> batch").expect(rt, "memory");
            for item in items {
                print_item(rt, printed, item);
            }
        }
        Some(Message::Retain(test)) => writeln!(printed, "> retain {test:?}").expect(rt, "memory"),
        None => writeln!(printed, "> none").expect(rt, "memory"),
    }
}

/// Drains what waits, and prints how many retains were taken, and the batch that was.
fn print_drained(rt: &impl Abort, printed: &mut String, pending: &mut Waiting, line: &mut Line) {
    let (takes_tests, takes_fetches) = match line.field() {
        "-" => (false, false),
        "retains" => (true, false),
        "all" => (true, true),
        _ => unreadable(rt, line),
    };
    let (tests, batch) = drain(pending, takes_tests, takes_fetches);
    print(rt, printed, tests);
    print_message(rt, printed, &batch);
}

/// Drains, or takes what waits first. Ends the test where no line has this word.
fn take(rt: &impl Abort, printed: &mut String, pending: &mut Waiting, word: &str, line: &mut Line) {
    match word {
        "drain" => print_drained(rt, printed, pending, line),
        "pop" => {
            let message = pending.pop();
            print_message(rt, printed, &message);
        }
        "is-empty" => print(rt, printed, pending.is_empty()),
        _ => unreadable(rt, line),
    }
}

/// Hands on the copy of a message with the keys of a line.
fn hand(rt: &impl Abort, alloc: Global, pending: &mut Waiting, line: &mut Line) {
    let keys = list(rt, alloc, line);
    hand_copy(rt, alloc, pending, untargeted(rt, alloc, keys.as_slice()));
}

impl<R: Abort> Said<R> for Part<'_, Waiting> {
    fn say(&mut self, rt: &R, line: &mut Line, printed: &mut String) {
        let alloc = *printed.allocator();
        match line.field() {
            "fetch" => {
                let key = value(rt, line);
                fetch(rt, alloc, self.0, key, value(rt, line));
            }
            "fetch-below" => fetch_below(rt, alloc, self.0, value(rt, line)),
            "hand" => hand(rt, alloc, self.0, line),
            "hand-from" => {
                let key = value(rt, line);
                let message = targeted(rt, alloc, key, list(rt, alloc, line));
                hand_copy(rt, alloc, self.0, message);
            }
            "retain" => retain(rt, self.0, value(rt, line)),
            word => take(rt, printed, self.0, word, line),
        }
    }
}

/// Plays each case, where nothing waits before.
fn play_each(rt: &impl Abort, alloc: Global, transcript: &str) {
    for case in cases(transcript) {
        let mut pending: Waiting = Pending::new(alloc);
        plays(rt, alloc, &mut Part(&mut pending), case);
    }
}

/// Drains that take nothing and tests alone; tests that keep the last key; and what is taken one by one.
const WAITING: &str = "# overflow_rejected_drain
fetch 2 10
fetch 1 20
retain 0
drain -
> 0
> none
drain retains
> 1
> none
fetch 2 11
fetch 3 30
drain all
> 0
> batch
> key 2 subs 10:0,11:0 targets all
> key 1 subs 20:0 targets all
> key 3 subs 30:0 targets all
is-empty
> true

# overflow_retain
fetch-below 100
retain 99
fetch 99 11
fetch 0 12
drain all
> 1
> batch
> key 99 subs 10:0,11:0 targets all
> key 0 subs 12:0 targets all
is-empty
> true

# one by one
pop
> none
fetch 1 10
retain 0
fetch 2 20
pop
> retain Kept { test: FirstKey(0) }
pop
> batch
> key 1 subs 10:0 targets all
> key 2 subs 20:0 targets all
pop
> none";

#[test]
fn what_waits_is_taken(rt: HostRuntime) {
    play_each(&rt, rt.alloc(), WAITING);
}

/// Messages that are copied and handed on, and what waits then: targets that are joined, or that any peer may be
/// asked, and messages of no fetch, of one and of three, where nothing waits and where key 1 does.
const COPIED: &str = "# targets
hand-from 1 2,3
pop
> batch
> key 1 subs 10:0 targets [2, 3]

# overflow_targets, of two lists
hand-from 1 2,3
hand-from 1 3,4
pop
> batch
> key 1 subs 10:0 targets [2, 3, 4]

# overflow_targets, of none between two
hand-from 1 2
hand 1
hand-from 1 3
pop
> batch
> key 1 subs 10:0 targets all

# no key
hand -
pop
> none

# one key
hand 4
pop
> batch
> key 4 subs 10:0 targets all

# three keys
hand 4,1,3
pop
> batch
> key 4 subs 10:0 targets all
> key 1 subs 10:0 targets all
> key 3 subs 10:0 targets all

# no key behind one
hand 1
hand -
pop
> batch
> key 1 subs 10:0 targets all

# one key behind another
hand 1
hand 4
pop
> batch
> key 1 subs 10:0 targets all
> key 4 subs 10:0 targets all

# three keys behind one of them
hand 1
hand 4,1,3
pop
> batch
> key 1 subs 10:0 targets all
> key 4 subs 10:0 targets all
> key 3 subs 10:0 targets all";

#[test]
fn copies_wait(rt: HostRuntime) {
    play_each(&rt, rt.alloc(), COPIED);
}

/// These peers; with none of them any peer may be asked.
fn targets(rt: &impl Abort, alloc: Global, peers: &[u16]) -> Targets {
    let peers = Vec::from_slice(alloc, peers).expect(rt, "memory");
    NonEmptyVec::try_from(peers).ok()
}

/// Ends the test where the copy of what an earlier and a later fetch say together is something else.
fn joins(rt: &impl Abort, alloc: Global, earlier: &[u16], later: &[u16], wanted: &str) {
    let mut all = targets(rt, alloc, earlier);
    all.merge(alloc, targets(rt, alloc, later))
        .expect(rt, "memory");
    is_written(rt, alloc, all.copy().expect(rt, "memory"), wanted);
}

#[test]
fn targets_are_joined_and_copied(rt: HostRuntime) {
    let rt = &rt;
    const EARLIER: &[u16] = &[2, 3];
    const LATER: &[u16] = &[9, 8, 7, 6, 5, 4, 3, 4, 5, 6];
    joins(
        rt,
        rt.alloc(),
        EARLIER,
        EARLIER,
        "Some(NonEmptyVec { items: [2, 3] })",
    );
    joins(rt, rt.alloc(), &[], &[], "None");
    joins(
        rt,
        rt.alloc(),
        &[5],
        LATER,
        "Some(NonEmptyVec { items: [5, 9, 8, 7, 6, 4, 3] })",
    );
}

#[test]
fn nothing_said_stays(rt: HostRuntime) {
    let rt = &rt;
    let mut all = ();
    all.merge(rt.alloc(), ()).expect(rt, "memory");
    equal(rt, &all.copy().expect(rt, "memory"), &());
}
