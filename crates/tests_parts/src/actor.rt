//! An actor over an opaque source, which asks again after 100. SUBS are subscribers with their marks, as `10:7,11:8`.
//!
//! | Line | Says | Prints |
//! |---|---|---|
//! | `at T` | sets the moment, and gives no input | |
//! | `fetch K S M`, `fetch-all LIST` | a subscriber wants a key; subscriber 10, with the mark 7, wants these keys at once | what is to be done |
//! | `fetched A V`, `fetched A none` | the source's answer to attempt A | |
//! | `verdict N W` | the verdict on delivery N | |
//! | `drop-key K`, `wake`, `stop` | nobody wants the key any more; keys may be due; nobody wants any key | |
//! | `show` | nothing | `key K subs SUBS phase F` of each key, and `wake W` |
//!
//! What is to be done is `start A K`, `abort A`, `deliver N K SUBS V`, with ` again R` behind it, and `cancel N`. An input
//! that is refused prints `refused N NAME`.

ghost use Rattle.std.specs.Prelude.{not, true, ◌==◌};
ghost use Rattle.std.proofs.Common.{rules};

use crate::support::{
    equal_lists, list, outcome, plays, plays_parts, print_refused, unreadable, value,
    write_subscribers,
};
use resolver_base::{Fault, Numbers};
use resolver_messages::{FetchKey, Predicate};
use resolver_opaque_actor::{Actor, Effect, Event, Input, Phase, Row};
use resolver_types::{NonEmptyVec, Outcome, Resolution};
use std::alloc::Global;
use std::fmt::Write;
use std::panic::Expect;
use std::process::Abort;
use tests_support::transcript::{Line, Said, cases, say_all};

/// Keeps the subscribers of every key but one.
#[derive(Drop)]
struct AllBut(u64);

impl Predicate<u64, u16> for AllBut {
    ghost keeps = { λ q key _. not (key == q.0) };

    fn keep(&self, key: &u64, _subscriber: &u16) -> bool {
        *key != self.0
    }

    ghost alike = { λ q k l s t same_key same_subscriber. Prim.search rules };
}

type Plain = Actor<u64, u32, u16, AllBut>;

type PlainEvent = Event<u64, u32, u16, AllBut>;

type PlainInput = Input<u64, u32, u16, AllBut>;

/// A key that is wanted.
type PlainItem = FetchKey<u64, u16, ()>;

type PlainEffect = Effect<u64, u32, u16>;

/// What an input gives.
type PlainAnswer = Result<Vec<PlainEffect>, Fault>;

fn item(rt: &impl Abort, alloc: Global, key: u64, subscriber: (u16, u64)) -> PlainItem {
    FetchKey {
        key,
        subscribers: NonEmptyVec::new(alloc, subscriber).expect(rt, "memory"),
        metadata: (),
    }
}

fn fetch(rt: &impl Abort, alloc: Global, key: u64, subscriber: (u16, u64)) -> PlainEvent {
    let mut items = Vec::new(alloc);
    items
        .push(item(rt, alloc, key, subscriber))
        .expect(rt, "memory");
    Event::Fetch(items)
}

/// A fetch of these keys, each for the subscriber 10.
fn fetch_all(rt: &impl Abort, alloc: Global, keys: &[u64]) -> PlainEvent {
    let mut items = Vec::new(alloc);
    for key in keys {
        items
            .push(item(rt, alloc, *key, (10, 7)))
            .expect(rt, "memory");
    }
    Event::Fetch(items)
}

fn at(now: u64, event: PlainEvent) -> PlainInput {
    Input {
        now: u128::from(now),
        event,
    }
}

/// The source's answer of the next field.
fn answer(rt: &impl Abort, line: &mut Line) -> Option<u32> {
    let field = line.field();
    if field == "none" {
        return None;
    }
    let digits = field.strip_prefix("x").unwrap_or("");
    match u32::from_str_radix(digits, 16) {
        Ok(value) => Some(value),
        Err(_) => unreadable(rt, line),
    }
}

/// The event that a line gives.
fn event_of(rt: &impl Abort, alloc: Global, word: &str, line: &mut Line) -> PlainEvent {
    match word {
        "fetch" => {
            let key = value(rt, line);
            fetch(rt, alloc, key, (value(rt, line), value(rt, line)))
        }
        "fetch-all" => {
            let keys = list(rt, alloc, line);
            let event = fetch_all(rt, alloc, keys.as_slice());
            event
        }
        "fetched" => Event::Fetched {
            attempt: value(rt, line),
            value: answer(rt, line),
        },
        "verdict" => Event::Verdict {
            number: value(rt, line),
            outcome: outcome(rt, line),
        },
        "drop-key" => Event::Retain(AllBut(value(rt, line))),
        "wake" => Event::RetriesDue,
        "stop" => Event::End,
        _ => unreadable(rt, line),
    }
}

/// Prints what an input gives.
fn print_answer(rt: &impl Abort, printed: &mut String, answer: &PlainAnswer) {
    match answer {
        Ok(effects) => print_effects(rt, printed, effects.as_slice()),
        Err(fault) => print_refused(rt, printed, *fault),
    }
}

fn print_effects(rt: &impl Abort, printed: &mut String, effects: &[PlainEffect]) {
    for effect in effects {
        print_effect(rt, printed, effect);
    }
}

fn print_effect(rt: &impl Abort, printed: &mut String, effect: &PlainEffect) {
    let written = match effect {
        Effect::Start { attempt, key } => writeln!(printed, "> start {attempt} {key}"),
        Effect::Abort { attempt } => writeln!(printed, "> abort {attempt}"),
        Effect::Deliver {
            number,
            response,
            delivery,
            value,
        } => {
            write!(printed, "> deliver {number} {} ", delivery.key).expect(rt, "memory");
            write_subscribers(rt, printed, &delivery.subscribers);
            if number == response {
                writeln!(printed, " x{value:x}")
            } else {
                writeln!(printed, " x{value:x} again {response}")
            }
        }
        Effect::Cancel { number } => writeln!(printed, "> cancel {number}"),
    };
    written.expect(rt, "memory");
}

/// Prints each key, and when the next one is due.
fn show(rt: &impl Abort, printed: &mut String, actor: &Plain) {
    let rows = actor.rows().expect(rt, "memory");
    for row in rows.as_slice() {
        print_row(rt, printed, row);
    }
    let written = match actor.next_retry() {
        Some(due) => writeln!(printed, "> wake {due}"),
        None => writeln!(printed, "> wake none"),
    };
    written.expect(rt, "memory");
}

fn print_row(rt: &impl Abort, printed: &mut String, row: &Row<u64, u16>) {
    write!(printed, "> key {} subs ", row.key).expect(rt, "memory");
    write_subscribers(rt, printed, &row.subscribers);
    let written = match row.phase {
        Phase::Waiting { due } => writeln!(printed, " phase waiting {due}"),
        Phase::Asked { attempt } => writeln!(printed, " phase asked {attempt}"),
        Phase::Judged { number } => writeln!(printed, " phase judged {number}"),
    };
    written.expect(rt, "memory");
}

/// An actor that takes an input a line, at its moment.
#[derive(Drop)]
struct Stepped<'a> {
    actor: &'a mut Plain,
    now: u64,
}

impl<R: Abort> Said<R> for Stepped<'_> {
    fn say(&mut self, rt: &R, line: &mut Line, printed: &mut String) {
        match line.field() {
            "at" => self.now = value(rt, line),
            "show" => show(rt, printed, self.actor),
            word => {
                let event = event_of(rt, *printed.allocator(), word, line);
                let answer = self.actor.step(at(self.now, event));
                print_answer(rt, printed, &answer);
            }
        }
    }
}

/// Plays the parts of a case, one after another.
fn play_parts(rt: &impl Abort, alloc: Global, actor: Plain, parts: &[&str]) {
    let mut actor = actor;
    let mut stepped = Stepped {
        actor: &mut actor,
        now: 0,
    };
    plays_parts(rt, alloc, &mut stepped, parts);
}

/// Plays each case behind a beginning, of a new actor.
fn play_behind(rt: &impl Abort, alloc: Global, before: &str, transcript: &str) {
    for case in cases(transcript) {
        play_parts(rt, alloc, Actor::new(alloc, 100), &[before, case]);
    }
}

/// Plays a case, of a new actor.
fn play_new(rt: &impl Abort, alloc: Global, case: &str) {
    play_parts(rt, alloc, Actor::new(alloc, 100), &[case]);
}

/// The inputs of a case.
#[derive(Drop)]
struct Inputs {
    inputs: Vec<PlainInput>,
    now: u64,
}

impl<R: Abort> Said<R> for Inputs {
    fn say(&mut self, rt: &R, line: &mut Line, printed: &mut String) {
        match line.field() {
            "at" => self.now = value(rt, line),
            "show" => (),
            word => {
                let event = event_of(rt, *printed.allocator(), word, line);
                self.inputs.push(at(self.now, event)).expect(rt, "memory");
            }
        }
    }
}

/// An actor that took all inputs in one run, and the answers that weren't printed so far.
#[derive(Drop)]
struct Ran<'a> {
    actor: &'a Plain,
    answers: &'a [PlainAnswer],
}

impl<R: Abort> Said<R> for Ran<'_> {
    fn say(&mut self, rt: &R, line: &mut Line, printed: &mut String) {
        match line.field() {
            "at" => drop::<u64>(value(rt, line)),
            "show" => show(rt, printed, self.actor),
            word => {
                drop(event_of(rt, *printed.allocator(), word, line));
                let (answer, rest) = self.answers.split_first().expect(rt, "an answer");
                print_answer(rt, printed, answer);
                self.answers = rest;
            }
        }
    }
}

/// Plays a case of a new actor that takes all its inputs in one run. The case shows rows at its end alone.
fn play_in_one_run(rt: &impl Abort, alloc: Global, case: &str) {
    let mut inputs = Inputs {
        inputs: Vec::new(alloc),
        now: 0,
    };
    say_all(rt, alloc, &mut inputs, case);
    let mut actor: Plain = Actor::new(alloc, 100);
    let answers = actor.run(inputs.inputs).expect(rt, "memory");
    let mut ran = Ran {
        actor: &actor,
        answers: answers.as_slice(),
    };
    plays(rt, alloc, &mut ran, case);
}

#[test]
fn opaque_first_run(rt: HostRuntime) {
    const CASE: &str = "# opaque_first_run
fetch 1 10 7
> start 0 1
fetched 0 x6869
> deliver 0 1 10:7 x6869
show
> key 1 subs 10:7 phase judged 0
> wake none
verdict 0 complete
show
> wake none";
    play_new(&rt, rt.alloc(), CASE);
}

// A list of inputs gets one answer each.
#[test]
fn a_run_waits_for_the_delay(rt: HostRuntime) {
    const CASE: &str = "# a_run_waits_for_the_delay
fetch 1 10 7
> start 0 1
at 5
fetched 0 none
show
> key 1 subs 10:7 phase waiting 105
> wake 105";
    play_in_one_run(&rt, rt.alloc(), CASE);
}

// What was asked and what was judged are called off by key, and a later step is refused.
#[test]
fn ends(rt: HostRuntime) {
    const CASE: &str = "# ends
fetch 2 20 0
> start 0 2
fetch 1 10 0
> start 1 1
fetched 0 x6869
> deliver 0 2 20:0 x6869
stop
> abort 1
> cancel 0
show
> wake none
fetch 3 30 0
> refused 3 Ended";
    play_new(&rt, rt.alloc(), CASE);
}

// What was judged is called off, and its verdict is passed over when the key is wanted again.
#[test]
fn dropped_then_fetched_again(rt: HostRuntime) {
    const CASE: &str = "# dropped_then_fetched_again
fetch 1 10 7
> start 0 1
fetched 0 x6869
> deliver 0 1 10:7 x6869
drop-key 1
> cancel 0
fetch 1 12 9
> start 1 1
verdict 0 complete
show
> key 1 subs 12:9 phase asked 1
> wake none";
    play_new(&rt, rt.alloc(), CASE);
}

// In one run, and one step after another.
#[test]
fn opaque_retry(rt: HostRuntime) {
    const CASE: &str = "# opaque_retry
fetch 1 10 7
> start 0 1
fetched 0 none
at 99
wake
at 100
wake
> start 1 1
fetched 0 xaa
fetch 1 10 9
show
> key 1 subs 10:7 phase asked 1
> wake none";
    play_in_one_run(&rt, rt.alloc(), CASE);
    play_new(&rt, rt.alloc(), CASE);
}

// The table of verdicts, with no subscriber left and with one that came late.
#[test]
fn every_outcome(rt: HostRuntime) {
    const BEFORE: &str = "# handed out
fetch 1 10 7
> start 0 1
fetched 0 x6869
> deliver 0 1 10:7 x6869
at 5";
    const ALONE: &str = "# alone, complete
verdict 0 complete
show
> wake none

# alone, dropped
verdict 0 dropped
show
> wake none

# alone, ignored
verdict 0 ignored
show
> wake none

# alone, partial
verdict 0 partial
show
> key 1 subs 10:7 phase waiting 105
> wake 105

# alone, unresolved
verdict 0 unresolved
show
> key 1 subs 10:7 phase waiting 105
> wake 105

# alone, invalid
verdict 0 invalid
show
> key 1 subs 10:7 phase waiting 105
> wake 105";
    const BEFORE_JOINED: &str = "# handed out and joined
fetch 1 10 7
> start 0 1
fetched 0 x6869
> deliver 0 1 10:7 x6869
fetch 1 11 8
at 5";
    const JOINED: &str = "# joined, complete
verdict 0 complete
> deliver 1 1 11:8 x6869 again 0
show
> key 1 subs 11:8 phase judged 1
> wake none

# joined, dropped
verdict 0 dropped
> deliver 1 1 11:8 x6869 again 0
show
> key 1 subs 11:8 phase judged 1
> wake none

# joined, ignored
verdict 0 ignored
show
> wake none

# joined, partial
verdict 0 partial
show
> key 1 subs 10:7,11:8 phase waiting 105
> wake 105

# joined, unresolved
verdict 0 unresolved
show
> key 1 subs 10:7,11:8 phase waiting 105
> wake 105

# joined, invalid
verdict 0 invalid
show
> key 1 subs 10:7,11:8 phase waiting 105
> wake 105";
    play_behind(&rt, rt.alloc(), BEFORE, ALONE);
    play_behind(&rt, rt.alloc(), BEFORE_JOINED, JOINED);
}

// A number whose key was dropped, or dropped and fetched again, is closed and changes nothing.
#[test]
fn every_outcome_canceled(rt: HostRuntime) {
    const BEFORE: &str = "# handed out and dropped
fetch 1 10 7
> start 0 1
fetched 0 x6869
> deliver 0 1 10:7 x6869
drop-key 1
> cancel 0
at 5";
    const CANCELED: &str = "# canceled, complete
verdict 0 complete
verdict 0 complete
show
> wake none

# canceled, dropped
verdict 0 dropped
verdict 0 dropped
show
> wake none

# canceled, ignored
verdict 0 ignored
verdict 0 ignored
show
> wake none

# canceled, partial
verdict 0 partial
verdict 0 partial
show
> wake none

# canceled, unresolved
verdict 0 unresolved
verdict 0 unresolved
show
> wake none

# canceled, invalid
verdict 0 invalid
verdict 0 invalid
show
> wake none";
    const BEFORE_ASKED: &str = "# handed out, dropped and asked for again
fetch 1 10 7
> start 0 1
fetched 0 x6869
> deliver 0 1 10:7 x6869
drop-key 1
> cancel 0
fetch 1 12 9
> start 1 1
at 5";
    const ASKED: &str = "# canceled and fetched again, complete
verdict 0 complete
verdict 0 complete
show
> key 1 subs 12:9 phase asked 1
> wake none

# canceled and fetched again, dropped
verdict 0 dropped
verdict 0 dropped
show
> key 1 subs 12:9 phase asked 1
> wake none

# canceled and fetched again, ignored
verdict 0 ignored
verdict 0 ignored
show
> key 1 subs 12:9 phase asked 1
> wake none

# canceled and fetched again, partial
verdict 0 partial
verdict 0 partial
show
> key 1 subs 12:9 phase asked 1
> wake none

# canceled and fetched again, unresolved
verdict 0 unresolved
verdict 0 unresolved
show
> key 1 subs 12:9 phase asked 1
> wake none

# canceled and fetched again, invalid
verdict 0 invalid
verdict 0 invalid
show
> key 1 subs 12:9 phase asked 1
> wake none";
    play_behind(&rt, rt.alloc(), BEFORE, CANCELED);
    play_behind(&rt, rt.alloc(), BEFORE_ASKED, ASKED);
}

// A response that was accepted retires its key where a later verdict says Invalid.
#[test]
fn a_conflict_retires(rt: HostRuntime) {
    const CASE: &str = "# a_conflict_retires
fetch 1 10 7
> start 0 1
fetched 0 x6869
> deliver 0 1 10:7 x6869
fetch 1 11 8
verdict 0 complete
> deliver 1 1 11:8 x6869 again 0
verdict 1 invalid
show
> wake none";
    play_new(&rt, rt.alloc(), CASE);
}

// An end in each phase: a key that waits has nothing to be called off.
#[test]
fn ends_in_each_phase(rt: HostRuntime) {
    const CASE: &str = "# ends_in_each_phase
fetch 3 10 0
> start 0 3
fetch 1 10 0
> start 1 1
fetch 2 10 0
> start 2 2
fetched 0 none
fetched 2 x1
> deliver 0 2 10:0 x1
stop
> abort 1
> cancel 0
show
> wake none
stop
> refused 3 Ended";
    play_new(&rt, rt.alloc(), CASE);
}

// Where no attempt is left, a new key is refused, and the actor has failed. A key that is there
// still takes subscribers before that.
#[test]
fn the_last_attempt_is_given_once(rt: HostRuntime) {
    const CASE: &str = "# the_last_attempt_is_given_once
fetch 1 10 7
> start 18446744073709551615 1
fetch 1 11 8
fetch 2 10 7
> refused 7 Exhausted
fetch 1 12 9
> refused 2 Failed
stop
> refused 2 Failed";
    let alloc = rt.alloc();
    let actor = Actor::starting_at(alloc, 100, Numbers::starting_at(u64::MAX));
    play_parts(&rt, alloc, actor, &[CASE]);
}

#[test]
fn fetches_of_each_length(rt: HostRuntime) {
    const CASES: &str = "# no key
fetch-all -
show
> wake none

# one key
fetch-all 1
> start 0 1
show
> key 1 subs 10:7 phase asked 0
> wake none

# three keys
fetch-all 3,1,2
> start 0 3
> start 1 1
> start 2 2
show
> key 1 subs 10:7 phase asked 1
> key 2 subs 10:7 phase asked 2
> key 3 subs 10:7 phase asked 0
> wake none";
    for case in cases(CASES) {
        play_new(&rt, rt.alloc(), case);
    }
}

#[test]
fn runs_of_no_input_and_of_one(rt: HostRuntime) {
    const CASES: &str = "# no input
show
> wake none

# one input
fetch 1 10 7
> start 0 1
show
> key 1 subs 10:7 phase asked 0
> wake none";
    for case in cases(CASES) {
        play_in_one_run(&rt, rt.alloc(), case);
    }
}

/// What one or more inputs made of many keys: how many effects each input had, if each had as many,
/// how many keys are demanded after them, and when one of these is due again.
#[derive(Clone, Copy, PartialEq, Eq, Debug)]
struct Tally(Option<usize>, usize, Option<u128>);

/// Fetches ten thousand keys and hands each out, judges the deliveries from the last on, has the
/// keys that wait asked for again, and ends.
fn play_crowd(rt: &impl Abort, alloc: Global) -> Vec<Tally> {
    let mut actor: Plain = Actor::new(alloc, 100);
    let mut tallies = Vec::new(alloc);
    take_crowd(rt, alloc, &mut actor, &mut tallies);
    tallies
}

fn take_crowd(rt: &impl Abort, alloc: Global, actor: &mut Plain, tallies: &mut Vec<Tally>) {
    let handed_out = hand_out_each(rt, alloc, actor);
    tallies
        .push(tally_of(rt, actor, handed_out))
        .expect(rt, "memory");
    let judged = judge_each(rt, actor);
    tallies
        .push(tally_of(rt, actor, judged))
        .expect(rt, "memory");
    take(rt, actor, 99, Event::RetriesDue, tallies);
    take(rt, actor, 100, Event::RetriesDue, tallies);
    take(rt, actor, 100, Event::End, tallies);
}

/// Fetches each key and hands it out, and gives up at a value with another count of effects than 1.
fn hand_out_each(rt: &impl Abort, alloc: Global, actor: &mut Plain) -> Option<usize> {
    for key in 0..10_000 {
        if hand_out_one(rt, alloc, actor, key) != 1 {
            return None;
        }
    }
    Some(1)
}

/// Fetches a key, and hands it out.
fn hand_out_one(rt: &impl Abort, alloc: Global, actor: &mut Plain, key: u64) -> usize {
    let _ = count(rt, actor, 0, fetch(rt, alloc, key, (10, 7)));
    let value = Event::Fetched {
        attempt: key,
        value: Some(1),
    };
    count(rt, actor, 0, value)
}

/// Judges each number from the last on, and gives up at one with an effect.
fn judge_each(rt: &impl Abort, actor: &mut Plain) -> Option<usize> {
    for number in (0..10_000).rev() {
        if judge_one(rt, actor, number) != 0 {
            return None;
        }
    }
    Some(0)
}

/// Judges a number: an even one is complete, and the key of an odd one waits.
fn judge_one(rt: &impl Abort, actor: &mut Plain, number: u64) -> usize {
    let outcome = if number % 2 == 0 {
        Some(Outcome::Resolved(Resolution::Complete))
    } else {
        Some(Outcome::Unresolved)
    };
    count(rt, actor, 0, Event::Verdict { number, outcome })
}

/// Takes an input, and tallies it.
fn take(rt: &impl Abort, actor: &mut Plain, now: u64, event: PlainEvent, tallies: &mut Vec<Tally>) {
    let effects = count(rt, actor, now, event);
    tallies
        .push(tally_of(rt, actor, Some(effects)))
        .expect(rt, "memory");
}

/// How many effects an input has.
fn count(rt: &impl Abort, actor: &mut Plain, now: u64, event: PlainEvent) -> usize {
    let effects = actor
        .step(at(now, event))
        .expect(rt, "an input that is taken");
    effects.len()
}

fn tally_of(rt: &impl Abort, actor: &Plain, effects: Option<usize>) -> Tally {
    let rows = actor.rows().expect(rt, "memory");
    let demanded = rows.len();
    Tally(effects, demanded, actor.next_retry())
}

// Ten thousand deliveries are open at once, and closed from the last on.
#[test]
fn ten_thousand_deliveries(rt: HostRuntime) {
    const EXPECTED: &[Tally] = &[
        Tally(Some(1), 10_000, None),
        Tally(Some(0), 5_000, Some(100)),
        Tally(Some(0), 5_000, Some(100)),
        Tally(Some(5_000), 5_000, None),
        Tally(Some(5_000), 0, None),
    ];
    let tallies = play_crowd(&rt, rt.alloc());
    equal_lists(&rt, tallies.as_slice(), EXPECTED);
}
