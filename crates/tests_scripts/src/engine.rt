use crate::cores::{Given, PlainEffect, PlainInput, input_of, make_core};
use crate::support::assert_same;
use bytes::Bytes;
use resolver::base::Fault;
use resolver::p2p::effects::Effect;
use resolver::p2p::fetcher::Ask;
use resolver::p2p::mocks::{Consumer, Key, Producer, Quiet};
use resolver::p2p::rows::{Phase, Row};
use resolver::p2p::{Config, Engine, Metrics};
use resolver_script::kept::Kept;
use resolver_script::peer::Peer;
use std::alloc::Global;
use std::fmt::Write;
use std::num::NonZeroUsize;
use std::panic::Expect;
use std::process::Abort;

/// An engine that nobody talks to.
type Silent<R> = Engine<
    Peer,
    Quiet<Peer>,
    Quiet<Peer>,
    Key,
    u16,
    Consumer<Key, Bytes, u16>,
    Producer<Key, &'static str>,
    Kept,
    R,
>;

/// What it answers.
type Answered = Result<Vec<PlainEffect>, Fault>;

/// What the row `peer_refusals` of the worked rows is given: a scan that sends its request, with answers and events
/// that it refuses.
const GIVEN: &[Given] = &[
    Given::Peers(&[3, 4, 9]),
    Given::Fetch(1, 10),
    Given::Drawn(0),
    Given::Drawn(2),
    Given::Wake,
    Given::Sent(true),
    Given::Drawn(1),
    Given::Clear,
    Given::Drawn(1234),
    Given::Sent(true),
];

fn inputs(rt: &impl Abort, alloc: Global) -> Vec<PlainInput> {
    let mut inputs = Vec::new(alloc);
    for given in GIVEN {
        add(rt, &mut inputs, input_of(rt, alloc, 0, *given));
    }
    inputs
}

fn add(rt: &impl Abort, inputs: &mut Vec<PlainInput>, input: PlainInput) {
    inputs.push(input).expect(rt, "memory");
}

/// Writes a word, and a number behind it.
fn spell_number(rt: &impl Abort, text: &mut String, word: &str, number: u128) {
    write!(text, " {word} {number}").expect(rt, "memory");
}

fn spell_ask(rt: &impl Abort, text: &mut String, ask: &Ask<Key, Peer>) {
    match ask {
        Ask::Draw(below) => spell_number(rt, text, "draw", *below),
        Ask::Check(peer) => spell_number(rt, text, "check", u128::from(peer.0)),
        Ask::Request { peer, id, key, .. } => {
            spell_number(rt, text, "request", u128::from(peer.0));
            write!(text, " {id} {}", key.0).expect(rt, "memory");
        }
    }
}

fn spell_effect(rt: &impl Abort, text: &mut String, effect: &PlainEffect) {
    match effect {
        Effect::Ask(ask) => spell_ask(rt, text, ask),
        _ => text.push_str(" other").expect(rt, "memory"),
    }
}

fn spell_effects(rt: &impl Abort, text: &mut String, effects: &[PlainEffect]) {
    for effect in effects {
        spell_effect(rt, text, effect);
    }
}

fn spell_refusal(rt: &impl Abort, text: &mut String, fault: Fault) {
    write!(text, " refused {} {}", fault.number(), fault.name()).expect(rt, "memory");
}

/// Writes an answer on its line.
fn spell_answer(rt: &impl Abort, text: &mut String, answer: &Answered) {
    match answer {
        Ok(effects) => spell_effects(rt, text, effects.as_slice()),
        Err(fault) => spell_refusal(rt, text, *fault),
    }
    text.push('\n').expect(rt, "memory");
}

fn spell_phase(rt: &impl Abort, text: &mut String, phase: &Phase<Peer>) {
    match phase {
        Phase::Asked { id, peer, deadline } => {
            writeln!(text, " asked {id} {} {deadline}", peer.0).expect(rt, "memory");
        }
        _ => text.push_str(" idle\n").expect(rt, "memory"),
    }
}

fn spell_key(rt: &impl Abort, text: &mut String, key: Key, first: &(u16, u64), retries: u32) {
    let (subscriber, mark) = first;
    let Key(key) = key;
    write!(text, "key {key} subs {subscriber}:{mark} retries {retries}").expect(rt, "memory");
}

fn spell_row(rt: &impl Abort, text: &mut String, row: &Row<Key, u16, Peer>) {
    spell_key(rt, text, row.key, row.subscribers.first(), row.retries);
    spell_phase(rt, text, &row.phase);
}

/// Writes answers, each on its line.
fn spell_answers(rt: &impl Abort, text: &mut String, answers: &[Answered]) {
    for answer in answers {
        spell_answer(rt, text, answer);
    }
}

fn spell_rows(rt: &impl Abort, text: &mut String, rows: &[Row<Key, u16, Peer>]) {
    for row in rows {
        spell_row(rt, text, row);
    }
}

/// Writes the row of one key, or that the key isn't demanded.
fn spell_found(
    rt: &impl Abort,
    text: &mut String,
    row: Result<Option<Row<Key, u16, Peer>>, Fault>,
) {
    match row.expect(rt, "memory") {
        Some(row) => spell_row(rt, text, &row),
        None => text.push_str("no row\n").expect(rt, "memory"),
    }
}

/// Writes how many keys wait, how many requests have no answer, and how many were sent.
fn spell_counts(rt: &impl Abort, text: &mut String, counted: &Metrics) {
    let sent = counted.requests_sent.success;
    let waiting = counted.fetch_pending;
    let asked = counted.fetch_active;
    writeln!(text, "waiting {waiting} asked {asked} sent {sent}").expect(rt, "memory");
}

/// When it is time to ask again, and when a request's time is over.
type Due = (Option<u128>, Option<u128>);

fn spell_due(rt: &impl Abort, text: &mut String, due: Due) {
    let (wake, timeout) = due;
    writeln!(text, "wake {wake:?} timeout {timeout:?}").expect(rt, "memory");
}

/// Writes the rows, what is due, and the counts.
fn spell_state(
    rt: &impl Abort,
    text: &mut String,
    rows: &[Row<Key, u16, Peer>],
    due: Due,
    counted: &Metrics,
) {
    spell_rows(rt, text, rows);
    spell_due(rt, text, due);
    spell_counts(rt, text, counted);
}

/// What the row `peer_refusals` of the worked rows prints, with an empty line for each input that
/// has no effect, and behind it the counts, the row of key 1 once more, and that key 2 has none.
const PRINTED: &str = "
 draw 4
 draw 2
 refused 6 OutOfRange
 refused 4 Busy
 refused 5 Unasked
 check 4
 draw 18446744073709551616
 request 4 1234 1

key 1 subs 10:7 retries 0 asked 1234 4 50
wake None timeout Some(50)
waiting 0 asked 1 sent 1
key 1 subs 10:7 retries 0 asked 1234 4 50
no row
";

/// Gives an engine the inputs, in one run or one by one, and writes what it answers and how it stands then.
fn drive<R>(rt: &impl Abort, text: &mut String, engine: &mut Silent<R>, is_one_run: bool) {
    let alloc = *text.allocator();
    if is_one_run {
        let answers = engine.run(inputs(rt, alloc)).expect(rt, "memory");
        spell_answers(rt, text, answers.as_slice());
    } else {
        for given in GIVEN {
            let answer = engine.step(input_of(rt, alloc, 0, *given));
            spell_answer(rt, text, &answer);
        }
    }
    let rows = engine.rows().expect(rt, "memory");
    let due = (engine.get_pending_deadline(), engine.get_active_deadline());
    spell_state(rt, text, rows.as_slice(), due, &engine.metrics());
    spell_found(rt, text, engine.row(&Key(1)));
    spell_found(rt, text, engine.row(&Key(2)));
}

/// What an engine that is called 9, with a timeout of 50 and a delay of 10, writes of the inputs.
fn printed<R: Abort + Copy + Drop>(rt: R, alloc: Global, is_one_run: bool) -> String {
    let mailbox_size = NonZeroUsize::new(4).expect(&rt, "a size");
    let consumer = Consumer::dummy(alloc).expect(&rt, "memory");
    let cfg = Config {
        peer_provider: Quiet::new(),
        blocker: Quiet::new(),
        consumer,
        producer: Producer::new(alloc),
        mailbox_size,
        me: Some(Peer(9)),
        fetch_timeout: 50,
        fetch_retry_delay: 10,
        peer_limit: None,
        priority_requests: false,
        priority_responses: false,
    };
    let (engine, mailbox) = Engine::new(rt, alloc, cfg).expect(&rt, "an engine");
    // By hand: by scope this function takes 101 seconds to prove.
    drop(mailbox);
    let mut engine: Silent<R> = engine;
    let mut text = String::new(alloc);
    drive(&rt, &mut text, &mut engine, is_one_run);
    drop(engine);
    text
}

/// What a core by itself, which takes the inputs in one run, writes of them.
fn printed_of_core(rt: &impl Abort, alloc: Global) -> String {
    let mut core = make_core(alloc, Some(Peer(9)));
    let mut text = String::new(alloc);
    let answers = core.run(inputs(rt, alloc)).expect(rt, "memory");
    spell_answers(rt, &mut text, answers.as_slice());
    // By hand: by scope this function takes 48 seconds to prove.
    drop(answers);
    let rows = core.rows().expect(rt, "memory");
    let due = (core.get_pending_deadline(), core.get_active_deadline());
    spell_state(rt, &mut text, rows.as_slice(), due, &core.metrics());
    drop(rows);
    spell_found(rt, &mut text, core.row(&Key(1)));
    spell_found(rt, &mut text, core.row(&Key(2)));
    drop(core);
    text
}

#[test]
fn peer_refusals_step_by_step(rt: HostRuntime) {
    let text = printed(rt, rt.alloc(), false);
    assert_same(&rt, text.as_str(), PRINTED);
}

#[test]
fn peer_refusals_in_one_run(rt: HostRuntime) {
    let text = printed(rt, rt.alloc(), true);
    assert_same(&rt, text.as_str(), PRINTED);
}

#[test]
fn peer_refusals_of_a_core(rt: HostRuntime) {
    let text = printed_of_core(&rt, rt.alloc());
    assert_same(&rt, text.as_str(), PRINTED);
}
