//! What a line says to a fetcher.
//!
//! | Line | Says | Prints |
//! |---|---|---|
//! | `peers LIST`, `crowd N`, `blocked LIST` | the peers of a set, or those from 1 to N; all peers that are blocked | |
//! | `ready K T`, `retry K T` | the key waits from T on, or waits to be tried again | |
//! | `target K LIST` | the key may be asked of these peers, too, and of no others | |
//! | `record P N NS COUNT`, `record-each N` | N times, peer P took NS nanoseconds for COUNT bytes; each of the peers from 1 to N took a second for one byte less than its number | |
//! | `scan T` | it is time to look for keys to ask for | a question, as below |
//! | `drawn N`, `checked clear`, `checked T`, `sent accepted`, `sent refused` | the answer to the question | the next one, or what is refused |
//! | `fetch T DRAWS CHECKS SENDS` | a whole scan, which gets these answers and no others | `draw`, `check`, and `send` with the message, and `first` where it goes before others |
//! | `response P T`, `missing P T`, `overdue T` | a peer responds under the id 5, or says that it has nothing; the time of a request may be over | the key that was asked for |
//! | `phase K`, `counts K`, `targets K`, `weight P`, `wakes`, `deadline`, `fresh`, `retries`, `shown` | | what is seen of the key, of the peer, of the requests, of a queue, and of the fetcher |
//!
//! Questions are printed as `draw B`, `check P` and `request P ID K`, with `first` where it goes before other messages.

ghost use Rattle.std.specs.Prelude.{◌≡◌};
ghost use Rattle.resolver_fetch_scan.specs.Fetcher.{IsTimely};

use crate::fetcher::network::{Answers, Network, Numbers, Told};
use crate::support::{
    Part, equal, holds, list, plays_parts, print, print_refused, unreadable, value,
};
use resolver_base::{Check, Fault, Feedback, Unreliable};
use resolver_fetch::fetcher::{Answer, Ask, Config, Fetcher, ID};
use resolver_priority_set::PrioritySet;
use resolver_sampling::score::DURATION_MAX;
use resolver_types::NonEmptyVec;
use std::alloc::Global;
use std::cell::Cell;
use std::fmt::{Debug, Display, Write};
use std::num::NonZeroU32;
use std::panic::Expect;
use std::process::Abort;
use tests_support::names::Letter;
use tests_support::transcript::{Line, Said};

/// How requests are made here: there is no local name, and a retry waits so long.
pub fn delayed(delay: u32) -> Config<Letter>
    ensures timely { IsTimely result.fetch_timeout result.retry_delay }
{
    Config {
        me: None,
        fetch_timeout: 50,
        retry_delay: u128::from(delay),
        peer_limit: None,
        priority_requests: false,
    }
}

/// The same, where one peer may have one request.
pub fn sparing() -> Config<Letter>
    ensures timely { IsTimely result.fetch_timeout result.retry_delay }
{
    Config {
        me: None,
        fetch_timeout: 50,
        retry_delay: 10,
        peer_limit: NonZeroU32::new(1),
        priority_requests: false,
    }
}

/// The peers of these numbers.
pub fn peers_of(rt: &impl Abort, alloc: Global, names: &[u8]) -> Vec<Letter> {
    let mut peers = Vec::new(alloc);
    for name in names {
        peers.push(Letter(*name)).expect(rt, "memory");
    }
    peers
}

/// The peers of the next field.
fn peers(rt: &impl Abort, alloc: Global, line: &mut Line) -> Vec<Letter> {
    let names = list(rt, alloc, line);
    let peers = peers_of(rt, alloc, names.as_slice());
    peers
}

/// So many peers, whose names are the numbers from 1 on.
fn crowd(rt: &impl Abort, alloc: Global, count: u8) -> Vec<Letter> {
    let mut peers = Vec::new(alloc);
    for name in 1..=count {
        peers.push(Letter(name)).expect(rt, "memory");
    }
    peers
}

pub type Node = Fetcher<Letter, Letter>;

/// Takes these peers in place of the latest set, or as the ones that are blocked.
pub fn set_peers<K: Ord + Drop, P: Ord + Drop>(
    rt: &impl Abort,
    fetcher: &mut Fetcher<K, P>,
    peers: Vec<P>,
    are_blocked: bool,
) {
    holds(rt, !fetcher.is_scanning());
    let taken = if are_blocked {
        fetcher.set_blocked(peers)
    } else {
        fetcher.reconcile(peers)
    };
    taken.expect(rt, "memory");
}

/// A key waits from now on, or waits to be tried again.
pub fn wait<K: Ord + Clone + Drop, P: Ord + Drop>(
    rt: &impl Abort,
    fetcher: &mut Fetcher<K, P>,
    key: K,
    at: u64,
    is_retry: bool,
)
    requires keys_clone { (x y : K) → K.is_clone x y → y ≡ x }
{
    holds(rt, !fetcher.is_scanning());
    holds(rt, !fetcher.is_waiting(&key));
    holds(rt, !fetcher.is_asked(&key));
    let now = u128::from(at);
    let added = if is_retry {
        fetcher.add_retry(key, now)
    } else {
        fetcher.add_ready(key, now)
    };
    added.expect(rt, "memory");
}

/// A key may be asked of these peers too, and of no others.
fn add_targets<K: Ord + Drop, P: Ord + Clone + Drop>(
    rt: &impl Abort,
    fetcher: &mut Fetcher<K, P>,
    key: K,
    peers: Vec<P>,
)
    requires peers_clone { (x y : P) → P.is_clone x y → y ≡ x }
{
    let targets = NonEmptyVec::try_from(peers).ok().expect(rt, "targets");
    holds(rt, !fetcher.is_scanning());
    fetcher.add_targets(key, targets).expect(rt, "memory");
}

/// Takes in a response of a peer.
fn record<K: Ord + Drop, P: Ord + Drop>(
    rt: &impl Abort,
    fetcher: &mut Fetcher<K, P>,
    peer: &P,
    elapsed: u64,
    bytes: u64,
) {
    holds(rt, !fetcher.is_scanning());
    fetcher.record_response(peer, u128::from(elapsed), bytes);
}

/// Takes in so many responses of a peer, each after this time and with these bytes.
fn record_all(rt: &impl Abort, fetcher: &mut Node, line: &mut Line) {
    let peer = Letter(value(rt, line));
    let count: u64 = value(rt, line);
    let (elapsed, bytes) = (value(rt, line), value(rt, line));
    for _ in 0..count {
        record(rt, fetcher, &peer, elapsed, bytes);
    }
}

/// Takes in a response of each of so many peers, after a second. Each weighs its number then.
fn record_each(rt: &impl Abort, fetcher: &mut Node, count: u8) {
    for bytes in 0..count {
        let peer = Letter(bytes.saturating_add(1));
        record(rt, fetcher, &peer, 1_000_000_000, u64::from(bytes));
    }
}

/// Prints the question of a scan, if there is one, or what was refused.
fn print_question<K: Display + Drop, P: Display + Drop>(
    rt: &impl Abort,
    printed: &mut String,
    question: Result<Option<Ask<K, P>>, Fault>,
) {
    let written = match &question {
        Ok(Some(Ask::Draw(bound))) => writeln!(printed, "> draw {bound}"),
        Ok(Some(Ask::Check(peer))) => writeln!(printed, "> check {peer}"),
        Ok(
            Some(
                Ask::Request {
                    peer,
                    id,
                    key,
                    priority,
                },
            ),
        ) => {
            let first = if *priority { " first" } else { "" };
            writeln!(printed, "> request {peer} {id} {key}{first}")
        }
        Ok(None) => Ok(()),
        Err(fault) => {
            print_refused(rt, printed, *fault);
            Ok(())
        }
    };
    written.expect(rt, "memory");
}

/// Gives an answer.
fn answer<K: Ord + Clone + Display + Drop, P: Ord + Clone + Display + Drop>(
    rt: &impl Abort,
    printed: &mut String,
    fetcher: &mut Fetcher<K, P>,
    answer: Answer,
)
    requires keys_clone { (x y : K) → K.is_clone x y → y ≡ x }
    requires peers_clone { (x y : P) → P.is_clone x y → y ≡ x }
{
    print_question(rt, printed, fetcher.scan_answer(answer));
}

/// What a check says, by a word: that the peer may be sent to, or not before a moment.
fn check(rt: &impl Abort, word: &str, line: &Line) -> Check {
    if word == "clear" {
        return Check::Clear;
    }
    match word.parse::<u128>() {
        Ok(moment) => Check::Until(moment),
        Err(_) => unreadable(rt, line),
    }
}

/// Whether a request was sent.
fn is_sent(rt: &impl Abort, line: &mut Line) -> bool {
    match line.field() {
        "accepted" => true,
        "refused" => false,
        _ => unreadable(rt, line),
    }
}

/// The answer of a line.
fn answer_of(rt: &impl Abort, word: &str, line: &mut Line) -> Answer {
    match word {
        "drawn" => Answer::Drawn(value(rt, line)),
        "checked" => {
            let field = line.field();
            Answer::Checked(check(rt, field, line))
        }
        _ => Answer::Sent(is_sent(rt, line)),
    }
}

/// At a moment a scan begins, a peer responds or says that the data is missing, both under the id 5, or the time of a
/// request is over.
fn happen<K: Ord + Clone + Debug + Display + Drop, P: Ord + Clone + Display + Drop>(
    rt: &impl Abort,
    printed: &mut String,
    fetcher: &mut Fetcher<K, P>,
    word: &str,
    at: u128,
    peer: &P,
)
    requires keys_clone { (x y : K) → K.is_clone x y → y ≡ x }
    requires peers_clone { (x y : P) → P.is_clone x y → y ≡ x }
{
    holds(rt, !fetcher.is_scanning());
    holds(rt, at <= DURATION_MAX);
    match word {
        "scan" => print_question(rt, printed, fetcher.scan_begin(at)),
        "response" => print(rt, printed, fetcher.pop_response(5, peer, at)),
        "missing" => print(rt, printed, fetcher.pop_missing(5, peer, at)),
        _ => print(rt, printed, fetcher.pop_active(at)),
    }
}

/// The checks of the next field.
fn checks(rt: &impl Abort, alloc: Global, line: &mut Line) -> Vec<Check> {
    let mut checks = Vec::new(alloc);
    let field = line.field();
    if field == "-" {
        return checks;
    }
    for word in field.split(',') {
        checks.push(check(rt, word, line)).expect(rt, "memory");
    }
    checks
}

/// What becomes of a message.
fn send(rt: &impl Abort, word: &str, line: &Line) -> Unreliable {
    match word {
        "accepted" => Unreliable::Outcome(Feedback::Ok),
        "slowly" => Unreliable::Outcome(Feedback::Backoff),
        "closed" => Unreliable::Outcome(Feedback::Closed),
        "rejected" => Unreliable::Rejected,
        _ => unreadable(rt, line),
    }
}

/// The sends of the next field.
fn sends(rt: &impl Abort, alloc: Global, line: &mut Line) -> Vec<Unreliable> {
    let mut sends = Vec::new(alloc);
    let field = line.field();
    if field == "-" {
        return sends;
    }
    for word in field.split(',') {
        sends.push(send(rt, word, line)).expect(rt, "memory");
    }
    sends
}

/// A whole scan, which gets the answers of its line. Ends the test where it wants others.
fn fetch(rt: &impl Abort, printed: &mut String, fetcher: &mut Node, line: &mut Line) {
    let alloc = *printed.allocator();
    let at = value(rt, line);
    let answers = Answers {
        draws: list(rt, alloc, line),
        checks: checks(rt, alloc, line),
        sends: sends(rt, alloc, line),
    };
    let lines = Cell::new(String::new(alloc));
    fetch_over(rt, fetcher, at, &answers, &lines);
    let lines = lines.into_inner();
    printed.push_str(lines.as_str()).expect(rt, "memory");
}

/// Fetches over a network and draws that have these answers.
fn fetch_over(
    rt: &impl Abort,
    fetcher: &mut Node,
    at: u64,
    answers: &Answers,
    lines: &Cell<String>,
) {
    let alloc = *answers.draws.allocator();
    let mut network = Network {
        told: Told { alloc, lines },
        checks: answers.checks.as_slice(),
        sends: answers.sends.as_slice(),
        checked: 0,
        sent: 0,
        is_right: true,
    };
    let mut numbers = Numbers {
        told: Told { alloc, lines },
        draws: answers.draws.as_slice(),
        drawn: 0,
        is_right: true,
    };
    holds(rt, !fetcher.is_scanning());
    let fetched = fetcher.fetch(&mut network, &mut numbers, u128::from(at));
    fetched.expect(rt, "memory");
    holds(rt, !fetcher.is_scanning());
    holds(rt, network.is_right && numbers.is_right);
    let counts = (network.checked, network.sent, numbers.drawn);
    let wanted = (
        answers.checks.len(),
        answers.sends.len(),
        answers.draws.len(),
    );
    equal(rt, &counts, &wanted);
}

/// Says a line of peers, of keys or of a whole scan, or one of the others.
fn give(rt: &impl Abort, printed: &mut String, fetcher: &mut Node, word: &str, line: &mut Line) {
    let alloc = *printed.allocator();
    match word {
        "peers" | "blocked" => {
            let peers = peers(rt, alloc, line);
            set_peers(rt, fetcher, peers, word == "blocked");
        }
        "crowd" => set_peers(rt, fetcher, crowd(rt, alloc, value(rt, line)), false),
        "ready" | "retry" => {
            let key = Letter(value(rt, line));
            wait(rt, fetcher, key, value(rt, line), word == "retry");
        }
        "target" => {
            let key = Letter(value(rt, line));
            add_targets(rt, fetcher, key, peers(rt, alloc, line));
        }
        "fetch" => fetch(rt, printed, fetcher, line),
        _ => scan(rt, printed, fetcher, word, line),
    }
}

/// Says a line of a scan or of requests, or one that looks at a fetcher.
fn scan(rt: &impl Abort, printed: &mut String, fetcher: &mut Node, word: &str, line: &mut Line) {
    match word {
        "scan" | "overdue" => happen(rt, printed, fetcher, word, value(rt, line), &Letter(0)),
        "response" | "missing" => {
            let peer = Letter(value(rt, line));
            happen(rt, printed, fetcher, word, value(rt, line), &peer);
        }
        "drawn" | "checked" | "sent" => {
            answer(rt, printed, fetcher, answer_of(rt, word, line));
        }
        "record" => record_all(rt, fetcher, line),
        "record-each" => record_each(rt, fetcher, value(rt, line)),
        "phase" | "counts" | "targets" | "weight" => {
            look(rt, printed, fetcher, word, &Letter(value(rt, line)));
        }
        _ => look_over(rt, printed, fetcher, word, line),
    }
}

/// Under which id a key is asked for, and of whom.
fn asked<'a, K: Ord + Drop, P: Ord + Drop>(
    fetcher: &'a Fetcher<K, P>,
    key: &K,
) -> Option<(ID, &'a P)> {
    let (id, request) = fetcher.request(key)?;
    Some((id, &request.peer))
}

/// Prints how many keys a queue has, and the first with its due.
fn print_queue<K: Ord + Debug + Drop>(
    rt: &impl Abort,
    printed: &mut String,
    queue: &PrioritySet<K, u128>,
) {
    print(rt, printed, (queue.len(), queue.peek()));
}

/// Prints where a key waits and under which id it is asked for, whether it waits and how often it was put back with
/// how many requests there are and whether a scan is open, its targets, or the weight of a peer.
fn look<K: Ord + Debug + Drop>(
    rt: &impl Abort,
    printed: &mut String,
    fetcher: &Fetcher<K, K>,
    word: &str,
    name: &K,
) {
    match word {
        "phase" => print(rt, printed, (fetcher.place(name), asked(fetcher, name))),
        "counts" => {
            let of_key = (fetcher.is_waiting(name), fetcher.retries(name));
            let counts = (of_key, fetcher.len_active(), fetcher.is_scanning());
            print(rt, printed, counts);
        }
        "weight" => print(rt, printed, fetcher.weight(name)),
        _ => print(
            rt,
            printed,
            (fetcher.has_targets(name), fetcher.targets(name)),
        ),
    }
}

/// Prints when to look again, what a queue has, or the fetcher's own text. Ends the test where no line has this word.
fn look_over<K: Ord + Debug + Drop>(
    rt: &impl Abort,
    printed: &mut String,
    fetcher: &Fetcher<K, K>,
    word: &str,
    line: &Line,
) {
    match word {
        "wakes" => print(rt, printed, fetcher.get_pending_deadline()),
        "deadline" => print(rt, printed, fetcher.get_active_deadline()),
        "fresh" => print_queue(rt, printed, fetcher.fresh_queue()),
        "retries" => print_queue(rt, printed, fetcher.retry_queue()),
        "shown" => print(rt, printed, fetcher),
        _ => unreadable(rt, line),
    }
}

impl<R: Abort> Said<R> for Part<'_, Node> {
    fn say(&mut self, rt: &R, line: &mut Line, printed: &mut String) {
        let word = line.field();
        give(rt, printed, self.0, word, line);
    }
}

/// Plays the parts of a case, one after another, of a new fetcher.
pub fn play_parts(rt: &impl Abort, alloc: Global, config: Config<Letter>, parts: &[&str])
    requires timely { IsTimely config.fetch_timeout config.retry_delay }
{
    let mut fetcher: Node = Fetcher::new(alloc, config);
    plays_parts(rt, alloc, &mut Part(&mut fetcher), parts);
}

/// The same of a case in one part, of one that is made by the usual rule.
pub fn play_usual(rt: &impl Abort, alloc: Global, case: &str) {
    play_parts(rt, alloc, delayed(10), &[case]);
}
