//! What an engine's core takes, as lines of a script for `resolver-replay`, and what such a script has.

use crate::fakes::acts::Act;
use crate::fakes::world::Setting;
use crate::pair::{Acts, Play, with_pairs};
use crate::support::assert_same;
use crate::twin::Happened;
use resolver::base::Check;
use resolver::p2p::FetchKey;
use resolver::p2p::fetcher::Answer;
use resolver::p2p::inputs::Event;
use resolver::p2p::mocks::Key;
use resolver::{Outcome, Resolution};
use std::fmt::{Display, Write};
use std::io::Print;
use std::panic::Expect;
use std::process::Abort;
use tests_support::names::Peer;
use tests_support::seen::{Hex, Wrong};

/// A verdict's word.
fn word_of(outcome: Option<Outcome>) -> &'static str {
    match outcome {
        Some(Outcome::Resolved(Resolution::Complete)) => "complete",
        Some(Outcome::Resolved(Resolution::Partial)) => "partial",
        Some(Outcome::Unresolved) => "unresolved",
        Some(Outcome::Invalid) => "invalid",
        Some(Outcome::Ignored) => "ignored",
        None => "dropped",
    }
}

/// A line, with its LF.
fn put(rt: &impl Abort, lines: &mut String, line: &str) {
    lines.push_str(line).expect(rt, "memory");
}

/// A line of a word and a number.
pub fn write_number(rt: &impl Abort, lines: &mut String, word: &str, number: u128) {
    writeln!(lines, "{word} {number}").expect(rt, "memory");
}

/// A line of a word, a number and what is said of it.
fn write_said(
    rt: &impl Abort,
    lines: &mut String,
    word: &str,
    number: u64,
    said: impl Display + Copy,
) {
    writeln!(lines, "{word} {number} {said}").expect(rt, "memory");
}

/// A line says one fetch. Where a message has several, the line is a comment.
fn write_fetch(rt: &impl Abort, lines: &mut String, items: &[FetchKey<Key, Peer, u16>]) {
    match items {
        [item] => {
            let (subscriber, mark) = item.subscribers.first();
            let written = write!(lines, "fetch {} {subscriber} {mark}", item.key.0);
            written.expect(rt, "memory");
            match &item.metadata {
                Some(targets) => {
                    put(rt, lines, " ");
                    write_peers(rt, lines, targets.as_slice());
                }
                None => put(rt, lines, "\n"),
            }
        }
        _ => put(rt, lines, "# fetches by one message\n"),
    }
}

/// The rest of a line that lists peers: joined by commas; a dash where there is none.
fn write_peers(rt: &impl Abort, lines: &mut String, peers: &[Peer]) {
    let mut comma = "";
    for peer in peers {
        write!(lines, "{comma}{}", peer.0).expect(rt, "memory");
        comma = ",";
    }
    put(rt, lines, if peers.is_empty() { "-\n" } else { "\n" });
}

/// A retain of the subscribers below this one, of which there are 10 and 11, and of keys below 255.
fn line_of_retain(below: u16) -> &'static str {
    match below {
        ..=10 => "keep-sub 0\n",
        11 => "keep-sub 10\n",
        _ => "drop-key 255\n",
    }
}

/// A core takes this event. Its retains are written for subscribers 10 and 11.
pub fn write_event(rt: &impl Abort, lines: &mut String, event: &Happened) {
    match event {
        Event::Fetch(items) => write_fetch(rt, lines, items.as_slice()),
        Event::PeerSet { index, peers } => {
            write!(lines, "peers {index} ").expect(rt, "memory");
            write_peers(rt, lines, peers.as_slice());
        }
        Event::Blocked(peers) => {
            put(rt, lines, "blocked ");
            write_peers(rt, lines, peers.as_slice());
        }
        Event::ActiveDue => put(rt, lines, "timeout\n"),
        Event::PendingDue => put(rt, lines, "wake\n"),
        Event::Verdict { number, outcome } => {
            write_said(rt, lines, "verdict", *number, word_of(*outcome));
        }
        Event::Served { serve, value } => match value {
            Some(value) => write_said(rt, lines, "served", *serve, Hex(value.as_slice())),
            None => write_said(rt, lines, "served", *serve, "dropped"),
        },
        Event::Net { peer, bytes } => {
            write_said(rt, lines, "net", u64::from(peer.0), Hex(bytes.as_slice()));
        }
        Event::Retain(below) => put(rt, lines, line_of_retain(below.0)),
        Event::End => put(rt, lines, "stop\n"),
    }
}

/// A core takes this answer.
pub fn write_answer(rt: &impl Abort, lines: &mut String, answer: Answer) {
    match answer {
        Answer::Drawn(number) => write_number(rt, lines, "drawn", number),
        Answer::Checked(Check::Clear) => put(rt, lines, "checked clear\n"),
        Answer::Checked(Check::Until(moment)) => write_number(rt, lines, "checked", moment),
        Answer::Sent(true) => put(rt, lines, "sent accepted\n"),
        Answer::Sent(false) => put(rt, lines, "sent refused\n"),
    }
}

/// A key is fetched and served, and another runs out of time and is refused.
const ACTS: &[Act] = &[
    Act::Peers(1, &[2, 9]),
    Act::Fetch(&[(5, 10)]),
    Act::At(20),
    Act::Net(2, b"\0\0\0\0\0\0\0\0\x01\x02hi"),
    Act::Judge(Outcome::Resolved(Resolution::Complete)),
    Act::Net(2, b"\0\0\0\0\0\0\0\x07\0\x05"),
    Act::Serve(b"ok"),
    Act::Fetch(&[(6, 11)]),
    Act::At(70),
    Act::At(80),
];

/// What the core takes: zeros are drawn, and of the four sends the last is refused.
const LINES: &str = "p2p 9 50 10
peers 1 2,9
fetch 5 10 510
drawn 0
drawn 0
checked clear
drawn 0
sent accepted
at 20
net 2 x000000000000000001026869
verdict 0 complete
net 2 x00000000000000070005
served 0 x6f6b
fetch 6 11 611
drawn 0
drawn 0
checked clear
sent accepted
at 70
timeout
at 80
wake
drawn 0
drawn 0
checked clear
sent refused
";

/// A loop and its twin do these, and the core's script is compared.
#[derive(Clone, Copy)]
struct Scripted;

impl Play for Scripted {
    fn play<A: Acts>(&mut self, rt: &(impl Abort + Print), pairs: &mut [A]) {
        for pair in pairs {
            act_all(rt, pair, ACTS);
            assert_same(rt, pair.hands().script.as_str(), LINES);
        }
    }
}

fn act_all(rt: &(impl Abort + Print), pair: &mut impl Acts, acts: &[Act<'_>]) {
    for act in acts {
        pair.act(rt, *act);
    }
}

#[test]
fn a_script_has_what_its_core_took(rt: HostRuntime) {
    let refused = Wrong::Sends { first: 4, count: 1 };
    with_pairs(rt, &[Setting::with(refused)], None, &mut Scripted);
}
