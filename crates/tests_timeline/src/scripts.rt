//! Scripts, and what is noted of them.

use resolver_script::endings::Ending;
use resolver_timeline::drawn::Drawn;
use resolver_timeline::mark::{Mark, What};
use resolver_timeline::run::Run;
use resolver_timeline_script::reading::read;
use std::alloc::Global;
use std::fmt::Write;
use std::io::BufReader;
use std::panic::Expect;
use std::process::Abort;

/// Peer 4 was asked for key 1 at moment 0, under id 5, by command 8.
pub const ASKED: &str = "p2p 9 50 10
peers 1 4
fetch 1 10 7
drawn 0
drawn 0
checked clear
drawn 5
sent accepted
";

/// The same where one peer may have one request.
pub const FULL: &str = "p2p - 50 10 1
peers 1 4
fetch 1 10 7
drawn 0
drawn 0
checked clear
drawn 5
sent accepted
";

/// The lines behind a beginning, as one script.
pub fn joined(rt: &impl Abort, alloc: Global, before: &str, lines: &str) -> String {
    format!(in alloc; "{before}{lines}").expect(rt, "memory")
}

/// What is noted of a script, and how it ends.
pub fn noted(rt: &impl Abort, alloc: Global, script: &str) -> (Run, Ending) {
    let mut input = BufReader::new(alloc, script.as_bytes()).expect(rt, "memory");
    read(alloc, &mut input).expect(rt, "no fault")
}

/// What is noted of these lines behind a beginning.
pub fn run_of(rt: &impl Abort, alloc: Global, before: &str, lines: &str) -> Run {
    let script = joined(rt, alloc, before, lines);
    let (run, ending) = noted(rt, alloc, script.as_str());
    assert_eq!(rt; ending, Ending::End, "a line can't be read");
    run
}

/// How a run is drawn for a terminal, by the order of its commands.
pub fn text_of(rt: &impl Abort, alloc: Global, run: &Run) -> String {
    let drawn = Drawn {
        is_text: true,
        by_order: true,
    };
    drawn.picture(alloc, run).expect(rt, "memory")
}

/// A word of what happened.
fn word_of(what: What) -> &'static str {
    match what {
        What::Delivered => "handed-out",
        What::Credited => "credited",
        What::Blocked => "blocked",
        What::Retried => "put-back",
        What::Done => "done",
        What::Dropped => "dropped",
        What::Postponed => "postponed",
        What::Refused => "refused",
    }
}

/// That these marks are the expected ones, each as a word with its moment, as `done@20`.
pub fn assert_marks(rt: &impl Abort, alloc: Global, marks: &[Mark], expected: &str) {
    let mut found = String::new(alloc);
    let mut space = "";
    for mark in marks {
        let (word, moment) = (word_of(mark.what), mark.at.moment);
        write!(found, "{space}{word}@{moment}").expect(rt, "memory");
        space = " ";
    }
    assert!(rt;
        found.as_str() == expected,
        "wanted: {expected}\ncame: {found}"
    );
}
