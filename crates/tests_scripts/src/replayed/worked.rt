//! Scripts that stand with what they print: behind a line stand those that it prints, each with `> ` before it. How a
//! script ends stands there, too, unless it ends with status 0. A blank line stands between two scripts. The name of
//! a script stands in its first line, behind `# `.

use super::*;
use std::str;
use tests_support::transcript::compare;

/// Peer 4 was asked for key 1, under id 5.
pub const ASKED: &str = "p2p 9 50 10
peers 1 4
fetch 1 10 7
> draw 4
drawn 0
> draw 1
drawn 0
> check 4
checked clear
> draw 18446744073709551616
drawn 5
> request 4 5 1
sent accepted";

/// Peer 4 was asked for key 1, and its response was handed out.
pub const DELIVERED: &str = "p2p 9 50 10
peers 1 4
fetch 1 10 7
> draw 4
drawn 0
> draw 1
drawn 0
> check 4
checked clear
> draw 18446744073709551616
drawn 5
> request 4 5 1
sent accepted
at 20
net 4 x000000000000000501026869
> deliver 0 1 10 x6869";

/// Each script behind this beginning prints what stands there.
pub fn print_as_worked(rt: &impl Abort, alloc: Global, before: &str, scripts: &str) {
    for script in scripts.split("\n\n") {
        print_one(rt, alloc, before, script);
    }
}

fn print_one(rt: &impl Abort, alloc: Global, before: &str, after: &str) {
    let case = format!(in alloc; "{before}\n{after}").expect(rt, "memory");
    let script = script_of(rt, alloc, case.as_str());
    let log = Memory::new(alloc);
    let printed = replayed(rt, alloc, &log, &script, WHOLE);
    assert_case(rt, alloc, case.as_str(), &printed);
}

/// Ends the test by the line of a case that printed something else.
fn assert_case(rt: &impl Abort, alloc: Global, case: &str, printed: &[u8]) {
    let printed = str::from_utf8(printed).ok().expect(rt, "a text");
    if let Some(turn) = compare(alloc, case, printed).expect(rt, "memory") {
        panic!(rt; "{turn}");
    }
}

/// The lines of a case, without what they print.
fn script_of(rt: &impl Abort, alloc: Global, case: &str) -> Vec<u8> {
    let mut script = Vec::new(alloc);
    for line in case.lines() {
        if !line.starts_with("> ") {
            put_line(rt, &mut script, line);
        }
    }
    script
}

/// Adds a line, with its LF.
fn put_line(rt: &impl Abort, lines: &mut Vec<u8>, line: &str) {
    put(rt, lines, line.as_bytes());
    put(rt, lines, b"\n");
}
