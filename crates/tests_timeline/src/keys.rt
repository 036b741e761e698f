//! The phases and marks of keys.

use crate::scripts::{ASKED, FULL, assert_marks, noted, run_of};
use resolver_timeline::lane::{Lane, Phase};
use resolver_timeline::run::Run;
use std::alloc::Global;
use std::fmt::Write;
use std::panic::Expect;
use std::process::Abort;

/// A word of a phase, with the peer that was asked.
fn put_phase(rt: &impl Abort, text: &mut String, phase: Phase) {
    let put = match phase {
        Phase::Waiting => text.push_str("waits"),
        Phase::Retrying => text.push_str("retries"),
        Phase::Held => text.push_str("held"),
        Phase::Asked {
            peer: Some(peer),
            ..
        } => write!(text, "asked-{peer}"),
        Phase::Asked { peer: None, .. } => text.push_str("asked"),
        Phase::Judged { number } => write!(text, "judged-{number}"),
    };
    put.expect(rt, "memory");
}

/// The phases of a lane, each with its moments, as `waits@0-5`. One that took no time is left out.
fn phases(rt: &impl Abort, alloc: Global, lane: &Lane) -> String {
    let mut text = String::new(alloc);
    for span in lane.spans() {
        let (begin, end) = (span.begin.moment, span.end.moment);
        if begin < end {
            if !text.is_empty() {
                text.push_str(" ").expect(rt, "memory");
            }
            put_phase(rt, &mut text, span.is);
            write!(text, "@{begin}-{end}").expect(rt, "memory");
        }
    }
    text
}

/// That a key has these phases and these marks.
fn assert_key(rt: &impl Abort, alloc: Global, run: &Run, key: u8, expected: (&str, &str)) {
    let lane = run.lanes.get(&key).expect(rt, "a lane of the key");
    let found = phases(rt, alloc, lane);
    let (wanted, marks) = expected;
    assert!(rt;
        found.as_str() == wanted,
        "key {key}\nwanted: {wanted}\ncame: {found}"
    );
    assert_marks(rt, alloc, lane.marks(), marks);
}

/// That behind a beginning these lines give a key these phases and marks.
fn assert_of(
    rt: &impl Abort,
    alloc: Global,
    (before, lines): (&str, &str),
    key: u8,
    expected: (&str, &str),
) {
    let run = run_of(rt, alloc, before, lines);
    assert_key(rt, alloc, &run, key, expected);
}

#[test]
fn a_key_that_a_peer_answers_is_done(rt: HostRuntime) {
    let lines = "at 20\nnet 4 x000000000000000501026869\nat 30\nverdict 0 complete\n";
    let expected = (
        "asked-4@0-20 judged-0@20-30",
        "handed-out@20 credited@30 done@30",
    );
    assert_of(&rt, rt.alloc(), (ASKED, lines), 1, expected);
}

#[test]
fn a_key_whose_time_is_over_is_put_back(rt: HostRuntime) {
    let lines = "at 50\ntimeout\nat 55\n";
    let expected = ("asked-4@0-50 retries@50-55", "put-back@50");
    assert_of(&rt, rt.alloc(), (ASKED, lines), 1, expected);
}

#[test]
fn a_key_with_a_wrong_response_is_put_back(rt: HostRuntime) {
    let lines = "at 20\nnet 4 x000000000000000501026869\nat 30\nverdict 0 invalid\nat 35\n";
    let expected = (
        "asked-4@0-20 judged-0@20-30 retries@30-35",
        "handed-out@20 blocked@30 put-back@30",
    );
    assert_of(&rt, rt.alloc(), (ASKED, lines), 1, expected);
}

#[test]
fn a_key_that_nobody_wants_is_dropped(rt: HostRuntime) {
    let lines = "at 20\ndrop-key 1\nat 30\n";
    let expected = ("asked-4@0-20", "dropped@20");
    assert_of(&rt, rt.alloc(), (ASKED, lines), 1, expected);
}

#[test]
fn a_key_behind_a_full_peer_is_held(rt: HostRuntime) {
    let lines =
        "at 10\nfetch 2 10 8\nat 20\nnet 4 x000000000000000501026869\ndrawn 0\ndrawn 0\nchecked clear\nsent accepted\nat 25\n";
    let expected = ("held@10-20 asked-4@20-25", "");
    assert_of(&rt, rt.alloc(), (FULL, lines), 2, expected);
}

/// Of an actor: a value that the source lacks at first.
const SOURCE: &str = "opaque 100
at 5
fetch 1 10 7
at 8
fetched 0 none
at 108
wake
at 120
fetched 1 x6869
at 125
verdict 0 complete
";

#[test]
fn a_key_that_the_source_lacks_is_asked_for_again(rt: HostRuntime) {
    let expected = (
        "asked@5-8 retries@8-108 asked@108-120 judged-0@120-125",
        "put-back@8 handed-out@120 done@125",
    );
    assert_of(&rt, rt.alloc(), (SOURCE, ""), 1, expected);
}

#[test]
fn a_refusal_is_marked(rt: HostRuntime) {
    let run = run_of(&rt, rt.alloc(), "opaque 100\nat 3\nstop\nat 4\n", "wake\n");
    assert_marks(&rt, rt.alloc(), run.marks.as_slice(), "refused@4");
}

#[test]
fn a_line_that_cannot_be_read_ends_the_run(rt: HostRuntime) {
    let (run, ending) = noted(
        &rt,
        rt.alloc(),
        "opaque 100\nfetch 1 10 7\nfetch 256 10 7\n",
    );
    assert_eq!(rt; ending.status(), 2);
    assert!(rt; run.lanes.len() == 1, "what came before is noted");
}
