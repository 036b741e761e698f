//! What peers weigh, how they stand, and what happened to them.

use crate::scripts::{ASKED, FULL, assert_marks, joined, run_of};
use resolver_timeline::peer_lane::Standing;
use resolver_timeline::run::Run;
use std::alloc::Global;
use std::panic::Expect;
use std::process::Abort;

/// That peer 4 stood so and weighed this at the end of these lines behind a beginning.
fn assert_last(
    rt: &impl Abort,
    alloc: Global,
    (before, lines): (&str, &str),
    standing: Standing,
    weight: u64,
) {
    let run = run_of(rt, alloc, before, lines);
    let lane = run.peers.get(&4).expect(rt, "a lane of the peer");
    let last = lane.spans().last().expect(rt, "a span of the peer");
    assert_eq!(rt; last.is.weight, weight, "the weight behind {lines}");
    assert_eq!(rt; last.is.standing, standing, "the standing behind {lines}");
}

/// Of one whose response came after 20 nanoseconds, with two bytes.
const RIGHT: &str = "at 20\nnet 4 x000000000000000501026869\nverdict 0 complete\n";

#[test]
fn a_peer_of_which_nothing_was_observed_weighs_1(rt: HostRuntime) {
    assert_last(&rt, rt.alloc(), (ASKED, ""), Standing::Free, 1);
}

/// That the machine draws a number below this one where it chooses peer 4, alone, for one more key: it refuses the number
/// itself, and takes the one below.
fn assert_drawn(rt: &impl Abort, alloc: Global, lines: &str, weight: u64) {
    let below = weight.saturating_sub(1);
    let script = format!(in alloc; "{lines}fetch 3 10 7\ndrawn 0\ndrawn {weight}\ndrawn {below}\n");
    let script = script.expect(rt, "memory");
    let run = run_of(rt, alloc, ASKED, script.as_str());
    let refusals = run.marks.len();
    assert_eq!(rt;
        refusals,
        1,
        "the machine draws below another number than {weight} behind {lines}"
    );
}

// Two bytes in 20 nanoseconds are 100,000,000 in a second.
#[test]
fn a_credit_gives_weight(rt: HostRuntime) {
    assert_last(&rt, rt.alloc(), (ASKED, RIGHT), Standing::Free, 100_000_001);
    assert_drawn(&rt, rt.alloc(), RIGHT, 100_000_001);
}

/// The same, where the peer is then asked for key 2 under id 6.
const ASKED_AGAIN: &str = "at 20\nnet 4 x000000000000000501026869\nverdict 0 complete
fetch 2 10 7\ndrawn 0\ndrawn 0\nchecked clear\nsent accepted\n";

/// What is noted of lines behind a second request.
fn assert_again(rt: &impl Abort, alloc: Global, lines: &str, weight: u64) {
    let lines = joined(rt, alloc, ASKED_AGAIN, lines);
    assert_last(rt, alloc, (ASKED, lines.as_str()), Standing::Free, weight);
    assert_drawn(rt, alloc, lines.as_str(), weight);
}

// The averages of bytes are 2 and 0, and of nanoseconds 20 and the timeout of 50 with the delay of 10.
#[test]
fn a_timeout_takes_weight(rt: HostRuntime) {
    assert_again(&rt, rt.alloc(), "at 70\ntimeout\n", 25_000_001);
}

// The time is 30 nanoseconds with the delay of 10: on average 30.
#[test]
fn missing_data_takes_weight(rt: HostRuntime) {
    let lines = "at 50\nnet 4 x000000000000000602\n";
    assert_again(&rt, rt.alloc(), lines, 33_333_334);
}

#[test]
fn a_peer_that_comes_back_is_forgotten(rt: HostRuntime) {
    let alloc = rt.alloc();
    let lines = joined(&rt, alloc, RIGHT, "peers 2 3\npeers 3 4\n");
    assert_last(&rt, alloc, (ASKED, lines.as_str()), Standing::Free, 1);
}

// A set with an index that is not greater is passed over.
#[test]
fn an_older_set_changes_nothing(rt: HostRuntime) {
    let alloc = rt.alloc();
    let lines = joined(&rt, alloc, RIGHT, "peers 1 3\n");
    assert_last(
        &rt,
        alloc,
        (ASKED, lines.as_str()),
        Standing::Free,
        100_000_001,
    );
}

#[test]
fn a_peer_with_all_its_requests_is_full(rt: HostRuntime) {
    assert_last(&rt, rt.alloc(), (FULL, ""), Standing::Full, 1);
    let lines = "at 20\nnet 4 x000000000000000501026869\n";
    assert_last(&rt, rt.alloc(), (FULL, lines), Standing::Free, 1);
}

#[test]
fn a_blocked_peer_is_shown(rt: HostRuntime) {
    assert_last(
        &rt,
        rt.alloc(),
        (ASKED, "blocked 4\n"),
        Standing::Blocked,
        1,
    );
    assert_last(
        &rt,
        rt.alloc(),
        (ASKED, "blocked 4\nblocked -\n"),
        Standing::Free,
        1,
    );
}

/// That these lines behind a beginning give peer 4 these marks.
fn assert_peer_marks(rt: &impl Abort, alloc: Global, (before, lines): (&str, &str), marks: &str) {
    let run: Run = run_of(rt, alloc, before, lines);
    let lane = run.peers.get(&4).expect(rt, "a lane of the peer");
    assert_marks(rt, alloc, lane.marks(), marks);
}

#[test]
fn what_a_peer_earns_is_marked(rt: HostRuntime) {
    assert_peer_marks(&rt, rt.alloc(), (ASKED, RIGHT), "credited@20");
    let wrong = "at 20\nnet 4 x000000000000000501026869\nat 21\nverdict 0 invalid\n";
    assert_peer_marks(&rt, rt.alloc(), (ASKED, wrong), "blocked@21");
}

// The answer has the moment at which its scan began, and not that of the line before it.
#[test]
fn a_check_that_says_later_is_marked(rt: HostRuntime) {
    let before = "p2p 9 50 10\npeers 1 4\nat 7\nfetch 1 10 7\ndrawn 0\ndrawn 0\n";
    assert_peer_marks(
        &rt,
        rt.alloc(),
        (before, "at 9\nchecked 70\n"),
        "postponed@7",
    );
}

// The local peer is asked for nothing, and has no weight.
#[test]
fn the_local_peer_has_no_lane(rt: HostRuntime) {
    let run = run_of(
        &rt,
        rt.alloc(),
        "p2p 9 50 10\npeers 1 4,9\n",
        "fetch 1 10 7\n",
    );
    assert!(rt; run.peers.get(&9).is_none(), "the local peer has a lane");
    assert!(rt; run.peers.get(&4).is_some(), "peer 4 has none");
}
