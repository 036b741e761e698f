//! Keys that wait, scans, and what becomes of requests.

mod drawing;
mod fetching;
mod laws;
mod network;
mod words;

use crate::support::{equal, equal_at, holds};
use resolver_base::Check;
use resolver_fetch::fetcher::Answer::{Checked, Drawn};
use resolver_fetch::fetcher::{Answer, Ask, Config, Fetcher};
use resolver_sampling::score::DURATION_MAX;
use std::panic::Expect;
use std::process::Abort;
use tests_support::names::Letter;
use words::{delayed, peers_of, play_parts, play_usual, set_peers, sparing, wait};

/// Peer 4 is asked for key 1 under the id 5, at 30.
const ASKS: &str = "# asks
peers 4
ready 1 30
scan 30
> draw 4
drawn 0
> draw 1
drawn 0
> check 4
checked clear
> draw 18446744073709551616
drawn 5
> request 4 5 1
sent accepted";

#[test]
fn fetcher_first_request(rt: HostRuntime) {
    const CASE: &str = "# fetcher_first_request
deadline
> Some(80)
response 3 40
> None
response 4 20
> Some((Letter(1), 0))";
    play_parts(&rt, rt.alloc(), delayed(10), &[ASKS, CASE]);
}

#[test]
fn a_second_request(rt: HostRuntime) {
    const CASE: &str = "# a_second_request
phase 1
> (None, Some((5, Letter(4))))
ready 2 40
phase 2
> (Some(Place { is_retry: false, due: 40 }), None)
retry 3 40
phase 3
> (Some(Place { is_retry: true, due: 50 }), None)
scan 40
> draw 4
drawn 0
> draw 1
drawn 0
> check 4
checked clear
> request 4 6 2
sent accepted
phase 2
> (None, Some((6, Letter(4))))
response 4 50
> Some((Letter(1), 20))
phase 1
> (None, None)";
    play_parts(&rt, rt.alloc(), delayed(10), &[ASKS, CASE]);
}

/// Its text tells the keys that wait from those that are asked for.
#[test]
fn a_fetcher_shows_how_many_keys_wait_and_are_asked_for(rt: HostRuntime) {
    const CASE: &str = "# a_fetcher_shows_how_many_keys_wait_and_are_asked_for
ready 2 40
ready 3 40
shown
> Fetcher { pending: 2, active: 1, is_scanning: false, .. }
scan 40
> draw 4
shown
> Fetcher { pending: 2, active: 1, is_scanning: true, .. }";
    play_parts(&rt, rt.alloc(), delayed(10), &[ASKS, CASE]);
}

#[test]
fn targets_of_each_length(rt: HostRuntime) {
    const CASE: &str = "# targets_of_each_length
targets 1
> (false, None)
target 1 7
targets 1
> (true, Some([Letter(7)]))
target 2 5,2,9
targets 2
> (true, Some([Letter(5), Letter(2), Letter(9)]))
target 1 6
targets 1
> (true, Some([Letter(7), Letter(6)]))";
    play_usual(&rt, rt.alloc(), CASE);
}

#[test]
fn fetcher_missing(rt: HostRuntime) {
    const CASE: &str = "# fetcher_missing
missing 4 50
> Some(Letter(1))
counts 1
> ((false, 0), 0, false)
weight 4
> Some(1)";
    play_parts(&rt, rt.alloc(), delayed(10), &[ASKS, CASE]);
}

#[test]
fn fetcher_retry(rt: HostRuntime) {
    const CASE: &str = "# fetcher_retry
missing 4 50
> Some(Letter(1))
counts 1
> ((false, 0), 0, false)
retry 1 50
wakes
> Some(60)
scan 60
> draw 5
counts 1
> ((true, 1), 0, true)";
    play_parts(&rt, rt.alloc(), delayed(10), &[ASKS, CASE]);
}

#[test]
fn a_full_peer_answers(rt: HostRuntime) {
    const CASE: &str = "# a_full_peer_answers
weight 4
> Some(0)
ready 2 30
scan 30
wakes
> Some(340282366920938463463374607431768211455)
record 4 1 1000000000 1
weight 4
> Some(0)
response 3 40
> None
wakes
> Some(340282366920938463463374607431768211455)
response 4 40
> Some((Letter(1), 10))
weight 4
> Some(2)
wakes
> Some(30)
scan 40
> draw 4
drawn 0
> draw 2";
    play_parts(&rt, rt.alloc(), sparing(), &[ASKS, CASE]);
}

#[test]
fn a_full_peer_fails(rt: HostRuntime) {
    const MISSING: &str = "# a_full_peer_fails, missing
missing 4 50
> Some(Letter(1))
weight 4
> Some(1)";
    const OVERDUE: &str = "# a_full_peer_fails, overdue
overdue 79
> None
weight 4
> Some(0)
overdue 80
> Some(Letter(1))
weight 4
> Some(1)";
    play_parts(&rt, rt.alloc(), sparing(), &[ASKS, MISSING]);
    play_parts(&rt, rt.alloc(), sparing(), &[ASKS, OVERDUE]);
}

#[test]
fn a_full_peer_is_away(rt: HostRuntime) {
    const LEAVES: &str = "# a_full_peer_is_away, leaves
peers 3
weight 4
> None
peers 3,4
weight 3
> Some(1)
weight 4
> Some(0)";
    const IS_BLOCKED: &str = "# a_full_peer_is_away, is blocked
blocked 4
response 4 40
> Some((Letter(1), 10))
weight 4
> Some(0)
blocked -
weight 4
> Some(1)";
    play_parts(&rt, rt.alloc(), sparing(), &[ASKS, LEAVES]);
    play_parts(&rt, rt.alloc(), sparing(), &[ASKS, IS_BLOCKED]);
}

#[test]
fn fetcher_wake_up(rt: HostRuntime) {
    const CASE: &str = "# fetcher_wake_up
ready 1 5
wakes
> Some(5)
scan 5
wakes
> Some(340282366920938463463374607431768211455)
peers 4
wakes
> Some(5)";
    play_usual(&rt, rt.alloc(), CASE);
}

#[test]
fn the_next_due_wakes(rt: HostRuntime) {
    const CASE: &str = "# the_next_due_wakes
retry 2 0
retry 1 5
ready 3 12
ready 4 30
scan 12
wakes
> Some(15)
scan 15
wakes
> Some(30)
scan 30
wakes
> Some(340282366920938463463374607431768211455)
ready 0 31
wakes
> Some(12)
scan 30
wakes
> Some(31)";
    play_usual(&rt, rt.alloc(), CASE);
}

#[test]
fn limits_and_refusals(rt: HostRuntime) {
    const CASE: &str = "# limits_and_refusals
peers 4
ready 1 5
scan 5
> draw 4
sent accepted
> refused 5 Unasked
drawn 4
> refused 6 OutOfRange
drawn 0
> draw 1
drawn 0
> check 4
checked 9
wakes
> Some(9)
counts 1
> ((true, 0), 0, false)
drawn 0
> refused 5 Unasked";
    play_usual(&rt, rt.alloc(), CASE);
}

#[test]
fn targets_out_of_order(rt: HostRuntime) {
    const CASE: &str = "# targets_out_of_order
peers 5,1,3,2
ready 1 5
target 1 5,2,9
target 1 3,2
targets 1
> (true, Some([Letter(5), Letter(2), Letter(9), Letter(3)]))
scan 5
> draw 4
drawn 0
> draw 3
drawn 0
> check 2
checked 9
> draw 4
drawn 0
> draw 2
drawn 1
> check 5
checked 8
> draw 4
drawn 0
> draw 1
drawn 0
> check 3
checked 20
wakes
> Some(8)";
    play_usual(&rt, rt.alloc(), CASE);
}

#[test]
fn fetcher_two_kinds(rt: HostRuntime) {
    const CASE: &str = "# fetcher_two_kinds
peers 4
retry 2 0
wakes
> Some(10)
ready 1 15
wakes
> Some(15)
scan 15
> draw 4
drawn 0
> draw 1
drawn 0
> check 4
checked 19
> draw 5
drawn 0
> draw 1
drawn 0
> check 4
checked 18
wakes
> Some(18)";
    play_usual(&rt, rt.alloc(), CASE);
}

#[test]
fn fetcher_two_queues(rt: HostRuntime) {
    const CASE: &str = "# fetcher_two_queues
peers 4
retry 2 0
wakes
> Some(2)
fresh
> (0, None)
retries
> (1, Some((Letter(2), 2)))
ready 1 5
wakes
> Some(5)
fresh
> (1, Some((Letter(1), 5)))
retries
> (1, Some((Letter(2), 2)))
scan 5
> draw 4
drawn 0
> draw 1
drawn 0
> check 4
checked 9
> draw 5
drawn 0
> draw 1
drawn 0
> check 4
checked 8
wakes
> Some(8)";
    play_parts(&rt, rt.alloc(), delayed(2), &[CASE]);
}

#[test]
fn next_due_of_both_kinds(rt: HostRuntime) {
    const CASE: &str = "# next_due_of_both_kinds
ready 3 5
ready 1 100
scan 5
wakes
> Some(100)
retry 2 50
scan 5
wakes
> Some(60)
scan 60
wakes
> Some(100)
scan 100
wakes
> Some(340282366920938463463374607431768211455)";
    play_usual(&rt, rt.alloc(), CASE);
}

#[test]
fn thirty_two_responses(rt: HostRuntime) {
    const CASE: &str = "# thirty_two_responses
peers 4
record 4 1 1 18446744073709551615
weight 4
> Some(18446744073709551615)
record 4 31 0 0
weight 4
> Some(8589934592000000000)
record 4 1 0 0
weight 4
> Some(4294967296000000000)
weight 3
> None";
    play_usual(&rt, rt.alloc(), CASE);
}

#[test]
fn charged_the_longest_time(rt: HostRuntime) {
    const CASE: &str = "# charged_the_longest_time
peers 4
record 4 1 1 18446744073709551615
ready 1 0
scan 0
> draw 4
drawn 0
> draw 18446744073709551615
drawn 0
> check 4
checked clear
> draw 18446744073709551616
drawn 5
> request 4 5 1
sent accepted
overdue 18446744073709551615999999998
> None
weight 4
> Some(18446744073709551615)
overdue 18446744073709551615999999999
> Some(Letter(1))
weight 4
> Some(1)";
    // A request takes the longest time, and so does a wait before a retry.
    let config = Config {
        me: None,
        fetch_timeout: DURATION_MAX,
        retry_delay: DURATION_MAX,
        peer_limit: None,
        priority_requests: false,
    };
    play_parts(&rt, rt.alloc(), config, &[CASE]);
}

// Fetchers of many keys.

type Many = Fetcher<u16, Letter>;

/// Gives an answer to a scan of many keys.
fn answered_many(rt: &impl Abort, fetcher: &mut Many, answer: Answer) -> Option<Ask<u16, Letter>> {
    fetcher
        .scan_answer(answer)
        .expect(rt, "an answer that is taken")
}

/// The only peer of a key is drawn, and may not be sent to before 100.
fn limits(rt: &impl Abort, fetcher: &mut Many) -> Option<Ask<u16, Letter>> {
    answered_many(rt, fetcher, Drawn(0));
    answered_many(rt, fetcher, Drawn(0));
    answered_many(rt, fetcher, Checked(Check::Until(100)))
}

/// Begins a scan, which tries so many keys, each once.
fn limits_each(rt: &impl Abort, fetcher: &mut Many, count: u16) {
    holds(rt, !fetcher.is_scanning());
    let mut asked = fetcher.scan_begin(10).expect(rt, "memory");
    for key in 0..count {
        equal_at(rt, &key, &asked, &Some(Ask::Draw(4)));
        asked = limits(rt, fetcher);
    }
    equal(rt, &asked, &None);
}

// A scan that looked from the first key on after each one would not end in time.
#[test]
fn a_scan_goes_over_each_due_key_once(rt: HostRuntime) {
    let rt = &rt;
    let mut fetcher = Fetcher::new(rt.alloc(), delayed(10));
    set_peers(rt, &mut fetcher, peers_of(rt, rt.alloc(), &[4]), false);
    for key in 0..20_000 {
        wait(rt, &mut fetcher, key, 10, false);
    }
    limits_each(rt, &mut fetcher, 20_000);
    equal(rt, &fetcher.get_pending_deadline(), &Some(100));
}
