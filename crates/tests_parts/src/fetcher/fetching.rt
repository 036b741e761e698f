//! Scans that a sender and draws answer, by `fetch`.

use crate::fetcher::words::{delayed, play_parts, play_usual};
use resolver_fetch::fetcher::Config;
use tests_support::names::Letter;

#[test]
fn fetcher_first_request_by_fetch(rt: HostRuntime) {
    const CASE: &str = "# fetcher_first_request_by_fetch
peers 4
ready 1 30
fetch 30 0,0,5 clear accepted
> draw 4
> draw 1
> check 4
> draw 18446744073709551616
> send 4 x00000000000000050001
counts 1
> ((false, 0), 1, false)
wakes
> None
deadline
> Some(80)
response 3 40
> None
response 4 20
> Some((Letter(1), 0))";
    play_parts(&rt, rt.alloc(), delayed(10), &[CASE]);
}

#[test]
fn fetcher_missing_and_retry(rt: HostRuntime) {
    // The next id follows the last.
    const CASE: &str = "# fetcher_missing_and_retry
peers 4
ready 1 30
fetch 30 0,0,5 clear accepted
> draw 4
> draw 1
> check 4
> draw 18446744073709551616
> send 4 x00000000000000050001
missing 4 50
> Some(Letter(1))
counts 1
> ((false, 0), 0, false)
weight 4
> Some(1)
retry 1 50
wakes
> Some(60)
deadline
> None
fetch 60 4,0 clear accepted
> draw 5
> draw 1
> check 4
> send 4 x00000000000000060001
wakes
> None
deadline
> Some(110)";
    play_parts(&rt, rt.alloc(), delayed(10), &[CASE]);
}

#[test]
fn fetcher_wake_up_by_fetch(rt: HostRuntime) {
    const CASE: &str = "# fetcher_wake_up_by_fetch
ready 1 5
wakes
> Some(5)
deadline
> None
fetch 5 - - -
wakes
> Some(340282366920938463463374607431768211455)
deadline
> None
peers 4
wakes
> Some(5)
deadline
> None";
    play_parts(&rt, rt.alloc(), delayed(10), &[CASE]);
}

#[test]
fn refused_sends(rt: HostRuntime) {
    const CASE: &str = "# refused_sends
peers 3,4
ready 1 0
fetch 0 0,0,18446744073709551615,0,0 clear,clear rejected,closed
> draw 4
> draw 2
> check 3
> draw 18446744073709551616
> send 3 xffffffffffffffff0001
> draw 4
> draw 1
> check 4
> send 4 x00000000000000000001
counts 1
> ((true, 0), 0, false)
wakes
> Some(10)
deadline
> None";
    play_parts(&rt, rt.alloc(), delayed(10), &[CASE]);
}

#[test]
fn timeout_and_limits(rt: HostRuntime) {
    const CASE: &str = "# timeout_and_limits
peers 3,4
ready 1 0
fetch 0 3,1,1234 clear slowly
> draw 4
> draw 2
> check 4
> draw 18446744073709551616
> send 4 x00000000000004d20001 first
overdue 50
> Some(Letter(1))
retry 1 50
fetch 50 4,0,0,0 70,60 -
> draw 5
> draw 2
> check 3
> draw 5
> draw 1
> check 4
counts 1
> ((true, 1), 0, false)
wakes
> Some(60)
deadline
> None";
    // Peer 9 is the local one, requests go before other messages, and nothing is waited for before a
    // retry.
    let config = Config {
        me: Some(Letter(9)),
        fetch_timeout: 50,
        retry_delay: 0,
        peer_limit: None,
        priority_requests: true,
    };
    play_parts(&rt, rt.alloc(), config, &[CASE]);
}

#[test]
fn blocked_target(rt: HostRuntime) {
    const CASE: &str = "# blocked_target
peers 3,4
blocked 3
target 1 3
ready 1 0
fetch 0 - - -
wakes
> Some(340282366920938463463374607431768211455)
deadline
> None
blocked -
fetch 0 0,0 20 -
> draw 4
> draw 1
> check 3
wakes
> Some(20)
deadline
> None";
    play_parts(&rt, rt.alloc(), delayed(10), &[CASE]);
}

#[test]
fn sets_of_each_length(rt: HostRuntime) {
    const CASE: &str = "# sets_of_each_length
peers -
weight 4
> None
peers 4
weight 4
> Some(1)
weight 3
> None
blocked -
peers 5,3,4
weight 3
> Some(1)
weight 4
> Some(1)
weight 5
> Some(1)
blocked 4
weight 3
> Some(1)
weight 4
> Some(0)
blocked 5,3,4
weight 3
> Some(0)
weight 4
> Some(0)
weight 5
> Some(0)
blocked -
weight 5
> Some(1)
peers -
weight 5
> None";
    play_usual(&rt, rt.alloc(), CASE);
}
