//! What a scan draws from: the peers that may be asked for a key, with what they weigh, and without
//! those that were tried for it in vain.

use crate::fetcher::words::{delayed, play_parts, play_usual};
use resolver_fetch::fetcher::Config;
use tests_support::names::Letter;

#[test]
fn targets_among_many_peers(rt: HostRuntime) {
    // The targets weigh 3, 5 and 1, and 250 isn't in the set.
    const CASE: &str = "# targets_among_many_peers
crowd 200
record 10 1 1000000000 99
record 20 1 1000000000 2
record 50 1 1000000000 4
record 60 1 1000000000 99
target 1 70,20,250,50
ready 1 5
scan 5
> draw 4
drawn 3
> draw 9
drawn 9
> refused 6 OutOfRange
drawn 3
> check 50
checked 20
> draw 4
drawn 0
> draw 4
drawn 3
> check 70
checked 30
> draw 4
drawn 2
> draw 3
drawn 2
> check 20
checked 40
wakes
> Some(20)";
    play_usual(&rt, rt.alloc(), CASE);
}

#[test]
fn targets_drawn_by_place(rt: HostRuntime) {
    const CASE: &str = "# targets_drawn_by_place
crowd 200
record 20 1 1000000000 2
record 50 1 1000000000 4
target 1 70,20,250,50
retry 1 0
scan 10
> draw 5
drawn 4
> draw 3
drawn 3
> refused 6 OutOfRange
drawn 1
> check 50
checked 20
> draw 5
drawn 4
> draw 2
drawn 1
> check 70
checked 19
> draw 5
drawn 3
> draw 3
drawn 0
> check 20
checked 18
wakes
> Some(18)";
    play_usual(&rt, rt.alloc(), CASE);
}

#[test]
fn many_peers_by_place(rt: HostRuntime) {
    const CASE: &str = "# many_peers_by_place
crowd 200
retry 1 0
scan 10
> draw 5
drawn 4
> draw 200
drawn 200
> refused 6 OutOfRange
drawn 99
> check 100
checked 50
> draw 5
drawn 4
> draw 199
drawn 99
> check 101
checked 51
> draw 5
drawn 3
> draw 198
drawn 98
> check 99
checked 52
> draw 5
drawn 4
> draw 197
drawn 98
> check 102
checked 53
> draw 5
drawn 4
> draw 196
drawn 195
> check 200";
    play_usual(&rt, rt.alloc(), CASE);
}

#[test]
fn many_peers_by_weight(rt: HostRuntime) {
    // The peers before 100 weigh 4,950 together.
    const CASE: &str = "# many_peers_by_weight
crowd 200
record-each 200
weight 1
> Some(1)
weight 200
> Some(200)
ready 1 0
scan 0
> draw 4
drawn 0
> draw 20100
drawn 20100
> refused 6 OutOfRange
drawn 5049
> check 100
checked 9
> draw 4
drawn 0
> draw 20000
drawn 5050
> check 101
checked 8
> draw 4
drawn 0
> draw 19899
drawn 4950
> check 102
checked 7
> draw 4
drawn 0
> draw 19797
drawn 19796
> check 200
checked 6
> draw 4
drawn 0
> draw 19597
drawn 0
> check 1";
    play_usual(&rt, rt.alloc(), CASE);
}

/// Two keys wait, and the peers 2, 4, 6 and 8 weigh 2, 1, 4 and 1. The first key is tried with each
/// of them in vain, and then peer 6 is asked for the other one.
const ASKS_FOR_THE_SECOND: &str = "# asks for the second
peers 2,4,6,8
record 2 1 1000000000 1
record 6 1 1000000000 3
ready 1 5
ready 2 6
scan 6
> draw 4
drawn 0
> draw 8
drawn 3
> check 6
checked 100
> draw 4
drawn 0
> draw 4
drawn 3
> check 8
checked 90
> draw 4
drawn 1
> draw 3
drawn 0
> check 2
checked 80
> draw 4
drawn 2
> draw 1
drawn 0
> check 4
checked 70
> draw 4
drawn 3
> draw 8
drawn 7
> check 8
checked 60
> draw 4
drawn 0
> draw 7
drawn 3
> check 6
checked clear
> draw 18446744073709551616
drawn 5
> request 6 5 2
sent accepted";

/// The first key is tried again: all four peers are at hand again, and peer 6 is asked.
const ASKS_FOR_THE_FIRST: &str = "# asks for the first
phase 2
> (None, Some((5, Letter(6))))
phase 1
> (Some(Place { is_retry: false, due: 5 }), None)
scan 7
> draw 4
drawn 0
> draw 8
drawn 2
> check 4
checked clear
> request 4 6 1
sent refused
> draw 4
drawn 0
> draw 7
drawn 6
> check 8
checked 20
> draw 4
drawn 0
> draw 6
drawn 2
> check 6
checked clear
> request 6 7 1
sent accepted
phase 1
> (None, Some((7, Letter(6))))";

#[test]
fn a_second_key_has_all_peers_again(rt: HostRuntime) {
    play_parts(
        &rt,
        rt.alloc(),
        delayed(10),
        &[ASKS_FOR_THE_SECOND, ASKS_FOR_THE_FIRST],
    );
}

/// Peer 4, of the weight 11, is asked under the id 5. Peer 6 responds then, and peer 4 says after a
/// second that it has no data: it is charged two.
const HAS_NO_DATA: &str = "# has no data
peers 2,4,6
record 4 1 1000000000 10
ready 1 0
scan 0
> draw 4
drawn 0
> draw 13
drawn 1
> check 4
checked clear
> draw 18446744073709551616
drawn 5
> request 4 5 1
sent accepted
record 6 1 1000000000 6
record 9 1 1000000000 50
missing 4 1000000000
> Some(Letter(1))
weight 4
> Some(4)
weight 6
> Some(7)
weight 9
> None";

/// Peer 4 is asked again, and its time is over: it is charged four seconds.
const HAS_NO_TIME: &str = "# has no time
ready 2 1000000000
scan 1000000000
> draw 4
drawn 0
> draw 12
drawn 4
> check 4
checked clear
> request 4 6 2
sent accepted
overdue 3999999999
> None
overdue 4000000000
> Some(Letter(2))
weight 4
> Some(1)";

/// Peer 4 is drawn with what it weighs since, and peer 6 once it has responded with nothing.
const WEIGHS_LESS: &str = "# weighs less
ready 3 4000000000
scan 4000000000
> draw 4
drawn 0
> draw 9
drawn 2
> check 6
checked 5000000000
> draw 4
drawn 0
> draw 2
drawn 1
> check 4
checked 5000000001
> draw 4
drawn 0
> draw 1
drawn 0
> check 2
checked 5000000002
wakes
> Some(5000000000)
record 6 1 1000000000 0
weight 6
> Some(4)
scan 5000000000
> draw 4
drawn 0
> draw 6
drawn 5
> check 6";

#[test]
fn weights_change_between_scans(rt: HostRuntime) {
    let config = Config {
        me: None,
        fetch_timeout: 3_000_000_000,
        retry_delay: 1_000_000_000,
        peer_limit: None,
        priority_requests: false,
    };
    play_parts(
        &rt,
        rt.alloc(),
        config,
        &[HAS_NO_DATA, HAS_NO_TIME, WEIGHS_LESS],
    );
}

/// Of seven peers the third is the local one, and the fifth is blocked. The others weigh 2, 1, 4, 1
/// and 3, and are drawn by weight and by place.
const DRAWS_AROUND: &str = "# draws around
peers 7,3,1,5,2,6,4
blocked 5
record 1 1 1000000000 1
record 3 1 1000000000 50
record 4 1 1000000000 3
record 5 1 1000000000 70
record 7 1 1000000000 2
weight 3
> Some(0)
weight 5
> Some(0)
retry 1 0
scan 10
> draw 5
drawn 0
> draw 11
drawn 11
> refused 6 OutOfRange
drawn 7
> check 6
checked 29
> draw 5
drawn 4
> draw 4
drawn 2
> check 4
checked 28
> draw 5
drawn 3
> draw 6
drawn 3
> check 7
checked 27
> draw 5
drawn 4
> draw 2
drawn 1
> check 2
checked 26
> draw 5
drawn 0
> draw 2
drawn 1
> check 1
checked 25
wakes
> Some(25)";

/// Peer 5 comes back with what it responded, and peer 2 responds while it is blocked.
const DRAWS_AMONG_OTHERS: &str = "# draws among others
blocked 2,6
record 2 1 1000000000 9
weight 2
> Some(0)
weight 5
> Some(71)
scan 10
> draw 5
drawn 0
> draw 80
drawn 6
> check 5
checked 20
> draw 5
drawn 4
> draw 3
drawn 2
> check 7
checked 30
> draw 5
drawn 0
> draw 6
drawn 2
> check 4";

#[test]
fn peers_of_no_weight_between(rt: HostRuntime) {
    let config = Config {
        me: Some(Letter(3)),
        ..delayed(10)
    };
    play_parts(&rt, rt.alloc(), config, &[DRAWS_AROUND, DRAWS_AMONG_OTHERS]);
}

/// Peers that weigh 2, 5 and 3 are known, and the second is asked for key 1 under the id 5. Then it
/// leaves the set.
const LEAVES_WHILE_ASKED: &str = "# leaves while asked
peers 2,4,6
record 2 1 1000000000 1
record 4 1 1000000000 4
record 6 1 1000000000 2
ready 1 0
scan 0
> draw 4
drawn 0
> draw 10
drawn 2
> check 4
checked clear
> draw 18446744073709551616
drawn 5
> request 4 5 1
sent accepted
peers 6,2
weight 4
> None";

/// Those that stay keep their scores, and peer 4 comes back without one.
const COMES_BACK: &str = "# comes back
ready 2 1
scan 1
> draw 4
drawn 0
> draw 5
drawn 2
> check 6
checked 8
> draw 4
drawn 0
> draw 2
drawn 1
> check 2
checked 9
wakes
> Some(8)
peers 4,2,6
weight 4
> Some(1)
scan 2
> draw 4
drawn 0
> draw 6
drawn 2
> check 4
checked clear
> request 4 6 2
sent accepted
response 4 3
> Some((Letter(1), 3))";

#[test]
fn peers_that_leave_and_come_back(rt: HostRuntime) {
    play_parts(
        &rt,
        rt.alloc(),
        delayed(10),
        &[LEAVES_WHILE_ASKED, COMES_BACK],
    );
}

#[test]
fn targets_between_keys_without(rt: HostRuntime) {
    // No target of key 1 is known, and key 2 has more targets than there are peers.
    const CASE: &str = "# targets_between_keys_without
peers 2,4,6
target 1 9
target 2 4,1,3,6
ready 1 0
ready 2 0
ready 3 0
scan 0
> draw 4
drawn 0
> draw 2
drawn 1
> check 6
checked 9
> draw 4
drawn 0
> draw 1
drawn 0
> check 4
checked 8
> draw 4
drawn 0
> draw 3
drawn 2
> check 6
checked clear
> draw 18446744073709551616
drawn 5
> request 6 5 3
sent accepted
scan 1
> draw 4
drawn 0
> draw 2
drawn 0
> check 4
checked clear
> request 4 6 2
sent accepted
ready 4 2
scan 2
> draw 4
drawn 0
> draw 3
drawn 1
> check 4";
    play_usual(&rt, rt.alloc(), CASE);
}
