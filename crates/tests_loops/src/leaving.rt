//! Consumers that drop what they were handed, and peers that leave before they are answered.

use crate::fakes::acts::Act;
use crate::playing::sees;
use tests_support::seen::Wrong;

/// Each delivery's verdict is that it was dropped: its subscribers are retired, and the key with them, so a later
/// subscriber has it asked for anew.
#[test]
fn a_consumer_drops_every_one_shot(rt: HostRuntime) {
    const ACTS: &[Act] = &[
        Act::Peers(1, &[3]),
        Act::Fetch(&[(1, 10), (1, 11)]),
        Act::Net(3, b"\0\0\0\0\0\0\0\0\x01\x02hi"),
        Act::Fetch(&[(1, 12)]),
        Act::Net(3, b"\0\0\0\0\0\0\0\x01\x01\x02ok"),
    ];
    sees(
        rt,
        Wrong::Drops,
        ACTS,
        "-
draw 4
draw 1
check 3
draw 18446744073709551616
send 3 x00000000000000000001
-
deliver 1 to 10:110 11:111 x6869
-
draw 4
draw 1
check 3
send 3 x00000000000000010001
-
deliver 1 to 12:112 x6f6b
-
Ok
",
    );
}

/// Only the subscribers that the delivery named are retired: who came meanwhile gets the response again, and once
/// that is dropped too nobody is left.
#[test]
fn a_late_subscriber_outlives_a_dropped_delivery(rt: HostRuntime) {
    const ACTS: &[Act] = &[
        Act::Peers(1, &[3]),
        Act::Fetch(&[(1, 10)]),
        Act::Net(3, b"\0\0\0\0\0\0\0\0\x01\x02hi"),
        Act::Fetch(&[(1, 11)]),
        Act::Drop,
        Act::Drop,
        Act::Fetch(&[(1, 10)]),
    ];
    sees(
        rt,
        Wrong::Nothing,
        ACTS,
        "-
draw 4
draw 1
check 3
draw 18446744073709551616
send 3 x00000000000000000001
-
deliver 1 to 10:110 x6869
-
-
deliver 1 to 11:111 x6869
-
-
draw 4
draw 1
check 3
send 3 x00000000000000010001
-
Ok
",
    );
}

/// The reply is sent all the same.
#[test]
fn a_producer_answers_after_its_peer_left_the_set(rt: HostRuntime) {
    const ACTS: &[Act] = &[
        Act::Peers(1, &[3, 4]),
        Act::Net(3, b"\0\0\0\0\0\0\0\x07\0\x05"),
        Act::Peers(2, &[4]),
        Act::Serve(b"ok"),
    ];
    sees(
        rt,
        Wrong::Nothing,
        ACTS,
        "-
produce 5
-
-
send 3 x000000000000000701026f6b
-
Ok
",
    );
}
