//! Sources that close, and parts that fail: what becomes of the engine's loop.

use crate::fakes::acts::Act;
use crate::fakes::world::Setting;
use crate::playing::{sees, sees_in};
use resolver::{Outcome, Resolution};
use std::num::NonZeroU32;
use tests_support::seen::Wrong;

/// There is peer 3.
const PEERS: Act = Act::Peers(1, &[3]);

/// Subscriber 10 wants key 1.
const FETCH: Act = Act::Fetch(&[(1, 10)]);

/// Peer 3 answers the request for key 1.
const RESPONSE: Act = Act::Net(3, b"\0\0\0\0\0\0\0\0\x01\x02hi");

/// Peer 3 asks for key 5.
const REQUEST: Act = Act::Net(3, b"\0\0\0\0\0\0\0\x07\0\x05");

#[test]
fn the_peer_set_source_closes(rt: HostRuntime) {
    const ACTS: &[Act] = &[PEERS, FETCH, Act::ClosePeers];
    sees(
        rt,
        Wrong::Nothing,
        ACTS,
        "-
draw 4
draw 1
check 3
draw 18446744073709551616
send 3 x00000000000000000001
-
complete
Closed
",
    );
}

/// The last blocked set stays, and the loop goes on.
#[test]
fn the_blocked_source_closes(rt: HostRuntime) {
    const ACTS: &[Act] = &[
        Act::Peers(1, &[3, 4]),
        Act::Block(&[3]),
        Act::CloseBlocked,
        Act::Fetch(&[(1, 10)]),
        Act::Net(4, b"\0\0\0\0\0\0\0\0\x01\x02hi"),
    ];
    sees(
        rt,
        Wrong::Nothing,
        ACTS,
        "-
-
-
draw 4
draw 1
check 4
draw 18446744073709551616
send 4 x00000000000000000001
-
deliver 1 to 10:110 x6869
-
Ok
",
    );
}

/// Peers are still blocked by the loop itself.
#[test]
fn a_peer_is_blocked_after_the_blocked_source_closed(rt: HostRuntime) {
    const ACTS: &[Act] = &[
        PEERS,
        Act::CloseBlocked,
        FETCH,
        RESPONSE,
        Act::Judge(Outcome::Invalid),
    ];
    sees(
        rt,
        Wrong::Nothing,
        ACTS,
        "-
-
draw 4
draw 1
check 3
draw 18446744073709551616
send 3 x00000000000000000001
-
deliver 1 to 10:110 x6869
-
block 3
-
Ok
",
    );
}

#[test]
fn the_receiver_closes(rt: HostRuntime) {
    const ACTS: &[Act] = &[PEERS, FETCH, Act::CloseNetwork];
    sees(
        rt,
        Wrong::Nothing,
        ACTS,
        "-
draw 4
draw 1
check 3
draw 18446744073709551616
send 3 x00000000000000000001
-
complete
Closed
",
    );
}

/// What was put before the close is still taken, and asked for.
#[test]
fn the_mailbox_is_closed_and_nothing_waits(rt: HostRuntime) {
    const ACTS: &[Act] = &[Act::Peers(1, &[3]), Act::LastFetch(&[(1, 10)])];
    sees(
        rt,
        Wrong::Nothing,
        ACTS,
        "-
draw 4
draw 1
check 3
draw 18446744073709551616
send 3 x00000000000000000001
complete
Closed
",
    );
}

/// What is judged when the loop ends is called off.
#[test]
fn the_end_calls_a_delivery_off(rt: HostRuntime) {
    const ACTS: &[Act] = &[PEERS, FETCH, RESPONSE, Act::CloseMailbox, Act::IsWanted];
    sees(
        rt,
        Wrong::Nothing,
        ACTS,
        "-
draw 4
draw 1
check 3
draw 18446744073709551616
send 3 x00000000000000000001
-
deliver 1 to 10:110 x6869
-
complete
wanted false
Closed
",
    );
}

#[test]
fn the_consumer_answers_1(rt: HostRuntime) {
    const ACTS: &[Act] = &[PEERS, FETCH, RESPONSE];
    sees(
        rt,
        Wrong::Consumer,
        ACTS,
        "-
draw 4
draw 1
check 3
draw 18446744073709551616
send 3 x00000000000000000001
-
OutOfMemory
Closed
",
    );
}

/// The response frees its peer, so the step that hands it out asks for the next key too: that request still goes out
/// before the loop ends.
#[test]
fn the_consumer_answers_1_where_a_scan_goes_on(rt: HostRuntime) {
    const ACTS: &[Act] = &[PEERS, FETCH, Act::Fetch(&[(2, 10)]), RESPONSE];
    let setting = Setting {
        limit: Some(NonZeroU32::MIN),
        ..Setting::with(Wrong::Consumer)
    };
    sees_in(
        rt,
        setting,
        ACTS,
        "-
draw 4
draw 1
check 3
draw 18446744073709551616
send 3 x00000000000000000001
-
-
draw 4
draw 1
check 3
send 3 x00000000000000010002
OutOfMemory
Closed
",
    );
}

#[test]
fn the_producer_answers_1(rt: HostRuntime) {
    const ACTS: &[Act] = &[PEERS, REQUEST];
    sees(
        rt,
        Wrong::Producer,
        ACTS,
        "-
OutOfMemory
Closed
",
    );
}

/// It isn't sent again; the next request under the same id has a reply of its own, and the loop goes on.
#[test]
fn the_send_of_a_reply_is_refused(rt: HostRuntime) {
    const ACTS: &[Act] = &[
        PEERS,
        REQUEST,
        Act::Serve(b"ok"),
        Act::At(1000),
        REQUEST,
        Act::Serve(b"no"),
        FETCH,
        RESPONSE,
        Act::Judge(Outcome::Resolved(Resolution::Complete)),
    ];
    let refused = Wrong::Sends { first: 1, count: 1 };
    sees(
        rt,
        refused,
        ACTS,
        "-
produce 5
-
refuse 3 x000000000000000701026f6b
-
-
produce 5
-
send 3 x000000000000000701026e6f
-
draw 4
draw 1
check 3
draw 18446744073709551616
send 3 x00000000000000000001
-
deliver 1 to 10:110 x6869
-
-
Ok
",
    );
}
