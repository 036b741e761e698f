//! Each input and each effect of the peer machine, once.

use crate::fakes::acts::Act;
use crate::fakes::world::Setting;
use crate::playing::{is_told, sees, sees_in};
use resolver::{Outcome, Resolution};
use std::num::NonZeroU32;
use tests_support::seen::Wrong;

const COMPLETE: Act<'static> = Act::Judge(Outcome::Resolved(Resolution::Complete));

/// Every input of the peer machine is ready once, one after another.
const EVERY: &[Act] = &[
    Act::Peers(1, &[3, 4, 9]),
    Act::Fetch(&[(1, 10)]),
    Act::At(20),
    Act::Net(3, b"\0\0\0\0\0\0\0\0\x01\x02no"),
    Act::Judge(Outcome::Invalid),
    Act::Block(&[3]),
    Act::At(30),
    Act::At(80),
    Act::At(90),
    Act::Net(4, b"\0\0\0\0\0\0\0\x02\x01\x02hi"),
    Act::Fetch(&[(1, 11)]),
    COMPLETE,
    Act::Retain(11),
    Act::IsWanted,
    Act::Net(3, b"\0\0\0\0\0\0\0\x07\0\x05"),
    Act::Serve(b"ok"),
    Act::CloseMailbox,
];

/// What the fakes see, by the rules of the peer machine: a line for each thing that they are asked,
/// one for each poll, and last what one more fetch is answered.
const SEEN: &str = "-
draw 4
draw 2
check 3
draw 18446744073709551616
send 3 x00000000000000000001
-
-
deliver 1 to 10:110 x6e6f
-
block 3
-
-
draw 5
draw 1
check 4
send 4 x00000000000000010001
-
-
draw 6
draw 1
check 4
send 4 x00000000000000020001
-
deliver 1 to 10:110 x6869
-
-
deliver 1 to 11:111 x6869
-
-
wanted false
produce 5
-
send 3 x000000000000000701026f6b
-
complete
Closed
";

#[test]
fn every_input_every_effect(rt: HostRuntime) {
    sees(rt, Wrong::Nothing, EVERY, SEEN);
}

/// The same, with what a watcher is told: each input before what the fakes are asked for it, and each effect right
/// before it is carried out. A credit is carried out nowhere, and what is called off is still closed by a verdict.
const TOLD: &str = "told peers at 0
-
told fetch at 0
told of a draw
draw 4
told drawn
told of a draw
draw 2
told drawn
told of a check
check 3
told checked
told of a draw
draw 18446744073709551616
told drawn
told of a request
send 3 x00000000000000000001
told sent
-
-
told net at 20
told of a delivery
deliver 1 to 10:110 x6e6f
-
told verdict at 20
told of a block
block 3
-
told blocked at 20
-
told wake at 30
told of a draw
draw 5
told drawn
told of a draw
draw 1
told drawn
told of a check
check 4
told checked
told of a request
send 4 x00000000000000010001
told sent
-
told timeout at 80
-
told wake at 90
told of a draw
draw 6
told drawn
told of a draw
draw 1
told drawn
told of a check
check 4
told checked
told of a request
send 4 x00000000000000020001
told sent
-
told net at 90
told of a delivery
deliver 1 to 10:110 x6869
-
told fetch at 90
-
told verdict at 90
told of a credit
told of a delivery
deliver 1 to 11:111 x6869
-
told retain at 90
told of a cancel
told verdict at 90
-
wanted false
told net at 90
told of a serve
produce 5
-
told served at 90
told of a reply
send 3 x000000000000000701026f6b
-
told stop at 90
complete
Closed
";

#[test]
fn a_watcher_is_told_every_input_and_every_effect(rt: HostRuntime) {
    is_told(rt, Setting::with(Wrong::Nothing), EVERY, TOLD);
}

/// The second key is looked for in vain while its peer is full. A response frees the peer, so that the same step hands out
/// a value and asks a question.
#[test]
fn a_watcher_is_told_of_each_effect_right_before_it_is_carried_out(rt: HostRuntime) {
    const ACTS: &[Act] = &[
        Act::Peers(1, &[3]),
        Act::Fetch(&[(1, 10), (2, 11)]),
        Act::Net(3, b"\0\0\0\0\0\0\0\0\x01\x02hi"),
    ];
    let setting = Setting {
        limit: NonZeroU32::new(1),
        ..Setting::with(Wrong::Nothing)
    };
    is_told(
        rt,
        setting,
        ACTS,
        "told peers at 0
-
told fetch at 0
told of a draw
draw 4
told drawn
told of a draw
draw 1
told drawn
told of a check
check 3
told checked
told of a draw
draw 18446744073709551616
told drawn
told of a request
send 3 x00000000000000000001
told sent
told wake at 0
-
told net at 0
told of a delivery
deliver 1 to 10:110 x6869
told of a draw
draw 4
told drawn
told of a draw
draw 1
told drawn
told of a check
check 3
told checked
told of a request
send 3 x00000000000000010002
told sent
-
Ok
",
    );
}

/// A peer's request is answered, and a key is asked for.
const SENDS: &[Act] = &[
    Act::Peers(1, &[3]),
    Act::Net(3, b"\0\0\0\0\0\0\0\x07\0\x05"),
    Act::Serve(b"ok"),
    Act::Fetch(&[(1, 10)]),
];

/// An engine whose requests, or whose replies, are sent before other messages.
fn first(requests: bool, replies: bool) -> Setting {
    Setting {
        priorities: (requests, replies),
        ..Setting::with(Wrong::Nothing)
    }
}

#[test]
fn requests_are_sent_first(rt: HostRuntime) {
    sees_in(
        rt,
        first(true, false),
        SENDS,
        "-
produce 5
-
send 3 x000000000000000701026f6b
-
draw 4
draw 1
check 3
draw 18446744073709551616
send 3 x00000000000000000001 first
-
Ok
",
    );
}

#[test]
fn replies_are_sent_first(rt: HostRuntime) {
    sees_in(
        rt,
        first(false, true),
        SENDS,
        "-
produce 5
-
send 3 x000000000000000701026f6b first
-
draw 4
draw 1
check 3
draw 18446744073709551616
send 3 x00000000000000000001
-
Ok
",
    );
}

/// No bytes are a response as others are; where the producer drops a request, the reply is that there is no data.
#[test]
fn a_serve_without_bytes_and_one_that_is_dropped(rt: HostRuntime) {
    const ACTS: &[Act] = &[
        Act::Peers(1, &[3]),
        Act::Net(3, b"\0\0\0\0\0\0\0\x07\0\x05"),
        Act::Serve(b""),
        Act::Net(3, b"\0\0\0\0\0\0\0\x08\0\x06"),
        Act::DropServe,
    ];
    sees(
        rt,
        Wrong::Nothing,
        ACTS,
        "-
produce 5
-
send 3 x00000000000000070100
-
produce 6
-
send 3 x000000000000000802
-
Ok
",
    );
}

/// A subscriber joins while a response is being judged.
#[test]
fn a_late_subscriber_gets_the_same_response(rt: HostRuntime) {
    const ACTS: &[Act] = &[
        Act::Peers(1, &[3, 4, 9]),
        Act::Fetch(&[(1, 10)]),
        Act::Net(3, b"\0\0\0\0\0\0\0\0\x01\x02hi"),
        Act::Fetch(&[(1, 11)]),
        COMPLETE,
        COMPLETE,
    ];
    sees(
        rt,
        Wrong::Nothing,
        ACTS,
        "-
draw 4
draw 2
check 3
draw 18446744073709551616
send 3 x00000000000000000001
-
deliver 1 to 10:110 x6869
-
-
deliver 1 to 11:111 x6869
-
-
Ok
",
    );
}
