//! Several sources that are ready at one poll: in which order the engine's loop takes what they give.

use crate::fakes::acts::Act;
use crate::fakes::world::Setting;
use crate::pair::{Acts, Play, with_pairs};
use crate::support::assert_same;
use resolver::{Outcome, Resolution};
use std::alloc::AllocGlobal;
use std::io::Print;
use std::num::NonZeroU32;
use std::process::Abort;
use std::random::RandomSource;
use std::sync::Wait;
use tests_support::seen::Wrong;

const COMPLETE: Act = Act::Judge(Outcome::Resolved(Resolution::Complete));

/// There is peer 3.
const PEERS: Act = Act::Peers(1, &[3]);

/// Subscriber 10 wants key 1.
const FETCH: Act = Act::Fetch(&[(1, 10)]);

/// Peer 3 answers the first request.
const RESPONSE: Act = Act::Net(3, b"\0\0\0\0\0\0\0\0\x01\x02hi");

/// Peer 3 has no data for the first request.
const MISSING: Act = Act::Net(3, b"\0\0\0\0\0\0\0\0\x02");

/// Peer 3 asks for key 5.
const REQUEST: Act = Act::Net(3, b"\0\0\0\0\0\0\0\x07\0\x05");

/// Peer 3 asks for key 6.
const NEXT_REQUEST: Act = Act::Net(3, b"\0\0\0\0\0\0\0\x08\0\x06");

/// What is done to a loop one after another, what is ready at its next poll, and what is seen of that poll by the
/// rules of the peer machine: a line for each thing that the fakes are asked, and last whether the loop goes on and
/// which moment it waits for.
#[derive(Clone, Copy)]
struct Case<'a> {
    before: &'a [Act<'a>],
    ready: &'a [Act<'a>],
    seen: &'a str,
}

impl Play for Case<'_> {
    fn play<A: Acts>(&mut self, rt: &(impl Abort + Print), pairs: &mut [A]) {
        for pair in pairs {
            act_all(rt, pair, self.before);
            pair.act_at_once(rt, self.ready);
            assert_same(rt, pair.said(), self.seen);
        }
    }
}

fn act_all(rt: &(impl Abort + Print), pair: &mut impl Acts, acts: &[Act<'_>]) {
    for act in acts {
        pair.act(rt, *act);
    }
}

/// Sees this of a loop, and of the second core beside it, whose peers have at most so many requests.
fn sees<R>(rt: R, limit: Option<NonZeroU32>, case: Case<'_>)
where
    R: Abort + Print + Wait + RandomSource + AllocGlobal + Copy + Drop + Send + 'static,
{
    let setting = Setting {
        limit,
        ..Setting::with(Wrong::Nothing)
    };
    let mut case = case;
    with_pairs(rt, &[setting], None, &mut case);
}

/// The key is asked for before its peer is blocked.
#[test]
fn peer_sets_come_before_blocked_sets(rt: HostRuntime) {
    let case = Case {
        before: &[FETCH],
        ready: &[Act::Block(&[3]), PEERS],
        seen: "draw 4
draw 1
check 3
draw 18446744073709551616
send 3 x00000000000000000001
true Some(50)",
    };
    sees(rt, None, case);
}

/// The peer that is freed is blocked by then, so that the key that waits for it is not asked for.
#[test]
fn blocked_sets_come_before_the_active_deadline(rt: HostRuntime) {
    let case = Case {
        before: &[PEERS, FETCH, Act::Fetch(&[(2, 10)])],
        ready: &[Act::At(50), Act::Block(&[3])],
        seen: "true Some(60)",
    };
    sees(rt, Some(NonZeroU32::MIN), case);
}

/// The key that waits for the peer is asked for before the response is handed out again.
#[test]
fn the_active_deadline_comes_before_verdicts(rt: HostRuntime) {
    let case = Case {
        before: &[
            PEERS,
            FETCH,
            RESPONSE,
            Act::Fetch(&[(2, 10)]),
            Act::Fetch(&[(1, 11)]),
            Act::Fetch(&[(3, 10)]),
        ],
        ready: &[COMPLETE, Act::At(50)],
        seen: "draw 4
draw 1
check 3
send 3 x00000000000000020003
deliver 1 to 11:111 x6869
true Some(60)",
    };
    sees(rt, Some(NonZeroU32::MIN), case);
}

/// The key is retired before it is fetched again, so it is asked for anew. Two bytes that came in no time count as two
/// in a nanosecond.
#[test]
fn verdicts_come_before_the_mailbox(rt: HostRuntime) {
    let case = Case {
        before: &[PEERS, FETCH, RESPONSE],
        ready: &[Act::Fetch(&[(1, 11)]), COMPLETE],
        seen: "draw 4
draw 2000000001
check 3
send 3 x00000000000000010001
true Some(50)",
    };
    sees(rt, None, case);
}

/// The new key is asked for before the one whose time has come.
#[test]
fn the_mailbox_comes_before_the_pending_deadline(rt: HostRuntime) {
    let case = Case {
        before: &[PEERS, FETCH, MISSING],
        ready: &[Act::At(10), Act::Fetch(&[(2, 10)])],
        seen: "draw 4
draw 1
check 3
send 3 x00000000000000010002
draw 5
draw 1
check 3
send 3 x00000000000000020001
true Some(60)",
    };
    sees(rt, None, case);
}

#[test]
fn the_pending_deadline_comes_before_serves(rt: HostRuntime) {
    let case = Case {
        before: &[PEERS, REQUEST, FETCH, MISSING],
        ready: &[Act::Serve(b"ok"), Act::At(10)],
        seen: "draw 5
draw 1
check 3
send 3 x00000000000000010001
send 3 x000000000000000701026f6b
true Some(60)",
    };
    sees(rt, None, case);
}

#[test]
fn serves_come_before_the_network(rt: HostRuntime) {
    let case = Case {
        before: &[PEERS, REQUEST],
        ready: &[NEXT_REQUEST, Act::Serve(b"ok")],
        seen: "send 3 x000000000000000701026f6b
produce 6
true None",
    };
    sees(rt, None, case);
}

/// Before the poll a request of peer 3 is open; key 1 is judged, and subscriber 11 came since; key 2 is asked for until
/// 50; keys 20, 23, 24 and 25 wait until then, since their peer had no data at 40; and key 21 waits for peer 4. So
/// after each input one more key is asked for.
const OPEN: &[Act] = &[
    PEERS,
    REQUEST,
    FETCH,
    RESPONSE,
    Act::Fetch(&[(1, 11)]),
    Act::Fetch(&[(2, 10)]),
    Act::At(40),
    Act::Fetch(&[(20, 10), (23, 10), (24, 10), (25, 10)]),
    Act::Net(3, b"\0\0\0\0\0\0\0\x02\x02"),
    Act::Net(3, b"\0\0\0\0\0\0\0\x03\x02"),
    Act::Net(3, b"\0\0\0\0\0\0\0\x04\x02"),
    Act::Net(3, b"\0\0\0\0\0\0\0\x05\x02"),
    Act::FetchFrom(&[(21, 4)]),
];

/// Everything is ready, the last first.
const READY: &[Act] = &[
    NEXT_REQUEST,
    Act::Serve(b"ok"),
    Act::At(50),
    Act::Fetch(&[(22, 10)]),
    COMPLETE,
    Act::Block(&[4]),
    Act::Peers(2, &[3, 4]),
];

/// A set of peers lets key 21 be asked for; the next peer is blocked; a request's time is over; a verdict hands the
/// response out again; key 22 is new; the last key that waits is due; the serve is answered; and a request comes.
///
/// With the verdict the average of peer 3 is one byte in 18 nanoseconds: it was charged with none in 10 for what it
/// hadn't, with none in 60 for the timeout, and has two in one.
#[test]
fn every_source_is_ready_at_one_poll(rt: HostRuntime) {
    let case = Case {
        before: OPEN,
        ready: READY,
        seen: "draw 4
draw 1
check 4
send 4 x00000000000000060015
draw 5
draw 1
check 3
send 3 x00000000000000070014
draw 5
draw 1
check 3
send 3 x00000000000000080017
deliver 1 to 11:111 x6869
draw 5
draw 55555556
check 3
send 3 x00000000000000090018
draw 4
draw 55555556
check 3
send 3 x000000000000000a0016
draw 5
draw 55555556
check 3
send 3 x000000000000000b0019
send 3 x000000000000000701026f6b
produce 6
true Some(60)",
    };
    sees(rt, None, case);
}
