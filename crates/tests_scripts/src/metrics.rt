//! What an engine counts.

use crate::cores::{Given, Plain, make_core, take};
use crate::support::assert_same;
use resolver::p2p::{Durations, Metrics, Tally};
use resolver::{Outcome, Resolution};
use resolver_script::peer::Peer;
use std::alloc::Global;
use std::fmt::Write;
use std::panic::Expect;
use std::process::Abort;

/// Keeps none of the subscribers of these tests.
const KEEP_NOBODY: Given = Given::KeepSubscriber(0);

/// Keeps the subscribers of all keys of these tests.
const KEEP_EVERYBODY: Given = Given::DropKey(0);

const COMPLETE: Option<Outcome> = Some(Outcome::Resolved(Resolution::Complete));

const PARTIAL: Option<Outcome> = Some(Outcome::Resolved(Resolution::Partial));

const UNRESOLVED: Option<Outcome> = Some(Outcome::Unresolved);

const INVALID: Option<Outcome> = Some(Outcome::Invalid);

const IGNORED: Option<Outcome> = Some(Outcome::Ignored);

/// The response "hi" under the ids 5 and 6.
const FIVE: &[u8] = &[0, 0, 0, 0, 0, 0, 0, 5, 1, 2, 104, 105];

const SIX: &[u8] = &[0, 0, 0, 0, 0, 0, 0, 6, 1, 2, 104, 105];

/// Word that there is no data, under the id 5.
const MISSING: &[u8] = &[0, 0, 0, 0, 0, 0, 0, 5, 2];

/// A request for key 123 under the id 7.
const REQUEST: &[u8] = &[0, 0, 0, 0, 0, 0, 0, 7, 0, 123];

/// Peer 4 is asked for key 1, which subscriber 10 wants, under the id 5.
const ASKED: &[(u64, Given)] = &[
    (0, Given::Peers(&[4, 4])),
    (0, Given::Fetch(1, 10)),
    (0, Given::Drawn(0)),
    (0, Given::Drawn(0)),
    (0, Given::Clear),
    (0, Given::Drawn(5)),
    (0, Given::Sent(true)),
];

/// Its response waits for its verdict, under the number 0.
const JUDGED: &[(u64, Given)] = &[(20, Given::Net(4, FIVE))];

/// The same, and subscriber 11 came since.
const JOINED: &[(u64, Given)] = &[(20, Given::Net(4, FIVE)), (20, Given::Fetch(1, 11))];

/// The key is asked for again, under the id 6, and its response comes.
const AGAIN: &[(u64, Given)] = &[
    (30, Given::Wake),
    (30, Given::Drawn(0)),
    (30, Given::Drawn(0)),
    (30, Given::Clear),
    (30, Given::Sent(true)),
    (45, Given::Net(4, SIX)),
];

const NONE: Tally = Tally {
    success: 0,
    ambiguous: 0,
    failure: 0,
    dropped: 0,
};

const ONE: Tally = Tally { success: 1, ..NONE };

const AMBIGUOUS: Tally = Tally {
    ambiguous: 1,
    ..NONE
};

const FAILED: Tally = Tally { failure: 1, ..NONE };

const DROPPED: Tally = Tally { dropped: 1, ..NONE };

const UNMEASURED: Durations = Durations {
    count: 0,
    nanoseconds: 0,
};

const TWENTY: Durations = Durations {
    count: 1,
    nanoseconds: 20,
};

/// What an engine counts that did nothing.
const UNCOUNTED: Metrics = Metrics {
    fetch_pending: 0,
    fetch_active: 0,
    serve_processing: 0,
    fetch: NONE,
    cancel: NONE,
    serve: NONE,
    serve_duration: UNMEASURED,
    fetch_duration: UNMEASURED,
    requests_sent: NONE,
    resolves: UNMEASURED,
};

/// One request was sent.
const SENT: Metrics = Metrics {
    requests_sent: ONE,
    ..UNCOUNTED
};

/// And its response was credited, 20 nanoseconds after it.
const CREDITED: Metrics = Metrics {
    fetch: ONE,
    resolves: TWENTY,
    ..SENT
};

/// And it was complete.
const COMPLETED: Metrics = Metrics {
    fetch_duration: TWENTY,
    ..CREDITED
};

/// Gives these to a core.
fn give_all(rt: &impl Abort, alloc: Global, core: &mut Plain, given: &[(u64, Given)]) {
    for (now, one) in given {
        drop(take(rt, alloc, core, *now, *one));
    }
}

/// What a new core counts of these, one list after another. It is called 9.
fn counts(rt: &impl Abort, alloc: Global, lists: &[&[(u64, Given)]]) -> Metrics {
    let mut core = make_core(alloc, Some(Peer(9)));
    for given in lists {
        give_all(rt, alloc, &mut core, given);
    }
    core.metrics()
}

fn assert_counts(rt: &impl Abort, alloc: Global, lists: &[&[(u64, Given)]], expected: &Metrics) {
    assert_same(rt, &counts(rt, alloc, lists), expected);
}

/// What a new core is given, one list after another, and what it counts then.
type Row = (&'static [&'static [(u64, Given)]], Metrics);

fn assert_rows(rt: &impl Abort, alloc: Global, rows: &[Row]) {
    for (lists, expected) in rows {
        assert_counts(rt, alloc, lists, expected);
    }
}

/// That so much is counted where peer 4 was asked, and this is the verdict on its response.
fn assert_judged(rt: &impl Abort, alloc: Global, outcome: Option<Outcome>, expected: &Metrics) {
    let verdict = [(20, Given::Verdict(0, outcome))];
    assert_counts(rt, alloc, &[ASKED, JUDGED, &verdict], expected);
}

/// The same, where the key was called off before.
fn assert_called_off(rt: &impl Abort, alloc: Global, outcome: Option<Outcome>, expected: &Metrics) {
    let rest = [(20, KEEP_NOBODY), (20, Given::Verdict(0, outcome))];
    assert_counts(rt, alloc, &[ASKED, JUDGED, &rest], expected);
}

/// The same, where the response is complete, and this is the verdict on its second delivery.
fn assert_judged_again(
    rt: &impl Abort,
    alloc: Global,
    outcome: Option<Outcome>,
    expected: &Metrics,
) {
    let rest = [
        (20, Given::Verdict(0, COMPLETE)),
        (30, Given::Verdict(1, outcome)),
    ];
    assert_counts(rt, alloc, &[ASKED, JOINED, &rest], expected);
}

/// What is counted of one verdict in each of these courses.
struct Judged {
    first: Metrics,
    called_off: Metrics,
    again: Metrics,
}

/// That one verdict is counted so in each of them.
fn assert_each_judged(rt: &impl Abort, alloc: Global, outcome: Option<Outcome>, expected: &Judged) {
    assert_judged(rt, alloc, outcome, &expected.first);
    assert_called_off(rt, alloc, outcome, &expected.called_off);
    assert_judged_again(rt, alloc, outcome, &expected.again);
}

#[test]
fn metrics_after_verdict(rt: HostRuntime) {
    assert_judged(&rt, rt.alloc(), COMPLETE, &COMPLETED);
}

/// A called off delivery still earns its credit, but the key's time isn't counted.
#[test]
fn a_called_off_complete_counts_no_fetch(rt: HostRuntime) {
    const EXPECTED: Metrics = Metrics {
        cancel: ONE,
        ..CREDITED
    };
    assert_called_off(&rt, rt.alloc(), COMPLETE, &EXPECTED);
}

/// Two keys wait.
const WAITS: &[(u64, Given)] = &[(0, Given::Fetch(1, 10)), (0, Given::Fetch(2, 10))];

/// Two requests of peer 3 wait for their bytes.
const SERVES: &[(u64, Given)] = &[(5, Given::Net(3, REQUEST)), (6, Given::Net(3, REQUEST))];

/// A request has no answer.
const ACTIVE: Metrics = Metrics {
    fetch_active: 1,
    ..SENT
};

/// Keys wait, requests have no answer, and serves are open.
#[test]
fn what_there_is_now(rt: HostRuntime) {
    const TWO: Metrics = Metrics {
        fetch_pending: 2,
        ..UNCOUNTED
    };
    const OPEN: Metrics = Metrics {
        serve_processing: 2,
        ..UNCOUNTED
    };
    const ROWS: &[Row] = &[
        (&[WAITS], TWO),
        (&[ASKED], ACTIVE),
        (&[ASKED, JUDGED], SENT),
        (&[SERVES], OPEN),
    ];
    assert_rows(&rt, rt.alloc(), ROWS);
}

/// `Unresolved` is ambiguous, unless the response was accepted before.
#[test]
fn ambiguous_fetches(rt: HostRuntime) {
    const ONCE: Metrics = Metrics {
        fetch: AMBIGUOUS,
        ..SENT
    };
    const EXPECTED: Judged = Judged {
        first: Metrics {
            fetch_pending: 1,
            ..ONCE
        },
        called_off: Metrics {
            cancel: ONE,
            ..ONCE
        },
        again: Metrics {
            fetch_pending: 1,
            ..COMPLETED
        },
    };
    assert_each_judged(&rt, rt.alloc(), UNRESOLVED, &EXPECTED);
}

/// `Invalid` is a failure, also where it was called off or conflicts.
#[test]
fn invalid_fetches(rt: HostRuntime) {
    const ONCE: Metrics = Metrics {
        fetch: FAILED,
        ..SENT
    };
    const EXPECTED: Judged = Judged {
        first: Metrics {
            fetch_pending: 1,
            ..ONCE
        },
        called_off: Metrics {
            cancel: ONE,
            ..ONCE
        },
        again: Metrics {
            fetch: Tally { failure: 1, ..ONE },
            ..COMPLETED
        },
    };
    assert_each_judged(&rt, rt.alloc(), INVALID, &EXPECTED);
}

/// A request fails whose time is over, and one that its peer has no data for.
#[test]
fn failed_requests(rt: HostRuntime) {
    const UNANSWERED: Metrics = Metrics {
        fetch: FAILED,
        fetch_pending: 1,
        ..SENT
    };
    const ROWS: &[Row] = &[
        (&[ASKED, &[(49, Given::TimeOut)]], ACTIVE),
        (&[ASKED, &[(50, Given::TimeOut)]], UNANSWERED),
        (&[ASKED, &[(20, Given::Net(3, MISSING))]], ACTIVE),
        (&[ASKED, &[(20, Given::Net(4, MISSING))]], UNANSWERED),
    ];
    assert_rows(&rt, rt.alloc(), ROWS);
}

/// One request was sent, and its key called off.
const CANCELED: Metrics = Metrics {
    cancel: ONE,
    ..SENT
};

/// One request was sent, and its response dropped.
const LOST: Metrics = Metrics {
    fetch: DROPPED,
    ..SENT
};

/// `Ignored` is dropped, accepted or not, unless it was called off.
#[test]
fn ignored_fetches(rt: HostRuntime) {
    const EXPECTED: Judged = Judged {
        first: LOST,
        called_off: CANCELED,
        again: Metrics {
            fetch: Tally { dropped: 1, ..ONE },
            ..COMPLETED
        },
    };
    assert_each_judged(&rt, rt.alloc(), IGNORED, &EXPECTED);
}

/// A key is dropped that a dropped verdict retires, unless its response was accepted.
#[test]
fn dropped_verdicts(rt: HostRuntime) {
    const EXPECTED: Judged = Judged {
        first: LOST,
        called_off: CANCELED,
        again: COMPLETED,
    };
    assert_each_judged(&rt, rt.alloc(), None, &EXPECTED);
    const FIRST: &[(u64, Given)] = &[(20, Given::Verdict(0, None))];
    const SECOND: &[(u64, Given)] = &[(30, Given::Verdict(1, None))];
    const ROWS: &[Row] = &[
        (&[ASKED, JOINED, FIRST], SENT),
        (&[ASKED, JOINED, FIRST, SECOND], LOST),
    ];
    assert_rows(&rt, rt.alloc(), ROWS);
}

/// A key's time is counted at its first complete response, and at no other.
#[test]
fn the_time_of_a_fetch(rt: HostRuntime) {
    assert_judged_again(&rt, rt.alloc(), COMPLETE, &COMPLETED);
    const TWICE: Metrics = Metrics {
        fetch: Tally { success: 2, ..NONE },
        requests_sent: Tally { success: 2, ..NONE },
        resolves: Durations {
            count: 2,
            nanoseconds: 35,
        },
        ..UNCOUNTED
    };
    const FIRST: &[(u64, Given)] = &[(20, Given::Verdict(0, PARTIAL))];
    const LAST: &[(u64, Given)] = &[(50, Given::Verdict(1, COMPLETE))];
    const LATER: Metrics = Metrics {
        fetch_duration: Durations {
            count: 1,
            nanoseconds: 50,
        },
        ..TWICE
    };
    const BOTH: &[(u64, Given)] = &[
        (20, Given::Verdict(0, COMPLETE)),
        (20, Given::Verdict(1, PARTIAL)),
    ];
    const THIRD: &[(u64, Given)] = &[(50, Given::Verdict(2, COMPLETE))];
    const SOONER: Metrics = Metrics {
        fetch_duration: TWENTY,
        ..TWICE
    };
    const ROWS: &[Row] = &[
        (&[ASKED, JUDGED, FIRST, AGAIN, LAST], LATER),
        (&[ASKED, JOINED, BOTH, AGAIN, THIRD], SOONER),
    ];
    assert_rows(&rt, rt.alloc(), ROWS);
}

/// A retain counts each key that it calls off, or itself where there is none.
#[test]
fn retains(rt: HostRuntime) {
    const KEYS: &[(u64, Given)] = &[
        (0, Given::Fetch(1, 10)),
        (0, Given::Fetch(2, 10)),
        (0, KEEP_EVERYBODY),
    ];
    const KEPT: Metrics = Metrics {
        fetch_pending: 2,
        cancel: DROPPED,
        ..UNCOUNTED
    };
    const CALLED_OFF: &[(u64, Given)] = &[(0, KEEP_NOBODY)];
    const BOTH: Metrics = Metrics {
        cancel: Tally {
            success: 2,
            dropped: 1,
            ..NONE
        },
        ..UNCOUNTED
    };
    const ROWS: &[Row] = &[(&[KEYS], KEPT), (&[KEYS, CALLED_OFF], BOTH)];
    assert_rows(&rt, rt.alloc(), ROWS);
}

/// An answered serve has its time counted, a dropped one has not, and a closed one counts nothing.
#[test]
fn serves(rt: HostRuntime) {
    const CLOSED: &[(u64, Given)] = &[
        (7, Given::Served(1, None)),
        (30, Given::Served(0, Some(b"hi"))),
        (40, Given::Served(0, Some(b"hi"))),
    ];
    const EXPECTED: Metrics = Metrics {
        serve: Tally {
            success: 1,
            failure: 1,
            ..NONE
        },
        serve_duration: Durations {
            count: 1,
            nanoseconds: 25,
        },
        ..UNCOUNTED
    };
    assert_counts(&rt, rt.alloc(), &[SERVES, CLOSED], &EXPECTED);
}

/// No bytes are an answer as others are.
#[test]
fn a_serve_without_bytes(rt: HostRuntime) {
    const CLOSED: &[(u64, Given)] = &[(30, Given::Served(0, Some(b"")))];
    const EXPECTED: Metrics = Metrics {
        serve_processing: 1,
        serve: ONE,
        serve_duration: Durations {
            count: 1,
            nanoseconds: 25,
        },
        ..UNCOUNTED
    };
    assert_counts(&rt, rt.alloc(), &[SERVES, CLOSED], &EXPECTED);
}

/// The verdict on a delivery that was called off, while its key is judged again: neither the key's time is counted nor
/// a dropped key.
#[test]
fn a_dead_verdict_while_its_key_is_judged_again(rt: HostRuntime) {
    const JUDGED_ANEW: &[(u64, Given)] = &[
        (20, Given::Net(4, FIVE)),
        (20, KEEP_NOBODY),
        (20, Given::Fetch(1, 11)),
        (20, Given::Drawn(0)),
        (20, Given::Drawn(0)),
        (20, Given::Clear),
        (20, Given::Sent(true)),
        (45, Given::Net(4, SIX)),
    ];
    const ANEW: Metrics = Metrics {
        cancel: ONE,
        requests_sent: Tally { success: 2, ..NONE },
        ..UNCOUNTED
    };
    const ROWS: &[Row] = &[
        (
            &[ASKED, JUDGED_ANEW, &[(50, Given::Verdict(0, COMPLETE))]],
            Metrics {
                fetch: ONE,
                resolves: TWENTY,
                ..ANEW
            },
        ),
        (
            &[ASKED, JUDGED_ANEW, &[(50, Given::Verdict(0, IGNORED))]],
            ANEW,
        ),
        (
            &[ASKED, JUDGED_ANEW, &[(50, Given::Verdict(0, None))]],
            ANEW,
        ),
    ];
    assert_rows(&rt, rt.alloc(), ROWS);
}

/// The end calls keys off, but no retain does, and no request fails. What was counted stays.
#[test]
fn the_end_counts_nothing(rt: HostRuntime) {
    const END: &[(u64, Given)] = &[(40, Given::End)];
    const DONE: &[(u64, Given)] = &[(20, Given::Verdict(0, COMPLETE))];
    const ROWS: &[Row] = &[
        (&[ASKED, END], SENT),
        (&[ASKED, JUDGED, END], SENT),
        (&[ASKED, JUDGED, DONE, END], COMPLETED),
        (&[WAITS, END], UNCOUNTED),
        (&[SERVES, END], UNCOUNTED),
    ];
    assert_rows(&rt, rt.alloc(), ROWS);
}

/// Both peers are to wait, so that nothing is sent.
#[test]
fn peers_that_are_to_wait(rt: HostRuntime) {
    const GIVEN: &[(u64, Given)] = &[
        (0, Given::Peers(&[3, 4])),
        (0, Given::Fetch(1, 10)),
        (0, Given::Drawn(0)),
        (0, Given::Drawn(0)),
        (0, Given::Until(7)),
        (0, Given::Drawn(0)),
        (0, Given::Drawn(0)),
        (0, Given::Until(9)),
    ];
    const EXPECTED: Metrics = Metrics {
        fetch_pending: 1,
        ..UNCOUNTED
    };
    assert_counts(&rt, rt.alloc(), &[GIVEN], &EXPECTED);
}

/// Times of more than ten seconds, each whole: of a serve, of a response and of its key.
#[test]
fn long_times(rt: HostRuntime) {
    const HOUR: u64 = 3_600_000_000_000;
    const LASTING: Durations = Durations {
        count: 1,
        nanoseconds: HOUR as u128,
    };
    const LATE: &[(u64, Given)] = &[
        (HOUR, Given::Net(4, FIVE)),
        (HOUR, Given::Verdict(0, COMPLETE)),
    ];
    const SERVED: &[(u64, Given)] = &[
        (5, Given::Net(3, REQUEST)),
        (HOUR + 5, Given::Served(0, Some(b"hi"))),
    ];
    const ROWS: &[Row] = &[
        (
            &[ASKED, LATE],
            Metrics {
                fetch: ONE,
                resolves: LASTING,
                fetch_duration: LASTING,
                ..SENT
            },
        ),
        (
            &[SERVED],
            Metrics {
                serve: ONE,
                serve_duration: LASTING,
                ..UNCOUNTED
            },
        ),
    ];
    assert_rows(&rt, rt.alloc(), ROWS);
}

/// Where the clock went back, no time has passed.
#[test]
fn times_where_the_clock_went_back(rt: HostRuntime) {
    const NO_TIME: Durations = Durations {
        count: 1,
        nanoseconds: 0,
    };
    const LATER: &[(u64, Given)] = &[
        (100, Given::Peers(&[4, 4])),
        (100, Given::Fetch(1, 10)),
        (100, Given::Drawn(0)),
        (100, Given::Drawn(0)),
        (100, Given::Clear),
        (100, Given::Drawn(5)),
        (100, Given::Sent(true)),
        (100, Given::Net(3, REQUEST)),
    ];
    const BEFORE: &[(u64, Given)] = &[
        (60, Given::Net(4, FIVE)),
        (50, Given::Verdict(0, COMPLETE)),
        (50, Given::Served(0, Some(b"hi"))),
    ];
    const EXPECTED: Metrics = Metrics {
        fetch: ONE,
        resolves: NO_TIME,
        fetch_duration: NO_TIME,
        serve: ONE,
        serve_duration: NO_TIME,
        ..SENT
    };
    assert_counts(&rt, rt.alloc(), &[LATER, BEFORE], &EXPECTED);
}

/// Both peers are asked, and neither request is accepted to be sent.
#[test]
fn refused_requests(rt: HostRuntime) {
    const GIVEN: &[(u64, Given)] = &[
        (0, Given::Peers(&[3, 4])),
        (0, Given::Fetch(1, 10)),
        (0, Given::Drawn(0)),
        (0, Given::Drawn(0)),
        (0, Given::Clear),
        (0, Given::Drawn(5)),
        (0, Given::Sent(false)),
        (0, Given::Drawn(0)),
        (0, Given::Drawn(0)),
        (0, Given::Clear),
        (0, Given::Sent(false)),
    ];
    const EXPECTED: Metrics = Metrics {
        fetch_pending: 1,
        requests_sent: Tally { dropped: 2, ..NONE },
        ..UNCOUNTED
    };
    assert_counts(&rt, rt.alloc(), &[GIVEN], &EXPECTED);
}

/// Numbers that all differ.
const COUNTED: Metrics = Metrics {
    fetch_pending: 1,
    fetch_active: 2,
    serve_processing: 3,
    fetch: Tally {
        success: 4,
        ambiguous: 5,
        failure: 6,
        dropped: 7,
    },
    cancel: Tally {
        success: 8,
        ambiguous: 0,
        failure: 0,
        dropped: 9,
    },
    serve: Tally {
        success: 10,
        ambiguous: 0,
        failure: 11,
        dropped: 0,
    },
    serve_duration: Durations {
        count: 12,
        nanoseconds: 1_000_000_005,
    },
    fetch_duration: Durations {
        count: 0,
        nanoseconds: 0,
    },
    requests_sent: Tally {
        success: 13,
        ambiguous: 0,
        failure: 0,
        dropped: 14,
    },
    resolves: Durations {
        count: 15,
        nanoseconds: u128::MAX,
    },
};

/// The same in Prometheus's text format.
const SCRAPED: &str = "# TYPE fetch_pending gauge
fetch_pending 1
# TYPE fetch_active gauge
fetch_active 2
# TYPE serve_processing gauge
serve_processing 3
# TYPE fetch_total counter
fetch_total{status=\"success\"} 4
fetch_total{status=\"ambiguous\"} 5
fetch_total{status=\"failure\"} 6
fetch_total{status=\"dropped\"} 7
# TYPE cancel_total counter
cancel_total{status=\"success\"} 8
cancel_total{status=\"ambiguous\"} 0
cancel_total{status=\"failure\"} 0
cancel_total{status=\"dropped\"} 9
# TYPE serve_total counter
serve_total{status=\"success\"} 10
serve_total{status=\"ambiguous\"} 0
serve_total{status=\"failure\"} 11
serve_total{status=\"dropped\"} 0
# TYPE serve_duration_seconds summary
serve_duration_seconds_sum 1.000000005
serve_duration_seconds_count 12
# TYPE fetch_duration_seconds summary
fetch_duration_seconds_sum 0.000000000
fetch_duration_seconds_count 0
# TYPE requests_sent_total counter
requests_sent_total{status=\"success\"} 13
requests_sent_total{status=\"ambiguous\"} 0
requests_sent_total{status=\"failure\"} 0
requests_sent_total{status=\"dropped\"} 14
# TYPE resolves_seconds summary
resolves_seconds_sum 340282366920938463463374607431.768211455
resolves_seconds_count 15
";

/// What is counted, as text.
fn spelled(rt: &impl Abort, alloc: Global, metrics: &Metrics) -> String {
    let mut text = String::new(alloc);
    write!(text, "{metrics}").expect(rt, "memory");
    text
}

#[test]
fn a_scraper_gets_a_line_for_each_number(rt: HostRuntime) {
    let text = spelled(&rt, rt.alloc(), &COUNTED);
    assert_same(&rt, text.as_str(), SCRAPED);
}
