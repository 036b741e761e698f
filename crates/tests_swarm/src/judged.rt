//! One wrong step for each thing that a judge judges.

use bytes::Bytes;
use resolver_core::base::{Check, NonEmptyVec};
use resolver_core::ingress::FetchKey;
use resolver_core::p2p::Phases;
use resolver_core::p2p::effects::Effect;
use resolver_core::p2p::inputs::Event;
use resolver_core::p2p::named::Source;
use resolver_core::p2p::rows::{Phase, Row};
use resolver_core::{Delivery, Fetch, Outcome};
use resolver_swarm::height::Height;
use resolver_swarm::judging::complaint::Complaint;
use resolver_swarm::judging::judge::Judge;
use resolver_swarm::settings::Settings;
use resolver_swarm::world::Happens;
use std::alloc::Global;
use std::panic::Expect;
use std::process::Abort;

/// The key that is wanted.
const KEY: Height = Height { high: 0, low: 5 };

/// The id of the request.
const ID: u64 = 9;

/// That node 1 may ask one peer for one key at once.
fn judge(alloc: Global) -> Judge {
    let settings = Settings {
        peer_limit: 1,
        timeout: 1,
        ..Settings::usual()
    };
    Judge::new(alloc, 1, &settings)
}

fn take(rt: &impl Abort, judge: &mut Judge, now: u128, event: Happens) {
    judge.take(now, &event).expect(rt, "memory");
}

/// A judge of a node that wants a key and has peer 2.
fn wanting(rt: &impl Abort, alloc: Global) -> Judge {
    let mut judge = judge(alloc);
    fetch(rt, alloc, &mut judge);
    let peers = Vec::from_slice(alloc, &[1, 2]).expect(rt, "memory");
    take(rt, &mut judge, 0, Event::PeerSet { index: 0, peers });
    judge
}

/// The key is fetched.
fn fetch(rt: &impl Abort, alloc: Global, judge: &mut Judge) {
    let mut items = Vec::new(alloc);
    let item = FetchKey::from_fetch(alloc, Fetch::from(KEY));
    items.push(item.expect(rt, "memory")).expect(rt, "memory");
    take(rt, judge, 0, Event::Fetch(items));
}

/// The same, where peer 2 was asked for it.
fn asking(rt: &impl Abort, alloc: Global) -> Judge {
    let mut judge = wanting(rt, alloc);
    judge.note_check(2, Check::Clear);
    judge.note_request(KEY, 2, ID, true).expect(rt, "memory");
    judge
}

fn response(rt: &impl Abort, alloc: Global) -> Bytes {
    Bytes::copy_from_slice(alloc, b"\0\0\0\0\0\0\0\x09\x01\x02hi").expect(rt, "memory")
}

fn delivery(rt: &impl Abort, alloc: Global, number: u64) -> Effect<Height, u16, u16> {
    let subscribers = NonEmptyVec::new(alloc, (0, 0)).expect(rt, "memory");
    let delivery = Delivery {
        key: KEY,
        subscribers,
    };
    let value = Bytes::copy_from_slice(alloc, b"hi").expect(rt, "memory");
    Effect::Deliver {
        number,
        response: number,
        delivery,
        value,
    }
}

/// The same, where it answered, which was handed out under number 0.
fn judging(rt: &impl Abort, alloc: Global) -> Judge {
    let mut judge = asking(rt, alloc);
    let bytes = response(rt, alloc);
    take(rt, &mut judge, 10, Event::Net { peer: 2, bytes });
    judge
        .note_effect(&delivery(rt, alloc, 0))
        .expect(rt, "memory");
    judge
}

fn credit(response: u64, peer: u16) -> Effect<Height, u16, u16> {
    Effect::Credit {
        response,
        source: Source {
            peer,
            elapsed: 10,
            bytes: 2,
        },
    }
}

fn row(rt: &impl Abort, alloc: Global, phase: Phase<u16>) -> Row<Height, u16, u16> {
    Row {
        key: KEY,
        subscribers: NonEmptyVec::new(alloc, (0, 0)).expect(rt, "memory"),
        targets: None,
        retries: 0,
        phase,
    }
}

/// What a core counts that has so many keys in each phase.
fn phases(waiting: u64, asked: u64, judged: u64) -> Phases {
    Phases {
        waiting,
        asked,
        judged,
    }
}

fn assert_found(rt: &impl Abort, judge: &Judge, complaint: Option<Complaint>) {
    assert_eq!(rt; judge.complaint, complaint);
}

#[test]
fn a_right_node_is_not_complained_of(rt: HostRuntime) {
    let mut judge = judging(&rt, rt.alloc());
    let outcome = Some(Outcome::from(true));
    take(&rt, &mut judge, 10, Event::Verdict { number: 0, outcome });
    judge.note_effect(&credit(0, 2)).expect(&rt, "memory");
    judge.note_phases(phases(0, 0, 0));
    judge.note_rows(&[]);
    judge.note_waits(None, None);
    assert_found(&rt, &judge, None);
}

#[test]
fn a_lost_demand_is_found(rt: HostRuntime) {
    let mut judge = wanting(&rt, rt.alloc());
    judge.note_rows(&[]);
    assert_found(&rt, &judge, Some(Complaint::Demand));
}

#[test]
fn a_demand_that_stays_is_found(rt: HostRuntime) {
    let mut judge = judging(&rt, rt.alloc());
    let outcome = Some(Outcome::from(true));
    take(&rt, &mut judge, 10, Event::Verdict { number: 0, outcome });
    judge.note_rows(&[row(&rt, rt.alloc(), Phase::Judged { number: 0 })]);
    assert_found(&rt, &judge, Some(Complaint::Demand));
}

#[test]
fn a_request_that_stays_is_found(rt: HostRuntime) {
    let mut judge = asking(&rt, rt.alloc());
    take(&rt, &mut judge, 1_000_000, Event::ActiveDue);
    let phase = Phase::Asked {
        id: ID,
        peer: 2,
        deadline: 1_000_000,
    };
    judge.note_rows(&[row(&rt, rt.alloc(), phase)]);
    assert_found(&rt, &judge, Some(Complaint::Requests));
}

/// What a judge finds that is told of the row of its key alone.
fn assert_row_found(
    rt: &impl Abort,
    alloc: Global,
    judge: &mut Judge,
    phase: Option<Phase<u16>>,
    complaint: Option<Complaint>,
) {
    let row = phase.map(|phase| row(rt, alloc, phase));
    judge.note_row(KEY, row.as_ref());
    assert_found(rt, judge, complaint);
}

#[test]
fn a_right_row_is_not_complained_of(rt: HostRuntime) {
    let waiting = Phase::Waiting {
        is_retry: false,
        due: 0,
    };
    let asked = Phase::Asked {
        id: ID,
        peer: 2,
        deadline: 1_000_000,
    };
    let judged = Phase::Judged { number: 0 };
    assert_row_found(
        &rt,
        rt.alloc(),
        &mut wanting(&rt, rt.alloc()),
        Some(waiting),
        None,
    );
    assert_row_found(
        &rt,
        rt.alloc(),
        &mut asking(&rt, rt.alloc()),
        Some(asked),
        None,
    );
    assert_row_found(
        &rt,
        rt.alloc(),
        &mut judging(&rt, rt.alloc()),
        Some(judged),
        None,
    );
}

#[test]
fn a_lost_row_is_found(rt: HostRuntime) {
    let mut judge = wanting(&rt, rt.alloc());
    assert_row_found(&rt, rt.alloc(), &mut judge, None, Some(Complaint::Demand));
}

#[test]
fn a_row_that_stays_is_found(rt: HostRuntime) {
    let mut judge = judging(&rt, rt.alloc());
    let outcome = Some(Outcome::from(true));
    take(&rt, &mut judge, 10, Event::Verdict { number: 0, outcome });
    let phase = Phase::Waiting {
        is_retry: true,
        due: 20,
    };
    assert_row_found(
        &rt,
        rt.alloc(),
        &mut judge,
        Some(phase),
        Some(Complaint::Demand),
    );
}

#[test]
fn a_row_in_another_phase_is_found(rt: HostRuntime) {
    let waiting = Phase::Waiting {
        is_retry: false,
        due: 0,
    };
    let late = Phase::Asked {
        id: ID,
        peer: 2,
        deadline: 1_000_001,
    };
    let another = Phase::Judged { number: 1 };
    let found = Some(Complaint::Requests);
    assert_row_found(
        &rt,
        rt.alloc(),
        &mut asking(&rt, rt.alloc()),
        Some(waiting),
        found,
    );
    assert_row_found(
        &rt,
        rt.alloc(),
        &mut asking(&rt, rt.alloc()),
        Some(late),
        found,
    );
    assert_row_found(
        &rt,
        rt.alloc(),
        &mut judging(&rt, rt.alloc()),
        Some(another),
        found,
    );
}

#[test]
fn the_keys_of_an_event_are_looked_at(rt: HostRuntime) {
    let mut wanted = wanting(&rt, rt.alloc());
    assert!(rt; wanted.touched.is_empty(), "a set of peers changes no row");
    fetch(&rt, rt.alloc(), &mut wanted);
    assert_eq!(rt; wanted.touched.as_slice(), [KEY].as_slice());
    let asked = asking(&rt, rt.alloc());
    assert_eq!(rt; asked.touched.last(), Some(&KEY));
    let mut late = asking(&rt, rt.alloc());
    take(&rt, &mut late, 1_000_000, Event::ActiveDue);
    assert_eq!(rt; late.touched.as_slice(), [KEY].as_slice());
    let mut early = asking(&rt, rt.alloc());
    take(&rt, &mut early, 999_999, Event::ActiveDue);
    assert!(rt; early.touched.is_empty(), "nothing is over");
    let mut answered = judging(&rt, rt.alloc());
    assert_eq!(rt; answered.touched.as_slice(), [KEY].as_slice());
    take(
        &rt,
        &mut answered,
        10,
        Event::Verdict {
            number: 0,
            outcome: None,
        },
    );
    assert_eq!(rt; answered.touched.as_slice(), [KEY].as_slice());
}

#[test]
fn keys_that_are_miscounted_are_found(rt: HostRuntime) {
    let mut lost = wanting(&rt, rt.alloc());
    lost.note_phases(phases(0, 0, 0));
    assert_found(&rt, &lost, Some(Complaint::Demand));
    let mut waiting = asking(&rt, rt.alloc());
    waiting.note_phases(phases(1, 0, 0));
    assert_found(&rt, &waiting, Some(Complaint::Requests));
    let mut asked = judging(&rt, rt.alloc());
    asked.note_phases(phases(0, 1, 0));
    assert_found(&rt, &asked, Some(Complaint::Requests));
}

#[test]
fn a_row_is_compared_each_four_events(rt: HostRuntime) {
    let mut judge = wanting(&rt, rt.alloc());
    for _ in 0..4 {
        assert!(rt; !judge.wants_rows(), "fewer than four events were counted");
        judge.note_phases(phases(1, 0, 0));
    }
    assert!(rt; judge.wants_rows(), "four events were counted");
    let phase = Phase::Waiting {
        is_retry: false,
        due: 0,
    };
    judge.note_rows(&[row(&rt, rt.alloc(), phase)]);
    assert!(rt; !judge.wants_rows(), "the row was just compared");
    assert_found(&rt, &judge, None);
}

#[test]
fn a_peer_that_is_asked_in_vain_is_found(rt: HostRuntime) {
    let mut itself = wanting(&rt, rt.alloc());
    itself.note_check(1, Check::Clear);
    assert_found(&rt, &itself, Some(Complaint::Ineligible));
    let mut stranger = wanting(&rt, rt.alloc());
    stranger.note_check(3, Check::Clear);
    assert_found(&rt, &stranger, Some(Complaint::Ineligible));
    let mut full = asking(&rt, rt.alloc());
    full.note_check(2, Check::Clear);
    assert_found(&rt, &full, Some(Complaint::Ineligible));
}

#[test]
fn a_peer_whose_request_ended_may_be_asked(rt: HostRuntime) {
    let mut answered = judging(&rt, rt.alloc());
    answered.note_check(2, Check::Clear);
    assert_found(&rt, &answered, None);
    let mut late = asking(&rt, rt.alloc());
    take(&rt, &mut late, 1_000_000, Event::ActiveDue);
    late.note_check(2, Check::Clear);
    assert_found(&rt, &late, None);
}

#[test]
fn a_blocked_peer_that_is_asked_is_found(rt: HostRuntime) {
    let mut judge = wanting(&rt, rt.alloc());
    let blocked = Vec::from_slice(rt.alloc(), &[2]).expect(&rt, "memory");
    take(&rt, &mut judge, 0, Event::Blocked(blocked));
    judge.note_check(2, Check::Clear);
    assert_found(&rt, &judge, Some(Complaint::Ineligible));
}

#[test]
fn a_limited_peer_that_is_asked_is_found(rt: HostRuntime) {
    let mut judge = wanting(&rt, rt.alloc());
    judge.note_check(2, Check::Until(50));
    judge.note_request(KEY, 2, ID, true).expect(&rt, "memory");
    assert_found(&rt, &judge, Some(Complaint::Ineligible));
}

#[test]
fn a_key_that_nobody_wants_is_found(rt: HostRuntime) {
    let mut judge = wanting(&rt, rt.alloc());
    judge.note_check(2, Check::Clear);
    judge
        .note_request(Height::of(6), 2, ID, true)
        .expect(&rt, "memory");
    assert_found(&rt, &judge, Some(Complaint::Request));
}

#[test]
fn a_delivery_that_nobody_answered_is_found(rt: HostRuntime) {
    let mut judge = asking(&rt, rt.alloc());
    judge
        .note_effect(&delivery(&rt, rt.alloc(), 0))
        .expect(&rt, "memory");
    assert_found(&rt, &judge, Some(Complaint::Delivery));
}

#[test]
fn an_answer_that_is_not_delivered_is_found(rt: HostRuntime) {
    let mut judge = asking(&rt, rt.alloc());
    let bytes = response(&rt, rt.alloc());
    take(&rt, &mut judge, 10, Event::Net { peer: 2, bytes });
    judge.note_phases(phases(1, 0, 0));
    assert_found(&rt, &judge, Some(Complaint::Delivery));
}

#[test]
fn a_second_credit_is_found(rt: HostRuntime) {
    let mut judge = judging(&rt, rt.alloc());
    judge.note_effect(&credit(0, 2)).expect(&rt, "memory");
    assert_found(&rt, &judge, None);
    judge.note_effect(&credit(0, 2)).expect(&rt, "memory");
    assert_found(&rt, &judge, Some(Complaint::Earned));
}

#[test]
fn a_credit_of_another_peer_is_found(rt: HostRuntime) {
    let mut judge = judging(&rt, rt.alloc());
    judge.note_effect(&credit(0, 3)).expect(&rt, "memory");
    assert_found(&rt, &judge, Some(Complaint::Earned));
}

#[test]
fn a_block_after_a_credit_is_found(rt: HostRuntime) {
    let mut judge = judging(&rt, rt.alloc());
    judge.note_effect(&credit(0, 2)).expect(&rt, "memory");
    let block = Effect::Block {
        response: 0,
        peer: 2,
    };
    judge.note_effect(&block).expect(&rt, "memory");
    assert_found(&rt, &judge, Some(Complaint::Earned));
}

#[test]
fn a_timeout_that_is_not_waited_for_is_found(rt: HostRuntime) {
    let mut judge = asking(&rt, rt.alloc());
    judge.note_waits(None, None);
    assert_found(&rt, &judge, Some(Complaint::Deadline));
}

#[test]
fn what_is_due_and_not_fed_is_found(rt: HostRuntime) {
    let mut judge = wanting(&rt, rt.alloc());
    judge.note_waits(None, Some(0));
    assert_found(&rt, &judge, Some(Complaint::Overdue));
}

#[test]
fn a_wake_up_that_is_lost_is_found(rt: HostRuntime) {
    let mut judge = wanting(&rt, rt.alloc());
    judge.note_waits(None, None);
    assert_found(&rt, &judge, Some(Complaint::Asleep));
}
