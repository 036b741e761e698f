//! Plans that an engine is told through its mailbox.

use crate::fakes::acts::Act;
use crate::fakes::world::{Asked, Setting, World, make_loop};
use crate::support::assert_same;
use futures::test::MockTask;
use resolver::backfill::{Plan, Without, fill, refill, settle, settle_below};
use resolver::{Outcome, Resolution, TargetedResolver};
use resolver_base::{Fault, Feedback};
use resolver_mailbox::mocks::Key;
use resolver_types::NonEmptyVec;
use std::alloc::{AllocError, AllocGlobal, Global};
use std::fmt::Write;
use std::panic::Expect;
use std::process::Abort;
use std::random::RandomSource;
use std::sync::Wait;
use tests_support::names::Peer;
use tests_support::polling::{Polled, turn};
use tests_support::seen::Wrong;

/// What is done with a plan of subscriber 10.
#[derive(Clone, Copy)]
enum Call {
    /// Keys are wanted, of any peer.
    Fill(&'static [Key]),
    /// Keys are wanted, of this peer.
    FillFrom(&'static [Key], Peer),
    Refill,
    Settle(&'static [Key]),
    SettleBelow(Key),
    Forget(&'static [Key]),
}

/// What is done to an engine's world and with its plan, one thing at a time.
#[derive(Clone, Copy)]
enum Step {
    Act(Act<'static>),
    Call(Call),
}

/// Makes a call, and gives its answer.
fn tell<M>(
    alloc: Global,
    mailbox: &mut M,
    plan: &mut Plan<Key, u16>,
    call: Call,
) -> Result<Feedback, Fault>
where
    M: TargetedResolver<
        Key = Key,
        Subscriber = u16,
        Predicate = Without<Key, u16>,
        PublicKey = Peer,
    >,
{
    match call {
        Call::Fill(keys) => fill(mailbox, plan, keys, None),
        Call::FillFrom(keys, peer) => {
            let targets = NonEmptyVec::new(alloc, peer)?;
            fill(mailbox, plan, keys, Some(targets))
        }
        Call::Refill => refill(mailbox, plan, None),
        Call::Settle(keys) => settle(mailbox, plan, keys),
        Call::SettleBelow(bound) => settle_below(mailbox, plan, &bound),
        Call::Forget(keys) => {
            plan.forget(keys);
            Ok(Feedback::Ok)
        }
    }
}

/// Writes what a call was answered, and what the plan wants then.
fn spell_plan(
    text: &mut String,
    feedback: Feedback,
    plan: &Plan<Key, u16>,
) -> Result<(), AllocError> {
    write!(text, "{feedback:?}, wants")?;
    for key in plan.wanted() {
        write!(text, " {}", key.0)?;
    }
    writeln!(text)
}

/// Makes a call, and writes what it was answered and what the plan wants then.
fn make<M>(
    rt: &impl Abort,
    text: &mut String,
    world: &mut World<M>,
    plan: &mut Plan<Key, u16>,
    one: Call,
)
where
    M: TargetedResolver<
        Key = Key,
        Subscriber = u16,
        Predicate = Without<Key, u16>,
        PublicKey = Peer,
    >,
{
    let answer = tell(world.held.alloc, &mut world.mailbox, plan, one);
    let feedback = answer.expect(rt, "an answer");
    spell_plan(text, feedback, plan).expect(rt, "memory");
}

/// Does these, and polls the loop after each. Writes what the fakes were asked, and how each poll ended.
fn do_all<M, L>(
    rt: &(impl Abort + RandomSource + AllocGlobal),
    text: &mut String,
    looped: &mut L,
    world: &mut World<M>,
    plan: &mut Plan<Key, u16>,
    steps: &[Step],
)
where
    L: Polled,
    M: TargetedResolver<
        Key = Key,
        Subscriber = u16,
        Predicate = Without<Key, u16>,
        PublicKey = Peer,
    >,
{
    let task = MockTask::new(rt).expect(rt, "a task");
    for step in steps {
        match step {
            Step::Act(act) => world.held.act(*act).expect(rt, "memory"),
            Step::Call(one) => make(rt, text, world, plan, *one),
        }
        turn(text, &task, looped, &mut world.held.told).expect(rt, "memory");
    }
    // By hand: the borrow checker doesn't cover these by scope.
    drop(task);
}

/// That this is written where these are done, and where these calls are made once the mailbox is closed.
fn sees<R>(rt: R, steps: &[Step], closed: &[Call], seen: &str)
where
    R: Abort + Wait + RandomSource + AllocGlobal + Copy + Drop + Send + 'static,
{
    let made = make_loop::<Without<Key, u16>, _>(rt, rt.alloc(), Setting::with(Wrong::Nothing));
    let (mut world, mut looped) = made.expect(&rt, "a loop");
    let mut plan = Plan::new(rt.alloc(), 10, 7);
    let mut text = String::new(rt.alloc());
    do_all(&rt, &mut text, &mut looped, &mut world, &mut plan, steps);
    world.mailbox.close();
    for one in closed {
        make(&rt, &mut text, &mut world, &mut plan, *one);
    }
    // By hand: the borrow checker doesn't cover these by scope.
    drop(looped);
    drop(world);
    drop(plan);
    assert_same(&rt, text.as_str(), seen);
}

/// A plan is filled, a block comes and is forgotten, another is given up, and what is left is asked for again.
const STEPS: &[Step] = &[
    Step::Act(Act::Peers(1, &[3])),
    Step::Call(Call::Fill(&[Key(2), Key(1), Key(2)])),
    Step::Call(Call::Fill(&[Key(2)])),
    Step::Act(Act::Net(3, b"\0\0\0\0\0\0\0\0\x01\x02hi")),
    Step::Act(Act::Judge(Outcome::Resolved(Resolution::Complete))),
    Step::Call(Call::Forget(&[Key(1)])),
    Step::Call(Call::Fill(&[Key(1)])),
    Step::Call(Call::Settle(&[Key(2), Key(5)])),
    Step::Call(Call::Settle(&[Key(2)])),
    Step::Act(Act::Net(3, b"\0\0\0\0\0\0\0\x01\x01\x02no")),
    Step::Call(Call::FillFrom(&[Key(4), Key(1)], Peer(5))),
    Step::Call(Call::SettleBelow(Key(4))),
    Step::Act(Act::Net(3, b"\0\0\0\0\0\0\0\x02\x01\x02no")),
    Step::Call(Call::Refill),
];

/// After a close nothing that is new is taken.
const CLOSED: &[Call] = &[
    Call::Fill(&[Key(7), Key(4)]),
    Call::FillFrom(&[Key(7)], Peer(3)),
    Call::Settle(&[Key(4)]),
    Call::SettleBelow(Key(9)),
    Call::Refill,
    Call::Fill(&[Key(4)]),
    Call::Settle(&[Key(7)]),
];

/// What is seen of it by the rules of plans and of the peer machine: for each call what it was answered and what is
/// wanted then, a line for each thing that the fakes are asked, and one for each poll. Two bytes that came in no time
/// count as two in a nanosecond.
const SEEN: &str = "-
Ok, wants 1 2
draw 4
draw 1
check 3
draw 18446744073709551616
send 3 x00000000000000000001
draw 4
draw 1
check 3
send 3 x00000000000000010002
-
Ok, wants 1 2
-
deliver 1 to 10:7 x6869
-
-
Ok, wants 2
-
Ok, wants 1 2
draw 4
draw 2000000001
check 3
send 3 x00000000000000020001
-
Ok, wants 1
-
Ok, wants 1
-
-
Ok, wants 1 4
-
Ok, wants 4
-
-
Ok, wants 4
draw 4
draw 2000000001
check 3
send 3 x00000000000000030004
-
Closed, wants 4
Closed, wants 4
Closed, wants 4
Closed, wants 4
Closed, wants 4
Ok, wants 4
Ok, wants 4
";

#[test]
fn a_plan_through_a_mailbox(rt: HostRuntime) {
    sees(rt, STEPS, CLOSED, SEEN);
}

/// The engine has ended by itself, since no more peers will come.
#[test]
fn a_plan_whose_engine_has_ended(rt: HostRuntime) {
    const ENDED: &[Step] = &[
        Step::Call(Call::Fill(&[Key(1)])),
        Step::Act(Act::ClosePeers),
    ];
    const LATE: &[Call] = &[
        Call::Fill(&[Key(2)]),
        Call::Settle(&[Key(1)]),
        Call::Forget(&[Key(1)]),
        Call::Refill,
    ];
    sees(
        rt,
        ENDED,
        LATE,
        "Ok, wants 1
-
complete
Closed, wants 1
Closed, wants 1
Ok, wants
Ok, wants
",
    );
}
