//! Plans, what they answer, and what they have a resolver told.

pub mod fake;

use crate::support::{equal, equal_at, equal_texts, holds};
use fake::{Fake, Refusal, spell_fetch, spell_without};
use resolver_backfill::{Plan, Without, fill, laws, refill, settle, settle_below};
use resolver_base::{Fault, Feedback};
use resolver_types::{Fetch, NonEmptyVec, Predicate};
use std::alloc::Global;
use std::collections::BTreeSet;
use std::fmt::Write;
use std::panic::Expect;
use std::process::Abort;
use tests_support::names::Letter;

/// Ends the test where other keys are wanted.
fn wants(rt: &impl Abort, alloc: Global, plan: &Plan<Letter, u8>, keys: &str) {
    let mut found = String::new(alloc);
    for key in plan.wanted() {
        write!(found, " {}", key.0).expect(rt, "memory");
    }
    equal_texts(rt, found.as_str(), keys);
}

/// Ends the test where other fetches are answered.
fn fetches(
    rt: &impl Abort,
    alloc: Global,
    answer: Result<Vec<Fetch<Letter, u8>>, Fault>,
    wanted: &str,
) {
    let fetches = answer.expect(rt, "memory");
    let mut found = String::new(alloc);
    for fetch in &fetches {
        spell_fetch(&mut found, fetch).expect(rt, "memory");
    }
    equal_texts(rt, found.as_str(), wanted);
}

/// Ends the test where another predicate is answered, or another one is wanted than none.
fn lets_go(
    rt: &impl Abort,
    alloc: Global,
    answer: Result<Option<Without<Letter, u8>>, Fault>,
    wanted: &str,
) {
    let mut found = String::new(alloc);
    if let Some(without) = answer.expect(rt, "memory") {
        spell_without(&mut found, &without).expect(rt, "memory");
    }
    equal_texts(rt, found.as_str(), wanted);
}

#[test]
fn keys_are_wanted_and_done_with(rt: HostRuntime) {
    let (rt, alloc) = (&rt, rt.alloc());
    let mut plan = Plan::new(alloc, 10, 7);
    wants(rt, alloc, &plan, "");
    let keys = [Letter(2), Letter(1), Letter(2)];
    fetches(rt, alloc, plan.want(&keys), " 1/10/7 2/10/7");
    fetches(rt, alloc, plan.want(&[Letter(2), Letter(3)]), " 3/10/7");
    fetches(rt, alloc, plan.want(&[Letter(3)]), "");
    fetches(rt, alloc, plan.again(), " 1/10/7 2/10/7 3/10/7");
    let keys = [Letter(4), Letter(1), Letter(1)];
    lets_go(rt, alloc, plan.without(&keys), " 10 1");
    wants(rt, alloc, &plan, " 1 2 3");
    lets_go(rt, alloc, plan.done(&keys), " 10 1");
    lets_go(rt, alloc, plan.done(&keys), "");
    wants(rt, alloc, &plan, " 2 3");
    plan.forget(&[Letter(1), Letter(3)]);
    wants(rt, alloc, &plan, " 2");
}

#[test]
fn keys_below_a_bound_are_done_with(rt: HostRuntime) {
    let (rt, alloc) = (&rt, rt.alloc());
    let mut plan = Plan::new(alloc, 10, 7);
    let keys = [Letter(5), Letter(3), Letter(8), Letter(4)];
    fetches(rt, alloc, plan.want(&keys), " 3/10/7 4/10/7 5/10/7 8/10/7");
    lets_go(rt, alloc, plan.done_below(&Letter(3)), "");
    wants(rt, alloc, &plan, " 3 4 5 8");
    lets_go(rt, alloc, plan.without_below(&Letter(5)), " 10 below 5");
    wants(rt, alloc, &plan, " 3 4 5 8");
    lets_go(rt, alloc, plan.done_below(&Letter(5)), " 10 below 5");
    wants(rt, alloc, &plan, " 5 8");
    plan.forget_below(&Letter(6));
    wants(rt, alloc, &plan, " 8");
    plan.forget_below(&Letter(9));
    wants(rt, alloc, &plan, "");
    plan.forget_below(&Letter(9));
}

/// Ends the test where other ones are kept than all but these keys of subscriber 10.
fn keeps_all_but(rt: &impl Abort, without: &Without<Letter, u8>, gone: &[u8]) {
    equal(rt, without.subscriber(), &10);
    for key in 0..6_u8 {
        let kept = without.keep(&Letter(key), &10);
        equal_at(rt, &key, &kept, &!gone.contains(&key));
        holds(rt, without.keep(&Letter(key), &11));
    }
}

#[test]
fn one_subscriber_of_some_keys_is_let_go(rt: HostRuntime) {
    let (rt, alloc) = (&rt, rt.alloc());
    let mut keys = BTreeSet::new(alloc);
    keys.insert(Letter(1)).expect(rt, "memory");
    keys.insert(Letter(4)).expect(rt, "memory");
    let without = Without::new(10, keys);
    equal(rt, &without.keys().len(), &2);
    equal(rt, &without.bound(), &None);
    keeps_all_but(rt, &without, &[1, 4]);
    let clone = without.clone().expect(rt, "memory");
    drop(without);
    keeps_all_but(rt, &clone, &[1, 4]);
    drop(clone);
    let without = Without::below(alloc, 10, Letter(3));
    equal(rt, &without.keys().len(), &0);
    equal(rt, &without.bound(), &Some(&Letter(3)));
    keeps_all_but(rt, &without, &[0, 1, 2]);
    let clone = without.clone().expect(rt, "memory");
    drop(without);
    keeps_all_but(rt, &clone, &[0, 1, 2]);
}

/// One of the five calls that these tests have a resolver told.
fn tell(
    rt: &impl Abort,
    alloc: Global,
    number: u64,
    resolver: &mut Fake,
    plan: &mut Plan<Letter, u8>,
) -> Option<Feedback> {
    let any: Option<NonEmptyVec<Letter>> = None;
    let answer = match number {
        0 => fill(resolver, plan, &[Letter(2), Letter(1), Letter(2)], any),
        1 => {
            let mut targets = NonEmptyVec::new(alloc, Letter(40)).expect(rt, "memory");
            targets.push(Letter(41)).expect(rt, "memory");
            fill(resolver, plan, &[Letter(5), Letter(2)], Some(targets))
        }
        2 => refill(resolver, plan, any),
        3 => settle(resolver, plan, &[Letter(5), Letter(6)]),
        _ => settle_below(resolver, plan, &Letter(2)),
    };
    answer.ok()
}

/// What the plan wants before each of these calls, and after the last one.
const WANTED: &[&str] = &["", " 1 2", " 1 2 5", " 1 2 5", " 1 2", " 2"];

/// What the resolver is told by these calls.
const TOLD: &str =
    "ask 1/10/7 2/10/7\nask 5/10/7@40@41\nask 1/10/7 2/10/7 5/10/7\nlet go 10 5\nlet go 10 below 2\n";

/// One call is refused, which leaves the plan as it was, and is made again.
fn one_is_refused(rt: &impl Abort, alloc: Global, refused: u64, refusal: Refusal) {
    let mut resolver = Fake::new(alloc, refused, refusal);
    let mut plan = Plan::new(alloc, 10, 7);
    for number in 0..5_u64 {
        wants(rt, alloc, &plan, WANTED[number as usize]);
        let mut answer = tell(rt, alloc, number, &mut resolver, &mut plan);
        equal_at(
            rt,
            &number,
            &(answer != Some(Feedback::Ok)),
            &(number + 1 == refused),
        );
        if number + 1 == refused {
            wants(rt, alloc, &plan, WANTED[number as usize]);
            answer = tell(rt, alloc, number, &mut resolver, &mut plan);
        }
        equal_at(rt, &number, &answer, &Some(Feedback::Ok));
    }
    wants(rt, alloc, &plan, WANTED[5]);
    equal_texts(rt, resolver.told.as_str(), TOLD);
}

/// With 0 none is refused, and so with 6.
#[test]
fn a_refused_call_leaves_the_plan(rt: HostRuntime) {
    for refused in 0..7_u64 {
        one_is_refused(&rt, rt.alloc(), refused, Refusal::Closed);
        one_is_refused(&rt, rt.alloc(), refused, Refusal::OutOfMemory);
    }
}

#[test]
fn what_is_not_new_is_not_told(rt: HostRuntime) {
    let (rt, alloc) = (&rt, rt.alloc());
    let mut resolver = Fake::new(alloc, 1, Refusal::Closed);
    let mut plan = Plan::new(alloc, 10, 7);
    fetches(rt, alloc, plan.want(&[Letter(3)]), " 3/10/7");
    let answer = fill(&mut resolver, &mut plan, &[Letter(3)], None);
    equal(rt, &answer.ok(), &Some(Feedback::Ok));
    let answer = settle(&mut resolver, &mut plan, &[Letter(2)]);
    equal(rt, &answer.ok(), &Some(Feedback::Ok));
    let answer = settle_below(&mut resolver, &mut plan, &Letter(3));
    equal(rt, &answer.ok(), &Some(Feedback::Ok));
    wants(rt, alloc, &plan, " 3");
    plan.forget(&[Letter(3)]);
    let answer = refill(&mut resolver, &plan, None);
    equal(rt, &answer.ok(), &Some(Feedback::Ok));
    equal_texts(rt, resolver.told.as_str(), "");
}

/// How many heights may be wanted at a time.
const WINDOW: usize = 4;

/// The heights that are wanted next, from this one up to the last.
fn next_heights(
    alloc: Global,
    plan: &Plan<Letter, u8>,
    from: u8,
    last: u8,
) -> Result<Vec<Letter>, Fault> {
    let room = WINDOW.saturating_sub(plan.wanted().len());
    let mut heights = Vec::new(alloc);
    for height in (from..=last).take(room) {
        heights.push(Letter(height))?;
    }
    Ok(heights)
}

/// Wants the next heights, and answers the first that isn't wanted so far.
fn want_next(
    alloc: Global,
    resolver: &mut Fake,
    plan: &mut Plan<Letter, u8>,
    from: u8,
) -> Result<u8, Fault> {
    let heights = next_heights(alloc, plan, from, 20)?;
    let Some(last) = heights.last() else {
        return Ok(from);
    };
    match fill(resolver, plan, &heights, None)? {
        Feedback::Ok | Feedback::Backoff => Ok(last.0.saturating_add(1)),
        Feedback::Closed => Ok(from),
    }
}

/// Keys come, and as many more are wanted; a resolver that lost all is asked again; the rest is given up.
#[test]
fn a_window_is_kept_full(rt: HostRuntime) {
    let (rt, alloc) = (&rt, rt.alloc());
    let mut resolver = Fake::new(alloc, 2, Refusal::Closed);
    let mut plan = Plan::new(alloc, 10, 7);
    let next = want_next(alloc, &mut resolver, &mut plan, 5).expect(rt, "memory");
    equal(rt, &next, &9);
    plan.forget(&[Letter(6)]);
    plan.forget(&[Letter(5)]);
    let next = want_next(alloc, &mut resolver, &mut plan, next).expect(rt, "memory");
    equal(rt, &next, &9);
    let next = want_next(alloc, &mut resolver, &mut plan, next).expect(rt, "memory");
    equal(rt, &next, &11);
    let mut restarted = Fake::new(alloc, 0, Refusal::Closed);
    let targets = NonEmptyVec::new(alloc, Letter(40)).expect(rt, "memory");
    let answer = refill(&mut restarted, &plan, Some(targets));
    equal(rt, &answer.ok(), &Some(Feedback::Ok));
    let answer = settle_below(&mut restarted, &mut plan, &Letter(9));
    equal(rt, &answer.ok(), &Some(Feedback::Ok));
    wants(rt, alloc, &plan, " 9 10");
    equal_texts(rt, resolver.told.as_str(), BEFORE);
    equal_texts(rt, restarted.told.as_str(), AFTER);
}

const BEFORE: &str = "ask 5/10/7 6/10/7 7/10/7 8/10/7\nask 9/10/7 10/10/7\n";

const AFTER: &str = "ask 7/10/7@40 8/10/7@40 9/10/7@40 10/10/7@40\nlet go 10 below 9\n";

/// Time that grows with the square of the number of keys would not end here.
#[test]
fn a_hundred_thousand_keys(rt: HostRuntime) {
    let (rt, alloc) = (&rt, rt.alloc());
    let mut plan = Plan::new(alloc, 10_u8, 7);
    let keys = first_numbers(rt, alloc, 100_000);
    let fetches = plan.want(&keys).expect(rt, "memory");
    equal(rt, &fetches.len(), &100_000);
    for key in 0..50_000_u32 {
        plan.forget(&[key]);
    }
    equal(rt, &plan.wanted().len(), &50_000);
    let fetches = plan.again().expect(rt, "memory");
    equal(rt, &fetches.len(), &50_000);
    let fetches = plan.want(&keys).expect(rt, "memory");
    equal(rt, &fetches.len(), &50_000);
    plan.forget_below(&99_999);
    equal(rt, &plan.wanted().first(), &Some(&99_999));
}

fn first_numbers(rt: &impl Abort, alloc: Global, count: u32) -> Vec<u32> {
    let mut numbers = Vec::new(alloc);
    for number in 0..count {
        numbers.push(number).expect(rt, "memory");
    }
    numbers
}

#[test]
fn laws_of_plans(_rt: HostRuntime) {
    laws::worked_plan();
    laws::calls_keep_demand::<Letter, u8>();
    laws::what_is_told_keeps_demand::<Letter, u8>();
    laws::again_restores::<Letter, u8>();
    laws::keys_are_forgotten_in_turn::<Letter, u8>();
}
