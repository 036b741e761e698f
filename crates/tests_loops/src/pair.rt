//! A loop beside the twin of its core: both are given the same, and are to ask and to await the same.

use crate::fakes::acts::{Act, Asks};
use crate::fakes::world::{Setting, World, make_loop};
use crate::scan::Shown;
use crate::twin::{Deadlines, Hands, Steps, Twin, make_core, spell_turn};
use futures::test::MockTask;
use std::alloc::{AllocGlobal, Global};
use std::io::Print;
use std::panic::Expect;
use std::process::Abort;
use std::random::RandomSource;
use std::sync::Wait;
use tests_support::names::Below;
use tests_support::polling::{Polled, settle};
use tests_support::seen::spell_said;

/// A loop that is given what its twin is given.
pub trait Side {
    /// Takes these, all of which are ready before it is polled. Writes what its fakes are asked, whether it goes on,
    /// and what it awaits.
    fn take(&mut self, rt: &impl Abort, text: &mut String, acts: &[Act<'_>]);
}

/// A loop in its world. The loop is large, so it is boxed.
#[derive(Drop)]
pub struct Looping<M, L> {
    task: MockTask,
    looped: Box<L>,
    world: World<M>,
    /// The moment that it waited for when it was polled last.
    awaited: Option<u128>,
}

impl<M: Drop, L: Drop> Looping<M, L> {
    /// A loop in its world.
    fn new(
        rt: &(impl Abort + Wait + RandomSource + AllocGlobal),
        alloc: Global,
        (world, looped): (World<M>, L),
    ) -> Self {
        Looping {
            task: MockTask::new(rt).expect(rt, "a task"),
            looped: Box::new(alloc, looped).expect(rt, "memory"),
            world,
            awaited: None,
        }
    }
}

impl<M: Asks, L: Polled> Side for Looping<M, L> {
    fn take(&mut self, rt: &impl Abort, text: &mut String, acts: &[Act<'_>]) {
        for act in acts {
            act_in(rt, text, &mut self.world, *act);
        }
        let is_woken = self.task.is_woken();
        let polled = settle(&self.task, &mut *self.looped);
        if is_woken {
            self.awaited = self.world.held.watch.awaited();
        }
        let told = &mut self.world.held.told;
        spell_turn(rt, text, told, polled.is_pending(), self.awaited);
    }
}

/// Does this in a world. Writes what it is answered where it asks.
fn act_in<M: Asks>(rt: &impl Abort, text: &mut String, world: &mut World<M>, act: Act<'_>) {
    if matches!(&act, Act::IsWanted) {
        let is_wanted = world.held.is_wanted();
        spell_said(text, "wanted", is_wanted).expect(rt, "memory");
    } else {
        world.act(act).expect(rt, "memory");
    }
}

/// A loop, and its twin.
#[derive(Drop)]
pub struct Pair<S, C> {
    twin: Twin<C>,
    side: S,
    said: String,
    expected: String,
}

impl<S, C: Steps> Pair<S, C> {
    /// A loop beside the twin of its core, whose scans are judged where the peers of each key are counted.
    fn new(
        rt: &impl Abort,
        alloc: Global,
        side: S,
        core: C,
        setting: Setting,
        eligible: Option<usize>,
    ) -> Self {
        Pair {
            twin: Twin::new(rt, alloc, core, setting, eligible),
            side,
            said: String::new(alloc),
            expected: String::new(alloc),
        }
    }
}

/// A loop beside its twin, as a test knows them.
pub trait Acts {
    /// Both take this. Fails where the loop's fakes were asked something else than the twin's, in
    /// another order, or where it waits for another moment.
    fn act(&mut self, rt: &(impl Abort + Print), act: Act<'_>) {
        self.act_at_once(rt, &[act]);
    }

    /// The same of several, all of which are ready when the loop is polled: the twin takes them in the order in which
    /// a loop looks.
    fn act_at_once(&mut self, rt: &(impl Abort + Print), acts: &[Act<'_>]);

    /// What the loop's fakes were asked by what was done last, whether it goes on, and what it awaits.
    fn said(&self) -> &str;

    /// What carries the twin's effects out.
    fn hands(&mut self) -> &mut Hands;

    /// The keys that are demanded of the twin.
    fn rows(&self, rt: &impl Abort) -> Vec<Shown>;

    fn deadlines(&self) -> Deadlines;
}

/// Fails where something is wrong at the end, or a key is left.
pub fn judge_end(rt: &(impl Abort + Print), pair: &mut impl Acts, complaint: Option<&str>) {
    let rows = pair.rows(rt);
    let is_left = !rows.is_empty();
    let hands = pair.hands();
    hands.judge(rt, complaint);
    if is_left {
        hands.fail(rt, "a key is left");
    }
}

/// What is done to loops, each beside its twin.
pub trait Play {
    fn play<A: Acts>(&mut self, rt: &(impl Abort + Print), pairs: &mut [A]);
}

/// Does this to engines' loops whose fakes go by these settings. Scans are judged where the peers of each key are
/// counted.
pub fn with_pairs<R, P>(rt: R, settings: &[Setting], eligible: Option<usize>, play: &mut P)
where
    R: Abort + Print + Wait + RandomSource + AllocGlobal + Copy + Drop + Send + 'static,
    P: Play,
{
    let alloc = rt.alloc();
    let mut pairs = Vec::new(alloc);
    for setting in settings {
        let made = make_loop::<Below, _>(rt, alloc, *setting).expect(&rt, "a loop");
        let side = Looping::new(&rt, alloc, made);
        let core = make_core(alloc, *setting);
        let pair = Pair::new(&rt, alloc, side, core, *setting, eligible);
        pairs.push(pair).expect(&rt, "memory");
    }
    play.play(&rt, pairs.as_mut_slice());
}

fn compare(rt: &(impl Abort + Print), hands: &Hands, said: &str, expected: &str) {
    if said != expected {
        hands.print_script(rt);
        panic!(rt; "{:?}: {said} instead of {expected}", hands.setting);
    }
}

impl<S: Side, C: Steps> Acts for Pair<S, C> {
    fn act_at_once(&mut self, rt: &(impl Abort + Print), acts: &[Act<'_>]) {
        self.said.clear();
        self.side.take(rt, &mut self.said, acts);
        self.expected.clear();
        self.twin.act(rt, &mut self.expected, acts);
        compare(
            rt,
            &self.twin.hands,
            self.said.as_str(),
            self.expected.as_str(),
        );
    }

    fn said(&self) -> &str {
        self.said.as_str()
    }

    fn hands(&mut self) -> &mut Hands {
        &mut self.twin.hands
    }

    fn rows(&self, rt: &impl Abort) -> Vec<Shown> {
        self.twin.rows(rt)
    }

    fn deadlines(&self) -> Deadlines {
        self.twin.deadlines()
    }
}
