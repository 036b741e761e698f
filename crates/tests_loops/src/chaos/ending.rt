//! How a run ends: the world is made good, and all that is wanted has to come.

use crate::chaos::course::{Course, WAITING, hand_over};
use crate::chaos::model::Model;
use crate::fakes::acts::Act;
use crate::pair::{Acts, judge_end};
use crate::twin::awaited;
use resolver::p2p::mocks::Key;
use resolver::{Outcome, Resolution};
use std::alloc::Global;
use std::io::Print;
use std::panic::Expect;
use std::process::Abort;

/// More rounds than are needed until all that is wanted has come.
const ROUNDS: u64 = 2_000;

impl Course {
    /// All are peers of all, and nobody is blocked. Keys that could be asked of nobody who answers may be asked of any.
    fn make_good<A: Acts>(&mut self, rt: &(impl Abort + Print), pairs: &mut [A]) {
        self.index = self.index.saturating_add(1);
        for pair in pairs.iter_mut() {
            pair.act(rt, Act::Peers(self.index, &[1, 2, 3]));
            pair.act(rt, Act::Block(&[]));
            for key in silent_keys(rt, self.alloc, pair) {
                pair.act(rt, Act::Fetch(&[(key, 10)]));
            }
        }
        self.collect_all(rt, pairs);
    }

    /// All messages arrive.
    fn arrive_all<A: Acts>(&mut self, rt: &(impl Abort + Print), pairs: &mut [A]) -> bool {
        let mut has_arrived = false;
        for _ in 0..WAITING {
            let Some(sent) = self.network.pop() else {
                break;
            };
            hand_over(rt, pairs, &sent);
            has_arrived = true;
        }
        has_arrived
    }

    /// Each engine gets what has been sent, serves and judges. Where there is nothing of that, its time goes on. Says
    /// whether there was anything to be done.
    fn go_on<A: Acts>(&mut self, rt: &(impl Abort + Print), pairs: &mut [A]) -> bool {
        let mut is_busy = self.arrive_all(rt, pairs);
        for pair in pairs.iter_mut() {
            is_busy |= serve_all(rt, pair);
            is_busy |= judge_all(rt, pair);
        }
        if !is_busy {
            for pair in pairs.iter_mut() {
                is_busy |= wait(rt, pair);
            }
        }
        self.collect_all(rt, pairs);
        is_busy
    }

    /// The world is good until nothing is left to be done. All that is wanted has come then.
    pub fn end<A: Acts>(&mut self, rt: &(impl Abort + Print), pairs: &mut [A]) {
        self.make_good(rt, pairs);
        for _ in 0..ROUNDS {
            if !self.go_on(rt, pairs) {
                break;
            }
        }
        for pair in pairs {
            judge_end(rt, pair, None);
        }
    }
}

/// Whether one of the engines but this one may be asked for a key by its targets.
fn is_answered(model: &Model, key: u8) -> bool {
    let me = model.setting.me;
    match model.keys.get(&key) {
        Some(wanted) => [1, 2, 3]
            .iter()
            .any(|peer| *peer != me && wanted.is_aimed_at(*peer)),
        None => true,
    }
}

/// The keys of an engine that none of the others may be asked for.
fn silent_keys(rt: &impl Abort, alloc: Global, pair: &mut impl Acts) -> Vec<u8> {
    let Some(model) = &pair.hands().model else {
        return Vec::new(alloc);
    };
    let keys = model.keys.keys().copied();
    let silent = keys.filter(|key| !is_answered(model, *key));
    silent.collect(alloc).expect(rt, "memory")
}

/// Answers with the key itself each peer that waits for one. Says whether there was one.
fn serve_all(rt: &(impl Abort + Print), pair: &mut impl Acts) -> bool {
    let mut is_busy = false;
    for _ in 0..WAITING {
        let Some(&(_, Key(key))) = pair.hands().serves.front() else {
            break;
        };
        pair.act(rt, Act::Serve(&[key]));
        is_busy = true;
    }
    is_busy
}

/// Takes each delivery to be complete. Says whether there was one.
fn judge_all(rt: &(impl Abort + Print), pair: &mut impl Acts) -> bool {
    let mut is_busy = false;
    for _ in 0..WAITING {
        if pair.hands().deliveries.is_empty() {
            break;
        }
        pair.act(rt, Act::Judge(Outcome::Resolved(Resolution::Complete)));
        is_busy = true;
    }
    is_busy
}

/// It is the moment that an engine waits for. Says whether it waits for one.
fn wait(rt: &(impl Abort + Print), pair: &mut impl Acts) -> bool {
    match awaited(pair.deadlines()) {
        Some(moment) => {
            pair.act(rt, Act::At(u64::try_from(moment).unwrap_or(u64::MAX)));
            true
        }
        None => false,
    }
}
