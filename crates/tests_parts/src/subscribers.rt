//! Who waits for which key. SUBS are subscribers with their marks, as `10:7,11:0`, or `none`.
//!
//! | Line | Says | Prints |
//! |---|---|---|
//! | `insert K SUBS` | these want the key, too | whether the key is new |
//! | `attach K SUBS` | these want the key, if it is there | the subscribers, where it is not |
//! | `insert-new K SUBS` | these want a key that isn't there | |
//! | `delivered K SUBS` | these want the key no more | who is left |
//! | `retain` | the odd subscribers go | the keys that go with them |
//! | `pending K`, `contains K`, `is-empty` | | who wants the key; whether it is there; whether none is |

use crate::predicate::Even;
use crate::support::{
    Part, copied, equal_lists, holds, plays, print, unreadable, value, write_subscribers,
};
use resolver_demand::subscribers::{Subscribers, Tracker};
use resolver_types::NonEmptyVec;
use std::alloc::Global;
use std::cell::Cell;
use std::panic::Expect;
use std::process::Abort;
use tests_support::counting::{Counting, Tally};
use tests_support::transcript::{Line, Said, cases};

type Demand = Tracker<u16, u16>;

type Listed = NonEmptyVec<(u16, u64)>;

/// The subscriber and the mark that stand there.
fn pair(text: &str) -> Option<(u16, u64)> {
    let (subscriber, mark) = text.split_once(':')?;
    Some((subscriber.parse().ok()?, mark.parse().ok()?))
}

/// The subscribers of the next field.
fn subscribers(rt: &impl Abort, alloc: Global, line: &mut Line) -> Listed {
    let mut list = Vec::new(alloc);
    for item in line.field().split(',') {
        match pair(item) {
            Some(pair) => list.push(pair).expect(rt, "memory"),
            None => unreadable(rt, line),
        }
    }
    NonEmptyVec::try_from(list).ok().expect(rt, "subscribers")
}

/// Prints subscribers, or that there are none.
fn print_subscribers(rt: &impl Abort, printed: &mut String, subscribers: Option<Listed>) {
    printed.push_str("> ").expect(rt, "memory");
    match &subscribers {
        Some(subscribers) => write_subscribers(rt, printed, subscribers),
        None => printed.push_str("none").expect(rt, "memory"),
    }
    printed.push('\n').expect(rt, "memory");
}

fn insert_new(
    rt: &impl Abort,
    tracker: &mut Demand,
    key: u16,
    subscribers: NonEmptyVec<(u16, u64)>,
) {
    holds(rt, !tracker.contains(&key));
    tracker.insert_new(key, subscribers).expect(rt, "memory");
}

/// Takes subscribers of a key out, and prints those that are left.
fn deliver(rt: &impl Abort, printed: &mut String, tracker: &mut Demand, key: u16, taken: Listed) {
    let left = tracker.remove_delivered(&key, &taken);
    print_subscribers(rt, printed, left.expect(rt, "memory"));
}

/// Looks at a key, or keeps the even subscribers. Ends the test where no line has this word.
fn look(rt: &impl Abort, printed: &mut String, tracker: &mut Demand, word: &str, line: &mut Line) {
    match word {
        "pending" => {
            let found = tracker.pending(&value(rt, line));
            print_subscribers(rt, printed, found.expect(rt, "memory"));
        }
        "contains" => print(rt, printed, tracker.contains(&value(rt, line))),
        "retain" => print(rt, printed, tracker.retain(&Even).expect(rt, "memory")),
        "is-empty" => print(rt, printed, tracker.is_empty()),
        _ => unreadable(rt, line),
    }
}

impl<R: Abort> Said<R> for Part<'_, Demand> {
    fn say(&mut self, rt: &R, line: &mut Line, printed: &mut String) {
        let alloc = *printed.allocator();
        match line.field() {
            "insert" => {
                let key = value(rt, line);
                let is_new = self.0.insert(key, subscribers(rt, alloc, line));
                print(rt, printed, is_new.expect(rt, "memory"));
            }
            "attach" => {
                let key = value(rt, line);
                let left = self.0.attach(&key, subscribers(rt, alloc, line));
                print_subscribers(rt, printed, left.expect(rt, "memory"));
            }
            "insert-new" => {
                let key = value(rt, line);
                insert_new(rt, self.0, key, subscribers(rt, alloc, line));
            }
            "delivered" => {
                let key = value(rt, line);
                deliver(rt, printed, self.0, key, subscribers(rt, alloc, line));
            }
            word => look(rt, printed, self.0, word, line),
        }
    }
}

/// Subscribers come with their marks, and go as they are delivered to or don't pass; keys go with the last of them,
/// and are new again.
const CASES: &str = "# tracker, subscribers that are there and delivered to
insert 1 10:0,11:0
> true
insert 1 11:0,12:0
> false
pending 1
> 10:0,11:0,12:0
delivered 1 10:0,12:0
> 11:0
pending 1
> 11:0

# tracker, a mark that is there stays
insert 1 10:7
> true
insert 1 10:8,11:8
> false
pending 1
> 10:7,11:8

# tracker, the even subscribers are kept
insert 1 11:0
> true
insert 2 20:0,21:0
> true
retain
> [1]
pending 2
> 20:0
pending 1
> none

# keys that go together
insert 3 11:0
> true
insert 1 11:0
> true
insert 2 11:0
> true
retain
> [1, 2, 3]
is-empty
> true
retain
> []

# subscribers in order
insert 1 12:0,10:0,11:0
> true
delivered 1 11:0
> 10:0,12:0

# the last subscriber takes its key along
insert 1 10:0,11:0
> true
delivered 1 10:0,11:0
> none
contains 1
> false
delivered 1 10:0,11:0
> none

# subscribers of a key that is there or not
attach 1 12:7,10:7
> 12:7,10:7
contains 1
> false
insert-new 1 12:7,10:7
insert-new 2 20:1,21:2,22:3
attach 1 10:8,11:8
> none
attach 2 19:4,22:5,23:6
> none
pending 1
> 10:7,11:8,12:7
pending 2
> 19:4,20:1,21:2,22:3,23:6
insert-new 3 30:1,30:2
pending 3
> 30:1";

#[test]
fn tracker(rt: HostRuntime) {
    for case in cases(CASES) {
        let mut tracker: Demand = Tracker::new(rt.alloc());
        plays(&rt, rt.alloc(), &mut Part(&mut tracker), case);
    }
}

/// Puts a thousand keys, each for the subscriber of its number with the mark 1. Each is new.
fn put_thousand(rt: &impl Abort, alloc: Global, tracker: &mut Demand) {
    for key in 0..1000u16 {
        let one = NonEmptyVec::new(alloc, (key, 1)).expect(rt, "memory");
        holds(rt, tracker.insert(key, one).expect(rt, "memory"));
    }
}

/// There is one subscriber, this one with the mark 1.
fn is_alone(rt: &impl Abort, alloc: Global, subscribers: &Subscribers<u16>, name: u16) {
    holds(rt, subscribers.len() == 1);
    let all = subscribers.copied(alloc).expect(rt, "memory");
    equal_lists(rt, all.as_slice(), &[(name, 1)]);
}

/// There are those thousand keys in their order, each for its subscriber alone.
fn has_thousand(rt: &impl Abort, alloc: Global, tracker: &Demand) {
    let mut next = 0u16;
    for (key, subscribers) in tracker.iter() {
        holds(rt, *key == next);
        is_alone(rt, alloc, subscribers, next);
        next = next.wrapping_add(1);
    }
    holds(rt, next == 1000);
}

/// Takes the key 500 out twice, looks for it and for the next one, and takes every key out.
fn take_out(rt: &impl Abort, tracker: &mut Demand) {
    holds(rt, tracker.remove(&500));
    holds(rt, !tracker.remove(&500));
    holds(rt, tracker.get(&500).is_none());
    holds(rt, tracker.get(&501).is_some());
    holds(rt, !tracker.is_empty());
    tracker.clear();
    holds(rt, tracker.is_empty());
}

/// A clone has each of a thousand keys, and isn't changed as the tracker's own are taken out.
fn has_a_clone(rt: &impl Abort, alloc: Global, tracker: &mut Demand) {
    let same = tracker.clone().expect(rt, "memory");
    holds(rt, tracker.len() == 1000);
    holds(rt, tracker.contains(&999));
    has_thousand(rt, alloc, &same);
    take_out(rt, tracker);
    holds(rt, same.contains(&500));
}

#[test]
fn holds_a_thousand_keys(rt: HostRuntime) {
    let mut tracker = Tracker::new(rt.alloc());
    put_thousand(&rt, rt.alloc(), &mut tracker);
    has_a_clone(&rt, rt.alloc(), &mut tracker);
}

/// Subscribers of key 1 from 0 to 40 are put at three times, of which the first finds the key new. Each has its name as
/// its mark.
const PUT: &str = "# put
insert 1 7:7,3:3
> true
insert 1 39:39,38:38,37:37,36:36,35:35,34:34,33:33,32:32,31:31,30:30,29:29,28:28,27:27,26:26,25:25,24:24,23:23,22:22,21:21,20:20,19:19,18:18,17:17,16:16,15:15,14:14,13:13,12:12,11:11,10:10,9:9,8:8,7:7,6:6,5:5,4:4,3:3,2:2,1:1,0:0
> false
insert 1 7:99,40:40
> false";

/// They stand in their order.
const MANY: &str = "# all stand in order
pending 1
> 0:0,1:1,2:2,3:3,4:4,5:5,6:6,7:7,8:8,9:9,10:10,11:11,12:12,13:13,14:14,15:15,16:16,17:17,18:18,19:19,20:20,21:21,22:22,23:23,24:24,25:25,26:26,27:27,28:28,29:29,30:30,31:31,32:32,33:33,34:34,35:35,36:36,37:37,38:38,39:39,40:40";

/// Two of them are taken out, and then the odd ones.
const TAKEN: &str = "# some are taken out
delivered 1 40:0,39:0,50:0
> 0:0,1:1,2:2,3:3,4:4,5:5,6:6,7:7,8:8,9:9,10:10,11:11,12:12,13:13,14:14,15:15,16:16,17:17,18:18,19:19,20:20,21:21,22:22,23:23,24:24,25:25,26:26,27:27,28:28,29:29,30:30,31:31,32:32,33:33,34:34,35:35,36:36,37:37,38:38
pending 1
> 0:0,1:1,2:2,3:3,4:4,5:5,6:6,7:7,8:8,9:9,10:10,11:11,12:12,13:13,14:14,15:15,16:16,17:17,18:18,19:19,20:20,21:21,22:22,23:23,24:24,25:25,26:26,27:27,28:28,29:29,30:30,31:31,32:32,33:33,34:34,35:35,36:36,37:37,38:38
retain
> []
pending 1
> 0:0,2:2,4:4,6:6,8:8,10:10,12:12,14:14,16:16,18:18,20:20,22:22,24:24,26:26,28:28,30:30,32:32,34:34,36:36,38:38";

#[test]
fn many_subscribers_stand_in_order(rt: HostRuntime) {
    let (rt, alloc) = (&rt, rt.alloc());
    let mut tracker: Demand = Tracker::new(alloc);
    plays(rt, alloc, &mut Part(&mut tracker), PUT);
    plays(rt, alloc, &mut Part(&mut tracker), MANY);
    let mut same = copied(rt, &tracker);
    plays(rt, alloc, &mut Part(&mut tracker), TAKEN);
    drop(tracker);
    plays(rt, alloc, &mut Part(&mut same), MANY);
}

/// Puts each of 10,000 subscribers of one key into a tracker, one by one, and says how often they are looked
/// at.
fn put_each<'a>(
    rt: &impl Abort,
    alloc: Global,
    tracker: &mut Tracker<u16, Counting<'a>>,
    looks: &'a Cell<u32>,
) -> u32 {
    for name in 0..10_000u16 {
        let subscriber = Counting {
            tally: Tally(looks),
            name,
        };
        let one = NonEmptyVec::new(alloc, (subscriber, 0)).expect(rt, "memory");
        tracker.insert(1, one).expect(rt, "memory");
    }
    looks.replace(0)
}

/// They are put into a new tracker, and put again.
fn looks_at_few(rt: &impl Abort, alloc: Global, looks: &Cell<u32>) {
    let mut tracker = Tracker::new(alloc);
    let first = put_each(rt, alloc, &mut tracker, looks);
    let again = put_each(rt, alloc, &mut tracker, looks);
    holds(rt, 0 < first);
    holds(rt, first <= 1_000_000);
    holds(rt, again <= 1_000_000);
}

#[test]
fn a_subscriber_is_compared_with_few_others(rt: HostRuntime) {
    looks_at_few(&rt, rt.alloc(), &Cell::new(0));
}
