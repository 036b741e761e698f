//! Sets ordered by priority.
//!
//! | Line | Says | Prints |
//! |---|---|---|
//! | `put ITEM PRIORITY` | the item has this priority from now on | |
//! | `pop` | the first pair goes | the pair |
//! | `remove ITEM` | the item goes | whether it was there |
//! | `keep-even` | the odd items go | |
//! | `peek`, `contains ITEM` | | the first pair, how many there are, and whether there is none; whether it is there |
//! | `from PRIORITY`, `after ITEM PRIORITY`, `all` | | the pairs from there on; the one behind this pair; all pairs |

use crate::support::{Part, equal, holds, plays, print, unreadable, value};
use resolver_priority_set::PrioritySet;
use resolver_types::Fetch;
use std::alloc::Global;
use std::panic::Expect;
use std::process::Abort;
use tests_support::names::Letter;
use tests_support::transcript::{Line, Said};

type Set = PrioritySet<Letter, u128>;

fn is_even(item: &Letter) -> bool {
    item.0 % 2 == 0
}

/// Prints the pairs of a set from a priority on.
fn print_from(rt: &impl Abort, printed: &mut String, set: &Set, priority: u128) {
    let pairs = set.range_from(priority).expect(rt, "memory");
    for pair in pairs {
        print(rt, printed, pair);
    }
}

/// Prints all pairs of a set.
fn print_all(rt: &impl Abort, printed: &mut String, set: &Set) {
    for pair in set.iter() {
        print(rt, printed, pair);
    }
}

/// Looks at a set. Ends the test where no line has this word.
fn look(rt: &impl Abort, printed: &mut String, set: &Set, word: &str, line: &mut Line) {
    match word {
        "peek" => print(rt, printed, (set.peek(), set.len(), set.is_empty())),
        "contains" => print(rt, printed, set.contains(&Letter(value(rt, line)))),
        "from" => print_from(rt, printed, set, value(rt, line)),
        "after" => {
            let item = Letter(value(rt, line));
            let pair = (value(rt, line), item);
            print(rt, printed, set.range_after(&pair).next());
        }
        "all" => print_all(rt, printed, set),
        _ => unreadable(rt, line),
    }
}

impl<R: Abort> Said<R> for Part<'_, Set> {
    fn say(&mut self, rt: &R, line: &mut Line, printed: &mut String) {
        match line.field() {
            "put" => {
                let item = Letter(value(rt, line));
                self.0.put(item, value(rt, line)).expect(rt, "memory");
            }
            "pop" => print(rt, printed, self.0.pop()),
            "remove" => print(rt, printed, self.0.remove(&Letter(value(rt, line)))),
            "keep-even" => self.0.retain(is_even),
            word => look(rt, printed, self.0, word, line),
        }
    }
}

/// Plays a case, of a new set.
fn play_new(rt: &impl Abort, alloc: Global, case: &str) {
    let mut set: Set = PrioritySet::new(alloc);
    plays(rt, alloc, &mut Part(&mut set), case);
}

#[test]
fn gives_by_priority_and_then_by_item(rt: HostRuntime) {
    const CASE: &str = "# gives_by_priority_and_then_by_item
put 3 20
put 1 20
put 2 30
put 4 10
peek
> (Some((Letter(4), 10)), 4, false)
pop
> Some((Letter(4), 10))
pop
> Some((Letter(1), 20))
pop
> Some((Letter(3), 20))
pop
> Some((Letter(2), 30))
pop
> None";
    play_new(&rt, rt.alloc(), CASE);
}

#[test]
fn replaces_a_priority(rt: HostRuntime) {
    const CASE: &str = "# replaces_a_priority
put 1 10
put 2 20
put 1 30
put 2 20
put 3 5
put 3 25
peek
> (Some((Letter(2), 20)), 3, false)
all
> (20, Letter(2))
> (25, Letter(3))
> (30, Letter(1))";
    play_new(&rt, rt.alloc(), CASE);
}

#[test]
fn gives_what_is_from_a_priority_on(rt: HostRuntime) {
    const CASE: &str = "# gives_what_is_from_a_priority_on
put 3 20
put 1 20
put 2 30
put 4 10
from 20
> (20, Letter(1))
> (20, Letter(3))
> (30, Letter(2))
from 21
> (30, Letter(2))
from 31";
    play_new(&rt, rt.alloc(), CASE);
}

#[test]
fn gives_what_follows_a_pair(rt: HostRuntime) {
    const CASE: &str = "# gives_what_follows_a_pair
put 3 20
put 1 20
put 2 30
put 4 10
after 1 20
> Some((20, Letter(3)))
after 3 20
> Some((30, Letter(2)))
after 9 10
> Some((20, Letter(1)))
after 2 30
> None";
    play_new(&rt, rt.alloc(), CASE);
}

/// Fetches that compare equal, whatever their marks.
fn marked(mark: u64) -> Fetch<u8, u8> {
    Fetch {
        key: 1,
        subscriber: 1,
        mark,
    }
}

#[test]
fn an_item_that_is_there_stays(rt: HostRuntime) {
    let rt = &rt;
    const MARKS: &[(u64, u128)] = &[(1, 10), (2, 30), (3, 30)];
    let mut set = PrioritySet::new(rt.alloc());
    for (mark, priority) in MARKS {
        set.put(marked(*mark), *priority).expect(rt, "memory");
    }
    let (kept, priority) = set.pop().expect(rt, "a fetch");
    equal(rt, &(kept.mark, priority), &(1, 30));
    holds(rt, set.is_empty());
}

#[test]
fn takes_items_out(rt: HostRuntime) {
    const CASE: &str = "# takes_items_out
put 1 10
put 2 20
put 3 30
remove 2
> true
remove 2
> false
contains 2
> false
contains 3
> true
pop
> Some((Letter(1), 10))
pop
> Some((Letter(3), 30))
peek
> (None, 0, true)
pop
> None";
    play_new(&rt, rt.alloc(), CASE);
}

#[test]
fn keeps_what_passes(rt: HostRuntime) {
    const CASE: &str = "# keeps_what_passes
put 1 40
put 2 30
put 3 20
put 4 10
keep-even
contains 3
> false
put 3 35
pop
> Some((Letter(4), 10))
pop
> Some((Letter(2), 30))
pop
> Some((Letter(3), 35))
pop
> None";
    play_new(&rt, rt.alloc(), CASE);
}
