//! Deliveries by their numbers, and what is known once one is over.
//!
//! | Line | Says | Prints |
//! |---|---|---|
//! | `insert K`, `insert-new K`, `insert-below K` | the key is there, which wasn't before, or each below it | whether it is new; how many are |
//! | `remove K`, `take K`, `retain K`, `drain`, `clear` | the key goes, the keys from K on, or all | whether it was there; its entry; how many go |
//! | `deliver K CONTEXT`, `deliver-below K` | the value 5 is handed out for the key, or for each below it, which is put first | the number |
//! | `redeliver K`, `accept K`, `discard K` | the key's response is handed out again, accepted or discarded | the number |
//! | `verdict N W`, `verdict-below N` | the verdict on delivery N, or none on each below it, from the last on | what is over; how many were open |
//! | `contains K`, `is-accepted K`, `response K`, `number K`, `entry K`, `open N`, `keys` | | what is there |
//! | `put-state K N`, `set-state K N`, `state K`, `remove-state K` | the key is there with a state; it has another one; it goes | whether it is new; the state |

ghost use Rattle.std.specs.Prelude.{◌≡◌};

use crate::support::{Part, holds, outcome, plays, print, unreadable, value};
use resolver_delivery::Entries;
use resolver_types::{Delivery, NonEmptyVec};
use std::alloc::Global;
use std::panic::Expect;
use std::process::Abort;
use tests_support::transcript::{Line, Said, cases};

type Tracked = Entries<u16, u16, u8, u64, ()>;

fn insert(rt: &impl Abort, entries: &mut Tracked, key: u16) -> bool {
    entries.insert(key).expect(rt, "memory")
}

fn insert_new(rt: &impl Abort, entries: &mut Tracked, key: u16) {
    holds(rt, !entries.contains(&key));
    entries.insert_new(key, ()).expect(rt, "memory");
}

fn insert_below(rt: &impl Abort, entries: &mut Tracked, end: u16) -> u16 {
    let mut count = 0u16;
    for key in 0..end {
        if insert(rt, entries, key) {
            count = count.wrapping_add(1);
        }
    }
    count
}

/// A delivery for subscriber 10.
fn delivery(rt: &impl Abort, alloc: Global, key: u16) -> Delivery<u16, u16>
    ensures { result.key ≡ key }
{
    let subscribers = NonEmptyVec::new(alloc, (10, 7)).expect(rt, "memory");
    Delivery { key, subscribers }
}

fn deliver(rt: &impl Abort, alloc: Global, entries: &mut Tracked, key: u16, context: u64) -> u64 {
    let delivery = delivery(rt, alloc, key);
    assert!(rt; entries.contains(&delivery.key));
    assert!(rt; entries.number(&delivery.key).is_none());
    entries
        .deliver(delivery, context, 5)
        .expect(rt, "a delivery")
}

fn deliver_below(rt: &impl Abort, alloc: Global, entries: &mut Tracked, end: u16) {
    for key in 0..end {
        insert(rt, entries, key);
        deliver(rt, alloc, entries, key, 0);
    }
}

fn redeliver(rt: &impl Abort, alloc: Global, entries: &mut Tracked, key: u16) -> u64 {
    holds(rt, entries.response(&key).is_some());
    holds(rt, entries.number(&key).is_none());
    entries
        .redeliver(delivery(rt, alloc, key))
        .expect(rt, "a delivery")
}

fn accept(rt: &impl Abort, entries: &mut Tracked, key: u16) {
    holds(rt, entries.response(&key).is_some());
    entries.accept_response(&key);
}

fn complete_below(entries: &mut Tracked, end: u64) -> u64 {
    let mut count = 0u64;
    for number in (0..end).rev() {
        let over = entries.completed(number, None);
        if over.is_ok() {
            count = count.wrapping_add(1);
        }
    }
    count
}

fn retain(entries: &mut Tracked, end: u16) -> usize {
    entries.retain(|key| *key < end)
}

/// Prints the keys that are there.
fn print_keys(rt: &impl Abort, printed: &mut String, entries: &Tracked) {
    for (key, _) in entries.iter() {
        print(rt, printed, key);
    }
}

/// Looks at a key or a number. Ends the test where no line has this word.
fn look(rt: &impl Abort, printed: &mut String, entries: &Tracked, word: &str, line: &mut Line) {
    match word {
        "contains" => print(rt, printed, entries.contains(&value(rt, line))),
        "is-accepted" => print(rt, printed, entries.response_accepted(&value(rt, line))),
        "response" => print(rt, printed, entries.response(&value(rt, line))),
        "number" => print(rt, printed, entries.number(&value(rt, line))),
        "open" => print(rt, printed, entries.open(value(rt, line))),
        "entry" => print(rt, printed, entries.get(&value(rt, line))),
        "keys" => print_keys(rt, printed, entries),
        _ => unreadable(rt, line),
    }
}

/// Says a line of deliveries and their responses, or looks.
fn hand_out(
    rt: &impl Abort,
    printed: &mut String,
    entries: &mut Tracked,
    word: &str,
    line: &mut Line,
) {
    let alloc = *printed.allocator();
    match word {
        "deliver" => {
            let key = value(rt, line);
            print(
                rt,
                printed,
                deliver(rt, alloc, entries, key, value(rt, line)),
            );
        }
        "deliver-below" => deliver_below(rt, alloc, entries, value(rt, line)),
        "redeliver" => print(rt, printed, redeliver(rt, alloc, entries, value(rt, line))),
        "accept" => accept(rt, entries, value(rt, line)),
        "discard" => entries.discard_response(&value(rt, line)),
        "verdict" => {
            let number = value(rt, line);
            print(rt, printed, entries.completed(number, outcome(rt, line)));
        }
        "verdict-below" => print(rt, printed, complete_below(entries, value(rt, line))),
        word => look(rt, printed, entries, word, line),
    }
}

impl<R: Abort> Said<R> for Part<'_, Tracked> {
    fn say(&mut self, rt: &R, line: &mut Line, printed: &mut String) {
        match line.field() {
            "insert" => print(rt, printed, insert(rt, self.0, value(rt, line))),
            "insert-new" => insert_new(rt, self.0, value(rt, line)),
            "insert-below" => print(rt, printed, insert_below(rt, self.0, value(rt, line))),
            "remove" => print(rt, printed, self.0.remove(&value(rt, line))),
            "take" => print(rt, printed, self.0.take(&value(rt, line))),
            "retain" => print(rt, printed, retain(self.0, value(rt, line))),
            "drain" => print(rt, printed, self.0.drain()),
            "clear" => self.0.clear(),
            word => hand_out(rt, printed, self.0, word, line),
        }
    }
}

/// Plays each case, of new entries.
fn play_each(rt: &impl Abort, alloc: Global, transcript: &str) {
    for case in cases(transcript) {
        let mut entries: Tracked = Entries::new(alloc);
        plays(rt, alloc, &mut Part(&mut entries), case);
    }
}

/// Keys come and go: each for itself, all but the first, and all at once. What was kept of one is given as it
/// goes, and the numbers of deliveries go on.
const KEYS: &str = "# entries
contains 1
> false
insert 1
> true
contains 1
> true
insert 1
> false
remove 1
> true
contains 1
> false
remove 1
> false

# keys that are kept, and drained
insert-below 10
> 10
retain 3
> 7
keys
> 0
> 1
> 2
drain
> 3
contains 0
> false

# an entry that is cleared
insert 1
> true
deliver 1 40
> 0
entry 1
> Some(Entry { number: Some(0), response: Some(Response { name: 0, value: 5, context: 40, accepted: false }), state: () })
entry 2
> None
clear
entry 1
> None
open 0
> None
insert 1
> true
deliver 1 41
> 1

# an entry that is taken
insert-new 1
insert-new 2
deliver 1 40
> 0
take 1
> Some(Entry { number: Some(0), response: Some(Response { name: 0, value: 5, context: 40, accepted: false }), state: () })
contains 1
> false
take 1
> None
insert-new 1
take 2
> Some(Entry { number: None, response: None, state: () })
keys
> 1
number 1
> None";

/// A response is kept until it is discarded, and handed out again. An old delivery of a key that came back is
/// told from its new one.
const RESPONSES: &str = "# a response is kept until it is discarded
insert 1
> true
is-accepted 1
> false
deliver 1 40
> 0
number 1
> Some(0)
is-accepted 1
> false
accept 1
is-accepted 1
> true
response 1
> Some(Response { name: 0, value: 5, context: 40, accepted: true })
open 0
> Some(Open { response: 0, delivery: Delivery { key: 1, subscribers: NonEmptyVec { items: [(10, 7)] } }, context: 40, accepted: false })
discard 1
response 1
> None
is-accepted 1
> false

# an old delivery of a key that came back
insert 1
> true
deliver 1 40
> 0
remove 1
> true
insert 1
> true
deliver 1 41
> 1
verdict 0 invalid
> Ok(Completion { response: 0, context: 40, delivery: Delivery { key: 1, subscribers: NonEmptyVec { items: [(10, 7)] } }, outcome: Some(Invalid), canceled: true, previously_accepted: false })
number 1
> Some(1)
accept 1
verdict 1 dropped
> Ok(Completion { response: 1, context: 41, delivery: Delivery { key: 1, subscribers: NonEmptyVec { items: [(10, 7)] } }, outcome: None, canceled: false, previously_accepted: false })
redeliver 1
> 2
verdict 2 invalid
> Ok(Completion { response: 1, context: 41, delivery: Delivery { key: 1, subscribers: NonEmptyVec { items: [(10, 7)] } }, outcome: Some(Invalid), canceled: false, previously_accepted: true })";

/// A delivery's number is closed twice: with its key there, without it, and with it removed and back.
const CLOSINGS: &str = "# complete, its key stays
insert 1
> true
deliver 1 40
> 0
verdict 0 complete
> Ok(Completion { response: 0, context: 40, delivery: Delivery { key: 1, subscribers: NonEmptyVec { items: [(10, 7)] } }, outcome: Some(Resolved(Complete)), canceled: false, previously_accepted: false })
verdict 0 complete
> Err(Aborted)
number 1
> None

# dropped, its key stays
insert 1
> true
deliver 1 40
> 0
verdict 0 dropped
> Ok(Completion { response: 0, context: 40, delivery: Delivery { key: 1, subscribers: NonEmptyVec { items: [(10, 7)] } }, outcome: None, canceled: false, previously_accepted: false })
verdict 0 dropped
> Err(Aborted)
number 1
> None

# invalid, its key stays
insert 1
> true
deliver 1 40
> 0
verdict 0 invalid
> Ok(Completion { response: 0, context: 40, delivery: Delivery { key: 1, subscribers: NonEmptyVec { items: [(10, 7)] } }, outcome: Some(Invalid), canceled: false, previously_accepted: false })
verdict 0 invalid
> Err(Aborted)
number 1
> None

# complete, its key is gone
insert 1
> true
deliver 1 40
> 0
remove 1
> true
verdict 0 complete
> Ok(Completion { response: 0, context: 40, delivery: Delivery { key: 1, subscribers: NonEmptyVec { items: [(10, 7)] } }, outcome: Some(Resolved(Complete)), canceled: true, previously_accepted: false })
verdict 0 complete
> Err(Aborted)
number 1
> None

# dropped, its key is gone
insert 1
> true
deliver 1 40
> 0
remove 1
> true
verdict 0 dropped
> Err(Aborted)
verdict 0 dropped
> Err(Aborted)
number 1
> None

# ignored, its key came back
insert 1
> true
deliver 1 40
> 0
remove 1
> true
insert 1
> true
verdict 0 ignored
> Ok(Completion { response: 0, context: 40, delivery: Delivery { key: 1, subscribers: NonEmptyVec { items: [(10, 7)] } }, outcome: Some(Ignored), canceled: true, previously_accepted: false })
verdict 0 ignored
> Err(Aborted)
number 1
> None

# dropped, its key came back
insert 1
> true
deliver 1 40
> 0
remove 1
> true
insert 1
> true
verdict 0 dropped
> Err(Aborted)
verdict 0 dropped
> Err(Aborted)
number 1
> None";

/// Of ten thousand deliveries each was open. None is then, and no key has one.
const TEN_THOUSAND: &str = "# ten thousand, from the last on
deliver-below 10000
verdict-below 10000
> 10000
open 0
> None
number 9999
> None";

#[test]
fn closed_with_each_verdict(rt: HostRuntime) {
    play_each(&rt, rt.alloc(), CLOSINGS);
}

#[test]
fn keys_and_responses(rt: HostRuntime) {
    play_each(&rt, rt.alloc(), KEYS);
    play_each(&rt, rt.alloc(), RESPONSES);
}

#[test]
fn closes_ten_thousand_backwards(rt: HostRuntime) {
    play_each(&rt, rt.alloc(), TEN_THOUSAND);
}

/// Entries whose keys have a state.
type Stated = Entries<u16, u16, u8, u64, u32>;

impl<R: Abort> Said<R> for Part<'_, Stated> {
    fn say(&mut self, rt: &R, line: &mut Line, printed: &mut String) {
        match line.field() {
            "put-state" => {
                let key = value(rt, line);
                let is_new = self.0.insert_state(key, value(rt, line));
                print(rt, printed, is_new.expect(rt, "memory"));
            }
            "set-state" => {
                let key = value(rt, line);
                self.0.set_state(&key, value(rt, line));
            }
            "state" => print(rt, printed, self.0.state(&value(rt, line))),
            "remove-state" => print(rt, printed, self.0.remove_state(&value(rt, line))),
            _ => unreadable(rt, line),
        }
    }
}

#[test]
fn keeps_a_state(rt: HostRuntime) {
    const CASE: &str = "# keeps_a_state
put-state 1 20
> true
put-state 1 30
> false
state 1
> Some(20)
set-state 1 40
set-state 2 50
state 1
> Some(40)
state 2
> None
remove-state 1
> Some(40)
remove-state 1
> None
state 1
> None";
    let mut entries: Stated = Entries::new(rt.alloc());
    plays(&rt, rt.alloc(), &mut Part(&mut entries), CASE);
}
