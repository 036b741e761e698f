//! Requests by their ids, by their deadlines and by their keys.
//!
//! | Line | Says | Prints |
//! |---|---|---|
//! | `insert K DEADLINE` | key K is asked of peer 4 at 0, under its number | |
//! | `overdue T` | the time of a request may be over | the request |
//! | `answer ID PEER` | a peer answers | the request |
//! | `remove ID` | a request goes | whether it was there |
//! | `keep-not-six` | the request for key 6 goes | |
//! | `next-id ID`, `left`, `has ID`, `asked-for K` | | the id after it; how many are left, and the soonest deadline; whether there is one; its id and deadline |

use crate::support::{Part, holds, plays, print, unreadable, value};
use resolver_fetch_requests::requests::{ID, Request, Requests};
use std::alloc::Global;
use std::panic::Expect;
use std::process::Abort;
use tests_support::names::Letter;
use tests_support::transcript::{Line, Said, cases};

type Asked = Requests<Letter, Letter>;

/// Holds a request for a key under its number, of peer 4, sent at 0, and with this deadline.
fn insert(rt: &impl Abort, requests: &mut Asked, key: Letter, deadline: u128) {
    let id = ID::from(key.0);
    holds(rt, requests.get(id).is_none());
    holds(rt, !requests.is_asked(&key));
    let request = Request {
        key,
        peer: Letter(4),
        start: 0,
        deadline,
    };
    requests.insert(id, request).expect(rt, "memory");
}

fn is_not_six(key: &Letter) -> bool {
    key.0 != 6
}

/// Under which id a key is asked for, and until when.
fn asked_for(requests: &Asked, key: &Letter) -> Option<(ID, u128)> {
    let (id, request) = requests.get_for(key)?;
    Some((id, request.deadline))
}

/// Looks at requests. Ends the test where no line has this word.
fn look(rt: &impl Abort, printed: &mut String, requests: &Asked, word: &str, line: &mut Line) {
    match word {
        "next-id" => print(rt, printed, requests.next_id(value(rt, line))),
        "left" => print(rt, printed, (requests.len(), requests.deadline())),
        "has" => print(rt, printed, requests.get(value(rt, line)).is_some()),
        "asked-for" => print(rt, printed, asked_for(requests, &Letter(value(rt, line)))),
        _ => unreadable(rt, line),
    }
}

impl<R: Abort> Said<R> for Part<'_, Asked> {
    fn say(&mut self, rt: &R, line: &mut Line, printed: &mut String) {
        match line.field() {
            "insert" => {
                let key = Letter(value(rt, line));
                insert(rt, self.0, key, value(rt, line));
            }
            "overdue" => print(rt, printed, self.0.take_overdue(value(rt, line))),
            "answer" => {
                let id = value(rt, line);
                print(
                    rt,
                    printed,
                    self.0.take_matching(id, &Letter(value(rt, line))),
                );
            }
            "remove" => print(rt, printed, self.0.remove(value(rt, line)).is_some()),
            "keep-not-six" => self.0.retain(is_not_six),
            word => look(rt, printed, self.0, word, line),
        }
    }
}

/// Plays each case, where there is no request before.
fn play_each(rt: &impl Abort, alloc: Global, transcript: &str) {
    for case in cases(transcript) {
        let mut requests: Asked = Requests::new(alloc);
        plays(rt, alloc, &mut Part(&mut requests), case);
    }
}

#[test]
fn next_id_passes_held_ids(rt: HostRuntime) {
    const CASES: &str = "# nothing is held
next-id 4
> 5

# the next two are held
insert 5 0
insert 6 0
next-id 4
> 7

# the one after the next is held
insert 6 0
next-id 4
> 5

# the last id
next-id 18446744073709551615
> 0

# the last id, and the first is held
insert 0 0
next-id 18446744073709551615
> 1";
    play_each(&rt, rt.alloc(), CASES);
}

#[test]
fn the_soonest_is_over_first(rt: HostRuntime) {
    const CASE: &str = "# the_soonest_is_over_first
insert 1 30
insert 2 10
insert 3 40
insert 4 20
overdue 30
> Some(Request { key: Letter(2), peer: Letter(4), start: 0, deadline: 10 })
overdue 30
> Some(Request { key: Letter(4), peer: Letter(4), start: 0, deadline: 20 })
overdue 30
> Some(Request { key: Letter(1), peer: Letter(4), start: 0, deadline: 30 })
overdue 30
> None
left
> (1, Some(40))";
    play_each(&rt, rt.alloc(), CASE);
}

#[test]
fn an_answer_of_another_peer_finds_nothing(rt: HostRuntime) {
    const CASE: &str = "# an_answer_of_another_peer_finds_nothing
insert 5 10
insert 6 20
answer 5 3
> None
left
> (2, Some(10))
answer 5 4
> Some(Request { key: Letter(5), peer: Letter(4), start: 0, deadline: 10 })
left
> (1, Some(20))";
    play_each(&rt, rt.alloc(), CASE);
}

#[test]
fn requests_are_let_go(rt: HostRuntime) {
    const CASE: &str = "# requests_are_let_go
insert 5 10
insert 6 20
remove 5
> true
has 5
> false
left
> (1, Some(20))
keep-not-six
left
> (0, None)";
    play_each(&rt, rt.alloc(), CASE);
}

#[test]
fn a_key_is_asked_for_under_its_id(rt: HostRuntime) {
    const CASE: &str = "# a_key_is_asked_for_under_its_id
insert 5 10
insert 6 20
asked-for 5
> Some((5, 10))
asked-for 7
> None
remove 5
> true
asked-for 5
> None
asked-for 6
> Some((6, 20))";
    play_each(&rt, rt.alloc(), CASE);
}

#[test]
fn whose_time_is_over_first_in_whatever_order_deadlines_come(rt: HostRuntime) {
    const CASES: &str = "# they go up with the ids
insert 1 10
insert 2 10
insert 3 20
left
> (3, Some(10))
remove 1
> true
left
> (2, Some(10))
overdue 20
> Some(Request { key: Letter(2), peer: Letter(4), start: 0, deadline: 10 })
overdue 20
> Some(Request { key: Letter(3), peer: Letter(4), start: 0, deadline: 20 })
overdue 20
> None

# a moment goes back
insert 1 30
insert 2 20
insert 3 25
left
> (3, Some(20))
overdue 30
> Some(Request { key: Letter(2), peer: Letter(4), start: 0, deadline: 20 })
insert 6 5
left
> (3, Some(5))
keep-not-six
left
> (2, Some(25))
overdue 30
> Some(Request { key: Letter(3), peer: Letter(4), start: 0, deadline: 25 })
overdue 30
> Some(Request { key: Letter(1), peer: Letter(4), start: 0, deadline: 30 })
overdue 30
> None

# an id is less than the last
insert 9 10
insert 1 10
left
> (2, Some(10))
overdue 10
> Some(Request { key: Letter(1), peer: Letter(4), start: 0, deadline: 10 })
overdue 10
> Some(Request { key: Letter(9), peer: Letter(4), start: 0, deadline: 10 })

# nothing is held any more
insert 2 20
insert 1 10
remove 2
> true
remove 1
> true
left
> (0, None)
insert 3 40
insert 4 50
left
> (2, Some(40))
overdue 50
> Some(Request { key: Letter(3), peer: Letter(4), start: 0, deadline: 40 })
left
> (1, Some(50))";
    play_each(&rt, rt.alloc(), CASES);
}
