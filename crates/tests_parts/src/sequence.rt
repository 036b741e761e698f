//! Values under numbers that go up.
//!
//! | Line | Says | Prints |
//! |---|---|---|
//! | `put N VALUE` | the value stands under this number | |
//! | `take N` | the value under this number goes | the value |
//! | `keep-even` | the odd values go | |
//! | `clear` | all values go | |
//! | `get N`, `has N`, `first`, `left` | | the value; whether there is one; the least number with its value; how many there are, and whether there is none |

use crate::support::{Part, holds, plays, print, unreadable, value};
use resolver_sequence::Sequence;
use std::alloc::Global;
use std::process::Abort;
use tests_support::transcript::{Line, Said, cases};

type Values = Sequence<u16>;

fn is_even(value: &u16) -> bool {
    *value % 2 == 0
}

/// Looks at values. Ends the test where no line has this word.
fn look(rt: &impl Abort, printed: &mut String, values: &Values, word: &str, line: &mut Line) {
    match word {
        "get" => print(rt, printed, values.get(value(rt, line))),
        "has" => print(rt, printed, values.contains(value(rt, line))),
        "first" => print(rt, printed, values.first()),
        "left" => print(rt, printed, (values.len(), values.is_empty())),
        _ => unreadable(rt, line),
    }
}

impl<R: Abort> Said<R> for Part<'_, Values> {
    fn say(&mut self, rt: &R, line: &mut Line, printed: &mut String) {
        match line.field() {
            "put" => {
                let number = value(rt, line);
                holds(rt, self.0.insert(number, value(rt, line)).is_ok());
            }
            "take" => print(rt, printed, self.0.remove(value(rt, line))),
            "keep-even" => self.0.retain(is_even),
            "clear" => self.0.clear(),
            word => look(rt, printed, self.0, word, line),
        }
    }
}

/// Plays each case, where there is no value before.
fn play_each(rt: &impl Abort, alloc: Global, transcript: &str) {
    for case in cases(transcript) {
        let mut values: Values = Sequence::new(alloc);
        plays(rt, alloc, &mut Part(&mut values), case);
    }
}

#[test]
fn a_value_is_found_under_its_number(rt: HostRuntime) {
    const CASES: &str = "# there is none
left
> (0, true)
first
> None
get 0
> None
take 0
> None

# the numbers go up, and one is left out
put 5 50
put 6 60
put 8 80
left
> (3, false)
first
> Some((5, 50))
get 4
> None
get 6
> Some(60)
get 7
> None
get 8
> Some(80)
get 9
> None

# in whatever order they are put
put 18446744073709551615 1
put 0 2
put 7 3
first
> Some((0, 2))
get 7
> Some(3)
get 18446744073709551615
> Some(1)

# the last value under a number stands
put 5 50
put 5 51
left
> (1, false)
get 5
> Some(51)";
    play_each(&rt, rt.alloc(), CASES);
}

#[test]
fn a_value_that_was_taken_is_not_found(rt: HostRuntime) {
    const CASES: &str = "# the first is taken, and then the next
put 5 50
put 6 60
take 5
> Some(50)
take 5
> None
has 5
> false
first
> Some((6, 60))
take 6
> Some(60)
left
> (0, true)

# one between is taken, and put again
put 5 50
put 6 60
put 7 70
take 6
> Some(60)
left
> (2, false)
get 6
> None
put 6 61
get 6
> Some(61)
take 5
> Some(50)
first
> Some((6, 61))

# most between are taken
put 1 10
put 2 20
put 3 30
put 4 40
put 5 50
take 4
> Some(40)
take 2
> Some(20)
take 3
> Some(30)
left
> (2, false)
get 5
> Some(50)
take 1
> Some(10)
first
> Some((5, 50))

# those that aren't kept
put 1 10
put 2 21
put 3 30
put 4 41
take 3
> Some(30)
keep-even
left
> (1, false)
first
> Some((1, 10))
has 2
> false
clear
left
> (0, true)
get 1
> None";
    play_each(&rt, rt.alloc(), CASES);
}
