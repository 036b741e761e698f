//! What ends a test, which stands in no library: assertions as functions, so that a test that makes many isn't gone
//! over, as it is proved, for what each of them would print, and transcripts that are played.

ghost use Rattle.std.specs.Prelude.{◌≡◌, IsTrue};

use futures::task::Poll;
use futures::test::MockTask;
use futures::{Stream, StreamExt};
use resolver_base::Fault;
use resolver_types::{Delivery, NonEmptyVec, Outcome, Resolution};
use std::alloc::Global;
use std::fmt::{Debug, Write};
use std::num::NonZeroUsize;
use std::panic::Expect;
use std::process::Abort;
use std::str::FromStr;
use tests_support::names::Letter;
use tests_support::transcript::{Line, Said, play};

/// Ends the test where a value isn't the one that is wanted.
pub fn equal<T: PartialEq + Debug>(rt: &impl Abort, found: &T, wanted: &T)
    ensures { IsTrue (T.eq found.now wanted.now) }
{
    assert_eq!(rt; found, wanted);
}

/// Ends the test where a list isn't the one that is wanted.
pub fn equal_lists<T: PartialEq + Debug>(rt: &impl Abort, found: &[T], wanted: &[T]) {
    equal(rt, &found, &wanted);
}

/// Ends the test where a text isn't the one that is wanted.
pub fn equal_texts(rt: &impl Abort, found: &str, wanted: &str) {
    equal(rt, &found, &wanted);
}

/// Ends the test where a condition doesn't hold.
pub fn holds(rt: &impl Abort, condition: bool)
    ensures { IsTrue condition }
{
    assert!(rt; condition);
}

/// Ends the test where what is found at a place isn't what is wanted there.
pub fn equal_at<A: PartialEq + Debug, T: PartialEq + Debug>(
    rt: &impl Abort,
    at: &A,
    found: &T,
    wanted: &T,
) {
    equal(rt, &(at, found), &(at, wanted));
}

/// A clone. The test ends where memory is wanting.
pub fn copied<T: Clone>(rt: &impl Abort, value: &T) -> T {
    value.clone().expect(rt, "memory")
}

/// Ends the test where a value is written otherwise, and lets it go.
pub fn is_written<T: Debug + Drop>(rt: &impl Abort, alloc: Global, value: T, wanted: &str) {
    let mut text = String::new(alloc);
    write!(text, "{value:?}").expect(rt, "memory");
    equal_texts(rt, text.as_str(), wanted);
}

/// A part of another crate that lines are said to.
#[derive(Drop)]
pub struct Part<'a, T>(pub &'a mut T);

/// Says the lines of a case. Ends the test by the first that prints something else, or that can't be read.
pub fn plays<R: Abort, S: Said<R>>(rt: &R, alloc: Global, said: &mut S, case: &str) {
    let wrong = play(rt, alloc, said, case).expect(rt, "memory");
    if let Some(turn) = wrong {
        panic!(rt; "{turn}");
    }
}

/// The same of the parts of a case, one after another.
pub fn plays_parts<R: Abort, S: Said<R>>(rt: &R, alloc: Global, said: &mut S, parts: &[&str]) {
    for part in parts {
        plays(rt, alloc, said, part);
    }
}

/// The next field of a line as a value. Ends the test by the line where it is missing or no such value.
pub fn value<T: FromStr>(rt: &impl Abort, line: &mut Line) -> T
where
    T::Err: Drop,
{
    match line.value::<T>() {
        Some(value) => value,
        None => unreadable(rt, line),
    }
}

/// The values of the next field, between commas, or none where it is `-`.
pub fn list<T: FromStr + Drop>(rt: &impl Abort, alloc: Global, line: &mut Line) -> Vec<T>
where
    T::Err: Drop,
{
    let mut values = Vec::new(alloc);
    let field = line.field();
    if field == "-" {
        return values;
    }
    for item in field.split(',') {
        match item.parse::<T>() {
            Ok(value) => values.push(value).expect(rt, "memory"),
            Err(_) => unreadable(rt, line),
        }
    }
    values
}

/// The verdict of the next field, where `dropped` is none.
pub fn outcome(rt: &impl Abort, line: &mut Line) -> Option<Outcome> {
    match line.field() {
        "complete" => Some(Outcome::Resolved(Resolution::Complete)),
        "partial" => Some(Outcome::Resolved(Resolution::Partial)),
        "unresolved" => Some(Outcome::Unresolved),
        "invalid" => Some(Outcome::Invalid),
        "ignored" => Some(Outcome::Ignored),
        "dropped" => None,
        _ => unreadable(rt, line),
    }
}

/// Ends the test by a line that can't be read.
pub fn unreadable(rt: &impl Abort, line: &Line) -> ! {
    let place = line.place();
    panic!(rt; "{place}\ncan't be read");
}

/// Prints a value as a line, and lets it go.
pub fn print<T: Debug + Drop>(rt: &impl Abort, printed: &mut String, value: T) {
    writeln!(printed, "> {value:?}").expect(rt, "memory");
}

/// Writes subscribers with their marks, as `10:7,11:8`.
pub fn write_subscribers(
    rt: &impl Abort,
    printed: &mut String,
    subscribers: &NonEmptyVec<(u16, u64)>,
) {
    for (place, (subscriber, mark)) in subscribers.iter().enumerate() {
        let before = if place == 0 { "" } else { "," };
        write!(printed, "{before}{subscriber}:{mark}").expect(rt, "memory");
    }
}

/// Prints that an input was refused.
pub fn print_refused(rt: &impl Abort, printed: &mut String, fault: Fault) {
    let written = writeln!(printed, "> refused {} {}", fault.number(), fault.name());
    written.expect(rt, "memory");
}

/// A delivery of a key for subscriber 10.
pub fn delivery(rt: &impl Abort, alloc: Global, key: Letter) -> Delivery<Letter, u8>
    ensures { result.key ≡ key }
{
    let subscribers = NonEmptyVec::new(alloc, (10, 7)).expect(rt, "memory");
    Delivery { key, subscribers }
}

/// What the next poll of a stream gives.
pub fn next<S: Stream>(task: &MockTask, stream: &mut S) -> Poll<Option<S::Item>>
    requires { S.can_poll stream.old }
{
    task.poll(&mut stream.next())
}

/// A size above 0.
pub fn size(rt: &impl Abort, size: usize) -> NonZeroUsize {
    NonZeroUsize::new(size).expect(rt, "a size above 0")
}
