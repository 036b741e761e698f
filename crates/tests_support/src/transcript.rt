//! Transcripts: the lines that a test says to what it tests, and behind each, after `> `, those that this prints.
//!
//! A case begins with `# ` and its name, and a blank line stands between two cases. `play` says the lines of one
//! case after another, and answers with the first that prints something else, or that can't be read.

use std::alloc::{AllocError, Global};
use std::fmt;
use std::fmt::{Display, Formatter, Write};
use std::str::{FromStr, Split};

/// What the lines of a transcript are said to. How it ends a test is the runtime's, which the lines don't look at.
pub trait Said<R> {
    /// Does what a line says, and prints what comes of it: lines with `> ` before each.
    fn say(&mut self, rt: &R, line: &mut Line, printed: &mut String);
}

/// Where a line stands: the name of its case, and its number there, from 1 on.
#[derive(Clone, Copy)]
pub struct Place<'a> {
    case: &'a str,
    number: usize,
    text: &'a str,
}

impl Display for Place<'_> {
    fn fmt<W: Write>(&self, f: &mut Formatter<W>) -> fmt::Result {
        write!(
            f,
            "case {:?}, line {}: {}",
            self.case, self.number, self.text
        )
    }
}

/// A line that is said, with the fields that were not read so far.
#[derive(Clone, Copy)]
pub struct Line<'a> {
    place: Place<'a>,
    rest: &'a str,
}

impl<'a> Line<'a> {
    fn new(place: Place<'a>) -> Line<'a> {
        Line {
            place,
            rest: place.text,
        }
    }

    /// Where it stands.
    pub fn place(&self) -> Place<'a> {
        self.place
    }

    /// The next field, which is empty where there is none.
    pub fn field(&mut self) -> &'a str {
        let (field, rest) = match self.rest.split_once(' ') {
            Some(parts) => parts,
            None => (self.rest, ""),
        };
        self.rest = rest;
        field
    }

    /// The next field as a value: none where it is missing or no such value, as a number that is too large.
    pub fn value<T: FromStr>(&mut self) -> Option<T>
    where
        T::Err: Drop,
    {
        self.field().parse::<T>().ok()
    }

    /// Whether there are no more fields.
    pub fn is_over(&self) -> bool {
        self.rest.is_empty()
    }
}

/// A line that was said, with what it is to print and what it printed.
#[derive(Drop)]
pub struct Turn<'a> {
    place: Place<'a>,
    is_read: bool,
    wanted: String,
    came: String,
}

impl<'a> Turn<'a> {
    /// Before the first line.
    fn new(alloc: Global) -> Turn<'a> {
        Turn {
            place: Place {
                case: "",
                number: 0,
                text: "",
            },
            is_read: true,
            wanted: String::new(alloc),
            came: String::new(alloc),
        }
    }

    /// Whether all of the line was read, and it printed what it is to print.
    fn is_right(&self) -> bool {
        self.is_read && self.wanted.as_str() == self.came.as_str()
    }

    /// A case begins.
    fn title(&mut self, case: &'a str) {
        self.place.case = case;
    }

    /// The line of this number is next.
    fn begin(&mut self, number: usize, text: &'a str) {
        self.place.number = number.saturating_add(1);
        self.place.text = text;
        self.wanted.clear();
        self.came.clear();
    }

    /// Notes what the line is to print next, and what it printed.
    fn note(&mut self, wanted: Option<&str>, came: Option<&str>) -> Result<(), AllocError> {
        if let Some(wanted) = wanted {
            writeln!(self.wanted, "> {wanted}")?;
        }
        if let Some(came) = came {
            writeln!(self.came, "> {came}")?;
        }
        Ok(())
    }

    /// Says the line of this number.
    fn say<R, S: Said<R>>(&mut self, rt: &R, said: &mut S, number: usize, text: &'a str) {
        self.begin(number, text);
        let mut line = Line::new(self.place);
        said.say(rt, &mut line, &mut self.came);
        self.is_read = line.is_over();
    }
}

impl Display for Turn<'_> {
    fn fmt<W: Write>(&self, f: &mut Formatter<W>) -> fmt::Result {
        let (place, wanted, came) = (self.place, self.wanted.as_str(), self.came.as_str());
        if self.is_read {
            write!(f, "{place}\nwanted:\n{wanted}came:\n{came}")
        } else {
            write!(f, "{place}\ncan't be read")
        }
    }
}

/// The cases of a transcript.
pub fn cases(transcript: &str) -> Split<'_, &'static str> {
    transcript.split("\n\n")
}

/// Says the lines of a case one after another, whatever they print.
pub fn say_all<R, S: Said<R>>(rt: &R, alloc: Global, said: &mut S, case: &str) {
    let mut turn = Turn::new(alloc);
    for (number, text) in case.lines().enumerate() {
        if let Some(title) = text.strip_prefix("# ") {
            turn.title(title);
        } else if !text.starts_with("> ") {
            turn.say(rt, said, number, text);
        }
    }
}

/// Says the lines of a case one after another. Answers with the first that prints something else, or has more fields
/// than are read, if there is one; none is said behind it.
pub fn play<'a, R, S: Said<R>>(
    rt: &R,
    alloc: Global,
    said: &mut S,
    case: &'a str,
) -> Result<Option<Turn<'a>>, AllocError> {
    let mut turn = Turn::new(alloc);
    for (number, text) in case.lines().enumerate() {
        if let Some(title) = text.strip_prefix("# ") {
            turn.title(title);
        } else if let Some(wanted) = text.strip_prefix("> ") {
            turn.note(Some(wanted), None)?;
        } else if turn.is_right() {
            turn.say(rt, said, number, text);
        } else {
            return Ok(Some(turn));
        }
    }
    Ok(if turn.is_right() { None } else { Some(turn) })
}

/// Compares what the lines of a case printed together, which has no `> `, with what each is to print. Answers with the
/// line whose print differs, if there is one.
pub fn compare<'a>(
    alloc: Global,
    case: &'a str,
    printed: &str,
) -> Result<Option<Turn<'a>>, AllocError> {
    let mut turn = Turn::new(alloc);
    let mut rest = printed.lines();
    for (number, text) in case.lines().enumerate() {
        if let Some(title) = text.strip_prefix("# ") {
            turn.title(title);
        } else if let Some(wanted) = text.strip_prefix("> ") {
            let came = rest.next();
            if came != Some(wanted) {
                turn.note(Some(wanted), came)?;
                return Ok(Some(turn));
            }
        } else {
            turn.begin(number, text);
        }
    }
    let more = rest.next();
    if more.is_none() {
        return Ok(None);
    }
    turn.note(None, more)?;
    Ok(Some(turn))
}
