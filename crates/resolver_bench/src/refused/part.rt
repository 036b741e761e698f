//! A part, and the calls of a row.

use resolver_base::Fault;
use std::alloc::Global;
use std::fmt::{Debug, Write};

/// How a row ended.
#[derive(Clone, Copy)]
pub enum Ending {
    /// No call was refused.
    Whole,
    /// A call was refused memory, and the part was as it had been.
    AsItWas,
    /// A call was refused memory, made again, and the row went on to what it leads to.
    WentOn,
    /// A call was refused, and the part was another then.
    Changed,
    /// What the row itself needs was refused.
    Outside,
}

impl Ending {
    /// The words that are printed.
    pub fn text(self) -> &'static str {
        match self {
            Ending::Whole => "whole",
            Ending::AsItWas => "refused, and as it was",
            Ending::WentOn => "refused, and went on",
            Ending::Changed => "refused, and changed",
            Ending::Outside => "refused outside",
        }
    }
}

/// What is done where a call is refused.
#[derive(Clone, Copy)]
pub enum Way {
    /// The part is compared with one that took the calls before it.
    Compared,
    /// The call is made again, and the row goes on. Then the part is compared with one that took all
    /// calls.
    GoneOn,
}

impl Way {
    /// The words behind a row's name.
    pub fn text(self) -> &'static str {
        match self {
            Way::Compared => "",
            Way::GoneOn => ", and on",
        }
    }
}

/// What a part shows, one value behind the other.
#[derive(Drop)]
pub struct Notes {
    text: String,
    /// Whether memory was refused for some of it.
    is_wanting: bool,
}

impl Notes {
    /// Nothing is shown so far.
    pub fn new(alloc: Global) -> Self {
        Notes {
            text: String::new(alloc),
            is_wanting: false,
        }
    }

    /// Writes a value, and drops it.
    pub fn add<T: Debug + Drop>(&mut self, value: T) {
        if write!(self.text, "{value:?} ").is_err() {
            self.is_wanting = true;
        }
    }

    /// Writes a text as it is.
    pub fn put(&mut self, text: &str) {
        if self.text.push_str(text).is_err() {
            self.is_wanting = true;
        }
    }

    /// How a row ended in which a call was refused, where these are the notes of its part, and those the ones
    /// that are expected.
    pub fn judged(&self, way: Way, expected: &Notes) -> Ending {
        if self.is_wanting || expected.is_wanting {
            return Ending::Outside;
        }
        if self.text.as_str() != expected.text.as_str() {
            return Ending::Changed;
        }
        match way {
            Way::Compared => Ending::AsItWas,
            Way::GoneOn => Ending::WentOn,
        }
    }
}

/// A part that takes calls of one kind.
pub trait Part<Call>: Drop {
    /// Takes one call.
    fn take(&mut self, alloc: Global, call: &Call) -> Result<(), Fault>;

    /// Writes all that the part's calls show of it, or, on the way on, what a row leads to, also where one of its
    /// calls was made twice. It may be used up then.
    fn show(&mut self, alloc: Global, way: Way, notes: &mut Notes);
}

/// A part to begin a row with.
pub trait Fresh {
    /// A part that took no call.
    fn fresh(alloc: Global) -> Self;
}

/// Has a part take the calls of a row one after another. Where one of them is refused, the part is compared with
/// another one.
pub fn taken<Call, T: Part<Call> + Fresh>(alloc: Global, way: Way, calls: &[Call]) -> Ending {
    let mut part = T::fresh(alloc);
    match walk(alloc, way, calls, calls.len(), &mut part) {
        Ok(None) => Ending::Whole,
        Ok(Some(count)) => {
            let mut twin = T::fresh(alloc);
            match walk(alloc, way, calls, count, &mut twin) {
                Ok(None) => compared(alloc, way, &mut part, &mut twin),
                _ => Ending::Outside,
            }
        }
        Err(_) => Ending::Changed,
    }
}

/// Has a part take so many calls, and a call that is refused memory once more on the way on. Where one was refused, it
/// answers how many were taken.
pub fn walk<Call, T: Part<Call>>(
    alloc: Global,
    way: Way,
    calls: &[Call],
    most: usize,
    part: &mut T,
) -> Result<Option<usize>, Fault> {
    let mut is_refused = false;
    let mut count: usize = 0;
    for call in calls.iter().take(most) {
        match part.take(alloc, call) {
            Ok(()) => {}
            Err(Fault::OutOfMemory) => {
                is_refused = true;
                if let Way::Compared = way {
                    break;
                }
                part.take(alloc, call)?;
            }
            Err(fault) => return Err(fault),
        }
        count = count.saturating_add(1);
    }
    Ok(is_refused.then_some(count))
}

/// How a row ended in which a call was refused: whether the part shows what its twin does.
fn compared<Call, T: Part<Call>>(alloc: Global, way: Way, part: &mut T, twin: &mut T) -> Ending {
    let mut seen = Notes::new(alloc);
    let mut expected = Notes::new(alloc);
    part.show(alloc, way, &mut seen);
    twin.show(alloc, way, &mut expected);
    seen.judged(way, &expected)
}

/// Drops what a call answers.
pub fn done<T: Drop>(answered: Result<T, Fault>) -> Result<(), Fault> {
    match answered {
        Ok(_) => Ok(()),
        Err(fault) => Err(fault),
    }
}
