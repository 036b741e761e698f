//! The axis of a picture: where along it something is.

ghost use Rattle.std.specs.Prelude.{◌<◌, ◌≤◌};

use crate::at::At;
use crate::run::Run;
use std::alloc::{AllocError, Global};
use std::fmt;
use std::fmt::{Display, Formatter, Write};

/// How many ticks an axis has at the most, without the first.
const MOST_TICKS: u128 = 8;

/// The axis of a picture: moments, or commands by their order where moments tell nothing.
#[derive(Clone, Copy, Debug)]
pub struct Axis {
    /// Whether its ticks are moments.
    pub is_timed: bool,
    first: u128,
    length: u128,
    /// How wide the picture is, in its own units.
    pub width: u128,
}

/// A number that stands at an axis, and where.
#[derive(Clone, Copy, Debug)]
pub struct Tick {
    pub place: u128,
    /// Since the first input: nanoseconds or commands.
    pub number: u128,
    unit: Unit,
}

impl Axis {
    /// The axis of a run. The order of the commands makes it where that is wanted, where all moments are one, and where one
    /// comes before an earlier one.
    pub fn of(run: &Run, width: u128, by_order: bool) -> Axis {
        let first = run.first.unwrap_or(run.last);
        let time = run.last.moment.saturating_sub(first.moment);
        let is_timed = time > 0 && !run.goes_back && !by_order;
        let (first, length) = if is_timed {
            (first.moment, time)
        } else {
            let lines = run.last.line.saturating_sub(first.line);
            (u128::from(first.line), u128::from(lines))
        };
        Axis {
            is_timed,
            first,
            length,
            width,
        }
    }

    /// About how long the run is, from its first input to its end.
    pub fn length(&self) -> Amount {
        let unit = if self.is_timed {
            Unit::about(self.length)
        } else {
            Unit::Commands
        };
        Amount {
            number: self.length,
            unit,
        }
    }

    /// How far from the beginning of the picture something is: no farther than it is wide.
    pub fn place(&self, at: At) -> u128
        ensures { result ≤ self.now.width }
    {
        let number = if self.is_timed {
            at.moment
        } else {
            u128::from(at.line)
        };
        self.along(number.saturating_sub(self.first))
    }

    /// How far from the beginning so many nanoseconds or commands are.
    fn along(&self, number: u128) -> u128
        ensures { result ≤ self.now.width }
    {
        let place = number.saturating_mul(self.width) / self.length.max(1);
        place.min(self.width)
    }

    /// The ticks: round numbers, some of them.
    pub fn ticks(&self, alloc: Global) -> Result<Vec<Tick>, AllocError> {
        let step = step_of(self.length);
        let unit = if self.is_timed {
            Unit::of(step)
        } else {
            Unit::Commands
        };
        let mut ticks = Vec::new(alloc);
        for count in 0..=8u8 {
            let number = step.saturating_mul(u128::from(count));
            if number <= self.length {
                let place = self.along(number);
                ticks.push(Tick {
                    place,
                    number,
                    unit,
                })?;
            }
        }
        Ok(ticks)
    }
}

/// The least of 1, 2, 5, 10, 20, 50 and so on that is not passed too often along this length.
fn step_of(length: u128) -> u128 {
    let mut step: u128 = 1;
    for place in 0..120u8 {
        if length / step.max(1) <= MOST_TICKS {
            break;
        }
        step = if place % 3 == 1 {
            step.saturating_mul(5) / 2
        } else {
            step.saturating_mul(2)
        };
    }
    step
}

/// What the numbers of an axis count.
#[derive(Clone, Copy, Debug, PartialEq, Eq)]
enum Unit {
    Commands,
    Nanoseconds,
    Microseconds,
    Milliseconds,
    Seconds,
}

impl Unit {
    /// The greatest unit of which so many nanoseconds are a whole number.
    fn of(nanoseconds: u128) -> Unit {
        if nanoseconds % 1_000_000_000 == 0 {
            Unit::Seconds
        } else if nanoseconds % 1_000_000 == 0 {
            Unit::Milliseconds
        } else if nanoseconds % 1_000 == 0 {
            Unit::Microseconds
        } else {
            Unit::Nanoseconds
        }
    }

    /// The greatest unit of which so many nanoseconds have ten, or the least.
    fn about(nanoseconds: u128) -> Unit {
        if nanoseconds >= 10_000_000_000 {
            Unit::Seconds
        } else if nanoseconds >= 10_000_000 {
            Unit::Milliseconds
        } else if nanoseconds >= 10_000 {
            Unit::Microseconds
        } else {
            Unit::Nanoseconds
        }
    }

    /// Its name, and how many of the least it has.
    fn name_and_size(self) -> (&'static str, u128)
        ensures { 0 < result.1 }
    {
        match self {
            Unit::Commands => ("commands", 1),
            Unit::Nanoseconds => ("ns", 1),
            Unit::Microseconds => ("µs", 1_000),
            Unit::Milliseconds => ("ms", 1_000_000),
            Unit::Seconds => ("s", 1_000_000_000),
        }
    }
}

/// A number with its unit.
#[derive(Clone, Copy, Debug)]
pub struct Amount {
    number: u128,
    unit: Unit,
}

impl Tick {
    /// The number that stands at it.
    pub fn amount(&self) -> Amount {
        Amount {
            number: self.number,
            unit: self.unit,
        }
    }
}

impl Display for Amount {
    fn fmt<W: Write>(&self, f: &mut Formatter<W>) -> fmt::Result {
        let (name, size) = self.unit.name_and_size();
        let number = self.number / size;
        write!(f, "{number} {name}")
    }
}
