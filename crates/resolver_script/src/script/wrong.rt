//! Why a line can't be read.

use std::fmt;

/// Why a line can't be read, or a field of it.
#[derive(Clone, Copy, Debug, PartialEq, Eq)]
pub enum Why {
    /// The line is not UTF-8.
    NoText,
    /// The line has a carriage return.
    Return,
    /// The line has a tab.
    Tab,
    /// Two spaces stand together, or one at an end of the line.
    Space,
    /// The field is not there.
    Missing,
    /// The line has this field beside all that it may have.
    TooMany,
    /// The field is none of the words that may stand there.
    NoWord,
    /// The field is not a decimal number, without sign and without leading zeros.
    NoNumber,
    /// The field is a number above this one.
    Above(u128),
    /// The field is 0, and may not be.
    Zero,
    /// The field is neither a dash nor numbers up to 255 with a comma between any two.
    NoList,
    /// The field lists nothing, and may not.
    NoPeers,
    /// The field is not `x` with two hexadecimal digits a byte.
    NoBytes,
    /// The line opens no machine, and none is open.
    Unopened,
    /// The line opens a machine, and one is open.
    Opened,
    /// The line says something to the other machine.
    OtherMachine,
    /// The line says something to a plan, and none is open.
    Unplanned,
}

impl fmt::Display for Why {
    fn fmt<W: fmt::Write>(&self, f: &mut fmt::Formatter<W>) -> fmt::Result {
        if let Why::Above(most) = self {
            return write!(f, "a number above {most}");
        }
        f.write_str(self.words())
    }
}

impl Why {
    /// The words of a reason that names no number.
    fn words(&self) -> &'static str {
        match self {
            Why::NoText => "not UTF-8",
            Why::Return => "a carriage return",
            Why::Tab => "a tab",
            Why::Space => "two spaces, or one at an end",
            Why::Missing => "missing",
            Why::TooMany => "one field too many",
            Why::NoWord => "not a word that may stand there",
            Why::NoNumber => "not a number",
            Why::Above(_) => "a number above its limit",
            Why::Zero => "a number below 1",
            Why::NoList => "not a list of numbers up to 255",
            Why::NoPeers => "an empty list",
            Why::NoBytes => "not bytes",
            Why::Unopened => "no machine is open",
            Why::Opened => "a machine is open",
            Why::OtherMachine => "said to the other machine",
            Why::Unplanned => "no plan is open",
        }
    }
}

/// What is wrong with a line that can't be read: in which field, counted from 1, if in one.
#[derive(Clone, Copy, Debug, PartialEq, Eq)]
pub struct Wrong {
    pub field: Option<usize>,
    pub why: Why,
}

impl Wrong {
    /// The line as a whole is wrong.
    pub(crate) fn of_line(why: Why) -> Wrong {
        Wrong { field: None, why }
    }

    /// This field is wrong, unless a character of the line says more.
    pub(crate) fn found(line: &[u8], field: usize, why: Why) -> Wrong {
        match wrong_byte(line) {
            Some(why) => Wrong::of_line(why),
            None => Wrong {
                field: Some(field),
                why,
            },
        }
    }
}

/// What may stand in no line that is read, if the line has it.
fn wrong_byte(line: &[u8]) -> Option<Why> {
    if line.contains(&b'\r') {
        return Some(Why::Return);
    }
    if line.contains(&b'\t') {
        return Some(Why::Tab);
    }
    if has_empty_field(line) {
        return Some(Why::Space);
    }
    None
}

/// Whether two spaces of a line stand together, or one at an end.
fn has_empty_field(line: &[u8]) -> bool {
    let mut is_empty = true;
    for byte in line {
        if *byte != b' ' {
            is_empty = false;
        } else if is_empty {
            return true;
        } else {
            is_empty = true;
        }
    }
    is_empty
}

impl fmt::Display for Wrong {
    fn fmt<W: fmt::Write>(&self, f: &mut fmt::Formatter<W>) -> fmt::Result {
        let why = self.why;
        match self.field {
            Some(field) => write!(f, "field {field}: {why}"),
            None => write!(f, "{why}"),
        }
    }
}
