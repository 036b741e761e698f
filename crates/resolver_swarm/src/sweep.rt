//! Runs that differ in one number.

use crate::report::Report;
use crate::settings::Settings;
use crate::words::{Misread, Word, word_named};
use std::alloc::{AllocError, Global};
use std::fmt;
use std::fmt::{Display, Formatter, Write};

/// A word, and the numbers that it is to have one after another.
#[derive(Drop)]
pub struct Sweep {
    pub word: &'static Word,
    pub numbers: Vec<u64>,
}

impl Sweep {
    /// The sweep that a text says.
    pub fn read(alloc: Global, text: &str) -> Result<Sweep, Misread> {
        let Some((name, list)) = text.split_once("=") else {
            return Err(Misread::Form);
        };
        let Some(word) = word_named(name) else {
            return Err(Misread::Name);
        };
        let mut numbers = Vec::new(alloc);
        for part in list.split(",") {
            let Ok(number) = part.parse::<u64>() else {
                return Err(Misread::Form);
            };
            word.check(number)?;
            numbers.push(number).map_err(AllocError::from)?;
        }
        Ok(Sweep { word, numbers })
    }

    /// These settings, with another number of the word.
    pub fn settings(&self, settings: Settings, number: u64) -> Settings {
        let mut settings = settings;
        settings.set(self.word, number);
        settings
    }
}

/// The head of a sweep's table.
#[derive(Clone, Copy)]
pub struct Head<'a>(pub &'a Word);

impl Display for Head<'_> {
    fn fmt<W: Write>(&self, f: &mut Formatter<W>) -> fmt::Result {
        let name = self.0.name;
        write!(
            f,
            "{name:>10}      synced  median ms  90% in ms  slowest ms"
        )?;
        write!(f, "  requests/key  timeouts  bytes wasted")
    }
}

/// A row of a sweep's table: the number, and how the run went.
#[derive(Clone, Copy)]
pub struct Line<'a>(pub u64, pub &'a Report);

impl Display for Line<'_> {
    fn fmt<W: Write>(&self, f: &mut Formatter<W>) -> fmt::Result {
        let Line(number, report) = *self;
        let (synced, fellows) = (report.synced.len(), report.fellows);
        write!(f, "{number:>10}  {synced:>4} of {fellows:<4}")?;
        fmt_milliseconds(f, report.synced_by(50))?;
        fmt_milliseconds(f, report.synced_by(90))?;
        write!(f, " ")?;
        fmt_milliseconds(f, report.synced_by(100))?;
        let hundredths = report.requests_a_key();
        let (whole, rest) = (hundredths / 100, hundredths % 100);
        write!(f, "  {whole:>9}.{rest:02}")?;
        let (timeouts, wasted) = (report.timeouts, report.wasted());
        write!(f, "  {timeouts:>8}  {wasted:>12}")
    }
}

/// A cell of milliseconds, or a dash where there are none.
fn fmt_milliseconds<W: Write>(f: &mut Formatter<W>, cell: Option<u128>) -> fmt::Result {
    match cell {
        Some(milliseconds) => write!(f, "  {milliseconds:>9}"),
        None => write!(f, "  {:>9}", "-"),
    }
}
