//! A script from its first line to its last.

use crate::endings::{Ending, Fault, Place, written};
use crate::script::{Command, Rejected, Why, Wrong, is_skipped, parse};
use crate::session::Session;
use log::{Log, trace};
use memchr::memchr;
use std::alloc::Global;
use std::io::{BufRead, BufReader, ErrorKind, Read, Write};

/// Reads the script, feeds its inputs one after another, and prints what comes of each before more
/// input is waited for. What was printed before a fault is written, too. The number of each line that is
/// read is traced.
pub fn run<L: Log, R: Read, W: Write>(
    log: &L,
    alloc: Global,
    input: &mut BufReader<R>,
    output: &mut W,
) -> Result<Ending, Fault> {
    let mut script = Session::new(alloc);
    feed(log, alloc, &mut script, input, output)
}

/// Has each command of a script done, one after another, as `run` does.
pub fn feed<S: Commanded, L: Log, R: Read, W: Write>(
    log: &L,
    alloc: Global,
    script: &mut S,
    input: &mut BufReader<R>,
    output: &mut W,
) -> Result<Ending, Fault> {
    let mut line = Vec::new(alloc);
    let ended = take_lines(log, alloc, script, input, &mut line, output);
    let flushed = written(output.flush());
    let ending = ended?;
    flushed?;
    Ok(ending)
}

/// What commands are done to.
pub trait Commanded {
    /// Does what a command says, or says why it may not stand here.
    fn command<W: Write>(&mut self, command: Command, output: &mut W) -> Result<Option<Why>, Fault>;
}

impl Commanded for Session {
    fn command<W: Write>(
        &mut self,
        command: Command,
        output: &mut W,
    ) -> Result<Option<Why>, Fault> {
        let turn = self.take(command)?;
        self.print(&turn, output)?;
        Ok(turn.why())
    }
}

/// Does what the lines say, up to the first that can't be read. A line that has to be waited for is read in place of
/// the one there.
fn take_lines<S: Commanded, L: Log, R: Read, W: Write>(
    log: &L,
    alloc: Global,
    script: &mut S,
    input: &mut BufReader<R>,
    line: &mut Vec<u8>,
    output: &mut W,
) -> Result<Ending, Fault> {
    for number in 1..=u64::MAX {
        let wrong = match take_buffered(log, alloc, number, script, input, output)? {
            Some(wrong) => wrong,
            None => {
                written(output.flush())?;
                if !read_line(input, line)? {
                    break;
                }
                take_line(log, alloc, number, script, line.as_slice(), output)?
            }
        };
        if let Some(wrong) = wrong {
            written(writeln!(output, "line {number} unreadable"))?;
            return Ok(Ending::Unreadable(Place {
                line: number,
                wrong,
            }));
        }
    }
    Ok(Ending::End)
}

/// Does what the next line says, or answers what is wrong with it, where it can be read without waiting for
/// more input.
fn take_buffered<S: Commanded, L: Log, R: Read, W: Write>(
    log: &L,
    alloc: Global,
    number: u64,
    script: &mut S,
    input: &mut BufReader<R>,
    output: &mut W,
) -> Result<Option<Option<Wrong>>, Fault> {
    let buffer = input.buffer();
    let Some(end) = memchr(b'\n', buffer) else {
        return Ok(None);
    };
    let wrong = take_line(log, alloc, number, script, &buffer[..end], output)?;
    input.consume(end + 1);
    Ok(Some(wrong))
}

/// Reads the next line, without its LF, in place of the one there. False at the end of the input.
fn read_line<R: Read>(input: &mut BufReader<R>, line: &mut Vec<u8>) -> Result<bool, Fault> {
    line.clear();
    match input.read_until(b'\n', line) {
        Ok(count) => {
            if line.last() == Some(&b'\n') {
                line.pop();
            }
            Ok(count != 0)
        }
        Err(error) => match error.kind() {
            ErrorKind::OutOfMemory => Err(Fault::Memory),
            _ => Err(Fault::Input),
        },
    }
}

/// Does what a line says, or answers what is wrong with it. The number of one that isn't skipped is traced.
fn take_line<S: Commanded, L: Log, W: Write>(
    log: &L,
    alloc: Global,
    number: u64,
    script: &mut S,
    line: &[u8],
    output: &mut W,
) -> Result<Option<Wrong>, Fault> {
    if is_skipped(line) {
        return Ok(None);
    }
    trace!(log; "line {number}");
    match parse(alloc, line) {
        Ok(command) => match script.command(command, output) {
            Ok(why) => Ok(why.map(Wrong::of_line)),
            Err(fault) => Err(fault),
        },
        Err(Rejected::Unreadable(wrong)) => Ok(Some(wrong)),
        Err(Rejected::OutOfMemory) => Err(Fault::Memory),
    }
}
