//! Scripts, and what they print.

use crate::support::assert_text;
use log::sink::Memory;
use resolver_script::endings::{Ending, Fault};
use resolver_script::replay::run;
use std::alloc::Global;
use std::io;
use std::io::{BufReader, ErrorKind, Read, Write};
use std::panic::Expect;
use std::process::Abort;

mod actors;
mod limits;
mod peers;
mod plans;
mod scans;
mod unreadable;
mod worked;

/// How a script is read, and how much of what it prints is taken.
#[derive(Clone, Copy)]
struct Ways {
    /// How many bytes a read gives at the most.
    step: usize,
    /// Whether a read behind the last byte fails.
    is_torn: bool,
    /// Whether each flush is written down.
    is_marked: bool,
    /// How many bytes are taken before a write fails.
    room: usize,
}

/// All is given, and all is taken.
const WHOLE: Ways = Ways {
    step: usize::MAX,
    is_torn: false,
    is_marked: false,
    room: usize::MAX,
};

/// A reader of a script.
#[derive(Drop)]
struct Given<'a> {
    rest: &'a [u8],
    ways: Ways,
}

impl Read for Given<'_> {
    fn read(&mut self, buf: &mut [u8]) -> io::Result<usize> {
        if self.ways.is_torn && self.rest.is_empty() {
            return Err(ErrorKind::Other.into());
        }
        let count = buf.len().min(self.ways.step);
        self.rest.read(&mut buf[..count])
    }
}

/// A writer that takes some bytes and then fails. A flush is a bar, where it is written down.
#[derive(Drop)]
struct Printed {
    taken: Vec<u8>,
    ways: Ways,
}

impl Write for Printed {
    fn write(&mut self, buf: &[u8]) -> io::Result<usize> {
        let count = buf.len().min(self.ways.room);
        if count == 0 {
            return Err(ErrorKind::StorageFull.into());
        }
        self.taken.extend_from_slice(&buf[..count])?;
        self.ways.room -= count;
        Ok(count)
    }

    fn flush(&mut self) -> io::Result<()> {
        if self.ways.is_marked {
            self.taken.push(b'|')?;
        }
        Ok(())
    }
}

/// Writes how a script ended behind what it printed, if not with status 0.
fn put_end(rt: &impl Abort, printed: &mut Vec<u8>, ended: Result<Ending, Fault>) {
    let written = match ended {
        Ok(Ending::End) => Ok(()),
        Ok(Ending::Unreadable(place)) => {
            writeln!(
                printed,
                "status {}: {place}",
                Ending::Unreadable(place).status()
            )
        },
        Err(fault) => writeln!(printed, "fault: {fault}"),
    };
    written.expect(rt, "memory");
}

/// What a script prints, and how it ends. What it traces goes to this log.
fn replayed(rt: &impl Abort, alloc: Global, log: &Memory, script: &[u8], ways: Ways) -> Vec<u8> {
    let given = Given { rest: script, ways };
    let mut output = Printed {
        taken: Vec::new(alloc),
        ways,
    };
    let mut input = BufReader::new(alloc, given).expect(rt, "memory");
    let ended = run(log, alloc, &mut input, &mut output);
    let Printed { mut taken, ways: _ } = output;
    put_end(rt, &mut taken, ended);
    taken
}

/// That a script prints this and ends so.
fn assert_taken(rt: &impl Abort, alloc: Global, script: &[u8], ways: Ways, expected: &[u8]) {
    let log = Memory::new(alloc);
    let found = replayed(rt, alloc, &log, script, ways);
    assert_text(rt, found.as_slice(), expected);
}

/// The same, where all is given, and all is taken.
fn assert_prints(rt: &impl Abort, alloc: Global, script: &[u8], expected: &[u8]) {
    assert_taken(rt, alloc, script, WHOLE, expected);
}

/// Adds to a text.
fn put(rt: &impl Abort, text: &mut Vec<u8>, more: &[u8]) {
    text.extend_from_slice(more).expect(rt, "memory");
}

/// Scripts with bytes that aren't text, with blank lines and without a last LF, and what they print.
const BYTES: &[(&[u8], &[u8])] = &[
    (b"\n# first\n\nopaque 100\n#\xff\n\nshow\n#", b"wake none\n"),
    (b"opaque 1\nshow", b"wake none\n"),
    (b"", b""),
    (
        b"\n# \nfetch 1 10 7\n",
        b"line 3 unreadable\nstatus 2: line 3: no machine is open\n",
    ),
    (
        b"opaque 1\n\nshow\np2p 9 50 10\nshow\n",
        b"wake none\nline 4 unreadable\nstatus 2: line 4: a machine is open\n",
    ),
    (
        b"opaque 1\n\nfetch 256 10 7\n",
        b"line 3 unreadable\nstatus 2: line 3: field 2: a number above 255\n",
    ),
    (
        b"opaque 1\n\xff\n",
        b"line 2 unreadable\nstatus 2: line 2: not UTF-8\n",
    ),
    (
        b"p2p 9 50 10\n\xff\nshow\n",
        b"line 2 unreadable\nstatus 2: line 2: not UTF-8\n",
    ),
];

#[test]
fn bytes(rt: HostRuntime) {
    for (script, printed) in BYTES {
        assert_prints(&rt, rt.alloc(), script, printed);
    }
    assert_eq!(rt; Ending::End.status(), 0);
}

// A line that was read in part is not executed.
#[test]
fn a_torn_input(rt: HostRuntime) {
    let script = b"opaque 1\nfetch 1 10 7\nfetch 2 10 7";
    let ways = Ways {
        is_torn: true,
        ..WHOLE
    };
    let expected = b"start 0 1\nfault: input\n";
    assert_taken(&rt, rt.alloc(), script, ways, expected);
}

/// What a script prints to its end.
const PRINTED: &[u8] = b"start 0 1
deliver 0 1 10 x6869
key 1 subs 10:7 phase judged 0
wake none
line 5 unreadable
";

// What a full writer took is a beginning of the whole output.
#[test]
fn a_full_output(rt: HostRuntime) {
    let script = b"opaque 1\nfetch 1 10 7\nfetched 0 x6869\nshow\nbad\n";
    for room in 0..PRINTED.len() {
        let mut expected = Vec::new(rt.alloc());
        put(&rt, &mut expected, &PRINTED[..room]);
        put(&rt, &mut expected, b"fault: output\n");
        let ways = Ways { room, ..WHOLE };
        assert_taken(&rt, rt.alloc(), script, ways, &expected);
    }
}

const TWO_FETCHES: &[u8] = b"opaque 1\nfetch 1 10 7\n\nfetch 2 10 7\n";

/// That two fetches print this, with a bar for each flush, where a read gives so many bytes.
fn assert_flushes(rt: &impl Abort, alloc: Global, step: usize, expected: &[u8]) {
    let ways = Ways {
        step,
        is_marked: true,
        ..WHOLE
    };
    assert_taken(rt, alloc, TWO_FETCHES, ways, expected);
}

// What is executed is printed before more input is waited for.
#[test]
fn lines_that_come_byte_by_byte(rt: HostRuntime) {
    let expected = b"||start 0 1\n||start 1 2\n||";
    assert_flushes(&rt, rt.alloc(), 1, expected);
}

// Lines that are there already are not waited for.
#[test]
fn lines_that_come_together(rt: HostRuntime) {
    let expected = b"|start 0 1\nstart 1 2\n||";
    assert_flushes(&rt, rt.alloc(), usize::MAX, expected);
}

/// What two fetches trace. A line that is skipped isn't traced.
const TRACED: &str =
    "[\"[TRACE resolver_script::replay] line 1\", \"[TRACE resolver_script::replay] line 2\", \
\"[TRACE resolver_script::replay] line 4\"]";

#[test]
fn lines_that_are_traced(rt: HostRuntime) {
    let log = Memory::new(rt.alloc());
    drop(replayed(&rt, rt.alloc(), &log, TWO_FETCHES, WHOLE));
    let lines = log.into_lines();
    let said = format!(in rt.alloc(); "{:?}", lines.as_slice()).expect(&rt, "memory");
    assert_text(&rt, said.as_bytes(), TRACED.as_bytes());
}
