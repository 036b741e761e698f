//! A machine whose inputs and effects are bytes, which lines are said to. PIECES are those of `pieces`.
//!
//! | Line | Says | Prints |
//! |---|---|---|
//! | `actor PIECES`, `core PIECES` | opens a machine over names of 32 bytes with these settings, in the place of the last | `misspelled`, where they are none |
//! | `short-actor PIECES`, `short-core PIECES` | the same, over names of eight bytes | |
//! | `step PIECES` | an input | `refused` and the number of its refusal |
//! | `cuts PIECES` | the beginnings of an input as inputs, each but the whole | `taken` and how long, of each that isn't refused as misspelled |
//! | `told PIECES`, `rows PIECES` | what the last step tells, and who wants which key | the bytes, where they are others |
//! | `due` | | when a key may be asked for, and when the time of a request is over |

use crate::pieces::{bytes, unreadable};
use resolver_flat::{Misread, Refusal};
use resolver_flat_actor::FlatActor;
use resolver_flat_machine::{FlatCore, Machine};
use std::alloc::Global;
use std::fmt::{Debug, Write};
use std::panic::Expect;
use std::process::Abort;
use tests_support::transcript::{Line, Said, cases, play};

/// A machine, once it is opened.
#[derive(Drop)]
struct Opened {
    machine: Option<Machine>,
    alloc: Global,
}

/// Prints a value behind a word.
fn print<T: Debug + Drop>(rt: &impl Abort, printed: &mut String, word: &str, value: T) {
    writeln!(printed, "> {word} {value:?}").expect(rt, "memory");
}

/// Prints bytes that are not the expected ones.
fn compare(rt: &impl Abort, printed: &mut String, found: &[u8], expected: &[u8]) {
    if found != expected {
        print(rt, printed, "bytes", found);
    }
}

/// Puts a value in the place of another.
fn replace<T: Drop>(place: &mut Option<T>, value: T) {
    *place = Some(value);
}

/// A machine of the kind that a word names, if it names one.
fn open(alloc: Global, word: &str, settings: &[u8]) -> Result<Option<Machine>, Misread> {
    Ok(match word {
        "actor" => Some(Machine::Actor(FlatActor::new(alloc, settings)?)),
        "core" => Some(Machine::Core(FlatCore::new(alloc, settings)?)),
        "short-actor" => Some(Machine::ShortActor(FlatActor::new(alloc, settings)?)),
        "short-core" => Some(Machine::ShortCore(FlatCore::new(alloc, settings)?)),
        _ => None,
    })
}

/// Says each beginning of these bytes but the whole, and prints those that aren't misspelled.
fn cut(rt: &impl Abort, machine: &mut Machine, pieces: &[u8], printed: &mut String) {
    for length in 0..pieces.len() {
        if machine.step(&pieces[..length]) != Err(Refusal::Misspelled) {
            print(rt, printed, "taken", length);
        }
    }
}

/// Says a line to a machine.
fn say_to(
    rt: &impl Abort,
    machine: &mut Machine,
    word: &str,
    pieces: &[u8],
    line: &Line,
    printed: &mut String,
) {
    match word {
        "step" => {
            if let Err(refusal) = machine.step(pieces) {
                print(rt, printed, "refused", refusal.number());
            }
        }
        "cuts" => cut(rt, machine, pieces, printed),
        "told" => {
            let told = machine.told().expect(rt, "memory");
            compare(rt, printed, told.as_slice(), pieces);
        }
        "rows" => {
            let rows = machine.rows().expect(rt, "rows");
            compare(rt, printed, rows.as_slice(), pieces);
        }
        "due" => print(rt, printed, "due", (machine.pending(), machine.active())),
        _ => unreadable(rt, line),
    }
}

impl<R: Abort> Said<R> for Opened {
    fn say(&mut self, rt: &R, line: &mut Line, printed: &mut String) {
        let word = line.field();
        let pieces = bytes(rt, self.alloc, line);
        match open(self.alloc, word, pieces.as_slice()) {
            Ok(Some(machine)) => replace(&mut self.machine, machine),
            Ok(None) => match &mut self.machine {
                Some(machine) => say_to(rt, machine, word, pieces.as_slice(), line, printed),
                None => unreadable(rt, line),
            },
            Err(Misread::Misspelled) => writeln!(printed, "> misspelled").expect(rt, "memory"),
            Err(Misread::OutOfMemory) => panic!(rt; "memory"),
        }
    }
}

/// Plays each case. Ends the test by the first line that prints something else.
pub fn plays(rt: &impl Abort, alloc: Global, transcript: &str) {
    for case in cases(transcript) {
        let mut opened = Opened {
            machine: None,
            alloc,
        };
        let wrong = play(rt, alloc, &mut opened, case).expect(rt, "memory");
        if let Some(turn) = wrong {
            panic!(rt; "{turn}");
        }
    }
}
