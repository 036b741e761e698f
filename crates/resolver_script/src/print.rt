//! Effects and rows as lines.

pub mod opaque;
pub mod peers;

use crate::endings::{Fault, written};
use crate::machine::Turn;
use bytes::Bytes;
use itoa::Buffer;
use resolver_mailbox::mocks::Key;
use resolver_types::Delivery;
use std::io;
use std::io::Write;

/// Prints a refusal as one line.
fn refusal<W: Write>(output: &mut W, fault: resolver_base::Fault) -> Result<(), Fault> {
    let number = fault.number();
    let name = fault.name();
    written(writeln!(output, "refused {number} {name}"))
}

/// What is printed as one line.
pub trait Lined {
    fn print<W: Write>(&self, output: &mut W) -> io::Result<()>;
}

/// Prints each as one line.
fn each<T: Lined, W: Write>(output: &mut W, lines: &[T]) -> Result<(), Fault> {
    for line in lines {
        written(line.print(output))?;
    }
    Ok(())
}

/// Prints the effects or the refusal that came of a command, if the machine was fed.
pub fn turn<W: Write>(output: &mut W, turn: &Turn) -> Result<(), Fault> {
    match turn {
        Turn::Opaque(effects) => each(output, effects.as_slice()),
        Turn::Peers(effects) => each(output, effects.as_slice()),
        Turn::Refused(fault) => refusal(output, *fault),
        Turn::Quiet | Turn::Show | Turn::Wrong(_) => Ok(()),
    }
}

/// Prints the rows and the wake-up.
pub fn rows<T: Lined + Drop, W: Write>(
    output: &mut W,
    rows: Vec<T>,
    deadline: Option<u128>,
) -> Result<(), Fault> {
    each(output, rows.as_slice())?;
    wake(output, deadline)
}

/// Prints the wake-up as one line.
pub fn wake<W: Write>(output: &mut W, wake: Option<u128>) -> Result<(), Fault> {
    written(match wake {
        Some(moment) => writeln!(output, "wake {moment}"),
        None => writeln!(output, "wake none"),
    })
}

/// Prints a delivery as one line.
fn deliver<W: Write>(
    output: &mut W,
    number: u64,
    response: u64,
    delivery: &Delivery<Key, u16>,
    value: &Bytes,
) -> io::Result<()> {
    word_and_number(output, b"deliver ", number)?;
    word_and_number(output, b" ", u64::from(delivery.key.0))?;
    subscribers(output, delivery.subscribers.as_slice())?;
    bytes(output, value.as_slice())?;
    if response != number {
        word_and_number(output, b" again ", response)?;
    }
    output.write_all(b"\n")
}

/// Prints a word and a number behind it.
fn word_and_number<W: Write>(output: &mut W, word: &[u8], number: u64) -> io::Result<()> {
    output.write_all(word)?;
    let mut digits = Buffer::new();
    output.write_all(digits.format(number).as_bytes())
}

/// Prints a word and numbers behind it as one line, with spaces between them.
fn line_of_numbers<W: Write>(output: &mut W, word: &str, numbers: &[u128]) -> io::Result<()> {
    output.write_all(word.as_bytes())?;
    for number in numbers {
        write!(output, " {number}")?;
    }
    output.write_all(b"\n")
}

/// Prints a word and a number behind it as one line.
fn line_of_number<W: Write>(output: &mut W, word: &[u8], number: u64) -> io::Result<()> {
    word_and_number(output, word, number)?;
    output.write_all(b"\n")
}

/// Prints the subscribers' names, joined by commas, behind a space.
fn subscribers<W: Write>(output: &mut W, subscribers: &[(u16, u64)]) -> io::Result<()> {
    let mut before: &[u8] = b" ";
    for (subscriber, _) in subscribers {
        word_and_number(output, before, u64::from(*subscriber))?;
        before = b",";
    }
    Ok(())
}

/// Prints bytes as `x` and hexadecimal digits, behind a space.
fn bytes<W: Write>(output: &mut W, bytes: &[u8]) -> io::Result<()> {
    output.write_all(b" x")?;
    for part in bytes.chunks(32) {
        let mut digits = [0; 64];
        let digits = &mut digits[..2 * part.len()];
        let _ = hex::encode_to_slice(part, digits);
        output.write_all(digits)?;
    }
    Ok(())
}

/// Prints a demanded key, and its subscribers with their marks, joined by commas.
fn demand<W: Write>(output: &mut W, key: Key, subscribers: &[(u16, u64)]) -> io::Result<()> {
    write!(output, "key {} subs ", key.0)?;
    let mut comma = "";
    for (subscriber, mark) in subscribers {
        write!(output, "{comma}{subscriber}:{mark}")?;
        comma = ",";
    }
    Ok(())
}
