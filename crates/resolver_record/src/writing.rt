//! A log as text.

use crate::log::{Log, State};
use crate::piece::Piece;
use bytes::BytesMut;
use resolver::base::Span;
use std::alloc::{AllocError, Global};
use std::collections::BTreeSet;
use std::fmt::Debug;
use std::io;
use std::io::Write;

/// The names of a log, each kind in its order: a name's number is its place.
#[derive(Drop)]
struct Names<'a, K, P, S> {
    keys: Vec<&'a K>,
    peers: Vec<&'a P>,
    subscribers: Vec<&'a S>,
}

/// The names of a set, in their order.
fn listed<T: Ord>(alloc: Global, names: &BTreeSet<T>) -> Result<Vec<&T>, AllocError> {
    let mut listed = Vec::with_capacity(alloc, names.len())?;
    for name in names {
        listed.push(name)?;
    }
    Ok(listed)
}

/// The place of a name.
fn place<T: Ord>(names: &[&T], name: &T) -> usize {
    match names.binary_search(&name) {
        Ok(place) => place,
        Err(place) => place,
    }
}

/// Which lines are written.
#[derive(Clone, Copy, PartialEq, Eq)]
enum Shape {
    /// A script, with the effects as comments.
    Script,
    /// The effects alone.
    Effects,
}

impl<K: Span + Drop, P: Ord + Debug + Drop, S: Ord + Debug + Drop> Log<K, P, S> {
    /// Writes the script, which begins with comments that say whom the numbers stand for: a key by its bytes, peers and
    /// subscribers as `Debug` prints them. Behind each input its effects stand, as comments. The last line says whether
    /// something wasn't recorded.
    ///
    /// Where the output fails, or memory is refused, part of that was written.
    pub fn write<W: Write>(&self, output: &mut W) -> io::Result<()> {
        let names = self.names()?;
        self.write_keys(output)?;
        write_names(self.alloc, output, "peer", &self.peers)?;
        write_names(self.alloc, output, "subscriber", &self.subscribers)?;
        if !self.is_small() {
            output.write_all(b"# more names than a script has numbers for\n")?;
        }
        self.write_lines(output, &names, Shape::Script)?;
        match self.state() {
            State::Whole => Ok(()),
            State::Full => output.write_all(b"# not recorded: what came when there was no room\n"),
            State::OutOfMemory => {
                output.write_all(b"# not recorded: what came once memory was refused\n")
            }
        }
    }

    /// Writes the effects that were told, as `resolver-replay` prints them.
    pub fn write_effects<W: Write>(&self, output: &mut W) -> io::Result<()> {
        let names = self.names()?;
        self.write_lines(output, &names, Shape::Effects)
    }

    fn names(&self) -> Result<Names<'_, K, P, S>, AllocError> {
        Ok(Names {
            keys: listed(self.alloc, &self.keys)?,
            peers: listed(self.alloc, &self.peers)?,
            subscribers: listed(self.alloc, &self.subscribers)?,
        })
    }

    /// A line for each key, with its bytes.
    fn write_keys<W: Write>(&self, output: &mut W) -> io::Result<()> {
        let mut bytes = BytesMut::new(self.alloc);
        for (number, key) in self.keys.iter().enumerate() {
            bytes.clear();
            key.write(&mut bytes)?;
            write!(output, "# key {number} x")?;
            write_digits(output, bytes.as_slice())?;
            output.write_all(b"\n")?;
        }
        Ok(())
    }

    fn write_lines<W: Write>(
        &self,
        output: &mut W,
        names: &Names<'_, K, P, S>,
        shape: Shape,
    ) -> io::Result<()> {
        let mut is_written = false;
        for piece in &self.pieces {
            if let Some(before) = begun_by(piece, shape) {
                if is_written {
                    output.write_all(b"\n")?;
                }
                is_written = before.is_written;
                output.write_all(before.words)?;
            } else if is_written {
                write_piece(output, names, piece)?;
            }
        }
        if is_written {
            output.write_all(b"\n")?;
        }
        Ok(())
    }
}

/// What stands before a line.
#[derive(Clone, Copy)]
struct Before {
    words: &'static [u8],
    is_written: bool,
}

/// What stands before a line that this piece begins, if it begins one.
fn begun_by<K, P, S>(piece: &Piece<K, P, S>, shape: Shape) -> Option<Before> {
    let is_script = shape == Shape::Script;
    let (words, is_written): (&'static [u8], bool) = match piece {
        Piece::Input => (b"", is_script),
        Piece::Effect if is_script => (b"# > ", true),
        Piece::Effect => (b"", true),
        Piece::Note if is_script => (b"# ", true),
        Piece::Note => (b"", false),
        _ => return None,
    };
    Some(Before { words, is_written })
}

/// Writes a piece within a line.
fn write_piece<K: Ord, P: Ord, S: Ord, W: Write>(
    output: &mut W,
    names: &Names<'_, K, P, S>,
    piece: &Piece<K, P, S>,
) -> io::Result<()> {
    match piece {
        Piece::Input | Piece::Effect | Piece::Note => Ok(()),
        Piece::Word(word) => output.write_all(word.as_bytes()),
        Piece::Number(number) => write!(output, "{number}"),
        Piece::Id(id) => write!(output, "{id:016x}"),
        Piece::Key(key) => write!(output, "{}", place(&names.keys, key)),
        Piece::KeyByte(key) => write!(output, "{:02x}", place(&names.keys, key)),
        Piece::Peer(peer) => write!(output, "{}", place(&names.peers, peer)),
        Piece::Subscriber(subscriber) => {
            write!(output, "{}", place(&names.subscribers, subscriber))
        }
        Piece::NoKey => write!(output, "{}", names.keys.len()),
        Piece::NoSubscriber => write!(output, "{}", names.subscribers.len()),
        Piece::Bytes(bytes) => write_digits(output, bytes.as_slice()),
    }
}

/// Writes two digits for each byte.
fn write_digits<W: Write>(output: &mut W, bytes: &[u8]) -> io::Result<()> {
    for byte in bytes {
        write!(output, "{byte:02x}")?;
    }
    Ok(())
}

/// Writes a line for each name, of the first line that `Debug` prints of it.
fn write_names<T: Ord + Debug, W: Write>(
    alloc: Global,
    output: &mut W,
    word: &str,
    names: &BTreeSet<T>,
) -> io::Result<()> {
    for (number, name) in names.iter().enumerate() {
        let text = format!(in alloc; "{name:?}")?;
        let line = text.lines().next().unwrap_or("");
        writeln!(output, "# {word} {number} {line}")?;
    }
    Ok(())
}
