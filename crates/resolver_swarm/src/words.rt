//! The words that say what a run is made of.

use std::alloc::AllocError;
use std::fmt;
use std::fmt::{Display, Formatter, Write};

/// A word of the command line: `--name NUMBER`.
#[derive(Clone, Copy, Debug)]
pub struct Word {
    pub name: &'static str,
    /// The number that holds where nothing else is said.
    pub usual: u64,
    pub least: u64,
    pub most: u64,
    pub help: &'static str,
}

/// All words, in the order in which help has them.
pub static WORDS: &[Word] = &[
    Word {
        name: "nodes",
        usual: 20,
        least: 1,
        most: 2000,
        help: "nodes, all kinds together",
    },
    Word {
        name: "sources",
        usual: 2,
        least: 0,
        most: 2000,
        help: "nodes that have all keys from the beginning",
    },
    Word {
        name: "slow",
        usual: 1,
        least: 0,
        most: 2000,
        help: "nodes that have all keys, and take ten times as long",
    },
    Word {
        name: "liars",
        usual: 2,
        least: 0,
        most: 2000,
        help: "nodes that answer with wrong bytes",
    },
    Word {
        name: "keys",
        usual: 200,
        least: 1,
        most: 60_000,
        help: "keys that each other node wants",
    },
    Word {
        name: "value",
        usual: 256,
        least: 2,
        most: 60_000,
        help: "bytes of a key's value",
    },
    Word {
        name: "seed",
        usual: 1,
        least: 0,
        most: u64::MAX / 2,
        help: "what is drawn follows from this number",
    },
    Word {
        name: "window",
        usual: 16,
        least: 1,
        most: 10_000,
        help: "keys that a node wants at once",
    },
    Word {
        name: "timeout",
        usual: 500,
        least: 1,
        most: 3_600_000,
        help: "ms that a request may take",
    },
    Word {
        name: "delay",
        usual: 100,
        least: 1,
        most: 3_600_000,
        help: "ms that a key waits before it is tried again",
    },
    Word {
        name: "peer-limit",
        usual: 4,
        least: 0,
        most: 1_000_000,
        help: "requests that one peer may have at once; 0: any number",
    },
    Word {
        name: "latency",
        usual: 40,
        least: 0,
        most: 3_600_000,
        help: "ms that a message takes",
    },
    Word {
        name: "jitter",
        usual: 20,
        least: 0,
        most: 3_600_000,
        help: "ms that it may take longer, so that messages overtake one another",
    },
    Word {
        name: "bandwidth",
        usual: 250_000,
        least: 0,
        most: 1_000_000_000,
        help: "bytes that a node sends in a second; 0: any number",
    },
    Word {
        name: "loss",
        usual: 5,
        least: 0,
        most: 1000,
        help: "messages of a thousand that are lost",
    },
    Word {
        name: "gap",
        usual: 0,
        least: 0,
        most: 3_600_000,
        help: "ms between two requests to one peer",
    },
    Word {
        name: "churn",
        usual: 0,
        least: 0,
        most: 3_600_000,
        help: "each so many ms a node leaves, for as long; 0: none",
    },
    Word {
        name: "until",
        usual: 600_000,
        least: 0,
        most: 4_000_000_000,
        help: "ms after which the run is over",
    },
];

/// Why words can't be read.
#[derive(Clone, Copy, Debug, PartialEq, Eq)]
pub enum Misread {
    /// A word's number is not between its bounds.
    Bounds {
        name: &'static str,
        least: u64,
        most: u64,
    },
    /// A sweep isn't a name, `=`, and numbers with a comma between any two.
    Form,
    /// A sweep's name is that of no word.
    Name,
    /// No node is left that wants keys.
    Nobody,
    OutOfMemory,
}

impl Display for Misread {
    fn fmt<W: Write>(&self, f: &mut Formatter<W>) -> fmt::Result {
        match self {
            Misread::Bounds { name, least, most } => {
                write!(f, "--{name}: not a number from {least} to {most}")
            }
            Misread::Form => f.write_str("--sweep: not NAME=NUMBER,NUMBER,.."),
            Misread::Name => f.write_str("--sweep: no word has this name"),
            Misread::Nobody => f.write_str("--nodes: no more than sources, slow nodes and liars"),
            Misread::OutOfMemory => f.write_str("out of memory"),
        }
    }
}

impl From<AllocError> for Misread {
    fn from(_: AllocError) -> Misread {
        Misread::OutOfMemory
    }
}

impl Word {
    /// Says so where a number is not between the word's bounds.
    pub fn check(&self, number: u64) -> Result<(), Misread> {
        if number >= self.least && number <= self.most {
            return Ok(());
        }
        let Word {
            name,
            least,
            most,
            ..
        } = *self;
        Err(Misread::Bounds { name, least, most })
    }
}

/// The word of this name, if there is one.
pub fn word_named(name: &str) -> Option<&'static Word> {
    WORDS.iter().find(|word| word.name == name)
}
