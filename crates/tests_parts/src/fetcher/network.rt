//! A sender and draws that are lent to one fetch: they give the answers of its line, and write down what they are asked.

ghost use Rattle.std.specs.Prelude.{◌<◌};

use bytes::Bytes;
use resolver_base::{Check, Draws, Sender, Unreliable};
use std::alloc::{AllocError, Global};
use std::cell::Cell;
use tests_support::names::Letter;
use tests_support::seen::Hex;

/// The answers of a line, in the order in which they are wanted.
#[derive(Drop)]
pub struct Answers {
    pub draws: Vec<u128>,
    pub checks: Vec<Check>,
    pub sends: Vec<Unreliable>,
}

/// What both were asked so far, as lines.
#[derive(Drop)]
pub struct Told<'a> {
    pub alloc: Global,
    pub lines: &'a Cell<String>,
}

impl Told<'_> {
    /// Adds a line. Whether there was memory for it.
    fn tell(&self, line: Result<String, AllocError>) -> bool {
        let Ok(line) = line else {
            return false;
        };
        let mut lines = self.lines.replace(String::new(self.alloc));
        let is_told = lines.push_str(line.as_str()).is_ok();
        drop(self.lines.replace(lines));
        is_told
    }
}

/// Answers checks and sends.
#[derive(Drop)]
pub struct Network<'a> {
    pub told: Told<'a>,
    pub checks: &'a [Check],
    pub sends: &'a [Unreliable],
    pub checked: usize,
    pub sent: usize,
    /// Whether each answer was there, and each line was told.
    pub is_right: bool,
}

impl Sender for Network<'_> {
    type PublicKey = Letter;

    fn check(&mut self, peer: &Letter) -> Check {
        let line = format!(in self.told.alloc; "> check {}\n", peer.0);
        self.is_right &= self.told.tell(line);
        let Some(check) = self.checks.get(self.checked) else {
            self.is_right = false;
            return Check::Until(0);
        };
        self.checked += 1;
        *check
    }

    fn send(&mut self, peer: &Letter, message: Bytes, priority: bool) -> Unreliable {
        let first = if priority { " first" } else { "" };
        let bytes = Hex(message.as_slice());
        let line = format!(in self.told.alloc; "> send {} {bytes}{first}\n", peer.0);
        self.is_right &= self.told.tell(line);
        let Some(word) = self.sends.get(self.sent) else {
            self.is_right = false;
            return Unreliable::Rejected;
        };
        self.sent += 1;
        *word
    }
}

/// Draws the numbers of a line.
#[derive(Drop)]
pub struct Numbers<'a> {
    pub told: Told<'a>,
    pub draws: &'a [u128],
    pub drawn: usize,
    /// Whether each number was there and below its bound, and each line was told.
    pub is_right: bool,
}

impl Draws for Numbers<'_> {
    fn below(&mut self, n: u128) -> u128 {
        let line = format!(in self.told.alloc; "> draw {n}\n");
        self.is_right &= self.told.tell(line);
        let Some(number) = self.draws.get(self.drawn) else {
            self.is_right = false;
            return 0;
        };
        self.drawn += 1;
        if *number < n {
            return *number;
        }
        self.is_right = false;
        0
    }
}
