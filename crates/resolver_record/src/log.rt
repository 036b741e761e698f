//! What was recorded.

use crate::piece::Piece;
use bytes::Bytes;
use std::alloc::{AllocError, Global};
use std::collections::BTreeSet;

/// Whether all was recorded.
#[derive(Clone, Copy, Debug, PartialEq, Eq)]
pub enum State {
    /// All that was told.
    Whole,
    /// As many inputs as there was room for, and nothing after them.
    Full,
    /// What was told before memory was refused, and nothing after it.
    OutOfMemory,
}

/// What a loop took and wanted, in the order in which it was told.
///
/// It holds a copy of each name each time that it was told, and shares the bytes of values and messages.
#[derive(Drop)]
pub struct Log<K: Ord, P: Ord, S: Ord> {
    pub(crate) alloc: Global,
    pub(crate) pieces: Vec<Piece<K, P, S>>,
    pub(crate) keys: BTreeSet<K>,
    pub(crate) peers: BTreeSet<P>,
    pub(crate) subscribers: BTreeSet<S>,
    /// All pairs that were ever fetched.
    pub(crate) pairs: BTreeSet<(K, S)>,
    /// The moment of the last event.
    now: u128,
    /// How many inputs there is room for.
    room: u64,
    /// How many inputs no line of a script says.
    unsaid: u64,
    state: State,
}

impl<K: Ord, P: Ord, S: Ord> Log<K, P, S> {
    /// Nothing was told, and there is room for so many inputs.
    pub(crate) fn new(alloc: Global, room: u64) -> Self {
        Log {
            alloc,
            pieces: Vec::new(alloc),
            keys: BTreeSet::new(alloc),
            peers: BTreeSet::new(alloc),
            subscribers: BTreeSet::new(alloc),
            pairs: BTreeSet::new(alloc),
            now: 0,
            room,
            unsaid: 0,
            state: State::Whole,
        }
    }

    /// Whether all was recorded.
    pub fn state(&self) -> State {
        self.state
    }

    /// How many inputs no line of a script says: a message of several fetches that differ in more than their keys, and a retain that keeps
    /// other pairs than those of one subscriber, or of all keys but one. A comment stands in place of each.
    pub fn unsaid(&self) -> u64 {
        self.unsaid
    }

    /// Whether a replay of the script prints the effects that were told: no input is unsaid, and there are at most 255
    /// keys, 256 peers and 65,535 subscribers.
    pub fn is_replayable(&self) -> bool {
        self.unsaid == 0 && self.is_small()
    }

    /// Whether a script has numbers for all names, and for a key and a subscriber besides.
    pub(crate) fn is_small(&self) -> bool {
        self.keys.len() <= 255 && self.peers.len() <= 256 && self.subscribers.len() <= 65_535
    }

    /// Whether what comes is still recorded.
    pub(crate) fn is_whole(&self) -> bool {
        self.state == State::Whole
    }

    /// Whether another input is recorded. There is room for one less then.
    pub(crate) fn has_room(&mut self) -> bool {
        if self.state != State::Whole {
            return false;
        }
        match self.room.checked_sub(1) {
            Some(room) => self.room = room,
            None => self.state = State::Full,
        }
        self.state == State::Whole
    }
}

impl<K: Ord + Drop, P: Ord + Drop, S: Ord + Drop> Log<K, P, S> {
    /// Ends the lines that began at this place. Where memory was refused for them, none of them stays, and nothing
    /// more is recorded.
    pub(crate) fn end(&mut self, start: usize, put: Result<(), AllocError>) {
        if put.is_err() {
            self.pieces.truncate(start);
            self.state = State::OutOfMemory;
        }
    }

    fn push(&mut self, piece: Piece<K, P, S>) -> Result<(), AllocError> {
        Ok(self.pieces.push(piece)?)
    }

    /// Begins a line of the script by this word.
    pub(crate) fn input(&mut self, word: &'static str) -> Result<(), AllocError> {
        self.push(Piece::Input)?;
        self.word(word)
    }

    /// Begins an effect by this word.
    pub(crate) fn effect(&mut self, word: &'static str) -> Result<(), AllocError> {
        self.push(Piece::Effect)?;
        self.word(word)
    }

    /// An input that no line says.
    pub(crate) fn leave_unsaid(&mut self, what: &'static str) -> Result<(), AllocError> {
        self.unsaid = self.unsaid.saturating_add(1);
        self.push(Piece::Note)?;
        self.word("no line says this input, and a replay may differ from here on: ")?;
        self.word(what)
    }

    /// Says the moment of an event, where it isn't that of the last one.
    pub(crate) fn at(&mut self, now: u128) -> Result<(), AllocError> {
        if now == self.now {
            return Ok(());
        }
        self.now = now;
        self.input("at ")?;
        self.number(now)
    }

    pub(crate) fn word(&mut self, word: &'static str) -> Result<(), AllocError> {
        self.push(Piece::Word(word))
    }

    pub(crate) fn number(&mut self, number: u128) -> Result<(), AllocError> {
        self.push(Piece::Number(number))
    }

    /// The name of a request, as a message spells it.
    pub(crate) fn id(&mut self, id: u64) -> Result<(), AllocError> {
        self.push(Piece::Id(id))
    }

    /// Bytes behind an `x`.
    pub(crate) fn bytes(&mut self, bytes: &Bytes) -> Result<(), AllocError> {
        self.word("x")?;
        self.push(Piece::Bytes(bytes.clone()?))
    }

    /// Nobody's key.
    pub(crate) fn no_key(&mut self) -> Result<(), AllocError> {
        self.push(Piece::NoKey)
    }

    /// Nobody.
    pub(crate) fn no_subscriber(&mut self) -> Result<(), AllocError> {
        self.push(Piece::NoSubscriber)
    }
}

impl<K: Ord + Clone + Drop, P: Ord + Drop, S: Ord + Drop> Log<K, P, S> {
    /// A key has a number from now on.
    fn know_key(&mut self, key: &K) -> Result<(), AllocError> {
        if !self.keys.contains(key) {
            self.keys.insert(key.clone()?)?;
        }
        Ok(())
    }

    pub(crate) fn key(&mut self, key: &K) -> Result<(), AllocError> {
        self.know_key(key)?;
        self.push(Piece::Key(key.clone()?))
    }

    /// A key as a script's messages spell it.
    pub(crate) fn key_byte(&mut self, key: &K) -> Result<(), AllocError> {
        self.know_key(key)?;
        self.push(Piece::KeyByte(key.clone()?))
    }
}

impl<K: Ord + Drop, P: Ord + Clone + Drop, S: Ord + Drop> Log<K, P, S> {
    pub(crate) fn peer(&mut self, peer: &P) -> Result<(), AllocError> {
        if !self.peers.contains(peer) {
            self.peers.insert(peer.clone()?)?;
        }
        self.push(Piece::Peer(peer.clone()?))
    }

    /// Peers, joined by commas; a dash where there is none.
    pub(crate) fn peers(&mut self, peers: &[P]) -> Result<(), AllocError> {
        let mut comma = "";
        for peer in peers {
            self.word(comma)?;
            self.peer(peer)?;
            comma = ",";
        }
        self.word(if peers.is_empty() { "-" } else { "" })
    }
}

impl<K: Ord + Drop, P: Ord + Drop, S: Ord + Clone + Drop> Log<K, P, S> {
    pub(crate) fn subscriber(&mut self, subscriber: &S) -> Result<(), AllocError> {
        if !self.subscribers.contains(subscriber) {
            self.subscribers.insert(subscriber.clone()?)?;
        }
        self.push(Piece::Subscriber(subscriber.clone()?))
    }
}

impl<K: Ord + Clone + Drop, P: Ord + Drop, S: Ord + Clone + Drop> Log<K, P, S> {
    /// A subscriber wants a key.
    pub(crate) fn pair(&mut self, key: &K, subscriber: &S) -> Result<(), AllocError> {
        self.pairs.insert((key.clone()?, subscriber.clone()?))?;
        Ok(())
    }
}
