//! What a scan is to come to, by the rules of scans: of one that is written down as it goes.

use resolver::base::Check;
use resolver::p2p::mocks::Key;
use resolver::p2p::rows::{Phase, Row};
use std::alloc::Global;
use std::panic::Expect;
use std::process::Abort;
use tests_support::names::Peer;

/// The wake-up where nothing is to be waited for.
const LIMIT: u128 = u128::MAX;

/// What is being done for a key.
#[derive(Clone, Copy, PartialEq)]
pub enum Stage {
    Waiting { is_retry: bool, due: u128 },
    Asked { id: u64, peer: u8, deadline: u128 },
    Judged(u64),
}

/// A demanded key.
#[derive(Clone, Copy, PartialEq)]
pub struct Shown {
    pub key: u8,
    pub stage: Stage,
}

fn stage_of(phase: &Phase<Peer>) -> Stage {
    match phase {
        Phase::Waiting { is_retry, due } => Stage::Waiting {
            is_retry: *is_retry,
            due: *due,
        },
        Phase::Asked { id, peer, deadline } => Stage::Asked {
            id: *id,
            peer: peer.0,
            deadline: *deadline,
        },
        Phase::Judged { number } => Stage::Judged(*number),
    }
}

/// The demanded keys of a core that has these rows.
pub fn shown_of(rt: &impl Abort, alloc: Global, rows: &[Row<Key, u16, Peer>]) -> Vec<Shown> {
    let mut list = Vec::new(alloc);
    for row in rows {
        let shown = Shown {
            key: row.key.0,
            stage: stage_of(&row.phase),
        };
        list.push(shown).expect(rt, "memory");
    }
    list
}

/// When the first key may be asked for: fresh keys come before all others, and then smaller dues.
fn first_due(rows: &[Shown]) -> Option<u128> {
    let mut first: Option<(bool, u128)> = None;
    for row in rows {
        if let Stage::Waiting { is_retry, due } = row.stage {
            let place = (is_retry, due);
            first = Some(match first {
                Some(other) if other <= place => other,
                _ => place,
            });
        }
    }
    match first {
        Some((_, due)) => Some(due),
        None => None,
    }
}

/// The least due after a moment, or the limit.
fn next_due(rows: &[Shown], now: u128) -> u128 {
    let mut next = LIMIT;
    for row in rows {
        if let Stage::Waiting { is_retry: _, due } = row.stage {
            if due > now && due < next {
                next = due;
            }
        }
    }
    next
}

/// A scan of an engine with a timeout of 50 and a delay of 10, in which each key has as many eligible
/// peers as every other.
#[derive(Drop)]
pub struct Scan {
    now: u128,
    eligible: usize,
    /// The rows that it is to leave: as it finds them, and of a key that is asked for, that it is asked.
    rows: Vec<Shown>,
    /// The peers that were tried for the key that is tried last.
    tried: Vec<Peer>,
    is_repeated: bool,
    /// The least moment that a check said.
    limit: Option<u128>,
    is_sent: bool,
}

impl Scan {
    /// Opens a scan at the moment `now`, over the rows as they are, before its first check.
    pub fn new(alloc: Global, now: u64, eligible: usize, rows: Vec<Shown>) -> Scan {
        Scan {
            now: now as u128,
            eligible,
            rows,
            tried: Vec::new(alloc),
            is_repeated: false,
            limit: None,
            is_sent: false,
        }
    }

    /// A peer is tried. Keys are tried one after another, each with all of its eligible peers, so the next
    /// key begins where these are used up.
    pub fn note_check(&mut self, rt: &impl Abort, peer: Peer, check: Check) {
        if self.tried.len() >= self.eligible {
            self.tried.clear();
        }
        self.is_repeated |= self.tried.as_slice().contains(&peer);
        self.tried.push(peer).expect(rt, "memory");
        if let Check::Until(moment) = check {
            self.limit = Some(match self.limit {
                Some(limit) if limit <= moment => limit,
                _ => moment,
            });
        }
    }

    /// A request was accepted.
    pub fn note_sent(&mut self, key: u8, id: u64, peer: u8) {
        self.is_sent = true;
        let deadline = self.now.saturating_add(50);
        for row in self.rows.as_mut_slice() {
            if row.key == key {
                row.stage = Stage::Asked { id, peer, deadline };
            }
        }
    }

    /// The waiter that it is to leave. An accepted send leaves it clear. Else it is the least of the dues to
    /// come and one more moment: the least that a check said, or where sends alone were refused, the
    /// moment after the delay.
    fn waiter(&self, rows: &[Shown]) -> u128 {
        if self.is_sent {
            return 0;
        }
        let due = next_due(rows, self.now);
        let tried = match self.limit {
            Some(limit) => limit,
            None if self.tried.is_empty() => LIMIT,
            None => self.now.saturating_add(10),
        };
        if tried < due { tried } else { due }
    }

    /// Whether this may be the wake-up then. Where nothing was tried there may have been no scan.
    fn allows(&self, rows: &[Shown], wake: Option<u128>) -> bool {
        let (Some(first), Some(wake)) = (first_due(rows), wake) else {
            return first_due(rows).is_none() && wake.is_none();
        };
        if !self.is_sent && self.tried.is_empty() {
            return wake > self.now;
        }
        let waiter = self.waiter(rows);
        wake == if first < waiter { waiter } else { first }
    }

    /// What is wrong where the scan, these rows after it or this wake-up is not what it is to be.
    pub fn judge(&self, rows: &[Shown], wake: Option<u128>) -> Option<&'static str> {
        if self.is_repeated {
            return Some("a peer is tried twice for a key");
        }
        if self.rows.as_slice() != rows {
            return Some("the rows after a scan");
        }
        if !self.allows(rows, wake) {
            return Some("the wake-up after a scan");
        }
        None
    }
}
