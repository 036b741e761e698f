//! What scans may ask, and when a core is to be woken.

use crate::chaos::model::{DELAY, Model, TIMEOUT};
use crate::chaos::wanted::Wanted;
use crate::scan::Stage;
use resolver::base::Check;
use std::alloc::{AllocError, Global};

/// The last scan.
#[derive(Drop)]
pub struct Trail {
    /// Whether it began in the step of the last event.
    pub is_open: bool,
    began: u128,
    /// The keys and peers that were tried in vain.
    tried: Vec<(u8, u8)>,
    /// The least moment that a check said.
    limit: Option<u128>,
    is_sent: bool,
}

impl Trail {
    /// No scan so far.
    pub fn new(alloc: Global) -> Trail {
        Trail {
            is_open: false,
            began: 0,
            tried: Vec::new(alloc),
            limit: None,
            is_sent: false,
        }
    }

    fn has_tried(&self, key: u8, peer: u8) -> bool {
        self.tried.as_slice().contains(&(key, peer))
    }

    /// From when on those that were tried in vain may be tried again.
    fn moment(&self) -> u128 {
        match self.limit {
            Some(limit) => limit,
            None => self.began.saturating_add(DELAY),
        }
    }
}

impl Model {
    /// How many requests a peer has.
    fn load(&self, peer: u8) -> usize {
        self.keys
            .values()
            .filter(|wanted| wanted.asked().is_some_and(|(_, asked)| asked == peer))
            .count()
    }

    /// Whether a peer may be asked for a key: it is of the last set, neither local nor blocked, one of the key's targets
    /// if there are some, and has fewer requests than it may have.
    fn is_eligible(&self, wanted: &Wanted, peer: u8) -> bool {
        let is_full = match self.setting.limit {
            Some(limit) => self.load(peer) >= limit.get() as usize,
            None => false,
        };
        self.peers.contains(&peer)
            && peer != self.setting.me
            && !self.blocked.contains(&peer)
            && wanted.is_aimed_at(peer)
            && !is_full
    }

    /// Whether the open scan may try a peer for a key.
    fn is_left(&self, key: u8, wanted: &Wanted, peer: u8) -> bool {
        self.is_eligible(wanted, peer) && !self.trail.has_tried(key, peer)
    }

    /// Whether there is a peer that the open scan may try for a key.
    fn has_left(&self, key: u8, wanted: &Wanted) -> bool {
        self.peers
            .iter()
            .any(|peer| self.is_left(key, wanted, *peer))
    }

    /// The key that the open scan tries: of the keys that are due and have a peer left the first, where fresh keys come
    /// before others, and then smaller dues.
    fn tried_key(&self) -> Option<u8> {
        let mut first: Option<(bool, u128, u8)> = None;
        for (key, wanted) in self.keys.iter() {
            let Stage::Waiting { is_retry, due } = wanted.stage else {
                continue;
            };
            let place = (is_retry, due, *key);
            let is_first = first.is_none_or(|other| place < other);
            if due <= self.trail.began && is_first && self.has_left(*key, wanted) {
                first = Some(place);
            }
        }
        match first {
            Some((_, _, key)) => Some(key),
            None => None,
        }
    }

    /// A scan asks something.
    pub fn note_ask(&mut self) {
        if self.trail.is_open {
            return;
        }
        self.trail.is_open = true;
        self.trail.began = self.now;
        self.trail.tried.clear();
        self.trail.limit = None;
        self.trail.is_sent = false;
    }

    /// Whether this is the key that is tried, and the peer is left for it.
    fn may_try(&self, key: u8, peer: u8) -> bool {
        match self.keys.get(&key) {
            Some(wanted) => self.tried_key() == Some(key) && self.is_left(key, wanted, peer),
            None => false,
        }
    }

    /// A peer is checked, which says this.
    pub fn note_check(&mut self, peer: u8, check: Check) -> Result<(), AllocError> {
        let key = match self.tried_key() {
            Some(key) if self.may_try(key, peer) => key,
            _ => {
                self.complain("a peer is checked that may not be asked");
                return Ok(());
            }
        };
        if let Check::Until(moment) = check {
            let least = self.trail.limit.unwrap_or(moment);
            self.trail.limit = Some(least.min(moment));
            self.trail.tried.push((key, peer))?;
        }
        Ok(())
    }

    /// A request is sent, and accepted or not.
    pub fn note_request(
        &mut self,
        (key, peer, id): (u8, u8, u64),
        is_accepted: bool,
    ) -> Result<(), AllocError> {
        let is_right = self.may_try(key, peer);
        self.expect(is_right, "a peer is asked that may not be asked");
        let is_held = self.keys.values().any(|wanted| wanted
            .asked()
            .is_some_and(|(other, _)| other == id));
        self.expect(!is_held, "a request has the id of another");
        if !is_accepted {
            self.trail.tried.push((key, peer))?;
            return Ok(());
        }
        self.trail.is_sent = true;
        let deadline = self.now.saturating_add(TIMEOUT);
        if let Some(wanted) = self.keys.get_mut(&key) {
            wanted.stage = Stage::Asked { id, peer, deadline };
        }
        Ok(())
    }

    /// A scan without an accepted request has tried all that may be tried.
    pub fn judge_scan(&mut self) {
        let is_whole = !self.trail.is_open || self.trail.is_sent || self.tried_key().is_none();
        self.expect(is_whole, "a scan ended before all was tried");
    }

    /// From when on a peer may be tried for a key that is due then, where it is eligible.
    fn moment_of(&self, key: u8, due: u128, peer: u8) -> u128 {
        let due = due.max(self.now);
        if self.trail.has_tried(key, peer) {
            due.max(self.trail.moment())
        } else {
            due
        }
    }

    /// When a key is to be looked at, if a peer may be asked for it.
    fn look_at(&self, key: u8, wanted: &Wanted) -> Option<u128> {
        let Stage::Waiting { due, .. } = wanted.stage else {
            return None;
        };
        self.peers
            .iter()
            .filter(|peer| self.is_eligible(wanted, **peer))
            .map(|peer| self.moment_of(key, due, *peer))
            .min()
    }

    /// When the next scan is to begin at the latest.
    fn next_look(&self) -> Option<u128> {
        self.keys
            .iter()
            .filter_map(|(key, wanted)| self.look_at(*key, wanted))
            .min()
    }

    /// When the time of the first request is over.
    fn next_timeout(&self) -> Option<u128> {
        self.keys
            .values()
            .filter_map(|wanted| match wanted.stage {
                Stage::Asked { deadline, .. } => Some(deadline),
                _ => None,
            })
            .min()
    }

    /// The core waits for these moments, until which nothing else is due.
    pub fn judge_waits(&mut self, active: Option<u128>, pending: Option<u128>) {
        let is_timed = active == self.next_timeout();
        self.expect(is_timed, "a request's time is over at another moment");
        let is_awake = match self.next_look() {
            Some(moment) => pending.is_some_and(|wake| wake <= moment),
            None => true,
        };
        self.expect(is_awake, "a wake-up is lost");
    }
}
