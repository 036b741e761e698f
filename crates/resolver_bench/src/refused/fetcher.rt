//! Keys that wait and are asked of peers.

use crate::refused::part::{Fresh, Notes, Part, Way};
use crate::workload::Peer;
use bytes::Bytes;
use resolver_base::{Check, Draws, Fault, Feedback, Sender, Unreliable};
use resolver_fetch::fetcher::{Config, Fetcher};
use std::alloc::Global;
use std::num::NonZeroU32;
use tests_support::wide::Name;

/// Draws nothing but zeros.
#[derive(Drop)]
struct Zeros;

impl Draws for Zeros {
    fn below(&mut self, _: u128) -> u128 {
        0
    }
}

/// A network that takes every request.
#[derive(Drop)]
struct Willing;

impl Sender for Willing {
    type PublicKey = Peer;

    fn check(&mut self, _: &Peer) -> Check {
        Check::Clear
    }

    fn send(&mut self, _: &Peer, _: Bytes, _: bool) -> Unreliable {
        Unreliable::Outcome(Feedback::Ok)
    }
}

/// A call of a fetcher, with its moment in nanoseconds.
pub enum Call {
    Ready(u32, u32),
    Reconcile(&'static [Peer]),
    Block(&'static [Peer]),
    Fetch(u32),
    /// The time of a request may be over.
    Expire(u32),
}

/// The worked row of the wake-up.
pub const WAKE_UP: &[Call] = &[
    Call::Ready(1, 5),
    Call::Fetch(5),
    Call::Reconcile(&[Peer(4)]),
];

/// The worked row of a first request, with a peer that is blocked and a key that waits on.
pub const FIRST_REQUEST: &[Call] = &[
    Call::Reconcile(&[Peer(3), Peer(4)]),
    Call::Block(&[Peer(3)]),
    Call::Ready(1, 30),
    Call::Ready(2, 40),
    Call::Fetch(30),
    Call::Fetch(40),
];

/// Two peers have as many requests as they may have, and a key waits until the time of one is over, whose key waits
/// again then.
pub const FULL: &[Call] = &[
    Call::Reconcile(&[Peer(3), Peer(4)]),
    Call::Ready(1, 30),
    Call::Ready(2, 40),
    Call::Ready(3, 40),
    Call::Fetch(40),
    Call::Fetch(40),
    Call::Fetch(40),
    Call::Expire(90),
    Call::Ready(1, 90),
    Call::Fetch(90),
];

/// What the fetcher of a row is made with.
const CONFIG: Config<Peer> = Config {
    me: None,
    fetch_timeout: 50,
    retry_delay: 10,
    peer_limit: None,
    priority_requests: false,
};

/// A fetcher.
pub type Asker = Fetcher<Name, Peer>;

impl Fresh for Asker {
    fn fresh(alloc: Global) -> Self {
        Fetcher::new(alloc, CONFIG)
    }
}

/// A fetcher that asks a peer for one key at once.
#[derive(Drop)]
pub struct Sparing {
    asker: Asker,
}

impl Fresh for Sparing {
    fn fresh(alloc: Global) -> Self {
        let config = Config {
            peer_limit: Some(NonZeroU32::MIN),
            ..CONFIG
        };
        Sparing {
            asker: Fetcher::new(alloc, config),
        }
    }
}

impl Part<Call> for Sparing {
    fn take(&mut self, alloc: Global, call: &Call) -> Result<(), Fault> {
        Part::<Call>::take(&mut self.asker, alloc, call)
    }

    fn show(&mut self, alloc: Global, way: Way, notes: &mut Notes) {
        Part::<Call>::show(&mut self.asker, alloc, way, notes);
    }
}

impl Part<Call> for Asker {
    fn take(&mut self, alloc: Global, call: &Call) -> Result<(), Fault> {
        if self.is_scanning() {
            return Err(Fault::Busy);
        }
        match call {
            Call::Ready(key, now) => ready(self, Name::numbered(*key), *now),
            Call::Reconcile(peers) => self.reconcile(peers.to_vec(alloc)?),
            Call::Block(peers) => self.set_blocked(peers.to_vec(alloc)?),
            Call::Fetch(now) => self.fetch(&mut Willing, &mut Zeros, u128::from(*now)),
            Call::Expire(now) => {
                drop(self.pop_active(u128::from(*now)));
                Ok(())
            }
        }
    }

    /// A request that is made again has the next id.
    fn show(&mut self, _: Global, way: Way, notes: &mut Notes) {
        notes.add(&*self);
        notes.add(self.get_pending_deadline());
        notes.add(self.get_active_deadline());
        notes.add(self.fresh_queue());
        notes.add(self.retry_queue());
        for number in 0..4 {
            show_key(self, way, &Name::numbered(number), notes);
        }
        for peer in 0..6 {
            notes.add(self.weight(&Peer(peer)));
        }
    }
}

/// Has a key wait, where it is in no phase and no scan is open.
fn ready(fetcher: &mut Asker, key: Name, now: u32) -> Result<(), Fault> {
    if fetcher.is_scanning() || fetcher.is_waiting(&key) || fetcher.is_asked(&key) {
        return Err(Fault::Busy);
    }
    fetcher.add_ready(key, u128::from(now))
}

/// Writes where a key waits, who was asked for it and when, its targets and its retries.
fn show_key(fetcher: &Asker, way: Way, key: &Name, notes: &mut Notes) {
    if let Some((id, request)) = fetcher.request(key) {
        notes.add(request);
        if let Way::Compared = way {
            notes.add(id);
        }
    }
    notes.add(fetcher.place(key));
    notes.add(fetcher.targets(key));
    notes.add(fetcher.retries(key));
}
