//! What a test does to a world, one thing at a time.

use crate::fakes::world::{Asked, Held, World, peers};
use bytes::Bytes;
use resolver::p2p::Mailbox;
use resolver_base::{Fault, Feedback};
use resolver_mailbox::mocks::Key;
use resolver_runtime::{Resolver, TargetedResolver};
use resolver_types::{Fetch, NonEmptyVec, Outcome};
use std::alloc::Global;
use std::sync::Wait;
use tests_support::names::{Below, Peer, wanted};

/// What a test does. Peers and keys go by their numbers.
#[derive(Clone, Copy)]
pub enum Act<'a> {
    /// There are these peers, from the set of this index on.
    Peers(u64, &'a [u8]),
    /// These peers are blocked.
    Block(&'a [u8]),
    /// Keys with the subscribers that want them, by one message.
    Fetch(&'a [(u8, u16)]),
    /// The same, and the mailbox is closed behind it.
    LastFetch(&'a [(u8, u16)]),
    /// Subscriber 10 wants keys, each of one peer, by one message.
    FetchFrom(&'a [(u8, u8)]),
    /// Subscribers from this one on are let go.
    Retain(u16),
    /// A peer sends these bytes.
    Net(u8, &'a [u8]),
    /// The consumer says this of the first delivery that it hasn't judged.
    Judge(Outcome),
    /// The consumer drops the first delivery that it hasn't judged.
    Drop,
    /// The consumer is asked whether anybody waits for what it says of the first delivery that it
    /// hasn't judged, which it drops.
    IsWanted,
    /// The producer has these bytes for the first request that it hasn't answered.
    Serve(&'a [u8]),
    /// The producer drops the first request that it hasn't answered.
    DropServe,
    /// It is this moment.
    At(u64),
    ClosePeers,
    CloseBlocked,
    CloseNetwork,
    CloseMailbox,
}

/// The fetches of keys by their subscribers.
pub fn fetches(alloc: Global, wants: &[(u8, u16)]) -> Result<Vec<Fetch<Key, u16>>, Fault> {
    let mut fetches = Vec::new(alloc);
    for (key, subscriber) in wants {
        fetches.push(wanted(*key, *subscriber))?;
    }
    Ok(fetches)
}

/// The fetches of keys by subscriber 10, each with its peer.
pub fn targeted(
    alloc: Global,
    wants: &[(u8, u8)],
) -> Result<Vec<(Fetch<Key, u16>, NonEmptyVec<Peer>)>, Fault> {
    let mut fetches = Vec::new(alloc);
    for (key, peer) in wants {
        fetches.push((wanted(*key, 10), NonEmptyVec::new(alloc, Peer(*peer))?))?;
    }
    Ok(fetches)
}

/// A handle of a mailbox, as a test asks by it.
pub trait Asks {
    /// Subscribers want keys: one by `fetch`, and several by `fetch_all`.
    fn fetch(&mut self, alloc: Global, wants: &[(u8, u16)]) -> Result<Feedback, Fault>;

    /// Subscriber 10 wants keys, each of one peer: one by `fetch_targeted`, and several by
    /// `fetch_all_targeted`.
    fn fetch_from(&mut self, alloc: Global, wants: &[(u8, u8)]) -> Result<Feedback, Fault>;

    /// Subscribers from this one on are let go.
    fn retain(&mut self, below: u16) -> Result<Feedback, Fault>;

    fn close(&mut self);
}

impl<R: Wait + Copy + Send + 'static> Asks for Asked<Below, R> {
    fn fetch(&mut self, alloc: Global, wants: &[(u8, u16)]) -> Result<Feedback, Fault> {
        match wants {
            [(key, subscriber)] => Resolver::fetch(self, wanted(*key, *subscriber)),
            _ => self.fetch_all(fetches(alloc, wants)?),
        }
    }

    fn fetch_from(&mut self, alloc: Global, wants: &[(u8, u8)]) -> Result<Feedback, Fault> {
        match wants {
            [(key, peer)] => {
                let peers = NonEmptyVec::new(alloc, Peer(*peer))?;
                self.fetch_targeted(wanted(*key, 10), peers)
            }
            _ => self.fetch_all_targeted(targeted(alloc, wants)?),
        }
    }

    fn retain(&mut self, below: u16) -> Result<Feedback, Fault> {
        Resolver::retain(self, Below(below))
    }

    fn close(&mut self) {
        Mailbox::close(self);
    }
}

impl<M: Asks> World<M> {
    /// Does this, without a poll.
    pub fn act(&mut self, act: Act<'_>) -> Result<(), Fault> {
        let alloc = self.held.alloc;
        let asked = match act {
            Act::Fetch(wants) | Act::LastFetch(wants) => self.mailbox.fetch(alloc, wants),
            Act::FetchFrom(wants) => self.mailbox.fetch_from(alloc, wants),
            Act::Retain(below) => self.mailbox.retain(below),
            Act::CloseMailbox => Ok(Feedback::Ok),
            _ => return self.held.act(act),
        };
        if matches!(act, Act::LastFetch(_) | Act::CloseMailbox) {
            self.mailbox.close();
        }
        match asked {
            Ok(_) => Ok(()),
            Err(fault) => Err(fault),
        }
    }
}

impl Held {
    /// Does this, of what needs no handle.
    pub fn act(&mut self, act: Act<'_>) -> Result<(), Fault> {
        match act {
            Act::Peers(index, numbers) => return self.set_peers(index, numbers),
            Act::Block(numbers) => return self.block(numbers),
            Act::Net(peer, bytes) => return self.receive(peer, bytes),
            Act::Serve(bytes) => return self.serve(bytes),
            Act::DropServe => drop(self.serves.try_recv()),
            Act::Judge(outcome) => self.judge(outcome),
            Act::Drop | Act::IsWanted => {
                self.is_wanted();
            }
            Act::At(moment) => self.watch.put(moment),
            Act::ClosePeers => self.sets.close_channel(),
            Act::CloseBlocked => self.blocked.close_channel(),
            Act::CloseNetwork => self.network.close_channel(),
            Act::Fetch(_)
            | Act::LastFetch(_)
            | Act::FetchFrom(_)
            | Act::Retain(_)
            | Act::CloseMailbox => {}
        }
        Ok(())
    }

    fn set_peers(&self, index: u64, numbers: &[u8]) -> Result<(), Fault> {
        match peers(self.alloc, numbers) {
            Ok(peers) => {
                drop(self.sets.unbounded_send((index, peers)));
                Ok(())
            }
            Err(fault) => Err(fault),
        }
    }

    fn block(&self, numbers: &[u8]) -> Result<(), Fault> {
        match peers(self.alloc, numbers) {
            Ok(peers) => {
                drop(self.blocked.unbounded_send(peers));
                Ok(())
            }
            Err(fault) => Err(fault),
        }
    }

    fn receive(&self, peer: u8, bytes: &[u8]) -> Result<(), Fault> {
        match Bytes::copy_from_slice(self.alloc, bytes) {
            Ok(bytes) => {
                drop(self.network.unbounded_send((Peer(peer), bytes)));
                Ok(())
            }
            Err(error) => Err(error.into()),
        }
    }

    fn judge(&mut self, outcome: Outcome) {
        if let Ok(verdict) = self.verdicts.try_recv() {
            drop(verdict.send(outcome));
        }
    }

    /// Whether anybody waits for what is said of the first delivery, which is dropped.
    pub fn is_wanted(&mut self) -> bool {
        match self.verdicts.try_recv() {
            Ok(verdict) => !verdict.is_canceled(),
            Err(_) => false,
        }
    }

    fn serve(&mut self, bytes: &[u8]) -> Result<(), Fault> {
        match Bytes::copy_from_slice(self.alloc, bytes) {
            Ok(bytes) => {
                match self.serves.try_recv() {
                    Ok(serve) => drop(serve.send(bytes)),
                    Err(_) => drop(bytes),
                }
                Ok(())
            }
            Err(error) => Err(error.into()),
        }
    }
}
