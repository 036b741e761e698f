//! What is known of a wanted key, and of what was handed out for one.

use crate::scan::Stage;
use resolver::base::NonEmptyVec;
use std::alloc::{AllocError, Global};
use std::collections::BTreeSet;
use tests_support::names::Peer;

/// A wanted key.
#[derive(Drop)]
pub struct Wanted {
    /// Who wants it.
    pub subscribers: BTreeSet<u16>,
    /// Whom it may be asked of, if not any peer.
    pub targets: BTreeSet<u8>,
    pub stage: Stage,
}

impl Wanted {
    /// A key that nobody wants so far, and that may be asked of any peer.
    pub fn new(alloc: Global, stage: Stage) -> Wanted {
        Wanted {
            subscribers: BTreeSet::new(alloc),
            targets: BTreeSet::new(alloc),
            stage,
        }
    }

    /// A fetch names these peers, or none. Where any peer may be asked already, naming some changes nothing, but for a
    /// new key.
    pub fn aim(
        &mut self,
        is_new: bool,
        peers: Option<&NonEmptyVec<Peer>>,
    ) -> Result<(), AllocError> {
        let Some(peers) = peers else {
            self.targets.clear();
            return Ok(());
        };
        if !is_new && self.targets.is_empty() {
            return Ok(());
        }
        for peer in peers.iter() {
            self.targets.insert(peer.0)?;
        }
        Ok(())
    }

    /// Whether a peer may be asked for it, as far as the key says.
    pub fn is_aimed_at(&self, peer: u8) -> bool {
        self.targets.is_empty() || self.targets.contains(&peer)
    }

    /// The id and the peer of its request, if it is asked for.
    pub fn asked(&self) -> Option<(u64, u8)> {
        match self.stage {
            Stage::Asked { id, peer, .. } => Some((id, peer)),
            _ => None,
        }
    }
}

/// A response to a request.
#[derive(Drop)]
pub struct Response {
    /// The number of the first delivery that carried it.
    pub number: u64,
    pub peer: u8,
    /// From the request to the response, in nanoseconds.
    pub elapsed: u128,
    pub value: Vec<u8>,
    /// Whether it was judged to be complete.
    pub is_accepted: bool,
}

/// A delivery that has no verdict.
#[derive(Drop)]
pub struct Open {
    pub key: u8,
    /// Whom it names.
    pub subscribers: Vec<u16>,
    pub response: Response,
}
