//! The machine that fetches from peers, as a definition: one map from keys to rows, the peers and their
//! scores, and what each input makes of them. It stands in `specs/Peer.antt`; here is what holds of it,
//! the types that the engine's code shares with it, and what an engine does to its deliveries and to its
//! effects: what is asked, handed out once more, called off and replied.
#![tactic(auto)]

pub mod canceled;
pub mod effects;
pub mod handed;
pub mod inflight;
pub mod inputs;
pub mod laws;
pub mod named;
pub mod questions;
pub mod serves;
