//! What one scan tries: a key, the peers that may be asked for it, and the answers that it expects.
//!
//! `Cursor` is where an open scan stands: what it tried in vain (`Trail`), and the key that it tries
//! with the peers that are left for it (`Trying`). `Ask` is what it asks, and `Answer` what it is
//! answered. Which keys wait, and what is known of the peers, its caller has. The fetcher whose scans these
//! are stands here as a definition, in `specs/Fetcher.antt`, with what holds of every scan (`laws`).
#![tactic(auto)]

pub mod config;
pub mod cursor;
pub mod laws;
pub mod place;
pub mod pool;
pub mod scan;
pub mod step;
pub mod targets;
pub mod trail;
pub mod trying;
