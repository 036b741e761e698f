//! The keys of a fetcher that wait, fresh or to be tried again, and when a scan may be begun again.
#![tactic(auto)]

pub mod pending;
pub mod queues;
pub mod retries;
