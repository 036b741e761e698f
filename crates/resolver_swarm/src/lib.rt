//! A network of many nodes in one process, each a core that is fed by hand: what happens follows from a seed.
//!
//! `settings` says what a run is made of, `Swarm` runs it, and `report` says how it went. `judging` has a model that
//! judges each node after each step, written from the definitions of the peer machine and not from its code.
#![tactic(auto)]

pub mod agenda;
pub mod counts;
pub mod height;
pub mod judging;
pub mod network;
pub mod nodes;
pub mod plot;
pub mod report;
pub mod script;
pub mod settings;
pub mod shelf;
pub mod swarm;
pub mod sweep;
pub mod words;
pub mod world;
