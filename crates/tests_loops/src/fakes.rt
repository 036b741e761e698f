//! A world in memory for tests of an engine's loop.
//!
//! `world` is an engine with the ends by which a test gives and answers, `acts` what a test does to it, and `watching`
//! who is told what its loop does.

pub mod acts;
pub mod watching;
pub mod world;
