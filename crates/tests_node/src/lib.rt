//! Tests of what a node lends to its engine.
#![tactic(auto)]

#[cfg(test)]
mod memory;
#[cfg(test)]
mod peers;
#[cfg(test)]
mod predicates;
#[cfg(test)]
mod support;
#[cfg(test)]
mod system_clock;
