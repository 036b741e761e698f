//! Tests of what is noted and drawn of small scripts.
#![tactic(auto)]

#[cfg(test)]
mod keys;
#[cfg(test)]
mod peers;
#[cfg(test)]
mod pictures;
#[cfg(test)]
mod scripts;
