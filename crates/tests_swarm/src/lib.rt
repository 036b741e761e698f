//! Tests of swarms: that they end well whatever is drawn, that a seed says all, that a node's script replays, that the
//! judge finds what is wrong, in which order things happen, and what words and sweeps say.
#![tactic(auto)]

#[cfg(test)]
mod agenda;
#[cfg(test)]
mod judged;
#[cfg(test)]
mod runs;
#[cfg(test)]
mod words;
