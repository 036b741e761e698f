//! What tests share: fakes in memory for tests of the loops, names, and the reader of transcripts.
//!
//! `lent` has what a loop is lent, and `watch` its clocks: sources that give what a test says, and a
//! consumer, a producer, a network and draws that write down what they are asked, which `seen` spells,
//! with the `kinds` of what a watcher is told.
//! `transcript` reads the lines that tests say, with what each is to print.
//! `polling` is how a test polls a loop by hand, and writes what is seen of that, and `waiting` how it waits.
//! `names` has names of keys and peers, `counting` names that count how often they are compared, `slow` a
//! consumer whose verdicts the test gives, and `wide` keys for tests of many.
#![tactic(auto)]

pub mod counting;
pub mod kinds;
pub mod lent;
pub mod names;
pub mod polling;
pub mod seen;
pub mod slow;
pub mod transcript;
pub mod waiting;
pub mod watch;
pub mod wide;
