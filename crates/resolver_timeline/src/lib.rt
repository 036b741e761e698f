//! Pictures of runs: what a resolver's machine did, over time.
//!
//! A `Run` has a lane for each key and for each peer, each a list of spans and marks. `drawn` says how it is drawn: `svg` as a picture, `text` for a terminal.
#![tactic(auto)]

pub mod at;
mod axis;
pub mod drawn;
pub mod lane;
pub mod mark;
pub mod peer_lane;
pub mod run;
pub mod svg;
pub mod text;
mod title;
pub mod track;
mod weights;
