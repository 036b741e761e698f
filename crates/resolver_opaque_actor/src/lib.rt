//! The machine that fetches from one opaque source, which gives a value for a key or none.
//!
//! `Actor` takes one input at a time, with its moment, and answers with effects. It holds no clock, no socket
//! and no thread. `laws` is what holds of its runs.
#![tactic(auto)]

mod actor;

pub use actor::Actor;
pub use resolver_model_opaque::effects::Effect;
pub use resolver_model_opaque::inputs::{Event, Input};
pub use resolver_model_opaque::rows::Row;
pub use resolver_model_opaque::{Phase, laws};
