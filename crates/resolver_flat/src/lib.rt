//! What a machine takes and tells, as bytes, piece by piece: names of 8 or of 32 bytes, subscribers
//! and marks of eight, moments, lists, values.
#![tactic(auto)]

pub mod leaving;
pub mod name;
pub mod reading;
pub mod refusal;
pub mod writing;

pub use leaving::Leaving;
pub use name::FlatName;
pub use reading::{Misread, Spelled};
pub use refusal::Refusal;
pub use resolver_names::Name;
