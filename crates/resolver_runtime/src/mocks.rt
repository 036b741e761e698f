//! What a caller lends, for tests.

mod consumer;
mod producer;
mod quiet;

pub use consumer::Consumer;
pub use producer::Producer;
pub use quiet::Quiet;
