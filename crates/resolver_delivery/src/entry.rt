//! What is kept of a tracked key, and of an open delivery.

use resolver_types::Delivery;

/// A response, as it is kept for the subscribers that come later.
#[derive(Debug, Drop)]
pub struct Response<V, Context> {
    /// The number of the first delivery that carried it.
    pub name: u64,
    /// The data.
    pub value: V,
    /// What was said of it when it came.
    pub context: Context,
    /// Whether it was judged to be right.
    pub accepted: bool,
}

/// A tracked key.
#[derive(Debug, Drop)]
pub struct Entry<V, Context, State> {
    /// The delivery in progress.
    pub number: Option<u64>,
    /// The cached response.
    pub response: Option<Response<V, Context>>,
    /// What the caller keeps with the key.
    pub state: State,
}

/// A delivery that no verdict was given on.
#[derive(Debug, Drop)]
pub struct Open<K, S, Context> {
    /// The response that it carries, by the number of the first delivery that did.
    pub response: u64,
    /// What was handed out.
    pub delivery: Delivery<K, S>,
    /// What was said of the response when it came.
    pub context: Context,
    /// Whether the response was accepted when this delivery began.
    pub accepted: bool,
}
