//! How a core is to work.

ghost use Rattle.resolver_fetch_scan.specs.Fetcher.{IsTimely};

/// How a core is to work, as it is spelled: durations in nanoseconds, and 0 where a peer may have any
/// number of requests.
#[derive(Drop)]
pub struct Settings<K> {
    pub me: Option<K>,
    pub fetch_timeout: u128,
    pub retry_delay: u128,
    pub peer_limit: u32,
    pub priority_requests: bool,
    pub priority_responses: bool,
    ghost timely: { IsTimely fetch_timeout retry_delay },
}
