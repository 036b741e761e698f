//! Worked runs of a fetcher's definition, and how many numbers choose what a scan draws. Each function says
//! one of them, and does nothing. They are no part of the surface.

ghost use Rattle.resolver_fetch.specs.FetcherWorked.{BlockedTarget, FirstRequest, MissingAndRetry, NextIds, RefusedSends, TwoQueues, WakeUp};
ghost use Rattle.resolver_fetch_scan.specs.FetcherLaws.{DrawCounts};
ghost use Rattle.resolver_fetch_scan.specs.Fetcher.{snapshot};
ghost use Rattle.resolver_fetch_scan.specs.Orders.{orders};

use crate::fetcher::Fetcher;

/// The next id is held by no request, and 0 follows the last.
pub fn next_ids()
    ensures { NextIds }
{}

/// A key sleeps without peers, and wakes once there are some.
pub fn wake_up()
    ensures { WakeUp }
{}

/// A request, its deadline and its response.
pub fn first_request()
    ensures { FirstRequest }
{}

/// Data that is missing, and a key that is tried again.
pub fn missing_and_retry()
    ensures { MissingAndRetry }
{}

/// Fresh keys are tried before retries, and each kind has a queue.
pub fn two_queues()
    ensures { TwoQueues }
{}

/// Requests that are refused.
pub fn refused_sends()
    ensures { RefusedSends }
{}

/// A target that is blocked, and then isn't.
pub fn blocked_target()
    ensures { BlockedTarget }
{}

/// Of the numbers that a scan of this fetcher asks for while it tries a key, as many as its weight
/// choose each peer left by weight, one chooses each by place, and four mean a draw by weight.
pub fn draw_counts<K: Ord + Drop, P: Ord + Drop>(fetcher: &Fetcher<K, P>)
    ensures { DrawCounts (orders K.cmp P.cmp) (snapshot (orders K.cmp P.cmp) fetcher.now) }
{
    fetcher.peers.law();
}
