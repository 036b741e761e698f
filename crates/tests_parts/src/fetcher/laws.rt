//! Laws of scans, called at numbers.

use crate::fetcher::words::{Node, delayed};
use resolver_fetch::fetcher::Fetcher;
use resolver_fetch::fetcher::laws::draw_counts;
use resolver_fetch_scan::laws::{
    chooses_below, eligible_means, keeps_weights, needs_pairs, trail_law, tries_all, tries_pairs,
    wakes_later,
};

#[test]
fn laws_of_scans_at_numbers(rt: HostRuntime) {
    eligible_means::<u8, u32>();
    tries_all::<u8, u32>();
    tries_pairs::<u8, u32>();
    wakes_later::<u8, u32>();
    keeps_weights::<u8, u32>();
    needs_pairs::<u8, u32>();
    trail_law::<u8, u32>();
    chooses_below::<u32>();
    let fetcher: Node = Fetcher::new(rt.alloc(), delayed(10));
    draw_counts(&fetcher);
}
