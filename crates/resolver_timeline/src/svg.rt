//! A run as a picture, as SVG.

mod frame;
mod key_lanes;
mod marks;
mod page;
mod peer_lanes;

use crate::run::Run;
use frame::{write_foot, write_grid, write_head};
use key_lanes::write_keys;
use page::Page;
use peer_lanes::write_peers;
use std::alloc::{AllocError, Global};

/// A run as SVG: a lane for each key, below them one for each peer, and the time from left to right.
pub fn picture(alloc: Global, run: &Run, by_order: bool) -> Result<String, AllocError> {
    let page = Page::of(alloc, run, by_order)?;
    let mut out = String::new(alloc);
    write_head(alloc, &mut out, run, &page)?;
    write_grid(alloc, &mut out, &page)?;
    write_keys(&mut out, run, &page)?;
    write_peers(&mut out, run, &page)?;
    write_foot(&mut out)?;
    Ok(out)
}
