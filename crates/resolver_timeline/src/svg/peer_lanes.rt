//! The lanes of peers.

use crate::peer_lane::{PeerLane, Standing, Worth};
use crate::run::Run;
use crate::svg::key_lanes::write_stroke;
use crate::svg::marks::write_marks;
use crate::svg::page::{LEFT, PEER, Page, WIDTH, below};
use crate::track::Span;
use std::alloc::AllocError;
use std::fmt::Write;

/// Draws the lane of each peer.
pub fn write_peers(out: &mut String, run: &Run, page: &Page) -> Result<(), AllocError> {
    if page.has_peers() {
        let y = page.peers.saturating_sub(12);
        writeln!(
            out,
            "<text class=\"b\" x=\"{LEFT}\" y=\"{y}\">What peers weigh (useful bytes a second, doubling by equal steps)</text>"
        )?;
    }
    let drawn = run.peers.iter().filter(|(_, lane)| lane.is_drawn());
    for (place, (peer, lane)) in drawn.enumerate() {
        write_peer(out, page, *peer, lane, below(page.peers, place, PEER))?;
    }
    Ok(())
}

/// Draws the lane of a peer: what it weighs over a line at the bottom, its marks above.
fn write_peer(
    out: &mut String,
    page: &Page,
    peer: u8,
    lane: &PeerLane,
    top: u128,
) -> Result<(), AllocError> {
    let base = top.saturating_add(PEER).saturating_sub(4);
    writeln!(
        out,
        "<path class=\"e\" d=\"M{LEFT} {base}h{WIDTH}\"/><text class=\"l\" x=\"{}\" y=\"{base}\">peer {peer}</text>",
        LEFT - 10
    )?;
    for span in lane.spans() {
        write_worth(out, page, page.color(peer), span, base)?;
    }
    if let Some(span) = lane.spans().last() {
        let (x, weight) = (LEFT + WIDTH + 6, span.is.weight);
        writeln!(
            out,
            "<text class=\"s\" x=\"{x}\" y=\"{base}\">{weight}</text>"
        )?;
    }
    write_marks(out, page, lane.marks(), top.saturating_add(7))
}

/// Draws what a peer weighs in a span, and whether it may be asked.
fn write_worth(
    out: &mut String,
    page: &Page,
    color: usize,
    span: &Span<Worth>,
    base: u128,
) -> Result<(), AllocError> {
    let Some((begin, end)) = page.reach(span) else {
        return Ok(());
    };
    let high = page.high(span.is.weight);
    let (y, width) = (base.saturating_sub(high), end.saturating_sub(begin));
    let class = match span.is.standing {
        Standing::Blocked => "k",
        _ => "c",
    };
    writeln!(
        out,
        "<rect class=\"{class} p{color}\" x=\"{begin}\" y=\"{y}\" width=\"{width}\" height=\"{high}\"/>"
    )?;
    match span.is.standing {
        Standing::Free => Ok(()),
        Standing::Full => write_stroke(out, "f", (begin, end), base),
        Standing::Blocked => write_stroke(out, "q", (begin, end), base),
    }
}
