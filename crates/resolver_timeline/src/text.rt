//! A run as text for a terminal.

mod signs;
mod strip;

use crate::axis::Axis;
use crate::lane::Lane;
use crate::mark::Mark;
use crate::peer_lane::PeerLane;
use crate::run::{Kind, Run};
use crate::title::title;
use signs::{MARKS, letter_of, sign_of, sign_of_phase, sign_of_worth};
use std::alloc::{AllocError, Global};
use std::fmt::Write;
use strip::{COLUMNS, Strip, write_line};

/// A run as text: a lane for each key and each peer, with its marks above it.
pub fn picture(alloc: Global, run: &Run, by_order: bool) -> Result<String, AllocError> {
    let axis = Axis::of(run, COLUMNS as u128, by_order);
    let names = run.asked_peers(alloc)?;
    let mut out = String::new(alloc);
    out.push_str(title(alloc, run, &axis)?.as_str())?;
    out.push_str("\n\n")?;
    write_axis(alloc, &mut out, &axis)?;
    for (key, lane) in run.lanes.iter() {
        let name = format!(in alloc; "key {key}")?;
        write_lane(&mut out, &axis, name.as_str(), lane, names.as_slice())?;
    }
    write_refusals(&mut out, &axis, run.marks.as_slice())?;
    for (peer, lane) in run.peers.iter().filter(|(_, lane)| lane.is_drawn()) {
        let name = format!(in alloc; "peer {peer}")?;
        write_peer(&mut out, &axis, name.as_str(), lane)?;
    }
    write_legend(&mut out, run, names.as_slice())?;
    Ok(out)
}

/// The ticks with their labels, as far as there is room for these.
fn write_axis(alloc: Global, out: &mut String, axis: &Axis) -> Result<(), AllocError> {
    let ticks = axis.ticks(alloc)?;
    let (mut labels, mut bars) = (Strip::new(), Strip::new());
    let mut free: usize = 0;
    for tick in ticks.iter() {
        let place = column(tick.place);
        bars.put(place, b'|');
        let label = format!(in alloc; "{}", tick.amount())?;
        let end = place.saturating_add(label.len());
        if place >= free && end <= COLUMNS {
            labels.label(place, label.as_bytes());
            free = end.saturating_add(2);
        }
    }
    write_line(out, "", &labels)?;
    write_line(out, "", &bars)
}

/// The column of a place.
fn column(place: u128) -> usize {
    usize::try_from(place).unwrap_or(COLUMNS).min(COLUMNS - 1)
}

/// The column at which a span ends.
fn end_column(place: u128) -> usize {
    usize::try_from(place).unwrap_or(COLUMNS).min(COLUMNS)
}

/// The marks of a lane, if it has some, as a line above it.
fn write_marks(out: &mut String, axis: &Axis, marks: &[Mark]) -> Result<(), AllocError> {
    if marks.is_empty() {
        return Ok(());
    }
    let mut strip = Strip::new();
    for mark in marks {
        strip.put(column(axis.place(mark.at)), sign_of(mark.what));
    }
    write_line(out, "", &strip)
}

/// A key: its marks, and its phases.
fn write_lane(
    out: &mut String,
    axis: &Axis,
    name: &str,
    lane: &Lane,
    names: &[u8],
) -> Result<(), AllocError> {
    write_marks(out, axis, lane.marks())?;
    let mut strip = Strip::new();
    for span in lane.spans() {
        let (begin, end) = (axis.place(span.begin), axis.place(span.end));
        strip.fill(
            column(begin),
            end_column(end),
            sign_of_phase(span.is, names),
        );
    }
    write_line(out, name, &strip)
}

/// A peer: its marks, and how much it weighed.
fn write_peer(
    out: &mut String,
    axis: &Axis,
    name: &str,
    lane: &PeerLane,
) -> Result<(), AllocError> {
    write_marks(out, axis, lane.marks())?;
    let mut strip = Strip::new();
    for span in lane.spans() {
        let (begin, end) = (axis.place(span.begin), axis.place(span.end));
        strip.fill(column(begin), end_column(end), sign_of_worth(span.is));
    }
    write_line(out, name, &strip)
}

/// Where the machine refused something, if it did.
fn write_refusals(out: &mut String, axis: &Axis, marks: &[Mark]) -> Result<(), AllocError> {
    if marks.is_empty() {
        return Ok(());
    }
    let mut strip = Strip::new();
    for mark in marks {
        strip.put(column(axis.place(mark.at)), sign_of(mark.what));
    }
    write_line(out, "refused", &strip)
}

/// What the signs are.
fn write_legend(out: &mut String, run: &Run, names: &[u8]) -> Result<(), AllocError> {
    out.push_str(
        "\n. waits  ~ waits to be tried again  o due, and nobody may be asked  = judged\n",
    )?;
    if run.kind == Kind::Opaque {
        out.push_str("# the source was asked\n")?;
    }
    for name in names {
        writeln!(out, "{} peer {name} was asked", letter_of(*name, names))?;
    }
    for (sign, says) in MARKS {
        write!(out, "{sign} {says}  ")?;
    }
    out.push_str("\n")?;
    if run.kind != Kind::Opaque {
        out.push_str(
            "a peer's digit is how many digits its weight has; = it has all requests that it may have, x it is blocked\n",
        )?;
    }
    Ok(())
}
