//! Worked rows through the parts of a resolver, call by call. Where a call is refused memory, the part is
//! compared with one that took the calls before it, by all that its calls show of it; then, in other runs of
//! the same rows, the call is made again and the row goes on to its end, where the part is compared once more.
//! A line is printed for each row. `tools/refusals` has each allocation refused in turn.

ghost use Rattle.std.specs.Prelude.{◌≡◌};

mod demand;
mod entries;
mod fetcher;
mod index;
mod overflow;
mod part;
mod post;

use crate::fault::Fault;
use demand::Demand;
use entries::Deliveries;
use fetcher::{Asker, Sparing};
use index::Index;
use overflow::Overflow;
use part::{Ending, Way, taken};
use post::mailbox_book;
use resolver_mailbox::mailbox::Pages;
use std::alloc::{AllocGlobal, Global};
use std::marker::Brand;
use std::random::RandomSource;
use std::sync::Wait;

/// Takes the rows in both ways, and prints how they ended.
pub fn run<R>(rt: &R) -> Result<(), Fault>
where
    R: AllocGlobal + Print + Wait + RandomSource + Copy + Drop,
{
    for way in [Way::Compared, Way::GoneOn] {
        let mut rows = Rows::new(rt, way);
        take_parts(&mut rows, rt.alloc());
        take_mailbox(&mut rows, rt.alloc(), Pages::new());
        rows.printed?;
    }
    Ok(())
}

/// Takes the rows of the parts that make no use of the runtime.
fn take_parts(rows: &mut Rows<impl Print>, alloc: Global) {
    let way = rows.way;
    rows.print("tracker", taken::<_, Demand>(alloc, way, demand::TRACKER));
    rows.print(
        "entries",
        taken::<_, Deliveries>(alloc, way, entries::ENTRIES),
    );
    rows.print(
        "overflow_rejected_drain",
        taken::<_, Overflow>(alloc, way, overflow::REJECTED_DRAIN),
    );
    rows.print("overflow_retain", overflow::retain(alloc, way));
    rows.print(
        "overflow_targets",
        taken::<_, Overflow>(alloc, way, overflow::TARGETS),
    );
    rows.print(
        "index_choices",
        taken::<_, Index>(alloc, way, index::CHOICES),
    );
    rows.print(
        "fetcher_wake_up",
        taken::<_, Asker>(alloc, way, fetcher::WAKE_UP),
    );
    rows.print(
        "fetcher_first_request",
        taken::<_, Asker>(alloc, way, fetcher::FIRST_REQUEST),
    );
    rows.print(
        "fetcher_limit",
        taken::<_, Sparing>(alloc, way, fetcher::FULL),
    );
}

/// Takes the row of a recorded mailbox.
fn take_mailbox<R>(rows: &mut Rows<R>, alloc: Global, pages: Pages)
where
    R: AllocGlobal + Print + Wait + RandomSource + Copy + Drop,
{
    let ending = mailbox_book::<Brand, R>(rows.rt, alloc, rows.way, pages);
    rows.print("mailbox_book", ending);
}

/// Prints rows that are taken one way, up to one that changed what it was refused for.
#[derive(Drop)]
struct Rows<'a, R> {
    rt: &'a R,
    way: Way,
    printed: Result<(), Fault>,
}

impl<'a, R: Print> Rows<'a, R> {
    fn new(rt: &'a R, way: Way) -> Self {
        Rows {
            rt,
            way,
            printed: Ok(()),
        }
    }

    /// Prints a row's name with its ending.
    fn print(&mut self, name: &str, ending: Ending) {
        if self.printed.is_ok() {
            self.printed = printed(self.rt, name, self.way, ending);
        }
    }
}

/// Prints a row's name with its ending. One that changed what it was refused for is a fault.
fn printed(rt: &impl Print, name: &str, way: Way, ending: Ending) -> Result<(), Fault> {
    println!(rt; "{name}{}: {}", way.text(), ending.text())?;
    match ending {
        Ending::Changed => Err(Fault::Changed),
        _ => Ok(()),
    }
}
