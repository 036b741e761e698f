//! How a run went.

use crate::counts::{Blocking, Served};
use crate::settings::{KINDS, MS, Settings};
use crate::world::World;
use resolver_base::Moment;
use std::alloc::AllocError;
use std::fmt;
use std::fmt::{Display, Formatter, Write};

/// How far a run is.
#[derive(Clone, Copy, Debug, PartialEq, Eq)]
pub struct Progress {
    pub milliseconds: u128,
    /// How many keys the fellows have found right, and how many they are to have.
    pub held: u64,
    pub wanted: u64,
    /// How many requests have no answer.
    pub open: usize,
    /// How often a node has blocked a peer.
    pub blocked: usize,
}

impl Display for Progress {
    fn fmt<W: Write>(&self, f: &mut Formatter<W>) -> fmt::Result {
        let Progress {
            milliseconds,
            held,
            wanted,
            open,
            blocked,
        } = *self;
        write!(
            f,
            "{milliseconds:>8} ms  {held:>7} of {wanted} keys  {open:>6} open  {blocked:>5} blocked"
        )
    }
}

/// How a run went.
#[derive(Drop)]
pub struct Report {
    pub settings: Settings,
    pub milliseconds: u128,
    /// When the fellows had all keys, in order: of those that had.
    pub synced: Vec<Moment>,
    pub fellows: u64,
    pub requests: u64,
    pub timeouts: u64,
    pub lost: u64,
    pub held: u64,
    pub used: u64,
    pub sent: u64,
    pub served: Served,
    /// Each blocking of a liar by a node, those with the fewest keys first.
    pub blockings: Vec<Blocking>,
}

impl Report {
    /// How a run in this world went.
    pub fn new(world: &World, synced: Vec<Moment>, fellows: u64) -> Result<Report, AllocError> {
        let counts = &world.counts;
        let mut blockings = counts.blockings.clone()?;
        blockings.sort_unstable();
        Ok(Report {
            settings: world.settings,
            milliseconds: world.now.nanoseconds / MS,
            synced,
            fellows,
            requests: counts.requests,
            timeouts: counts.timeouts,
            lost: world.network.lost,
            held: counts.held,
            used: counts.used,
            sent: counts.sent,
            served: counts.served,
            blockings,
        })
    }

    /// How many requests were sent for a key that was found right, in hundredths.
    pub fn requests_a_key(&self) -> u64 {
        self.requests.saturating_mul(100) / self.held.max(1)
    }

    /// The bytes of values that were sent and found right nowhere.
    pub fn wasted(&self) -> u64 {
        self.sent.saturating_sub(self.used)
    }

    /// When so many of a hundred fellows had all keys, in milliseconds, if they had.
    pub fn synced_by(&self, percent: u64) -> Option<u128> {
        let place = self
            .fellows
            .saturating_mul(percent)
            .div_ceil(100)
            .saturating_sub(1);
        let place = usize::try_from(place).unwrap_or(usize::MAX);
        self.synced.get(place).map(|moment| moment.nanoseconds / MS)
    }
}

/// A number of milliseconds, or a dash where there is none.
#[derive(Clone, Copy)]
struct Milliseconds(Option<u128>);

impl Display for Milliseconds {
    fn fmt<W: Write>(&self, f: &mut Formatter<W>) -> fmt::Result {
        match self.0 {
            Some(milliseconds) => write!(f, "{milliseconds} ms"),
            None => f.write_str("-"),
        }
    }
}

impl Display for Report {
    fn fmt<W: Write>(&self, f: &mut Formatter<W>) -> fmt::Result {
        self.fmt_times(f)?;
        let hundredths = self.requests_a_key();
        let (whole, rest) = (hundredths / 100, hundredths % 100);
        writeln!(f, "requests a key     {whole}.{rest:02}")?;
        writeln!(f, "timeouts           {}", self.timeouts)?;
        writeln!(f, "messages lost      {}", self.lost)?;
        let (wasted, sent) = (self.wasted(), self.sent);
        writeln!(f, "bytes wasted       {wasted} of {sent}")?;
        self.fmt_blockings(f)?;
        for kind in KINDS {
            let (name, served) = (kind.name(), self.served.by(kind));
            writeln!(f, "keys of {name:<11}{served}")?;
        }
        Ok(())
    }
}

impl Report {
    fn fmt_times<W: Write>(&self, f: &mut Formatter<W>) -> fmt::Result {
        let (synced, fellows) = (self.synced.len(), self.fellows);
        writeln!(f, "synced             {synced} of {fellows} nodes")?;
        writeln!(f, "  median           {}", Milliseconds(self.synced_by(50)))?;
        writeln!(f, "  90 of 100        {}", Milliseconds(self.synced_by(90)))?;
        writeln!(
            f,
            "  slowest          {}",
            Milliseconds(self.synced_by(100))
        )
    }

    fn fmt_blockings<W: Write>(&self, f: &mut Formatter<W>) -> fmt::Result {
        let most = self.fellows.saturating_mul(u64::from(self.settings.liars));
        let count = self.blockings.len();
        writeln!(f, "liars blocked      {count} of {most} times")?;
        if let (Some(median), Some(last)) = (self.blockings.get(count / 2), self.blockings.last()) {
            let (median, last) = (median.keys, last.keys);
            writeln!(
                f,
                "  after            {median} keys in the median, {last} at most"
            )?;
        }
        Ok(())
    }
}
