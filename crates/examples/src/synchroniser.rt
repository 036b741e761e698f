//! A synchroniser fetches the blocks of 100 heights from two peers in memory, of which one lacks the even ones.
//! Sixteen heights are under way at any time. In the middle it begins again with a new engine, and at the end it
//! gives up what no peer has yet. It prints what it asked for and what it got.

mod blocks;
mod network;

use crate::peers::lent::Hasty;
use crate::peers::network::Peer;
use anyhow::{Result, bail};
use blocks::{Block, Blocks};
use bytes::Bytes;
use futures::StreamExt;
use futures::channel::mpsc;
use futures::executor::block_on;
use network::{FULL, SPARSE, Wire};
use resolver::Handle;
use resolver::backfill::{Plan, Without, fill, refill, settle};
use resolver::base::{Feedback, Seeded};
use resolver::node::{Inbox, OneSet};
use resolver::p2p::mocks::{Key, Producer, Quiet};
use resolver::p2p::{Config, Engine, EngineHandle};
use std::alloc::{AllocGlobal, Global};
use std::collections::BTreeSet;
use std::fmt;
use std::num::NonZeroUsize;
use std::random::RandomSource;
use std::sync::Wait;
use std::thread::Threads;

/// How many heights are under way at any time.
const WINDOW: usize = 16;

/// The last height that is wanted.
const LAST: u8 = 100;

/// What an engine is asked through. A block goes by its height, and all are wanted for subscriber 10.
type Asked<R> = EngineHandle<Key, Peer, u16, Without<Key, u16>, R>;

/// An engine that runs, the handle through which it is asked, and where the blocks arrive.
#[derive(Drop)]
struct Running<R> {
    mailbox: Asked<R>,
    handle: Handle,
    arrived: mpsc::UnboundedReceiver<Block>,
}

/// What is wanted and what came. It outlasts an engine.
#[derive(Drop)]
struct Synchroniser {
    plan: Plan<Key, u16>,
    /// The least height that was not asked for.
    next: u8,
    got: BTreeSet<Key>,
    /// How many blocks of even heights came from the peer that has them.
    even: u8,
    alloc: Global,
}

impl Synchroniser {
    /// Nothing is wanted yet, and nothing came.
    fn new(alloc: Global) -> Self {
        Synchroniser {
            plan: Plan::new(alloc, 10, 0),
            next: 1,
            got: BTreeSet::new(alloc),
            even: 0,
            alloc,
        }
    }

    /// Asks again for what an engine before was asked for in vain, and for more as blocks come, until all up to
    /// this height came. Prints how far it came.
    fn follow<R>(&mut self, rt: &R, engine: &mut Running<R>, tip: u8) -> Result<()>
    where
        R: Print + Wait + RandomSource + AllocGlobal + Copy + Drop + Send + 'static,
    {
        if !self.plan.wanted().is_empty() {
            println!(rt; "asked again for {}", Heights(self.plan.wanted()))?;
        }
        taken(refill(&mut engine.mailbox, &self.plan, None)?)?;
        self.top_up(&mut engine.mailbox)?;
        for _ in self.got.len()..usize::from(tip) {
            let Some(block) = block_on(rt, engine.arrived.next())? else {
                bail!("no more blocks come");
            };
            self.take(block)?;
            self.top_up(&mut engine.mailbox)?;
        }
        let last = self.next.saturating_sub(1);
        println!(rt; "asked up to {last}, got {}", Heights(&self.got))?;
        Ok(())
    }

    /// The same, and then gives up what is still under way.
    fn finish<R>(&mut self, rt: &R, engine: &mut Running<R>, tip: u8) -> Result<()>
    where
        R: Print + Wait + RandomSource + AllocGlobal + Copy + Drop + Send + 'static,
    {
        self.follow(rt, engine, tip)?;
        println!(rt; "gave up {}", Heights(self.plan.wanted()))?;
        let mut rest = Vec::new(self.alloc);
        for height in self.plan.wanted() {
            rest.push(*height)?;
        }
        taken(settle(&mut engine.mailbox, &mut self.plan, &rest)?)
    }

    /// Wants as many heights more as the window has room for.
    fn top_up<R>(&mut self, mailbox: &mut Asked<R>) -> Result<()>
    where
        R: Wait + Copy + Drop + Send + 'static,
    {
        let room = WINDOW.saturating_sub(self.plan.wanted().len());
        let mut heights = Vec::new(self.alloc);
        for height in (self.next..=LAST).take(room) {
            heights.push(Key(height))?;
        }
        taken(fill(mailbox, &mut self.plan, &heights, None)?)?;
        if let Some(last) = heights.last() {
            self.next = last.0.saturating_add(1);
        }
        Ok(())
    }

    /// Notes a block that came. The engine has retired it by itself, so the plan only forgets it.
    fn take(&mut self, block: Block) -> Result<()> {
        self.plan.forget(&[block.height]);
        self.got.insert(block.height)?;
        if block.height.0 % 2 == 0 && block.from == FULL {
            self.even = self.even.saturating_add(1);
        }
        Ok(())
    }
}

/// That an engine took what it was told.
fn taken(feedback: Feedback) -> Result<()> {
    if feedback == Feedback::Closed {
        bail!("the engine has ended");
    }
    Ok(())
}

/// Heights as they are printed: how many, and from which one to which.
#[derive(Clone, Copy)]
struct Heights<'a>(&'a BTreeSet<Key>);

impl fmt::Display for Heights<'_> {
    fn fmt<W: fmt::Write>(&self, f: &mut fmt::Formatter<W>) -> fmt::Result {
        match (self.0.first(), self.0.last()) {
            (Some(first), Some(last)) => {
                write!(f, "{}: {} to {}", self.0.len(), first.0, last.0)
            }
            _ => f.write_str("none"),
        }
    }
}

/// Fetches the blocks by two engines, one after the other, and prints what was asked for and what came.
pub fn run<R>(rt: R) -> Result<()>
where
    R: Print + Threads + Wait + RandomSource + AllocGlobal + Copy + Drop + Send + 'static,
{
    let mut sync = Synchroniser::new(rt.alloc());
    show(rt, &mut sync)
}

fn show<R>(rt: R, sync: &mut Synchroniser) -> Result<()>
where
    R: Print + Threads + Wait + RandomSource + AllocGlobal + Copy + Drop + Send + 'static,
{
    begin_with(rt, sync, 40)?;
    end_with(rt, sync, 90)?;
    println!(rt; "{} of even heights came from peer {}", sync.even, FULL.0)?;
    Ok(())
}

/// Has an engine fetch from peers that have the blocks up to this height.
fn begin_with<R>(rt: R, sync: &mut Synchroniser, tip: u8) -> Result<()>
where
    R: Print + Threads + Wait + RandomSource + AllocGlobal + Copy + Drop + Send + 'static,
{
    let mut engine = begin(rt, rt.alloc(), tip)?;
    let followed = sync.follow(&rt, &mut engine, tip);
    end(&rt, engine).and(followed)
}

/// The same with another engine, the last one.
fn end_with<R>(rt: R, sync: &mut Synchroniser, tip: u8) -> Result<()>
where
    R: Print + Threads + Wait + RandomSource + AllocGlobal + Copy + Drop + Send + 'static,
{
    let mut engine = begin(rt, rt.alloc(), tip)?;
    let finished = sync.finish(&rt, &mut engine, tip);
    end(&rt, engine).and(finished)
}

/// Runs an engine over peers that have the blocks up to this height.
fn begin<R>(rt: R, alloc: Global, tip: u8) -> Result<Running<R>>
where
    R: Threads + Wait + RandomSource + AllocGlobal + Copy + Drop + Send + 'static,
{
    let (told, arrived) = mpsc::unbounded(alloc)?;
    let (post, inbox) = mpsc::unbounded(alloc)?;
    let cfg = Config {
        peer_provider: OneSet::new(Vec::from_slice(alloc, &[SPARSE, FULL])?),
        blocker: Quiet::<Peer>::new(),
        consumer: Blocks { alloc, told },
        producer: Producer::<Key, Bytes>::new(alloc),
        mailbox_size: NonZeroUsize::MIN,
        me: None,
        fetch_timeout: 1_000_000,
        fetch_retry_delay: 100,
        peer_limit: None,
        priority_requests: false,
        priority_responses: false,
    };
    let (engine, mailbox) = Engine::new(rt, alloc, cfg)?;
    let wire = Wire { alloc, post, tip };
    let clock = Hasty {
        now: 0,
        rest: Quiet::new(),
    };
    let handle = engine.start((wire, Inbox::new(inbox)), clock, Seeded::new(7))?;
    Ok(Running {
        mailbox,
        handle,
        arrived,
    })
}

/// Ends an engine, and waits for its end. What it was asked for is lost with it.
fn end<R: Threads + Wait + Drop>(rt: &R, engine: Running<R>) -> Result<()> {
    let Running {
        mut mailbox,
        handle,
        arrived: _,
    } = engine;
    mailbox.close();
    handle.join(rt)?;
    Ok(())
}
