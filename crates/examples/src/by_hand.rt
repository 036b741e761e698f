//! A block synchroniser that feeds its machine by hand, by a clock of its own and without a thread: heights 1 to
//! 50 from three peers in memory, of which one lies and one is slow. It prints how far it is, and a summary.

use anyhow::Result;
use bytes::{Bytes, BytesMut};
use resolver_core::base::{Check, Draws, Moment, Seeded};
use resolver_core::ingress::FetchKey;
use resolver_core::names::Height;
use resolver_core::node::predicates::All;
use resolver_core::p2p::Core;
use resolver_core::p2p::effects::Effect;
use resolver_core::p2p::fetcher::{Answer, Ask, Config};
use resolver_core::p2p::inputs::{Event, Happening, Input};
use resolver_core::p2p::wire::{Message, Payload};
use resolver_core::{Fetch, Outcome};
use std::alloc::Global;
use std::collections::BTreeMap;
use std::num::NonZeroU32;

/// A height is a key and a peer a number. There is one subscriber, 0, who gives nothing up.
type Happens = Event<Height, u8, u16, All>;

/// Nanoseconds in a millisecond.
const MS: u128 = 1_000_000;

const LIAR: u8 = 2;

const SLOW: u8 = 3;

#[derive(Drop)]
struct Synchroniser {
    core: Core<Height, u8, u16, All>,
    draws: Seeded,
    now: Moment,
    /// What will happen, by its moment in nanoseconds and then in order: messages, verdicts, what is blocked.
    coming: BTreeMap<(u128, u64), Happens>,
    order: u64,
    blocked: Vec<u8>,
    blocks: u64,
    alloc: Global,
}

impl Synchroniser {
    /// This will happen in so many nanoseconds.
    fn expect(&mut self, delay: u128, event: Happens) -> Result<()> {
        let due = self.now.nanoseconds.saturating_add(delay);
        self.order = self.order.saturating_add(1);
        self.coming.insert((due, self.order), event)?;
        Ok(())
    }

    /// Lets time go on to what comes next, and feeds that. Whether something comes.
    fn turn(&mut self) -> Result<bool> {
        let first = self.coming.first_key_value().map(|first| first.0.0);
        let over = self.core.get_active_deadline();
        let wake = self.core.get_pending_deadline();
        let next = [first, over, wake].into_iter().flatten().min();
        let Some(next) = next.and_then(Moment::from_nanos) else {
            return Ok(false);
        };
        self.now = self.now.max(next);
        let event = if over == Some(next.nanoseconds) {
            Event::ActiveDue
        } else if wake == Some(next.nanoseconds) {
            Event::PendingDue
        } else {
            match self.coming.pop_first() {
                Some((_, event)) => event,
                None => return Ok(false),
            }
        };
        self.feed(event)?;
        Ok(true)
    }

    /// Feeds an event, and then the answer to each question of the scan that it begins. A scan asks at most six
    /// times for each key and peer.
    fn feed(&mut self, event: Happens) -> Result<()> {
        let now = self.now.nanoseconds;
        let mut input = Input::Happens(Happening { now, event });
        for _ in 0..6 * 50 * 3 {
            match self.step(input)? {
                Some(answer) => input = Input::Answers(answer),
                None => return Ok(()),
            }
        }
        Ok(())
    }

    /// Feeds one input, and does what comes of it. The answer to what is asked, if something is.
    fn step(&mut self, input: Input<Height, u8, u16, All>) -> Result<Option<Answer>> {
        let effects = self.core.step(input)?;
        let mut answer = None;
        for effect in effects {
            match effect {
                Effect::Ask(ask) => answer = Some(self.answer(ask)?),
                other => self.carry_out(other)?,
            }
        }
        Ok(answer)
    }

    /// Does what comes of an input, but for what a scan asks.
    fn carry_out(&mut self, effect: Effect<Height, u8, u16>) -> Result<()> {
        match effect {
            Effect::Deliver {
                number,
                delivery,
                value,
                ..
            } => self.judge(number, delivery.key, value),
            Effect::Block { peer, .. } => self.block(peer),
            _ => Ok(()),
        }
    }

    /// Judges what was handed out.
    fn judge(&mut self, number: u64, height: Height, value: Bytes) -> Result<()> {
        let is_right = value.as_slice() == block_of(height).as_slice();
        self.blocks = self.blocks.saturating_add(u64::from(is_right));
        let outcome = Some(Outcome::from(is_right));
        self.expect(0, Event::Verdict { number, outcome })
    }

    /// Blocks a peer. Each wrong response asks for that, so a peer may be blocked already.
    fn block(&mut self, peer: u8) -> Result<()> {
        if self.blocked.contains(&peer) {
            return Ok(());
        }
        self.blocked.push(peer)?;
        let all = self.blocked.clone()?;
        self.expect(0, Event::Blocked(all))
    }

    /// Answers a question: draws a number, looks at a peer, or sends a request, whose answer is on its way at once.
    fn answer(&mut self, ask: Ask<Height, u8>) -> Result<Answer> {
        Ok(match ask {
            Ask::Draw(bound) => Answer::Drawn(self.draws.below(bound.max(1))),
            Ask::Check(_) => Answer::Checked(Check::Clear),
            Ask::Request { peer, id, key, .. } => {
                let takes = if peer == SLOW { 150 * MS } else { 20 * MS };
                let bytes = answer_of(self.alloc, peer, id, key)?;
                self.expect(takes, Event::Net { peer, bytes })?;
                Answer::Sent(true)
            }
        })
    }
}

/// The block of a height: each byte of the number turned.
fn block_of(height: Height) -> [u8; 8] {
    (!u64::from(height)).to_be_bytes()
}

/// A peer's message that answers a request. The liar has each byte wrong.
fn answer_of(alloc: Global, peer: u8, id: u64, height: Height) -> Result<Bytes> {
    let block = match peer {
        LIAR => height.bytes,
        _ => block_of(height),
    };
    let payload = Payload::Response(Bytes::copy_from_slice(alloc, &block)?);
    let mut out = BytesMut::new(alloc);
    Message::<Height> { id, payload }.write(&mut out)?;
    Ok(out.freeze()?)
}

/// Wants each height of the three peers, goes on until nothing more comes, and prints how far it is.
fn show(rt: &impl Print, node: &mut Synchroniser) -> Result<()> {
    let peers = Vec::from_slice(node.alloc, &[1, LIAR, SLOW])?;
    node.expect(0, Event::PeerSet { index: 0, peers })?;
    let mut items = Vec::new(node.alloc);
    for height in 1..=50u64 {
        items.push(FetchKey::from_fetch(node.alloc, Fetch::from(Height::from(height)))?)?;
    }
    node.expect(0, Event::Fetch(items))?;
    let mut shown = 0;
    for _ in 0..10_000 {
        if !node.turn()? {
            break;
        }
        if node.blocks / 10 > shown {
            shown = node.blocks / 10;
            println!(rt;
                "{} blocks after {} ms",
                node.blocks,
                node.now.nanoseconds / MS
            )?;
        }
    }
    let counted = node.core.metrics();
    println!(rt;
        "{} right, {} failed",
        counted.fetch.success, counted.fetch.failure
    )?;
    println!(rt; "blocked: {:?}", node.blocked.as_slice())?;
    Ok(())
}

/// Opens a synchroniser, and shows it at work.
pub fn run(rt: &(impl AllocGlobal + Print)) -> Result<()> {
    let alloc = rt.alloc();
    let configuration = Config {
        me: None,
        fetch_timeout: 100 * MS,
        retry_delay: 10 * MS,
        peer_limit: NonZeroU32::new(4),
        priority_requests: false,
    };
    let mut node = Synchroniser {
        core: Core::new(alloc, configuration, false),
        draws: Seeded::new(7),
        now: Moment { nanoseconds: 0 },
        coming: BTreeMap::new(alloc),
        order: 0,
        blocked: Vec::new(alloc),
        blocks: 0,
        alloc,
    };
    show(rt, &mut node)
}
