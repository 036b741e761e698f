//! A node of the swarm.

ghost use Rattle.std.specs.Prelude.{◌≡◌, ◌↔◌, IsTrue, false};
ghost use Rattle.resolver_swarm.specs.Having.{Has, IsServed, Lacks};
ghost use Rattle.resolver_swarm.specs.Height.{number_of};

use crate::height::Height;
use crate::judging::judge::Judge;
use crate::script::Script;
use crate::settings::{Kind, Settings, nanos};
use crate::world::{Coming, Happens, World};
use resolver_backfill::{Plan, Without};
use resolver_base::{Fault, Moment, Seeded};
use resolver_core::ingress::FetchKey;
use resolver_core::p2p::Core;
use resolver_core::p2p::fetcher::{Answer, Config};
use resolver_core::p2p::inputs::{Event, Happening, Input};
use std::alloc::{AllocError, Global};
use std::collections::{BTreeMap, BTreeSet};
use std::num::NonZeroU32;

/// A node's core takes this.
pub type Takes = Input<Height, u16, u16, Without<Height, u16>>;

/// A node: its core, what it has, and who judges it.
#[derive(Drop)]
pub struct Node {
    pub name: u16,
    pub kind: Kind,
    pub(crate) core: Core<Height, u16, u16, Without<Height, u16>>,
    pub(crate) draws: Seeded,
    pub(crate) plan: Plan<Height, u16>,
    /// How many keys it has wanted so far.
    started: u16,
    /// Which keys it has, and how many.
    pub(crate) held: Vec<bool>,
    pub count: u16,
    /// When it had all keys, if it has.
    pub synced: Option<Moment>,
    pub(crate) blocked: Vec<u16>,
    /// From when on each peer may be sent a request again, in nanoseconds.
    pub(crate) limits: BTreeMap<u16, u128>,
    /// The moment for which it had itself woken last, unless it was woken since.
    wake: Option<Moment>,
    /// When it will be woken: at each of these moments once.
    wakes: BTreeSet<Moment>,
    pub judge: Judge,
    pub script: Option<Script>,
}

impl Node {
    /// A node of this name, which wants nothing yet and knows nobody.
    pub fn new(alloc: Global, name: u16, settings: &Settings) -> Result<Node, Fault> {
        let kind = settings.kind(name);
        let configuration = Config {
            me: Some(name),
            fetch_timeout: nanos(settings.timeout.max(1)),
            retry_delay: nanos(settings.delay),
            peer_limit: NonZeroU32::new(settings.peer_limit),
            priority_requests: false,
        };
        let mut held = Vec::new(alloc);
        for _ in 0..settings.keys {
            held.push(kind.has_all())?;
        }
        let script = if settings.recorded == Some(name) {
            Some(Script::new(alloc, name, settings)?)
        } else {
            None
        };
        Ok(Node {
            name,
            kind,
            core: Core::new(alloc, configuration, false),
            draws: Seeded::new(settings.seed.wrapping_add(1).wrapping_add(u64::from(name))),
            plan: Plan::new(alloc, 0, 0),
            started: 0,
            held,
            count: 0,
            synced: None,
            blocked: Vec::new(alloc),
            limits: BTreeMap::new(alloc),
            wake: None,
            wakes: BTreeSet::new(alloc),
            judge: Judge::new(alloc, name, settings),
            script,
        })
    }

    /// Whether it has a key.
    pub fn has(&self, key: Height) -> bool
        ensures { IsTrue result ↔ Has (number_of key) self.now }
    {
        self.held
            .get(usize::from(key.number()))
            .copied()
            .unwrap_or(false)
    }

    /// Whether it is a fellow and hasn't a key.
    pub fn lacks(&self, key: Height) -> bool
        ensures lacking { IsTrue result ↔ Lacks (number_of key) self.now }
        ensures served { (result ≡ false) ↔ IsServed (number_of key) self.now }
    {
        self.kind == Kind::Fellow && !self.has(key)
    }

    /// Takes an event, wants more where there is room for it, and then takes all that is due.
    pub fn take(&mut self, world: &mut World, event: Happens) -> Result<(), Fault> {
        self.feed(world, event)?;
        self.fill(world)?;
        self.feed_due(world)?;
        self.wait(world)
    }

    /// It was to be woken at this moment.
    pub fn wake(&mut self, world: &mut World) -> Result<(), Fault> {
        self.wake = None;
        self.wakes.remove(&world.now);
        self.feed_due(world)?;
        self.wait(world)
    }

    /// Feeds an event, and then the answer to each question of the scan that it begins. A scan asks at most six times
    /// for each key and peer.
    fn feed(&mut self, world: &mut World, event: Happens) -> Result<(), Fault> {
        let now = world.now.nanoseconds;
        self.note_event(now, &event)?;
        let mut input = Input::Happens(Happening { now, event });
        for _ in 0..most_questions(&world.settings) {
            match self.step(world, input)? {
                Some(answer) => input = self.answered(answer)?,
                None => break,
            }
        }
        self.judge.note_phases(self.core.phases());
        self.compare_touched()?;
        if self.script.is_some() || self.judge.wants_rows() {
            self.compare_rows()?;
        }
        Ok(())
    }

    /// Has the rows compared that the last event may have changed.
    fn compare_touched(&mut self) -> Result<(), Fault> {
        for place in 0..self.judge.touched.len() {
            if let Some(key) = self.judge.touched.get(place).copied() {
                let row = self.core.row(&key)?;
                self.judge.note_row(key, row.as_ref());
            }
        }
        Ok(())
    }

    /// Has all rows compared.
    pub fn compare_rows(&mut self) -> Result<(), Fault> {
        let rows = self.core.rows()?;
        self.judge.note_rows(rows.as_slice());
        Ok(())
    }

    /// Has an event judged and written down.
    fn note_event(&mut self, now: u128, event: &Happens) -> Result<(), AllocError> {
        self.judge.take(now, event)?;
        match &mut self.script {
            Some(script) => script.note_event(now, event),
            None => Ok(()),
        }
    }

    /// The input that an answer is, which is written down.
    fn answered(&mut self, answer: Answer) -> Result<Takes, AllocError> {
        if let Some(script) = &mut self.script {
            script.note_answer(answer)?;
        }
        Ok(Input::Answers(answer))
    }

    /// The keys that are to be wanted next, as many as there is room for. Each node begins at a place of its own.
    fn next_keys(&mut self, alloc: Global, settings: &Settings) -> Result<Vec<Height>, AllocError> {
        let mut keys = Vec::new(alloc);
        let room = usize::from(settings.window).saturating_sub(self.plan.wanted().len());
        let first = first_place(self.name, settings);
        for _ in 0..room {
            if self.started >= settings.keys {
                break;
            }
            let place = first.saturating_add(u64::from(self.started))
                % u64::from(settings.keys.max(1));
            keys.push(Height::of(u16::try_from(place).unwrap_or(0)))?;
            self.started = self.started.saturating_add(1);
        }
        Ok(keys)
    }

    /// Wants more keys, where it wants all and there is room in its window.
    fn fill(&mut self, world: &mut World) -> Result<(), Fault> {
        if self.kind != Kind::Fellow {
            return Ok(());
        }
        let keys = self.next_keys(world.alloc, &world.settings)?;
        let mut items = Vec::new(world.alloc);
        for fetch in self.plan.want(keys.as_slice())? {
            items.push(FetchKey::from_fetch(world.alloc, fetch)?)?;
        }
        if items.is_empty() {
            return Ok(());
        }
        self.feed(world, Event::Fetch(items))
    }

    /// What is due at this moment, if something is.
    fn due(&self, now: u128) -> Option<Happens> {
        let is_due = |deadline: Option<u128>| deadline.is_some_and(|deadline| deadline <= now);
        if is_due(self.core.get_active_deadline()) {
            return Some(Event::ActiveDue);
        }
        if is_due(self.core.get_pending_deadline()) {
            return Some(Event::PendingDue);
        }
        None
    }

    /// Feeds all that is due at this moment. Each request is over once, and each key is looked at once.
    fn feed_due(&mut self, world: &mut World) -> Result<(), Fault> {
        let most = 8 + 8 * u32::from(world.settings.window);
        for _ in 0..most {
            let Some(event) = self.due(world.now.nanoseconds) else {
                break;
            };
            if let Event::ActiveDue = event {
                world.counts.note_timeout();
            }
            self.feed(world, event)?;
        }
        Ok(())
    }

    /// Has itself woken when something is due next, unless it will be woken before.
    fn wait(&mut self, world: &mut World) -> Result<(), Fault> {
        let active = self.core.get_active_deadline();
        let pending = self.core.get_pending_deadline();
        self.judge.note_waits(active, pending);
        let next = [active, pending].into_iter().flatten().min();
        let Some(next) = next.and_then(Moment::from_nanos) else {
            return Ok(());
        };
        if self.wake.is_some_and(|wake| wake <= next) {
            return Ok(());
        }
        self.wake = Some(next);
        if self.wakes.insert(next)? {
            world.agenda.put(next, Coming::Wake { node: self.name })?;
        }
        Ok(())
    }
}

/// More questions than a scan asks: six for each key of a window and each peer.
fn most_questions(settings: &Settings) -> u64 {
    let keys = u64::from(settings.window) + 1;
    let peers = u64::from(settings.nodes) + 1;
    keys.saturating_mul(peers).saturating_mul(6)
}

/// The place of the key that a node wants first: a share of all keys from that of the node before it.
fn first_place(name: u16, settings: &Settings) -> u64 {
    u64::from(name).saturating_mul(u64::from(settings.keys)) / u64::from(settings.nodes.max(1))
}
