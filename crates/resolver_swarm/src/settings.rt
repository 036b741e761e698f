//! What a run is made of.

ghost use Rattle.std.specs.Prelude.{◌≡◌, ◌*◌, ◌+◌, ◌<◌, ◌≤◌, ◌↔◌};
ghost use Rattle.resolver_swarm.specs.Having.{Lies};
ghost use Rattle.resolver_swarm.specs.declared.settings.Kind.TheVariants.{Source, Liar, Fellow};

use crate::words::{WORDS, Word};

/// What a node is to the others.
#[derive(Clone, Copy, Debug, PartialEq, Eq)]
pub enum Kind {
    /// It has all keys from the beginning.
    Source,
    /// It has all keys, and its messages take ten times as long.
    Slow,
    /// It answers each request with wrong bytes, and wants nothing.
    Liar,
    /// It wants all keys, has none at first, and serves those that came.
    Fellow,
}

/// The kinds, in the order in which tables have them.
pub const KINDS: [Kind; 4] = [Kind::Source, Kind::Slow, Kind::Fellow, Kind::Liar];

impl Kind {
    /// Its name, of several nodes.
    pub fn name(self) -> &'static str {
        match self {
            Kind::Source => "sources",
            Kind::Slow => "slow nodes",
            Kind::Fellow => "fellows",
            Kind::Liar => "liars",
        }
    }

    /// Whether such a node has all keys from the beginning.
    pub fn has_all(self) -> bool {
        matches!(self, Kind::Source | Kind::Slow)
    }
}

/// What a run is made of. From the same settings follows the same run.
#[derive(Clone, Copy, Debug, PartialEq, Eq)]
pub struct Settings {
    /// How many nodes there are, liars and sources included.
    pub nodes: u16,
    /// How many of them are sources, slow nodes and liars. The first nodes are sources, the next are slow, and the next
    /// are liars; all others are fellows.
    pub sources: u16,
    pub slow: u16,
    pub liars: u16,
    /// How many keys there are, and how many bytes the value of each has.
    pub keys: u16,
    pub value: u16,
    /// What is drawn follows from this.
    pub seed: u64,
    /// How many keys a node wants at once.
    pub window: u16,
    /// How long a request may take, in milliseconds: at least 1.
    pub timeout: u32,
    /// How long a key waits before it is tried again, in milliseconds.
    pub delay: u32,
    /// How many requests one peer may have without an answer; with 0 it may have any number.
    pub peer_limit: u32,
    /// How long a message is under way, in milliseconds.
    pub latency: u32,
    /// Up to how much longer it may be under way, in milliseconds.
    pub jitter: u32,
    /// How many bytes a node sends in a second; with 0 it may send any number.
    pub bandwidth: u32,
    /// How many of a thousand messages are lost.
    pub loss: u16,
    /// How long a node sends one peer no further request after a request, in milliseconds.
    pub gap: u32,
    /// Each so many milliseconds a node leaves, and comes back after as long; with 0 none does.
    pub churn: u32,
    /// When the run is over at the latest, in milliseconds.
    pub until: u32,
    /// The node whose script is to be written, if one is.
    pub recorded: Option<u16>,
}

/// Nanoseconds in a millisecond.
pub const MS: u128 = 1_000_000;

/// So many milliseconds, in nanoseconds.
pub fn nanos(milliseconds: u32) -> u128
    ensures { result ≡ milliseconds * 1000000 }
{
    u128::from(milliseconds) * MS
}

/// Nothing at all.
const NOTHING: Settings = Settings {
    nodes: 0,
    sources: 0,
    slow: 0,
    liars: 0,
    keys: 0,
    value: 0,
    seed: 0,
    window: 0,
    timeout: 1,
    delay: 0,
    peer_limit: 0,
    latency: 0,
    jitter: 0,
    bandwidth: 0,
    loss: 0,
    gap: 0,
    churn: 0,
    until: 0,
    recorded: None,
};

impl Settings {
    /// The settings that hold where nothing else is said.
    pub fn usual() -> Settings {
        let mut settings = NOTHING;
        for word in WORDS {
            settings.set(word, word.usual);
        }
        settings
    }

    /// Sets what a word says. A number past the word's bounds counts as the nearest bound.
    pub fn set(&mut self, word: &Word, number: u64) {
        let number = number.max(word.least).min(word.most);
        let short = u16::try_from(number).unwrap_or(u16::MAX);
        let long = u32::try_from(number).unwrap_or(u32::MAX);
        match word.name {
            "nodes" => self.nodes = short,
            "sources" => self.sources = short,
            "slow" => self.slow = short,
            "liars" => self.liars = short,
            "keys" => self.keys = short,
            "value" => self.value = short,
            "seed" => self.seed = number,
            "window" => self.window = short,
            "timeout" => self.timeout = long,
            "delay" => self.delay = long,
            "peer-limit" => self.peer_limit = long,
            "latency" => self.latency = long,
            "jitter" => self.jitter = long,
            "bandwidth" => self.bandwidth = long,
            "loss" => self.loss = short,
            "gap" => self.gap = long,
            "churn" => self.churn = long,
            "until" => self.until = long,
            _ => {}
        }
    }

    /// How many nodes are fellows.
    pub fn fellows(&self) -> u16 {
        self.nodes
            .saturating_sub(self.sources)
            .saturating_sub(self.slow)
            .saturating_sub(self.liars)
    }

    /// What the node of this name is.
    pub fn kind(&self, name: u16) -> Kind
        ensures source { (result ≡ Source) ↔ (name < self.now.sources) }
        ensures liar { (result ≡ Liar) ↔ Lies self.now name }
        ensures fellow { (result ≡ Fellow)
            ↔ (self.now.sources + self.now.slow + self.now.liars ≤ name) }
    {
        let place = u32::from(name);
        let sources = u32::from(self.sources);
        let slow = sources + u32::from(self.slow);
        let liars = slow + u32::from(self.liars);
        if place < sources {
            Kind::Source
        } else if place < slow {
            Kind::Slow
        } else if place < liars {
            Kind::Liar
        } else {
            Kind::Fellow
        }
    }
}
