//! Runs of small swarms.

use log::sink::Memory;
use resolver_script::endings::Ending;
use resolver_script::replay::run;
use resolver_swarm::settings::Settings;
use resolver_swarm::swarm::Swarm;
use std::alloc::{AllocGlobal, Global};
use std::fmt::Write;
use std::io::BufReader;
use std::panic::Expect;
use std::process::Abort;

/// A few nodes that want a few keys.
fn small(seed: u64) -> Settings {
    Settings {
        nodes: 6,
        sources: 1,
        slow: 1,
        liars: 1,
        keys: 12,
        value: 8,
        seed,
        window: 4,
        ..Settings::usual()
    }
}

/// The same where much goes wrong: messages are lost and overtake one another, lines are narrow, requests are limited, and
/// nodes come and go.
fn hard(seed: u64) -> Settings {
    Settings {
        loss: 200,
        jitter: 200,
        timeout: 250,
        delay: 20,
        peer_limit: 1,
        bandwidth: 2000,
        gap: 30,
        churn: 400,
        ..small(seed)
    }
}

/// A run to its end.
fn ended(rt: &(impl Abort + AllocGlobal), settings: Settings) -> Swarm {
    let mut swarm = Swarm::new(rt.alloc(), settings).expect(rt, "memory");
    for _ in 0..1000 {
        if swarm.advance().expect(rt, "no refusal").is_none() {
            break;
        }
    }
    swarm
}

/// What is printed of a run.
fn printed(rt: &(impl Abort + AllocGlobal), settings: Settings) -> String {
    let swarm = ended(rt, settings);
    let report = swarm.report().expect(rt, "memory");
    let mut text = String::new(rt.alloc());
    writeln!(text, "{}\n{report}", swarm.progress()).expect(rt, "memory");
    text
}

/// That with these settings all nodes get all keys, and none is found wrong.
fn assert_synced(rt: &(impl Abort + AllocGlobal), settings: Settings) {
    let seed = settings.seed;
    let swarm = ended(rt, settings);
    if let Some((node, complaint)) = swarm.broken() {
        panic!(rt; "seed {seed}, node {node}: {complaint}");
    }
    let progress = swarm.progress();
    assert_eq!(rt;
        progress.held,
        progress.wanted,
        "seed {seed}: a node lacks a key"
    );
}

/// That all keys come at 25 seeds of hard settings from this one on.
fn assert_synced_from(rt: &(impl Abort + AllocGlobal), first: u64) {
    for seed in first..first.saturating_add(25) {
        assert_synced(rt, hard(seed));
    }
}

#[test]
fn all_keys_come_at_hard_settings_from_seed_0(rt: HostRuntime) {
    assert_synced_from(&rt, 0);
}

#[test]
fn all_keys_come_at_hard_settings_from_seed_25(rt: HostRuntime) {
    assert_synced_from(&rt, 25);
}

#[test]
fn all_keys_come_at_hard_settings_from_seed_50(rt: HostRuntime) {
    assert_synced_from(&rt, 50);
}

#[test]
fn all_keys_come_at_hard_settings_from_seed_75(rt: HostRuntime) {
    assert_synced_from(&rt, 75);
}

#[test]
fn a_seed_says_all(rt: HostRuntime) {
    let first = printed(&rt, hard(7));
    let again = printed(&rt, hard(7));
    let other = printed(&rt, hard(8));
    assert!(rt; first == again, "the same seed gives another run");
    assert!(rt; first != other, "another seed gives the same run");
}

/// What a script prints, and how it ends.
fn replayed(rt: &impl Abort, alloc: Global, script: &[u8]) -> (Vec<u8>, Ending) {
    let log = Memory::new(alloc);
    let mut taken = Vec::new(alloc);
    let mut input = BufReader::new(alloc, script).expect(rt, "memory");
    let ending = run(&log, alloc, &mut input, &mut taken).expect(rt, "no fault");
    (taken, ending)
}

// The last node is a fellow, which asks, serves, judges and blocks.
#[test]
fn the_script_of_a_node_replays(rt: HostRuntime) {
    let settings = Settings {
        recorded: Some(5),
        ..hard(3)
    };
    let swarm = ended(&rt, settings);
    let mut script = Vec::new(rt.alloc());
    let lines = swarm.script().unwrap_or("");
    script
        .extend_from_slice(lines.as_bytes())
        .expect(&rt, "memory");
    script.extend_from_slice(b"show\n").expect(&rt, "memory");
    let (taken, ending) = replayed(&rt, rt.alloc(), script.as_slice());
    assert_eq!(rt; ending.status(), 0, "a line can't be read");
    let text = std::str::from_utf8(taken.as_slice()).unwrap_or("");
    assert!(rt; !text.contains("refused "), "an input is refused");
    assert!(rt; text.contains("block "), "the liar is blocked");
    assert!(rt;
        text.ends_with("\nwake none\n"),
        "nothing is wanted any more"
    );
}
