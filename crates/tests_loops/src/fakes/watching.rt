//! A watcher of an engine that tells its test, in the same words as the fakes do.

use resolver::p2p::effects::Effect;
use resolver::p2p::fetcher::{Answer, Ask};
use resolver::p2p::inputs::{Event, Input};
use resolver_mailbox::mocks::Key;
use resolver_runtime::Watcher;
use tests_support::kinds::{EffectKind, InputKind};
use tests_support::names::Peer;
use tests_support::seen::{Seen, Told, tell};

/// Tells of each call.
#[derive(Drop)]
pub struct Watching {
    pub told: Told,
}

impl<Q> Watcher<Input<Key, Peer, u16, Q>, Effect<Key, Peer, u16>> for Watching {
    fn takes(&mut self, input: &Input<Key, Peer, u16, Q>) {
        let seen = match input {
            Input::Happens(happening) => Seen::Took(kind(&happening.event), Some(happening.now)),
            Input::Answers(Answer::Drawn(_)) => Seen::Took(InputKind::Drawn, None),
            Input::Answers(Answer::Checked(_)) => Seen::Took(InputKind::Checked, None),
            Input::Answers(Answer::Sent(_)) => Seen::Took(InputKind::Sent, None),
        };
        tell(&self.told, seen);
    }

    fn wants(&mut self, effect: &Effect<Key, Peer, u16>) {
        let kind = match effect {
            Effect::Ask(Ask::Draw(_)) => EffectKind::Draw,
            Effect::Ask(Ask::Check(_)) => EffectKind::Check,
            Effect::Ask(Ask::Request { .. }) => EffectKind::Request,
            Effect::Deliver { .. } => EffectKind::Deliver,
            Effect::Cancel { .. } => EffectKind::Cancel,
            Effect::Produce { .. } => EffectKind::Produce,
            Effect::Reply { .. } => EffectKind::Reply,
            Effect::Credit { .. } => EffectKind::Credit,
            Effect::Block { .. } => EffectKind::Block,
        };
        tell(&self.told, Seen::Wanted(kind));
    }
}

/// The event's kind.
fn kind<Q>(event: &Event<Key, Peer, u16, Q>) -> InputKind {
    match event {
        Event::Fetch(_) => InputKind::Fetch,
        Event::Retain(_) => InputKind::Retain,
        Event::PeerSet { .. } => InputKind::PeerSet,
        Event::Blocked(_) => InputKind::Blocked,
        Event::ActiveDue => InputKind::Timeout,
        Event::PendingDue => InputKind::Wake,
        Event::Verdict { .. } => InputKind::Verdict,
        Event::Served { .. } => InputKind::Served,
        Event::Net { .. } => InputKind::Net,
        Event::End => InputKind::End,
    }
}
