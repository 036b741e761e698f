//! What a node does of what its core tells.

ghost use Rattle.std.specs.Prelude.{◌≡◌, OnOk};
ghost use Rattle.std.specs.List.{Contains};
ghost use Rattle.resolver_swarm.specs.Having.{Lies};
ghost use Rattle.resolver_swarm.specs.Judging.{ComplainsUnless};

use crate::height::Height;
use crate::judging::complaint::Complaint;
use crate::nodes::node::{Node, Takes};
use crate::settings::{Kind, nanos};
use crate::world::World;
use bytes::{Bytes, BytesMut};
use resolver_base::Fault;
use resolver_core::Outcome;
use resolver_core::base::{Check, Draws};
use resolver_core::p2p::effects::Effect;
use resolver_core::p2p::fetcher::{Answer, Ask};
use resolver_core::p2p::inputs::Event;
use resolver_core::p2p::wire::{Message, Payload};
use std::alloc::{AllocError, Global};

impl Node {
    /// Feeds one input, and does what comes of it. The answer to what is asked, if something is.
    pub(crate) fn step(
        &mut self,
        world: &mut World,
        input: Takes,
    ) -> Result<Option<Answer>, Fault> {
        let effects = self.core.step(input)?;
        let mut answer = None;
        for effect in effects {
            self.judge.note_effect(&effect)?;
            match effect {
                Effect::Ask(ask) => answer = Some(self.answer(world, ask)?),
                other => self.carry_out(world, other)?,
            }
        }
        Ok(answer)
    }

    /// Does what comes of an input, but for what a scan asks.
    fn carry_out(
        &mut self,
        world: &mut World,
        effect: Effect<Height, u16, u16>,
    ) -> Result<(), Fault> {
        match effect {
            Effect::Deliver {
                number,
                delivery,
                value,
                ..
            } => self.rule(world, number, delivery.key, value.as_slice()),
            Effect::Produce { serve, key } => self.produce(world, serve, key),
            Effect::Reply { peer, bytes, .. } => {
                world.send(self.name, peer, bytes)?;
                Ok(())
            }
            Effect::Credit { source, .. } => {
                let kind = world.settings.kind(source.peer);
                world.counts.note_credit(kind);
                Ok(())
            }
            Effect::Block { peer, .. } => self.block(world, peer),
            Effect::Ask(_) | Effect::Cancel { .. } => Ok(()),
        }
    }

    /// Judges what was handed out, and keeps what is right.
    fn rule(
        &mut self,
        world: &mut World,
        number: u64,
        key: Height,
        value: &[u8],
    ) -> Result<(), Fault> {
        let is_right = world.shelf.is_right(key, value);
        if is_right {
            self.keep(world, key, value.len());
        }
        let outcome = Some(Outcome::from(is_right));
        world.soon(self.name, Event::Verdict { number, outcome })?;
        Ok(())
    }

    /// It has this key from now on, and wants it no more.
    fn keep(&mut self, world: &mut World, key: Height, bytes: usize) {
        self.plan.forget(&[key]);
        let Some(held) = self.held.get_mut(usize::from(key.number())) else {
            return;
        };
        if *held {
            return;
        }
        *held = true;
        self.count = self.count.saturating_add(1);
        world.counts.note_right(bytes);
        if self.count == world.settings.keys {
            self.synced = Some(world.now);
        }
    }

    /// What it has for a key, if it has something.
    fn value(&self, world: &World, key: Height) -> Result<Option<Bytes>, AllocError> {
        let value = match self.kind {
            Kind::Liar => world.shelf.wrong(key),
            _ if self.has(key) => world.shelf.right(key),
            _ => None,
        };
        match value {
            Some(value) => Ok(Some(value.clone()?)),
            None => Ok(None),
        }
    }

    /// A peer asks for a key.
    fn produce(&mut self, world: &mut World, serve: u64, key: Height) -> Result<(), Fault> {
        let value = self.value(world, key)?;
        if let Some(value) = &value {
            world.counts.note_value(value.len());
        }
        world.soon(self.name, Event::Served { serve, value })?;
        Ok(())
    }

    /// Blocks a peer, which is to be a liar. Each wrong response asks for that, so a peer may be blocked already.
    fn block(&mut self, world: &mut World, peer: u16) -> Result<(), Fault>
        ensures judged { ComplainsUnless
            self.old.judge.complaint self.new.judge.complaint
            (Lies world.old.settings peer) }
        ensures found { self.new.judge
            ≡ record self.old.judge { complaint = self.new.judge.complaint } }
        ensures blocked { OnOk result (Contains self.new.blocked.items peer) }
    {
        let is_liar = world.settings.kind(peer) == Kind::Liar;
        self.judge.expect(is_liar, Complaint::Blocked);
        if self.blocked.contains(&peer) {
            return Ok(());
        }
        self.blocked.push(peer)?;
        world.counts.note_blocking(self.count)?;
        let all = self.blocked.clone()?;
        world.soon(self.name, Event::Blocked(all))?;
        Ok(())
    }

    /// Answers a question: draws a number, looks at a peer, or sends a request.
    fn answer(&mut self, world: &mut World, ask: Ask<Height, u16>) -> Result<Answer, Fault> {
        Ok(match ask {
            Ask::Draw(bound) => Answer::Drawn(self.draws.below(bound.max(1))),
            Ask::Check(peer) => {
                let check = self.check(world, peer);
                self.judge.note_check(peer, check);
                Answer::Checked(check)
            }
            Ask::Request { peer, id, key, .. } => {
                let is_accepted = world.network.is_present(self.name);
                self.judge.note_request(key, peer, id, is_accepted)?;
                if is_accepted {
                    self.request(world, peer, id, key)?;
                }
                Answer::Sent(is_accepted)
            }
        })
    }

    /// Whether a peer may be sent a request now.
    fn check(&self, world: &World, peer: u16) -> Check {
        match self.limits.get(&peer) {
            Some(until) if *until > world.now.nanoseconds => Check::Until(*until),
            _ => Check::Clear,
        }
    }

    /// Sends a peer a request. The next one has to wait.
    fn request(&mut self, world: &mut World, peer: u16, id: u64, key: Height) -> Result<(), Fault> {
        let bytes = request(world.alloc, id, key)?;
        world.send(self.name, peer, bytes)?;
        world.counts.note_request();
        if world.settings.gap > 0 {
            let until = world.later(nanos(world.settings.gap));
            self.limits.insert(peer, until.nanoseconds)?;
        }
        Ok(())
    }
}

/// A message that asks for a key.
fn request(alloc: Global, id: u64, key: Height) -> Result<Bytes, Fault> {
    let payload = Payload::Request(key);
    let mut out = BytesMut::new(alloc);
    Message { id, payload }.write(&mut out)?;
    Ok(out.freeze()?)
}
