//! What notes a run while its script is fed.

use crate::cause::Cause;
use crate::states::{of_peers, of_source};
use bytes::Bytes;
use resolver_actor::opaque;
use resolver_core::p2p::effects::Effect;
use resolver_core::p2p::fetcher::Ask;
use resolver_mailbox::mocks::Key;
use resolver_script::endings::Fault;
use resolver_script::machine::{Machine, Turn};
use resolver_script::peer::Peer;
use resolver_script::replay::Commanded;
use resolver_script::script::{Command, Why};
use resolver_script::session::Session;
use resolver_timeline::at::At;
use resolver_timeline::lane::{Phase, State};
use resolver_timeline::mark::What;
use resolver_timeline::run::{Kind, Run};
use std::alloc::{AllocError, Global};
use std::collections::BTreeMap;
use std::io::Write;

/// What an engine wants done.
type Wanted = Effect<Key, Peer, u16>;

/// A script that is fed, and what happened so far.
#[derive(Drop)]
pub struct Recorder {
    alloc: Global,
    session: Session,
    pub run: Run,
    /// Where the last event came.
    at: At,
    /// How long a request may take, and how long a key then waits, in nanoseconds.
    timeout: u128,
    delay: u128,
    /// The index of the latest set of peers.
    index: Option<u64>,
    /// The peer that the open scan has checked.
    checked: Option<u8>,
    /// The key of each response.
    keys: BTreeMap<u64, u8>,
}

impl Commanded for Recorder {
    fn command<W: Write>(&mut self, command: Command, _: &mut W) -> Result<Option<Why>, Fault> {
        let cause = Cause::of(&command)?;
        let turn = self.session.take(command)?;
        let why = turn.why();
        self.at.line = self.at.line.saturating_add(1);
        self.note(&cause, &turn)?;
        Ok(why)
    }
}

impl Recorder {
    /// A recorder of a script of which nothing was fed so far.
    pub fn new(alloc: Global) -> Recorder {
        Recorder {
            alloc,
            session: Session::new(alloc),
            run: Run::new(alloc),
            at: At::START,
            timeout: 0,
            delay: 0,
            index: None,
            checked: None,
            keys: BTreeMap::new(alloc),
        }
    }

    /// What happened, up to the end of the script.
    pub fn finish(self) -> Result<Run, AllocError> {
        let moment = self.session.now();
        let line = self.at.line.saturating_add(1);
        let mut run = self.run;
        run.close(At { moment, line })?;
        Ok(run)
    }

    /// Notes what came of a command.
    fn note(&mut self, cause: &Cause, turn: &Turn) -> Result<(), Fault> {
        match turn {
            Turn::Quiet => self.note_opened(cause),
            Turn::Show | Turn::Wrong(_) => {}
            Turn::Opaque(effects) => self.note_source(cause, effects.as_slice())?,
            Turn::Peers(effects) => self.note_engine(cause, effects.as_slice())?,
            Turn::Refused(_) => {
                let moment = self.session.now();
                self.run.mark(At { moment, ..self.at }, What::Refused)?;
            }
        }
        Ok(())
    }

    /// The machine took something. An answer has the moment at which its scan began.
    fn reach(&mut self, cause: &Cause) {
        if !cause.is_answer() {
            self.at.moment = self.session.now();
        }
        self.run.reach(self.at);
    }

    /// Notes which machine was opened, if one was.
    fn note_opened(&mut self, cause: &Cause) {
        match cause {
            Cause::Source => self.run.kind = Kind::Opaque,
            Cause::Engine(timing) => {
                self.timeout = timing.timeout;
                self.delay = timing.delay;
                let limit = timing.limit.map(|limit| limit.get());
                self.run.kind = Kind::Peers {
                    me: timing.me,
                    limit,
                };
            }
            _ => {}
        }
    }

    /// Notes a step of the actor.
    fn note_source(
        &mut self,
        cause: &Cause,
        effects: &[opaque::Effect<Key, Bytes, u16>],
    ) -> Result<(), Fault> {
        self.reach(cause);
        for effect in effects {
            if let opaque::Effect::Deliver { delivery, .. } = effect {
                let lane = self.run.lane(delivery.key.0)?;
                lane.mark(self.at, What::Delivered)?;
            }
        }
        let Some(Machine::Opaque(actor)) = self.session.machine() else {
            return Ok(());
        };
        let states = of_source(self.alloc, actor)?;
        self.note_states(cause, states.as_slice())?;
        Ok(())
    }

    /// Notes a step of the engine.
    fn note_engine(&mut self, cause: &Cause, effects: &[Wanted]) -> Result<(), Fault> {
        self.reach(cause);
        self.note_peers(cause)?;
        self.checked = None;
        for effect in effects {
            self.note_effect(effect)?;
        }
        let is_scanning = matches!(effects.last(), Some(Effect::Ask(_)));
        let Some(Machine::Peers(engine)) = self.session.machine() else {
            return Ok(());
        };
        let states = of_peers(self.alloc, engine, self.at.moment, is_scanning)?;
        self.note_states(cause, states.as_slice())?;
        self.run.note_loads(self.at, states.as_slice())?;
        Ok(())
    }

    /// Notes who is known and blocked from here on, and who may not be sent to.
    fn note_peers(&mut self, cause: &Cause) -> Result<(), AllocError> {
        match cause {
            Cause::Set(index, peers) => {
                if self.index.is_none_or(|last| last < *index) {
                    self.index = Some(*index);
                    self.run.reconcile(peers.as_slice())?;
                }
            }
            Cause::Blocked(peers) => self.run.block(peers.as_slice())?,
            Cause::Postponed => {
                if let Some(peer) = self.checked {
                    self.run.peer(peer)?.mark(self.at, What::Postponed)?;
                }
            }
            _ => {}
        }
        Ok(())
    }

    /// Notes what an engine wants done.
    fn note_effect(&mut self, effect: &Wanted) -> Result<(), AllocError> {
        match effect {
            Effect::Ask(Ask::Check(peer)) => self.checked = Some(peer.0),
            Effect::Deliver {
                response,
                delivery,
                ..
            } => {
                let key = delivery.key.0;
                self.keys.insert(*response, key)?;
                self.run.lane(key)?.mark(self.at, What::Delivered)?;
            }
            Effect::Credit { response, source } => {
                let peer = source.peer.0;
                self.note_earned(*response, peer, What::Credited)?;
                self.run.peer(peer)?.observe(source.elapsed, source.bytes);
            }
            Effect::Block { response, peer } => {
                self.note_earned(*response, peer.0, What::Blocked)?;
            }
            _ => {}
        }
        Ok(())
    }

    /// Notes what a response earned its peer, at the peer and at the key.
    fn note_earned(&mut self, response: u64, peer: u8, what: What) -> Result<(), AllocError> {
        self.run.peer(peer)?.mark(self.at, what)?;
        match self.keys.get(&response) {
            Some(key) => self.run.lane(*key)?.mark(self.at, what),
            None => Ok(()),
        }
    }

    /// Notes what is done for each key that is wanted, and which ones are wanted no more.
    fn note_states(&mut self, cause: &Cause, states: &[State]) -> Result<(), AllocError> {
        for state in states {
            self.charge(cause, *state)?;
            self.run.lane(state.key)?.take(self.at, state.phase)?;
        }
        let is_resolved = matches!(cause, Cause::Resolved);
        for lane in self.run.lanes.values_mut() {
            lane.leave(self.at, is_resolved)?;
        }
        Ok(())
    }

    /// Charges a peer that was asked for a key in vain: it took all its time, or until it said that it has no data, and
    /// the delay.
    fn charge(&mut self, cause: &Cause, state: State) -> Result<(), AllocError> {
        let lane = self.run.lane(state.key)?;
        let (
            Some(
                Phase::Asked {
                    peer: Some(peer),
                    ..
                },
            ),
            Some(since),
        ) = (lane.now(), lane.since())
        else {
            return Ok(());
        };
        if !state.phase.waits() {
            return Ok(());
        }
        let took = match cause {
            Cause::Timeout => self.timeout,
            Cause::Message => self.at.moment.saturating_sub(since.moment),
            _ => return Ok(()),
        };
        let charged = took.saturating_add(self.delay);
        self.run.peer(peer)?.observe(charged, 0);
        Ok(())
    }
}
