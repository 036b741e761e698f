//! What is done to three engines over one network, as draws say.

use crate::chaos::model::Model;
use crate::fakes::acts::Act;
use crate::pair::{Acts, Play};
use crate::twin::{Hands, message};
use bytes::Bytes;
use resolver::base::{Draws, Seeded};
use resolver::{Outcome, Resolution};
use std::alloc::Global;
use std::io::Print;
use std::panic::Expect;
use std::process::Abort;

/// How many things are done before the world is made good.
const ACTS: u64 = 400;

/// More messages, serves and deliveries than wait at once.
pub const WAITING: u64 = 10_000;

/// How many keys there are.
const KEYS: u128 = 8;

/// Sets of peers, which are called 1, 2 and 3. Nobody else answers.
const PEERS: &[&[u8]] = &[
    &[1, 2, 3],
    &[3, 2, 1, 7],
    &[1, 2, 3, 7],
    &[2, 3],
    &[1, 3],
    &[1, 2],
    &[7, 8],
    &[],
];

/// Blocked peers.
const BLOCKED: &[&[u8]] = &[&[], &[], &[], &[1], &[2], &[3], &[1, 3, 7], &[1, 2, 3]];

/// What a consumer says.
const OUTCOMES: &[Outcome] = &[
    Outcome::Resolved(Resolution::Complete),
    Outcome::Resolved(Resolution::Complete),
    Outcome::Resolved(Resolution::Partial),
    Outcome::Unresolved,
    Outcome::Invalid,
    Outcome::Ignored,
];

/// What stands behind the id of a message: a response, an error, and bytes that are no message.
const ANSWERS: &[&[u8]] = &[
    b"\x01\x02hi",
    b"\x01\x02hi",
    b"\x01\x02hi",
    b"\x01\x02hi",
    b"\x01\x02hi",
    b"\x01\0",
    b"\x02",
    b"\x01\x02hi!",
    b"\x01\x03hi",
    b"\x01\x82\0hi",
    b"\x02\0",
    b"\x03\x05",
    b"\0",
    b"",
];

/// A message on its way from one peer to another.
#[derive(Drop)]
pub struct Sent {
    pub from: u8,
    pub to: u8,
    pub bytes: Bytes,
}

/// How far a run has come.
#[derive(Drop)]
pub struct Course {
    pub alloc: Global,
    draws: Seeded,
    /// The index of the last peer set.
    pub index: u64,
    /// The messages that haven't arrived.
    pub network: Vec<Sent>,
}

impl Course {
    /// A run that follows from a seed.
    pub fn new(alloc: Global, seed: u64) -> Course {
        Course {
            alloc,
            draws: Seeded::new(seed),
            index: 0,
            network: Vec::new(alloc),
        }
    }

    /// A number below this one, or 0 where it is 0.
    fn draw(&mut self, bound: u128) -> u128 {
        if bound == 0 {
            return 0;
        }
        self.draws.below(bound)
    }

    /// The place of one of so many things.
    fn place(&mut self, count: usize) -> usize {
        let drawn = self.draw(count as u128);
        usize::try_from(drawn).unwrap_or(0)
    }

    /// One of these, or none where there are none.
    fn pick<T: Copy>(&mut self, list: &[T]) -> Option<T> {
        let place = self.place(list.len());
        list.get(place).copied()
    }

    fn key(&mut self) -> u8 {
        u8::try_from(self.draw(KEYS)).unwrap_or(0)
    }

    fn subscriber(&mut self) -> u16 {
        if self.draw(2) == 0 { 10 } else { 11 }
    }

    fn fetch(&mut self, rt: &(impl Abort + Print), pair: &mut impl Acts) {
        let wants = (self.key(), self.subscriber());
        pair.act(rt, Act::Fetch(&[wants]));
    }

    fn fetch_from(&mut self, rt: &(impl Abort + Print), pair: &mut impl Acts) {
        let peer = self.pick(&[1, 2, 3, 7]).unwrap_or(1);
        let wants = (self.key(), peer);
        pair.act(rt, Act::FetchFrom(&[wants]));
    }

    fn retain(&mut self, rt: &(impl Abort + Print), pair: &mut impl Acts) {
        let below = self.pick(&[10, 11, 11, 11, 12]).unwrap_or(12);
        pair.act(rt, Act::Retain(below));
    }

    /// A peer set, of the next index or of the last one.
    fn set_peers(&mut self, rt: &(impl Abort + Print), pair: &mut impl Acts) {
        if self.draw(4) > 0 {
            self.index = self.index.saturating_add(1);
        }
        let peers = self.pick(PEERS).unwrap_or(&[]);
        pair.act(rt, Act::Peers(self.index, peers));
    }

    fn block(&mut self, rt: &(impl Abort + Print), pair: &mut impl Acts) {
        let peers = self.pick(BLOCKED).unwrap_or(&[]);
        pair.act(rt, Act::Block(peers));
    }

    /// The consumer says something of a delivery, drops it, or asks whether that is wanted.
    fn judge(&mut self, rt: &(impl Abort + Print), pair: &mut impl Acts) {
        match self.draw(8) {
            0 => pair.act(rt, Act::Drop),
            1 | 2 => pair.act(rt, Act::IsWanted),
            _ => {
                let outcome = self.pick(OUTCOMES).unwrap_or(Outcome::Ignored);
                pair.act(rt, Act::Judge(outcome));
            }
        }
    }

    fn serve(&mut self, rt: &(impl Abort + Print), pair: &mut impl Acts) {
        match self.draw(4) {
            0 => pair.act(rt, Act::DropServe),
            1 => pair.act(rt, Act::Serve(b"")),
            _ => pair.act(rt, Act::Serve(b"data")),
        }
    }

    /// Time goes by: little, or as much as a request may take and more.
    fn jump(&mut self, rt: &(impl Abort + Print), pair: &mut impl Acts) {
        let most = if self.draw(4) == 0 { 80 } else { 12 };
        let step = u64::try_from(self.draw(most)).unwrap_or(0);
        let now = pair.hands().now.saturating_add(step);
        pair.act(rt, Act::At(now));
    }

    /// A peer answers a request of this engine rightly or wrongly, under its id or another one, or another peer does.
    fn answer(&mut self, rt: &(impl Abort + Print), pair: &mut impl Acts) {
        let Some((id, peer)) = self.pick(asked_of(rt, self.alloc, pair).as_slice()) else {
            return;
        };
        let id = id.wrapping_add(u64::from(self.draw(6) == 0));
        let peer = if self.draw(6) == 0 { 3 } else { peer };
        let rest = self.pick(ANSWERS).unwrap_or(b"");
        let bytes = message(rt, self.alloc, id, rest);
        let length = if self.draw(8) == 0 {
            self.place(bytes.len())
        } else {
            bytes.len()
        };
        let bytes = bytes.as_slice().get(..length).unwrap_or(b"");
        pair.act(rt, Act::Net(peer, bytes));
    }

    /// One of the messages arrives, and may arrive once more.
    fn arrive<A: Acts>(&mut self, rt: &(impl Abort + Print), pairs: &mut [A]) {
        let count = self.network.len();
        let place = self.place(count);
        if place >= self.network.len() {
            return;
        }
        let sent = self.network.swap_remove(place);
        hand_over(rt, pairs, &sent);
        if self.draw(8) == 0 {
            self.network.push(sent).expect(rt, "memory");
        }
    }

    /// What an engine has sent is on its way.
    fn collect(&mut self, rt: &impl Abort, hands: &mut Hands) {
        let from = hands.setting.me;
        for _ in 0..WAITING {
            let Some((peer, bytes)) = hands.sent.pop_front() else {
                return;
            };
            let to = peer.0;
            let sent = Sent { from, to, bytes };
            self.network.push(sent).expect(rt, "memory");
        }
    }

    /// Something is done to one of the engines, or a message arrives.
    fn step<A: Acts>(&mut self, rt: &(impl Abort + Print), pairs: &mut [A]) {
        let kind = self.draw(32);
        if kind < 9 {
            self.arrive(rt, pairs);
            return;
        }
        let place = self.place(pairs.len());
        let Some(pair) = pairs.get_mut(place) else {
            return;
        };
        match kind {
            9..=12 => self.fetch(rt, pair),
            13 => self.fetch_from(rt, pair),
            14 | 15 => self.retain(rt, pair),
            16 => self.set_peers(rt, pair),
            17 => self.block(rt, pair),
            18..=21 => self.answer(rt, pair),
            22..=25 => self.serve(rt, pair),
            26..=29 => self.judge(rt, pair),
            _ => self.jump(rt, pair),
        }
    }

    /// What the engines have sent is on its way.
    pub fn collect_all<A: Acts>(&mut self, rt: &impl Abort, pairs: &mut [A]) {
        for pair in pairs {
            self.collect(rt, pair.hands());
        }
    }
}

impl Play for Course {
    fn play<A: Acts>(&mut self, rt: &(impl Abort + Print), pairs: &mut [A]) {
        for pair in pairs.iter_mut() {
            let hands = pair.hands();
            hands.model = Some(Model::new(self.alloc, hands.setting));
            pair.act(rt, Act::Peers(self.index, &[1, 2, 3, 7]));
        }
        for _ in 0..ACTS {
            self.step(rt, pairs);
            self.collect_all(rt, pairs);
        }
        self.end(rt, pairs);
    }
}

/// A message arrives where one of the engines has the name that it is for.
pub fn hand_over<A: Acts>(rt: &(impl Abort + Print), pairs: &mut [A], sent: &Sent) {
    for pair in pairs {
        if pair.hands().setting.me == sent.to {
            pair.act(rt, Act::Net(sent.from, sent.bytes.as_slice()));
        }
    }
}

/// The ids and the peers of an engine's requests.
fn asked_of(rt: &impl Abort, alloc: Global, pair: &mut impl Acts) -> Vec<(u64, u8)> {
    let Some(model) = &pair.hands().model else {
        return Vec::new(alloc);
    };
    let asked = model.keys.values().filter_map(|wanted| wanted.asked());
    asked.collect(alloc).expect(rt, "memory")
}
