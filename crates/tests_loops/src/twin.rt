//! A second core, which is given by hand what the loop takes from its sources: it asks fakes of its own.

use crate::chaos::model::Model;
use crate::fakes::acts::Act;
use crate::fakes::world::{Setting, peers};
use crate::scan::{Scan, Shown, Stage, shown_of};
use crate::script::{write_answer, write_number};
use bytes::Bytes;
use futures::channel::mpsc;
use resolver::base::{Check, Draws, NonEmptyVec, Sender};
use resolver::ingress::FetchKey;
use resolver::p2p::effects::Effect;
use resolver::p2p::fetcher::{Answer, Ask, Config};
use resolver::p2p::inputs::{Event, Happening, Input};
use resolver::p2p::mocks::Key;
use resolver::p2p::{Core, FetchKey as Wanted};
use resolver::{Delivery, Outcome};
use std::alloc::Global;
use std::collections::VecDeque;
use std::fmt::Write;
use std::io::Print;
use std::mem;
use std::panic::Expect;
use std::process::Abort;
use tests_support::lent::{Dice, Wire};
use tests_support::names;
use tests_support::names::{Below, Peer};
use tests_support::seen::{Seen, Told, spell, spell_said, tell};

pub type Happened = Event<Key, Peer, u16, Below>;

type Done = Effect<Key, Peer, u16>;

/// More than a scan asks.
const ASKS: u64 = 10_000;

/// More events than are due at once.
const DUE: u64 = 10_000;

/// More deliveries than are canceled at once.
const DELIVERIES: u64 = 10_000;

/// What the twin counts.
#[derive(Clone, Copy)]
pub struct Counts {
    pub fetches: u64,
    pub checks: u64,
    pub sends: u64,
    pub credits: u64,
    /// The responses that were handed out.
    pub responses: u64,
}

pub const NONE: Counts = Counts {
    fetches: 0,
    checks: 0,
    sends: 0,
    credits: 0,
    responses: 0,
};

/// What is asked, and what it is asked.
#[derive(Drop)]
pub struct Fakes {
    wire: Wire,
    dice: Dice,
    told: Told,
    pub seen: mpsc::UnboundedReceiver<Seen>,
}

/// What carries a core's effects out, and what is open then.
#[derive(Drop)]
pub struct Hands {
    pub alloc: Global,
    pub setting: Setting,
    pub now: u64,
    pub fakes: Fakes,
    scan: Scan,
    /// Those that have no verdict.
    pub deliveries: VecDeque<u64>,
    /// Those of them that are no longer wanted.
    canceled: Vec<u64>,
    /// Those of them whose verdict the core has to get.
    closing: VecDeque<u64>,
    /// Those that the producer hasn't answered, with their keys.
    pub serves: VecDeque<(u64, Key)>,
    /// What was sent and accepted.
    pub sent: VecDeque<(Peer, Bytes)>,
    /// The keys and subscribers that were handed out.
    pub delivered: Vec<(u8, u16)>,
    pub counts: Counts,
    /// What the core took, as a script for `resolver-replay`.
    pub script: String,
    /// What judges the core, where it is to be judged by a model.
    pub model: Option<Model>,
}

/// A core, and what carries its effects out.
#[derive(Drop)]
pub struct Twin<C> {
    core: C,
    pub hands: Hands,
    /// How many peers each key may be asked of, where scans are to be judged.
    eligible: Option<usize>,
}

/// When a request's time is over, and when it is time to look for keys to ask for.
pub type Deadlines = (Option<u128>, Option<u128>);

/// The earlier of the two, where a clock can reach it.
pub fn awaited(deadlines: Deadlines) -> Option<u128> {
    let (active, pending) = deadlines;
    let active = active.unwrap_or(u128::MAX);
    let pending = pending.unwrap_or(u128::MAX);
    let earlier = if pending < active { pending } else { active };
    if earlier < 1 << 94 {
        Some(earlier)
    } else {
        None
    }
}

/// Where a loop looks for an input, from the first place to the last. The moment is what the loop's clock says.
#[derive(Clone, Copy, PartialEq, Eq, PartialOrd, Ord)]
enum Place {
    Moment,
    Peers,
    Blocked,
    /// A request's time is over.
    Active,
    Verdicts,
    Mailbox,
    /// A key is due.
    Pending,
    Serves,
    Network,
}

const PLACES: &[Place] = &[
    Place::Moment,
    Place::Peers,
    Place::Blocked,
    Place::Verdicts,
    Place::Mailbox,
    Place::Serves,
    Place::Network,
];

/// Where a loop finds what this makes ready.
fn place_of(act: Act<'_>) -> Place {
    match act {
        Act::At(_) => Place::Moment,
        Act::Peers(..) | Act::ClosePeers => Place::Peers,
        Act::Block(_) | Act::CloseBlocked => Place::Blocked,
        Act::Judge(_) | Act::Drop | Act::IsWanted => Place::Verdicts,
        Act::Fetch(_)
        | Act::LastFetch(_)
        | Act::FetchFrom(_)
        | Act::Retain(_)
        | Act::CloseMailbox => Place::Mailbox,
        Act::Serve(_) | Act::DropServe => Place::Serves,
        Act::Net(..) | Act::CloseNetwork => Place::Network,
    }
}

/// An engine's core, as calls that promise nothing.
pub trait Steps {
    fn take(&mut self, rt: &impl Abort, input: Input<Key, Peer, u16, Below>) -> Vec<Done>;

    fn deadlines(&self) -> Deadlines;

    /// The demanded keys.
    fn list_rows(&self, rt: &impl Abort, alloc: Global) -> Vec<Shown>;
}

/// A core at the names of the fakes.
pub type Plain = Core<Key, Peer, u16, Below>;

impl Steps for Plain {
    fn take(&mut self, rt: &impl Abort, input: Input<Key, Peer, u16, Below>) -> Vec<Done> {
        self.step(input).expect(rt, "an input that is taken")
    }

    fn deadlines(&self) -> Deadlines {
        (self.get_active_deadline(), self.get_pending_deadline())
    }

    fn list_rows(&self, rt: &impl Abort, alloc: Global) -> Vec<Shown> {
        let rows = self.rows().expect(rt, "memory");
        shown_of(rt, alloc, rows.as_slice())
    }
}

/// A core with a timeout of 50 and a delay of 10, as a call that promises nothing.
pub fn make_core(alloc: Global, setting: Setting) -> Plain {
    let configuration = Config {
        me: Some(Peer(setting.me)),
        fetch_timeout: 50,
        retry_delay: 10,
        peer_limit: setting.limit,
        priority_requests: setting.priorities.0,
    };
    Core::new(alloc, configuration, setting.priorities.1)
}

fn make_fakes(rt: &impl Abort, alloc: Global, setting: Setting) -> Fakes {
    let (told, seen) = mpsc::unbounded(alloc).expect(rt, "memory");
    let one = told.clone().expect(rt, "memory");
    let other = told.clone().expect(rt, "memory");
    Fakes {
        wire: Wire::new(one, setting.wrong),
        dice: setting.dice(other),
        told,
        seen,
    }
}

/// The line that opens an engine with this setting.
fn begin_script(rt: &impl Abort, alloc: Global, setting: Setting) -> String {
    let mut script = String::new(alloc);
    write!(script, "p2p {} 50 10", setting.me).expect(rt, "memory");
    if let Some(limit) = setting.limit {
        write!(script, " {limit}").expect(rt, "memory");
    }
    script.push_str("\n").expect(rt, "memory");
    script
}

fn is_due(deadline: Option<u128>, now: u64) -> bool {
    match deadline {
        Some(at) => at <= now as u128,
        None => false,
    }
}

fn happens(now: u64, event: Happened) -> Input<Key, Peer, u16, Below> {
    Input::Happens(Happening {
        now: now as u128,
        event,
    })
}

/// A number below this one. Scans ask for none below 0.
fn draw(dice: &mut Dice, bound: u128) -> u128 {
    if bound == 0 {
        return 0;
    }
    dice.below(bound)
}

/// Lists the subscribers of a delivery with its key.
fn list(rt: &impl Abort, delivered: &mut Vec<(u8, u16)>, delivery: &Delivery<Key, u16>) {
    for (subscriber, _) in delivery.subscribers.iter() {
        let pushed = delivered.push((delivery.key.0, *subscriber));
        pushed.expect(rt, "memory");
    }
}

/// The bytes of a message: its id, and what follows.
pub fn message(rt: &impl Abort, alloc: Global, id: u64, bytes: &[u8]) -> Vec<u8> {
    let mut message = Vec::new(alloc);
    let id = id.to_be_bytes();
    message.extend_from_slice(&id).expect(rt, "memory");
    message.extend_from_slice(bytes).expect(rt, "memory");
    message
}

/// A key that any peer may be asked for.
fn item(rt: &impl Abort, alloc: Global, key: u8, subscriber: u16) -> Wanted<Key, Peer, u16> {
    FetchKey::from_fetch(alloc, names::wanted(key, subscriber)).expect(rt, "memory")
}

/// Keys that any peer may be asked for.
fn wanted(rt: &impl Abort, alloc: Global, wants: &[(u8, u16)]) -> Vec<Wanted<Key, Peer, u16>> {
    let mut items = Vec::new(alloc);
    for (key, subscriber) in wants {
        let item = item(rt, alloc, *key, *subscriber);
        items.push(item).expect(rt, "memory");
    }
    items
}

/// Keys that one peer each may be asked for.
fn wanted_from(rt: &impl Abort, alloc: Global, wants: &[(u8, u8)]) -> Vec<Wanted<Key, Peer, u16>> {
    let mut items = Vec::new(alloc);
    for (key, peer) in wants {
        let mut item = item(rt, alloc, *key, 10);
        let peers = NonEmptyVec::new(alloc, Peer(*peer)).expect(rt, "memory");
        drop(mem::replace(&mut item.metadata, Some(peers)));
        items.push(item).expect(rt, "memory");
    }
    items
}

/// Writes what some fakes were asked, whether the turn ended with a wait, and for what.
pub fn spell_turn(
    rt: &impl Abort,
    text: &mut String,
    seen: &mut mpsc::UnboundedReceiver<Seen>,
    is_pending: bool,
    awaited: Option<u128>,
) {
    spell(text, seen).expect(rt, "memory");
    write!(text, "{is_pending} {awaited:?}").expect(rt, "memory");
}

/// The event that this becomes, of those that need nothing of the twin.
fn event_of(rt: &impl Abort, alloc: Global, act: Act<'_>) -> Option<Happened> {
    Some(match act {
        Act::Peers(index, numbers) => Event::PeerSet {
            index,
            peers: peers(alloc, numbers).expect(rt, "memory"),
        },
        Act::Block(numbers) => Event::Blocked(peers(alloc, numbers).expect(rt, "memory")),
        Act::Retain(below) => Event::Retain(Below(below)),
        Act::Fetch(wants) => Event::Fetch(wanted(rt, alloc, wants)),
        Act::FetchFrom(wants) => Event::Fetch(wanted_from(rt, alloc, wants)),
        Act::Net(peer, bytes) => Event::Net {
            peer: Peer(peer),
            bytes: Bytes::copy_from_slice(alloc, bytes).expect(rt, "memory"),
        },
        _ => return None,
    })
}

/// The id and the peer of the request for a key, if these rows have one.
pub fn asked_in(rows: &[Shown], key: u8) -> Option<(u64, u8)> {
    for row in rows {
        if let Stage::Asked { id, peer, .. } = row.stage {
            if row.key == key {
                return Some((id, peer));
            }
        }
    }
    None
}

/// How many keys the peer is asked for that is asked for the most of them.
fn most_asked(rows: &[Shown]) -> u32 {
    let mut counts = [0_u32; 256];
    let mut most = 0;
    for row in rows {
        if let Stage::Asked { peer, .. } = row.stage {
            let count = &mut counts[usize::from(peer)];
            *count = count.saturating_add(1);
            most = most.max(*count);
        }
    }
    most
}

impl Hands {
    /// Nothing is open, and nothing was counted.
    fn new(rt: &impl Abort, alloc: Global, setting: Setting) -> Hands {
        let script = begin_script(rt, alloc, setting);
        let fakes = make_fakes(rt, alloc, setting);
        Hands {
            alloc,
            setting,
            now: 0,
            fakes,
            scan: Scan::new(alloc, 0, 0, Vec::new(alloc)),
            deliveries: VecDeque::new(alloc),
            canceled: Vec::new(alloc),
            closing: VecDeque::new(alloc),
            serves: VecDeque::new(alloc),
            sent: VecDeque::new(alloc),
            delivered: Vec::new(alloc),
            counts: NONE,
            script,
            model: None,
        }
    }

    /// Prints what the core took, as a script for `resolver-replay`.
    pub fn print_script(&self, rt: &impl Print) {
        let _ = println!(rt; "# {:?}\n{}", self.setting, self.script.as_str());
    }

    /// Ends the test, and says why.
    pub fn fail(&self, rt: &(impl Abort + Print), why: &str) -> ! {
        self.print_script(rt);
        panic!(rt; "{:?}: {why}", self.setting)
    }

    /// Ends the test where something is wrong.
    pub fn judge(&self, rt: &(impl Abort + Print), complaint: Option<&str>) {
        if let Some(why) = complaint {
            self.fail(rt, why);
        }
    }

    /// Sends, and says whether it is accepted.
    fn send(&mut self, rt: &impl Abort, peer: Peer, bytes: Bytes, priority: bool) -> bool {
        let copy = bytes.clone().expect(rt, "memory");
        let is_accepted = self.fakes.wire.send(&peer, bytes, priority).is_accepted();
        if is_accepted {
            self.sent.push_back((peer, copy)).expect(rt, "memory");
        }
        is_accepted
    }

    fn check(&mut self, rt: &impl Abort, peer: Peer) -> Check {
        self.counts.checks = self.counts.checks.saturating_add(1);
        let check = self.fakes.wire.check(&peer);
        self.scan.note_check(rt, peer, check);
        if let Some(model) = &mut self.model {
            model.note_check(peer.0, check).expect(rt, "memory");
        }
        check
    }

    fn request(&mut self, rt: &impl Abort, peer: Peer, id: u64, key: Key, priority: bool) -> bool {
        self.counts.sends = self.counts.sends.saturating_add(1);
        let message = message(rt, self.alloc, id, &[0, key.0]);
        let bytes = Bytes::from_vec(message).expect(rt, "memory");
        let is_accepted = self.send(rt, peer, bytes, priority);
        if is_accepted {
            self.scan.note_sent(key.0, id, peer.0);
        }
        if let Some(model) = &mut self.model {
            let noted = model.note_request((key.0, peer.0, id), is_accepted);
            noted.expect(rt, "memory");
        }
        is_accepted
    }

    fn answer(&mut self, rt: &impl Abort, ask: Ask<Key, Peer>) -> Answer {
        if let Some(model) = &mut self.model {
            model.note_ask();
        }
        match ask {
            Ask::Draw(bound) => Answer::Drawn(draw(&mut self.fakes.dice, bound)),
            Ask::Check(peer) => Answer::Checked(self.check(rt, peer)),
            Ask::Request {
                peer,
                id,
                key,
                priority,
            } => Answer::Sent(self.request(rt, peer, id, key, priority)),
        }
    }

    fn deliver(
        &mut self,
        rt: &impl Abort,
        number: u64,
        delivery: Delivery<Key, u16>,
        value: Bytes,
    ) {
        self.deliveries.push_back(number).expect(rt, "memory");
        list(rt, &mut self.delivered, &delivery);
        tell(&self.fakes.told, Seen::Delivered(delivery, value));
    }

    /// A delivery is no longer wanted, so that the core gets no verdict on it but that there is none.
    fn cancel(&mut self, rt: &impl Abort, number: u64) {
        self.canceled.push(number).expect(rt, "memory");
        self.closing.push_back(number).expect(rt, "memory");
    }

    /// Whether the consumer's word on the first delivery that has no verdict counts.
    fn is_wanted(&self) -> bool {
        match self.deliveries.front() {
            Some(number) => !self.canceled.as_slice().contains(number),
            None => false,
        }
    }

    /// The first delivery that has no verdict, if that is wanted.
    fn next_delivery(&mut self) -> Option<u64> {
        let is_wanted = self.is_wanted();
        match self.deliveries.pop_front() {
            Some(number) if is_wanted => Some(number),
            _ => None,
        }
    }

    fn produce(&mut self, rt: &impl Abort, serve: u64, key: Key) {
        self.serves.push_back((serve, key)).expect(rt, "memory");
        tell(&self.fakes.told, Seen::Produced(key));
    }

    /// Carries an effect out, and gives the answer to what it asks.
    fn carry_out(&mut self, rt: &impl Abort, effect: Done) -> Option<Answer> {
        if let Some(model) = &mut self.model {
            model.note_effect(&effect).expect(rt, "memory");
        }
        match effect {
            Effect::Ask(ask) => return Some(self.answer(rt, ask)),
            Effect::Deliver {
                number,
                response,
                delivery,
                value,
            } => {
                self.note_responses(number, response);
                self.deliver(rt, number, delivery, value);
            }
            Effect::Cancel { number } => self.cancel(rt, number),
            Effect::Produce { serve, key } => self.produce(rt, serve, key),
            Effect::Reply {
                peer,
                bytes,
                priority,
            } => {
                self.send(rt, peer, bytes, priority);
            }
            Effect::Credit { .. } => {
                self.counts.credits = self.counts.credits.saturating_add(1);
            }
            Effect::Block { response: _, peer } => tell(&self.fakes.told, Seen::Blocked(peer)),
        }
        None
    }

    fn carry_out_all(&mut self, rt: &impl Abort, effects: Vec<Done>) -> Option<Answer> {
        let mut answer = None;
        for effect in effects {
            answer = self.carry_out(rt, effect);
        }
        answer
    }

    /// A response is handed out first under its own number.
    fn note_responses(&mut self, number: u64, response: u64) {
        if number == response {
            self.counts.responses = self.counts.responses.saturating_add(1);
        }
    }
}

impl<C: Steps> Twin<C> {
    /// The twin of a world's engine, with a core as that has it. Its scans are judged where the peers of each key are
    /// counted.
    pub fn new(
        rt: &impl Abort,
        alloc: Global,
        core: C,
        setting: Setting,
        eligible: Option<usize>,
    ) -> Twin<C> {
        Twin {
            core,
            hands: Hands::new(rt, alloc, setting),
            eligible,
        }
    }

    /// The demanded keys.
    pub fn rows(&self, rt: &impl Abort) -> Vec<Shown> {
        self.core.list_rows(rt, self.hands.alloc)
    }

    /// The moments that the core waits for.
    pub fn deadlines(&self) -> Deadlines {
        self.core.deadlines()
    }

    /// Has the core take an answer, and carries out what it answers. Gives the answer to what it asks then.
    fn take_answer(&mut self, rt: &impl Abort, answer: Answer) -> Option<Answer> {
        write_answer(rt, &mut self.hands.script, answer);
        let effects = self.core.take(rt, Input::Answers(answer));
        self.hands.carry_out_all(rt, effects)
    }

    /// Answers what a scan asks, from this answer on.
    fn answer_all(&mut self, rt: &(impl Abort + Print), first: Option<Answer>) {
        let mut answer = first;
        for _ in 0..ASKS {
            let Some(given) = answer else {
                return;
            };
            answer = self.take_answer(rt, given);
        }
        self.hands.fail(rt, "a scan without an end");
    }

    /// A scan may begin, which is written down where scans are to be judged.
    fn begin_scan(&mut self, rt: &impl Abort) {
        if let Some(eligible) = self.eligible {
            let rows = self.rows(rt);
            let scan = Scan::new(self.hands.alloc, self.hands.now, eligible, rows);
            drop(mem::replace(&mut self.hands.scan, scan));
        }
    }

    fn judge_scan(&self, rt: &(impl Abort + Print)) {
        if self.eligible.is_none() {
            return;
        }
        let (_, pending) = self.core.deadlines();
        let rows = self.rows(rt);
        let complaint = self.hands.scan.judge(rows.as_slice(), pending);
        self.hands.judge(rt, complaint);
    }

    /// No peer is asked for more keys at once than it may be.
    fn judge_limit(&self, rt: &(impl Abort + Print)) {
        let Some(limit) = self.hands.setting.limit else {
            return;
        };
        let rows = self.rows(rt);
        let is_past = most_asked(rows.as_slice()) > limit.get();
        if is_past {
            self.hands.fail(rt, "a peer has too many requests");
        }
    }

    /// Takes an event, and answers what its scan asks. What isn't wanted any more gets its verdict then.
    fn take(&mut self, rt: &(impl Abort + Print), event: Happened) {
        self.take_alone(rt, event);
        for _ in 0..DELIVERIES {
            let Some(number) = self.hands.closing.pop_front() else {
                return;
            };
            let outcome = None;
            self.take_alone(rt, Event::Verdict { number, outcome });
        }
    }

    /// Takes an event, and answers what its scan asks.
    fn take_alone(&mut self, rt: &(impl Abort + Print), event: Happened) {
        self.hands.note_event(rt, &event);
        let effects = self.core.take(rt, happens(self.hands.now, event));
        self.begin_scan(rt);
        let answer = self.hands.carry_out_all(rt, effects);
        self.answer_all(rt, answer);
        self.judge_scan(rt);
        self.judge_limit(rt);
        self.judge_event(rt);
    }

    /// The consumer says this of the first delivery that has no verdict, if there is one, or drops it.
    fn judge(&mut self, rt: &(impl Abort + Print), outcome: Option<Outcome>) {
        if let Some(number) = self.hands.next_delivery() {
            self.take(rt, Event::Verdict { number, outcome });
        }
    }

    /// The producer has these bytes for the first request that it hasn't answered, if there is one, or drops it.
    fn serve(&mut self, rt: &(impl Abort + Print), bytes: Option<&[u8]>) {
        if let Some((serve, _)) = self.hands.serves.pop_front() {
            let value = match bytes {
                Some(bytes) => {
                    let value = Bytes::copy_from_slice(self.hands.alloc, bytes);
                    Some(value.expect(rt, "memory"))
                }
                None => None,
            };
            self.take(rt, Event::Served { serve, value });
        }
    }

    /// Takes this, and not yet what is due then.
    fn take_act(&mut self, rt: &(impl Abort + Print), act: Act<'_>) {
        match act {
            Act::Judge(outcome) => self.judge(rt, Some(outcome)),
            Act::Drop | Act::IsWanted => self.judge(rt, None),
            Act::Serve(bytes) => self.serve(rt, Some(bytes)),
            Act::DropServe => self.serve(rt, None),
            Act::At(moment) => {
                self.hands.now = moment;
                write_number(rt, &mut self.hands.script, "at", u128::from(moment));
            }
            _ => {
                let event = event_of(rt, self.hands.alloc, act);
                self.take(rt, event.expect(rt, "an act that a twin takes"));
            }
        }
    }

    /// What a loop looks for before it looks there is due.
    fn due_before(&self, place: Place) -> Option<Happened> {
        let (active, pending) = self.core.deadlines();
        if place > Place::Active && is_due(active, self.hands.now) {
            return Some(Event::ActiveDue);
        }
        if place > Place::Pending && is_due(pending, self.hands.now) {
            return Some(Event::PendingDue);
        }
        None
    }

    /// Takes what is due before a loop looks there.
    fn take_due_before(&mut self, rt: &(impl Abort + Print), place: Place) {
        for _ in 0..DUE {
            let Some(event) = self.due_before(place) else {
                return;
            };
            self.take(rt, event);
        }
        self.hands.fail(rt, "there is always something due");
    }

    /// Takes those of these that a loop looks for there.
    fn take_at(&mut self, rt: &(impl Abort + Print), place: Place, acts: &[Act<'_>]) {
        for act in acts {
            if place_of(*act) == place {
                self.take_due_before(rt, place);
                self.take_act(rt, *act);
            }
        }
    }

    /// Writes whether the first delivery is wanted, where that is asked.
    fn spell_wanted(&self, rt: &impl Abort, text: &mut String, acts: &[Act<'_>]) {
        for act in acts {
            if matches!(act, Act::IsWanted) {
                let is_wanted = self.hands.is_wanted();
                spell_said(text, "wanted", is_wanted).expect(rt, "memory");
            }
        }
    }

    /// Takes these in the order in which a loop looks for what is ready, and what is due. Writes what its fakes are
    /// asked and what it awaits.
    pub fn act(&mut self, rt: &(impl Abort + Print), text: &mut String, acts: &[Act<'_>]) {
        self.spell_wanted(rt, text, acts);
        for place in PLACES {
            self.take_at(rt, *place, acts);
        }
        self.take_due_before(rt, Place::Network);
        self.judge_waits(rt);
        let awaited = awaited(self.core.deadlines());
        spell_turn(rt, text, &mut self.hands.fakes.seen, true, awaited);
    }
}
