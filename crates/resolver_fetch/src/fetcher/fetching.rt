//! A whole scan, with a sender and draws that are lent to it.

ghost use Rattle.std.specs.Prelude.{◌≡◌, ◌<◌, ◌^◌, false, Some, None, is_some, IfErr, IfOk, OnErr, OnOk};
ghost use Rattle.resolver_base.specs.declared.fault.Fault.TheVariants.{OutOfMemory};
ghost use Rattle.resolver_fetch_scan.specs.Fetcher.{question};
ghost use Rattle.resolver_fetch.specs.Fetching.{Fetches, GoesOn, MaySay, Says, Stops, TakesOne, Wants, given_up, lent, outside, request_of};
ghost use Rattle.resolver_fetch_scan.specs.Orders.{orders};
ghost use Rattle.resolver_fetch.specs.Progress.{Fits, IsAnswerable, IsSound, Keeps, answers_left};
ghost use Rattle.resolver_wire.specs.Spelling.{spelling};

use crate::fetcher::{Answer, Ask, Fetcher, ID};
use bytes::{Bytes, BytesMut};
use resolver_base::{Draws, Fault, PublicKey, Sender, Span};
use resolver_wire::wire::{Message, Payload};
use std::alloc::Global;

impl<K: Span + Drop, P: PublicKey + Drop> Fetcher<K, P> {
    /// Begins a scan at this moment, where none is open, and answers what it asks from `draws` and `sender`, until it
    /// is over: a request is on its way, or every peer that may be asked for a due key was tried
    /// in vain.
    ///
    /// Where memory is refused at the beginning, nothing changes. Where it is refused later, the
    /// scan is over and the waiter clear; the keys wait as before, and the ids that were used stay
    /// used. A request that the sender took just then is not kept.
    ///
    /// It takes as long as `scan_begin`, and as `scan_answer` for each answer: at most five for
    /// each peer that may be asked for each due key. Keys and names are cloned; clones are to equal
    /// their sources.
    pub fn fetch<S: Sender<PublicKey = P>, D: Draws>(
        &mut self,
        sender: &mut S,
        draws: &mut D,
        now: u128,
    ) -> Result<(), Fault>
    where
        requires moment { now < 2 ^ 94 }
        requires closed { is_some self.old.scan ≡ false }
        requires keys_clone { (x y : K) → K.is_clone x y → y ≡ x }
        requires peers_clone { (x y : P) → P.is_clone x y → y ≡ x }
        ensures ok { OnOk result (Fetches (orders K.cmp P.cmp)
            (outside K.bytes_of S.check_gives S.send_gives D.below_gives) now
            (lent self.old sender.old draws.old) (lent self.new sender.new draws.new)) }
        ensures err { OnErr result (Wants (orders K.cmp P.cmp)
            (outside K.bytes_of S.check_gives S.send_gives D.below_gives) now
            (lent self.old sender.old draws.old) (lent self.new sender.new draws.new)) }
        ensures only { IfErr result (λ fault. fault ≡ OutOfMemory) }
    {
        let asked = self.scan_begin(now)?;
        let driven = self.drive(sender, draws, asked);
        if driven.is_err() {
            self.give_up();
        }
        driven
    }

    /// Answers what the open scan asks until it is over. Where memory is refused, the scan stays
    /// open, and asks what it asked last.
    fn drive<S: Sender<PublicKey = P>, D: Draws>(
        &mut self,
        sender: &mut S,
        draws: &mut D,
        first: Option<Ask<K, P>>,
    ) -> Result<(), Fault>
    where
        requires keys_clone { (x y : K) → K.is_clone x y → y ≡ x }
        requires peers_clone { (x y : P) → P.is_clone x y → y ≡ x }
        requires asked { first ≡ question (orders K.cmp P.cmp) self.old }
        requires sound { IsSound (orders K.cmp P.cmp) self.old }
        ensures goes_on { OnOk result (GoesOn (orders K.cmp P.cmp)
            (outside K.bytes_of S.check_gives S.send_gives D.below_gives)
            (lent self.old sender.old draws.old) (lent self.new sender.new draws.new)) }
        ensures over { OnOk result (self.new.scan ≡ None) }
        ensures stops { OnErr result (Stops (orders K.cmp P.cmp)
            (outside K.bytes_of S.check_gives S.send_gives D.below_gives)
            (lent self.old sender.old draws.old) (lent self.new sender.new draws.new)) }
        ensures keeps { OnErr result
            (given_up self.new ≡ given_up (record self.old { last_id = self.new.last_id })) }
        ensures only { IfErr result (λ fault. fault ≡ OutOfMemory) }
    {
        let mut asked = first;
        while let Some(ask) = asked {
            asked = self.turn(sender, draws, ask)?;
        }
        Ok(())
    }

    /// Answers what the open scan asks, and says what it asks then. Where memory is refused, the
    /// fetcher is as it was.
    fn turn<S: Sender<PublicKey = P>, D: Draws>(
        &mut self,
        sender: &mut S,
        draws: &mut D,
        ask: Ask<K, P>,
    ) -> Result<Option<Ask<K, P>>, Fault>
    where
        requires keys_clone { (x y : K) → K.is_clone x y → y ≡ x }
        requires peers_clone { (x y : P) → P.is_clone x y → y ≡ x }
        requires asked { question (orders K.cmp P.cmp) self.old ≡ Some ask }
        requires sound { IsSound (orders K.cmp P.cmp) self.old }
        ensures taken { OnOk result ((answer : Answer) × TakesOne (orders K.cmp P.cmp)
            (outside K.bytes_of S.check_gives S.send_gives D.below_gives) answer
            (lent self.old sender.old draws.old) (lent self.new sender.new draws.new)) }
        ensures asked { IfOk result (λ next. next ≡ question (orders K.cmp P.cmp) self.new) }
        ensures sound { OnOk result (IsSound (orders K.cmp P.cmp) self.new) }
        ensures keeps { OnOk result (Keeps self.old self.new) }
        ensures fewer { OnOk result (answers_left (orders K.cmp P.cmp) self.new
            < answers_left (orders K.cmp P.cmp) self.old) }
        ensures err { OnErr result (self.new ≡ self.old) }
        ensures said { OnErr result (MaySay
            (outside K.bytes_of S.check_gives S.send_gives D.below_gives) ask
            sender.old draws.old sender.new draws.new) }
        ensures only { IfErr result (λ fault. fault ≡ OutOfMemory) }
    {
        let answer = answer_to(self.alloc, sender, draws, ask)?;
        self.scan_answer(answer)
    }

    /// The open scan is forgotten, and a scan may be begun at once.
    fn give_up(&mut self)
        ensures { self.new ≡ given_up self.old }
    {
        self.cursor = None;
        self.pending.wake();
    }
}

/// What draws or a sender say to what a scan asks, which never asks for a number below 0. Where memory is refused,
/// they were not asked.
pub fn answer_to<K: Span + Drop, S: Sender, D: Draws>(
    alloc: Global,
    sender: &mut S,
    draws: &mut D,
    ask: Ask<K, S::PublicKey>,
) -> Result<Answer, Fault>
where
    S::PublicKey: Drop,
    requires answerable { IsAnswerable ask }
    ensures fits { IfOk result (λ answer. Fits ask answer) }
    ensures says { IfOk result (λ answer. Says
        (outside K.bytes_of S.check_gives S.send_gives D.below_gives) ask answer
        sender.old draws.old sender.new draws.new) }
    ensures sender { OnErr result (sender.new ≡ sender.old) }
    ensures draws { OnErr result (draws.new ≡ draws.old) }
    ensures only { IfErr result (λ fault. fault ≡ OutOfMemory) }
{
    match ask {
        Ask::Draw(bound) => Ok(Answer::Drawn(draws.below(bound))),
        Ask::Check(peer) => Ok(Answer::Checked(sender.check(&peer))),
        Ask::Request {
            peer,
            id,
            key,
            priority,
        } => {
            let message = request_bytes(alloc, id, key)?;
            let sent = sender.send(&peer, message, priority);
            Ok(Answer::Sent(sent.is_accepted()))
        }
    }
}

/// A request for a key under an id, as bytes.
fn request_bytes<K: Span + Drop>(alloc: Global, id: ID, key: K) -> Result<Bytes, Fault>
    ensures bytes { IfOk result (λ bytes. bytes ≡ spelling K.bytes_of (request_of id key)) }
    ensures only { IfErr result (λ fault. fault ≡ OutOfMemory) }
{
    let request = Message {
        id,
        payload: Payload::Request(key),
    };
    let mut out = BytesMut::new(alloc);
    request.write(&mut out)?;
    Ok(out.freeze()?)
}
