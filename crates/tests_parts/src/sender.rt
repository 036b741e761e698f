use crate::support::{equal, holds};
use bytes::Bytes;
use resolver_base::{Check, Feedback, Sender, Unreliable};
use std::alloc::Global;
use std::panic::Expect;
use std::process::Abort;
use tests_support::names::Letter;

/// Knows one peer, and takes messages for it up to a length.
#[derive(Drop)]
struct Wire {
    known: Letter,
    room: usize,
}

impl Sender for Wire {
    type PublicKey = Letter;

    fn check(&mut self, peer: &Letter) -> Check {
        if *peer == self.known {
            Check::Clear
        } else {
            Check::Until(7)
        }
    }

    fn send(&mut self, _peer: &Letter, message: Bytes, priority: bool) -> Unreliable {
        if self.room < message.len() {
            Unreliable::Rejected
        } else if priority {
            Unreliable::Outcome(Feedback::Ok)
        } else {
            Unreliable::Outcome(Feedback::Backoff)
        }
    }
}

fn tried<S: Sender>(
    sender: &mut S,
    peer: &S::PublicKey,
    message: Bytes,
    priority: bool,
) -> (Check, Unreliable) {
    let check = sender.check(peer);
    (check, sender.send(peer, message, priority))
}

/// Tries a message of these bytes, and compares what is said of it.
fn answers(
    rt: &impl Abort,
    alloc: Global,
    wire: &mut Wire,
    (peer, bytes, priority): (u8, &[u8], bool),
    wanted: &(Check, Unreliable),
) {
    let message = Bytes::copy_from_slice(alloc, bytes).expect(rt, "memory");
    equal(rt, &tried(wire, &Letter(peer), message, priority), wanted);
}

#[test]
fn sends_to_a_peer(rt: HostRuntime) {
    const TAKEN: &(Check, Unreliable) = &(Check::Clear, Unreliable::Outcome(Feedback::Ok));
    const TOO_LONG: &(Check, Unreliable) = &(Check::Until(7), Unreliable::Rejected);
    let mut wire = Wire {
        known: Letter(1),
        room: 2,
    };
    answers(&rt, rt.alloc(), &mut wire, (1, &[5, 6], true), TAKEN);
    answers(&rt, rt.alloc(), &mut wire, (2, &[5, 6, 7], false), TOO_LONG);
}

#[test]
fn accepts_what_is_on_its_way(rt: HostRuntime) {
    let rt = &rt;
    holds(rt, Unreliable::Outcome(Feedback::Ok).is_accepted());
    holds(rt, Unreliable::Outcome(Feedback::Backoff).is_accepted());
    holds(rt, !Unreliable::Outcome(Feedback::Closed).is_accepted());
    holds(rt, !Unreliable::Rejected.is_accepted());
}

#[test]
fn was_taken_unless_closed(rt: HostRuntime) {
    holds(&rt, Feedback::Ok.accepted());
    holds(&rt, Feedback::Backoff.accepted());
    holds(&rt, !Feedback::Closed.accepted());
}
