use crate::support::{copied, equal, holds};
use resolver_delivery::{Aborted, Completion};
use resolver_types::{Delivery, NonEmptyVec, Outcome, Resolution};
use std::alloc::Global;
use std::panic::Expect;
use std::process::Abort;

type Over = Completion<u8, u16, u8>;

fn completed(rt: &impl Abort, alloc: Global) -> Over {
    Completion {
        response: 4,
        context: 3,
        delivery: Delivery {
            key: 1,
            subscribers: NonEmptyVec::new(alloc, (10, 7)).expect(rt, "memory"),
        },
        outcome: Some(Outcome::Resolved(Resolution::Complete)),
        canceled: true,
        previously_accepted: false,
    }
}

/// It is the same, marks included, which an equality of deliveries doesn't look at.
fn is_same(rt: &impl Abort, same: Over, completion: &Over) {
    holds(rt, same == *completion);
    equal(rt, same.delivery.subscribers.first(), &(10, 7));
}

fn compares_clones(rt: &impl Abort, completion: &Over) {
    is_same(rt, completion.clone().expect(rt, "memory"), completion);
    is_same(rt, copied(rt, completion), completion);
    let mut other = copied(rt, completion);
    other.canceled = false;
    holds(rt, other != *completion);
}

#[test]
fn a_clone_is_the_same(rt: HostRuntime) {
    let rt = &rt;
    let completion = completed(rt, rt.alloc());
    compares_clones(rt, &completion);
    holds(rt, copied(rt, &Aborted {}) == Aborted {});
}
