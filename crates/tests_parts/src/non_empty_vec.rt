ghost use Rattle.std.specs.Prelude.{nat_le};
ghost use Rattle.std.proofs.Common.{rules};

use crate::support::{equal, equal_lists, holds};
use resolver_types::{NonEmptyVec, Predicate, non_empty};
use std::alloc::Global;
use std::panic::Expect;
use std::process::Abort;

#[test]
fn grows_in_order(rt: HostRuntime) {
    let rt = &rt;
    let mut list = NonEmptyVec::new(rt.alloc(), 5u8).expect(rt, "memory");
    holds(rt, *list.first() == 5);
    list.push(7).expect(rt, "memory");
    list.insert(1, 6).expect(rt, "memory");
    holds(rt, list.len() == 3);
    equal_lists(rt, list.as_slice(), &[5, 6, 7]);
    holds(rt, list.contains(&6));
    holds(rt, !list.contains(&8));
}

#[test]
fn takes_a_list_that_has_items(rt: HostRuntime) {
    let rt = &rt;
    let items = list_of(rt, rt.alloc(), &[5u8, 6]).into_vec();
    equal_lists(rt, items.as_slice(), &[5, 6]);
    let back = NonEmptyVec::<u8>::try_from(Vec::new(rt.alloc()));
    let back = back.err().expect(rt, "the empty list");
    holds(rt, back.is_empty());
}

#[test]
fn gives_its_items(rt: HostRuntime) {
    let list = list_of(&rt, rt.alloc(), &[5u8, 6]);
    let mut items = list.iter();
    let given = [items.next(), items.next(), items.next()];
    equal(&rt, &given, &[Some(&5), Some(&6), None]);
}

fn half(item: u8) -> u16 {
    u16::from(item) / 2
}

#[test]
fn is_cloned_and_mapped(rt: HostRuntime) {
    let rt = &rt;
    let list = list_of(rt, rt.alloc(), &[5u8, 6]);
    let same = list.clone().expect(rt, "memory");
    let halves = list.map_into(half).expect(rt, "memory");
    equal_lists(rt, halves.as_slice(), &[2, 3]);
    let halves = same.map(|item| half(*item)).expect(rt, "memory");
    equal_lists(rt, halves.as_slice(), &[2, 3]);
    equal_lists(rt, same.as_slice(), &[5, 6]);
}

#[test]
fn is_made_of_items_in_a_row(rt: HostRuntime) {
    let rt = &rt;
    let list = NonEmptyVec::from_array(rt.alloc(), [5u8, 6]).expect(rt, "memory");
    let same = non_empty![in rt.alloc(); 5u8, 6].expect(rt, "memory");
    equal_lists(rt, list.as_slice(), &[5, 6]);
    holds(rt, list == same);
    let longer = non_empty![in rt.alloc(); 5u8, 6, 7].expect(rt, "memory");
    holds(rt, list != longer);
    let other = non_empty![in rt.alloc(); 6u8, 5].expect(rt, "memory");
    holds(rt, list != other);
}

/// The digits of a list, as a number.
fn number_of(list: &NonEmptyVec<u8>) -> u32 {
    let mut number = 0u32;
    for digit in list {
        number = number.wrapping_mul(10).wrapping_add(u32::from(*digit));
    }
    number
}

#[test]
fn is_gone_over(rt: HostRuntime) {
    let rt = &rt;
    let list = non_empty![in rt.alloc(); 5u8, 6, 7].expect(rt, "memory");
    holds(rt, number_of(&list) == 567);
    let mut items = list.into_iter();
    let given = [items.next(), items.next(), items.next(), items.next()];
    equal(rt, &given, &[Some(5), Some(6), Some(7), None]);
}

/// Keeps the subscribers up to a bound.
struct UpTo(u16);

impl Predicate<u8, u16> for UpTo {
    ghost keeps = { λ q _ subscriber. nat_le subscriber q.0 };

    fn keep(&self, _key: &u8, subscriber: &u16) -> bool {
        *subscriber <= self.0
    }

    ghost alike = { λ q k l s t same_key same_subscriber. Prim.search rules };
}

/// Whether any subscriber is kept, whether those that are kept were left alone, and how many are left.
fn kept(list: &mut NonEmptyVec<(u16, u64)>, keep: &UpTo) -> (bool, bool, usize) {
    let keeps_any = list.keeps_any(&1, keep);
    let is_kept = list.retain_kept(&1, keep);
    (keeps_any, is_kept, list.len())
}

#[test]
fn keeps_subscribers_or_all(rt: HostRuntime) {
    let rt = &rt;
    let mut list = list_of(rt, rt.alloc(), &[(10, 7), (11, 8)]);
    equal(rt, &kept(&mut list, &UpTo(9)), &(false, false, 2));
    equal(rt, &kept(&mut list, &UpTo(10)), &(true, true, 1));
    equal_lists(rt, list.as_slice(), &[(10, 7)]);
}

/// A list of these items, of which there is one at least.
fn list_of<T: Copy>(rt: &impl Abort, alloc: Global, items: &[T]) -> NonEmptyVec<T> {
    let items = Vec::from_slice(alloc, items).expect(rt, "memory");
    NonEmptyVec::try_from(items).ok().expect(rt, "an item")
}

/// A list of 5 that is joined by these items has all of these then.
fn joins(rt: &impl Abort, alloc: Global, more: &[u8], all: &[u8]) {
    let mut peers = list_of(rt, alloc, &[5]);
    let more = list_of(rt, alloc, more);
    peers.join(alloc, more).expect(rt, "memory");
    equal_lists(rt, peers.as_slice(), all);
}

#[test]
fn joins_without_repeats(rt: HostRuntime) {
    joins(&rt, rt.alloc(), &[6, 5, 6], &[5, 6]);
    let more = [9, 8, 7, 6, 5, 4, 3, 4, 5, 6];
    joins(&rt, rt.alloc(), &more, &[5, 9, 8, 7, 6, 4, 3]);
}

/// Subscriber 5 alone that is joined by these subscribers has all of these beside it then.
fn joins_subscribers(rt: &impl Abort, alloc: Global, more: &[(u8, u64)], all: &[(u8, u64)]) {
    let mut subscribers = list_of(rt, alloc, &[(5, 1)]);
    let more = list_of(rt, alloc, more);
    subscribers
        .join_subscribers(alloc, more)
        .expect(rt, "memory");
    equal_lists(rt, subscribers.as_slice(), all);
}

#[test]
fn joins_subscribers_without_repeats(rt: HostRuntime) {
    let few = [(4, 2), (5, 3), (4, 4)];
    joins_subscribers(&rt, rt.alloc(), &few, &[(5, 1), (4, 2)]);
    let many = [
        (9, 0),
        (8, 1),
        (7, 2),
        (6, 3),
        (5, 4),
        (4, 5),
        (3, 6),
        (4, 7),
        (5, 8),
    ];
    let all = [(5, 1), (9, 0), (8, 1), (7, 2), (6, 3), (4, 5), (3, 6)];
    joins_subscribers(&rt, rt.alloc(), &many, &all);
}
