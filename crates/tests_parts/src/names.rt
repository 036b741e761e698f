//! Names that are ready to be keys: their order against that of numbers and of bytes, and their spellings.

use crate::support::{equal, equal_at, equal_lists, holds, is_written};
use bytes::BytesMut;
use resolver_base::{Fault, PublicKey, Span};
use resolver_names::{Height, Name};
use resolver_wire::wire::{Message, Payload};
use std::alloc::Global;
use std::cmp::Ordering;
use std::collections::HashMap;
use std::panic::Expect;
use std::process::Abort;
use std::test::Fail;

const NUMBERS: [u64; 8] = [0, 1, 255, 256, 65_535, 1 << 32, u64::MAX - 1, u64::MAX];

/// Compares two names with the order that they should have.
fn ordered<P: PublicKey + Span>(rt: &impl Abort, one: &P, other: &P, order: Ordering) {
    equal(rt, &one.cmp(other), &order);
    equal(rt, &other.cmp(one), &order.reverse());
    equal(rt, &one.partial_cmp(other), &Some(order));
    equal(rt, &(one == other), &order.is_eq());
    equal(rt, &(one < other), &order.is_lt());
}

#[test]
fn heights_are_ordered_as_their_numbers(rt: HostRuntime) {
    let rt = &rt;
    for one in NUMBERS {
        for other in NUMBERS {
            ordered(
                rt,
                &Height::from(one),
                &Height::from(other),
                one.cmp(&other),
            );
        }
        equal(rt, &u64::from(Height::from(one)), &one);
    }
}

#[test]
fn names_of_four_bytes_are_ordered_as_their_numbers(rt: HostRuntime) {
    let rt = &rt;
    for one in [0u32, 1, 255, 256, 65_536, u32::MAX] {
        for other in [0u32, 1, 255, 256, 65_536, u32::MAX] {
            ordered(rt, &Name::from(one), &Name::from(other), one.cmp(&other));
        }
        equal(rt, &u32::from(Name::from(one)), &one);
    }
}

/// Compares each pair of some names, which are in order.
fn in_order<const N: usize>(rt: &impl Abort, names: &[Name<N>])
where
    Name<N>: Span,
{
    for (place, one) in names.iter().enumerate() {
        for (later, other) in names.iter().enumerate() {
            ordered(rt, one, other, place.cmp(&later));
        }
    }
}

#[test]
fn digests_are_ordered_by_the_first_byte_that_differs(rt: HostRuntime) {
    let low = [7; 20];
    let mut last = low;
    last[19] = 8;
    let mut tenth = low;
    tenth[9] = 8;
    let mut first = low;
    first[0] = 255;
    in_order(&rt, &[low, last, tenth, first].map(Name::from));
}

#[test]
fn digests_of_32_and_of_48_bytes_are_ordered(rt: HostRuntime) {
    let rt = &rt;
    let mut last = [0; 32];
    last[31] = 255;
    let mut word = [0; 32];
    word[24] = 1;
    let mut first = [0; 32];
    first[0] = 1;
    in_order(rt, &[[0; 32], last, word, first].map(Name::from));
    let mut last = [255; 48];
    last[47] = 254;
    in_order(rt, &[[0; 48], last, [255; 48]].map(Name::from));
}

/// Compares a name's bytes on the wire, and what is read of them.
fn spelled<const N: usize>(rt: &impl Abort, alloc: Global, name: Name<N>, bytes: [u8; N])
where
    Name<N>: Span,
{
    let mut out = BytesMut::new(alloc);
    name.write(&mut out).expect(rt, "memory");
    equal_lists(rt, out.as_slice(), &bytes);
    equal(rt, &<[u8; N]>::from(name), &bytes);
    holds(rt, Name::from(bytes) == name);
}

#[test]
fn names_are_spelled_by_their_bytes(rt: HostRuntime) {
    let rt = &rt;
    let alloc = rt.alloc();
    spelled(rt, alloc, Name::from(258u32), [0, 0, 1, 2]);
    spelled(rt, alloc, Name::from(258u64), [0, 0, 0, 0, 0, 0, 1, 2]);
    spelled(rt, alloc, Name::from([9; 20]), [9; 20]);
    spelled(rt, alloc, Name::from([8; 32]), [8; 32]);
    spelled(rt, alloc, Name::from([7; 48]), [7; 48]);
}

#[test]
fn names_are_read_from_as_many_bytes(rt: HostRuntime) {
    let rt = &rt;
    let sizes = [
        <Name<4>>::SIZE,
        <Name<8>>::SIZE,
        <Name<20>>::SIZE,
        <Name<32>>::SIZE,
        <Name<48>>::SIZE,
    ];
    equal(rt, &sizes, &[4, 8, 20, 32, 48]);
    equal(rt, &Span::read(&[0, 0, 1, 2]), &Some(Name::from(258u32)));
    equal(rt, &Span::read(&[3; 20]), &Some(Name::from([3; 20])));
}

#[test]
fn a_request_of_another_length_is_refused(rt: HostRuntime) {
    const LENGTHS: &[(usize, Option<Fault>)] = &[
        (16, Some(Fault::EndOfBuffer)),
        (17, None),
        (18, Some(Fault::ExtraData)),
    ];
    let rt = &rt;
    let bytes = [0; 18];
    for (length, refused) in LENGTHS {
        let mut buffer = BytesMut::new(rt.alloc());
        buffer
            .extend_from_slice(&bytes[..*length])
            .expect(rt, "memory");
        let message = Message::<Height>::decode(buffer.freeze().expect(rt, "memory"));
        equal_at(rt, length, &message.err(), refused);
    }
}

#[test]
fn equal_names_are_one_key_of_a_map(rt: HostRuntime) -> Result<(), Fail> {
    let mut heights = HashMap::new(rt.alloc());
    heights.insert(Height::from(7), 'a')?;
    heights.insert(Height::from(8), 'b')?;
    heights.insert(Height::from(7), 'c')?;
    equal(&rt, &heights.len(), &2);
    equal(&rt, &heights.get(&Height::from(7)), &Some(&'c'));
    equal(&rt, &heights.get(&Height::from(9)), &None);
    Ok(())
}

#[test]
fn names_are_shown_in_hexadecimal_digits(rt: HostRuntime) {
    let rt = &rt;
    is_written(rt, rt.alloc(), Height::from(0x2a), "Name(000000000000002a)");
    is_written(rt, rt.alloc(), Name::from([1, 2, 3, 255]), "Name(010203ff)");
}
