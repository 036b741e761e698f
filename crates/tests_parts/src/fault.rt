use crate::support::{equal, equal_texts};
use resolver_base::Fault;
use std::alloc::{AllocError, AllocFailed};
use std::panic::Expect;

#[test]
fn has_a_number_and_a_name(rt: HostRuntime) {
    const NAMED: &[(Fault, u8, &str)] = &[
        (Fault::OutOfMemory, 1, "OutOfMemory"),
        (Fault::Failed, 2, "Failed"),
        (Fault::Ended, 3, "Ended"),
        (Fault::Busy, 4, "Busy"),
        (Fault::Unasked, 5, "Unasked"),
        (Fault::OutOfRange, 6, "OutOfRange"),
        (Fault::Exhausted, 7, "Exhausted"),
        (Fault::EndOfBuffer, 8, "EndOfBuffer"),
        (Fault::InvalidTag, 9, "InvalidTag"),
        (Fault::InvalidVarint, 10, "InvalidVarint"),
        (Fault::ExtraData, 11, "ExtraData"),
        (Fault::Key, 12, "Key"),
        (Fault::Uneven, 13, "Uneven"),
    ];
    for (fault, number, name) in NAMED {
        equal(&rt, &fault.number(), number);
        equal(&rt, &fault.name(), name);
    }
}

#[test]
fn says_that_memory_is_wanting(rt: HostRuntime) {
    equal(&rt, &Fault::from(AllocError), &Fault::OutOfMemory);
    equal(
        &rt,
        &Fault::from(AllocFailed { value: 5u8 }),
        &Fault::OutOfMemory,
    );
}

#[test]
fn says_why(rt: HostRuntime) {
    const SAID: &[(Fault, &str)] = &[
        (Fault::OutOfMemory, "out of memory"),
        (Fault::Failed, "the machine failed in an earlier step"),
        (Fault::Ended, "the machine has ended"),
        (Fault::Busy, "a scan expects an answer"),
        (Fault::Unasked, "no scan expects this answer"),
        (Fault::OutOfRange, "a drawn number is out of range"),
        (Fault::Exhausted, "no number is left"),
        (Fault::EndOfBuffer, "too few bytes"),
        (Fault::InvalidTag, "no such tag"),
        (Fault::InvalidVarint, "a length is misspelled"),
        (Fault::ExtraData, "bytes are left over"),
        (Fault::Key, "the bytes are no key"),
        (Fault::Uneven, "the book says otherwise"),
    ];
    for (fault, text) in SAID {
        let said = fault.to_string(rt.alloc()).expect(&rt, "memory");
        equal_texts(&rt, said.as_str(), text);
    }
}
