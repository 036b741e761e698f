//! The numbers of refusals.

use resolver_base::Fault;
use resolver_flat::{Misread, Refusal};

#[test]
fn each_refusal_has_its_number(rt: HostRuntime) {
    const NUMBERS: &[(Refusal, u8)] = &[
        (Refusal::Fault(Fault::OutOfMemory), 1),
        (Refusal::Fault(Fault::Failed), 2),
        (Refusal::Fault(Fault::Ended), 3),
        (Refusal::Fault(Fault::Busy), 4),
        (Refusal::Fault(Fault::Unasked), 5),
        (Refusal::Fault(Fault::OutOfRange), 6),
        (Refusal::Fault(Fault::Exhausted), 7),
        (Refusal::Misspelled, 64),
        (Refusal::Unread, 65),
    ];
    for (refusal, number) in NUMBERS {
        assert_eq!(&rt; refusal.number(), *number);
    }
}

#[test]
fn what_is_misread_is_refused(rt: HostRuntime) {
    assert!(&rt; Refusal::from(Misread::Misspelled) == Refusal::Misspelled);
    assert!(&rt; Refusal::from(Misread::OutOfMemory) == Refusal::Unread);
}
