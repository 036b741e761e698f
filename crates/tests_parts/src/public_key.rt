//! Names of peers.

use crate::support::holds;
use resolver_base::PublicKey;
use tests_support::names::Letter;

fn is_before<P: PublicKey>(one: &P, other: &P) -> bool {
    one < other
}

#[test]
fn names_are_ordered(rt: HostRuntime) {
    holds(&rt, is_before(&Letter(1), &Letter(2)));
    holds(&rt, !is_before(&Letter(2), &Letter(2)));
}
