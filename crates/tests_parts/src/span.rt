//! Keys as bytes.

use crate::support::{equal, equal_lists};
use bytes::BytesMut;
use resolver_base::Span;
use std::panic::Expect;
use tests_support::names::Letter;

#[test]
fn is_read_as_it_was_written(rt: HostRuntime) {
    let rt = &rt;
    let mut out = BytesMut::new(rt.alloc());
    Letter(123).write(&mut out).expect(rt, "memory");
    Letter(5).write(&mut out).expect(rt, "memory");
    equal_lists(rt, out.as_slice(), &[123, 5]);
    equal(rt, &Letter::read(&[123]), &Some(Letter(123)));
}
