//! What tests assert, as calls.

use std::fmt::Debug;
use std::process::Abort;
use std::str;

/// That this is what was found.
pub fn assert_same<T: PartialEq + Debug + Copy>(rt: &impl Abort, found: T, expected: T) {
    assert_eq!(rt; found, expected);
}

/// That this text was found.
pub fn assert_text(rt: &impl Abort, found: &[u8], expected: &[u8]) {
    if found != expected {
        let (found, expected) = (str::from_utf8(found), str::from_utf8(expected));
        panic!(rt; "{found:?} instead of {expected:?}");
    }
}
