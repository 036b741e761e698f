//! What tests assert, as a call.

use std::fmt::Debug;
use std::process::Abort;

/// That this is what was found.
pub fn assert_same<T: PartialEq + Debug + Copy>(rt: &impl Abort, found: T, expected: T) {
    assert_eq!(rt; found, expected);
}
