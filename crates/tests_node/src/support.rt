//! What ends a test.

use std::process::Abort;

/// Ends the test where a text isn't the one that is wanted.
pub fn equal_texts(rt: &impl Abort, found: &str, wanted: &str) {
    assert_eq!(rt; found, wanted);
}

/// Ends the test where a condition doesn't hold.
pub fn holds(rt: &impl Abort, condition: bool) {
    assert!(rt; condition);
}
