//! The one comparison of all tests.

use std::process::Abort;

/// What is found is what a row wants.
pub fn compare(rt: &impl Abort, row: &str, found: &str, wanted: &str) {
    assert_eq!(rt; found, wanted, "{row}");
}
