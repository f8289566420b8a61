//! What a test expects.
use std::process::Abort;

/// Ends the test with these words, unless it holds.
pub fn holds(rt: &impl Abort, is_so: bool, words: &str) {
    assert!(rt; is_so, "{words}");
}

/// The same for one case of many, which has this number.
pub fn holds_at(rt: &impl Abort, is_so: bool, words: &str, number: usize) {
    assert!(rt; is_so, "{words} {number}");
}
