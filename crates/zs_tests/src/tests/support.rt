//! Helpers that the tests share: jobs, plans with their reports, and readers and writers that fail.
//!
//! The proof of a test grows with what is alive while it asserts. So a test passes its cases to a
//! helper, which asserts on text and has no task, plan or result alive while it does.
use std::process::Abort;

pub mod jobs;
pub mod plans;
pub mod streams;

/// Asserts that two texts are equal.
pub fn expect_text(rt: &impl Abort, found: &str, wanted: &str, of: &str) {
    assert_eq!(rt; (of, found), (of, wanted));
}

/// Asserts each of these facts of the run with this number.
pub fn expect_each(rt: &impl Abort, facts: &[bool], at: u64) {
    for (place, holds) in facts.iter().enumerate() {
        assert!(rt; *holds, "at {at}: fact {place}");
    }
}
