//! Helpers that the tests share.
use std::alloc::{AllocError, Global};
use std::fmt::Write;
use std::process::Abort;
use zs_drive::Attempted;
use zs_term::{append_out, read, write};

/// Asserts that two texts are equal.
pub fn expect_text(rt: &impl Abort, found: &str, wanted: &str, of: &str) {
    assert_eq!(rt; (of, found), (of, wanted));
}

/// Reads a text: returns its canonical spelling, or the text of its fault.
pub fn reading(alloc: Global, text: &str) -> Result<String, AllocError> {
    match read(alloc, text) {
        Ok(schedule) => write(alloc, &schedule),
        Err(fault) => format!(in alloc; "{fault}"),
    }
}

/// Appends a line with the fields of a record.
pub fn push_record(text: &mut String, record: &Attempted) -> Result<(), AllocError> {
    let begun = record.begun;
    let Some(ended) = &record.ended else {
        return write!(text, "{begun}..\n");
    };
    let (at, outcome) = (ended.at, ended.outcome);
    write!(text, "{begun}..{at} {outcome:?}")?;
    if let Some((out, decision)) = &ended.step {
        text.push_str(" ")?;
        append_out(text, out)?;
        write!(text, " {decision:?}")?;
    }
    text.push_str("\n")
}
