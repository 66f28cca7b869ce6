//! Both sides of the limits of depth and weight, and texts that would overflow the stack of a
//! recursive parser.
use super::support::{expect_text, reading};
use std::alloc::{Alloc, AllocError, Global};
use std::process::Abort;
use zs_term::{Kind, Term, check};

// A part, how often it is repeated, a frame, and the reading, or `ok` if that is the text itself.
// In the frame `#` is the repeated part, and `~` that number of opening parentheses. The part
// `leaves` is a conjunction of 500.
type Row<'a> = (&'a str, usize, &'a str, &'a str);

static LIMITS: [Row<'static>; 11] = [
    // A weight of 1,000 is read.
    ("leaves", 1, "#", "ok"),
    ("leaves", 1, "#.collectAll", "ok"),
    ("leaves", 1, "#.collectAll.collectAll", "too big"),
    ("leaves", 1, "(# && recurs(1))", "too big"),
    // A depth of 64 is read.
    (".collectAll", 63, "forever#", "ok"),
    (".collectAll", 64, "forever#", "too big"),
    (".collectAll", 62, "forever#.resetWhen(size = 0)", "ok"),
    (".collectAll", 63, "forever#.resetWhen(size = 0)", "too big"),
    // A reset weighs its part twice.
    (".resetWhen(= 0)", 8, "forever#", "ok"),
    (".resetWhen(= 0)", 9, "forever#", "too big"),
    (".resetWhen(= 0)", 100, "forever#", "too big"),
];

static PARENTHESES: [Row<'static>; 2] = [
    ("(", 100_000, "#", "no term at byte 100000"),
    ("(forever && ", 100_000, "#", "no term at byte 1200000"),
];

static MEGABYTES: [Row<'static>; 1] = [("((((((((((", 1_500_000, "#", "no term at byte 15000000")];

static DEEP: [Row<'static>; 2] = [
    (" && forever)", 100_000, "~forever#", "too big"),
    (".collectAll", 100_000, "forever#", "too big"),
];

// Frames whose parts are put into each other: 5 * 5 * 5 * 2 * 2 parts.
static FRAMES: [&str; 5] = [
    "((# && #) && ((# && #) && #))",
    "((# && #) && ((# && #) && #))",
    "((# && #) && ((# && #) && #))",
    "(# && #)",
    "(# && #)",
];

// Puts a text into the first frame, that into the next one, and so on.
fn framed(alloc: Global, part: &str, frames: &[&str]) -> Result<String, AllocError> {
    let mut text = String::from_str(alloc, part)?;
    for frame in frames {
        text = frame.replace(alloc, '#', &text)?;
    }
    Ok(text)
}

// Makes the text of a row.
fn text_of(alloc: Global, part: &str, times: usize, frame: &str) -> Result<String, AllocError> {
    let part = if part == "leaves" {
        framed(alloc, "recurs(1)", &FRAMES)?
    } else {
        part.repeat(alloc, times)?
    };
    if let Some(rest) = frame.strip_prefix("~") {
        let mut text = "(".repeat(alloc, times)?;
        text.push_str(&rest.replace(alloc, '#', &part)?)?;
        return Ok(text);
    }
    frame.replace(alloc, '#', &part)
}

// The text of each row is read as listed. A table without rows fails.
fn expect_limits<R: Abort + Alloc<A = Global>>(rt: &R, rows: &[Row<'_>]) {
    assert!(rt; !rows.is_empty(), "no rows");
    for (part, times, frame, wanted) in rows {
        let text = text_of(rt.alloc(), part, *times, frame).expect(rt, "memory");
        let found = reading(rt.alloc(), &text).expect(rt, "memory");
        let wanted = if *wanted == "ok" {
            text.as_str()
        } else {
            *wanted
        };
        expect_text(rt, &found, wanted, frame);
    }
}

#[test]
fn texts_are_read_up_to_their_limits(rt: HostRuntime) {
    expect_limits(&rt, &LIMITS);
}

// A test may take a minute, so each long text has a separate test.
#[test]
fn open_parentheses_and_pending_left_parts_are_no_term(rt: HostRuntime) {
    expect_limits(&rt, &PARENTHESES);
}

#[test]
fn fifteen_megabytes_of_parentheses_are_no_term(rt: HostRuntime) {
    expect_limits(&rt, &MEGABYTES);
}

#[test]
fn deep_pairs_and_a_long_chain_are_too_big(rt: HostRuntime) {
    expect_limits(&rt, &DEEP);
}

// The form of a term that a caller makes, its nesting depth, and the kind of its outputs or its
// fault.
type Verdict<'a> = (MadeTerm, u64, &'a str);

// A term that a caller makes.
enum MadeTerm {
    Recurs,
    NoFactor,
    NoWindow,
    // A leaf below this number of `collectAll`.
    Lists,
    // This number of conjunctions, each on the left of the next.
    Pairs,
}

static VERDICTS: [Verdict<'static>; 7] = [
    (MadeTerm::Recurs, 0, "numbers"),
    (MadeTerm::NoFactor, 0, "factor is 0"),
    (MadeTerm::NoWindow, 0, "window is 0"),
    (MadeTerm::Lists, 63, "others"),
    (MadeTerm::Lists, 64, "too big"),
    // A term of any depth is freed.
    (MadeTerm::Lists, 200_000, "too big"),
    (MadeTerm::Pairs, 200_000, "too big"),
];

// Makes the term of a row.
fn term_of(alloc: Global, form: &MadeTerm, times: u64) -> Result<Term, AllocError> {
    let mut term = match form {
        MadeTerm::Recurs => Term::Recurs(3),
        MadeTerm::NoFactor => Term::Exponential(1, 0),
        MadeTerm::NoWindow => Term::Windowed(0),
        MadeTerm::Lists | MadeTerm::Pairs => Term::Forever,
    };
    for _ in 0..times {
        let part = Box::new(alloc, term)?;
        term = match form {
            MadeTerm::Pairs => Term::Both(part, Box::new(alloc, Term::Forever)?),
            _ => Term::CollectAll(part),
        };
    }
    Ok(term)
}

// Checks a term: returns the kind of its outputs, or the text of its fault.
fn verdict(alloc: Global, term: Term) -> Result<String, AllocError> {
    match check(alloc, term) {
        Ok(schedule) => match schedule.kind() {
            Kind::Num => String::from_str(alloc, "numbers"),
            _ => String::from_str(alloc, "others"),
        },
        Err(fault) => format!(in alloc; "{fault}"),
    }
}

// The verdict on each row's term is as listed. A table without rows fails.
fn expect_verdicts<R: Abort + Alloc<A = Global>>(rt: &R, rows: &[Verdict<'_>]) {
    assert!(rt; !rows.is_empty(), "no rows");
    for (form, times, wanted) in rows {
        let term = term_of(rt.alloc(), form, *times).expect(rt, "memory");
        let found = verdict(rt.alloc(), term).expect(rt, "memory");
        expect_text(rt, &found, wanted, wanted);
    }
}

#[test]
fn terms_of_callers_are_checked(rt: HostRuntime) {
    expect_verdicts(&rt, &VERDICTS);
}
