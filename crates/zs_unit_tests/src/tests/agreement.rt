//! `plain` compared with `follow`, which steps a `Compiled`, on schedules and pairs made from
//! seeds. Each run makes the same ones.
ghost use Rattle.std.specs.Prelude.{◌<◌};

use super::steps::{push_followed, push_plain_answers};
use std::alloc::{Alloc, AllocError, Global};
use std::fmt::Write;
use std::process::Abort;
use std::test::Fail;
use zs_term::read;

const SCHEDULES: u64 = 300;

const COMPARISONS: [&str; 6] = ["<", "<=", "=", "!=", ">", ">="];

const PICKS: [&str; 5] = ["", "", "_1 ", "_2 ", "size "];

const FUNCTIONS: [&str; 6] = ["_1", "_2", "size", "merge", "+ 3", "* 2"];

// Words in the texts of schedules. Every one must occur.
const FORMS: [&str; 18] = [
    "forever",
    "recurs",
    "spaced",
    "fixed",
    "exponential",
    "fibonacci",
    "identity",
    "elapsed",
    "linear",
    "windowed",
    "&&",
    "||",
    "andThenEither",
    "whileInput",
    "whileOutput",
    "collectAll",
    "map",
    "resetWhen",
];

// A generator of numbers that look random.
#[derive(Drop)]
struct Dice {
    state: u64,
}

impl Dice {
    // Returns a number below another one.
    fn below(&mut self, sides: u64) -> u64
        requires some { 0 < sides }
        ensures below { result < sides }
    {
        let product = self.state.wrapping_mul(6364136223846793005);
        self.state = product.wrapping_add(1442695040888963407);
        (self.state >> 33) % sides
    }

    // Returns a number for a schedule, at least 1: mostly a small one, sometimes one near 2^64 - 1.
    fn number(&mut self) -> u64
        ensures some { 0 < result }
    {
        if self.below(16) == 0 {
            u64::MAX - self.below(9)
        } else {
            1 + self.below(9)
        }
    }

    // Returns a word of a list.
    fn word<'a>(&mut self, words: &[&'a str]) -> &'a str {
        let count = words.len() as u64;
        if count == 0 {
            return "";
        }
        words[self.below(count) as usize]
    }
}

// Returns a schedule without parts.
fn leaf(alloc: Global, dice: &mut Dice) -> Result<String, AllocError> {
    let n = dice.number();
    match dice.below(10) {
        0 => format!(in alloc; "forever"),
        1 => format!(in alloc; "recurs({n})"),
        2 => format!(in alloc; "spaced({n})"),
        3 => format!(in alloc; "fixed({n})"),
        4 => format!(in alloc; "exponential({n}, {})", 1 + dice.below(3)),
        5 => format!(in alloc; "fibonacci({n})"),
        6 => format!(in alloc; "identity"),
        7 => format!(in alloc; "elapsed"),
        8 => format!(in alloc; "linear({n})"),
        _ => format!(in alloc; "windowed({n})"),
    }
}

// Puts one more operator over a schedule, with another schedule as the second part if there are
// two. The result may have no kind.
fn under_an_operator(
    alloc: Global,
    dice: &mut Dice,
    part: &str,
    other: &str,
) -> Result<String, AllocError> {
    let comparison = dice.word(&COMPARISONS);
    let pick = dice.word(&PICKS);
    let n = dice.below(6);
    match dice.below(9) {
        0 => format!(in alloc; "({part} && {other})"),
        1 => format!(in alloc; "({other} || {part})"),
        2 => format!(in alloc; "({part} andThenEither {other})"),
        3 => format!(in alloc; "{part}.whileInput({comparison} {n})"),
        4 => format!(in alloc; "{part}.whileOutput({pick}{comparison} {n})"),
        5 => format!(in alloc; "{part}.collectAll"),
        6 => format!(in alloc; "{part}.map({})", dice.word(&FUNCTIONS)),
        7 => format!(in alloc; "{part}.map(as {n})"),
        _ => format!(in alloc; "{part}.resetWhen({pick}{comparison} {n})"),
    }
}

// Makes a schedule by up to eleven operators in turn. One that leaves it without a kind or too
// large is skipped.
fn schedule(alloc: Global, dice: &mut Dice) -> Result<String, AllocError> {
    let mut text = leaf(alloc, dice)?;
    for _ in 0..dice.below(12) {
        let first = leaf(alloc, dice)?;
        let second = leaf(alloc, dice)?;
        let other = under_an_operator(alloc, dice, &first, &second)?;
        let beside = if read(alloc, &other).is_ok() {
            other
        } else {
            first
        };
        let more = under_an_operator(alloc, dice, &text, &beside)?;
        if read(alloc, &more).is_ok() {
            text = more;
        }
    }
    Ok(text)
}

// Makes five to twelve pairs in the order of time, with inputs below 7. Some have equal moments,
// and some are near the last moment.
fn pairs(alloc: Global, dice: &mut Dice) -> Result<Vec<(u64, u64)>, AllocError> {
    let mut made = Vec::new(alloc);
    let mut now = dice.below(20);
    for _ in 0..5 + dice.below(8) {
        made.push((now, dice.below(7)))?;
        let late = if dice.below(40) == 0 {
            u64::MAX - 30
        } else {
            dice.below(25)
        };
        now = now.saturating_add(late);
    }
    Ok(made)
}

// What `plain` returns, and what `follow` returns, with its visits.
#[derive(Drop)]
struct BothAnswers {
    plain: String,
    followed: String,
}

// Evaluates a schedule both ways.
fn both_answers<R: Abort + Alloc<A = Global>>(
    rt: &R,
    schedule: &str,
    pairs: &[(u64, u64)],
) -> Result<BothAnswers, Fail> {
    let alloc = rt.alloc();
    let mut told = BothAnswers {
        plain: String::new(alloc),
        followed: String::new(alloc),
    };
    let checked = read(alloc, schedule)?;
    let seen = push_plain_answers(rt, &mut told.plain, &checked, pairs)?;
    push_followed(alloc, &mut told.followed, checked, &seen)?;
    Ok(told)
}

// Both ways return the same for the schedule of a seed. Appends the schedule's text to those so
// far.
fn expect_agreement<R: Abort + Alloc<A = Global>>(
    rt: &R,
    met: &mut String,
    seed: u64,
) -> Result<(), Fail> {
    let mut dice = Dice { state: seed };
    let schedule = schedule(rt.alloc(), &mut dice)?;
    let pairs = pairs(rt.alloc(), &mut dice)?;
    let told = both_answers(rt, &schedule, &pairs)?;
    let begins = told.followed.starts_with(told.plain.as_str());
    assert!(rt;
        begins,
        "{schedule}: plain {}, followed {}",
        told.plain, told.followed
    );
    write!(met, "{schedule} ")?;
    Ok(())
}

#[test]
fn plain_and_follow_agree_on_schedules_of_seeds(rt: HostRuntime) -> Result<(), Fail> {
    let mut met = String::new(rt.alloc());
    for seed in 0..SCHEDULES {
        expect_agreement(&rt, &mut met, seed)?;
    }
    for form in FORMS {
        assert!(rt; met.contains(form), "{form} was met in no schedule");
    }
    Ok(())
}
