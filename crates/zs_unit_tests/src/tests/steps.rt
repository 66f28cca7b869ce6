//! Worked examples, by `plain` on each prefix and by `follow`. The values are worked out by hand
//! from docs/SEMANTICS.md.
ghost use Rattle.std.specs.Prelude.{◌<◌, ◌≤◌, length, IfOk};
ghost use Rattle.zs_step.specs.Compiled.{last_seen};
ghost use Rattle.zs_step.specs.History.{history_of, IsInOrder};

use super::support::expect_text;
use std::alloc::{Alloc, AllocError, Global};
use std::fmt::Write;
use std::process::Abort;
use std::test::Fail;
use zs_step::{Compiled, Decision, follow, plain};
use zs_term::{Checked, Out, append_out, read};

// A schedule, its pairs of a moment and an input, the results, and the visits of the steps.
type Row<'a> = (&'a str, &'a [(u64, u64)], &'a str, &'a str);

// A name, and rows that belong to it.
type Group<'a> = (&'a str, &'a [Row<'a>]);

// Appends an output and a decision.
fn push_step(text: &mut String, out: &Out, decision: Decision) -> Result<(), AllocError> {
    append_out(text, out)?;
    match decision {
        Decision::Stop => text.push_str(" done;"),
        Decision::Next(moment) => write!(text, " {moment};"),
    }
}

// Appends what `plain` returns at the last pair.
fn push_answer(
    alloc: Global,
    text: &mut String,
    checked: &Checked,
    pairs: &[(u64, u64)],
) -> Result<(), Fail>
    requires some { 0 < length pairs.now }
    requires order { IsInOrder (history_of pairs.now) }
{
    let (out, decision) = plain(alloc, checked, pairs)?;
    Ok(push_step(text, &out, decision)?)
}

// Appends what `plain` returns for each prefix of the pairs. Returns the pairs, which are in order.
pub fn push_plain_answers<R: Abort + Alloc<A = Global>>(
    rt: &R,
    text: &mut String,
    checked: &Checked,
    pairs: &[(u64, u64)],
) -> Result<Vec<(u64, u64)>, Fail>
    ensures order { IfOk result (λ seen. IsInOrder (history_of seen.items)) }
{
    let mut seen = Vec::new(rt.alloc());
    let mut last = 0;
    for pair in pairs {
        let (now, input) = *pair;
        assert!(rt; last <= now, "a moment before an earlier one");
        last = now;
        seen.push((now, input))?;
        push_answer(rt.alloc(), text, checked, &seen)?;
    }
    Ok(seen)
}

// Appends what `follow` returns, and then the visits of its steps.
pub fn push_followed(
    alloc: Global,
    text: &mut String,
    checked: Checked,
    pairs: &[(u64, u64)],
) -> Result<(), Fail>
    requires order { IsInOrder (history_of pairs.now) }
{
    let steps = follow(alloc, checked, pairs)?;
    for step in &steps {
        push_step(text, &step.out, step.decision)?;
    }
    for step in &steps {
        write!(text, "{};", step.visits)?;
    }
    Ok(())
}

// Appends both.
fn push_both<R: Abort + Alloc<A = Global>>(
    rt: &R,
    text: &mut String,
    schedule: &str,
    pairs: &[(u64, u64)],
) -> Result<(), Fail> {
    let checked = read(rt.alloc(), schedule)?;
    let seen = push_plain_answers(rt, text, &checked, pairs)?;
    push_followed(rt.alloc(), text, checked, &seen)
}

// Both results of each row are as listed. A table without rows fails.
fn expect_answers<R: Abort + Alloc<A = Global>>(
    rt: &R,
    of: &str,
    rows: &[Row<'_>],
) -> Result<(), Fail> {
    assert!(rt; !rows.is_empty(), "{of}: no rows");
    for (schedule, pairs, answers, visits) in rows {
        let mut text = String::new(rt.alloc());
        push_both(rt, &mut text, schedule, pairs)?;
        let wanted = format!(in rt.alloc(); "{answers}{answers}{visits}")?;
        expect_text(rt, &text, &wanted, schedule);
    }
    Ok(())
}

// The same for each group.
fn expect_groups<R: Abort + Alloc<A = Global>>(rt: &R, groups: &[Group<'_>]) -> Result<(), Fail> {
    assert!(rt; !groups.is_empty(), "no groups");
    for (name, rows) in groups {
        expect_answers(rt, name, rows)?;
    }
    Ok(())
}

// Pairs that many rows have.
const TWO: [(u64, u64); 2] = [(1, 0), (2, 0)];

const THREE: [(u64, u64); 3] = [(5, 0), (5, 1), (9, 0)];

static ANSWERS: [Group<'static>; 13] = [
    (
        "counters_go_on_at_equal_moments",
        &[
            ("forever", &THREE, "0 5;1 5;2 9;", "1;1;1;"),
            ("recurs(2)", &THREE, "0 5;1 5;2 done;", "1;1;1;"),
            ("identity", &THREE, "0 5;1 5;0 9;", "1;1;1;"),
            ("elapsed", &THREE, "0 5;0 5;4 9;", "1;1;1;"),
            ("forever", &[], "", ""),
        ],
    ),
    (
        "delays_grow_by_their_rules",
        &[
            ("fibonacci(10)", &THREE, "10 15;10 15;20 29;", "1;1;1;"),
            (
                "linear(10)",
                &[(1, 0), (12, 0), (33, 0)],
                "10 11;20 32;30 63;",
                "1;1;1;",
            ),
            ("spaced(10)", &[(4, 1), (18, 1)], "0 14;1 28;", "1;1;"),
        ],
    ),
    (
        "runs_keep_to_the_first_moment",
        &[
            (
                "fixed(100)",
                &[(50, 1), (400, 1), (410, 1), (460, 1)],
                "0 150;1 400;2 450;3 550;",
                "1;1;1;1;",
            ),
            ("fixed(100)", &[(50, 1), (250, 1)], "0 150;1 350;", "1;1;"),
            ("fixed(0)", &THREE, "0 5;1 5;2 9;", "1;1;1;"),
            (
                "windowed(100)",
                &[(50, 1), (400, 1), (460, 1)],
                "0 150;1 450;2 550;",
                "1;1;1;",
            ),
        ],
    ),
    (
        "sums_and_products_are_cut_at_the_greatest_moment",
        &[
            (
                "spaced(18446744073709551615)",
                &TWO,
                "0 18446744073709551615;1 18446744073709551615;",
                "1;1;",
            ),
            (
                "fixed(18446744073709551615)",
                &TWO,
                "0 18446744073709551615;1 18446744073709551615;",
                "1;1;",
            ),
            (
                "windowed(18446744073709551615)",
                &TWO,
                "0 18446744073709551615;1 18446744073709551615;",
                "1;1;",
            ),
        ],
    ),
    (
        "delays_are_cut_at_the_greatest_moment",
        &[
            (
                "spaced(18446744073709551615)",
                &THREE,
                "0 18446744073709551615;1 18446744073709551615;2 18446744073709551615;",
                "1;1;1;",
            ),
            (
                "exponential(9223372036854775808)",
                &TWO,
                "9223372036854775808 9223372036854775809;18446744073709551615 18446744073709551615;",
                "1;1;",
            ),
            (
                "linear(9223372036854775808)",
                &TWO,
                "9223372036854775808 9223372036854775809;18446744073709551615 18446744073709551615;",
                "1;1;",
            ),
            (
                "fibonacci(9223372036854775808)",
                &[(0, 0), (0, 0), (1, 0)],
                "9223372036854775808 9223372036854775808;9223372036854775808 9223372036854775808;18446744073709551615 18446744073709551615;",
                "1;1;1;",
            ),
        ],
    ),
    (
        "functions_are_cut_at_the_greatest_moment",
        &[
            (
                "forever.map(+ 18446744073709551615)",
                &TWO,
                "18446744073709551615 1;18446744073709551615 2;",
                "2;2;",
            ),
            (
                "linear(2).map(* 9223372036854775808)",
                &TWO,
                "18446744073709551615 3;18446744073709551615 6;",
                "2;2;",
            ),
        ],
    ),
    (
        "both_wait_for_the_later_and_either_for_the_earlier",
        &[
            (
                "(exponential(10) && recurs(3))",
                &[(1, 1), (12, 1), (33, 1), (74, 1)],
                "(10,0) 11;(20,1) 32;(40,2) 73;(80,3) done;",
                "3;3;3;3;",
            ),
            (
                "(exponential(1, 4294967296) || spaced(1))",
                &[(1, 0), (3, 0), (5, 0)],
                "(1,0) 2;(4294967296,1) 4;(18446744073709551615,2) 6;",
                "3;3;3;",
            ),
        ],
    ),
    (
        "a_done_part_goes_on_again",
        &[(
            "(identity.whileInput(= 0) || recurs(3))",
            &[(1, 0), (2, 1), (3, 0), (4, 0)],
            "(0,0) 1;(1,1) 2;(0,2) 3;(0,3) 4;",
            "4;4;4;4;",
        )],
    ),
    (
        "the_second_begins_at_the_done_step",
        &[
            (
                "(recurs(2) andThenEither recurs(1))",
                &[(1, 5), (2, 5), (3, 5), (4, 5)],
                "Left(0) 1;Left(1) 2;Right(0) 3;Right(1) done;",
                "2;2;3;2;",
            ),
            (
                "(recurs(0) andThenEither linear(7)).map(merge)",
                &TWO,
                "7 8;14 16;",
                "4;3;",
            ),
        ],
    ),
    (
        "a_list_leaves_out_the_done_steps",
        &[
            (
                "identity.whileInput(< 3).collectAll",
                &[(1, 1), (2, 2), (3, 3)],
                "[] 1;[1] 2;[1,2] done;",
                "3;3;3;",
            ),
            (
                "identity.whileInput(= 0).collectAll",
                &[(1, 0), (2, 1), (3, 0), (4, 0)],
                "[] 1;[0] done;[0] 3;[0,0] 4;",
                "3;3;3;3;",
            ),
        ],
    ),
    (
        "sizes_and_parts_are_tested",
        &[
            (
                "forever.collectAll.whileOutput(size < 1).map(size)",
                &TWO,
                "0 1;1 done;",
                "4;4;",
            ),
            (
                "(elapsed && identity).whileOutput(_2 = 0).map(_1)",
                &[(1, 0), (4, 7)],
                "0 1;3 done;",
                "5;5;",
            ),
        ],
    ),
    (
        "a_reset_answers_anew",
        &[
            (
                "recurs(5).resetWhen(= 2)",
                &[(1, 0), (2, 0), (3, 0), (4, 0)],
                "0 1;1 2;0 3;1 4;",
                "2;2;3;2;",
            ),
            (
                "elapsed.resetWhen(>= 5)",
                &[(0, 0), (3, 0), (6, 0), (8, 0)],
                "0 0;3 3;0 6;2 8;",
                "2;2;3;2;",
            ),
            ("forever.resetWhen(= 0)", &TWO, "0 1;1 2;", "3;2;"),
            (
                "(recurs(9).resetWhen(= 2) && elapsed).resetWhen(_2 >= 5)",
                &[(0, 0), (1, 0), (2, 0), (5, 0), (6, 0)],
                "(0,0) 0;(1,1) 1;(0,2) 2;(0,0) 5;(1,1) 6;",
                "5;5;6;9;5;",
            ),
        ],
    ),
    (
        "a_reset_forgets_side_and_list",
        &[
            (
                "((recurs(1) andThenEither forever) && forever).resetWhen(_2 = 2)",
                &[(1, 0), (2, 0), (3, 0), (4, 0)],
                "(Left(0),0) 1;(Right(0),1) 2;(Left(0),0) 3;(Right(0),1) 4;",
                "5;6;9;6;",
            ),
            (
                "identity.collectAll.resetWhen(size = 2)",
                &[(1, 7), (2, 8), (3, 9), (4, 6)],
                "[] 1;[7] 2;[] 3;[9] 4;",
                "3;3;5;3;",
            ),
        ],
    ),
];

#[test]
fn each_schedule_returns_what_is_listed(rt: HostRuntime) -> Result<(), Fail> {
    expect_groups(&rt, &ANSWERS)
}

// A schedule, two moments at which a new state is stepped by hand, and each result, with whether
// the state is broken before and after.
type ByHand<'a> = (&'a str, u64, u64, &'a str);

static STEPS: [ByHand<'static>; 2] = [
    ("recurs(0)", 3, 3, "false 0 done;false 1 done;false"),
    ("elapsed", 5, 9, "false 0 5;false 4 9;false"),
];

// Steps a state, and appends whether it is broken before, and the result.
fn push_hand(text: &mut String, compiled: &mut Compiled, now: u64) -> Result<(), Fail>
    requires order { last_seen compiled.old ≤ now }
    ensures seen { last_seen compiled.new ≤ now }
{
    write!(text, "{} ", compiled.broken())?;
    let step = compiled.step(now, 0)?;
    Ok(push_step(text, &step.out, step.decision)?)
}

// Steps a state twice, and appends each result.
fn push_both_steps(
    text: &mut String,
    compiled: &mut Compiled,
    first: u64,
    second: u64,
) -> Result<(), Fail>
    requires begun { last_seen compiled.old ≤ first }
    requires order { first ≤ second }
{
    push_hand(text, compiled, first)?;
    push_hand(text, compiled, second)?;
    write!(text, "{}", compiled.broken())?;
    Ok(())
}

// Steps a new state twice.
fn by_hand(
    alloc: Global,
    text: &mut String,
    schedule: &str,
    first: u64,
    second: u64,
) -> Result<(), Fail>
    requires order { first ≤ second }
{
    let mut compiled = Compiled::new(alloc, read(alloc, schedule)?)?;
    push_both_steps(text, &mut compiled, first, second)
}

#[test]
fn a_new_state_is_whole_and_stepped_by_hand(rt: HostRuntime) -> Result<(), Fail> {
    for (schedule, first, second, wanted) in &STEPS {
        assert!(rt; *first <= *second);
        let mut found = String::new(rt.alloc());
        by_hand(rt.alloc(), &mut found, schedule, *first, *second)?;
        expect_text(&rt, &found, wanted, schedule);
    }
    Ok(())
}

// Pairs (k, k), each with the result `k k`, and one visit a node.
#[derive(Drop)]
struct Many {
    pairs: Vec<(u64, u64)>,
    answers: String,
    visits: String,
}

// Makes this number of such pairs.
fn many_of(alloc: Global, count: u64, visits: &str) -> Result<Many, AllocError> {
    let mut made = Many {
        pairs: Vec::new(alloc),
        answers: String::new(alloc),
        visits: visits.repeat(alloc, count as usize)?,
    };
    for k in 0..count {
        made.pairs.push((k, k))?;
        write!(made.answers, "{k} {k};")?;
    }
    Ok(made)
}

// A schedule returns what is listed for this number of such pairs.
fn expect_many<R: Abort + Alloc<A = Global>>(
    rt: &R,
    schedule: &str,
    count: u64,
    visits: &str,
) -> Result<(), Fail> {
    let made = many_of(rt.alloc(), count, visits)?;
    let row = (
        schedule,
        made.pairs.as_slice(),
        made.answers.as_str(),
        made.visits.as_str(),
    );
    expect_answers(rt, "many pairs", &[row])
}

#[test]
fn many_pairs_are_answered(rt: HostRuntime) -> Result<(), Fail> {
    expect_many(&rt, "forever.collectAll.map(size)", 150, "3;")?;
    for schedule in [
        "forever",
        "recurs(2000)",
        "identity",
        "elapsed",
        "spaced(0)",
    ] {
        expect_many(&rt, schedule, 1100, "1;")?;
    }
    Ok(())
}
