//! The texts of terms: which are read, how they are spelled, and why the others are rejected.
use super::support::{expect_text, reading};
use std::alloc::{Alloc, Global};
use std::process::Abort;

// A name, and texts, each with its spelling, `ok` if that is the text itself, or the text of its
// fault.
type Group<'a> = (&'a str, &'a [(&'a str, &'a str)]);

static READINGS: [Group<'static>; 5] = [
    (
        "each_form_is_read_and_has_one_spelling",
        &[
            ("forever", "forever"),
            ("recurs(0)", "recurs(0)"),
            ("spaced(10)", "spaced(10)"),
            ("fixed(100)", "fixed(100)"),
            ("exponential(10)", "exponential(10, 2)"),
            ("exponential( 10 , 2 )", "exponential(10, 2)"),
            ("fibonacci(10)", "fibonacci(10)"),
            ("identity", "identity"),
            ("elapsed", "elapsed"),
            ("linear(10)", "linear(10)"),
            ("windowed(1)", "windowed(1)"),
            (" ( recurs( 3 )&&spaced(10) ) ", "(recurs(3) && spaced(10))"),
            ("(forever || (identity andThenEither elapsed))", "ok"),
            (
                "( recurs(3)&&spaced( 5 ) ).map( _1 )",
                "(recurs(3) && spaced(5)).map(_1)",
            ),
        ],
    ),
    (
        "tests_and_functions_are_read_and_have_one_spelling",
        &[
            (
                "(fibonacci(3) || fixed(4)).whileInput(>=5)",
                "(fibonacci(3) || fixed(4)).whileInput(>= 5)",
            ),
            ("identity.whileOutput(<5)", "identity.whileOutput(< 5)"),
            ("(identity && elapsed).whileOutput(_2 = 5)", "ok"),
            ("identity.collectAll.whileOutput(size != 5)", "ok"),
            (
                "(forever||elapsed).whileOutput(_2>=7).collectAll",
                "(forever || elapsed).whileOutput(_2 >= 7).collectAll",
            ),
            (
                "(fixed(1)andThenEither fibonacci(2)).whileInput(!=0).map(as 3)",
                "(fixed(1) andThenEither fibonacci(2)).whileInput(!= 0).map(as 3)",
            ),
            (
                "(identity && elapsed).map(_1).map(+ 1).map(*2).map(as 7)",
                "(identity && elapsed).map(_1).map(+ 1).map(* 2).map(as 7)",
            ),
            ("(identity andThenEither elapsed).map(merge)", "ok"),
            ("identity.collectAll.map(size)", "ok"),
            ("forever.resetWhen(= 0)", "forever.resetWhen(= 0)"),
            ("(identity && elapsed).resetWhen(_1 > 7)", "ok"),
            ("identity.collectAll.resetWhen(size >= 3)", "ok"),
            (
                "( linear( 3 )||windowed(4) ).resetWhen( _1 > 7 )",
                "(linear(3) || windowed(4)).resetWhen(_1 > 7)",
            ),
            (
                "identity.map(+1).map(* 2).resetWhen(<=4)",
                "identity.map(+ 1).map(* 2).resetWhen(<= 4)",
            ),
        ],
    ),
    (
        "a_text_that_is_no_term_goes_wrong_at_one_byte",
        &[
            ("", "no term at byte 0"),
            ("   ", "no term at byte 3"),
            ("(recurs(1) && recurs(2)", "no term at byte 23"),
            ("(recurs(1) && recurs(2)  ", "no term at byte 25"),
            ("recurs(1) && recurs(2)", "no term at byte 10"),
            (
                "(recurs(1) && recurs(2) && recurs(3))",
                "no term at byte 24",
            ),
            ("recurs(01)", "no term at byte 7"),
            ("recurs(1).map(_1", "no term at byte 16"),
            ("exponential(10,)", "no term at byte 15"),
            ("identity.whileInput(_1 < 5)", "no term at byte 20"),
            ("identity.resetWhen(merge = 5)", "no term at byte 19"),
            ("forever.", "no term at byte 8"),
            ("forever.forever", "no term at byte 8"),
            ("forever.map(as)", "no term at byte 14"),
            ("((forever))", "no term at byte 9"),
            ("forever &", "no term at byte 8"),
            ("foreverforever", "no term at byte 0"),
            ("Forever", "no term at byte 0"),
            ("recurs ( 1 ", "no term at byte 11"),
            ("recurs(1)\t", "no term at byte 9"),
            ("recurs (\n", "no term at byte 8"),
            ("(recurs(1) & recurs(2))", "no term at byte 11"),
            (
                "(spaced(99999999999999999999999) && recurs(18446744073709551616",
                "no term at byte 63",
            ),
        ],
    ),
    (
        "a_number_fits_64_bits",
        &[
            ("recurs(18446744073709551615)", "ok"),
            ("recurs(18446744073709551616)", "number too large at byte 7"),
            (
                "(spaced(99999999999999999999999) && recurs(18446744073709551616))",
                "number too large at byte 8",
            ),
        ],
    ),
    (
        "of_two_faults_the_first_is_answered",
        &[
            ("exponential(1, 0)", "factor is 0"),
            ("exponential(1, 0).resetWhen(= 0)", "factor is 0"),
            ("recurs(1).map(_1)", "no kind"),
            ("recurs(1).resetWhen(_1 = 0)", "no kind"),
            ("(forever && forever).resetWhen(= 0)", "no kind"),
            (
                "(forever && forever.collectAll).resetWhen(size = 0)",
                "no kind",
            ),
            (
                "(identity andThenEither identity.collectAll).map(merge)",
                "no kind",
            ),
            ("windowed(0)", "window is 0"),
            ("windowed(0).resetWhen(= 0)", "window is 0"),
            ("windowed(0).map(_1)", "no kind"),
            ("(exponential(1, 0) && windowed(0))", "factor is 0"),
            ("(windowed(0).map(_1) && exponential(1, 0))", "factor is 0"),
            (
                "(exponential(1, 0) && recurs(18446744073709551616))",
                "number too large at byte 29",
            ),
            (
                "(recurs(18446744073709551616) && exponential(1, 0)",
                "no term at byte 50",
            ),
        ],
    ),
];

// Each text is read and spelled as listed, or fails as listed. A table without rows fails.
fn expect_readings<R: Abort + Alloc<A = Global>>(rt: &R, of: &str, rows: &[(&str, &str)]) {
    assert!(rt; !rows.is_empty(), "{of}: no rows");
    for (text, wanted) in rows {
        let found = reading(rt.alloc(), text).expect(rt, "memory");
        let wanted = if *wanted == "ok" { *text } else { *wanted };
        expect_text(rt, &found, wanted, text);
    }
}

// The same for each group.
fn expect_groups<R: Abort + Alloc<A = Global>>(rt: &R, groups: &[Group<'_>]) {
    assert!(rt; !groups.is_empty(), "no groups");
    for (name, rows) in groups {
        expect_readings(rt, name, rows);
    }
}

#[test]
fn each_text_is_read_or_fails_as_listed(rt: HostRuntime) {
    expect_groups(&rt, &READINGS);
}
