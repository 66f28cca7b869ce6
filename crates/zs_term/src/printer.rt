//! The canonical spelling of schedules.

ghost use Rattle.std.specs.Prelude.{◌≡◌, ◌<◌, ◌^◌, ◌++◌, IfOk, OnOk, string_bytes};
ghost use Rattle.std.specs.Fmt.{decimal};
ghost use Rattle.zs_term.specs.Schedule.{schedule_of, exponential};
ghost use Rattle.zs_term.specs.Number.{HasFittingNumbers, ModifierFits, FuncFits};
ghost use Rattle.zs_term.specs.Machine.{infix_pairing, test_modifier};
ghost use Rattle.zs_term.specs.Causes.{SpellsSchedule};
ghost use Rattle.zs_term.specs.OutputText.{Adds};
ghost use Rattle.zs_term.specs.Shape.{subject_text};
ghost use Rattle.zs_term.specs.Canonical.{canonical_text, leaf_text, exponential_text, pairing_text, modifier_text, cmp_text, pick_text, func_text, test_text, number_text};

use crate::checked::Checked;
use crate::forms::{Action, Infix, Shape, Subject};
use crate::out_text::NoMemory;
use crate::term::{Cmp, Func, Pick, Term, Test};
use std::alloc::{AllocError, Global};

/// Returns the one canonical spelling of a schedule. `read` returns the schedule again.
pub fn write(alloc: Global, checked: &Checked) -> Result<String, NoMemory>
    ensures ok { IfOk result (λ text.
        string_bytes text ≡ canonical_text (schedule_of checked.now)) }
    // Reading the text returns the schedule.
    ensures read_again { IfOk result (λ text.
        SpellsSchedule (string_bytes text) (schedule_of checked.now)) }
{
    let mut text = String::new(alloc);
    let term = checked.term();
    append(&mut text, term)?;
    numbers_fit(term);
    Ok(text)
}

// Appends the canonical spelling of a term.
fn append(text: &mut String, term: &Term) -> Result<(), AllocError>
    ensures text { OnOk result (Adds text.old text.new (canonical_text (schedule_of term.now))) }
{
    match term.shape() {
        Shape::Plain(form) => text.push_str(form.word()),
        Shape::Counted(form, n) => append_number(text, form.word(), n),
        Shape::Exponential(base, factor) => append_exponential(text, base, factor),
        Shape::Joined(form, a, b) => {
            text.push_str("(")?;
            append(text, a)?;
            text.push_str(infix_text(form))?;
            append(text, b)?;
            text.push_str(")")
        }
        Shape::Tested(a, subject, test) => {
            append(text, a)?;
            append_tested(text, subject, test)
        }
        Shape::Collected(a) => {
            append(text, a)?;
            text.push_str(".collectAll")
        }
        Shape::Mapped(a, func) => {
            append(text, a)?;
            text.push_str(".map(")?;
            append_func(text, func)?;
            text.push_str(")")
        }
    }
}

// Appends a word and a number in parentheses.
fn append_number(text: &mut String, word: &str, number: u64) -> Result<(), AllocError>
    ensures text { OnOk result (Adds text.old text.new (number_text word.now number)) }
{
    text.push_str(word)?;
    text.push_str("(")?;
    write!(text, "{number})")
}

// Appends an `exponential`.
fn append_exponential(text: &mut String, base: u64, factor: u64) -> Result<(), AllocError>
    ensures text { OnOk result (Adds text.old text.new (leaf_text (exponential base factor))) }
{
    append_exponential_word(text)?;
    write!(text, "{base}, ")?;
    write!(text, "{factor})")
}

// Appends the text before the base of an `exponential`.
#[tactic(auto, unfolding(crate::specs::Canonical::exponential_text))]
fn append_exponential_word(text: &mut String) -> Result<(), AllocError>
    ensures text { OnOk result (Adds text.old text.new exponential_text) }
{
    text.push_str("exponential(")
}

// Appends a test and the parenthesis after it.
fn append_test(text: &mut String, test: Test) -> Result<(), AllocError>
    ensures text { OnOk result (Adds text.old text.new (test_text test)) }
{
    text.push_str(cmp_text(test.cmp))?;
    let than = test.than;
    write!(text, "{than})")
}

// Returns the text between two schedules.
#[tactic(auto, unfolding(crate::specs::Canonical::and_then_text))]
fn infix_text(form: Infix) -> &'static str
    ensures text { result.now ≡ pairing_text (infix_pairing form) }
{
    match form {
        Infix::Both => " && ",
        Infix::Either => " || ",
        Infix::AndThen => " andThenEither ",
    }
}

// Returns the text before a test.
#[tactic(auto, unfolding(crate::specs::Canonical::while_input_text, crate::specs::Canonical::while_output_text, crate::specs::Canonical::reset_when_text))]
fn test_word(subject: Subject) -> &'static str
    ensures text { result.now ≡ subject_text subject }
{
    match subject {
        Subject::Input => ".whileInput(",
        Subject::Picked(Action::Stopping, _) => ".whileOutput(",
        Subject::Picked(Action::Resetting, _) => ".resetWhen(",
    }
}

// Appends the modifier with a test that follows a schedule.
fn append_tested(text: &mut String, subject: Subject, test: Test) -> Result<(), AllocError>
    ensures text { OnOk result
        (Adds text.old text.new (modifier_text (test_modifier subject test))) }
{
    let word = test_word(subject);
    match subject {
        Subject::Input => {
            text.push_str(word)?;
            append_test(text, test)
        }
        Subject::Picked(Action::Stopping, pick) => append_picked(text, word, pick, test),
        Subject::Picked(Action::Resetting, pick) => append_picked(text, word, pick, test),
    }
}

// Appends a word and a pick with its test.
fn append_picked(text: &mut String, word: &str, pick: Pick, test: Test) -> Result<(), AllocError>
    ensures text { OnOk result
        (Adds text.old text.new (word.now ++ (pick_text pick ++ test_text test))) }
{
    text.push_str(word)?;
    text.push_str(pick_text(pick))?;
    append_test(text, test)
}

// Returns a comparison and the space after it.
fn cmp_text(cmp: Cmp) -> &'static str
    ensures value { result.now ≡ cmp_text cmp }
{
    match cmp {
        Cmp::Lt => "< ",
        Cmp::Le => "<= ",
        Cmp::Eq => "= ",
        Cmp::Ne => "!= ",
        Cmp::Gt => "> ",
        Cmp::Ge => ">= ",
    }
}

// Returns a pick and the space after it, or nothing for the whole output.
fn pick_text(pick: Pick) -> &'static str
    ensures value { result.now ≡ pick_text pick }
{
    match pick {
        Pick::Whole => "",
        Pick::First => "_1 ",
        Pick::Second => "_2 ",
        Pick::Size => "size ",
    }
}

// Appends a function.
fn append_func(text: &mut String, func: Func) -> Result<(), AllocError>
    ensures text { OnOk result (Adds text.old text.new (func_text func)) }
{
    match func {
        Func::First => text.push_str("_1"),
        Func::Second => text.push_str("_2"),
        Func::Size => text.push_str("size"),
        Func::Merge => text.push_str("merge"),
        Func::Const(n) => write!(text, "as {n}"),
        Func::Add(n) => write!(text, "+ {n}"),
        Func::Mul(n) => write!(text, "* {n}"),
    }
}

// Does nothing: its contract says that the numbers of a term fit in 64 bits. `write` needs this
// fact for the clause that its text is read again.
fn numbers_fit(term: &Term)
    ensures value { HasFittingNumbers (schedule_of term.now) }
{
    match term.shape() {
        Shape::Plain(_) => {}
        Shape::Counted(_, n) => in_range(n),
        Shape::Exponential(base, factor) => {
            in_range(base);
            in_range(factor);
        }
        Shape::Joined(_, a, b) => {
            numbers_fit(a);
            numbers_fit(b);
        }
        Shape::Tested(a, subject, test) => {
            numbers_fit(a);
            test_fits(subject, test);
        }
        Shape::Collected(a) => numbers_fit(a),
        Shape::Mapped(a, func) => {
            numbers_fit(a);
            func_fits(func);
        }
    }
}

// A number of the code fits in 64 bits.
fn in_range(n: u64)
    ensures value { n < 2 ^ 64 }
{}

// The number of a test fits in 64 bits.
fn test_fits(subject: Subject, test: Test)
    ensures value { ModifierFits (test_modifier subject test) }
{
    in_range(test.than);
    match subject {
        Subject::Input | Subject::Picked(Action::Stopping | Action::Resetting, _) => {}
    }
}

// The number of a function fits in 64 bits.
fn func_fits(func: Func)
    ensures value { FuncFits func }
{
    match func {
        Func::First | Func::Second | Func::Size | Func::Merge => {}
        Func::Const(_n) | Func::Add(_n) | Func::Mul(_n) => {}
    }
}
