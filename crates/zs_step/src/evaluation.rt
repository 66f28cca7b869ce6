//! Evaluates a schedule over a whole history: the definition as a program.

ghost use Rattle.std.specs.Prelude.{◌≡◌, ◌<◌, ◌≤◌, ◌+◌, length, drop, take, IfOk, IsOk, OnOk, IfSome, IfNone, true};
ghost use Rattle.zs_term.specs.Schedule.{schedule_of, two, over, and_then, while_output, collect_all, reset_when};
ghost use Rattle.zs_term.specs.Saturating.{saturated};
ghost use Rattle.zs_term.specs.Output.{passes, picked, output_of, outputs_of, outs_list, number, pair, applied};
ghost use Rattle.zs_term.specs.OutputKind.{OutputKind, HasKind};
ghost use Rattle.zs_term.specs.Kinds.{kind_of};
ghost use Rattle.zs_step.specs.History.{history_of, earlier, IsInOrder};
ghost use Rattle.zs_step.specs.Memory.{is_bare};
ghost use Rattle.zs_step.specs.Answer.{answer_of, answer, waits, from_done, collect_if, collected, is_next, only_if};
ghost use Rattle.zs_step.specs.Evaluation.{Gives, GivesAnswer, IsDoneFrom, IsResetAt};

use crate::decision::Decision;
use crate::fault::StepFault;
use crate::leaf::window_end;
use crate::leaves::{
    exponential_delay, fibonacci_delay, first_moment, fixed_run, last_input, last_moment,
    linear_delay, steps_before,
};
use std::alloc::{AllocError, Global};
use zs_term::{
    Checked, Func, Out, Outs, Pick, Term, Test, make_left, make_list, make_pair, make_right,
};

// Pairs of a moment and an input, oldest first.
type Pairs<'p> = &'p [(u64, u64)];

// An output and a decision.
type Answer = (Out, Decision);

// Evaluates a term at the last pair of a list of pairs.
#[cycle(evaluation)]
fn evaluate(alloc: Global, term: &Term, history: Pairs<'_>) -> Result<Answer, AllocError>
    requires some { 0 < length history.now }
    ensures value { IfOk result (λ r. GivesAnswer r (schedule_of term.now) history.now) }
    ensures succeeds { is_bare (schedule_of term.now) ≡ true → IsOk result }
{
    let now = last_moment(history);
    match term {
        Term::Forever => Ok(return_count(history, Decision::Next(now))),
        Term::Recurs(k) => {
            let again = steps_before(history) < *k;
            Ok(return_count(history, Decision::Next(now).only_if(again)))
        }
        Term::Spaced(delay) => Ok(return_count(history, Decision::after(now, *delay))),
        Term::Fixed(period) => {
            let run = fixed_run(*period, history);
            Ok(return_count(history, Decision::Next(run)))
        }
        Term::Windowed(period) => {
            let end = window_end(*period, first_moment(history), now);
            Ok(return_count(history, Decision::Next(end)))
        }
        Term::Exponential(b, f) => Ok(return_delay(history, exponential_delay(*b, *f, history))),
        Term::Fibonacci(one) => Ok(return_delay(history, fibonacci_delay(*one, history))),
        Term::Linear(unit) => Ok(return_delay(history, linear_delay(*unit, history))),
        Term::Identity => Ok((Out::Num(last_input(history)), Decision::Next(now))),
        Term::Elapsed => {
            let time = now.saturating_sub(first_moment(history));
            Ok((Out::Num(time), Decision::Next(now)))
        }
        Term::Both(a, b) => {
            let (x, y) = (evaluate(alloc, a, history)?, evaluate(alloc, b, history)?);
            pair_outputs(alloc, x.0, y.0, x.1.later(y.1))
        }
        Term::Either(a, b) => {
            let (x, y) = (evaluate(alloc, a, history)?, evaluate(alloc, b, history)?);
            pair_outputs(alloc, x.0, y.0, x.1.earlier(y.1))
        }
        Term::AndThen(a, b) => in_turn(alloc, a, b, history),
        Term::WhileInput(s, test) => {
            let passed = test.passes(last_input(history));
            Ok(only_if(evaluate(alloc, s, history)?, passed))
        }
        Term::WhileOutput(s, pick, test) => while_output(alloc, s, *pick, *test, history),
        Term::CollectAll(s) => collect_all(alloc, s, history),
        Term::Map(s, func) => Ok(map_output(evaluate(alloc, s, history)?, *func)),
        Term::ResetWhen(s, pick, test) => since_last_reset(alloc, s, *pick, *test, history),
    }
}

// Evaluates `andThenEither`: the first part, or the second from the pair on at which the first is
// done.
#[cycle(evaluation)]
fn in_turn(
    alloc: Global,
    first: &Term,
    second: &Term,
    history: Pairs<'_>,
) -> Result<Answer, AllocError>
    requires some { 0 < length history.now }
    ensures value { IfOk result (λ r. GivesAnswer r
        (two and_then (schedule_of first.now) (schedule_of second.now)) history.now) }
{
    match first_done(alloc, first, history)? {
        None => {
            let (out, decision) = evaluate(alloc, first, history)?;
            Ok((make_left(alloc, out)?, decision))
        }
        Some(k) => {
            let rest = from_index(history, k);
            let (out, decision) = evaluate(alloc, second, rest)?;
            Ok((make_right(alloc, out)?, decision))
        }
    }
}

// Evaluates a term that continues while its output passes.
#[cycle(evaluation)]
fn while_output(
    alloc: Global,
    part: &Term,
    pick: Pick,
    test: Test,
    history: Pairs<'_>,
) -> Result<Answer, AllocError>
    requires some { 0 < length history.now }
    ensures value { IfOk result (λ r. GivesAnswer r
        (over (schedule_of part.now) (while_output pick test)) history.now) }
    ensures succeeds { is_bare (schedule_of part.now) ≡ true → IsOk result }
{
    let x = evaluate(alloc, part, history)?;
    let passed = test.passes(pick.read(&x.0));
    Ok(only_if(x, passed))
}

// Evaluates a term whose outputs are collected.
#[cycle(evaluation)]
fn collect_all(alloc: Global, part: &Term, history: Pairs<'_>) -> Result<Answer, AllocError>
    requires some { 0 < length history.now }
    ensures value { IfOk result (λ r. GivesAnswer r
        (over (schedule_of part.now) collect_all) history.now) }
{
    let last = evaluate(alloc, part, history)?;
    let items = outputs_before(alloc, part, history)?;
    Ok((make_list(items), decision_of(last)))
}

// Evaluates a term from its last reset on.
#[cycle(evaluation)]
fn since_last_reset(
    alloc: Global,
    part: &Term,
    pick: Pick,
    test: Test,
    history: Pairs<'_>,
) -> Result<Answer, AllocError>
    requires some { 0 < length history.now }
    ensures value { IfOk result (λ r. GivesAnswer r
        (over (schedule_of part.now) (reset_when pick test)) history.now) }
    ensures succeeds { is_bare (schedule_of part.now) ≡ true → IsOk result }
{
    let start = reset_start(alloc, part, pick, test, history)?;
    evaluate(alloc, part, from_index(history, start))
}

// Makes a pair of two outputs, with a decision.
fn pair_outputs(
    alloc: Global,
    first: Out,
    second: Out,
    decision: Decision,
) -> Result<Answer, AllocError>
    ensures value { IfOk result (λ r.
        Gives r (answer (pair (output_of first) (output_of second)) decision)) }
{
    Ok((make_pair(alloc, first, second)?, decision))
}

// Stops unless a test passed.
fn only_if(from: Answer, passed: bool) -> Answer
    ensures value { Gives result (answer (output_of from.0) (only_if passed from.1)) }
{
    let (out, decision) = from;
    (out, decision.only_if(passed))
}

// Applies a function to the output.
fn map_output(from: Answer, func: Func) -> Answer
    ensures value { Gives result (answer (applied func (output_of from.0)) from.1) }
{
    let (out, decision) = from;
    (func.apply(out), decision)
}

// Returns the number of earlier steps, with a decision.
fn return_count(history: Pairs<'_>, decision: Decision) -> Answer
    requires some { 0 < length history.now }
    ensures value { Gives result
        (answer (number (saturated (length (earlier (history_of history.now))))) decision) }
{
    (Out::Num(steps_before(history)), decision)
}

// Returns a delay as the output, and continues after it.
fn return_delay(history: Pairs<'_>, delay: u64) -> Answer
    requires some { 0 < length history.now }
    ensures value { Gives result (waits delay (history_of history.now)) }
{
    (
        Out::Num(delay),
        Decision::after(last_moment(history), delay),
    )
}

// Returns the pairs from an index on.
fn from_index(history: Pairs<'_>, k: usize) -> Pairs<'_>
    requires some { k < length history.now }
    ensures rest { result.now ≡ drop k history.now }
    ensures some { 0 < length result.now }
{
    &history[k..]
}

// Returns the decision alone.
fn decision_of(answer: Answer) -> Decision
    ensures value { result ≡ answer.1 }
{
    let (_out, decision) = answer;
    decision
}

// Appends the output of a step that continues.
fn collect(items: &mut Vec<Out>, answer: Answer) -> Result<(), AllocError>
    ensures value { OnOk result (outputs_of items.new.items
        ≡ collect_if (is_next answer.1) (outputs_of items.old.items) (output_of answer.0)) }
{
    let (out, decision) = answer;
    if decision.is_next() {
        items.push(out)?;
    }
    Ok(())
}

// Finds the index of the first pair at which a schedule is done.
#[cycle(evaluation)]
fn first_done(alloc: Global, term: &Term, history: Pairs<'_>) -> Result<Option<usize>, AllocError>
    ensures none { IfOk result (λ k.
        IfNone k (from_done (answer_of (schedule_of term.now)) (history_of history.now) ≡ None)) }
    ensures some { IfOk result (λ k.
        IfSome k (λ i. IsDoneFrom (schedule_of term.now) history.now i)) }
    ensures within { IfOk result (λ k. IfSome k (λ i. i < length history.now)) }
{
    for i in 0..history.len() {
        let answer = evaluate(alloc, term, &history[..i + 1])?;
        let goes_on = decision_of(answer).is_next();
        if !goes_on {
            return Ok(Some(i));
        }
    }
    Ok(None)
}

// Returns the pairs from one index up to and including another.
fn between(history: Pairs<'_>, from: usize, last: usize) -> Pairs<'_>
    requires order { from ≤ last }
    requires within { last < length history.now }
    ensures part { result.now ≡ drop from (take (last + 1) history.now) }
    ensures some { 0 < length result.now }
{
    let front = &history[..last + 1];
    from_index(front, from)
}

// Finds the index of the pair at which a schedule was last reset, or 0.
#[cycle(evaluation)]
fn reset_start(
    alloc: Global,
    term: &Term,
    pick: Pick,
    test: Test,
    history: Pairs<'_>,
) -> Result<usize, AllocError>
    requires some { 0 < length history.now }
    ensures since { IfOk result (λ i. IsResetAt (schedule_of term.now) pick test history.now i) }
    ensures within { IfOk result (λ i. i < length history.now) }
    ensures succeeds { is_bare (schedule_of term.now) ≡ true → IsOk result }
{
    let mut start = 0;
    for i in 0..history.len() {
        let answer = evaluate(alloc, term, between(history, start, i))?;
        if is_passed(answer, pick, test) {
            start = i;
        }
    }
    Ok(start)
}

// Whether the output passes a test.
fn is_passed(answer: Answer, pick: Pick, test: Test) -> bool
    ensures value { result ≡ passes test (picked pick (output_of answer.0)) }
{
    let (out, _decision) = answer;
    test.passes(pick.read(&out))
}

// Collects the outputs of a schedule at the earlier steps at which it continued.
#[cycle(evaluation)]
fn outputs_before(alloc: Global, term: &Term, history: Pairs<'_>) -> Result<Vec<Out>, AllocError>
    requires some { 0 < length history.now }
    ensures value { IfOk result (λ v. outputs_of v.items
        ≡ collected (answer_of (schedule_of term.now)) (earlier (history_of history.now))) }
{
    let mut items = Vec::new(alloc);
    for i in 0..history.len() - 1 {
        let answer = evaluate(alloc, term, &history[..i + 1])?;
        collect(&mut items, answer)?;
    }
    Ok(items)
}

/// Evaluates a schedule at the last pair (moment, input) of a whole history, oldest pair first.
///
/// It evaluates the schedule's parts anew at each earlier pair that their rule needs, and is the
/// reference for [`Compiled`](crate::Compiled). Fails only with `Memory`.
pub fn plain(
    alloc: Global,
    checked: &Checked,
    history: Pairs<'_>,
) -> Result<(Out, Decision), StepFault>
    requires some { 0 < length history.now }
    requires order { IsInOrder (history_of history.now) }
    ensures answered { IfOk result (λ r. GivesAnswer r (schedule_of checked.now) history.now) }
    ensures kinded { IfOk result (λ r.
        (a : OutputKind) → kind_of (schedule_of checked.now) ≡ Some a → HasKind (output_of r.0) a) }
    // A schedule that makes no pair, no side of a choice and no list needs no memory.
    ensures succeeds { is_bare (schedule_of checked.now) ≡ true → IsOk result }
{
    Ok(evaluate(alloc, checked.term(), history)?)
}
