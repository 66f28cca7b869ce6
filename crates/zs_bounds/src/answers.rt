//! What a step may return, and what `andThenEither`, tests and resets make of it.

ghost use Rattle.std.specs.Prelude.{◌≡◌, IfOk};
ghost use Rattle.zs_bounds.specs.AnswerRange.{no_result, result_hull, results_if, left_range, right_range, reset_range, test_range};
ghost use Rattle.zs_bounds.specs.OutRange.{result_range};
ghost use Rattle.zs_bounds.specs.Node.{turns_joined};

use crate::decisions::Decisions;
use crate::ranges::{OutRange, copy_range, join, make_sides};
use crate::span::Span;
use std::alloc::{AllocError, Global};
use zs_term::Test;

// What a step may return: a range of outputs, and decisions.
pub(crate) type AnswerRange = (OutRange, Decisions);

// No result.
pub(crate) fn no_result() -> AnswerRange
    ensures value { result_range result ≡ no_result }
{
    (OutRange::Nothing, Decisions::nothing())
}

// The results of one or the other.
pub(crate) fn result_hull(first: AnswerRange, second: AnswerRange) -> AnswerRange
    ensures value { result_range result ≡ result_hull (result_range first) (result_range second) }
{
    let (mut x, d) = first;
    let (y, e) = second;
    join(&mut x, y);
    (x, d.hull(e))
}

// The results of a first part that goes on.
pub(crate) fn left_range(alloc: Global, answer: AnswerRange) -> Result<AnswerRange, AllocError>
    ensures value { IfOk result (λ r. result_range r ≡ left_range (result_range answer)) }
{
    let (out, decision) = answer;
    if !decision.may_go_on() {
        return Ok(no_result());
    }
    Ok((
        make_sides(alloc, out, OutRange::Nothing)?,
        Decisions::always(decision.waits),
    ))
}

// The results of a second part, if a fact holds.
pub(crate) fn right_range(
    alloc: Global,
    holds: bool,
    answer: AnswerRange,
) -> Result<AnswerRange, AllocError>
    ensures value { IfOk result (λ r.
        result_range r ≡ results_if holds (right_range (result_range answer))) }
{
    if !holds {
        return Ok(no_result());
    }
    let (out, decision) = answer;
    Ok((make_sides(alloc, OutRange::Nothing, out)?, decision))
}

// A copy of results, if a fact holds.
pub(crate) fn copy_if(
    alloc: Global,
    holds: bool,
    answer: &AnswerRange,
) -> Result<AnswerRange, AllocError>
    ensures value { IfOk result (λ r.
        result_range r ≡ results_if holds (result_range answer.now)) }
{
    if !holds {
        return Ok(no_result());
    }
    Ok((copy_range(alloc, &answer.0)?, answer.1))
}

// The results of two parts in turn: of the first, of the second if it may have been on, and of its
// first step if the first may be done.
pub(crate) fn turn_range(
    alloc: Global,
    is_on: bool,
    first: AnswerRange,
    second: AnswerRange,
    start: AnswerRange,
) -> Result<AnswerRange, AllocError>
    ensures value { IfOk result (λ r. result_range r
        ≡ turns_joined is_on (result_range first) (result_range second) (result_range start)) }
{
    let stops = first.1.stops;
    let left = left_range(alloc, first)?;
    let right = right_range(alloc, is_on, second)?;
    let new = right_range(alloc, stops, start)?;
    Ok(result_hull(result_hull(left, right), new))
}

// The results under a test of a number of a span, if there is one.
pub(crate) fn test_range(test: Test, span: Option<Span>, answer: AnswerRange) -> AnswerRange
    ensures value { result_range result ≡ test_range test span (result_range answer) }
{
    let (out, decision) = answer;
    (out, decision.under(test, span))
}

// The results of a part, or those of its first step, if it may be reset.
pub(crate) fn reset_range(
    passes: bool,
    fails: bool,
    answer: AnswerRange,
    first: AnswerRange,
) -> AnswerRange
    ensures value { result_range result
        ≡ reset_range passes fails (result_range answer) (result_range first) }
{
    if !passes {
        return answer;
    }
    if fails {
        result_hull(answer, first)
    } else {
        first
    }
}
