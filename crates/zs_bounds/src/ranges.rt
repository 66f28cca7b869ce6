//! What a step may return as its output.

ghost use Rattle.std.specs.Prelude.{◌≡◌, IfOk};
ghost use Rattle.zs_bounds.specs.OutputRange.{output_hull, numbers, pairs, sides, lists, number_span, size_span, first_range_in, second_range_in, picked_span, numbers_in, merge_range, applied_range};
ghost use Rattle.zs_bounds.specs.OutRange.{output_range_of};

use crate::span::Span;
use std::alloc::{AllocError, Global};
use zs_term::{Func, Pick};

// A range of outputs: of numbers, pairs, sides of a choice, or lists by their number of items.
#[derive(Drop)]
pub(crate) enum OutRange {
    // No output.
    Nothing,
    Numbers(Span),
    Pairs(Box<OutRange>, Box<OutRange>),
    // What may be on the left, and on the right.
    Sides(Box<OutRange>, Box<OutRange>),
    Lists(Span),
    // Every output. No schedule has it, since both sides that are joined have one kind.
    Anything,
}

// Pairs of two ranges.
pub(crate) fn make_pairs(
    alloc: Global,
    first: OutRange,
    second: OutRange,
) -> Result<OutRange, AllocError>
    ensures value { IfOk result (λ r.
        output_range_of r ≡ pairs (output_range_of first) (output_range_of second)) }
{
    Ok(OutRange::Pairs(Box::new(alloc, first)?, Box::new(alloc, second)?))
}

// A choice of two ranges.
pub(crate) fn make_sides(
    alloc: Global,
    left: OutRange,
    right: OutRange,
) -> Result<OutRange, AllocError>
    ensures value { IfOk result (λ r.
        output_range_of r ≡ sides (output_range_of left) (output_range_of right)) }
{
    Ok(OutRange::Sides(Box::new(alloc, left)?, Box::new(alloc, right)?))
}

// A copy of a range.
#[cycle(copying)]
pub(crate) fn copy_range(alloc: Global, range: &OutRange) -> Result<OutRange, AllocError>
    ensures value { IfOk result (λ r. output_range_of r ≡ output_range_of range.now) }
{
    match range {
        OutRange::Nothing => Ok(OutRange::Nothing),
        OutRange::Numbers(s) => Ok(OutRange::Numbers(*s)),
        OutRange::Pairs(a, b) => make_pairs(alloc, copy_range(alloc, a)?, copy_range(alloc, b)?),
        OutRange::Sides(a, b) => make_sides(alloc, copy_range(alloc, a)?, copy_range(alloc, b)?),
        OutRange::Lists(s) => Ok(OutRange::Lists(*s)),
        OutRange::Anything => Ok(OutRange::Anything),
    }
}

// A range around a span of numbers and another range.
fn numbers_hull(span: Span, second: OutRange) -> OutRange
    ensures value { output_range_of result ≡ output_hull (numbers span) (output_range_of second) }
{
    match second {
        OutRange::Nothing => OutRange::Numbers(span),
        OutRange::Numbers(other) => OutRange::Numbers(span.hull(other)),
        _ => OutRange::Anything,
    }
}

// A range around lists and another range.
fn lists_hull(span: Span, second: OutRange) -> OutRange
    ensures value { output_range_of result ≡ output_hull (lists span) (output_range_of second) }
{
    match second {
        OutRange::Nothing => OutRange::Lists(span),
        OutRange::Lists(other) => OutRange::Lists(span.hull(other)),
        _ => OutRange::Anything,
    }
}

// Widens a range, so that it is around another one too.
#[cycle(joining)]
pub(crate) fn join(range: &mut OutRange, other: OutRange)
    ensures value { output_range_of range.new
        ≡ output_hull (output_range_of range.old) (output_range_of other) }
{
    match range {
        OutRange::Nothing => *range = other,
        OutRange::Numbers(s) => *range = numbers_hull(*s, other),
        OutRange::Lists(s) => *range = lists_hull(*s, other),
        OutRange::Pairs(a, b) => match other {
            OutRange::Nothing => {}
            OutRange::Pairs(c, d) => {
                join(a, Box::into_inner(c));
                join(b, Box::into_inner(d));
            }
            _ => *range = OutRange::Anything,
        },
        OutRange::Sides(a, b) => match other {
            OutRange::Nothing => {}
            OutRange::Sides(c, d) => {
                join(a, Box::into_inner(c));
                join(b, Box::into_inner(d));
            }
            _ => *range = OutRange::Anything,
        },
        OutRange::Anything => {}
    }
}

// The span of a range's numbers, if it has numbers alone.
fn number_span(range: &OutRange) -> Option<Span>
    ensures value { result ≡ number_span (output_range_of range.now) }
{
    match range {
        OutRange::Numbers(s) => Some(*s),
        _ => None,
    }
}

// The span of the lengths of lists, if it has lists alone.
fn size_span(range: &OutRange) -> Option<Span>
    ensures value { result ≡ size_span (output_range_of range.now) }
{
    match range {
        OutRange::Lists(s) => Some(*s),
        _ => None,
    }
}

// The span of the numbers that a test reads, if they have one.
pub(crate) fn picked_span(pick: Pick, range: &OutRange) -> Option<Span>
    ensures value { result ≡ picked_span pick (output_range_of range.now) }
{
    match pick {
        Pick::Whole => number_span(range),
        Pick::First => match range {
            OutRange::Pairs(a, _) => number_span(a),
            _ => number_span(range),
        },
        Pick::Second => match range {
            OutRange::Pairs(_, b) => number_span(b),
            _ => number_span(range),
        },
        Pick::Size => size_span(range),
    }
}

// Numbers, if they have a span.
fn numbers_in(span: Option<Span>) -> OutRange
    ensures value { output_range_of result ≡ numbers_in span }
{
    match span {
        None => OutRange::Anything,
        Some(s) => OutRange::Numbers(s),
    }
}

// The range of the first parts of pairs.
fn first_of(range: OutRange) -> OutRange
    ensures value { output_range_of result ≡ first_range_in (output_range_of range) }
{
    match range {
        OutRange::Pairs(a, _) => Box::into_inner(a),
        other => other,
    }
}

// The range of the second parts of pairs.
fn second_of(range: OutRange) -> OutRange
    ensures value { output_range_of result ≡ second_range_in (output_range_of range) }
{
    match range {
        OutRange::Pairs(_, b) => Box::into_inner(b),
        other => other,
    }
}

// The range of what is on either side.
fn merge_range(range: OutRange) -> OutRange
    ensures value { output_range_of result ≡ merge_range (output_range_of range) }
{
    match range {
        OutRange::Sides(a, b) => {
            let mut either = Box::into_inner(a);
            join(&mut either, Box::into_inner(b));
            either
        }
        other => other,
    }
}

// The range of a function's results.
pub(crate) fn func_range(func: Func, range: OutRange) -> OutRange
    ensures value { output_range_of result ≡ applied_range func (output_range_of range) }
{
    match func {
        Func::First => first_of(range),
        Func::Second => second_of(range),
        Func::Size => numbers_in(size_span(&range)),
        Func::Merge => merge_range(range),
        Func::Const(n) => OutRange::Numbers(Span::one(n)),
        Func::Add(n) => match number_span(&range) {
            None => OutRange::Anything,
            Some(s) => OutRange::Numbers(Span::new(
                s.low.saturating_add(n),
                s.high.saturating_add(n),
            )),
        },
        Func::Mul(n) => match number_span(&range) {
            None => OutRange::Anything,
            Some(s) => OutRange::Numbers(Span::new(
                s.low.saturating_mul(n),
                s.high.saturating_mul(n),
            )),
        },
    }
}
