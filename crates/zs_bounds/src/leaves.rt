//! The results of schedules without parts, by their number of steps and the time since the first
//! one.

ghost use Rattle.std.specs.Prelude.{◌≡◌, ◌*◌, ◌^◌, None, nat_le, nat_lt, if◌then◌else◌};
ghost use Rattle.zs_term.specs.Saturating.{saturated};
ghost use Rattle.zs_step.specs.Answer.{fibonacci_number};
ghost use Rattle.zs_bounds.specs.DecisionRange.{decisions};
ghost use Rattle.zs_bounds.specs.AnswerRange.{leaf_range, waits, period_waits, at_once};
ghost use Rattle.zs_bounds.specs.OutRange.{result_range};
ghost use Rattle.zs_bounds.specs.Leaf.{bare_leaf};

use crate::answers::AnswerRange;
use crate::decisions::Decisions;
use crate::ranges::OutRange;
use crate::span::{Span, UNCUT_WAIT};

// A schedule without parts.
#[derive(Clone, Copy)]
pub(crate) enum Leaf {
    Forever,
    Recurs(u64),
    Spaced(u64),
    Fixed(u64),
    Exponential(u64, u64),
    Fibonacci(u64),
    Identity,
    Elapsed,
    Linear(u64),
    Windowed(u64),
}

// No wait.
fn at_once() -> Option<Span>
    ensures value { result ≡ at_once }
{
    Some(Span::one(0))
}

// The results of a leaf, by its number of steps with this one, and the time since the first one.
pub(crate) fn leaf_range(leaf: Leaf, steps: Span, time: Span) -> AnswerRange
    ensures value { result_range result ≡ leaf_range (bare_leaf leaf) steps time }
{
    let earlier = steps.earlier();
    let count = OutRange::Numbers(earlier);
    match leaf {
        Leaf::Forever => (count, Decisions::always(at_once())),
        Leaf::Recurs(k) => (count, recurs_decision(k, earlier)),
        Leaf::Spaced(delay) => (count, Decisions::always(Span::one(delay).delays())),
        Leaf::Fixed(period) => (count, Decisions::always(period_waits(period, 0, steps))),
        Leaf::Windowed(period) => (count, Decisions::always(period_waits(period, 1, steps))),
        Leaf::Exponential(base, factor) => waits(Span::new(
            power(base, factor, earlier.low),
            power(base, factor, earlier.high),
        )),
        Leaf::Fibonacci(one) => waits(Span::new(
            fibonacci(one, steps.low),
            fibonacci(one, steps.high),
        )),
        Leaf::Linear(unit) => waits(Span::new(
            unit.saturating_mul(steps.low),
            unit.saturating_mul(steps.high),
        )),
        Leaf::Identity => (
            OutRange::Numbers(Span::new(0, u64::MAX)),
            Decisions::always(at_once()),
        ),
        Leaf::Elapsed => (OutRange::Numbers(time), Decisions::always(at_once())),
    }
}

// What `recurs` decides, by the number of earlier steps.
fn recurs_decision(k: u64, earlier: Span) -> Decisions
    ensures value { result
        ≡ decisions (nat_le k earlier.high) (if nat_lt earlier.low k then at_once else None) }
{
    let waits = if earlier.low < k { at_once() } else { None };
    Decisions::new(k <= earlier.high, waits)
}

// Results whose output is their delay.
fn waits(delays: Span) -> AnswerRange
    ensures value { result_range result ≡ waits delays }
{
    (
        OutRange::Numbers(delays),
        Decisions::always(delays.delays()),
    )
}

// The waits up to the end of a period: a whole period at the first step, and at least `some` or a
// whole period at another step.
fn period_waits(period: u64, some: u64, steps: Span) -> Option<Span>
    ensures value { result ≡ period_waits period some steps }
{
    let low = if steps.high <= 1 {
        period.min(UNCUT_WAIT)
    } else {
        some.min(period)
    };
    Some(Span::new(low, period))
}

// A number times a power of a factor. Once it is 0 or cut, it stays unchanged.
#[tactic(auto, using(crate::proofs::Powers::power_none, crate::proofs::Powers::power_ones, crate::proofs::Powers::power_turn, crate::proofs::Powers::power_zero, crate::proofs::Powers::power_cut, crate::proofs::Powers::power_large))]
fn power(base: u64, factor: u64, exponent: u64) -> u64
    ensures value { result ≡ saturated (base * factor ^ exponent) }
{
    if factor == 1 {
        return base;
    }
    // A factor of 2 or more exceeds the greatest number within 64 turns.
    if base > 0 && factor > 1 && exponent > 63 {
        return u64::MAX;
    }
    let mut product = base;
    for _ in 0..exponent {
        if product == 0 || (product == u64::MAX && factor > 0) {
            return product;
        }
        product = product.saturating_mul(factor);
    }
    product
}

// A number times a number of Fibonacci.
#[tactic(auto, using(crate::proofs::Powers::fibonacci_none, crate::proofs::Powers::fibonacci_turn, crate::proofs::Powers::fibonacci_next, crate::proofs::Powers::fibonacci_cut, crate::proofs::Powers::fibonacci_large))]
fn fibonacci(one: u64, index: u64) -> u64
    ensures value { result ≡ saturated (one * fibonacci_number index) }
{
    // The second number after a number is at least twice as large. So the 129th exceeds the
    // greatest number.
    if one > 0 && index > 128 {
        return u64::MAX;
    }
    if one == 0 {
        return 0;
    }
    let mut product = 0u64;
    let mut next = one;
    for _ in 0..index {
        if product == u64::MAX {
            return product;
        }
        let sum = product.saturating_add(next);
        product = next;
        next = sum;
    }
    product
}
