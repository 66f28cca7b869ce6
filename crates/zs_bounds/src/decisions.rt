//! What a step may decide, how the operators join it, and whether a test may pass.

ghost use Rattle.std.specs.Prelude.{◌≡◌, false};
ghost use Rattle.zs_bounds.specs.OutputRange.{may_compare, may_fail, may_pass, opposite};
ghost use Rattle.zs_bounds.specs.StateRange.{more_items};
ghost use Rattle.zs_bounds.specs.DecisionRange.{may_go_on, wait_hull, later_waits, earlier_waits, waits_if, decisions, decision_hull, both_decide, either_decides, test_decides, no_decision};

use crate::span::Span;
use zs_term::{Cmp, Test};

// Whether a step may be the last one, and after which waits it may go on, if it may.
#[derive(Clone, Copy, Debug, PartialEq, Eq)]
pub(crate) struct Decisions {
    pub(crate) stops: bool,
    pub(crate) waits: Option<Span>,
}

impl Decisions {
    // Those of their two parts.
    pub(crate) fn new(stops: bool, waits: Option<Span>) -> Decisions
        ensures value { result ≡ decisions stops waits }
    {
        Decisions { stops, waits }
    }

    // No decision at all.
    pub(crate) fn nothing() -> Decisions
        ensures value { result ≡ no_decision }
    {
        Decisions::new(false, None)
    }

    // Always to go on, after some waits.
    pub(crate) fn always(waits: Option<Span>) -> Decisions
        ensures value { result ≡ decisions false waits }
    {
        Decisions::new(false, waits)
    }

    // Whether it may be to go on.
    pub(crate) fn may_go_on(self) -> bool
        ensures value { result ≡ may_go_on self }
    {
        self.waits.is_some()
    }

    // Those of one or the other.
    pub(crate) fn hull(self, other: Decisions) -> Decisions
        ensures value { result ≡ decision_hull self other }
    {
        Decisions::new(
            self.stops || other.stops,
            wait_hull(self.waits, other.waits),
        )
    }

    // The decisions of `A && B`, which goes on while both parts do, after the later of both.
    pub(crate) fn both(self, other: Decisions) -> Decisions
        ensures value { result ≡ both_decide self other }
    {
        let waits = later_waits(self.waits, other.waits);
        Decisions::new(self.stops || other.stops, waits)
    }

    // The decisions of `A || B`, which goes on while one part does: with the wait of one alone if
    // the other may be done.
    pub(crate) fn either(self, other: Decisions) -> Decisions
        ensures value { result ≡ either_decides self other }
    {
        let alone = waits_if(other.stops, self.waits);
        let alone = wait_hull(alone, waits_if(self.stops, other.waits));
        let waits = wait_hull(earlier_waits(self.waits, other.waits), alone);
        Decisions::new(self.stops && other.stops, waits)
    }

    // Those under a test of a number of a span, if there is one.
    pub(crate) fn under(self, test: Test, span: Option<Span>) -> Decisions
        ensures value { result ≡ test_decides (may_pass test span) (may_fail test span) self }
    {
        let waits = waits_if(may_pass(test, span), self.waits);
        Decisions::new(self.stops || may_fail(test, span), waits)
    }
}

// The waits of one or the other.
fn wait_hull(first: Option<Span>, second: Option<Span>) -> Option<Span>
    ensures value { result ≡ wait_hull first second }
{
    match (first, second) {
        (None, _) => second,
        (Some(_), None) => first,
        (Some(s), Some(t)) => Some(s.hull(t)),
    }
}

// The later of two waits, if both go on.
fn later_waits(first: Option<Span>, second: Option<Span>) -> Option<Span>
    ensures value { result ≡ later_waits first second }
{
    let s = first?;
    let t = second?;
    Some(Span::new(s.low.max(t.low), s.high.max(t.high)))
}

// The earlier of two waits, if both go on.
fn earlier_waits(first: Option<Span>, second: Option<Span>) -> Option<Span>
    ensures value { result ≡ earlier_waits first second }
{
    let s = first?;
    let t = second?;
    Some(Span::new(s.low.min(t.low), s.high.min(t.high)))
}

// Waits, if a fact holds.
fn waits_if(holds: bool, waits: Option<Span>) -> Option<Span>
    ensures value { result ≡ waits_if holds waits }
{
    if holds { waits } else { None }
}

// Whether a test of a number of a span may pass.
pub(crate) fn may_pass(test: Test, span: Option<Span>) -> bool
    ensures value { result ≡ may_pass test span }
{
    span.map_or(true, |s| may_compare(test.cmp, s, test.than))
}

// Whether it may fail.
pub(crate) fn may_fail(test: Test, span: Option<Span>) -> bool
    ensures value { result ≡ may_fail test span }
{
    span.map_or(true, |s| may_compare(opposite(test.cmp), s, test.than))
}

// Whether a comparison may hold of a number of a span.
fn may_compare(cmp: Cmp, span: Span, than: u64) -> bool
    ensures value { result ≡ may_compare cmp span than }
{
    match cmp {
        Cmp::Lt => span.low < than,
        Cmp::Le => span.low <= than,
        Cmp::Eq => span.low <= than && than <= span.high,
        Cmp::Ne => !(span.low == than && span.high == than),
        Cmp::Gt => than < span.high,
        Cmp::Ge => than <= span.high,
    }
}

// The comparison that holds if another one doesn't.
fn opposite(cmp: Cmp) -> Cmp
    ensures value { result ≡ opposite cmp }
{
    match cmp {
        Cmp::Lt => Cmp::Ge,
        Cmp::Le => Cmp::Gt,
        Cmp::Eq => Cmp::Ne,
        Cmp::Ne => Cmp::Eq,
        Cmp::Gt => Cmp::Le,
        Cmp::Ge => Cmp::Lt,
    }
}

// One more item at a step that goes on.
pub(crate) fn more_items(decision: Decisions, items: Span) -> Span
    ensures value { result ≡ more_items decision items }
{
    let low = if decision.stops {
        items.low
    } else {
        items.low.saturating_add(1)
    };
    let high = if decision.may_go_on() {
        items.high.saturating_add(1)
    } else {
        items.high
    };
    Span::new(low, high)
}
