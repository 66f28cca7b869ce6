//! Numbers between two bounds.

ghost use Rattle.std.specs.Prelude.{◌≡◌};
ghost use Rattle.zs_bounds.specs.Span.{span, hull};
ghost use Rattle.zs_bounds.specs.AnswerRange.{any_input, earlier_steps, delays};
ghost use Rattle.zs_bounds.specs.StateRange.{more_steps, more_time};
ghost use Rattle.zs_bounds.specs.Node.{begun_span};

// The greatest moment of a clock, in milliseconds: about 31,700 years.
pub(crate) const MAX_TICK: u64 = 999_999_999_999_999;

// The longest wait that is never cut at the greatest moment.
pub(crate) const UNCUT_WAIT: u64 = u64::MAX - MAX_TICK;

// All numbers from `low` to `high`.
#[derive(Clone, Copy, Debug, PartialEq, Eq)]
pub(crate) struct Span {
    pub(crate) low: u64,
    pub(crate) high: u64,
}

impl Span {
    // The span of two bounds.
    pub(crate) fn new(low: u64, high: u64) -> Span
        ensures value { result ≡ span low high }
    {
        Span { low, high }
    }

    // A number alone.
    pub(crate) fn one(number: u64) -> Span
        ensures value { result ≡ span number number }
    {
        Span::new(number, number)
    }

    // The least span around both.
    pub(crate) fn hull(self, other: Span) -> Span
        ensures value { result ≡ hull self other }
    {
        Span::new(self.low.min(other.low), self.high.max(other.high))
    }

    // The least span around both, or the first number alone if the span is not on.
    pub(crate) fn begin(self, is_on: bool, first: Span) -> Span
        ensures value { result ≡ begun_span is_on self first }
    {
        if is_on { self.hull(first) } else { first }
    }

    // Each number with one less: of steps, the earlier ones.
    pub(crate) fn earlier(self) -> Span
        ensures value { result ≡ earlier_steps self }
    {
        Span::new(self.low.saturating_sub(1), self.high.saturating_sub(1))
    }

    // One step more.
    pub(crate) fn more_steps(self) -> Span
        ensures value { result ≡ more_steps self }
    {
        Span::new(self.low.saturating_add(1), self.high.saturating_add(1))
    }

    // Some more time, and at most a whole clock.
    pub(crate) fn more_time(self, later: Span) -> Span
        ensures value { result ≡ more_time later self }
    {
        let high = self.high.saturating_add(later.high).min(MAX_TICK);
        Span::new(self.low.saturating_add(later.low), high)
    }

    // The waits for a delay: a moment that would be too great is cut.
    pub(crate) fn delays(self) -> Option<Span>
        ensures value { result ≡ delays self }
    {
        Some(Span::new(self.low.min(UNCUT_WAIT), self.high))
    }
}

// All inputs.
pub(crate) fn any_input() -> Option<Span>
    ensures value { result ≡ any_input }
{
    Some(Span::new(0, u64::MAX))
}
