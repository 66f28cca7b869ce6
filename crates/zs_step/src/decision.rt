//! What a schedule decides at a step.

ghost use Rattle.std.specs.Prelude.{◌≡◌, ◌+◌};
ghost use Rattle.zs_term.specs.Saturating.{saturated};
ghost use Rattle.zs_step.specs.Answer.{later_of, earlier_of, only_if, is_next};

use crate::interval::Interval;

/// Whether a schedule continues, and from which moment.
#[derive(Clone, Copy, Debug, PartialEq, Eq)]
pub enum Decision {
    /// The schedule is done.
    Stop,
    /// The schedule continues at this moment, in milliseconds.
    Next(u64),
}

impl Decision {
    /// Continues if both do, at the later moment.
    pub fn later(self, other: Decision) -> Decision
        ensures value { result ≡ later_of self other }
    {
        match (self, other) {
            (Decision::Next(x), Decision::Next(y)) => {
                Decision::Next(Interval::after(x).intersect(&Interval::after(y)).start())
            }
            (Decision::Stop, _) | (_, Decision::Stop) => Decision::Stop,
        }
    }

    /// Continues if at least one does, at the earlier moment.
    pub fn earlier(self, other: Decision) -> Decision
        ensures value { result ≡ earlier_of self other }
    {
        match (self, other) {
            (Decision::Next(x), Decision::Next(y)) => {
                Decision::Next(Interval::after(x).union(&Interval::after(y)).start())
            }
            (Decision::Stop, one) | (one, Decision::Stop) => one,
        }
    }

    /// Stops unless a test passed.
    pub fn only_if(self, passed: bool) -> Decision
        ensures value { result ≡ only_if passed self }
    {
        if passed { self } else { Decision::Stop }
    }

    // Whether the schedule continues.
    pub(crate) fn is_next(self) -> bool
        ensures value { result ≡ is_next self }
    {
        matches!(self, Decision::Next(_))
    }

    // Continues a delay after a moment; saturates.
    pub(crate) fn after(moment: u64, delay: u64) -> Decision
        ensures value { result ≡ Decision.Next (saturated (moment + delay)) }
    {
        Decision::Next(moment.saturating_add(delay))
    }
}
