//! What a driver may do: how long its attempts take, and how long it waits between them.

ghost use Rattle.std.specs.Prelude.{◌≡◌};
ghost use Rattle.zs_bounds.specs.Driven.{exact_driver, shortest};
ghost use Rattle.zs_bounds.specs.BoundsOf.{time_between, longest_time, waits_limit, gap_limit, real_decisions};

use crate::decisions::Decisions;
use crate::latest::limit_sum;
use crate::span::{MAX_TICK, Span};
use crate::told::real_limit;
use crate::waits::Waits;

/// What a driver may do. A driver is whatever steps a schedule when an attempt has ended.
#[derive(Clone, Copy, Debug, PartialEq, Eq)]
pub struct Driver {
    /// No attempt takes less, in milliseconds. 0 means 1: an attempt takes at least 1 millisecond.
    pub least: u64,
    /// No attempt takes more, in milliseconds. `None` if there is no such limit.
    pub most: Option<u64>,
    /// How long the driver waits between attempts.
    pub waits: Waits,
}

impl Driver {
    /// Attempts of 1 millisecond or more, and exactly the schedule's waits.
    pub const fn exact() -> Driver
        ensures value { result ≡ exact_driver }
    {
        Driver {
            least: 1,
            most: None,
            waits: Waits::exact(),
        }
    }

    // The shortest attempt.
    pub(crate) fn shortest(self) -> u64
        ensures value { result ≡ shortest self }
    {
        self.least.max(1)
    }

    // What a step may decide, with the driver's waits.
    pub(crate) fn real(self, decision: Decisions) -> Decisions
        ensures value { result ≡ real_decisions self decision }
    {
        Decisions::new(decision.stops, self.waits.real_waits(decision.waits))
    }

    // A limit of all waits before a step that goes on, by a limit of the time from the first step
    // up to it and the number of steps before it: each of these has an attempt after it.
    pub(crate) fn waits_limit(self, limit: Option<u64>, steps: u64) -> Option<u64>
        ensures value { result ≡ waits_limit self limit steps }
    {
        let attempts = self.shortest().saturating_mul(steps);
        limit.map(|time| time.saturating_sub(attempts))
    }

    // A limit of the time from a step up to the next one, by one of the schedule's waits.
    pub(crate) fn gap(self, wait: Option<u64>) -> Option<u64>
        ensures value { result ≡ gap_limit self wait }
    {
        limit_sum(real_limit(self, wait), self.most)
    }

    // The time from a step up to the next one: a wait and an attempt.
    pub(crate) fn time_between(self, wait: Span) -> Span
        ensures value { result ≡ time_between self wait }
    {
        Span::new(
            wait.low.saturating_add(self.shortest()),
            longest_time(self.most, wait.high),
        )
    }
}

// The longest time of a wait and an attempt: at most a whole clock.
fn longest_time(most: Option<u64>, wait: u64) -> u64
    ensures value { result ≡ longest_time most wait }
{
    most.map_or(
        MAX_TICK,
        |duration| wait.saturating_add(duration).min(MAX_TICK),
    )
}
