//! What is known of a schedule for every history that a driver can make.

ghost use Rattle.std.specs.Prelude.{◌≡◌, ◌+◌, ◌<◌, ◌^◌};
ghost use Rattle.zs_bounds.specs.BoundsOf.{no_bounds, with_step, complete, ended, unended, sum_within, longer_run, longer_total, at_most, most_limit, real_limit, whole_run};

use crate::decisions::Decisions;
use crate::driver::Driver;
use crate::latest::limit_sum;
use crate::span::Span;

/// What holds for every history that a driver can make with a schedule.
#[derive(Clone, Copy, Debug, PartialEq, Eq)]
pub struct Bounds {
    /// The number of steps that were looked at.
    pub seen: u64,
    /// Whether there may be more steps than were looked at.
    pub is_cut: bool,
    /// No step before this one is the last: the schedule doesn't give up after fewer attempts.
    pub least: u64,
    /// The step at which the schedule is done at the latest, if there is a bound.
    pub most: Option<u64>,
    /// The longest wait after a step that was looked at, in milliseconds.
    pub longest: u64,
    /// No wait after any step is longer, in milliseconds, if there is such a limit.
    pub every: Option<u64>,
    /// All waits together are at most this long, in milliseconds, if there is a bound.
    pub total: Option<u64>,
    /// Each attempt ends at most this long after the begin of the first one, in milliseconds, if
    /// there is a bound.
    pub longest_run: Option<u64>,
}

impl Bounds {
    // Before the first step, which is the end of the first attempt.
    pub(crate) fn nothing(driver: Driver) -> Bounds
        ensures value { result ≡ no_bounds driver }
    {
        Bounds {
            seen: 0,
            is_cut: true,
            least: 1,
            most: None,
            longest: 0,
            every: None,
            total: Some(0),
            longest_run: driver.most,
        }
    }

    // One more step, with what it may decide.
    // `limit` is one of the time from the first step up to a step that goes on, if there is one.
    pub(crate) fn with_step(self, limit: Option<u64>, driver: Driver, decision: Decisions) -> Bounds
        requires within { self.seen + 1 < 2 ^ 64 }
        ensures value { result ≡ with_step limit driver decision self }
    {
        let wait = decision.waits.map_or(0, |span| span.high);
        let before = driver.waits_limit(limit, self.seen);
        let goes_on = self.seen < self.least && !decision.stops;
        Bounds {
            seen: self.seen + 1,
            is_cut: true,
            least: self.least.saturating_add(goes_on as u64),
            most: None,
            longest: self.longest.max(wait),
            every: None,
            total: longer_total(before, wait, self.total),
            longest_run: longer_run(limit, driver.most, decision.waits, self.longest_run),
        }
    }

    // No step follows those that were seen.
    pub(crate) fn complete(self) -> Bounds
        ensures value { result ≡ complete self }
    {
        Bounds {
            is_cut: false,
            every: Some(self.longest),
            ..self
        }
    }

    // The last step that was seen is the last that there may be.
    pub(crate) fn with_end(self) -> Bounds
        ensures value { result ≡ ended self }
    {
        Bounds {
            most: Some(self.seen),
            ..self.complete()
        }
    }

    // There may be more steps than were seen.
    // `limit` is one of the time from the first step up to a step that goes on, and `wait` one of
    // every wait of the schedule, if there are any.
    pub(crate) fn without_end(self, limit: Option<u64>, wait: Option<u64>, driver: Driver) -> Bounds
        ensures value { result ≡ unended limit wait driver self }
    {
        let every = real_limit(driver, wait);
        let total = limit_sum(limit, every);
        Bounds {
            is_cut: true,
            most: most_limit(driver, limit),
            every,
            total,
            longest_run: whole_run(driver.most, total),
            ..self
        }
    }
}

// A sum, if it fits.
fn sum_within(total: Option<u64>, wait: u64) -> Option<u64>
    ensures value { result ≡ sum_within total wait }
{
    total?.checked_add(wait)
}

// A number, or a limit if that is smaller.
fn at_most(limit: Option<u64>, number: u64) -> u64
    ensures value { result ≡ at_most limit number }
{
    limit.map_or(number, |most| number.min(most))
}

// The longest of all waits with one more. `limit` is one of the waits before it.
fn longer_total(limit: Option<u64>, wait: u64, total: Option<u64>) -> Option<u64>
    ensures value { result ≡ longer_total limit wait total }
{
    let before = total?;
    Some(before.max(at_most(limit, before).checked_add(wait)?))
}

// The longest run with one more wait and attempt, if a step may go on. `limit` is one of the time
// from the first step up to that step.
fn longer_run(
    limit: Option<u64>,
    most: Option<u64>,
    waits: Option<Span>,
    run: Option<u64>,
) -> Option<u64>
    ensures value { result ≡ longer_run limit most waits run }
{
    let Some(wait) = waits else {
        return run;
    };
    let (longest, before) = (most?, run?);
    let begins = limit.map(|time| time.saturating_add(longest));
    let waited = sum_within(Some(at_most(begins, before)), wait.high);
    Some(before.max(sum_within(waited, longest)?))
}

// A limit of the steps, by one of the time up to a step that goes on: each step before it has an
// attempt after it, and one more step may follow.
fn most_limit(driver: Driver, limit: Option<u64>) -> Option<u64>
    ensures value { result ≡ most_limit driver limit }
{
    sum_within(limit.map(|time| time / driver.shortest()), 2)
}

// A limit of a driver's waits, by one of the schedule's.
pub(crate) fn real_limit(driver: Driver, wait: Option<u64>) -> Option<u64>
    ensures value { result ≡ real_limit driver wait }
{
    Some(driver.waits.longest(wait?))
}

// The longest run, by all waits and the longest attempt.
fn whole_run(most: Option<u64>, total: Option<u64>) -> Option<u64>
    ensures value { result ≡ whole_run most total }
{
    let longest = most?;
    sum_within(sum_within(total, longest), longest)
}
