//! How long a driver waits, by the schedule's waits.

ghost use Rattle.std.specs.Prelude.{◌≡◌, ◌*◌};
ghost use Rattle.zs_term.specs.Saturating.{saturated};
ghost use Rattle.zs_bounds.specs.Driven.{exact_waits};
ghost use Rattle.zs_bounds.specs.BoundsOf.{longest_wait, real_waits, shortest_wait};

use crate::span::Span;

/// How long a driver may wait between attempts, by the schedule's wait.
#[derive(Clone, Copy, Debug, PartialEq, Eq)]
pub struct Waits {
    /// No wait is shorter than this percentage of the schedule's, rounded down: 0 for full jitter.
    pub least_percent: u64,
    /// No wait is longer than this percentage of the schedule's, rounded up, unless a longer one is
    /// requested.
    pub most_percent: u64,
    /// The longest wait that may be requested in place of a shorter one, as by `Retry-After`, in
    /// milliseconds.
    pub asked: u64,
    /// How much later than at the end of its wait an attempt may begin, in milliseconds. `u64::MAX`
    /// means: at any later moment.
    pub late: u64,
}

impl Waits {
    /// The schedule's waits.
    pub const fn exact() -> Waits
        ensures value { result ≡ exact_waits }
    {
        Waits {
            least_percent: 100,
            most_percent: 100,
            asked: 0,
            late: 0,
        }
    }

    // The shortest wait if the schedule waits for some milliseconds.
    fn shortest(self, wait: u64) -> u64
        ensures value { result ≡ shortest_wait self wait }
    {
        saturate(hundredths(wait, self.least_percent) / 100)
    }

    // The longest wait if the schedule waits for some milliseconds.
    pub(crate) fn longest(self, wait: u64) -> u64
        ensures value { result ≡ longest_wait self wait }
    {
        let part = saturate(hundredths(wait, self.most_percent).div_ceil(100));
        part.max(self.asked).saturating_add(self.late)
    }

    // The waits if the schedule may have these.
    pub(crate) fn real_waits(self, waits: Option<Span>) -> Option<Span>
        ensures value { result ≡ real_waits self waits }
    {
        let wait = waits?;
        Some(Span::new(self.shortest(wait.low), self.longest(wait.high)))
    }
}

// A percentage of a wait, in hundredths of a millisecond.
fn hundredths(wait: u64, percent: u64) -> u128
    ensures value { result ≡ wait * percent }
{
    wait as u128 * percent as u128
}

// A number, or the greatest one of 64 bits if that is less.
fn saturate(number: u128) -> u64
    ensures value { result ≡ saturated number }
{
    number.min(u64::MAX as u128) as u64
}
