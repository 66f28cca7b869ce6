//! A turn of a retry loop: one failed attempt, and when the next one begins.

ghost use Rattle.std.specs.Prelude.{◌≡◌, ◌*◌, ◌/◌, ◌<◌, ◌≤◌, min, nat_eq, IfSome, IfNone};
ghost use Rattle.zs_c.specs.Plan.{nanos, end_of, moment_of, rest_of, asked_of, begin_of};
ghost use Rattle.zs_c.specs.Planned.{IsCounted};

/// One failed attempt of a loop, by the loop's clock. `began` and `ended` are nanoseconds from the
/// begin of the first attempt.
#[repr(C)]
#[derive(Clone, Copy)]
pub struct Turn {
    /// The bytes of this struct: 56.
    pub size: u64,
    /// When the attempt began.
    pub began: u64,
    /// When the attempt ended. If the clock fell since `began`, it counts as one that didn't move.
    pub ended: u64,
    /// The input of the schedule's step: under retry the error's code.
    pub input: u64,
    /// The least wait that the service wants, in milliseconds, or 0.
    pub least: u64,
    /// The longest least wait that counts, in milliseconds.
    pub longest: u64,
    /// How many percent of a wait jitter may take off. More than 100 counts as 100.
    pub percent: u32,
    /// How much of that jitter takes off this time, as a fraction of 2^32. 0 takes off nothing.
    pub draw: u32,
}

/// The bytes of a `Turn`.
const TURN_SIZE: u64 = 56;

impl Turn {
    // Whether it has the size that this version reads.
    pub(crate) fn is_sized(self) -> bool
        ensures value { result ≡ nat_eq self.size 56 }
    {
        self.size == TURN_SIZE
    }

    // Returns when the attempt ended, by a clock that never falls.
    fn end(self) -> u64
        ensures value { result ≡ end_of self }
    {
        self.began.max(self.ended)
    }

    // Returns the moment at which the schedule is stepped, in milliseconds.
    pub(crate) fn moment(self, planned: u64) -> u64
        ensures value { result ≡ moment_of planned self }
        ensures counted { IsCounted self }
    {
        (self.end() / 1_000_000).max(planned.saturating_add(1))
    }

    // Returns when the next attempt begins, if the schedule continues at `next` after a step at
    // `moment`. Returns `None` if 64 bits don't hold that many nanoseconds.
    pub(crate) fn begin(self, moment: u64, next: u64) -> Option<u64>
        ensures some { IfSome result (λ begin. begin ≡ begin_of self moment next) }
        ensures counted { IfSome result (λ begin. begin ≤ 18446744073709551615) }
        ensures none { IfNone result (18446744073709551615 < begin_of self moment next) }
    {
        let end = u128::from(self.end());
        let earliest = end.max(nanos(moment));
        let drawn = nanos(next).min(earliest + self.rest(next.saturating_sub(moment)));
        let asked = end + nanos(self.least.min(self.longest));
        let begin = earliest.max(drawn).max(asked);
        if begin > u128::from(u64::MAX) {
            return None;
        }
        Some(begin as u64)
    }

    // Returns what jitter leaves of a wait of some milliseconds, in nanoseconds.
    fn rest(self, wait: u64) -> u128
        ensures value { result ≡ rest_of self (nanos wait) }
    {
        let share = share_of(self.percent, self.draw);
        nanos(wait) - ((nanos(wait) * u128::from(share)) >> 32)
    }
}

// Returns the share of a wait that jitter takes off, as a fraction of 2^32.
fn share_of(percent: u32, draw: u32) -> u32
    ensures value { result ≡ min percent 100 * draw / 100 }
{
    (u64::from(percent.min(100)) * u64::from(draw) / 100) as u32
}

// Returns milliseconds as nanoseconds.
fn nanos(milliseconds: u64) -> u128
    ensures value { result ≡ nanos milliseconds }
{
    u128::from(milliseconds) * 1_000_000
}
