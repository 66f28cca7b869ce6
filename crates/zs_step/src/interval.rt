//! Intervals of time without an end.

ghost use Rattle.std.specs.Prelude.{◌≡◌, min, max};
ghost use Rattle.zs_step.specs.Intervals.{starts_at};

/// All moments, in milliseconds, from a start on.
#[derive(Clone, Copy, Debug, PartialEq, Eq)]
pub struct Interval {
    start: u64,
}

impl Interval {
    /// Makes the interval of all moments from a moment on.
    pub fn after(moment: u64) -> Interval
        ensures value { starts_at result ≡ moment }
    {
        Interval { start: moment }
    }

    /// Returns the first moment.
    pub fn start(&self) -> u64
        ensures value { result ≡ starts_at self.now }
    {
        self.start
    }

    /// Returns the moments in both, from the later start on.
    pub fn intersect(&self, other: &Interval) -> Interval
        ensures value { starts_at result ≡ max (starts_at self.now) (starts_at other.now) }
    {
        Interval::after(self.start.max(other.start))
    }

    /// Returns the moments in at least one, from the earlier start on.
    pub fn union(&self, other: &Interval) -> Interval
        ensures value { starts_at result ≡ min (starts_at self.now) (starts_at other.now) }
    {
        Interval::after(self.start.min(other.start))
    }
}
