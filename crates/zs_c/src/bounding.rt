//! What a schedule does for every input, as C reads it.

ghost use Rattle.std.specs.Prelude.{◌≡◌, IfOk, IfErr};
ghost use Rattle.zs_c.specs.Bounded.{IsBounded, IsBoundsRefusal, bounds_told, driver_of, is_possible};

use crate::reading::schedule_in;
use crate::refusal::Refusal;
use std::alloc::Global;
use zs_bounds::{Bounds, Driver, Waits};

/// The bytes of a `GivenDriver`, and those of a `BoundsTold`.
const DRIVER_SIZE: u64 = 64;

const BOUNDS_SIZE: u64 = 80;

/// What a driver may do, as C says it. Times are in milliseconds.
#[repr(C)]
#[derive(Clone, Copy)]
pub struct GivenDriver {
    /// The bytes of this struct: 64.
    pub size: u64,
    /// No attempt takes less: 1 or more.
    pub least: u64,
    /// 0 if attempts may take any time, else they take at most `most`.
    pub has_most: u64,
    /// No attempt takes more: `least` or more.
    pub most: u64,
    /// No wait is shorter than this percentage of the schedule's: 100, or less with jitter.
    pub least_percent: u64,
    /// No wait is longer than this percentage of it, but for `asked`: `least_percent` or more.
    pub most_percent: u64,
    /// The longest wait that may be requested in place of a shorter one, or 0.
    pub asked: u64,
    /// How late an attempt may begin. The greatest number of 64 bits means any lateness.
    pub late: u64,
}

impl GivenDriver {
    // Whether a driver can do this.
    fn is_possible(&self) -> bool
        ensures value { result ≡ is_possible self.now }
    {
        0 < self.least
            && (self.has_most == 0 || self.least <= self.most)
            && self.least_percent <= self.most_percent
    }

    // Converts a driver from the form that C writes.
    fn driver(&self) -> Driver
        ensures value { result ≡ driver_of self.now }
    {
        Driver {
            least: self.least,
            most: (self.has_most != 0).then_some(self.most),
            waits: Waits {
                least_percent: self.least_percent,
                most_percent: self.most_percent,
                asked: self.asked,
                late: self.late,
            },
        }
    }
}

/// What holds for every input, with a driver. A field that says nothing is 0.
#[repr(C)]
#[derive(Drop)]
pub struct BoundsTold {
    /// The bytes of this struct: 80.
    pub size: u64,
    /// The number of steps that were examined.
    pub seen: u64,
    /// No step before this one is the last.
    pub least: u64,
    /// 1 if `most` is a bound, else 0.
    pub has_most: u64,
    /// The step at which the schedule is done at the latest.
    pub most: u64,
    /// The longest wait after a step that was examined, in milliseconds.
    pub longest: u64,
    /// 1 if `total` is a bound, else 0.
    pub has_total: u64,
    /// All waits of a run together take at most this, in milliseconds.
    pub total: u64,
    /// 1 if `longest_run` is a bound, else 0.
    pub has_longest_run: u64,
    /// Each attempt ends less than this after the begin of the first, in milliseconds.
    pub longest_run: u64,
}

impl BoundsTold {
    // Converts bounds to the form that C reads.
    fn of(bounds: Bounds) -> BoundsTold
        ensures value { result ≡ bounds_told bounds }
    {
        BoundsTold {
            size: BOUNDS_SIZE,
            seen: bounds.seen,
            least: bounds.least,
            has_most: u64::from(bounds.most.is_some()),
            most: bounds.most.unwrap_or(0),
            longest: bounds.longest,
            has_total: u64::from(bounds.total.is_some()),
            total: bounds.total.unwrap_or(0),
            has_longest_run: u64::from(bounds.longest_run.is_some()),
            longest_run: bounds.longest_run.map_or(0, |run| run.saturating_add(1)),
        }
    }
}

// Returns the bounds of a text's schedule, over at most `steps` steps. They replace `old`.
pub(crate) fn bounds_in(
    alloc: Global,
    text: &[u8],
    given: &GivenDriver,
    steps: u64,
    old: &BoundsTold,
) -> Result<BoundsTold, Refusal>
    ensures ok { IfOk result (IsBounded text.now given.now steps) }
    ensures err { IfErr result (IsBoundsRefusal text.now given.now old.now) }
{
    if given.size != DRIVER_SIZE || old.size != BOUNDS_SIZE {
        return Err(Refusal::OtherSize);
    }
    if !given.is_possible() {
        return Err(Refusal::NoDriver);
    }
    let checked = schedule_in(alloc, text)?;
    let bounds = zs_bounds::bounds(alloc, &checked, given.driver(), steps)?;
    Ok(BoundsTold::of(bounds))
}
