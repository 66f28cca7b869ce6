//! Laws that join the bounds of schedules to jobs, for every job and every clock.
ghost use Rattle.zs_job_bounds.specs.JobBounds.{OnEachClock, SameLimit, StepsOnHistories, TakesAnyDuration, EachMsTakes, ApartAreWithin, ForDriver, HistoriesAreDriven, PromisedBoundsHold, ComputedBoundsHold, PromisedRunHolds, ComputedRunHolds};
ghost use Rattle.zs_job_bounds.specs.PlanBounds.{OfEachPlan, ScriptHasInputs, TakesAnyInPlan, EveryMsTicks, InReport, PromisedInReport, ComputedInReport, PromisedRunInReport, ComputedRunInReport};

/// Each history of a job's timeline is one that a driver can make with the job's schedule, if the
/// job does on its clock what the driver may do. Ticks make a driver late: with ticks at most t ms
/// apart it is late by t - 1 ms, and its attempts take up to t - 1 ms more.
pub fn histories_are_driven()
    // These are the histories on which the timeline evaluates the schedule.
    ensures stepped { OnEachClock StepsOnHistories }
    ensures driven { OnEachClock (ForDriver HistoriesAreDriven) }
    // So the laws hold for every job, with attempts of 1 millisecond or more.
    ensures any { OnEachClock TakesAnyDuration }
    // A clock that ticks each millisecond makes no driver late.
    ensures each_ms { OnEachClock EachMsTakes }
    // What it is for a list of ticks to be at most so much apart.
    ensures apart { ApartAreWithin }
    // Jobs and drivers have one greatest moment.
    ensures limit { SameLimit }
{}

/// A job's attempts are within the bounds of its schedule, whatever its mode, its start, its script
/// and its clock: the number of attempts, the longest wait, and all waits together.
pub fn jobs_are_within_bounds()
    // Any bounds that hold for the schedule.
    ensures promised { OnEachClock (ForDriver PromisedBoundsHold) }
    // The bounds that `zs_bounds::bounds` returns.
    ensures computed { OnEachClock (ForDriver ComputedBoundsHold) }
{}

/// No attempt of a job ends later than the longest run after the job's start, if the schedule has
/// one and the driver is never late. If it may be late, the job may begin so much later too. A
/// clock that goes on to that moment sees the job end.
pub fn jobs_end_in_time()
    // Any bounds that hold for the schedule.
    ensures promised { OnEachClock (ForDriver PromisedRunHolds) }
    // The bounds that `zs_bounds::bounds` returns.
    ensures computed { OnEachClock (ForDriver ComputedRunHolds) }
{}

/// The report of an accepted plan has no job whose attempts leave the bounds of its schedule,
/// whatever the bytes of the plan.
pub fn plans_are_within_bounds()
    // The reader accepts only numbers of 64 bits, so the premise of the other laws holds.
    ensures inputs { OfEachPlan ScriptHasInputs }
    ensures any { OfEachPlan TakesAnyInPlan }
    // Any bounds that hold for the schedule.
    ensures promised { OfEachPlan (InReport PromisedInReport) }
    // The bounds that `zs_bounds::bounds` returns.
    ensures computed { OfEachPlan (InReport ComputedInReport) }
{}

/// The report of an accepted plan has no job that ends later than the longest run after its start,
/// if its schedule has one, and later by as much as the driver may be late.
pub fn plans_end_in_time()
    // A clock of every millisecond ticks each millisecond, so nothing is late there.
    ensures each_ms { EveryMsTicks }
    // Any bounds that hold for the schedule.
    ensures promised { OfEachPlan (InReport PromisedRunInReport) }
    // The bounds that `zs_bounds::bounds` returns.
    ensures computed { OfEachPlan (InReport ComputedRunInReport) }
{}
