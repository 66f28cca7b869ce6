//! Laws of retry and repeat, for every job and every clock.
ghost use Rattle.zs_drive.specs.DriverRules.{OneTimeline, BoundIsNeverMet};
ghost use Rattle.zs_drive.specs.DriverLaws.{OnEachClock, WaitsForNoTick, WaitsOrEnded, EndsLater, BeginsLater, PollsAtTicks, PollsRise, PollsSuffice, FirstPollsSuffice};

/// On every clock, the timeline of a job is the only list of attempts that satisfies the rules of
/// ZIO's `retry` and `repeat`.
pub fn one_timeline()
    ensures one { OneTimeline }
    // A greater bound on the number of attempts than the number of ticks changes nothing.
    ensures bound { BoundIsNeverMet }
{}

/// On its clock a job goes as far as it can: it has ended, or the clock has no tick at or after its
/// due moment.
pub fn timelines_are_whole()
    ensures waits { OnEachClock WaitsForNoTick }
    ensures ended { OnEachClock WaitsOrEnded }
{}

/// Attempts follow one another, and their moments are rising ticks: at most one poll for each tick.
#[tactic(auto, using(crate::proofs::Rising::rising))]
pub fn moments_rise()
    ensures ends { OnEachClock EndsLater }
    ensures begins { OnEachClock BeginsLater }
    ensures ticks { OnEachClock PollsAtTicks }
    ensures rise { OnEachClock PollsRise }
{}

/// A job that is polled exactly when it is due has the timeline that it has on the whole clock.
pub fn due_polls_suffice()
    ensures whole { OnEachClock PollsSuffice }
    // The same after any number of its first polls, on the clock up to then.
    ensures first { OnEachClock FirstPollsSuffice }
{}
