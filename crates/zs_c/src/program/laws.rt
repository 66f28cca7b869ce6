//! Laws of programs and of plans, stated about their definitions.

ghost use Rattle.std.specs.Prelude.{◌≡◌, ◌<◌, ◌≤◌, ℕ, List};
ghost use Rattle.zs_term.specs.Schedule.{Schedule};
ghost use Rattle.zs_step.specs.History.{History};
ghost use Rattle.zs_bounds.specs.Bounds.{Promises};
ghost use Rattle.zs_bounds.specs.declared.driver.Driver.{Driver};
ghost use Rattle.zs_bounds.specs.declared.told.Bounds.{Bounds};
ghost use Rattle.zs_c.specs.declared.turn.Turn.{Turn};
ghost use Rattle.zs_c.specs.Bounded.{bounds_told};
ghost use Rattle.zs_c.specs.Plan.{end_of, nanos};
ghost use Rattle.zs_c.specs.Planned.{IsCounted, IsPlanned, FollowsDriver};
ghost use Rattle.zs_c.specs.Program.{IsProgram};

/// Words are the program of at most one schedule.
pub fn one_schedule()
    ensures law { (program : List ℕ) (t u : Schedule) → IsProgram program t → IsProgram program u
        → t ≡ u }
{}

/// An attempt that was planned, and follows its driver, ends before the longest run that C reads of
/// the bounds of that driver, whether it succeeds or fails. Times are counted from the begin of the
/// first attempt, in nanoseconds.
pub fn attempts_end_in_time()
    ensures law { (t : Schedule) (d : Driver) (h : History) (planned : ℕ) (turn : Turn) (b : Bounds)
        → d.least ≤ 1 → IsCounted turn → IsPlanned t d h planned → FollowsDriver d h planned turn
        → Promises t d b → (bounds_told b).has_longest_run ≡ 1
        → end_of turn < nanos (bounds_told b).longest_run }
{}
