//! The laws that bounds hold.

ghost use Rattle.std.specs.Prelude.{◌≡◌, ◌≤◌, ◌∷◌, ℕ, Some, List, true};
ghost use Rattle.zs_term.specs.Schedule.{Schedule, has_factors};
ghost use Rattle.zs_term.specs.Saturating.{max_moment};
ghost use Rattle.zs_step.specs.declared.decision.Decision.{Decision};
ghost use Rattle.zs_step.specs.declared.decision.Decision.TheVariants.{Next};
ghost use Rattle.zs_step.specs.Answer.{answer_of};
ghost use Rattle.zs_step.specs.History.{History, last_moment};
ghost use Rattle.zs_bounds.specs.declared.driver.Driver.{Driver};
ghost use Rattle.zs_bounds.specs.declared.told.Bounds.{Bounds};
ghost use Rattle.zs_bounds.specs.declared.waits.Waits.{Waits};
ghost use Rattle.zs_bounds.specs.Driven.{exact_waits, max_tick, IsAttempt, IsNeverEarly, WaitsFor, LetsEndAt};
ghost use Rattle.zs_bounds.specs.Bounds.{wait_of, Promises, BoundsWaits};
ghost use Rattle.zs_bounds.specs.Drawn.{IsDrawn, LeavesDraw};
ghost use Rattle.zs_bounds.specs.BoundsOf.{bounds_of, real_waits};
ghost use Rattle.zs_bounds.specs.Calls.{Layer, IsOver, IsDriverOver};
ghost use Rattle.zs_bounds.specs.Span.{span};

/// The computed bounds of a schedule, whose factors are at least 1, hold for every history that a
/// driver can make.
pub fn bounds_hold()
    ensures value { (s : Schedule) (d : Driver) (steps : ℕ) → has_factors s ≡ true
        → Promises s d (bounds_of s d steps) }
{}

/// Bounds hold for the schedule's own waits too, if the driver is never early.
pub fn bounds_hold_for_schedule_waits()
    // With exact waits the driver's waits are the schedule's, and so are those that are computed.
    ensures exact { IsNeverEarly exact_waits }
    ensures only { (m u : ℕ) (d : Decision) → WaitsFor exact_waits m d u → u ≡ wait_of m d }
    ensures same { (low high : ℕ) → low ≤ max_moment → high ≤ max_moment
        → real_waits exact_waits (Some (span low high)) ≡ Some (span low high) }
    ensures value { (s : Schedule) (d : Driver) (b : Bounds) → IsNeverEarly d.waits
        → Promises s d b → BoundsWaits s d b }
    // Such a driver may begin an attempt when the schedule says.
    ensures begins { (s : Schedule) (d : Driver) (h : History) (x m : ℕ) → IsNeverEarly d.waits
        → last_moment h ≤ max_tick → (answer_of s h).decision ≡ Next x → IsAttempt d x m
        → LetsEndAt d (last_moment h) (answer_of s h).decision m }
{}

/// If each leaf of a schedule draws its own waits, each one of a driver's for it, the schedule
/// waits as one whose own waits are drawn: what holds of jitter of the whole then holds.
pub fn drawn_leaves_are_a_drawn_whole()
    ensures value { (v : Waits) (s : Schedule) (p : ℕ × ℕ) (h : History) (e : Decision)
        → LeavesDraw v s (p ∷ h) e → IsDrawn v p.0 (answer_of s (p ∷ h)).decision e }
{}

/// An attempt over layers, which is a whole call of a policy over a driver or over further layers,
/// is one of each driver that their bounds give. So the outermost policy's longest run holds.
pub fn calls_are_attempts()
    ensures value { (d : Driver) (layers : List Layer) (e : Driver) → IsDriverOver d layers e
        → (begun m : ℕ) → IsOver d layers begun m → IsAttempt e begun m }
{}
