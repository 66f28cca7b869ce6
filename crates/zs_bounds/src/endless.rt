//! Schedules that never give up.

ghost use Rattle.std.specs.Prelude.{◌≡◌, true};
ghost use Rattle.zs_term.specs.Schedule.{schedule_of};
ghost use Rattle.zs_bounds.specs.Bounds.{NeverGivesUp};
ghost use Rattle.zs_bounds.specs.BoundsOf.{never_stops};

use zs_term::{Checked, Term};

/// Whether the form of a schedule shows that it never gives up: no history ends it. If this is
/// false, nothing is known of its end.
pub fn never_gives_up(checked: &Checked) -> bool
    ensures forever { result ≡ true → NeverGivesUp (schedule_of checked.now) }
    ensures value { result ≡ never_stops (schedule_of checked.now) }
{
    never_stops(checked.term())
}

// Whether the form of a term shows that it never stops.
pub(crate) fn never_stops(term: &Term) -> bool
    ensures value { result ≡ never_stops (schedule_of term.now) }
{
    match term {
        Term::Recurs(_) | Term::WhileInput(_, _) | Term::WhileOutput(_, _, _) => false,
        Term::Forever
        | Term::Spaced(_)
        | Term::Fixed(_)
        | Term::Exponential(_, _)
        | Term::Fibonacci(_)
        | Term::Identity
        | Term::Elapsed
        | Term::Linear(_)
        | Term::Windowed(_) => true,
        Term::Both(a, b) => never_stops(a) && never_stops(b),
        Term::Either(a, b) | Term::AndThen(a, b) => never_stops(a) || never_stops(b),
        Term::CollectAll(s) | Term::Map(s, _) | Term::ResetWhen(s, _, _) => never_stops(s),
    }
}
