//! The limits of terms: depth, weight, factors and windows.

ghost use Rattle.std.specs.Prelude.{◌≡◌, ◌<◌, ◌≤◌, ◌+◌, ◌⊎◌, IfSome, IfNone};
ghost use Rattle.zs_term.specs.Schedule.{schedule_of, is_within_limits, has_factors, has_windows, depth, weight};

use crate::forms::{Action, Counted, Shape, Subject};
use crate::term::Term;

/// The greatest depth of a schedule.
pub const MAX_DEPTH: u64 = 64;

/// The greatest weight of a schedule.
pub const MAX_WEIGHT: u64 = 1000;

// Whether a term is within the greatest depth and weight. Looks no deeper than that depth.
pub(crate) fn is_within_limits(term: &Term) -> bool
    ensures value { result ≡ is_within_limits (schedule_of term.now) }
{
    room_left(term, MAX_DEPTH, MAX_WEIGHT).is_some()
}

// Returns the number of nodes that remain of `nodes`, if the term has no more of them and no more
// levels than `levels`.
fn room_left(term: &Term, levels: u64, nodes: u64) -> Option<u64>
    ensures room { IfSome result (λ r.
        (r + weight (schedule_of term.now) ≡ nodes) × (depth (schedule_of term.now) ≤ levels)) }
    ensures none { IfNone result
        ((levels < depth (schedule_of term.now)) ⊎ (nodes < weight (schedule_of term.now))) }
{
    if levels == 0 || nodes == 0 {
        return None;
    }
    let (levels, nodes) = (levels - 1, nodes - 1);
    match term.shape() {
        Shape::Plain(_) | Shape::Counted(_, _) | Shape::Exponential(_, _) => Some(nodes),
        Shape::Joined(_, a, b) => room_left(b, levels, room_left(a, levels, nodes)?),
        Shape::Tested(s, Subject::Picked(Action::Resetting, _), _) => {
            room_left(s, levels, room_left(s, levels, nodes)?)
        }
        Shape::Tested(s, _, _) | Shape::Collected(s) | Shape::Mapped(s, _) => {
            room_left(s, levels, nodes)
        }
    }
}

// Whether every factor, and whether every window, is at least 1.
pub(crate) fn has_factors_and_windows(term: &Term) -> (bool, bool)
    ensures factors { result.0 ≡ has_factors (schedule_of term.now) }
    ensures windows { result.1 ≡ has_windows (schedule_of term.now) }
{
    match term.shape() {
        Shape::Exponential(_, factor) => (factor >= 1, true),
        Shape::Counted(Counted::Windowed, window) => (true, window >= 1),
        Shape::Plain(_) | Shape::Counted(_, _) => (true, true),
        Shape::Joined(_, a, b) => {
            let (factors, windows) = has_factors_and_windows(a);
            let (more_factors, more_windows) = has_factors_and_windows(b);
            (factors && more_factors, windows && more_windows)
        }
        Shape::Tested(s, _, _) | Shape::Collected(s) | Shape::Mapped(s, _) => {
            has_factors_and_windows(s)
        }
    }
}
