//! How many steps of a policy are looked at.
ghost use Rattle.std.specs.Prelude.{◌≡◌, ◌≤◌};
ghost use Rattle.zs_term.specs.Schedule.{max_weight, schedule_of, weight};
ghost use Rattle.zs_bounds_lines.specs.BoundsLines.{steps_for};

use zs_term::{Checked, Term};

// All nodes of a policy usually take at most this number of steps together: within 0.1 s.
const WORK: u64 = 1_200_000;

// The number of nodes of a term. `resetWhen` counts its part twice.
fn weight(term: &Term) -> u64
    requires within { weight (schedule_of term.now) ≤ max_weight }
    ensures value { result ≡ weight (schedule_of term.now) }
{
    match term {
        Term::Forever
        | Term::Recurs(_)
        | Term::Spaced(_)
        | Term::Fixed(_)
        | Term::Exponential(_, _)
        | Term::Fibonacci(_)
        | Term::Identity
        | Term::Elapsed
        | Term::Linear(_)
        | Term::Windowed(_) => 1,
        Term::Both(a, b) | Term::Either(a, b) | Term::AndThen(a, b) => 1 + weight(a) + weight(b),
        Term::ResetWhen(s, _, _) => 1 + 2 * weight(s),
        Term::WhileInput(s, _)
        | Term::WhileOutput(s, _, _)
        | Term::CollectAll(s)
        | Term::Map(s, _) => 1 + weight(s),
    }
}

/// At most this number of steps of a policy is looked at: the number that is set, or the usual one.
#[tactic(auto, using(crate::proofs::WeightLemmas::weight_within, crate::proofs::WeightLemmas::weight_positive))]
pub(crate) fn steps_for(set: Option<u64>, policy: &Checked) -> u64
    ensures value { result ≡ steps_for set (schedule_of policy.now) }
{
    match set {
        Some(steps) => steps,
        None => (WORK / weight(policy.term())).max(1),
    }
}
