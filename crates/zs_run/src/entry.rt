//! Reads the entries of a script in a plan.
ghost use Rattle.std.specs.Prelude.{◌≡◌, map, Some};
ghost use Rattle.serde_json.specs.View.{view};
ghost use Rattle.zs_run.specs.declared.plan_fault.PlanFault.TheVariants as faults;
ghost use Rattle.zs_run.specs.Refusals.{Gives, demand_some};
ghost use Rattle.zs_run.specs.Tree.{all_of};
ghost use Rattle.zs_run.specs.Shapes.{beat_of, outcome_of};
ghost use Rattle.zs_run.specs.ShapeViews.{found_view};

use crate::plan_fault::PlanFault;
use crate::tree::whole;
use serde_json::Value;
use std::alloc::Global;
use zs_effect::{Beat, Outcome};

// Returns the outcome of an attempt, by the values at `ok` and `err`: exactly one of them.
fn outcome_of(ok: Option<&Value>, err: Option<&Value>) -> Option<Outcome>
    ensures value { result ≡ outcome_of (found_view ok.entry) (found_view err.entry) }
{
    match (ok, err) {
        (Some(ok), None) => Some(Outcome::Good(ok.as_u64()?)),
        (None, Some(err)) => Some(Outcome::Bad(err.as_u64()?)),
        _ => None,
    }
}

// Returns the duration of an attempt, and its outcome.
#[tactic(auto, unfolding(crate::specs::Shapes::beat_of))]
fn beat_of(entry: &Value) -> Option<Beat>
    ensures value { result ≡ beat_of (view entry.now) }
{
    let ms = whole(entry, "ms")?;
    let outcome = outcome_of(entry.get("ok"), entry.get("err"))?;
    Some(Beat { ms, outcome })
}

/// Returns the entries of a script as beats. `number` is that of their job.
pub(crate) fn beats_of(
    alloc: Global,
    number: u64,
    entries: &[Value],
) -> Result<Vec<Beat>, PlanFault>
    ensures value { Gives (λ beats. beats.items) result
        (demand_some (all_of beat_of (map view entries.now)) (faults.Shape (Some number))) }
{
    let mut beats = Vec::with_capacity(alloc, entries.len())?;
    for entry in entries {
        let Some(beat) = beat_of(entry) else {
            return Err(PlanFault::Shape { job: Some(number) });
        };
        beats.push(beat)?;
    }
    Ok(beats)
}
