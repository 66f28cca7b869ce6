//! Plans from bytes.
ghost use Rattle.std.specs.Prelude.{◌≤◌, length, IfOk};
ghost use Rattle.serde_json.specs.View.{view};
ghost use Rattle.zs_run.specs.declared.plan_fault.PlanFault.TheVariants as faults;
ghost use Rattle.zs_run.specs.Refusals.{Gives};
ghost use Rattle.zs_run.specs.Plan.{max_jobs, plan_of, plan_of_tree};
ghost use Rattle.zs_run.specs.PlanView.{plan_record};

use crate::job_reading::jobs_of;
use crate::plan::Plan;
use crate::plan_fault::PlanFault;
use crate::shapes::{AskedTicks, DocumentParts};
use crate::tree::{has_only_keys, read_tree};
use serde_json::Value;
use std::alloc::Global;
use zs_pool::{Cut, MAX_TASKS};

// The most jobs of a plan: the number that a round may poll.
const MAX_JOBS: usize = MAX_TASKS as usize;

// Checks the keys of a JSON document, then its clock, cut and jobs, and makes the plan.
#[tactic(auto, unfolding(crate::specs::Plan::plan_of_tree, crate::specs::Plan::is_cut))]
fn plan_in(alloc: Global, document: &mut Value) -> Result<Plan, PlanFault>
    ensures plan { Gives plan_record result (plan_of_tree (view document.old)) }
    ensures few { IfOk result (λ plan. length plan.jobs.items ≤ max_jobs) }
{
    let is_known = has_only_keys(document, &["horizon", "ticks", "workers", "grain", "jobs"]);
    let asked = AskedTicks::of(alloc, document.get("horizon"), document.get("ticks"))?;
    let parts = DocumentParts::of(alloc, document).ok_or(PlanFault::Shape { job: None })?;
    if !is_known {
        return Err(PlanFault::UnknownKey { job: None });
    }
    let clock = asked.into_clock().ok_or(PlanFault::Range { job: None })?;
    let cut = Cut::new(parts.workers, parts.grain).ok_or(PlanFault::Range { job: None })?;
    if parts.jobs.len() > MAX_JOBS {
        return Err(PlanFault::Range { job: None });
    }
    let jobs = jobs_of(alloc, parts.jobs)?;
    Ok(Plan { clock, cut, jobs })
}

/// The plan of the bytes, or its first fault: those of the document in the order of `PlanFault`,
/// then job by job those of a job in this order. The reading can run out of memory at any point.
#[tactic(auto, unfolding(crate::specs::Plan::plan_of))]
pub fn read_plan(alloc: Global, bytes: &[u8]) -> Result<Plan, PlanFault>
    ensures plan { Gives plan_record result (plan_of bytes.now) }
    ensures few { IfOk result (λ plan. length plan.jobs.items ≤ max_jobs) }
{
    let mut document = read_tree(alloc, bytes)?;
    plan_in(alloc, &mut document)
}
