//! The head of a population: a document without jobs.
ghost use Rattle.std.specs.Prelude.{◌≡◌, map, IfOk, None, Ok};
ghost use Rattle.serde_json.specs.View.{view};
ghost use Rattle.zs_drive.specs.Values.{job_record};
ghost use Rattle.zs_run.specs.declared.plan_fault.PlanFault.TheVariants as faults;
ghost use Rattle.zs_run.specs.Refusals.{Gives};
ghost use Rattle.zs_run.specs.Head.{head_of, head_of_tree};
ghost use Rattle.zs_run.specs.HeadView.{head_record, plan_with};

use crate::plan::Plan;
use crate::plan_fault::PlanFault;
use crate::shapes::{AskedTicks, one_or_more};
use crate::tree::{has_only_keys, read_tree};
use serde_json::Value;
use std::alloc::{AllocError, Global};
use zs_agenda::Clock;
use zs_drive::Job;
use zs_pool::Cut;

/// How the jobs of a population run: a plan without its jobs.
#[derive(Drop)]
pub struct Head {
    clock: Clock,
    cut: Cut,
}

impl Head {
    ghost use Rattle.zs_run.specs.PlanView.{plan_record};

    /// The plan of some jobs that run in this way.
    pub fn plan(&self, jobs: Vec<Job>) -> Result<Plan, AllocError>
        ensures plan { IfOk result (λ plan.
            plan_record plan ≡ plan_with (head_record self.now) (map job_record jobs.items)) }
    {
        let clock = self.clock.copy()?;
        let cut = self.cut;
        Ok(Plan { clock, cut, jobs })
    }
}

// The head that a document is.
#[tactic(auto, unfolding(crate::specs::Head::head_of_tree, crate::specs::Plan::is_cut))]
fn head_in(alloc: Global, document: &Value) -> Result<Head, PlanFault>
    ensures head { Gives head_record result (head_of_tree (view document.now)) }
{
    let asked = AskedTicks::of(alloc, document.get("horizon"), document.get("ticks"))?;
    let workers = one_or_more(document, "workers").ok_or(PlanFault::Shape { job: None })?;
    let grain = one_or_more(document, "grain").ok_or(PlanFault::Shape { job: None })?;
    if !has_only_keys(document, &["horizon", "ticks", "workers", "grain"]) {
        return Err(PlanFault::UnknownKey { job: None });
    }
    let clock = asked.into_clock().ok_or(PlanFault::Range { job: None })?;
    let cut = Cut::new(workers, grain).ok_or(PlanFault::Range { job: None })?;
    Ok(Head { clock, cut })
}

/// Reads a head from bytes. The error is the first fault of a plan's document, in which the key
/// `jobs` is unknown.
#[tactic(auto, unfolding(crate::specs::Head::head_of))]
pub fn read_head(alloc: Global, bytes: &[u8]) -> Result<Head, PlanFault>
    ensures head { Gives head_record result (head_of bytes.now) }
{
    let document = read_tree(alloc, bytes)?;
    head_in(alloc, &document)
}
