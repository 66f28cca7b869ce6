//! A run, from the bytes of a plan to the bytes of its report.
ghost use Rattle.std.specs.Prelude.{◌≡◌, ◌≤◌, ◌+◌, length, false, IfOk, string_bytes};
ghost use Rattle.zs_run.specs.Plan.{max_jobs};
ghost use Rattle.zs_run.specs.PlanView.{plan_record};
ghost use Rattle.zs_run.specs.PlanReport.{report_of};
ghost use Rattle.zs_run.specs.Headline.{Ends, max_read};
ghost use Rattle.zs_run.specs.PlanReads.{Reads, reading};

use crate::plan::Plan;
use crate::plan_fault::PlanFault;
use crate::reading::read_plan;
use crate::reporting::report;
use crate::run_fault::RunFault;
use crate::streams::{Drain, Source};
use crate::transfer::{InputFault, read_up_to, write_all};
use crate::tree::MAX_BYTES;
use std::alloc::Global;
use std::sync::Wait;
use std::thread::Threads;
use zs_engine::{EngineFault, run_jobs};
use zs_pool::Gate;

// One byte more than a plan may have: enough to know that there are too many.
const MAX_READ: usize = MAX_BYTES + 1;

// Reads all bytes that a plan may have, and one more, and parses them as a plan.
fn read_source<R: Source>(alloc: Global, reader: &mut R) -> Result<Plan, RunFault>
    requires clear { R.mark reader.old ≡ false }
    ensures reads { Reads result
        (reading (R.remaining reader.old) (R.remaining reader.new) (R.mark reader.new)) }
    ensures few { IfOk result (λ plan. length plan.jobs.items ≤ max_jobs) }
    ensures pulls { R.pulls reader.new ≤ R.pulls reader.old + max_read }
{
    let mut bytes = Vec::new(alloc);
    match read_up_to(reader, MAX_READ, &mut bytes) {
        Ok(()) => {}
        Err(InputFault::Read) => return Err(RunFault::Read),
        Err(InputFault::Memory) => return Err(RunFault::Plan(PlanFault::Memory)),
    }
    match read_plan(alloc, bytes.as_slice()) {
        Ok(plan) => Ok(plan),
        Err(fault) => Err(RunFault::Plan(fault)),
    }
}

// The report of a plan, by running its jobs.
fn report_plan<T: Threads + Wait + Sync, G: Gate>(
    rt: &T,
    alloc: Global,
    gate: &G,
    plan: Plan,
) -> Result<String, EngineFault>
    requires few { length plan.jobs.items ≤ max_jobs }
    ensures text { IfOk result (λ text. string_bytes text ≡ report_of (plan_record plan)) }
{
    let Plan { clock, cut, jobs } = plan;
    let answer = run_jobs(rt, alloc, cut, gate, clock, jobs)?;
    Ok(report(alloc, &answer)?)
}

/// Reads a plan to the end of input, runs its jobs, writes their report, and flushes.
///
/// The report is that of the plan: it doesn't depend on the number of workers, the grain, the gate
/// or the order in which threads go on. The clauses about bytes hold if the reader and the writer
/// have a view of theirs, as those over memory do. A failed allocation is `Plan(Memory)` until the
/// plan is read, and `Engine(Memory)` from then on.
pub fn run<T: Threads + Wait + Sync, G: Gate, R: Source, W: Drain>(
    rt: &T,
    alloc: Global,
    gate: &G,
    reader: &mut R,
    writer: &mut W,
) -> Result<(), RunFault>
    requires reader_clear { R.mark reader.old ≡ false }
    requires writer_clear { W.mark writer.old ≡ false }

    // Success and each fault, by the reader, the writer, and whether the writer was called.
    ensures ends { Ends result
        (record {
          before = R.remaining reader.old;
          left = R.remaining reader.new;
          failed = R.mark reader.new;
        })
        (record {
          before = W.contents writer.old;
          taken = W.contents writer.new;
          failed = W.mark writer.new;
          flushed = W.flushed writer.new;
        }) (writer.new ≡ writer.old) }
    // At most one read for each byte of the longest plan, and one more.
    ensures pulls { R.pulls reader.new ≤ R.pulls reader.old + max_read }
{
    let plan = read_source(alloc, reader)?;
    let text = match report_plan(rt, alloc, gate, plan) {
        Ok(text) => text,
        Err(fault) => return Err(RunFault::Engine(fault)),
    };
    match write_all(writer, text.as_bytes()) {
        Ok(()) => Ok(()),
        Err(sent) => Err(RunFault::Write { sent: sent as u64 }),
    }
}
