//! Blocks of jobs: read, run and written.
ghost use Rattle.std.specs.Prelude.{◌≡◌, ◌≤◌, ◌<◌, ◌+◌, ◌*◌, ◌^◌, ◌↔◌, ℕ, List, map, length, Ok, Err, true, false, is_err, IfOk, IfErr, OnOk, IsErrOf, IsTrue, string_bytes};
ghost use Rattle.std.specs.Io.KnownBytes.{Appends, IsAtEnd};
ghost use Rattle.zs_drive.specs.Values.{job_record};
ghost use Rattle.zs_run.specs.HeadView.{head_record};
ghost use Rattle.zs_run.specs.Names.{KnowsNames};
ghost use Rattle.zs_run.specs.Plan.{max_jobs};
ghost use Rattle.zs_run.specs.PlanReport.{jobs_text, polls_of, with_total};
ghost use Rattle.zs_run.specs.PlanView.{plan_record};
ghost use Rattle.zs_lines.specs.Buffers.{ahead};
ghost use Rattle.zs_population.specs.Ending.{SentPart};
ghost use Rattle.zs_population.specs.Population.{block_jobs, job_at, max_population};
ghost use Rattle.zs_population.specs.Reads.{AddsJob, BlockFault, BlockReads, HeadFault, HeadReads, IsNoJob, SkipFault, line_fault_of};
ghost use Rattle.zs_population.specs.Skipped.{Skipped};
ghost use Rattle.zs_population.specs.Sums.{CountsLines};

use crate::fault::PopulationFault;
use crate::lines::LineReader;
use std::alloc::Global;
use std::collections::BTreeSet;
use std::sync::Wait;
use std::thread::Threads;
use zs_drive::Job;
use zs_engine::{EngineFault, run_jobs};
use zs_lines::LineFault;
use zs_pool::{Gate, MAX_TASKS};
use zs_run::{
    Drain, Head, MAX_BYTES, Plan, PlanFault, Source, add_job, append_jobs, append_total, read_head,
    read_job, write_all,
};

/// The most jobs of a block: the most that a round may poll.
pub(crate) const BLOCK: usize = MAX_TASKS as usize;

/// The most jobs of a population.
pub(crate) const MAX_POPULATION: u64 = 1_000_000_000_000_000;

// The fault of a line that can't be read.
fn line_fault(line: u64, fault: LineFault) -> PopulationFault
    ensures value { result ≡ line_fault_of line fault }
{
    match fault {
        LineFault::Read => PopulationFault::Read,
        LineFault::TooLong => PopulationFault::Line {
            line,
            fault: PlanFault::TooLong,
        },
        LineFault::Memory => PopulationFault::Line {
            line,
            fault: PlanFault::Memory,
        },
    }
}

/// Reads the first line as a head.
pub(crate) fn read_first<R: Source>(
    alloc: Global,
    reader: &mut R,
    lines: &mut LineReader,
) -> Result<Head, PopulationFault>
    requires clear { R.mark reader.old ≡ false }
    ensures head { IfOk result (λ head. HeadReads (ahead R.remaining lines.old.buffer reader.old)
        (ahead R.remaining lines.new.buffer reader.new) (head_record head)) }
    ensures sums { OnOk result
        (CountsLines R.remaining lines.old reader.old lines.new reader.new) }
    ensures fault { IfErr result (HeadFault (ahead R.remaining lines.old.buffer reader.old)) }
    ensures marks { IsTrue (R.mark reader.new) ↔ IsErrOf result PopulationFault.Read }
{
    let mut line = Vec::new(alloc);
    match lines.next_line(reader, &mut line, MAX_BYTES) {
        Ok(true) => {}
        Ok(false) => {
            return Err(PopulationFault::Line {
                line: 1,
                fault: PlanFault::Json,
            });
        }
        Err(fault) => return Err(line_fault(1, fault)),
    }
    match read_head(alloc, line.as_slice()) {
        Ok(head) => Ok(head),
        Err(fault) => Err(PopulationFault::Line { line: 1, fault }),
    }
}

/// Reads past this number of lines, or past all if there are fewer. They aren't looked at.
pub(crate) fn skip_lines<R: Source>(
    alloc: Global,
    reader: &mut R,
    lines: &mut LineReader,
    count: u64,
) -> Result<(), PopulationFault>
    requires clear { R.mark reader.old ≡ false }
    requires few { count ≤ max_population }
    ensures skipped { OnOk result (Skipped count (ahead R.remaining lines.old.buffer reader.old)
        (ahead R.remaining lines.new.buffer reader.new)) }
    ensures sums { OnOk result
        (CountsLines R.remaining lines.old reader.old lines.new reader.new) }
    ensures fault { IfErr result (SkipFault count) }
    ensures marks { IsTrue (R.mark reader.new) ↔ IsErrOf result PopulationFault.Read }
{
    let mut line = Vec::new(alloc);
    let mut number = 0;
    while number < count {
        match lines.next_line(reader, &mut line, usize::MAX) {
            Ok(true) => {}
            Ok(false) => return Ok(()),
            Err(LineFault::Read) => return Err(PopulationFault::Read),
            // No line has more than `usize::MAX` bytes.
            Err(LineFault::TooLong) => unreachable!(),
            Err(LineFault::Memory) => {
                return Err(PopulationFault::Line {
                    line: number + 2,
                    fault: PlanFault::Memory,
                });
            }
        }
        number += 1;
    }
    Ok(())
}

// Parses a line as the job with this number, after jobs with these names.
fn job_at(
    alloc: Global,
    number: u64,
    names: &BTreeSet<String>,
    line: &[u8],
) -> Result<Job, PlanFault>
    ensures few { IfOk result (λ job. number < max_population) }
    ensures job { IfOk result (λ job. (earlier : List (List ℕ)) → KnowsNames names.now earlier
        → job_at number earlier line.now ≡ Ok (job_record job)) }
    ensures fault { IfErr result (IsNoJob number names.now line.now) }
{
    let job = read_job(alloc, number, names, line)?;
    if number >= MAX_POPULATION {
        return Err(PlanFault::Range { job: None });
    }
    Ok(job)
}

// Parses a line as a job, and adds it and its name.
fn add_line(
    alloc: Global,
    number: u64,
    names: &mut BTreeSet<String>,
    jobs: &mut Vec<Job>,
    line: &[u8],
) -> Result<(), PlanFault>
    ensures few { OnOk result (number < max_population) }
    ensures count { OnOk result (length jobs.new.items ≡ length jobs.old.items + 1) }
    ensures job { OnOk result (AddsJob number names.old names.new line.now
        (map job_record jobs.old.items) (map job_record jobs.new.items)) }
    ensures fault { IfErr result (IsNoJob number names.old line.now) }
{
    let job = job_at(alloc, number, names, line)?;
    add_job(alloc, names, jobs, job)?;
    Ok(())
}

/// How many jobs the next block has, of this number of jobs: fewer than `BLOCK` if it is the last.
pub(crate) fn block_size(count: u64, blocks: u64) -> u64
    requires within { blocks * block_jobs ≤ count }
    ensures block { result ≤ block_jobs }
    ensures within { blocks * block_jobs + result ≤ count }
    ensures last { result < block_jobs → blocks * block_jobs + result ≡ count }
{
    let left = count - blocks * BLOCK as u64;
    if left < BLOCK as u64 {
        left
    } else {
        BLOCK as u64
    }
}

/// Reads the jobs of the next block: fewer than `size` if no line remains.
pub(crate) fn read_block<R: Source>(
    alloc: Global,
    reader: &mut R,
    lines: &mut LineReader,
    names: &mut BTreeSet<String>,
    first: u64,
    size: u64,
) -> Result<Vec<Job>, PopulationFault>
    requires clear { R.mark reader.old ≡ false }
    requires few { first ≤ max_population }
    requires block { size ≤ block_jobs }
    ensures size { IfOk result (λ jobs. length jobs.items ≤ size) }
    ensures few { IfOk result (λ jobs. first + length jobs.items ≤ max_population) }
    ensures jobs { IfOk result (λ jobs. BlockReads first (ahead R.remaining lines.old.buffer reader.old)
        (ahead R.remaining lines.new.buffer reader.new) names.old names.new (map job_record jobs.items)) }
    ensures last { IfOk result (λ jobs. length jobs.items < size
        → IsAtEnd (ahead R.remaining lines.new.buffer reader.new)) }
    ensures sums { OnOk result
        (CountsLines R.remaining lines.old reader.old lines.new reader.new) }
    ensures fault { IfErr result
        (BlockFault first size (ahead R.remaining lines.old.buffer reader.old) names.old) }
    ensures marks { IsTrue (R.mark reader.new) ↔ IsErrOf result PopulationFault.Read }
{
    let mut jobs = Vec::new(alloc);
    let mut line = Vec::new(alloc);
    while (jobs.len() as u64) < size {
        let number = first + jobs.len() as u64;
        match lines.next_line(reader, &mut line, MAX_BYTES) {
            Ok(true) => {}
            Ok(false) => return Ok(jobs),
            Err(fault) => return Err(line_fault(number + 2, fault)),
        }
        if let Err(fault) = add_line(alloc, number, names, &mut jobs, line.as_slice()) {
            return Err(PopulationFault::Line {
                line: number + 2,
                fault,
            });
        }
    }
    Ok(jobs)
}

// The lines of the report of a plan, by running its jobs, up to the last line. The number of polls.
fn plan_lines<T: Threads + Wait + Sync, G: Gate>(
    rt: &T,
    alloc: Global,
    gate: &G,
    plan: Plan,
) -> Result<(String, u64), EngineFault>
    requires few { length plan.jobs.items ≤ max_jobs }
    ensures text { IfOk result (λ lines. string_bytes lines.0
        ≡ jobs_text (plan_record plan).clock (plan_record plan).jobs) }
    ensures polls { IfOk result (λ lines. lines.1
        ≡ polls_of (plan_record plan).clock (plan_record plan).jobs) }
{
    let Plan { clock, cut, jobs } = plan;
    let answer = run_jobs(rt, alloc, cut, gate, clock, jobs)?;
    let mut text = String::new(alloc);
    append_jobs(&mut text, &answer)?;
    Ok((text, answer.polls))
}

/// Runs a block, and adds its polls to those before. The text of the last block ends with the
/// total.
pub(crate) fn run_block<T: Threads + Wait + Sync, G: Gate>(
    rt: &T,
    alloc: Global,
    gate: &G,
    head: &Head,
    jobs: Vec<Job>,
    polls: &mut u128,
) -> Result<String, EngineFault>
    requires few { length jobs.items ≤ block_jobs }
    requires room { polls.old + 2 ^ 64 ≤ 2 ^ 128 }
    ensures room { OnOk result (polls.new < polls.old + 2 ^ 64) }
    ensures polls { OnOk result (polls.new
        ≡ polls.old + polls_of (head_record head.now).clock (map job_record jobs.items)) }
    ensures lines { IfOk result (λ text. length jobs.items ≡ block_jobs
        → string_bytes text ≡ jobs_text (head_record head.now).clock (map job_record jobs.items)) }
    ensures last { IfOk result (λ t. length jobs.items < block_jobs → string_bytes t ≡ with_total
        (jobs_text (head_record head.now).clock (map job_record jobs.items)) polls.new) }
{
    let is_last = jobs.len() < BLOCK;
    let plan = head.plan(jobs)?;
    let (mut text, more) = plan_lines(rt, alloc, gate, plan)?;
    *polls += u128::from(more);
    if is_last {
        append_total(&mut text, *polls)?;
    }
    Ok(text)
}

/// Writes the text of a block and flushes. Returns the number of bytes sent, with those before.
pub(crate) fn write_block<W: Drain>(
    writer: &mut W,
    text: &[u8],
    before: u128,
) -> Result<u128, PopulationFault>
    requires clear { W.mark writer.old ≡ false }
    requires room { before + 2 ^ 64 ≤ 2 ^ 128 }
    ensures ok { IfOk result (λ sent. sent ≡ before + length text.now) }
    ensures room { IfOk result (λ sent. sent < before + 2 ^ 64) }
    ensures written { OnOk result
        (Appends (W.contents writer.old) (W.contents writer.new) text.now) }
    ensures flushed { OnOk result (W.flushed writer.new ≡ true) }
    ensures err { IfErr result (SentPart before text.now
        (W.contents writer.old) (W.contents writer.new)) }
    ensures marks { W.mark writer.new ≡ is_err result }
{
    match write_all(writer, text) {
        Ok(()) => Ok(before + text.len() as u128),
        Err(sent) => Err(PopulationFault::Write {
            sent: before + sent as u128,
        }),
    }
}
