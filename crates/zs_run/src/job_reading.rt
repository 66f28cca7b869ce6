//! The jobs of a plan or a population.
ghost use Rattle.std.specs.Prelude.{◌≡◌, ◌<◌, ◌^◌, ◌++◌, ◌∷◌, ◌&&◌, [], ℕ, List, map, option_map, length, IfOk, IfErr, OnOk, Some};
ghost use Rattle.std.specs.List.{list_all};
ghost use Rattle.serde_json.specs.View.{view};
ghost use Rattle.zs_term.specs.Schedule.{schedule_of};
ghost use Rattle.zs_term.specs.Verdict.{verdict_of};
ghost use Rattle.zs_drive.specs.Values.{job_record};
ghost use Rattle.zs_run.specs.declared.plan_fault.PlanFault.TheVariants as faults;
ghost use Rattle.zs_run.specs.Refusals.{Gives, passed_on};
ghost use Rattle.zs_run.specs.Tree.{has_only_keys};
ghost use Rattle.zs_run.specs.Shapes.{entry_keys, job_keys};
ghost use Rattle.zs_run.specs.Names.{KnowsNames, LearnsName};
ghost use Rattle.zs_run.specs.Head.{job_of_bytes};
ghost use Rattle.zs_run.specs.Jobs.{job_of, jobs_of, mode_of, script_of};

use crate::entry::beats_of;
use crate::names::is_name;
use crate::plan_fault::PlanFault;
use crate::tree::{has_only_keys, list, read_tree, text, whole_or};
use serde_json::Value;
use std::alloc::{AllocError, Global};
use std::collections::BTreeSet;
use zs_drive::{Job, Mode};
use zs_effect::{Beat, Script};
use zs_term::{Checked, TermFault};

// The parts of a job.
#[derive(Drop)]
struct JobParts<'v> {
    name: &'v str,
    mode: &'v str,
    schedule: &'v str,
    start: u64,
    entries: &'v [Value],
}

impl<'v> JobParts<'v> {
    ghost use Rattle.zs_run.specs.Shapes.{job_parts};
    ghost use Rattle.zs_run.specs.ShapeViews.{job_view};

    // The parts of a job, if all are there and have their types.
    #[tactic(auto, unfolding(crate::specs::Shapes::job_parts))]
    fn of(job: &'v Value) -> Option<JobParts<'v>>
        ensures value { option_map job_view result ≡ job_parts (view job.now) }
    {
        Some(JobParts {
            name: text(job, "name")?,
            mode: text(job, "mode")?,
            schedule: text(job, "schedule")?,
            start: whole_or(job, "start", 0)?,
            entries: list(job, "script")?,
        })
    }
}

// The mode that a text names.
#[tactic(auto, unfolding(crate::specs::Jobs::mode_of))]
fn mode_of(text: &str) -> Option<Mode>
    ensures value { result ≡ mode_of text.now }
{
    if text == "retry" {
        Some(Mode::Retry)
    } else if text == "repeat" {
        Some(Mode::Repeat)
    } else {
        None
    }
}

// Whether all entries have only known keys.
fn have_known_keys(entries: &[Value]) -> bool
    ensures value { result ≡ list_all (λ v. has_only_keys entry_keys (view v)) entries.now }
{
    entries
        .iter()
        .all(|entry| has_only_keys(entry, &["ms", "ok", "err"]))
}

// Whether a job and the entries of its script have no other key.
#[tactic(auto, using(crate::proofs::Trees::list_all_map))]
fn has_known_keys(job: &Value, entries: &[Value]) -> bool
    ensures value { result ≡ (has_only_keys job_keys (view job.now)
        && list_all (has_only_keys entry_keys) (map view entries.now)) }
{
    has_only_keys(job, &["name", "mode", "schedule", "start", "script"]) && have_known_keys(entries)
}

// The schedule of the job with this number.
fn schedule_of(alloc: Global, number: u64, text: &str) -> Result<Checked, PlanFault>
    ensures value { Gives schedule_of result
        (passed_on (faults.Schedule number) (verdict_of text.now)) }
{
    match zs_term::read(alloc, text) {
        Ok(schedule) => Ok(schedule),
        Err(TermFault::Memory) => Err(PlanFault::Memory),
        Err(fault) => Err(PlanFault::Schedule { job: number, fault }),
    }
}

// The script of the job with this number.
#[tactic(auto, using(crate::proofs::ScriptLemmas::script_passes, crate::proofs::ScriptLemmas::script_fails))]
fn script_of(number: u64, beats: Vec<Beat>) -> Result<Script, PlanFault>
    ensures value { Gives (λ s. s) result
        (passed_on (faults.Script number) (script_of beats.items)) }
{
    Script::new(beats).map_err(|fault| PlanFault::Script { job: number, fault })
}

/// The job with this number, after those whose names are given.
#[tactic(auto, unfolding(crate::specs::Jobs::job_of))]
pub(crate) fn job_of(
    alloc: Global,
    number: u64,
    names: &BTreeSet<String>,
    value: &Value,
) -> Result<Job, PlanFault>
    ensures value { (earlier : List (List ℕ)) → KnowsNames names.now earlier
        → Gives job_record result (job_of number earlier (view value.now)) }
{
    let parts = JobParts::of(value).ok_or(PlanFault::Shape { job: Some(number) })?;
    let beats = beats_of(alloc, number, parts.entries)?;
    if !has_known_keys(value, parts.entries) {
        return Err(PlanFault::UnknownKey { job: Some(number) });
    }
    let mode = mode_of(parts.mode).ok_or(PlanFault::Range { job: Some(number) })?;
    if !is_name(parts.name) {
        return Err(PlanFault::Name { job: number });
    }
    if names.contains(parts.name) {
        return Err(PlanFault::SameName { job: number });
    }
    let schedule = schedule_of(alloc, number, parts.schedule)?;
    let script = script_of(number, beats)?;
    let name = String::from_str(alloc, parts.name)?;
    Ok(Job {
        name,
        mode,
        schedule,
        start: parts.start,
        script,
    })
}

/// Reads the job with this number from bytes, after those whose names are given. The error is its
/// first fault.
#[tactic(auto, unfolding(crate::specs::Head::job_of_bytes))]
pub fn read_job(
    alloc: Global,
    number: u64,
    names: &BTreeSet<String>,
    bytes: &[u8],
) -> Result<Job, PlanFault>
    ensures job { (earlier : List (List ℕ)) → KnowsNames names.now earlier
        → Gives job_record result (job_of_bytes number earlier bytes.now) }
{
    let value = read_tree(alloc, bytes)?;
    job_of(alloc, number, names, &value)
}

// The job of a value that is dropped as soon as it is read.
fn take_job(
    alloc: Global,
    number: u64,
    names: &BTreeSet<String>,
    value: Value,
) -> Result<Job, PlanFault>
    ensures value { (earlier : List (List ℕ)) → KnowsNames names.now earlier
        → Gives job_record result (job_of number earlier (view value)) }
{
    job_of(alloc, number, names, &value)
}

// Adds a name to the set.
#[tactic(auto, using(crate::proofs::NameLemmas::knows_inserted))]
fn add_name(alloc: Global, names: &mut BTreeSet<String>, name: &str) -> Result<(), AllocError>
    ensures known { OnOk result (LearnsName names.old names.new name.now) }
{
    let copy = String::from_str(alloc, name)?;
    match names.insert(copy) {
        Ok(_) => Ok(()),
        Err(_) => Err(AllocError),
    }
}

/// Adds a job and its name to those before it. Its one fault is `Memory`.
pub fn add_job(
    alloc: Global,
    names: &mut BTreeSet<String>,
    jobs: &mut Vec<Job>,
    job: Job,
) -> Result<(), PlanFault>
    ensures names { OnOk result (LearnsName names.old names.new (job_record job).name) }
    ensures jobs { OnOk result (jobs.new.items ≡ jobs.old.items ++ job ∷ []) }
    ensures err { IfErr result (λ fault. fault ≡ PlanFault.Memory) }
{
    add_name(alloc, names, job.name.as_str())?;
    jobs.push(job)?;
    Ok(())
}

/// The jobs of a list, or the first fault. Each value is dropped as soon as it is read, while it is
/// in the cache. The names so far are in a set, so that each is looked up in short time.
pub(crate) fn jobs_of(alloc: Global, values: Vec<Value>) -> Result<Vec<Job>, PlanFault>
    requires room { length values.items < 2 ^ 64 }
    ensures jobs { Gives (λ jobs. map job_record jobs.items) result
        (jobs_of 0 [] (map view values.items)) }
    ensures count { IfOk result (λ jobs. length jobs.items ≡ length values.items) }
{
    let mut jobs = Vec::new(alloc);
    let mut names = BTreeSet::new(alloc);
    let mut number = 0;
    for value in values {
        let job = take_job(alloc, number, &names, value)?;
        add_job(alloc, &mut names, &mut jobs, job)?;
        number += 1;
    }
    Ok(jobs)
}
