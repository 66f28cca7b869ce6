//! Reports.
ghost use Rattle.std.specs.Prelude.{◌≡◌, [], OnOk, IfOk, None, Some, map, option_copied, string_bytes};
ghost use Rattle.std.specs.List.{flat_map};
ghost use Rattle.zs_term.specs.OutputText.{Adds};
ghost use Rattle.zs_drive.specs.Values.{ended_of};
ghost use Rattle.zs_drive.specs.Tasks.{current_timeline};
ghost use Rattle.zs_run.specs.Report.{end_line, ending_text, head_line, job_lines, last_ended, last_moment, last_output, mode_text, report_text};
ghost use Rattle.zs_run.specs.PlanReport.{with_total};
ghost use Rattle.zs_run.specs.ReportView.{task_end, task_report};

use crate::attempt_lines::push_attempts;
use std::alloc::{AllocError, Global};
use zs_drive::{Ended, Ending, Mode, Task};
use zs_engine::Answer;
use zs_term::append_out;

// How the last attempt of a task ended, if it has.
fn last_end(task: &Task) -> Option<&Ended>
    ensures value { ended_of (option_copied result)
        ≡ last_ended (current_timeline task.now).attempts }
{
    match task.records().last() {
        Some(attempt) => attempt.ended.as_ref(),
        None => None,
    }
}

// The moment at which the last attempt ended.
fn last_moment(task: &Task) -> u64
    ensures value { result ≡ last_moment (current_timeline task.now).attempts }
{
    last_end(task).map_or(0, |ended| ended.at)
}

// Adds the output of the last step, if the schedule was stepped.
fn push_last_output(text: &mut String, task: &Task) -> Result<(), AllocError>
    ensures text { OnOk result
        (Adds text.old text.new (last_output (current_timeline task.now).attempts)) }
{
    match last_end(task).and_then(|ended| ended.step.as_ref()) {
        Some((out, _)) => append_out(text, out),
        None => Ok(()),
    }
}

// Adds how a job ended.
fn push_ending(text: &mut String, task: &Task, ending: Ending) -> Result<(), AllocError>
    ensures text { OnOk result
        (Adds text.old text.new (ending_text (current_timeline task.now).attempts ending)) }
{
    match ending {
        Ending::Succeeded(value) => write!(text, "succeeded {value}"),
        Ending::Failed(code) => write!(text, "failed {code}"),
        Ending::Finished => {
            write!(text, "finished ")?;
            push_last_output(text, task)
        }
    }
}

// Adds the last line of a job that did not end.
fn push_unfinished(text: &mut String, horizon: u64, polls: u64) -> Result<(), AllocError>
    ensures text { OnOk result (Adds text.old text.new (end_line horizon [] None polls)) }
{
    writeln!(text, "end unfinished at {horizon} polls {polls}")
}

// Adds the last line of a job.
fn push_end(text: &mut String, horizon: u64, task: &Task) -> Result<(), AllocError>
    ensures text { OnOk result (Adds text.old text.new (task_end horizon task.now)) }
{
    let polls = task.polls();
    match task.ending() {
        None => push_unfinished(text, horizon, polls),
        Some(ending) => {
            write!(text, "end ")?;
            push_ending(text, task, ending)?;
            let moment = last_moment(task);
            writeln!(text, " at {moment} polls {polls}")
        }
    }
}

// The name of a mode.
fn mode_name(mode: Mode) -> &'static str
    ensures value { result.now ≡ mode_text mode }
{
    match mode {
        Mode::Retry => "retry",
        Mode::Repeat => "repeat",
    }
}

// Adds the first line of a job.
fn push_head(text: &mut String, task: &Task) -> Result<(), AllocError>
    ensures text { OnOk result
        (Adds text.old text.new (head_line task.now.job.name task.now.job.mode)) }
{
    let name = task.name();
    let mode = mode_name(task.mode());
    writeln!(text, "job {name} {mode}")
}

// Adds the lines of a job.
fn push_job(text: &mut String, horizon: u64, task: &Task) -> Result<(), AllocError>
    ensures text { OnOk result (Adds text.old text.new (job_lines horizon (task_report task.now))) }
{
    push_head(text, task)?;
    push_attempts(text, task.records())?;
    push_end(text, horizon, task)
}

// Adds the lines of jobs.
fn push_jobs(text: &mut String, horizon: u64, tasks: &[Task]) -> Result<(), AllocError>
    ensures text { OnOk result
        (Adds text.old text.new (flat_map (job_lines horizon) (map task_report tasks.now))) }
{
    for task in tasks {
        push_job(text, horizon, task)?;
    }
    Ok(())
}

/// Appends the lines of all jobs of an `Answer`, in order: their report without its last line.
pub fn append_jobs(text: &mut String, answer: &Answer) -> Result<(), AllocError>
    ensures text { OnOk result (Adds text.old text.new
        (flat_map (job_lines answer.now.horizon) (map task_report answer.now.tasks.items))) }
{
    push_jobs(text, answer.horizon, answer.tasks.as_slice())
}

/// Appends the last line of a report, the number of all due polls.
pub fn append_total(text: &mut String, polls: u128) -> Result<(), AllocError>
    ensures text { OnOk result (string_bytes text.new ≡ with_total (string_bytes text.old) polls) }
{
    writeln!(text, "polls {polls}")
}

/// The report of what jobs did up to the horizon.
pub fn report(alloc: Global, answer: &Answer) -> Result<String, AllocError>
    ensures text { IfOk result (λ text. string_bytes text ≡ report_text answer.now.horizon
        (map task_report answer.now.tasks.items) answer.now.polls) }
{
    let mut text = String::new(alloc);
    append_jobs(&mut text, answer)?;
    append_total(&mut text, u128::from(answer.polls))?;
    Ok(text)
}
