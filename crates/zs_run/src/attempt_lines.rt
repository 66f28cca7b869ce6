//! The lines of the attempts of a job.
ghost use Rattle.std.specs.Prelude.{◌++◌, ◌<◌, ◌+◌, ◌^◌, codes, length, map, OnOk};
ghost use Rattle.std.specs.Fmt.{decimal};
ghost use Rattle.zs_term.specs.OutputText.{Adds};
ghost use Rattle.zs_drive.specs.Values.{attempted_of, step_of};
ghost use Rattle.zs_run.specs.Lines.{attempt_lines, attempts_lines, decision_text, outcome_text, step_lines};

use std::alloc::AllocError;
use zs_drive::Attempted;
use zs_effect::Outcome;
use zs_step::Decision;
use zs_term::{Out, append_number, append_out};

// Adds the line of an attempt up to the moment at which it began.
fn push_begun(text: &mut String, number: u64, begun: u64) -> Result<(), AllocError>
    ensures text { OnOk result (Adds text.old text.new
        (codes "attempt " ++ decimal number ++ codes " " ++ decimal begun ++ codes "..")) }
{
    text.push_str("attempt ")?;
    append_number(text, number)?;
    text.push_str(" ")?;
    append_number(text, begun)?;
    text.push_str("..")
}

// Adds the rest of the line of an attempt that has ended.
fn push_end(text: &mut String, at: u64, outcome: Outcome) -> Result<(), AllocError>
    ensures text { OnOk result (Adds text.old text.new
        (decimal at ++ codes " " ++ outcome_text outcome ++ codes "\n")) }
{
    append_number(text, at)?;
    match outcome {
        Outcome::Good(value) => {
            text.push_str(" ok ")?;
            append_number(text, value)?;
        }
        Outcome::Bad(code) => {
            text.push_str(" err ")?;
            append_number(text, code)?;
        }
    }
    text.push_str("\n")
}

// Adds a decision, and ends the line.
fn push_decision(text: &mut String, decision: Decision) -> Result<(), AllocError>
    ensures text { OnOk result
        (Adds text.old text.new (codes " " ++ decision_text decision ++ codes "\n")) }
{
    match decision {
        Decision::Stop => text.push_str(" done\n"),
        Decision::Next(next) => {
            text.push_str(" next ")?;
            append_number(text, next)?;
            text.push_str("\n")
        }
    }
}

// Adds the line of a step, if the schedule was stepped.
fn push_step(
    text: &mut String,
    number: u64,
    step: &Option<(Out, Decision)>,
) -> Result<(), AllocError>
    ensures text { OnOk result (Adds text.old text.new (step_lines number (step_of step.now))) }
{
    match step {
        None => Ok(()),
        Some((out, decision)) => {
            text.push_str("step ")?;
            append_number(text, number)?;
            text.push_str(" out ")?;
            append_out(text, out)?;
            push_decision(text, *decision)
        }
    }
}

// Adds the lines of an attempt.
fn push_attempt(text: &mut String, number: u64, attempt: &Attempted) -> Result<(), AllocError>
    ensures text { OnOk result
        (Adds text.old text.new (attempt_lines number (attempted_of attempt.now))) }
{
    push_begun(text, number, attempt.begun)?;
    match &attempt.ended {
        None => text.push_str(" running\n"),
        Some(ended) => {
            push_end(text, ended.at, ended.outcome)?;
            push_step(text, number, &ended.step)
        }
    }
}

/// Adds the lines of attempts, which are numbered from 1.
pub(crate) fn push_attempts(text: &mut String, attempts: &[Attempted]) -> Result<(), AllocError>
    requires few { length attempts.now + 1 < 2 ^ 64 }
    ensures text { OnOk result
        (Adds text.old text.new (attempts_lines 1 (map attempted_of attempts.now))) }
{
    let mut number = 1;
    for attempt in attempts {
        push_attempt(text, number, attempt)?;
        number += 1;
    }
    Ok(())
}
