//! Decisions: from a whole history, and step by step. Each case returns the third output as text.
ghost use Rattle.std.specs.Prelude.{◌≤◌};
ghost use Rattle.zs_step.specs.Compiled.{last_seen};

use crate::ended::{Answer, CallFault, Case, SET_UP, right_if};
use std::alloc::Global;
use zs_step::{Compiled, Decision, Stepped, follow, plain};
use zs_term::{read, write_out};

const HISTORY: [(u64, u64); 3] = [(1, 7), (3, 8), (9, 9)];

/// Evaluates a schedule at the end of a history.
pub fn answer_plainly(case: &mut Case<'_>) -> Answer {
    let checked = read(case.alloc, case.input)?;
    case.call = "plain";
    let answered = plain(case.alloc, &checked, &HISTORY);
    drop(checked);
    let (out, decision) = answered?;
    case.call = "write_out";
    let text = write_out(case.alloc, &out);
    drop(out);
    right_if(decision == Decision::Next(14), "another decision")?;
    Ok(text?)
}

/// Steps a schedule through a history.
pub fn follow_history(case: &mut Case<'_>) -> Answer {
    let checked = read(case.alloc, case.input)?;
    case.call = "follow";
    let answers = follow(case.alloc, checked, &HISTORY)?;
    case.call = SET_UP;
    let text = match answers.as_slice() {
        [_, _, third] => text_of(case.alloc, third),
        _ => Err(CallFault::Wrong("another number of answers")),
    };
    drop(answers);
    text
}

fn text_of(alloc: Global, third: &Stepped) -> Answer {
    let is_right = third.decision == Decision::Next(14) && third.visits == 5;
    right_if(is_right, "another decision, or other visits")?;
    Ok(write_out(alloc, &third.out)?)
}

/// Steps a new state three times.
pub fn step_in_turn(case: &mut Case<'_>) -> Answer {
    let checked = read(case.alloc, case.input)?;
    case.call = "Compiled::new";
    let mut compiled = Compiled::new(case.alloc, checked)?;
    case.call = "step";
    let third = three_steps(&mut compiled);
    drop(compiled);
    let third = third?;
    case.call = SET_UP;
    let text = text_of(case.alloc, &third);
    drop(third);
    text
}

fn three_steps(compiled: &mut Compiled) -> Result<Stepped, CallFault>
    requires order { last_seen compiled.old ≤ 0 }
{
    step_at(compiled, 1, 7)?;
    step_at(compiled, 3, 8)?;
    step_at(compiled, 9, 9)
}

// Makes one step. If it fails, the state stays broken.
fn step_at(compiled: &mut Compiled, now: u64, input: u64) -> Result<Stepped, CallFault>
    requires order { last_seen compiled.old ≤ now }
    ensures seen { last_seen compiled.new ≤ now }
{
    match compiled.step(now, input) {
        Ok(stepped) => Ok(stepped),
        Err(fault) => {
            let is_refused = compiled.broken() && compiled.step(now, 0).is_err();
            right_if(is_refused && compiled.broken(), "whole again")?;
            Err(CallFault::from(fault))
        }
    }
}
