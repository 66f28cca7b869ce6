//! How many attempts begin within a time, step by step.

ghost use Rattle.std.specs.Prelude.{◌≡◌, IfOk};
ghost use Rattle.zs_term.specs.Schedule.{schedule_of};
ghost use Rattle.zs_bounds.specs.Bounds.{BeginsWithin};
ghost use Rattle.zs_bounds.specs.Node.{KnowsFirsts};
ghost use Rattle.zs_bounds.specs.WithinOf.{most_within, within_at, within_of};

use crate::decisions::Decisions;
use crate::driver::Driver;
use crate::node::{Node, node_of};
use crate::stepping::{Next, step};
use std::alloc::{AllocError, Global};
use zs_term::Checked;

/// Returns the most attempts of a driver that begin within a time, in milliseconds, of the begin of
/// the first one, which counts too. Inputs are arbitrary.
///
/// Looks at no more than `steps` steps. If more may be within the time, returns the number of
/// attempts for which there is time without waits. Fails only if memory runs out.
pub fn attempts_within(
    alloc: Global,
    checked: &Checked,
    driver: Driver,
    time: u64,
    steps: u64,
) -> Result<u64, AllocError>
    ensures promises { IfOk result (BeginsWithin (schedule_of checked.now) driver time) }
    // The number is a function of schedule, driver, time and number of steps.
    ensures value { IfOk result (λ n. n ≡ within_of (schedule_of checked.now) driver time steps) }
{
    let (mut node, first) = node_of(alloc, checked.term())?;
    within_from(alloc, &mut node, driver, time, first.1, steps)
}

// The attempts of at most `steps` steps, by the state after the first one, and what it may decide.
#[tactic(auto, using(crate::proofs::WithinLoops::within_end, crate::proofs::WithinLoops::within_ends, crate::proofs::WithinLoops::within_late))]
fn within_from(
    alloc: Global,
    node: &mut Node,
    driver: Driver,
    time: u64,
    first: Decisions,
    steps: u64,
) -> Result<u64, AllocError>
    requires firsts { KnowsFirsts node.old }
    ensures value { IfOk result (λ n. n ≡ within_at node.old driver time steps first) }
{
    let mut decision = first;
    let mut passed = 0u64;
    for steps_before in 0..steps {
        let real = driver.real(decision);
        let Some(wait) = real.waits else {
            return Ok(steps_before + 1);
        };
        let later = driver.time_between(wait);
        let Some(at) = passed.checked_add(later.low) else {
            return Ok(steps_before + 1);
        };
        if at > time {
            return Ok(steps_before + 1);
        }
        passed = at;
        let answer = step(Next { alloc, later }, node)?;
        decision = answer.1;
    }
    Ok(most_within(driver, time))
}

// The attempts for which there is time without waits.
fn most_within(driver: Driver, time: u64) -> u64
    ensures value { result ≡ most_within driver time }
{
    (time / driver.shortest()).saturating_add(1)
}
