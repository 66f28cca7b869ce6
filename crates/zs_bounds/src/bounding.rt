//! The bounds of a schedule, step by step.

ghost use Rattle.std.specs.Prelude.{◌≡◌, IfOk};
ghost use Rattle.zs_term.specs.Schedule.{schedule_of};
ghost use Rattle.zs_bounds.specs.Bounds.{Promises};
ghost use Rattle.zs_bounds.specs.BoundsOf.{bounds_of, latest_of, wait_limit};
ghost use Rattle.zs_bounds.specs.Node.{KnowsFirsts, bounds_at, node_schedule};

use crate::decisions::Decisions;
use crate::driver::Driver;
use crate::latest::{latest_step, wait_limit};
use crate::node::{Node, node_of};
use crate::span::MAX_TICK;
use crate::stepping::{Next, step};
use crate::told::Bounds;
use std::alloc::{AllocError, Global};
use zs_term::Checked;

/// Returns what holds for every history that a driver can make with a schedule. In such a history
/// each step is at a moment of a clock, attempts and waits are as `driver` says, and inputs are
/// arbitrary.
///
/// Looks at no more than `steps` steps. Looks at fewer if the schedule is done by then, or if the
/// next step would be past every clock. Fails only if memory runs out.
pub fn bounds(
    alloc: Global,
    checked: &Checked,
    driver: Driver,
    steps: u64,
) -> Result<Bounds, AllocError>
    ensures promises { IfOk result (Promises (schedule_of checked.now) driver) }
    // The numbers are a function of schedule, driver and number of steps.
    ensures value { IfOk result (λ b. b ≡ bounds_of (schedule_of checked.now) driver steps) }
{
    let (mut node, first) = node_of(alloc, checked.term())?;
    let limit = latest_step(checked.term(), driver, Some(0));
    let wait = wait_limit(checked.term());
    bounds_from(alloc, &mut node, driver, limit, wait, first.1, steps)
}

// The bounds of at most `steps` steps, by a limit of the time up to a step that goes on, the state
// after the first one, and what it may decide.
#[tactic(auto, using(crate::proofs::Loops::loop_end, crate::proofs::Loops::loop_ends, crate::proofs::Loops::loop_past, crate::proofs::Loops::loop_goes_on))]
fn bounds_from(
    alloc: Global,
    node: &mut Node,
    driver: Driver,
    limit: Option<u64>,
    longest: Option<u64>,
    first: Decisions,
    steps: u64,
) -> Result<Bounds, AllocError>
    requires limit { limit ≡ latest_of (node_schedule node.old) driver }
    requires longest { longest ≡ wait_limit (node_schedule node.old) }
    requires firsts { KnowsFirsts node.old }
    ensures value { IfOk result (λ b. b ≡ bounds_at node.old driver steps first) }
{
    let mut decision = first;
    let mut passed = 0u64;
    let mut told = Bounds::nothing(driver);
    for _ in 0..steps {
        let real = driver.real(decision);
        told = told.with_step(limit, driver, real);
        let Some(wait) = real.waits else {
            return Ok(told.with_end());
        };
        let later = driver.time_between(wait);
        passed = passed.saturating_add(later.low);
        if passed > MAX_TICK {
            return Ok(told.complete());
        }
        let answer = step(Next { alloc, later }, node)?;
        decision = answer.1;
    }
    Ok(told.without_end(limit, longest, driver))
}
