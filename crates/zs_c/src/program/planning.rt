//! Plans the next attempt of a loop, in the words of a program's state.

ghost use Rattle.std.specs.Prelude.{◌≡◌, ◌+◌, ◌<◌, ◌≤◌, List, ℕ, length, IfOk, IfErr};
ghost use Rattle.zs_term.specs.Schedule.{Schedule};
ghost use Rattle.zs_c.specs.Opened.{Opens, PlansOpened};
ghost use Rattle.zs_c.specs.Plan.{IsTurnDenied, moment_of};
ghost use Rattle.zs_c.specs.Planned.{IsCounted};
ghost use Rattle.zs_c.specs.Program.{IsChecked, IsProgram, IsStateOf, planned_in, state_head, state_size_in};
ghost use Rattle.zs_c.specs.Programs.{IsStepSafe};

use crate::program::denial::Denial;
use crate::program::leaf::Step;
use crate::program::node::word;
use crate::program::opening::Opened;
use crate::program::running::{PLANNED, open_for_step, run_step};
use crate::turn::Turn;
use zs_step::Decision;

// Opens a program for a step at the end of a turn. Also fails if the turn has another size.
#[inline(always)]
pub(crate) fn open_for_turn<'a>(
    program: &'a [u64],
    state: &[u64],
    turn: &Turn,
) -> Result<Opened<'a>, Denial>
    ensures ok { IfOk result (λ o. (t : Schedule) → IsProgram program.now t → Opens o t) }
    ensures checked { IfOk result (λ _. IsChecked program.now) }
    ensures state { IfOk result (λ o. o.state ≡ state_size_in program.now) }
    ensures fits { IfOk result (λ o. o.state + state_head ≤ length state.now) }
    ensures counted { IfOk result (λ _. IsCounted turn.now) }
    ensures stated { IfOk result (λ _. IsStateOf program.now state.now) }
    ensures err { IfErr result (IsTurnDenied program.now state.now turn.now) }
    ensures word { planned_in state.now < 18446744073709551616 }
{
    if !turn.is_sized() {
        return Err(Denial::OtherSize);
    }
    open_for_step(program, state, turn.moment(word(state, PLANNED)))
}

// Steps a program at the end of a turn, and plans the next attempt. Returns the number of the plan.
#[inline(always)]
pub(crate) fn plan_turn(opened: Opened<'_>, state: &mut [u64], turn: Turn, begin: &mut u64) -> u32
    requires fits { opened.state + state_head ≤ length state.old }
    ensures told { result ≤ 1 }
    ensures planned { PlansOpened opened.entry state.old state.new turn result begin.new }
    ensures safe { (program : List ℕ) → opened.entry.state ≡ state_size_in program
        → IsStepSafe program state.old state.new (moment_of (planned_in state.old) turn) }
    ensures nothing { 0 < result → begin.new ≡ 0 }
{
    let step = Step {
        moment: turn.moment(state[PLANNED]),
        input: turn.input,
    };
    let mut visits = 0;
    *begin = 0;
    let next = match run_step(opened, state, &step, &mut visits) {
        Decision::Next(next) => next,
        Decision::Stop => return 1,
    };
    match turn.begin(step.moment, next) {
        None => 1,
        Some(planned) => {
            state[PLANNED] = planned / 1_000_000;
            *begin = planned;
            0
        }
    }
}
