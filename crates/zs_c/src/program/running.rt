//! Begins and steps a program, in the words of its state.

ghost use Rattle.std.specs.Prelude.{◌≡◌, ◌+◌, ◌≤◌, List, ℕ, [], ◌∷◌, ◌++◌, length, drop, IfOk, IfErr};
ghost use Rattle.zs_term.specs.OutputText.{output_text};
ghost use Rattle.zs_term.specs.Schedule.{Schedule};
ghost use Rattle.zs_c.specs.Told.{written};
ghost use Rattle.zs_c.specs.Program.{IsChecked, IsProgram, IsStateOf, check_in, planned_in, state_head, state_size_in};
ghost use Rattle.zs_c.specs.Opened.{OfEachOutput, Opens, StepsOpened};
ghost use Rattle.zs_c.specs.Programs.{IsUnfit, IsForeign, IsStepDenied, IsOutputDenied, IsProgramBegun, IsStepSafe};

use crate::program::clearing::clear;
use crate::program::denial::Denial;
use crate::program::leaf::Step;
use crate::program::opening::{CHECK, Opened, VERSION, open};
use crate::program::output_text::put_output;
use crate::program::outputs::Place;
use crate::program::stepping::step_code;
use crate::room::put_after;
use zs_step::Decision;
use zs_term::MAX_DEPTH;

/// The first word of each state: the version of its form.
const STATE_VERSION: u64 = 0x7a73_7461_7465_0001;

/// The places of a state's last moment, of its planned begin in ms, and of 1 after a step.
const LAST: usize = 2;

pub(crate) const PLANNED: usize = 3;

const STEPPED: usize = 4;

/// The number of words before those of the schedule's state.
pub(crate) const STATE_HEAD: usize = 5;

// Opens a program. Fails if the words are no program, or if `state` has fewer words than its state.
#[inline(always)]
pub(crate) fn open_fitting<'a>(program: &'a [u64], state: &[u64]) -> Result<Opened<'a>, Denial>
    ensures ok { IfOk result (λ o. (t : Schedule) → IsProgram program.now t → Opens o t) }
    ensures checked { IfOk result (λ _. IsChecked program.now) }
    ensures check { IfOk result (λ o. o.check ≡ check_in program.now) }
    ensures state { IfOk result (λ o. o.state ≡ state_size_in program.now) }
    ensures fits { IfOk result (λ o. o.state + state_head ≤ length state.now) }
    ensures err { IfErr result (IsUnfit program.now state.now) }
{
    let Some(opened) = open(program) else {
        return Err(Denial::NoProgram);
    };
    if state.len() < STATE_HEAD || state.len() - STATE_HEAD < opened.state {
        return Err(Denial::NoRoom);
    }
    Ok(opened)
}

// Opens a program whose state the words are. Fails also if they are a state of another version or
// of another program.
#[inline(always)]
pub(crate) fn open_state<'a>(program: &'a [u64], state: &[u64]) -> Result<Opened<'a>, Denial>
    ensures ok { IfOk result (λ o. (t : Schedule) → IsProgram program.now t → Opens o t) }
    ensures checked { IfOk result (λ _. IsChecked program.now) }
    ensures state { IfOk result (λ o. o.state ≡ state_size_in program.now) }
    ensures fits { IfOk result (λ o. o.state + state_head ≤ length state.now) }
    ensures stated { IfOk result (λ _. IsStateOf program.now state.now) }
    ensures err { IfErr result (IsForeign program.now state.now) }
{
    // Other versions may have fewer words.
    if !state.is_empty() && state[VERSION] != STATE_VERSION {
        return Err(Denial::OtherVersion);
    }
    let opened = open_fitting(program, state)?;
    if state[CHECK] != opened.check {
        return Err(Denial::OtherState);
    }
    Ok(opened)
}

// Opens a program for a step of the state. Fails also if `moment` is below the last moment.
#[inline(always)]
pub(crate) fn open_for_step<'a>(
    program: &'a [u64],
    state: &[u64],
    moment: u64,
) -> Result<Opened<'a>, Denial>
    ensures ok { IfOk result (λ o. (t : Schedule) → IsProgram program.now t → Opens o t) }
    ensures checked { IfOk result (λ _. IsChecked program.now) }
    ensures state { IfOk result (λ o. o.state ≡ state_size_in program.now) }
    ensures fits { IfOk result (λ o. o.state + state_head ≤ length state.now) }
    ensures stated { IfOk result (λ _. IsStateOf program.now state.now) }
    ensures err { IfErr result (IsStepDenied program.now state.now moment) }
{
    let opened = open_state(program, state)?;
    if moment < state[LAST] {
        return Err(Denial::Falls);
    }
    Ok(opened)
}

// Opens a program for the output of its last step. Fails also if no step was made.
pub(crate) fn open_for_output<'a>(program: &'a [u64], state: &[u64]) -> Result<Opened<'a>, Denial>
    ensures ok { IfOk result (λ o. (t : Schedule) → IsProgram program.now t → Opens o t) }
    ensures checked { IfOk result (λ _. IsChecked program.now) }
    ensures fits { IfOk result (λ o. o.state + state_head ≤ length state.now) }
    ensures stated { IfOk result (λ _. IsStateOf program.now state.now) }
    ensures err { IfErr result (IsOutputDenied program.now state.now) }
{
    let opened = open_state(program, state)?;
    if state[STEPPED] == 0 {
        return Err(Denial::NoStep);
    }
    Ok(opened)
}

// Writes the state of a program before any step.
pub(crate) fn begin(opened: Opened<'_>, state: &mut [u64])
    requires fits { opened.state + state_head ≤ length state.old }
    ensures begun { (t : Schedule) → Opens opened.entry t → IsProgramBegun t state.old state.new }
{
    state[VERSION] = STATE_VERSION;
    state[CHECK] = opened.check;
    state[LAST] = 0;
    state[PLANNED] = 0;
    state[STEPPED] = 0;
    let words = &mut state[STATE_HEAD..opened.state + STATE_HEAD];
    clear(opened.code, words, MAX_DEPTH);
}

// Steps a program once. Sets `visits` to the number of nodes that the step visited.
#[inline(always)]
pub(crate) fn run_step(
    opened: Opened<'_>,
    state: &mut [u64],
    step: &Step,
    visits: &mut u64,
) -> Decision
    requires fits { opened.state + state_head ≤ length state.old }
    ensures planned { planned_in state.new ≡ planned_in state.old }
    ensures stepped { StepsOpened opened.entry state.old state.new step.now result visits.new }
    ensures safe { (program : List ℕ) → opened.entry.state ≡ state_size_in program
        → IsStepSafe program state.old state.new step.now.moment }
{
    *visits = 0;
    let words = &mut state[STATE_HEAD..opened.state + STATE_HEAD];
    let decision = step_code(opened.code, words, MAX_DEPTH, step, visits);
    state[LAST] = step.moment;
    state[STEPPED] = 1;
    decision
}

// Writes the text of the output of a state's last step and a byte 0 to the front of `out`, as far
// as they fit. Returns the length of the text in bytes.
pub(crate) fn put_text(code: &[u64], words: &[u64], out: &mut [u8]) -> u64
    ensures text { OfEachOutput code.now words.now
        (λ o. out.new ≡ written (output_text o ++ (0 ∷ [])) out.old) }
    ensures size { OfEachOutput code.now words.now (λ o. result ≡ length (output_text o)) }
{
    let place = Place {
        code,
        words,
        levels: MAX_DEPTH,
    };
    let end = put_output(place, out, 0);
    put_after(out, end, b"\0");
    end as u64
}
