//! The calls over programs.

ghost use Rattle.std.specs.Prelude.{◌≡◌, ◌<◌, ◌≤◌, ℕ, true, length};
ghost use Rattle.zs_term.specs.Schedule.{Schedule};
ghost use Rattle.zs_step.specs.History.{History};
ghost use Rattle.zs_c.specs.Plan.{PlansFairly, IsPlannable, IsTurnDenied, IsTurnPlanned, moment_of};
ghost use Rattle.zs_c.specs.Planned.{KeepsBounds};
ghost use Rattle.zs_c.specs.Program.{IsChecked, IsProgram, IsStateOf, KeepsProgramState, planned_in};
ghost use Rattle.zs_c.specs.Programs.{IsProgramSized, IsCompiled, IsCompileRefusal, IsUnfit, IsStepDenied, IsOutputDenied, IsDeniedFor, IsProgramBegun, IsProgramStepped, IsOutputTold, IsStepSafe};
ghost use Rattle.zs_c.specs.Refusals.{IsSizeRefusal};
ghost use Rattle.zs_c.specs.Shown.{shows_no_list};
ghost use Rattle.zs_c.specs.Told.{IsRefusedFor};

use std::alloc::Global;
use zs_c::Turn;

/// Sets `size` and `state_size` to the number of words of the program of a text's schedule, and of
/// its state. Returns 0, or the number of an error, and sets `at` to the byte at which a fault
/// shows, or to 0. After an error both sizes are 0.
#[unsafe(no_mangle)]
pub extern "C" fn zs_program_size(
    alloc: Global,
    text: &[u8],
    size: &mut u64,
    state_size: &mut u64,
    at: &mut u64,
) -> u32
    ensures sized { result ≡ 0 → IsProgramSized text.now size.new state_size.new }
    ensures nowhere { result ≡ 0 → at.new ≡ 0 }
    ensures refused { 0 < result → IsRefusedFor (IsSizeRefusal text.now) result at.new }
    ensures nothing { 0 < result → (size.new ≡ 0) × (state_size.new ≡ 0) }
{
    zs_c::zs_program_size(alloc, text, size, state_size, at)
}

/// Writes the program of a text's schedule to the first words of `program`. Returns 0, or the
/// number of an error, and sets `at` to the byte at which a fault shows, or to 0. After an error
/// `program` is unchanged.
#[unsafe(no_mangle)]
pub extern "C" fn zs_compile(alloc: Global, text: &[u8], program: &mut [u64], at: &mut u64) -> u32
    ensures compiled { result ≡ 0 → IsCompiled text.now program.old program.new }
    ensures nowhere { result ≡ 0 → at.new ≡ 0 }
    ensures refused { 0 < result
        → IsRefusedFor (IsCompileRefusal text.now (length program.old)) result at.new }
    ensures kept { 0 < result → program.new ≡ program.old }
{
    zs_c::zs_compile(alloc, text, program, at)
}

/// Writes the state of a program before any step to the first words of `state`, with no planned
/// begin. Returns 0, or the number of an error. After an error `state` is unchanged. The call
/// allocates no memory.
#[unsafe(no_mangle)]
pub extern "C" fn zs_program_begin(program: &[u64], state: &mut [u64]) -> u32
    ensures begun { result ≡ 0 → (t : Schedule) → IsProgram program.now t
        → IsProgramBegun t state.old state.new }
    ensures checked { result ≡ 0 → IsChecked program.now }
    ensures refused { 0 < result → IsDeniedFor (IsUnfit program.now state.old) result }
    ensures kept { 0 < result → state.new ≡ state.old }
{
    zs_c::zs_program_begin(program, state)
}

/// Steps a program once, from the state that `state` represents. Returns 0 if the schedule
/// continues, at the moment `next` in milliseconds; 1 if it is done; else the number of an error.
/// The words then represent the state after that step. The planned begin in the state is unchanged.
/// `visits` is the number of nodes that the step visited. `next` is 0 unless 0 is returned, and
/// after an error `visits` is 0 and `state` is unchanged. The call allocates no memory.
#[unsafe(no_mangle)]
pub extern "C" fn zs_program_step(
    program: &[u64],
    state: &mut [u64],
    moment: u64,
    input: u64,
    next: &mut u64,
    visits: &mut u64,
) -> u32
    ensures stepped { result ≤ 1 → (t : Schedule) → IsProgram program.now t
        → IsProgramStepped t state.old state.new (moment, input) result next.new visits.new }
    ensures checked { result ≤ 1 → IsChecked program.now }
    ensures stated { result ≤ 1 → IsStateOf program.now state.old }
    ensures safe { result ≤ 1 → IsStepSafe program.now state.old state.new moment }
    ensures planned { planned_in state.new ≡ planned_in state.old }
    ensures refused { 1 < result → IsDeniedFor (IsStepDenied program.now state.old moment) result }
    ensures nothing { 1 < result → (next.new ≡ 0) × (visits.new ≡ 0) }
    ensures stays { 1 < result → state.new ≡ state.old }
{
    zs_c::zs_program_step(program, state, moment, input, next, visits)
}

/// Writes the text of the output of the last step and a byte 0 to the front of `out`, as far as
/// they fit, and sets `size` to the length of the text in bytes, without the byte 0. Returns 0, or
/// the number of an error. After an error `out` is unchanged and `size` is 0. The call allocates no
/// memory.
#[unsafe(no_mangle)]
pub extern "C" fn zs_output(program: &[u64], state: &[u64], out: &mut [u8], size: &mut u64) -> u32
    ensures told { result ≡ 0 → (t : Schedule) → IsProgram program.now t → shows_no_list t ≡ true
        → IsOutputTold t state.now out.old out.new size.new }
    ensures checked { result ≡ 0 → IsChecked program.now }
    ensures stated { result ≡ 0 → IsStateOf program.now state.now }
    ensures refused { 0 < result → IsDeniedFor (IsOutputDenied program.now state.now) result }
    ensures nothing { 0 < result → size.new ≡ 0 }
    ensures kept { 0 < result → out.new ≡ out.old }
{
    zs_c::zs_output(program, state, out, size)
}

/// Steps a program at the end of a loop's attempt, and plans the next one. Returns 0 if the next
/// attempt may begin at `begin`, in nanoseconds; 1 if the loop gives up, because the schedule is
/// done or 64 bits don't hold that begin; else the number of an error. The words then represent the
/// state after that step, with the planned begin. So the loop makes no more attempts than the
/// bounds of its schedule say, whatever its clock does. `begin` is 0 unless 0 is returned. After an
/// error `state` is unchanged. The call allocates no memory.
#[unsafe(no_mangle)]
pub extern "C" fn zs_plan(program: &[u64], state: &mut [u64], turn: &Turn, begin: &mut u64) -> u32
    ensures planned { result ≤ 1 → (t : Schedule) → IsProgram program.now t
        → IsTurnPlanned t turn.now state.old state.new result begin.new }
    ensures fair { result ≡ 0 → (t : Schedule) → IsProgram program.now t
        → PlansFairly t turn.now state.old begin.new }
    ensures bounded { result ≤ 1 → KeepsBounds program.now state.old turn.now result begin.new }
    ensures succeeds { (t : Schedule) (h : History) (planned : ℕ) → IsProgram program.now t
        → KeepsProgramState t h planned state.old → IsPlannable h planned turn.now → result ≤ 1 }
    ensures checked { result ≤ 1 → IsChecked program.now }
    ensures stated { result ≤ 1 → IsStateOf program.now state.old }
    ensures safe { result ≤ 1 → IsStepSafe program.now state.old state.new
        (moment_of (planned_in state.old) turn.now) }
    ensures refused { 1 < result → IsDeniedFor (IsTurnDenied program.now state.old turn.now) result }
    ensures nothing { 0 < result → begin.new ≡ 0 }
    ensures stays { 1 < result → state.new ≡ state.old }
{
    zs_c::zs_plan(program, state, turn, begin)
}
