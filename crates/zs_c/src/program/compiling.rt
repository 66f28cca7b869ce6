//! The program of a text's schedule.

ghost use Rattle.std.specs.Prelude.{◌≡◌, ◌≤◌, length, IfOk, IfErr};
ghost use Rattle.zs_c.specs.Refusals.{IsSizeRefusal};
ghost use Rattle.zs_c.specs.Programs.{IsNewProgram, IsProgramSized, IsCompileRefusal};

use crate::program::coding::new_program;
use crate::reading::schedule_in;
use crate::refusal::Refusal;
use std::alloc::Global;

// Returns the number of words of the program of a text's schedule, and that of its state.
pub(crate) fn sizes_in(alloc: Global, text: &[u8]) -> Result<(u64, u64), Refusal>
    ensures ok { IfOk result (λ r. IsProgramSized text.now r.0 r.1) }
    ensures err { IfErr result (IsSizeRefusal text.now) }
{
    let checked = schedule_in(alloc, text)?;
    let (program, state) = new_program(alloc, &checked)?;
    Ok((program.len() as u64, state))
}

// Returns the program of a text's schedule, if it fits in `room`.
pub(crate) fn fitting_program(alloc: Global, text: &[u8], room: &[u64]) -> Result<Vec<u64>, Refusal>
    ensures ok { IfOk result (λ v. IsNewProgram text.now v.items) }
    ensures fits { IfOk result (λ v. length v.items ≤ length room.now) }
    ensures err { IfErr result (IsCompileRefusal text.now (length room.now)) }
{
    let checked = schedule_in(alloc, text)?;
    let (program, _state) = new_program(alloc, &checked)?;
    if room.len() < program.len() {
        return Err(Refusal::NoRoom);
    }
    Ok(program)
}
