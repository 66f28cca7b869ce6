//! Reads the schedule of a text.

ghost use Rattle.std.specs.Prelude.{IfOk, IfErr};
ghost use Rattle.zs_term.specs.Schedule.{schedule_of};
ghost use Rattle.zs_term.specs.Causes.{SpellsSchedule};
ghost use Rattle.zs_c.specs.Refusals.{IsTextRefusal};

use crate::refusal::Refusal;
use std::alloc::Global;
use zs_term::{Checked, TermFault};

// Reads the schedule that a text spells.
pub(crate) fn schedule_in(alloc: Global, text: &[u8]) -> Result<Checked, Refusal>
    ensures ok { IfOk result (λ checked. SpellsSchedule text.now (schedule_of checked)) }
    ensures err { IfErr result (IsTextRefusal text.now) }
{
    match std::str::from_utf8(text) {
        Err(fault) => Err(Refusal::NotUtf8 {
            at: fault.valid_up_to() as u64,
        }),
        Ok(text) => match zs_term::read(alloc, text) {
            Ok(checked) => Ok(checked),
            Err(TermFault::Memory) => Err(Refusal::Memory),
            Err(fault) => Err(Refusal::Text { fault }),
        },
    }
}
