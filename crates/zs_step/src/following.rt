//! Steps a schedule through a list of moments and inputs.

ghost use Rattle.std.specs.Prelude.{◌≡◌, length, vec_len, ◌++◌, ◌∷◌, [], IfOk, OnOk};
ghost use Rattle.zs_term.specs.Schedule.{schedule_of};
ghost use Rattle.zs_step.specs.History.{history_of, IsInOrder};
ghost use Rattle.zs_step.specs.Compiled.{AreAnswers};

use crate::compiled::Compiled;
use crate::fault::StepFault;
use crate::stepped::Stepped;
use std::alloc::{AllocError, Global};
use zs_term::Checked;

/// Steps a new `Compiled` once for each pair (moment, input), oldest first, and returns all
/// results. Fails only with `Memory`.
pub fn follow(
    alloc: Global,
    checked: Checked,
    pairs: &[(u64, u64)],
) -> Result<Vec<Stepped>, StepFault>
    requires order { IsInOrder (history_of pairs.now) }
    ensures len { IfOk result (λ v. vec_len v ≡ length pairs.now) }
    ensures ok { IfOk result (λ v. AreAnswers (schedule_of checked) pairs.now v.items) }
{
    let mut compiled = Compiled::new(alloc, checked)?;
    let mut answers = Vec::new(alloc);
    for i in 0..pairs.len() {
        let stepped = compiled.step(pairs[i].0, pairs[i].1)?;
        keep(&mut answers, stepped)?;
    }
    Ok(answers)
}

// Appends one more result.
fn keep(answers: &mut Vec<Stepped>, stepped: Stepped) -> Result<(), AllocError>
    ensures ok { OnOk result (answers.new.items ≡ answers.old.items ++ stepped ∷ []) }
{
    answers.push(stepped)?;
    Ok(())
}
