//! One step of a code, in the words of its state.

ghost use Rattle.std.specs.Prelude.{◌≡◌, ℕ, ◌+◌};
ghost use Rattle.zs_step.specs.Answer.{later_of, earlier_of};
ghost use Rattle.zs_c.specs.Steps.{StepsWords, StepsParts, StepsInTurn, size_after};

use crate::program::clearing::clear;
use crate::program::leaf::{Step, step_leaf};
use crate::program::node::{
    Form, HEAD, LONG_HEAD, SHORT_HEAD, Sizes, read_node, split, words_after,
};
use crate::program::outputs::read_number;
use zs_step::Decision;
use zs_term::MAX_WEIGHT;

// Steps a node once, in the words of its state. A step visits at most the greatest weight of nodes,
// whatever the words are.
#[cycle(stepping)]
pub(crate) fn step_code(
    code: &[u64],
    words: &mut [u64],
    levels: u64,
    step: &Step,
    visits: &mut u64,
) -> Decision
    ensures steps { StepsWords code.now levels words.old words.new step.now visits.old visits.new
        result }
{
    if levels == 0 || *visits >= MAX_WEIGHT {
        return Decision::Stop;
    }
    *visits += 1;
    match read_node(code) {
        Form::Leaf(leaf) => step_leaf(leaf, words, step),
        Form::Both(sizes) => later(step_parts(code, words, sizes, levels - 1, step, visits)),
        Form::Either(sizes) => earlier(step_parts(code, words, sizes, levels - 1, step, visits)),
        Form::AndThen(sizes) => step_and_then(code, words, sizes, levels - 1, step, visits),
        Form::WhileInput(test) => {
            let decision = step_code(words_after(code, HEAD), words, levels - 1, step, visits);
            decision.only_if(test.passes(step.input))
        }
        Form::WhileOutput(pick, test) => {
            let part = words_after(code, LONG_HEAD);
            let decision = step_code(part, words, levels - 1, step, visits);
            decision.only_if(test.passes(read_number(pick, part, words, levels - 1)))
        }
        Form::Map(_) => step_code(words_after(code, HEAD), words, levels - 1, step, visits),
        Form::ResetWhen(pick, test) => {
            let part = words_after(code, LONG_HEAD);
            let decision = step_code(part, words, levels - 1, step, visits);
            if !test.passes(read_number(pick, part, words, levels - 1)) {
                return decision;
            }
            clear(part, words, levels - 1);
            step_code(part, words, levels - 1, step, visits)
        }
        Form::CollectAll => {
            if words.len() < 2 {
                return Decision::Stop;
            }
            let part = words_after(code, SHORT_HEAD);
            let decision = step_code(part, &mut words[2..], levels - 1, step, visits);
            words[0] = words[1];
            words[1] = size_after(words[1], decision);
            decision
        }
    }
}

// Returns the later one of the decisions of two parts.
fn later(parts: (Decision, Decision)) -> Decision
    ensures value { result ≡ later_of parts.0 parts.1 }
{
    parts.0.later(parts.1)
}

// Returns the earlier one.
fn earlier(parts: (Decision, Decision)) -> Decision
    ensures value { result ≡ earlier_of parts.0 parts.1 }
{
    parts.0.earlier(parts.1)
}

// Steps both parts once.
#[inline(always)]
#[cycle(stepping)]
fn step_parts(
    code: &[u64],
    words: &mut [u64],
    sizes: Sizes,
    levels: u64,
    step: &Step,
    visits: &mut u64,
) -> (Decision, Decision)
    ensures steps { StepsParts sizes code.now levels words.old words.new step.now visits.old
        visits.new result }
{
    let (first, second) = split(code, sizes);
    let state = sizes.state as usize;
    if words.len() < state {
        return (Decision::Stop, Decision::Stop);
    }
    let x = step_code(first, &mut words[..state], levels, step, visits);
    let y = step_code(second, &mut words[state..], levels, step, visits);
    (x, y)
}

// Steps the active part of an `andThenEither` once. The second part begins at the step at which the
// first is done.
#[cycle(stepping)]
fn step_and_then(
    code: &[u64],
    words: &mut [u64],
    sizes: Sizes,
    levels: u64,
    step: &Step,
    visits: &mut u64,
) -> Decision
    ensures steps { StepsInTurn sizes code.now levels words.old words.new step.now visits.old
        visits.new result }
{
    let (first, second) = split(code, sizes);
    let state = sizes.state as usize;
    if words.len() <= state {
        return Decision::Stop;
    }
    let begin = state + 1;
    if words[0] == 0 {
        let x = step_code(first, &mut words[1..begin], levels, step, visits);
        if let Decision::Next(_) = x {
            return x;
        }
        words[0] = 1;
        clear(first, &mut words[1..begin], levels);
    }
    step_code(second, &mut words[begin..], levels, step, visits)
}

// Returns the size of a list after a step with this decision.
fn size_after(size: u64, decision: Decision) -> u64
    ensures value { result ≡ size_after size decision }
{
    match decision {
        Decision::Next(_) => size.saturating_add(1),
        Decision::Stop => size,
    }
}
