//! The output of a state's last step: the number that tests read, and the output itself.

ghost use Rattle.std.specs.Prelude.{◌≡◌, ◌≤◌, true, IfOk, IsOk};
ghost use Rattle.zs_term.specs.Output.{output_of, pair, applied};
ghost use Rattle.zs_step.specs.Memory.{is_bare};
ghost use Rattle.zs_step.specs.Numbers.{IsNumbers, IsSource, returns_piece, height};
ghost use Rattle.zs_step.specs.State.{last_output, side_output, state_schedule};

use crate::numbers::Numbers;
use crate::state::State;
use std::alloc::{AllocError, Global};
use zs_term::{Func, Out, Pick, make_left, make_pair, make_right};

// Goes down to the node that makes the output: through each node that returns its part's output, or
// a piece of it.
#[cycle(sources)]
pub(crate) fn source(state: &State) -> &State
    ensures value { last_output result.now ≡ last_output state.now }
    ensures source { IsSource result.now }
    ensures lower { height result.now ≤ height state.now }
    ensures bare { is_bare (state_schedule state.now) ≡ true
        → is_bare (state_schedule result.now) ≡ true }
{
    match state {
        State::WhileInput { part, .. } => source(part),
        State::WhileOutput { part, .. } => source(part),
        State::ResetWhen { part, .. } => source(part),
        State::Map { part, func } => match func {
            Func::First | Func::Second | Func::Merge => source(piece(part, *func)),
            Func::Size | Func::Const(_) | Func::Add(_) | Func::Mul(_) => state,
        },
        State::Leaf(_)
        | State::Both { .. }
        | State::Either { .. }
        | State::AndThen { .. }
        | State::CollectAll { .. } => state,
    }
}

// Goes down to the piece of a part's output that a function returns: to a part of a pair or to the
// content of a side, or to the whole output.
#[cycle(sources)]
fn piece(part: &State, func: Func) -> &State
    requires piece { returns_piece func ≡ true }
    ensures value { last_output result.now ≡ applied func (last_output part.now) }
    ensures lower { height result.now ≤ height part.now }
    ensures bare { is_bare (state_schedule part.now) ≡ true
        → is_bare (state_schedule result.now) ≡ true }
{
    match (func, source(part)) {
        (Func::First, State::Both { parts } | State::Either { parts }) => &parts.0,
        (Func::Second, State::Both { parts } | State::Either { parts }) => &parts.1,
        (Func::Merge, State::AndThen { done, parts }) => { if *done { &parts.1 } else { &parts.0 } }
        (_, whole) => whole,
    }
}

// Returns what tests read of the output.
pub(crate) fn read_numbers(state: &State) -> Numbers
    ensures value { IsNumbers result (last_output state.now) }
{
    match source(state) {
        State::Leaf(leaf) => Numbers::One(leaf.output()),
        State::Both { parts } | State::Either { parts } => {
            read_numbers(&parts.0).pair(read_numbers(&parts.1))
        }
        State::AndThen { .. } => Numbers::Side,
        State::CollectAll { kept, .. } => Numbers::Size(kept.len()),
        State::Map { part, func } => match read_numbers(part).after(*func) {
            Some(numbers) => numbers,
            None => unreachable!(),
        },
        State::WhileInput { .. } | State::WhileOutput { .. } | State::ResetWhen { .. } => {
            unreachable!()
        }
    }
}

// Returns what tests read of a function of a part's output, given what they read of that.
pub(crate) fn read_mapped(whole: Numbers, part: &State, func: Func) -> Numbers
    ensures value { IsNumbers whole (last_output part.now)
        → IsNumbers result (applied func (last_output part.now)) }
{
    match whole.after(func) {
        Some(numbers) => numbers,
        None => read_numbers(piece(part, func)),
    }
}

// Makes the output. Only its lists share memory with the state.
#[tactic(auto, using(crate::proofs::Steps::value_of_items))]
#[cycle(making)]
pub(crate) fn make_out(alloc: Global, state: &State) -> Result<Out, AllocError>
    ensures value { IfOk result (λ o. output_of o ≡ last_output state.now) }
    ensures succeeds { is_bare (state_schedule state.now) ≡ true → IsOk result }
{
    match source(state) {
        State::Both { parts } | State::Either { parts } => make_both(alloc, parts),
        State::AndThen { done, parts } => {
            if *done {
                make_right(alloc, make_out(alloc, &parts.1)?)
            } else {
                make_left(alloc, make_out(alloc, &parts.0)?)
            }
        }
        State::CollectAll { kept, .. } => Ok(Out::Items(kept.list.copy()?)),
        State::Leaf(leaf) => Ok(Out::Num(leaf.output())),
        node => Ok(Out::Num(read_numbers(node).pick(Pick::Whole))),
    }
}

// Makes a pair of the outputs of two states.
#[cycle(making)]
fn make_both(alloc: Global, parts: &(State, State)) -> Result<Out, AllocError>
    ensures value { IfOk result (λ o.
        output_of o ≡ pair (last_output parts.now.0) (last_output parts.now.1)) }
{
    let first = make_out(alloc, &parts.0)?;
    let second = make_out(alloc, &parts.1)?;
    make_pair(alloc, first, second)
}
