//! One step of all states in which a schedule may be.

ghost use Rattle.std.specs.Prelude.{◌≡◌, IfOk, OnOk};
ghost use Rattle.zs_bounds.specs.AnswerRange.{results_if};
ghost use Rattle.zs_bounds.specs.OutRange.{result_range};
ghost use Rattle.zs_bounds.specs.Node.{node_range, node_state, state_if, turns_range, KnowsFirsts, KnowsTurns, SameNode, Moves, MovesTurns};

use crate::answers::{AnswerRange, copy_if, no_result, reset_range, test_range, turn_range};
use crate::beginning::begin;
use crate::decisions::{may_fail, may_pass, more_items};
use crate::leaves::leaf_range;
use crate::node::{Node, Turns};
use crate::ranges::{OutRange, func_range, make_pairs, picked_span};
use crate::span::{Span, any_input};
use std::alloc::{AllocError, Global};

// What each node is given at a step: memory, and the times up to it since the one before.
#[derive(Clone, Copy)]
pub(crate) struct Next {
    pub(crate) alloc: Global,
    pub(crate) later: Span,
}

// One step, in place: what it may return.
#[cycle(stepping)]
pub(crate) fn step(next: Next, node: &mut Node) -> Result<AnswerRange, AllocError>
    requires firsts { KnowsFirsts node.old }
    ensures range { IfOk result (λ r. result_range r ≡ node_range node.old next.later) }
    ensures moves { OnOk result (Moves node.old node.new next.later) }
{
    match node {
        Node::Leaf(leaf, steps, time) => {
            *steps = steps.more_steps();
            *time = time.more_time(next.later);
            Ok(leaf_range(*leaf, *steps, *time))
        }
        Node::Both(first, second) => {
            let (x, y) = (step(next, first)?, step(next, second)?);
            Ok((make_pairs(next.alloc, x.0, y.0)?, x.1.both(y.1)))
        }
        Node::Either(first, second) => {
            let (x, y) = (step(next, first)?, step(next, second)?);
            Ok((make_pairs(next.alloc, x.0, y.0)?, x.1.either(y.1)))
        }
        Node::AndThen(turns, first, second) => step_and_then(next, turns, first, second),
        Node::WhileInput(part, test) => Ok(test_range(*test, any_input(), step(next, part)?)),
        Node::WhileOutput(part, pick, test) => {
            let x = step(next, part)?;
            let span = picked_span(*pick, &x.0);
            Ok(test_range(*test, span, x))
        }
        Node::CollectAll(part, _, items) => {
            let (_out, decision) = step(next, part)?;
            let earlier = *items;
            *items = more_items(decision, earlier);
            Ok((OutRange::Lists(earlier), decision))
        }
        Node::Map(part, func) => {
            let (out, decision) = step(next, part)?;
            Ok((func_range(*func, out), decision))
        }
        Node::ResetWhen(part, pick, test, start) => {
            let x = step(next, part)?;
            let span = picked_span(*pick, &x.0);
            let (passes, fails) = (may_pass(*test, span), may_fail(*test, span));
            begin(passes, fails, part);
            let first = copy_if(next.alloc, passes, start)?;
            Ok(reset_range(passes, fails, x, first))
        }
    }
}

// One step of two parts in turn: of the first if it may be on, of the second if it may be, and the
// second's first step if the first may be done.
#[cycle(stepping)]
fn step_and_then(
    next: Next,
    turns: &mut Turns,
    first: &mut Node,
    second: &mut Node,
) -> Result<AnswerRange, AllocError>
    requires firsts { KnowsTurns turns.old first.old second.old }
    ensures range { IfOk result (λ r.
        result_range r ≡ turns_range turns.old first.old second.old next.later) }
    ensures moves { OnOk result
        (MovesTurns turns.old turns.new first.old first.new second.old second.new next.later) }
{
    let is_on = turns.second_on;
    let x = step_if(next, turns.first_on, first)?;
    let y = step_if(next, is_on, second)?;
    let decision = x.1;
    begin(decision.stops, is_on, second);
    turns.first_on = decision.may_go_on();
    turns.second_on = is_on || decision.stops;
    let start = copy_if(next.alloc, decision.stops, &turns.start)?;
    let answer = turn_range(next.alloc, is_on, x, y, start)?;
    Ok(answer)
}

// One step of one of two parts in turn, if it may be on.
#[cycle(stepping)]
fn step_if(next: Next, is_on: bool, part: &mut Node) -> Result<AnswerRange, AllocError>
    requires firsts { KnowsFirsts part.old }
    ensures range { IfOk result (λ r.
        result_range r ≡ results_if is_on (node_range part.old next.later)) }
    ensures state { OnOk result (node_state part.new ≡ state_if is_on part.old next.later) }
    ensures same { OnOk result (SameNode part.old part.new) }
{
    if is_on {
        step(next, part)
    } else {
        Ok(no_result())
    }
}
