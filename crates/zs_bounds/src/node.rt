//! The states in which a schedule may be: intervals in place of a state's numbers.

ghost use Rattle.std.specs.Prelude.{◌≡◌, IfOk};
ghost use Rattle.zs_term.specs.Schedule.{schedule_of, leaf, over, collect_all, reset_when};
ghost use Rattle.zs_bounds.specs.StateRange.{first_state};
ghost use Rattle.zs_bounds.specs.Leaf.{bare_leaf};
ghost use Rattle.zs_bounds.specs.Node.{node_schedule, in_turn, IsMade, IsMadeNode};

use crate::answers::{AnswerRange, copy_if, left_range, result_hull, right_range, test_range};
use crate::decisions::{Decisions, more_items};
use crate::leaves::{Leaf, leaf_range};
use crate::ranges::{OutRange, func_range, make_pairs, picked_span};
use crate::span::{Span, any_input};
use std::alloc::{AllocError, Global};
use zs_term::{Func, Pick, Term, Test};

// A node with the states of its parts.
#[derive(Drop)]
pub(crate) enum Node {
    // The number of steps, and the time since the first one.
    Leaf(Leaf, Span, Span),
    Both(Box<Node>, Box<Node>),
    Either(Box<Node>, Box<Node>),
    AndThen(Turns, Box<Node>, Box<Node>),
    WhileInput(Box<Node>, Test),
    WhileOutput(Box<Node>, Pick, Test),
    // What the part's first step may decide, and the number of items so far.
    CollectAll(Box<Node>, Decisions, Span),
    Map(Box<Node>, Func),
    // What the part's first step may return.
    ResetWhen(Box<Node>, Pick, Test, AnswerRange),
}

// Two parts in turn: whether each may be on, what the first's first step may decide, and what the
// second's may return.
#[derive(Drop)]
pub(crate) struct Turns {
    pub(crate) first_on: bool,
    pub(crate) second_on: bool,
    pub(crate) begins: Decisions,
    pub(crate) start: AnswerRange,
}

// A node after its first step, and what that step may return.
pub(crate) type Made = (Node, AnswerRange);

// A part of a node, in separate memory, and what its first step may return.
type MadePart = (Box<Node>, AnswerRange);

// The node of a term after its first step, and what that step may return.
#[cycle(making)]
pub(crate) fn node_of(alloc: Global, term: &Term) -> Result<Made, AllocError>
    ensures made { IfOk result (λ r. IsMade (schedule_of term.now) r.0 r.1) }
{
    match term {
        Term::Forever => Ok(leaf_node(Leaf::Forever)),
        Term::Recurs(k) => Ok(leaf_node(Leaf::Recurs(*k))),
        Term::Spaced(delay) => Ok(leaf_node(Leaf::Spaced(*delay))),
        Term::Fixed(period) => Ok(leaf_node(Leaf::Fixed(*period))),
        Term::Exponential(base, factor) => Ok(leaf_node(Leaf::Exponential(*base, *factor))),
        Term::Fibonacci(one) => Ok(leaf_node(Leaf::Fibonacci(*one))),
        Term::Identity => Ok(leaf_node(Leaf::Identity)),
        Term::Elapsed => Ok(leaf_node(Leaf::Elapsed)),
        Term::Linear(unit) => Ok(leaf_node(Leaf::Linear(*unit))),
        Term::Windowed(period) => Ok(leaf_node(Leaf::Windowed(*period))),
        Term::Both(a, b) => {
            let ((first, x), (second, y)) = (part(alloc, a)?, part(alloc, b)?);
            let answer = (make_pairs(alloc, x.0, y.0)?, x.1.both(y.1));
            Ok((Node::Both(first, second), answer))
        }
        Term::Either(a, b) => {
            let ((first, x), (second, y)) = (part(alloc, a)?, part(alloc, b)?);
            let answer = (make_pairs(alloc, x.0, y.0)?, x.1.either(y.1));
            Ok((Node::Either(first, second), answer))
        }
        Term::AndThen(a, b) => in_turn(alloc, part(alloc, a)?, part(alloc, b)?),
        Term::WhileInput(s, test) => {
            let (part, x) = part(alloc, s)?;
            let answer = test_range(*test, any_input(), x);
            Ok((Node::WhileInput(part, *test), answer))
        }
        Term::WhileOutput(s, pick, test) => {
            let (part, x) = part(alloc, s)?;
            let span = picked_span(*pick, &x.0);
            Ok((
                Node::WhileOutput(part, *pick, *test),
                test_range(*test, span, x),
            ))
        }
        Term::CollectAll(s) => Ok(collect_node(part(alloc, s)?)),
        Term::Map(s, func) => {
            let (part, (out, decision)) = part(alloc, s)?;
            Ok((Node::Map(part, *func), (func_range(*func, out), decision)))
        }
        Term::ResetWhen(s, pick, test) => reset_node(alloc, part(alloc, s)?, *pick, *test),
    }
}

// The node of a leaf.
fn leaf_node(rule: Leaf) -> Made
    ensures made { IsMade (leaf (bare_leaf rule)) result.0 result.1 }
{
    let (steps, time) = (Span::one(1), Span::one(0));
    (Node::Leaf(rule, steps, time), leaf_range(rule, steps, time))
}

// The node of a part.
#[cycle(making)]
fn part(alloc: Global, term: &Term) -> Result<MadePart, AllocError>
    ensures made { IfOk result (λ r. IsMade (schedule_of term.now) r.0.value r.1) }
{
    let (node, answer) = node_of(alloc, term)?;
    Ok((Box::new(alloc, node)?, answer))
}

// Two parts in turn.
fn in_turn(alloc: Global, first: MadePart, second: MadePart) -> Result<Made, AllocError>
    requires first { IsMadeNode first.0.value first.1 }
    requires second { IsMadeNode second.0.value second.1 }
    ensures made { IfOk result (λ r.
        IsMade (in_turn first.0.value second.0.value) r.0 r.1) }
{
    let ((first, x), (second, start)) = (first, second);
    let begins = x.1;
    let left = left_range(alloc, x)?;
    let new = copy_if(alloc, true, &start)?;
    let right = right_range(alloc, begins.stops, new)?;
    let turns = Turns {
        first_on: begins.may_go_on(),
        second_on: begins.stops,
        begins,
        start,
    };
    Ok((
        Node::AndThen(turns, first, second),
        result_hull(left, right),
    ))
}

// A part whose outputs are collected.
fn collect_node(made: MadePart) -> Made
    requires part { IsMadeNode made.0.value made.1 }
    ensures made { IsMade (over (node_schedule made.0.value) collect_all) result.0 result.1 }
{
    let (part, (_out, begins)) = made;
    let none = Span::one(0);
    let items = more_items(begins, none);
    (
        Node::CollectAll(part, begins, items),
        (OutRange::Lists(none), begins),
    )
}

// A part that may be reset.
fn reset_node(alloc: Global, made: MadePart, pick: Pick, test: Test) -> Result<Made, AllocError>
    requires part { IsMadeNode made.0.value made.1 }
    ensures made { IfOk result (λ r.
        IsMade (over (node_schedule made.0.value) (reset_when pick test)) r.0 r.1) }
{
    let (part, start) = made;
    let answer = copy_if(alloc, true, &start)?;
    Ok((Node::ResetWhen(part, pick, test, start), answer))
}
