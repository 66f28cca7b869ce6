//! The state of a schedule: what its output and its next step need to know in place of the history.

ghost use Rattle.std.specs.Prelude.{◌≡◌, [], true, IfOk, IsOk};
ghost use Rattle.zs_term.specs.Schedule.{schedule_of, leaf};
ghost use Rattle.zs_step.specs.LeafState.{state_leaf, LeafRepresents};
ghost use Rattle.zs_step.specs.Memory.{is_leaf};
ghost use Rattle.zs_step.specs.State.{state_schedule, Represents};

use crate::collected::Collected;
use crate::leaf::Leaf;
use std::alloc::{AllocError, Global};
use zs_term::{Func, Pick, Term, Test};

// A node with the states of its parts. The tree has the shape of the term.
#[derive(Drop)]
pub(crate) enum State {
    Leaf(Leaf),
    Both {
        parts: Box<(State, State)>,
    },
    Either {
        parts: Box<(State, State)>,
    },
    // `done` is whether the first part is done.
    AndThen {
        done: bool,
        parts: Box<(State, State)>,
    },
    WhileInput {
        part: Box<State>,
        test: Test,
    },
    WhileOutput {
        part: Box<State>,
        pick: Pick,
        test: Test,
    },
    // `kept` has the outputs of the part at the steps at which it continued.
    CollectAll {
        part: Box<State>,
        kept: Box<Collected>,
    },
    Map {
        part: Box<State>,
        func: Func,
    },
    // `part` counts from its last reset.
    ResetWhen {
        part: Box<State>,
        pick: Pick,
        test: Test,
    },
}

// Returns a term without parts before its first step.
fn leaf_of(term: &Term) -> Leaf
    requires leaf { is_leaf (schedule_of term.now) ≡ true }
    ensures made_of { leaf (state_leaf result) ≡ schedule_of term.now }
    ensures represents { LeafRepresents result [] }
{
    let (before, past, first, last) = (None, None, None, 0);
    match term {
        Term::Forever => Leaf::Forever { before },
        Term::Recurs(limit) => Leaf::Recurs {
            limit: *limit,
            before,
        },
        Term::Spaced(delay) => Leaf::Spaced {
            delay: *delay,
            before,
        },
        Term::Fixed(period) => Leaf::Fixed {
            period: *period,
            past,
            run: 0,
        },
        Term::Exponential(base, factor) => Leaf::Exponential {
            base: *base,
            factor: *factor,
            last,
            next: *base,
        },
        Term::Fibonacci(one) => Leaf::Fibonacci {
            one: *one,
            last,
            next: *one,
        },
        Term::Identity => Leaf::Identity { last },
        Term::Elapsed => Leaf::Elapsed { first, time: 0 },
        Term::Linear(unit) => Leaf::Linear { unit: *unit, last },
        Term::Windowed(period) => Leaf::Windowed {
            period: *period,
            past,
        },
        Term::Both(_, _)
        | Term::Either(_, _)
        | Term::AndThen(_, _)
        | Term::WhileInput(_, _)
        | Term::WhileOutput(_, _, _)
        | Term::CollectAll(_)
        | Term::Map(_, _)
        | Term::ResetWhen(_, _, _) => unreachable!(),
    }
}

// Returns the state of a term before its first step.
#[cycle(making)]
pub(crate) fn state_of(alloc: Global, term: &Term) -> Result<State, AllocError>
    ensures made_of { IfOk result (λ s. state_schedule s ≡ schedule_of term.now) }
    ensures represents { IfOk result (λ s. Represents s []) }
    ensures succeeds { is_leaf (schedule_of term.now) ≡ true → IsOk result }
{
    Ok(match term {
        Term::Forever
        | Term::Recurs(_)
        | Term::Spaced(_)
        | Term::Fixed(_)
        | Term::Exponential(_, _)
        | Term::Fibonacci(_)
        | Term::Identity
        | Term::Elapsed
        | Term::Linear(_)
        | Term::Windowed(_) => State::Leaf(leaf_of(term)),
        Term::Both(a, b) => State::Both {
            parts: parts(alloc, a, b)?,
        },
        Term::Either(a, b) => State::Either {
            parts: parts(alloc, a, b)?,
        },
        Term::AndThen(a, b) => State::AndThen {
            done: false,
            parts: parts(alloc, a, b)?,
        },
        Term::WhileInput(s, test) => State::WhileInput {
            part: part(alloc, s)?,
            test: *test,
        },
        Term::WhileOutput(s, pick, test) => State::WhileOutput {
            part: part(alloc, s)?,
            pick: *pick,
            test: *test,
        },
        Term::CollectAll(s) => State::CollectAll {
            part: part(alloc, s)?,
            kept: Box::new(alloc, Collected::nothing(alloc))?,
        },
        Term::Map(s, func) => State::Map {
            part: part(alloc, s)?,
            func: *func,
        },
        Term::ResetWhen(s, pick, test) => State::ResetWhen {
            part: part(alloc, s)?,
            pick: *pick,
            test: *test,
        },
    })
}

// Returns the state of a part before its first step, in a box.
#[cycle(making)]
fn part(alloc: Global, term: &Term) -> Result<Box<State>, AllocError>
    ensures made_of { IfOk result (λ s. state_schedule s.value ≡ schedule_of term.now) }
    ensures represents { IfOk result (λ s. Represents s.value []) }
{
    Ok(Box::new(alloc, state_of(alloc, term)?)?)
}

// Returns the states of two parts before their first step, in one box.
#[cycle(making)]
fn parts(alloc: Global, first: &Term, second: &Term) -> Result<Box<(State, State)>, AllocError>
    ensures first { IfOk result (λ s. state_schedule s.value.0 ≡ schedule_of first.now) }
    ensures second { IfOk result (λ s. state_schedule s.value.1 ≡ schedule_of second.now) }
    ensures represents { IfOk result (λ s. Represents s.value.0 [] × Represents s.value.1 []) }
{
    let parts = (state_of(alloc, first)?, state_of(alloc, second)?);
    Ok(Box::new(alloc, parts)?)
}
