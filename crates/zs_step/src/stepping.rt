//! One step of a schedule's state, in place. It makes no output: `view.rt` reads that from the
//! state.

ghost use Rattle.std.specs.Prelude.{◌≡◌, ◌<◌, ◌+◌, ◌*◌, ◌^◌, [], true, IfOk, OnOk, IsOk};
ghost use Rattle.zs_term.specs.Output.{pair};
ghost use Rattle.zs_term.specs.Schedule.{weight};
ghost use Rattle.zs_step.specs.History.{History};
ghost use Rattle.zs_step.specs.Memory.{keeps_no_list};
ghost use Rattle.zs_step.specs.Numbers.{IsNumbers};
ghost use Rattle.zs_step.specs.State.{state_schedule, last_output, side_output, Represents, IsJoined, Answers, CountsOn};
ghost use Rattle.zs_step.specs.Stepping.{BothAnswers, BothCounts, EitherAnswers, EitherCounts, AndThenAnswers, AndThenCounts, ResetAnswers, ResetCounts};

use crate::collected::Collected;
use crate::decision::Decision;
use crate::numbers::Numbers;
use crate::state::State;
use crate::view::{make_out, read_mapped};
use std::alloc::{AllocError, Global};
use zs_term::{Pick, Test};

// What every node needs to know of a step.
#[derive(Clone, Copy)]
pub(crate) struct StepInput {
    pub(crate) alloc: Global,
    pub(crate) moment: u64,
    pub(crate) input: u64,
}

// What is known after a step: how many nodes were stepped, and what tests read of the output of the
// one that was stepped last.
#[derive(Drop)]
pub(crate) struct Trace {
    pub(crate) visits: u64,
    pub(crate) numbers: Numbers,
}

// Appends to each list the output that is due. After that a step takes no memory. Returns whether
// there is no list.
pub(crate) fn join_lists(state: &mut State, alloc: Global) -> Result<bool, AllocError>
    ensures listless { IfOk result (λ none. none ≡ keeps_no_list (state_schedule state.old)) }
    ensures same { state_schedule state.new ≡ state_schedule state.old }
    ensures joined { OnOk result (IsJoined state.new) }
    ensures represents { OnOk result
        ((h : History) → Represents state.old h → Represents state.new h) }
    ensures succeeds { keeps_no_list (state_schedule state.old) ≡ true → IsOk result }
{
    match state {
        State::Leaf(_) => Ok(true),
        State::Both { parts } => {
            Ok(join_lists(&mut parts.0, alloc)? & join_lists(&mut parts.1, alloc)?)
        }
        State::Either { parts } => {
            Ok(join_lists(&mut parts.0, alloc)? & join_lists(&mut parts.1, alloc)?)
        }
        State::AndThen { parts, .. } => {
            Ok(join_lists(&mut parts.0, alloc)? & join_lists(&mut parts.1, alloc)?)
        }
        State::CollectAll { part, kept } => {
            if kept.due {
                kept.join(make_out(alloc, part)?)?;
            }
            join_lists(part, alloc)?;
            Ok(false)
        }
        State::WhileInput { part, .. } => join_lists(part, alloc),
        State::WhileOutput { part, .. } => join_lists(part, alloc),
        State::Map { part, .. } => join_lists(part, alloc),
        State::ResetWhen { part, .. } => join_lists(part, alloc),
    }
}

// Steps and counts a node.
#[cycle(stepping)]
#[tactic(auto, using(crate::proofs::Steps::weight_some))]
pub(crate) fn step_node(state: &mut State, step: &StepInput, trace: &mut Trace) -> Decision
    // The contract of each node: its result, its visits and new state, its unchanged schedule.
    requires within { trace.old.visits + weight (state_schedule state.old) < 2 ^ 64 }
    requires joined { IsJoined state.old }
    ensures answers { Answers state.old state.new step.now.moment step.now.input result }
    ensures counts { CountsOn state.old state.new step.now.moment step.now.input
        (trace.old.visits + 1) trace.new.visits }
    ensures numbers { IsNumbers trace.new.numbers (last_output state.new) }
    ensures same { state_schedule state.new ≡ state_schedule state.old }
{
    trace.visits += 1;
    match state {
        State::Leaf(leaf) => {
            let decision = leaf.step(step.moment, step.input);
            trace.numbers = Numbers::One(leaf.output());
            decision
        }
        State::Both { parts } => step_both(parts, step, trace),
        State::Either { parts } => step_either(parts, step, trace),
        State::AndThen { done, parts } => step_and_then(done, parts, step, trace),
        State::WhileInput { part, test } => {
            let decision = step_node(part, step, trace);
            decision.only_if(test.passes(step.input))
        }
        State::WhileOutput { part, pick, test } => {
            let decision = step_node(part, step, trace);
            decision.only_if(test.passes(trace.numbers.pick(*pick)))
        }
        State::CollectAll { part, kept } => {
            let decision = step_node(part, step, trace);
            kept.follow(decision);
            trace.numbers = Numbers::Size(kept.len());
            decision
        }
        State::Map { part, func } => {
            let decision = step_node(part, step, trace);
            trace.numbers = read_mapped(trace.numbers, part, *func);
            decision
        }
        State::ResetWhen { part, pick, test } => step_reset_when(part, *pick, *test, step, trace),
    }
}

// Steps both parts, and continues if both do.
#[cycle(stepping)]
#[inline(never)]
fn step_both(parts: &mut (State, State), step: &StepInput, trace: &mut Trace) -> Decision
    requires within { trace.old.visits + weight (state_schedule parts.old.0)
        + weight (state_schedule parts.old.1) < 2 ^ 64 }
    requires joined { IsJoined parts.old.0 × IsJoined parts.old.1 }
    ensures answers { BothAnswers parts.old parts.new step.now.moment step.now.input result }
    ensures counts { BothCounts parts.old parts.new step.now.moment step.now.input
        trace.old.visits trace.new.visits }
    ensures numbers { IsNumbers trace.new.numbers
        (pair (last_output parts.new.0) (last_output parts.new.1)) }
    ensures same { (state_schedule parts.new.0 ≡ state_schedule parts.old.0)
        × (state_schedule parts.new.1 ≡ state_schedule parts.old.1) }
{
    let x = step_node(&mut parts.0, step, trace);
    let numbers = trace.numbers;
    let y = step_node(&mut parts.1, step, trace);
    trace.numbers = numbers.pair(trace.numbers);
    x.later(y)
}

// Steps both parts, and continues if at least one does.
#[cycle(stepping)]
#[inline(never)]
fn step_either(parts: &mut (State, State), step: &StepInput, trace: &mut Trace) -> Decision
    requires within { trace.old.visits + weight (state_schedule parts.old.0)
        + weight (state_schedule parts.old.1) < 2 ^ 64 }
    requires joined { IsJoined parts.old.0 × IsJoined parts.old.1 }
    ensures answers { EitherAnswers parts.old parts.new step.now.moment step.now.input result }
    ensures counts { EitherCounts parts.old parts.new step.now.moment step.now.input
        trace.old.visits trace.new.visits }
    ensures numbers { IsNumbers trace.new.numbers
        (pair (last_output parts.new.0) (last_output parts.new.1)) }
    ensures same { (state_schedule parts.new.0 ≡ state_schedule parts.old.0)
        × (state_schedule parts.new.1 ≡ state_schedule parts.old.1) }
{
    let x = step_node(&mut parts.0, step, trace);
    let numbers = trace.numbers;
    let y = step_node(&mut parts.1, step, trace);
    trace.numbers = numbers.pair(trace.numbers);
    x.earlier(y)
}

// Steps the current part. At the step at which the first is done, the second takes its first step.
#[cycle(stepping)]
#[inline(never)]
#[tactic(auto, using(crate::proofs::Steps::side_numbers))]
fn step_and_then(
    done: &mut bool,
    parts: &mut (State, State),
    step: &StepInput,
    trace: &mut Trace,
) -> Decision
    requires within { trace.old.visits + weight (state_schedule parts.old.0)
        + weight (state_schedule parts.old.1) < 2 ^ 64 }
    requires joined { IsJoined parts.old.0 × IsJoined parts.old.1 }
    ensures answers { AndThenAnswers done.old done.new parts.old parts.new
        step.now.moment step.now.input result }
    ensures counts { AndThenCounts done.old done.new parts.old parts.new
        step.now.moment step.now.input trace.old.visits trace.new.visits }
    ensures numbers { IsNumbers trace.new.numbers
        (side_output done.new (last_output parts.new.0) (last_output parts.new.1)) }
    ensures same { (state_schedule parts.new.0 ≡ state_schedule parts.old.0)
        × (state_schedule parts.new.1 ≡ state_schedule parts.old.1) }
{
    if !*done {
        let x = step_node(&mut parts.0, step, trace);
        if x.is_next() {
            trace.numbers = Numbers::Side;
            return x;
        }
        *done = true;
    }
    let y = step_node(&mut parts.1, step, trace);
    trace.numbers = Numbers::Side;
    y
}

// Steps a part, and if its output passes, resets it and steps it again.
#[cycle(stepping)]
#[inline(never)]
fn step_reset_when(
    part: &mut State,
    pick: Pick,
    test: Test,
    step: &StepInput,
    trace: &mut Trace,
) -> Decision
    requires within { trace.old.visits + 2 * weight (state_schedule part.old) < 2 ^ 64 }
    requires joined { IsJoined part.old }
    ensures answers { ResetAnswers pick test part.old part.new
        step.now.moment step.now.input result }
    ensures counts { ResetCounts pick test part.old part.new
        step.now.moment step.now.input trace.old.visits trace.new.visits }
    ensures numbers { IsNumbers trace.new.numbers (last_output part.new) }
    ensures same { state_schedule part.new ≡ state_schedule part.old }
{
    let decision = step_node(part, step, trace);
    if !test.passes(trace.numbers.pick(pick)) {
        return decision;
    }
    clear(part, step.alloc);
    step_node(part, step, trace)
}

// Resets a state, so that it represents the empty history.
fn clear(state: &mut State, alloc: Global)
    ensures same { state_schedule state.new ≡ state_schedule state.old }
    ensures represents { Represents state.new [] }
    ensures joined { IsJoined state.new }
{
    match state {
        State::Leaf(leaf) => leaf.clear(),
        State::Both { parts } => {
            clear(&mut parts.0, alloc);
            clear(&mut parts.1, alloc);
        }
        State::Either { parts } => {
            clear(&mut parts.0, alloc);
            clear(&mut parts.1, alloc);
        }
        State::AndThen { done, parts } => {
            *done = false;
            clear(&mut parts.0, alloc);
            clear(&mut parts.1, alloc);
        }
        State::CollectAll { part, kept } => {
            clear(part, alloc);
            **kept = Collected::nothing(alloc);
        }
        State::WhileInput { part, .. } => clear(part, alloc),
        State::WhileOutput { part, .. } => clear(part, alloc),
        State::Map { part, .. } => clear(part, alloc),
        State::ResetWhen { part, .. } => clear(part, alloc),
    }
}
