//! A schedule that is stepped in place, with its term.

ghost use Rattle.std.specs.Prelude.{◌≡◌, ◌≤◌};
ghost use Rattle.zs_term.specs.Schedule.{weight, max_weight};
ghost use Rattle.zs_step.specs.Memory.{keeps_no_list};
ghost use Rattle.zs_step.specs.State.{state_schedule};

use crate::decision::Decision;
use crate::fault::StepFault;
use crate::numbers::Numbers;
use crate::state::{State, state_of};
use crate::stepped::Stepped;
use crate::stepping::{StepInput, Trace, join_lists, step_node};
use crate::view::make_out;
use std::alloc::{AllocError, Global};
use zs_term::{Checked, Out};

/// A schedule with a state in place of its history.
///
/// The schedule's size bounds the nodes that a step visits and the memory of the state, however
/// long the history is. Only the lists of `collectAll` grow with each step.
pub struct Compiled {
    state: State,
    listless: bool,
    last: u64,
    broken: bool,
    alloc: Global,
    checked: Checked,
    ghost small: { weight (state_schedule state) ≤ max_weight },
    // Whether no part is a `collectAll`: no step then has an output to join.
    ghost known: { listless ≡ keeps_no_list (state_schedule state) },
}

// Written by hand: crates that drop one need no proof of what is in it.
impl Drop for Compiled {
    fn drop(self) {
        let Compiled {
            state: _,
            listless: _,
            last: _,
            broken: _,
            alloc: _,
            checked: _,
        } = self;
    }
}

impl Compiled {
    ghost use Rattle.std.specs.Prelude.{[], IfOk, IsOk, true};
    ghost use Rattle.zs_term.specs.Output.{output_of};
    ghost use Rattle.zs_term.specs.Schedule.{schedule_of};
    ghost use Rattle.zs_step.specs.History.{History};
    ghost use Rattle.zs_step.specs.Memory.{is_bare, is_leaf};
    ghost use Rattle.zs_step.specs.Compiled.{compiled_term, compiled_schedule, compiled_output, is_broken, last_seen, StandsFor, Advances, Steps};

    /// Compiles a schedule, before its first step. Fails only with `Memory`, and then drops the
    /// schedule.
    pub fn new(alloc: Global, checked: Checked) -> Result<Compiled, StepFault>
        ensures term { IfOk result (λ c. compiled_term c ≡ checked) }
        // It represents the empty history.
        ensures stands { IfOk result (λ c. StandsFor c []) }
        // A leaf's state takes no memory.
        ensures succeeds { is_leaf (schedule_of checked) ≡ true → IsOk result }
    {
        let mut state = state_of(alloc, checked.term())?;
        let listless = join_lists(&mut state, alloc)?;
        Ok(Compiled {
            state,
            listless,
            last: 0,
            broken: false,
            alloc,
            checked,
        })
    }

    /// Returns the schedule that was compiled.
    pub fn term(&self) -> &Checked
        ensures value { result.now ≡ compiled_term self.now }
    {
        &self.checked
    }

    /// Whether a step ran out of memory. The schedule then stays broken.
    pub fn broken(&self) -> bool
        ensures value { result ≡ is_broken self.now }
    {
        self.broken
    }

    /// Steps the schedule with a moment in milliseconds and an input. Returns what `plain` returns
    /// for the represented history and this pair; the state then represents the longer history. If
    /// the step runs out of memory, the schedule is broken: each later step fails with `Memory` and
    /// changes nothing.
    pub fn step(&mut self, now: u64, input: u64) -> Result<Stepped, StepFault>
        requires order { last_seen self.old ≤ now }
        ensures term { compiled_term self.new ≡ compiled_term self.old }
        // The last moment seen is never after the step's. A schedule that makes no pair, no side of
        // a choice and no list needs no memory.
        ensures steps { Steps self.old self.new now input result }
    {
        let (decision, visits) = self.advance(now, input)?;
        match self.output() {
            Ok(out) => Ok(Stepped {
                out,
                decision,
                visits,
            }),
            Err(_) => Err(self.set_broken()),
        }
    }

    // Like `step`, but makes no output. Returns the decision and the number of nodes that were
    // stepped. Only a `collectAll` takes memory.
    #[tactic(auto, using(crate::proofs::Joined::listless_joined))]
    fn advance(&mut self, now: u64, input: u64) -> Result<(Decision, u64), StepFault>
        requires order { last_seen self.old ≤ now }
        ensures term { compiled_term self.new ≡ compiled_term self.old }
        ensures steps { Advances self.old self.new now input result }
    {
        if self.broken {
            return Err(StepFault::Memory);
        }
        if !self.listless && join_lists(&mut self.state, self.alloc).is_err() {
            return Err(self.set_broken());
        }
        let step = StepInput {
            alloc: self.alloc,
            moment: now,
            input,
        };
        let mut trace = Trace {
            visits: 0,
            numbers: Numbers::Side,
        };
        let decision = step_node(&mut self.state, &step, &mut trace);
        self.last = now;
        Ok((decision, trace.visits))
    }

    // Makes the output of the last step. Only its lists share memory with the state.
    fn output(&self) -> Result<Out, AllocError>
        ensures value { IfOk result (λ o. output_of o ≡ compiled_output self.now) }
        ensures succeeds { (h : History) → StandsFor self.now h
            → is_bare (compiled_schedule self.now) ≡ true → IsOk result }
    {
        make_out(self.alloc, &self.state)
    }

    // Marks the schedule as broken: no later step succeeds.
    fn set_broken(&mut self) -> StepFault
        ensures broken { self.new ≡ record self.old { broken = true } }
        ensures memory { result ≡ StepFault.Memory }
    {
        self.broken = true;
        StepFault::Memory
    }
}
