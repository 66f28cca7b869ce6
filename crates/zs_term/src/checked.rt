//! Checked terms: schedules that can be stepped.

ghost use Rattle.std.specs.Prelude.{◌≡◌, ◌≢◌, ◌<◌, Some, IfOk, IfErr, true, false, ◌↔◌};
ghost use Rattle.zs_term.specs.Schedule.{schedule_of, is_within_limits, has_factors, two, both};
ghost use Rattle.zs_term.specs.OutputKind.{output_kind_of};
ghost use Rattle.zs_term.specs.Kinds.{kind_of, takes_memory, IsSchedule};
ghost use Rattle.zs_term.specs.Causes.{IsTermCause};
ghost use Rattle.zs_term.specs.Verdict.{checked_as, IsVerdict};
ghost use Rattle.zs_term.specs.Shape.{steps_to_free};

use crate::fault::TermFault;
use crate::inference::{has_kind, make_kind};
use crate::kind::Kind;
use crate::limits::{has_factors_and_windows, is_within_limits};
use crate::term::Term;
use std::alloc::Global;
use std::marker::Model;
use std::mem::replace;

/// A schedule: a term within the limits that has a kind, with factors and windows of at least 1.
/// Contracts see it as its term.
pub struct Checked {
    term: Term,
    kind: Kind,
}

// Written by hand: crates that drop one need no proof of what is in it.
impl Drop for Checked {
    fn drop(self) {
        let Checked { term: _, kind: _ } = self;
    }
}

impl Model for Checked {
    ghost use Rattle.std.specs.Prelude.{◌≡◌, Some};
    ghost use Rattle.zs_term.specs.declared.term.Term.{Term};
    ghost use Rattle.zs_term.specs.contracts.term.Term as shape;
    ghost use Rattle.std.specs.Coded.{codes};
    ghost use Rattle.zs_term.specs.Schedule.{schedule_of};
    ghost use Rattle.zs_term.specs.OutputKind.{output_kind_of};
    ghost use Rattle.zs_term.specs.Kinds.{kind_of, IsSchedule};

    ghost Value = { Term };

    ghost coded = { Prim.hlevel (codes, shape.the_row.coded) };

    ghost view = { λ c. c.term };

    ghost invariant = { λ c.
        IsSchedule (schedule_of c.term)
        × (kind_of (schedule_of c.term) ≡ Some (output_kind_of c.kind)) };
}

impl Checked {
    /// Returns the term.
    pub fn term(&self) -> &Term
        ensures term { result.now ≡ self.now }
        ensures schedule { IsSchedule (schedule_of self.now) }
    {
        &self.term
    }

    /// Returns the kind of its outputs.
    pub fn kind(&self) -> &Kind
        ensures kind { kind_of (schedule_of self.now) ≡ Some (output_kind_of result.now) }
    {
        &self.kind
    }
}

/// Checks a term: returns it as a schedule, or its first fault in the order of `TermFault`. A
/// rejected term is freed in constant stack, however deep it is.
#[tactic(auto, using(crate::proofs::Verdicts::fault_as))]
pub fn check(alloc: Global, term: Term) -> Result<Checked, TermFault>
    ensures ok { IfOk result (λ checked. checked ≡ term) }
    ensures schedule { IfOk result (λ checked. IsSchedule (schedule_of checked)) }

    ensures err { IfErr result (IsTermCause (schedule_of term)) }
    // `TooBig` and `BadFactor` come exactly if they apply.
    ensures too_big { result ≡ Err TermFault.TooBig ↔ is_within_limits (schedule_of term) ≡ false }
    ensures bad_factor { result ≡ Err TermFault.BadFactor
        ↔ IsTermCause (schedule_of term) TermFault.BadFactor }
    // Once more, by the definition that computes.
    ensures verdict { IsVerdict (checked_as (schedule_of term)) result }
    // Only a kind that has parts takes memory.
    ensures memory { result ≡ Err TermFault.Memory → takes_memory (schedule_of term) ≡ true }
{
    if !is_within_limits(&term) {
        free(term);
        return Err(TermFault::TooBig);
    }
    check_small(alloc, term)
}

/// Checks a term that is within the limits.
#[tactic(auto, using(crate::proofs::Verdicts::schedule_as, crate::proofs::Verdicts::fault_as))]
pub(crate) fn check_small(alloc: Global, term: Term) -> Result<Checked, TermFault>
    requires within { is_within_limits (schedule_of term) ≡ true }
    ensures ok { IfOk result (λ checked. checked ≡ term) }
    ensures schedule { IfOk result (λ checked. IsSchedule (schedule_of checked)) }
    ensures err { IfErr result (IsTermCause (schedule_of term)) }
    ensures small { result ≢ Err TermFault.TooBig }
    ensures bad_factor { result ≡ Err TermFault.BadFactor ↔ has_factors (schedule_of term) ≡ false }
    ensures verdict { IsVerdict (checked_as (schedule_of term)) result }
    ensures memory { result ≡ Err TermFault.Memory → takes_memory (schedule_of term) ≡ true }
{
    let (factors, windows) = has_factors_and_windows(&term);
    if !factors {
        return Err(TermFault::BadFactor);
    }
    if !has_kind(&term) {
        return Err(TermFault::NoKind);
    }
    if !windows {
        return Err(TermFault::BadWindow);
    }
    match make_kind(alloc, &term) {
        Ok(kind) => Ok(Checked { term, kind }),
        Err(_) => Err(TermFault::Memory),
    }
}

// Frees a term node by node. To drop it would take stack in proportion to its depth.
fn free(term: Term) {
    let mut rest = term;
    loop {
        rest = match rest {
            Term::Both(a, b) | Term::Either(a, b) | Term::AndThen(a, b) => rotate(a, b),
            Term::WhileInput(s, _)
            | Term::WhileOutput(s, _, _)
            | Term::CollectAll(s)
            | Term::Map(s, _)
            | Term::ResetWhen(s, _, _) => Box::into_inner(s),
            Term::Forever
            | Term::Recurs(_)
            | Term::Spaced(_)
            | Term::Fixed(_)
            | Term::Exponential(_, _)
            | Term::Fibonacci(_)
            | Term::Identity
            | Term::Elapsed
            | Term::Linear(_)
            | Term::Windowed(_) => return,
        };
    }
}

// Joins two parts with one node less, or rotates to the right: `((a op b) op c)` becomes
// `(a op (b op c))`.
#[tactic(auto, using(crate::proofs::Sizes::steps_positive))]
fn rotate(left: Box<Term>, right: Box<Term>) -> Term
    ensures less { steps_to_free (schedule_of result)
        < steps_to_free (two both (schedule_of left.value) (schedule_of right.value)) }
{
    let mut left = left;
    match replace(&mut *left, Term::Forever) {
        Term::Both(a, b) | Term::Either(a, b) | Term::AndThen(a, b) => {
            *left = Term::Both(b, right);
            Term::Both(a, left)
        }
        Term::WhileInput(s, _)
        | Term::WhileOutput(s, _, _)
        | Term::CollectAll(s)
        | Term::Map(s, _)
        | Term::ResetWhen(s, _, _) => Term::Both(s, right),
        Term::Forever
        | Term::Recurs(_)
        | Term::Spaced(_)
        | Term::Fixed(_)
        | Term::Exponential(_, _)
        | Term::Fibonacci(_)
        | Term::Identity
        | Term::Elapsed
        | Term::Linear(_)
        | Term::Windowed(_) => Box::into_inner(right),
    }
}
