//! Whole terms that the parser has composed.

ghost use Rattle.std.specs.Prelude.{◌≡◌, IfOk, option_map};
ghost use Rattle.zs_term.specs.Schedule.{schedule_of};
ghost use Rattle.zs_term.specs.Parts.{kept_of, keep, keep_join, keep_test, keep_collect, keep_apply, keep_scale, keep_above};

use crate::forms::{Counted, Infix, Plain, Scale, Subject};
use crate::term::{Cmp, Func, Term, Test};
use std::alloc::{AllocError, Global};

/// A whole term that was read: its sizes, and the term itself if terms are built and its numbers
/// fit.
#[derive(Drop)]
pub(crate) struct Part {
    /// The depth; saturates at 2^64 - 1.
    pub depth: u64,
    /// The weight; saturates at 2^64 - 1.
    pub weight: u64,
    /// The term, if it was built.
    pub term: Option<Box<Term>>,
}

impl Part {
    /// Makes a leaf without numbers.
    pub(crate) fn plain_leaf(alloc: Global, build: bool, form: Plain) -> Result<Part, AllocError>
        ensures value { IfOk result (λ part. kept_of part ≡ (keep build).plain form) }
    {
        let term = if build { Some(form.of()) } else { None };
        Part::above(alloc, 0, 1, term)
    }

    /// Makes a leaf with a number.
    pub(crate) fn counted_leaf(
        alloc: Global,
        build: bool,
        form: Counted,
        value: Option<u64>,
    ) -> Result<Part, AllocError>
        ensures value { IfOk result (λ part. kept_of part ≡ (keep build).counted form value) }
    {
        let term = match value {
            Some(n) if build => Some(form.of(n)),
            _ => None,
        };
        Part::above(alloc, 0, 1, term)
    }

    /// Makes an `exponential` with its base and factor.
    pub(crate) fn exponential(
        alloc: Global,
        build: bool,
        base: Option<u64>,
        factor: Option<u64>,
    ) -> Result<Part, AllocError>
        ensures value { IfOk result (λ part. kept_of part ≡ (keep build).growing base factor) }
    {
        let term = match (base, factor) {
            (Some(b), Some(f)) if build => Some(Term::Exponential(b, f)),
            _ => None,
        };
        Part::above(alloc, 0, 1, term)
    }

    // Makes a part one level deeper than its deepest part, with its term if there is one.
    fn above(alloc: Global, below: u64, weight: u64, term: Option<Term>) -> Result<Part, AllocError>
        ensures value { IfOk result (λ part.
            kept_of part ≡ keep_above below weight (option_map schedule_of term)) }
    {
        let depth = below.saturating_add(1);
        let mut boxed = None;
        if let Some(term) = term {
            boxed = Some(Box::new(alloc, term)?);
        }
        Ok(Part {
            depth,
            weight,
            term: boxed,
        })
    }

    /// Joins two parts by an operator.
    pub(crate) fn join(
        alloc: Global,
        form: Infix,
        left: Part,
        right: Part,
    ) -> Result<Part, AllocError>
        ensures value { IfOk result (λ part.
            kept_of part ≡ keep_join form (kept_of left) (kept_of right)) }
    {
        let below = left.depth.max(right.depth);
        let weight = left.weight.saturating_add(right.weight).saturating_add(1);
        let term = match (left.term, right.term) {
            (Some(a), Some(b)) => Some(form.of(a, b)),
            _ => None,
        };
        Part::above(alloc, below, weight, term)
    }

    /// Puts a test over a part.
    pub(crate) fn test(
        alloc: Global,
        part: Part,
        subject: Subject,
        cmp: Cmp,
        value: Option<u64>,
    ) -> Result<Part, AllocError>
        ensures value { IfOk result (λ whole.
            kept_of whole ≡ keep_test (kept_of part) subject cmp value) }
    {
        let term = match (part.term, value) {
            (Some(a), Some(than)) => Some(subject.of(a, Test { cmp, than })),
            _ => None,
        };
        Part::above(alloc, part.depth, subject.weight_over(part.weight), term)
    }

    /// Puts `collectAll` over a part.
    pub(crate) fn collect(alloc: Global, part: Part) -> Result<Part, AllocError>
        ensures value { IfOk result (λ whole. kept_of whole ≡ keep_collect (kept_of part)) }
    {
        let term = part.term.map(|a| Term::CollectAll(a));
        Part::above(alloc, part.depth, part.weight.saturating_add(1), term)
    }

    /// Puts a function without a number over a part.
    pub(crate) fn apply(alloc: Global, part: Part, func: Func) -> Result<Part, AllocError>
        ensures value { IfOk result (λ whole. kept_of whole ≡ keep_apply (kept_of part) func) }
    {
        let term = part.term.map(|a| Term::Map(a, func));
        Part::above(alloc, part.depth, part.weight.saturating_add(1), term)
    }

    /// Puts a function with a number over a part.
    pub(crate) fn scale(
        alloc: Global,
        part: Part,
        scale: Scale,
        value: Option<u64>,
    ) -> Result<Part, AllocError>
        ensures value { IfOk result (λ whole.
            kept_of whole ≡ keep_scale (kept_of part) scale value) }
    {
        let term = match (part.term, value) {
            (Some(a), Some(n)) => Some(Term::Map(a, scale.by(n))),
            _ => None,
        };
        Part::above(alloc, part.depth, part.weight.saturating_add(1), term)
    }
}
