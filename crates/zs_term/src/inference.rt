//! The kind of a term's outputs. The parts of a kind are the kinds of smaller terms, parts of this
//! one. So its outermost form over such terms represents it without memory.

ghost use Rattle.std.specs.Prelude.{◌≡◌, ◌≢◌, ◌≤◌, Some, None, true, IfOk, IfErr, if◌then◌else◌};
ghost use Rattle.zs_term.specs.Schedule.{schedule_of, depth};
ghost use Rattle.zs_term.specs.OutputKind.{output_kind_of, is_same_kind};
ghost use Rattle.zs_term.specs.Kinds.{kind_of, takes_memory, answers, fits, is_num};
ghost use Rattle.zs_term.specs.Outline.{unchecked_result, unchecked_kind, outline_kind, outline_depth};

use crate::forms::{Infix, Shape, Subject};
use crate::kind::Kind;
use crate::term::{Func, Pick, Term};
use std::alloc::{AllocError, Global};

/// The outermost form of a kind, with the terms that have its parts as kinds.
#[derive(Drop)]
pub(crate) enum Outline<'t> {
    /// A number.
    Num,
    /// A pair of an output of each term.
    Pair(&'t Term, &'t Term),
    /// An output of the first term on the left, or of the second on the right.
    Sum(&'t Term, &'t Term),
    /// A list of outputs of one term.
    Items(&'t Term),
}

// Whether a term has a kind. Each test and function visits nodes of its part once more.
pub(crate) fn has_kind(term: &Term) -> bool
    ensures value { kind_of (schedule_of term.now)
        ≡ (if result then Some (unchecked_kind (schedule_of term.now)) else None) }
{
    match term.shape() {
        Shape::Plain(_) | Shape::Counted(_, _) | Shape::Exponential(_, _) => true,
        Shape::Joined(_, a, b) => has_kind(a) && has_kind(b),
        Shape::Tested(s, Subject::Picked(_, pick), _) => has_kind(s) && fits(pick, s),
        Shape::Tested(s, Subject::Input, _) | Shape::Collected(s) => has_kind(s),
        Shape::Mapped(s, func) => has_kind(s) && applies(func, s),
    }
}

// Makes the kind of a term that has one.
pub(crate) fn make_kind(alloc: Global, term: &Term) -> Result<Kind, AllocError>
    ensures value { IfOk result (λ k. output_kind_of k ≡ unchecked_kind (schedule_of term.now)) }
    ensures memory { IfErr result (λ _. takes_memory (schedule_of term.now) ≡ true) }
{
    Ok(match outline_of(term) {
        Outline::Num => Kind::Num,
        Outline::Pair(a, b) => {
            let a = Box::new(alloc, make_kind(alloc, a)?)?;
            Kind::Pair(a, Box::new(alloc, make_kind(alloc, b)?)?)
        }
        Outline::Sum(a, b) => {
            let a = Box::new(alloc, make_kind(alloc, a)?)?;
            Kind::Sum(a, Box::new(alloc, make_kind(alloc, b)?)?)
        }
        Outline::Items(a) => Kind::Items(Box::new(alloc, make_kind(alloc, a)?)?),
    })
}

// Returns the outermost form of the kind of a term that has one. Visits no node twice.
fn outline_of(term: &Term) -> Outline<'_>
    ensures value { outline_kind result ≡ unchecked_kind (schedule_of term.now) }
    ensures below { outline_depth result ≤ depth (schedule_of term.now) }
    ensures memory { result ≢ Outline.Num → takes_memory (schedule_of term.now) ≡ true }
{
    match term.shape() {
        Shape::Plain(_) | Shape::Counted(_, _) | Shape::Exponential(_, _) => Outline::Num,
        Shape::Joined(Infix::Both | Infix::Either, a, b) => Outline::Pair(a, b),
        Shape::Joined(Infix::AndThen, a, b) => Outline::Sum(a, b),
        Shape::Tested(s, _, _) => outline_of(s),
        Shape::Collected(s) => Outline::Items(s),
        Shape::Mapped(s, func) => match (func, outline_of(s)) {
            (Func::First, Outline::Pair(a, _)) | (Func::Merge, Outline::Sum(a, _)) => outline_of(a),
            (Func::Second, Outline::Pair(_, b)) => outline_of(b),
            (Func::First | Func::Second | Func::Size | Func::Merge, _)
            | (Func::Const(_) | Func::Add(_) | Func::Mul(_), _) => Outline::Num,
        },
    }
}

// Whether the kind of a term is number.
fn is_num(term: &Term) -> bool
    ensures value { result ≡ is_num (unchecked_kind (schedule_of term.now)) }
{
    matches!(outline_of(term), Outline::Num)
}

// Whether a pick fits the kind of a term.
fn fits(pick: Pick, term: &Term) -> bool
    ensures value { result ≡ fits pick (unchecked_kind (schedule_of term.now)) }
{
    match (pick, outline_of(term)) {
        (Pick::Whole, Outline::Num) | (Pick::Size, Outline::Items(_)) => true,
        (Pick::First, Outline::Pair(a, _)) => is_num(a),
        (Pick::Second, Outline::Pair(_, b)) => is_num(b),
        (Pick::Whole | Pick::First | Pick::Second | Pick::Size, _) => false,
    }
}

// Whether a function applies to outputs of the kind of a term.
fn applies(func: Func, term: &Term) -> bool
    ensures value { answers func (unchecked_kind (schedule_of term.now)) ≡ (if result
        then Some (unchecked_result func (unchecked_kind (schedule_of term.now))) else None) }
{
    match (func, outline_of(term)) {
        (Func::First | Func::Second, Outline::Pair(_, _)) | (Func::Size, Outline::Items(_)) => true,
        (Func::Merge, Outline::Sum(a, b)) => has_same_kind(a, b),
        (Func::Add(_) | Func::Mul(_), Outline::Num) | (Func::Const(_), _) => true,
        (Func::First | Func::Second | Func::Size | Func::Merge, _)
        | (Func::Add(_) | Func::Mul(_), _) => false,
    }
}

// Whether the kinds of two terms are equal.
fn has_same_kind(a: &Term, b: &Term) -> bool
    ensures value { result
        ≡ is_same_kind (unchecked_kind (schedule_of a.now)) (unchecked_kind (schedule_of b.now)) }
{
    match (outline_of(a), outline_of(b)) {
        (Outline::Num, Outline::Num) => true,
        (Outline::Pair(x, y), Outline::Pair(z, w)) | (Outline::Sum(x, y), Outline::Sum(z, w)) => {
            has_same_kind(x, z) && has_same_kind(y, w)
        }
        (Outline::Items(x), Outline::Items(z)) => has_same_kind(x, z),
        (Outline::Num | Outline::Pair(_, _) | Outline::Sum(_, _) | Outline::Items(_), _) => false,
    }
}
