//! The outputs of schedules, and what tests and functions make of them.

ghost use Rattle.std.specs.Prelude.{◌≡◌, IfOk, OnOk};
ghost use Rattle.std.specs.Arc.{arc_value};
ghost use Rattle.zs_term.specs.Output.{output_of, outputs_of, outs_list, number, pair, listed, left, right, picked, applied, number_in, size_in, Appends};

use crate::term::{Func, Pick};
use std::alloc::{AllocError, Global};
use std::mem::replace;
use std::sync::Arc;

/// An output of a schedule.
#[derive(Drop)]
#[cycle(out)]
pub enum Out {
    /// A number.
    Num(u64),
    /// A pair of outputs.
    Pair(Box<Out>, Box<Out>),
    /// An output of the first of two schedules that follow one another.
    Left(Box<Out>),
    /// An output of the second of two schedules that follow one another.
    Right(Box<Out>),
    /// A list of outputs.
    Items(Outs),
}

/// A list of outputs. Lists may share memory; each reads as if it were alone.
#[derive(Drop)]
#[cycle(out)]
pub struct Outs {
    pub(crate) storage: Storage,
}

// The memory of a list: private, or shared with other lists.
#[derive(Drop)]
#[cycle(out)]
pub(crate) enum Storage {
    Own(Vec<Out>),
    Shared(Arc<Vec<Out>>),
}

impl Outs {
    /// Makes a list of these outputs.
    pub fn new(items: Vec<Out>) -> Outs
        ensures value { outs_list result ≡ items.items }
    {
        Outs {
            storage: Storage::Own(items),
        }
    }

    /// Returns the outputs in order.
    pub fn items(&self) -> &[Out]
        ensures value { result.now ≡ outs_list self.now }
    {
        match &self.storage {
            Storage::Own(items) => items,
            Storage::Shared(items) => items,
        }
    }

    /// Returns the same list once more, in the same memory. If that fails, this one is unchanged.
    pub fn share(&mut self) -> Result<Outs, AllocError>
        ensures ok { IfOk result (λ r. outs_list r ≡ outs_list self.old) }
        ensures same { outs_list self.new ≡ outs_list self.old }
    {
        match &mut self.storage {
            Storage::Shared(items) => Ok(Outs {
                storage: Storage::Shared(Arc::try_clone(items)?),
            }),
            Storage::Own(items) => {
                let alloc = *items.allocator();
                let shared = match Arc::new(alloc, replace(items, Vec::new(alloc))) {
                    Ok(shared) => shared,
                    Err(refused) => {
                        *items = refused.value;
                        return Err(AllocError);
                    }
                };
                let other = Arc::try_clone(&shared);
                self.storage = Storage::Shared(shared);
                Ok(Outs {
                    storage: Storage::Shared(other?),
                })
            }
        }
    }

    /// Appends an output. The list is changed in place if no other list shares its memory, else
    /// copied.
    pub fn push(&mut self, out: Out) -> Result<(), AllocError>
        ensures pushed { OnOk result (Appends (outs_list self.old) (outs_list self.new) out) }
    {
        match &mut self.storage {
            Storage::Own(items) => push_own(items, out),
            Storage::Shared(items) => push_shared(items, out),
        }
    }
}

// Appends an output to a list with private memory.
#[tactic(auto, using(crate::proofs::Values::outputs_of_push))]
fn push_own(items: &mut Vec<Out>, out: Out) -> Result<(), AllocError>
    ensures pushed { OnOk result (Appends items.old.items items.new.items out) }
{
    items.push(out)?;
    Ok(())
}

// Appends an output to a list with shared memory.
fn push_shared(shared: &mut Arc<Vec<Out>>, out: Out) -> Result<(), AllocError>
    ensures pushed { OnOk result
        (Appends (arc_value shared.old).items (arc_value shared.new).items out) }
{
    if let Some(items) = Arc::get_mut(shared) {
        return push_own(items, out);
    }
    let alloc = *shared.allocator();
    let mut items = copy_all(alloc, shared)?;
    push_own(&mut items, out)?;
    *shared = Arc::new(alloc, items)?;
    Ok(())
}

impl Out {
    // Returns an output of the same value. Only its lists may share memory with this one.
    #[cycle(copy)]
    pub(crate) fn copy(&self, alloc: Global) -> Result<Out, AllocError>
        ensures ok { IfOk result (λ r. output_of r ≡ output_of self.now) }
    {
        match self {
            Out::Num(n) => Ok(Out::Num(*n)),
            Out::Pair(a, b) => make_pair(alloc, a.copy(alloc)?, b.copy(alloc)?),
            Out::Left(a) => make_left(alloc, a.copy(alloc)?),
            Out::Right(a) => make_right(alloc, a.copy(alloc)?),
            Out::Items(outs) => Ok(Out::Items(outs.copy()?)),
        }
    }

    /// Returns the number, or 0 for any other output.
    pub(crate) fn number(&self) -> u64
        ensures value { result ≡ number_in (output_of self.now) }
    {
        match self {
            Out::Num(n) => *n,
            Out::Pair(_, _) | Out::Left(_) | Out::Right(_) | Out::Items(_) => 0,
        }
    }

    /// Returns the number of items, or 0 for any other output.
    pub(crate) fn size(&self) -> u64
        ensures value { result ≡ size_in (output_of self.now) }
    {
        match self {
            Out::Items(outs) => outs.items().len() as u64,
            Out::Num(_) | Out::Pair(_, _) | Out::Left(_) | Out::Right(_) => 0,
        }
    }
}

impl Outs {
    /// Returns a list of the same values. It shares the memory of a list that shares its own.
    #[cycle(copy)]
    pub fn copy(&self) -> Result<Outs, AllocError>
        ensures ok { IfOk result (λ r. outputs_of (outs_list r) ≡ outputs_of (outs_list self.now)) }
    {
        match &self.storage {
            Storage::Own(items) => Ok(Outs::new(copy_all(*items.allocator(), items)?)),
            Storage::Shared(items) => Ok(Outs {
                storage: Storage::Shared(Arc::try_clone(items)?),
            }),
        }
    }
}

// Returns outputs of the same values. Only their lists may share memory with these.
#[cycle(copy)]
fn copy_all(alloc: Global, outs: &[Out]) -> Result<Vec<Out>, AllocError>
    ensures ok { IfOk result (λ r. outputs_of r.items ≡ outputs_of outs.now) }
{
    let mut copies = Vec::with_capacity(alloc, outs.len())?;
    for out in outs {
        copies.push(out.copy(alloc)?)?;
    }
    Ok(copies)
}

/// Makes a pair of two outputs.
pub fn make_pair(alloc: Global, first: Out, second: Out) -> Result<Out, AllocError>
    ensures ok { IfOk result (λ r. output_of r ≡ pair (output_of first) (output_of second)) }
{
    let first = Box::new(alloc, first)?;
    let second = Box::new(alloc, second)?;
    Ok(Out::Pair(first, second))
}

/// Makes a `Left` of an output.
pub fn make_left(alloc: Global, out: Out) -> Result<Out, AllocError>
    ensures ok { IfOk result (λ r. output_of r ≡ left (output_of out)) }
{
    Ok(Out::Left(Box::new(alloc, out)?))
}

/// Makes a `Right` of an output.
pub fn make_right(alloc: Global, out: Out) -> Result<Out, AllocError>
    ensures ok { IfOk result (λ r. output_of r ≡ right (output_of out)) }
{
    Ok(Out::Right(Box::new(alloc, out)?))
}

/// Makes an output of a list.
pub fn make_list(items: Vec<Out>) -> Out
    ensures value { output_of result ≡ listed (outputs_of items.items) }
{
    Out::Items(Outs::new(items))
}

impl Pick {
    /// Returns the picked number. If the pick doesn't fit, `_1` and `_2` read the output itself, an
    /// output that isn't a number reads as 0, and one that isn't a list has 0 items.
    pub fn read(self, out: &Out) -> u64
        ensures value { result ≡ picked self (output_of out.now) }
    {
        match (self, out) {
            (Pick::First, Out::Pair(a, _)) => a.number(),
            (Pick::Second, Out::Pair(_, b)) => b.number(),
            (Pick::Size, _) => out.size(),
            (Pick::Whole | Pick::First | Pick::Second, _) => out.number(),
        }
    }
}

impl Func {
    /// Returns the function's result. Sums and products saturate at 2^64 - 1. If the function
    /// doesn't fit, `_1`, `_2` and `merge` return the output itself, `size` returns 0, and `+` and
    /// `*` read an output that isn't a number as 0.
    pub fn apply(self, out: Out) -> Out
        ensures value { output_of result ≡ applied self (output_of out) }
    {
        match (self, out) {
            (Func::First, Out::Pair(a, _)) => Box::into_inner(a),
            (Func::Second, Out::Pair(_, b)) => Box::into_inner(b),
            (Func::Merge, Out::Left(a) | Out::Right(a)) => Box::into_inner(a),
            (Func::First | Func::Second | Func::Merge, out) => out,
            (Func::Size, out) => Out::Num(out.size()),
            (Func::Const(n), _) => Out::Num(n),
            (Func::Add(n), out) => Out::Num(out.number().saturating_add(n)),
            (Func::Mul(n), out) => Out::Num(out.number().saturating_mul(n)),
        }
    }
}
