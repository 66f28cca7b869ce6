//! Writes a term as a program.

ghost use Rattle.std.specs.Prelude.{◌≡◌, ◌⊎◌, ◌+◌, ◌*◌, ◌≤◌, true, false, [], ◌++◌, length, IfOk, IfErr};
ghost use Rattle.zs_term.specs.Schedule.{schedule_of, weight, max_weight};
ghost use Rattle.zs_term.specs.OutputKind.{output_kind_of};
ghost use Rattle.zs_c.specs.Shown.{has_no_list, shows_no_list};
ghost use Rattle.zs_c.specs.Code.{code_of, held_of, held_size, pair_code, func_word, func_number};
ghost use Rattle.zs_c.specs.Leaves.{new_leaf, rule_at, stored};
ghost use Rattle.zs_c.specs.Program.{program_of, program_state};
ghost use Rattle.zs_c.specs.declared.refusal.Refusal.TheVariants.{Memory, KeepsList};

use crate::program::leaf::store;
use crate::program::node::{
    AND_THEN, BOTH, COLLECT_ALL, EITHER, ELAPSED, EXPONENTIAL, FIBONACCI, FIXED, FOREVER, IDENTITY,
    LINEAR, MAP, RECURS, RESET_WHEN, SPACED, WHILE_INPUT, WHILE_OUTPUT, WINDOWED, read_leaf,
};
use crate::program::opening::{PROGRAM_VERSION, check_word};
use crate::program::running::STATE_HEAD;
use crate::refusal::Refusal;
use std::alloc::Global;
use zs_term::{Checked, Func, Kind, Term};

// Returns the program of a schedule, and the number of words of its state. Fails if its output
// shows a list.
pub(crate) fn new_program(alloc: Global, checked: &Checked) -> Result<(Vec<u64>, u64), Refusal>
    ensures program { IfOk result (λ r. r.0.items ≡ program_of (schedule_of checked.now)) }
    ensures state { IfOk result (λ r. r.1 ≡ length (program_state (schedule_of checked.now) [] 0)) }
    ensures shown { IfOk result (λ _. shows_no_list (schedule_of checked.now) ≡ true) }
    ensures err { IfErr result (λ why. (why ≡ Memory) ⊎ (why ≡ KeepsList)) }
    ensures listed { IfErr result (λ why. why ≡ KeepsList
        → shows_no_list (schedule_of checked.now) ≡ false) }
{
    if !has_no_list(checked.kind()) {
        return Err(Refusal::KeepsList);
    }
    let mut code = Vec::new(alloc);
    let state = write_code(alloc, checked.term(), &mut code)?;
    let mut body = Vec::new(alloc);
    body.extend_from_slice(&[code.len() as u64, state])?;
    body.extend_from_slice(&code)?;
    let mut program = Vec::new(alloc);
    program.extend_from_slice(&[PROGRAM_VERSION, check_word(&body)])?;
    program.extend_from_slice(&body)?;
    Ok((program, state + STATE_HEAD as u64))
}

// Whether outputs of a kind have no list in them.
fn has_no_list(kind: &Kind) -> bool
    ensures value { result ≡ has_no_list (output_kind_of kind.now) }
{
    match kind {
        Kind::Num => true,
        Kind::Pair(a, b) | Kind::Sum(a, b) => has_no_list(a) && has_no_list(b),
        Kind::Items(_) => false,
    }
}

// Appends the code of a term. Returns the number of words of the term's state.
#[cycle(coding)]
fn write_code(alloc: Global, term: &Term, code: &mut Vec<u64>) -> Result<u64, Refusal>
    requires small { weight (schedule_of term.now) ≤ max_weight }
    ensures code { IfOk result (λ _. code.new.items
        ≡ code.old.items ++ code_of (schedule_of term.now)) }
    ensures state { IfOk result (λ n. n ≡ held_size (schedule_of term.now)) }
    ensures bound { IfOk result (λ n. n ≤ 4 * weight (schedule_of term.now)) }
    ensures err { IfErr result (λ why. why ≡ Memory) }
{
    match term {
        Term::Forever => write_leaf(&[FOREVER], code),
        Term::Identity => write_leaf(&[IDENTITY], code),
        Term::Elapsed => write_leaf(&[ELAPSED], code),
        Term::Recurs(n) => write_leaf(&[RECURS, *n], code),
        Term::Spaced(n) => write_leaf(&[SPACED, *n], code),
        Term::Fixed(n) => write_leaf(&[FIXED, *n], code),
        Term::Fibonacci(n) => write_leaf(&[FIBONACCI, *n], code),
        Term::Linear(n) => write_leaf(&[LINEAR, *n], code),
        Term::Windowed(n) => write_leaf(&[WINDOWED, *n], code),
        Term::Exponential(base, factor) => write_leaf(&[EXPONENTIAL, *base, *factor], code),
        Term::Both(a, b) => write_parts(alloc, BOTH, a, b, code),
        Term::Either(a, b) => write_parts(alloc, EITHER, a, b, code),
        Term::AndThen(a, b) => Ok(1 + write_parts(alloc, AND_THEN, a, b, code)?),
        Term::WhileInput(s, test) => {
            code.extend_from_slice(&[WHILE_INPUT, test.cmp as u64, test.than])?;
            write_code(alloc, s, code)
        }
        Term::WhileOutput(s, pick, test) => {
            code.extend_from_slice(&[WHILE_OUTPUT, *pick as u64, test.cmp as u64, test.than])?;
            write_code(alloc, s, code)
        }
        Term::Map(s, func) => {
            let (word, number) = func_words(*func);
            code.extend_from_slice(&[MAP, word, number])?;
            write_code(alloc, s, code)
        }
        Term::ResetWhen(s, pick, test) => {
            code.extend_from_slice(&[RESET_WHEN, *pick as u64, test.cmp as u64, test.than])?;
            write_code(alloc, s, code)
        }
        Term::CollectAll(s) => {
            code.extend_from_slice(&[COLLECT_ALL])?;
            Ok(2 + write_code(alloc, s, code)?)
        }
    }
}

// Appends the words of a leaf. Returns the number of words of its state.
fn write_leaf(words: &[u64], code: &mut Vec<u64>) -> Result<u64, Refusal>
    ensures code { IfOk result (λ _. code.new.items ≡ code.old.items ++ words.now) }
    ensures state { IfOk result (λ n. n ≡ length (stored (new_leaf (rule_at words.now)) 0)) }
    ensures err { IfErr result (λ why. why ≡ Memory) }
{
    code.extend_from_slice(words)?;
    Ok(store(&read_leaf(words), 0, &mut []) as u64)
}

// Appends the tag of an operator between two terms, the sizes of the first, and the code of both.
// Returns the number of words of the states of both.
#[cycle(coding)]
fn write_parts(
    alloc: Global,
    tag: u64,
    a: &Term,
    b: &Term,
    code: &mut Vec<u64>,
) -> Result<u64, Refusal>
    requires small { weight (schedule_of a.now) + weight (schedule_of b.now) ≤ max_weight }
    ensures code { IfOk result (λ _. code.new.items
        ≡ code.old.items ++ pair_code tag (schedule_of a.now) (schedule_of b.now)) }
    ensures state { IfOk result (λ n. n
        ≡ held_size (schedule_of a.now) + held_size (schedule_of b.now)) }
    ensures bound { IfOk result (λ n. n
        ≤ 4 * (weight (schedule_of a.now) + weight (schedule_of b.now))) }
    ensures err { IfErr result (λ why. why ≡ Memory) }
{
    let mut first = Vec::new(alloc);
    let state = write_code(alloc, a, &mut first)?;
    code.extend_from_slice(&[tag, first.len() as u64, state])?;
    code.extend_from_slice(&first)?;
    Ok(state + write_code(alloc, b, code)?)
}

// Returns the word of a function, and its number, or 0.
fn func_words(func: Func) -> (u64, u64)
    ensures word { result.0 ≡ func_word func }
    ensures number { result.1 ≡ func_number func }
{
    match func {
        Func::First => (0, 0),
        Func::Second => (1, 0),
        Func::Size => (2, 0),
        Func::Merge => (3, 0),
        Func::Const(n) => (4, n),
        Func::Add(n) => (5, n),
        Func::Mul(n) => (6, n),
    }
}
