//! Schedules: parsed from text, checked as trees, and written.
use crate::ended::{Answer, CallFault, Case, SET_UP};
use std::alloc::Global;
use zs_term::{Checked, Cmp, Func, Pick, Term, Test, check, read, write};

/// Parses a text, and returns its canonical spelling.
pub fn read_and_write(case: &mut Case<'_>) -> Answer {
    case.call = "read";
    let checked = read(case.alloc, case.input)?;
    case.call = "write";
    written(case.alloc, checked)
}

/// Checks a tree of many forms, and returns its spelling.
pub fn check_tree(case: &mut Case<'_>) -> Answer {
    let term = tree(case.alloc)?;
    case.call = "check";
    let checked = check(case.alloc, term)?;
    case.call = SET_UP;
    written(case.alloc, checked)
}

fn written(alloc: Global, checked: Checked) -> Answer {
    let text = write(alloc, &checked);
    drop(checked);
    Ok(text?)
}

fn tree(alloc: Global) -> Result<Term, CallFault> {
    let delays = Box::new(alloc, Term::Exponential(10, 2))?;
    let first = Box::new(alloc, Term::CollectAll(delays))?;
    let few = Box::new(alloc, Term::Recurs(3))?;
    let slow = Box::new(alloc, Term::Spaced(5))?;
    let either = Box::new(alloc, Term::AndThen(few, slow))?;
    let second = Box::new(alloc, Term::Map(either, Func::Merge))?;
    let both = Box::new(alloc, Term::Both(first, second))?;
    let test = Test {
        cmp: Cmp::Lt,
        than: 9,
    };
    Ok(Term::WhileOutput(both, Pick::Second, test))
}
