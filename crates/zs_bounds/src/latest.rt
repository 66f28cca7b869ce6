//! How late a step may be that goes on, by a schedule's form alone.

ghost use Rattle.std.specs.Prelude.{◌≡◌};
ghost use Rattle.zs_term.specs.Schedule.{schedule_of};
ghost use Rattle.zs_bounds.specs.BoundsOf.{either_wait, latest_step, wait_limit};
ghost use Rattle.zs_bounds.specs.LatestStep.{shows_time, reads_time, limit_if, limit_sum, smaller_limit, greater_limit};
ghost use Rattle.zs_bounds.specs.Place.{spot_of};

use crate::driver::Driver;
use crate::endless::never_stops;
use zs_term::{Cmp, Func, Pick, Term, Test};

// A place in an output: all of it, or a place in the first or in the second part of a pair.
#[derive(Clone, Copy)]
enum Place<'a> {
    Whole,
    First(&'a Place<'a>),
    Second(&'a Place<'a>),
}

// A limit of the time from the first step up to one that goes on, if the form of a term shows one.
// `beside` is one of the waits of the parts that are stepped beside it.
pub(crate) fn latest_step(term: &Term, driver: Driver, beside: Option<u64>) -> Option<u64>
    ensures value { result ≡ latest_step driver beside (schedule_of term.now) }
{
    match term {
        Term::Both(a, b) => {
            let first = latest_step(a, driver, greater_limit(beside, wait_limit(b)));
            smaller_limit(
                first,
                latest_step(b, driver, greater_limit(beside, wait_limit(a))),
            )
        }
        Term::Either(a, b) => {
            let first = latest_step(a, driver, greater_limit(beside, wait_limit(b)));
            greater_limit(
                first,
                latest_step(b, driver, greater_limit(beside, wait_limit(a))),
            )
        }
        Term::AndThen(a, b) => {
            let gap = driver.gap(greater_limit(beside, wait_limit(a)));
            let begins = limit_sum(latest_step(a, driver, beside), gap);
            limit_sum(begins, latest_step(b, driver, beside))
        }
        Term::WhileOutput(s, pick, test) => {
            let limit = limit_if(reads_time(*pick, s), *test);
            smaller_limit(latest_step(s, driver, beside), limit)
        }
        Term::WhileInput(s, _) | Term::CollectAll(s) | Term::Map(s, _) => {
            latest_step(s, driver, beside)
        }
        // The schedule anew may go on later.
        Term::ResetWhen(_, _, _) => None,
        Term::Forever
        | Term::Recurs(_)
        | Term::Spaced(_)
        | Term::Fixed(_)
        | Term::Exponential(_, _)
        | Term::Fibonacci(_)
        | Term::Identity
        | Term::Elapsed
        | Term::Linear(_)
        | Term::Windowed(_) => None,
    }
}

// A limit of every wait, if the form of a term shows one.
pub(crate) fn wait_limit(term: &Term) -> Option<u64>
    ensures value { result ≡ wait_limit (schedule_of term.now) }
{
    match term {
        Term::Forever | Term::Recurs(_) | Term::Identity | Term::Elapsed => Some(0),
        Term::Spaced(wait) | Term::Fixed(wait) | Term::Windowed(wait) => Some(*wait),
        Term::Exponential(_, _) | Term::Fibonacci(_) | Term::Linear(_) => None,
        Term::Both(a, b) | Term::AndThen(a, b) => greater_limit(wait_limit(a), wait_limit(b)),
        Term::Either(a, b) => {
            let (first, second) = (wait_limit(a), wait_limit(b));
            either_wait(never_stops(a), never_stops(b), first, second)
        }
        Term::WhileInput(s, _)
        | Term::WhileOutput(s, _, _)
        | Term::CollectAll(s)
        | Term::Map(s, _)
        | Term::ResetWhen(s, _, _) => wait_limit(s),
    }
}

// A limit of the waits of two parts of which the earlier moment counts, by which of them never
// stop.
fn either_wait(a: bool, b: bool, first: Option<u64>, second: Option<u64>) -> Option<u64>
    ensures value { result ≡ either_wait a b first second }
{
    match (a, b) {
        (true, true) => smaller_limit(first, second),
        (true, false) => first,
        (false, true) => second,
        (false, false) => greater_limit(first, second),
    }
}

// Whether the number that a test reads is the time since the first step.
fn reads_time(pick: Pick, term: &Term) -> bool
    ensures value { result ≡ reads_time pick (schedule_of term.now) }
{
    let whole = Place::Whole;
    match pick {
        Pick::Whole => shows_time(term, &whole),
        Pick::First => {
            let first = Place::First(&whole);
            shows_time(term, &first)
        }
        Pick::Second => {
            let second = Place::Second(&whole);
            shows_time(term, &second)
        }
        Pick::Size => false,
    }
}

// Whether the form of a term shows that its outputs have the time since the first step in a place.
fn shows_time(term: &Term, place: &Place<'_>) -> bool
    ensures value { result ≡ shows_time (schedule_of term.now) (spot_of place.now) }
{
    match term {
        Term::Elapsed => matches!(place, Place::Whole),
        Term::Both(a, b) | Term::Either(a, b) => match place {
            Place::Whole => false,
            Place::First(rest) => shows_time(a, &**rest),
            Place::Second(rest) => shows_time(b, &**rest),
        },
        Term::WhileInput(s, _) | Term::WhileOutput(s, _, _) => shows_time(s, &*place),
        Term::Map(s, Func::First) => {
            let inner = Place::First(&*place);
            shows_time(s, &inner)
        }
        Term::Map(s, Func::Second) => {
            let inner = Place::Second(&*place);
            shows_time(s, &inner)
        }
        Term::Map(_, Func::Size | Func::Merge | Func::Const(_) | Func::Add(_) | Func::Mul(_))
        | Term::Forever
        | Term::Recurs(_)
        | Term::Spaced(_)
        | Term::Fixed(_)
        | Term::Exponential(_, _)
        | Term::Fibonacci(_)
        | Term::Identity
        | Term::Linear(_)
        | Term::Windowed(_)
        | Term::AndThen(_, _)
        | Term::CollectAll(_)
        | Term::ResetWhen(_, _, _) => false,
    }
}

// A limit of the numbers that pass a test, if it reads the time and there is one.
fn limit_if(reads_time: bool, test: Test) -> Option<u64>
    ensures value { result ≡ limit_if reads_time test }
{
    if !reads_time {
        return None;
    }
    match test.cmp {
        Cmp::Lt => Some(test.than.saturating_sub(1)),
        Cmp::Le | Cmp::Eq => Some(test.than),
        Cmp::Ne | Cmp::Gt | Cmp::Ge => None,
    }
}

// The sum of two limits, if there are both and it fits.
pub(crate) fn limit_sum(first: Option<u64>, second: Option<u64>) -> Option<u64>
    ensures value { result ≡ limit_sum first second }
{
    first?.checked_add(second?)
}

// The smaller of two limits, or the one that there is.
fn smaller_limit(first: Option<u64>, second: Option<u64>) -> Option<u64>
    ensures value { result ≡ smaller_limit first second }
{
    match (first, second) {
        (Some(x), Some(y)) => Some(x.min(y)),
        (Some(x), None) => Some(x),
        (None, limit) => limit,
    }
}

// The greater of two limits, if there are both.
fn greater_limit(first: Option<u64>, second: Option<u64>) -> Option<u64>
    ensures value { result ≡ greater_limit first second }
{
    Some(first?.max(second?))
}
