//! What leaves compute from a whole history.

ghost use Rattle.std.specs.Prelude.{◌≡◌, ◌<◌, ◌+◌, ◌-◌, ◌%◌, ◌*◌, ◌^◌, length};
ghost use Rattle.zs_term.specs.Saturating.{saturated};
ghost use Rattle.zs_step.specs.History.{history_of, last_moment, last_input, first_moment, earlier};
ghost use Rattle.zs_step.specs.Answer.{fibonacci_number, next_run};

use crate::leaf::run_after;

// Returns the number of steps before the last one.
pub(crate) fn steps_before(history: &[(u64, u64)]) -> u64
    requires some { 0 < length history.now }
    ensures value { result ≡ length (earlier (history_of history.now)) }
    ensures within { result ≡ saturated (length (earlier (history_of history.now))) }
{
    history.len() as u64 - 1
}

// Returns the moment of the last step.
pub(crate) fn last_moment(history: &[(u64, u64)]) -> u64
    requires some { 0 < length history.now }
    ensures value { result ≡ last_moment (history_of history.now) }
{
    history[history.len() - 1].0
}

// Returns the input of the last step.
pub(crate) fn last_input(history: &[(u64, u64)]) -> u64
    requires some { 0 < length history.now }
    ensures value { result ≡ last_input (history_of history.now) }
{
    history[history.len() - 1].1
}

// Returns the moment of the first step.
pub(crate) fn first_moment(history: &[(u64, u64)]) -> u64
    requires some { 0 < length history.now }
    ensures value { result ≡ first_moment (history_of history.now) }
{
    history[0].0
}

// Returns the delay of `exponential`: the base times the factor once for each earlier step.
pub(crate) fn exponential_delay(base: u64, factor: u64, history: &[(u64, u64)]) -> u64
    requires some { 0 < length history.now }
    ensures value { result ≡ saturated (base * factor ^ length (earlier (history_of history.now))) }
{
    let mut delay = base;
    for _ in 1..history.len() {
        delay = delay.saturating_mul(factor);
    }
    delay
}

// Returns the delay of `fibonacci`: the unit times the Fibonacci number of this step.
pub(crate) fn fibonacci_delay(one: u64, history: &[(u64, u64)]) -> u64
    ensures value { result ≡ saturated (one * fibonacci_number (length (history_of history.now))) }
{
    let mut delay = 0u64;
    let mut next = one;
    for _ in 0..history.len() {
        let sum = delay.saturating_add(next);
        delay = next;
        next = sum;
    }
    delay
}

// Returns the next run of `fixed`, computed from the first step on.
pub(crate) fn fixed_run(period: u64, history: &[(u64, u64)]) -> u64
    requires some { 0 < length history.now }
    ensures value { result ≡ next_run period (history_of history.now) }
{
    let first = history[0].0;
    let mut run = first.saturating_add(period);
    for at in 1..history.len() {
        run = run_after(period, first, run, history[at].0);
    }
    run
}

// Returns the delay of `linear`: the unit times the number of steps.
pub(crate) fn linear_delay(unit: u64, history: &[(u64, u64)]) -> u64
    ensures value { result ≡ saturated (unit * length (history_of history.now)) }
{
    unit.saturating_mul(history.len() as u64)
}
