//! Makes the calls of one case. Standard input has the name of the case in its first line, and the
//! input of the calls after it.
//!
//! The tests run it while the system lets one memory allocation after the other fail. The call then
//! has to return a fault, and to satisfy its contract. The first line of the output has that call
//! and its fault, or `ok` before the text that the calls made.
#![tactic(auto)]

mod ended;
mod queues;
mod rounds;
mod runs;
mod steps;
mod tasks;
mod terms;
mod timers;

use ended::{Answer, CallFault, Case, SET_UP};
use std::alloc::{Alloc, Global};
use std::io;
use std::io::Read;
use std::random::RandomSource;
use std::sync::Wait;
use std::thread::Threads;

// Makes the calls of the case with this name.
fn make<R: Alloc<A = Global> + RandomSource + Threads + Wait + Sync>(
    rt: &R,
    name: &str,
    case: &mut Case<'_>,
) -> Answer {
    match name {
        "text" => terms::read_and_write(case),
        "tree" => terms::check_tree(case),
        "plain" => steps::answer_plainly(case),
        "follow" => steps::follow_history(case),
        "steps" => steps::step_in_turn(case),
        "task" => tasks::poll_in_turn(rt, case),
        "agenda" => timers::set_and_take(case),
        "board" => queues::use_board(rt, case),
        "shelf" => queues::use_shelf(rt, case),
        "batch" => rounds::poll_one_batch(rt, case),
        "round" => rounds::one_round(rt, case),
        "jobs" => runs::run_jobs_of(rt, case),
        "run" => runs::run_plan(rt, case),
        _ => Err(CallFault::Wrong("no such case")),
    }
}

fn main(rt: HostRuntime) -> io::Result<()> {
    let mut text = String::new(rt.alloc());
    if rt.stdin().read_to_string(&mut text).is_err() {
        return println!(rt; "{SET_UP}: no input");
    }
    let (name, input) = text.split_once('\n').unwrap_or((text.as_str(), ""));
    let mut case = Case {
        alloc: rt.alloc(),
        input,
        call: SET_UP,
    };
    let answer = make(&rt, name, &mut case);
    let call = case.call;
    match answer {
        Ok(made) => println!(rt; "ok\n{made}"),
        Err(CallFault::Refused(fault)) => println!(rt; "{call}: {}", fault.as_str()),
        Err(CallFault::Broken) => println!(rt; "{call}: broken"),
        Err(CallFault::Wrong(what)) => println!(rt; "{call}: wrong: {what}"),
    }
}
