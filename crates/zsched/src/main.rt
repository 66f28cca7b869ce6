//! Reads a plan from standard input, runs its jobs, and writes their report to standard output.
//!
//! A fault is printed to standard error. The exit status is 2 for an invalid plan, 3 if reading or
//! writing failed, 4 without memory or a thread.
#![tactic(auto)]

use std::process::ExitCode;
use zs_pool::OpenGate;
use zs_run::{Marked, exit_code, run};

fn main(rt: HostRuntime) -> ExitCode {
    let mut reader = Marked::new(rt.stdin());
    let mut writer = Marked::new(rt.stdout());
    let ended = run(&rt, rt.alloc(), &OpenGate, &mut reader, &mut writer);
    if let Err(fault) = &ended {
        // If standard error fails too, nothing more can be done.
        let _ = eprintln!(rt; "zsched: {fault}");
    }
    exit_code(&ended)
}
