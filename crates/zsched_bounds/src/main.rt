//! Reads policies from standard input, a line each. Writes what each does for every input to
//! standard output, as a line of JSON.
//!
//! A fault is printed to standard error, and so is that lines are read from a terminal. The exit
//! status is 2 for a rejected line or wrong words, 3 if reading or writing failed, 4 without
//! memory.
#![tactic(auto)]

use std::env;
use std::io::{ErrorKind, IsTerminal};
use std::process::ExitCode;
use std::rt::Env;
use zs_bounds_lines::{BoundsFault, OptionFault, exit_code, reads_lines, run_words};
use zs_run::Marked;

const NOTE: &str = "reads policies from a terminal, one a line; Ctrl-D ends them";

// The words after the program's name. Words that aren't text are no options.
fn words(rt: &(impl Env + AllocGlobal)) -> Result<Vec<String>, BoundsFault> {
    match env::args(rt) {
        Ok(words) => words
            .skip(1)
            .collect(rt.alloc())
            .map_err(|_| BoundsFault::Memory),
        Err(fault) if fault.kind() == ErrorKind::OutOfMemory => Err(BoundsFault::Memory),
        Err(_) => Err(BoundsFault::Words(OptionFault::Unknown)),
    }
}

fn main(rt: HostRuntime) -> ExitCode {
    let mut reader = Marked::new(rt.stdin());
    let mut writer = Marked::new(rt.stdout());
    let ended = match words(&rt) {
        Ok(words) => {
            if reads_lines(words.as_slice()) && rt.stdin().is_terminal() {
                let _ = eprintln!(rt; "zsched-bounds: {NOTE}");
            }
            run_words(rt.alloc(), words.as_slice(), &mut reader, &mut writer)
        }
        Err(fault) => Err(fault),
    };
    if let Err(fault) = &ended {
        // If standard error fails too, nothing more can be done.
        let _ = eprintln!(rt; "zsched-bounds: {fault}");
    }
    exit_code(&ended)
}
