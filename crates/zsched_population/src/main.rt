//! Reads a population from standard input, first its document and then a job a line, runs it a
//! block at a time, and writes its report to standard output. `--jobs A..B` runs a range of jobs,
//! and `--check REPORT..` joins the reports of ranges.
//!
//! A fault is printed to standard error. The exit status is 2 for a rejected line or wrong words, 3
//! if reading or writing failed, 4 without memory or a thread.
#![tactic(auto)]

use std::alloc::Global;
use std::io::ErrorKind;
use std::process::ExitCode;
use std::rt::Env;
use std::{env, fs};
use zs_pool::OpenGate;
use zs_population::{Files, OptionFault, PopulationFault, ReportFault, exit_code, run_words};
use zs_run::{Marked, PlanFault};

// The words after the program's name. Words that aren't text are no options.
fn words(rt: &(impl Env + AllocGlobal)) -> Result<Vec<String>, PopulationFault> {
    let memory = PopulationFault::Line {
        line: 1,
        fault: PlanFault::Memory,
    };
    match env::args(rt) {
        Ok(words) => words.skip(1).collect(rt.alloc()).map_err(|_| memory),
        Err(fault) if fault.kind() == ErrorKind::OutOfMemory => Err(memory),
        Err(_) => Err(PopulationFault::Words(OptionFault::Unknown)),
    }
}

// The files of the runtime.
#[derive(Drop)]
struct HostFiles<'a> {
    rt: &'a HostRuntime,
}

impl Files for HostFiles<'_> {
    ghost use Rattle.std.specs.Prelude.{None};

    ghost contents = { λ _ _. None };

    fn read(&self, alloc: Global, path: &str) -> Result<Vec<u8>, ReportFault> {
        match fs::read(self.rt, path) {
            Ok(bytes) => Ok(bytes),
            Err(fault) if fault.kind() == ErrorKind::OutOfMemory => Err(ReportFault::Memory),
            Err(_) => Err(ReportFault::Read),
        }
    }
}

fn main(rt: HostRuntime) -> ExitCode {
    let mut reader = Marked::new(rt.stdin());
    let mut writer = Marked::new(rt.stdout());
    let ended = match words(&rt) {
        Ok(words) => run_words(
            &rt,
            rt.alloc(),
            &OpenGate,
            words.as_slice(),
            &HostFiles { rt: &rt },
            &mut reader,
            &mut writer,
        ),
        Err(fault) => Err(fault),
    };
    if let Err(fault) = &ended {
        // If standard error fails too, nothing more can be done.
        let _ = eprintln!(rt; "zsched-population: {fault}");
    }
    exit_code(&ended)
}
