//! Jobs, made from rows of tables.
ghost use Rattle.std.specs.Prelude.{◌≡◌, IfOk};

use std::alloc::Global;
use std::test::Fail;
use zs_drive::{Job, Mode};
use zs_effect::{Beat, Outcome, Script};
use zs_term::read;

/// A job of a table: its name, mode, schedule, start and entries.
pub type Listed<'a> = (&'a str, Mode, &'a str, u64, &'a [Beat]);

/// Makes that job.
pub fn job_of(alloc: Global, row: Listed<'_>) -> Result<Job, Fail>
    ensures start { IfOk result (λ job. job.start ≡ row.entry.3) }
{
    let (name, mode, schedule, start, beats) = row;
    let script = Script::new(Vec::from_slice(alloc, beats)?)?;
    let schedule = read(alloc, schedule)?;
    let name = String::from_str(alloc, name)?;
    Ok(Job {
        name,
        mode,
        schedule,
        start,
        script,
    })
}

/// Makes such jobs.
pub fn jobs_of(alloc: Global, rows: &[Listed<'_>]) -> Result<Vec<Job>, Fail> {
    let mut jobs = Vec::new(alloc);
    for row in rows {
        jobs.push(job_of(alloc, *row)?)?;
    }
    Ok(jobs)
}

/// A failure after 5 ms, and a success 5 ms later.
pub const TWICE: [Beat; 2] = [
    Beat {
        ms: 5,
        outcome: Outcome::Bad(7),
    },
    Beat {
        ms: 5,
        outcome: Outcome::Good(1),
    },
];

/// A retry that fails after 5 ms, and succeeds 5 ms later.
pub fn retried(name: &str, start: u64) -> Listed<'_>
    ensures start { result.3 ≡ start }
{
    (name, Mode::Retry, "recurs(3)", start, &TWICE)
}
