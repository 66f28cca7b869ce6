//! The timer queue: it contains exactly the timers that were armed, also after a call failed.
use crate::ended::{Answer, CallFault, Case, right_if};
use zs_agenda::{Agenda, AgendaFault};

const JOBS: u64 = 40;

// The moment of a job. Each of ten moments has four jobs. Jobs 1, 2 and 3 each get a moment before
// those of all jobs armed so far.
fn moment_of(job: u64) -> u64 {
    1 + job.wrapping_mul(7).wrapping_add(9) % 10
}

/// Arms many timers, and fires all of them. A timer whose call failed is armed again.
pub fn set_and_take(case: &mut Case<'_>) -> Answer {
    let mut agenda = Agenda::new(case.alloc)?;
    case.call = "set";
    let ended = set_all(&mut agenda);
    fire_all(&mut agenda)?;
    drop(agenda);
    ended?;
    Ok(String::new(case.alloc))
}

fn set_all(agenda: &mut Agenda) -> Result<(), CallFault> {
    let mut ended = Ok(());
    for job in 0..JOBS {
        let first = agenda.next();
        if let Err(fault) = set(agenda, job)? {
            let is_as_before = !agenda.is_set(job) && agenda.next() == first;
            right_if(is_as_before, "a refused timer changed the queue")?;
            right_if(set(agenda, job)?.is_ok(), "a second refusal")?;
            ended = Err(CallFault::from(fault));
        }
        right_if(agenda.is_set(job), "not set")?;
    }
    ended
}

// Arms a job's timer, before anything was taken.
fn set(agenda: &mut Agenda, job: u64) -> Result<Result<(), AgendaFault>, CallFault> {
    if agenda.is_set(job) || agenda.taken().is_some() {
        return Err(CallFault::Wrong("set or taken too early"));
    }
    Ok(agenda.set(job, moment_of(job)))
}

// Ten takes, each of four jobs with rising numbers, and one that returns `None`.
fn fire_all(agenda: &mut Agenda) -> Result<(), CallFault> {
    for moment in 1..11u64 {
        let Some((found, jobs)) = agenda.take()? else {
            return Err(CallFault::Wrong("a timer is lost"));
        };
        let is_right = found == moment && jobs.len() == 4 && jobs.is_sorted();
        right_if(is_right, "other timers")?;
        for job in &jobs {
            right_if(moment_of(*job) == moment, "a timer of another moment")?;
        }
    }
    right_if(agenda.take()?.is_none(), "a timer too many")
}
