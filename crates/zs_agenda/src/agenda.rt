//! A timer queue: which jobs wait for which moment.

ghost use Rattle.std.specs.Prelude.{◌≡◌, ◌↔◌, None, IsOk, IsNone, IfOk, IfErr, IfSome, IfNone, OnOk, OnErr};
ghost use Rattle.std.specs.FinMap as map;
ghost use Rattle.zs_agenda.specs.declared.fault.AgendaFault.TheVariants.{Memory};

use crate::fault::AgendaFault;
use crate::index::{add, forget, forget_first, put};
use std::alloc::Global;
use std::collections::BTreeMap;
use std::marker::Model;

/// A timer queue: one moment in milliseconds for each job that waits. A job is its number.
#[derive(Drop)]
pub struct Agenda {
    alloc: Global,
    // From each moment to its jobs, in rising number.
    by_moment: BTreeMap<u64, Vec<u64>>,
    // From each job to its moment.
    by_job: BTreeMap<u64, u64>,
    last_taken: Option<u64>,
}

impl Model for Agenda {
    ghost use Rattle.zs_agenda.specs.Timers.{Timers, timers_code};
    ghost use Rattle.zs_agenda.specs.Indexes.{moments_of, IsAgenda};

    ghost Value = { Timers };

    ghost coded = { timers_code };

    ghost view = { λ a. record { moments = moments_of a.by_job; last_taken = a.last_taken } };

    ghost invariant = { λ a. IsAgenda a.by_moment a.by_job a.last_taken };
}

impl Agenda {
    ghost use Rattle.zs_agenda.specs.Timers.{IsAfter, IsLeastMoment, Takes};

    /// Makes a queue without timers, from which no moment was taken. It takes no memory.
    pub fn new(alloc: Global) -> Result<Agenda, AgendaFault>
        ensures succeeds { IsOk result }
        ensures empty { IfOk result
            (λ agenda. agenda ≡ record { moments = map.empty; last_taken = None }) }
        ensures memory { IfErr result (λ fault. fault ≡ Memory) }
    {
        Ok(Agenda {
            alloc,
            by_moment: BTreeMap::new(alloc),
            by_job: BTreeMap::new(alloc),
            last_taken: None,
        })
    }

    /// Arms the timer of a job that has none. The moment, in milliseconds, must be later than the
    /// last one taken. If an allocation fails, it returns `Memory` and the queue is unchanged.
    pub fn set(&mut self, job: u64, moment: u64) -> Result<(), AgendaFault>
        requires absent { map.get self.old.moments job ≡ None }
        requires ahead { IsAfter self.old.last_taken moment }
        ensures ok { OnOk result
            (self.new ≡ record self.old { moments = map.insert self.old.moments job moment }) }
        ensures err { OnErr result (self.new ≡ self.old) }
        ensures memory { IfErr result (λ fault. fault ≡ Memory) }
    {
        put(&mut self.by_job, job, moment)?;
        match add(self.alloc, &mut self.by_moment, moment, job) {
            Ok(()) => Ok(()),
            Err(_) => {
                forget(&mut self.by_job, &[job]);
                Err(AgendaFault::Memory)
            }
        }
    }

    /// Whether the job's timer is armed.
    pub fn is_set(&self, job: u64) -> bool
        ensures value { result ≡ map.contains_key self.now.moments job }
    {
        self.by_job.contains_key(&job)
    }

    /// Returns the last moment that was taken, in milliseconds, if there is one.
    pub fn taken(&self) -> Option<u64>
        ensures value { result ≡ self.now.last_taken }
    {
        // None before the first take.
        self.last_taken
    }

    /// Returns the least moment for which a timer is armed, in milliseconds, or `None`.
    pub fn next(&self) -> Option<u64>
        ensures none { IsNone result ↔ (self.now.moments ≡ map.empty) }
        ensures least { IfSome result (IsLeastMoment self.now.moments) }
        ensures later { IfSome result (IsAfter self.now.last_taken) }
    {
        match self.by_moment.first_key_value() {
            Some((moment, _)) => Some(*moment),
            None => None,
        }
    }

    /// Fires the timers of the least moment. Returns that moment, in milliseconds, with all its
    /// jobs in rising number, or `None` if no timer is armed. It takes no memory.
    pub fn take(&mut self) -> Result<Option<(u64, Vec<u64>)>, AgendaFault>
        ensures succeeds { IsOk result }
        ensures none { IfOk result (λ taken. IsNone taken ↔ (self.old.moments ≡ map.empty)) }
        ensures same { IfOk result (λ taken. IfNone taken (self.new ≡ self.old)) }
        ensures some { IfOk result (λ taken. IfSome taken
            (λ pair. Takes self.old self.new pair.0 pair.1.items)) }
        // What a caller may rely on without `succeeds`, so that a body that allocates may replace
        // this one.
        ensures err { OnErr result (self.new ≡ self.old) }
        ensures memory { IfErr result (λ fault. fault ≡ Memory) }
    {
        let Some((moment, jobs)) = self.by_moment.pop_first() else {
            return Ok(None);
        };
        forget_first(&self.by_moment, &mut self.by_job, &jobs);
        self.last_taken = Some(moment);
        Ok(Some((moment, jobs)))
    }
}
