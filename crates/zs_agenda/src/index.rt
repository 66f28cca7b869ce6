//! The steps on the two ordered maps of a timer queue: from each moment to its rising list of jobs,
//! and from each job to its moment.
ghost use Rattle.std.specs.Prelude.{◌≡◌, ◌≤◌, [], ◌∷◌, nat_lt, vec_len, IfSome, IfOk, OnOk, OnErr};
ghost use Rattle.std.specs.List.{prefix_len};
ghost use Rattle.std.specs.Ordering.{nat_cmp};
ghost use Rattle.std.specs.Vec.{vec_capacity};
ghost use Rattle.std.specs.BTreeMap.{get};
ghost use Rattle.zs_agenda.specs.Indexes.{Adds, AreAll, Forgets, HasNoRoom, HasSameJobs, HasSameMoments, IsRising, Puts, jobs_at, placed};

use std::alloc::{AllocError, Global};
use std::collections::BTreeMap;
use std::collections::btree_map::Entry;

// Returns the number of jobs before a job that is to be added.
fn place_of(jobs: &[u64], job: u64) -> usize
    requires rising { IsRising jobs.now }
    ensures value { result ≡ prefix_len (λ other. nat_lt other job) jobs.now }
{
    // Most jobs come in rising number.
    if let Some(last) = jobs.last()
        && *last < job
    {
        return jobs.len();
    }
    // A binary search.
    jobs.partition_point(|other| *other < job)
}

// Inserts a job at its place in a rising list.
fn put_in_order(jobs: &mut Vec<u64>, job: u64) -> Result<(), AllocError>
    requires rising { IsRising jobs.old.items }
    ensures ok { OnOk result (jobs.new.items ≡ placed job jobs.old.items) }
    ensures err { OnErr result (jobs.new.items ≡ jobs.old.items) }
    ensures full { OnErr result (vec_capacity jobs.old ≤ vec_len jobs.old) }
{
    let place = place_of(jobs, job);
    jobs.insert(place, job)?;
    Ok(())
}

// Adds a job at a moment, whose jobs are rising. It fails only if the moment has no list, or a full
// one.
pub(crate) fn add(
    alloc: Global,
    by_moment: &mut BTreeMap<u64, Vec<u64>>,
    moment: u64,
    job: u64,
) -> Result<(), AllocError>
    requires rising { IfSome (jobs_at by_moment.old moment) IsRising }
    ensures ok { OnOk result (Adds by_moment.old by_moment.new moment job) }
    ensures err { OnErr result (HasSameJobs by_moment.old by_moment.new) }
    ensures full { OnErr result (HasNoRoom (get nat_cmp by_moment.old moment)) }
{
    match by_moment.entry(moment)? {
        Entry::Occupied(entry) => put_in_order(entry.into_mut(), job),
        Entry::Vacant(entry) => {
            entry.insert(Vec::from_array(alloc, [job])?);
            Ok(())
        }
    }
}

// Stores the moment of a job that has none.
pub(crate) fn put(by_job: &mut BTreeMap<u64, u64>, job: u64, moment: u64) -> Result<(), AllocError>
    ensures ok { OnOk result (Puts by_job.old by_job.new job moment) }
    ensures err { OnErr result (HasSameMoments by_job.old by_job.new) }
{
    by_job.insert(job, moment)?;
    Ok(())
}

// Removes the moments of these jobs. It takes no memory.
pub(crate) fn forget(by_job: &mut BTreeMap<u64, u64>, jobs: &[u64])
    ensures forgets { Forgets by_job.old by_job.new jobs.now }
{
    for job in jobs {
        by_job.remove(job);
    }
}

// Removes the moments of the jobs of a moment that was taken out: all, if no other moment is left.
pub(crate) fn forget_first(
    by_moment: &BTreeMap<u64, Vec<u64>>,
    by_job: &mut BTreeMap<u64, u64>,
    jobs: &[u64],
)
    requires all { AreAll by_moment.now by_job.old jobs.now }
    ensures forgets { Forgets by_job.old by_job.new jobs.now }
{
    if by_moment.is_empty() {
        by_job.clear();
    } else {
        forget(by_job, jobs);
    }
}
