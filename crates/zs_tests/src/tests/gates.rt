//! Gates that hold threads, for the tests of rounds and of whole runs. A gate can't fail a test, so
//! it counts what went wrong, and stops waiting after `TURNS` looks.
//!
//! Its atomic steps are those of counters and flags that only gates touch: `load`, `store`,
//! `fetch_add`, `fetch_sub`, `fetch_max` and `fetch_or`, all `SeqCst`.
#![tactic(auto)]

use std::alloc::{AllocError, Global};
use std::sync::atomic::{AtomicU64, Ordering};
use std::thread;
use zs_pool::Gate;

/// The number of times that a thread looks for what another does before it stops waiting.
pub const TURNS: u64 = 100_000_000;

/// Yields until the number is at least `wanted`, and returns whether that happened within `TURNS`.
pub fn comes_to(number: &AtomicU64, wanted: u64) -> bool {
    for _ in 0..TURNS {
        if number.load(Ordering::SeqCst) >= wanted {
            return true;
        }
        thread::yield_now();
    }
    false
}

// A counter for each of the moments 0, 5 and 10.
#[derive(Drop)]
struct Moments {
    counters: [AtomicU64; 3],
}

impl Moments {
    fn new() -> Moments {
        Moments {
            counters: [AtomicU64::new(0), AtomicU64::new(0), AtomicU64::new(0)],
        }
    }

    // Counts one more at this moment.
    fn count(&self, now: u64) {
        if let Some(counter) = self.counters.get((now / 5) as usize) {
            counter.fetch_add(1, Ordering::SeqCst);
        }
    }

    // Waits until the counter of this moment is at least `wanted`, and returns whether that
    // happened.
    fn come_to(&self, now: u64, wanted: u64) -> bool {
        match self.counters.get((now / 5) as usize) {
            Some(counter) => comes_to(counter, wanted),
            None => false,
        }
    }
}

/// Holds each pass until `wanted` passes of its moment were entered, and counts those that stopped
/// waiting.
#[derive(Drop)]
pub struct Meeting {
    wanted: u64,
    entered: Moments,
    alone: AtomicU64,
}

impl Meeting {
    /// Makes a gate at which this number of passes meet.
    pub fn of(wanted: u64) -> Meeting {
        Meeting {
            wanted,
            entered: Moments::new(),
            alone: AtomicU64::new(0),
        }
    }

    /// Returns the number of passes that stopped waiting.
    pub fn alone(&self) -> u64 {
        self.alone.load(Ordering::SeqCst)
    }
}

impl Gate for Meeting {
    fn pass(&self, _job: u64, now: u64, _done: u64) {
        self.entered.count(now);
        if !self.entered.come_to(now, self.wanted) {
            self.alone.fetch_add(1, Ordering::SeqCst);
        }
    }
}

/// Holds the pass of one job until the passes of two others of its moment were entered, and records
/// the greatest `done`.
#[derive(Drop)]
pub struct Held {
    job: u64,
    others: Moments,
    alone: AtomicU64,
    done: AtomicU64,
}

impl Held {
    /// Makes a gate that holds this job.
    pub fn job(job: u64) -> Held {
        Held {
            job,
            others: Moments::new(),
            alone: AtomicU64::new(0),
            done: AtomicU64::new(0),
        }
    }

    /// Returns the number of passes that stopped waiting.
    pub fn alone(&self) -> u64 {
        self.alone.load(Ordering::SeqCst)
    }

    /// Returns the greatest number of polls that a pass got.
    pub fn done(&self) -> u64 {
        self.done.load(Ordering::SeqCst)
    }
}

impl Gate for Held {
    fn pass(&self, job: u64, now: u64, done: u64) {
        self.done.fetch_max(done, Ordering::SeqCst);
        if job != self.job {
            self.others.count(now);
        } else if !self.others.come_to(now, 2) {
            self.alone.fetch_add(1, Ordering::SeqCst);
        }
    }
}

/// Lets the passes of jobs go by falling number, and counts those that stopped waiting.
#[derive(Drop)]
pub struct LastFirst {
    jobs: u64,
    gone: AtomicU64,
    alone: AtomicU64,
}

impl LastFirst {
    /// Makes a gate for the jobs below this number.
    pub fn of(jobs: u64) -> LastFirst {
        LastFirst {
            jobs,
            gone: AtomicU64::new(0),
            alone: AtomicU64::new(0),
        }
    }

    /// Returns the number of passes that stopped waiting.
    pub fn alone(&self) -> u64 {
        self.alone.load(Ordering::SeqCst)
    }
}

impl Gate for LastFirst {
    fn pass(&self, job: u64, _now: u64, _done: u64) {
        let before = self.jobs.wrapping_sub(job).wrapping_sub(1);
        if !comes_to(&self.gone, before) {
            self.alone.fetch_add(1, Ordering::SeqCst);
        }
        self.gone.fetch_add(1, Ordering::SeqCst);
    }
}

/// Holds the passes of one job for 10,000 yields.
#[derive(Clone, Copy)]
pub struct Slow {
    /// The job.
    pub job: u64,
}

impl Gate for Slow {
    fn pass(&self, job: u64, _now: u64, _done: u64) {
        if job == self.job {
            for _ in 0..10_000u64 {
                thread::yield_now();
            }
        }
    }
}

/// Counts its passes. Each must be of the next job in turn, and get the number of passes before it
/// as the polls so far.
#[derive(Drop)]
pub struct OneByOne {
    jobs: u64,
    passes: AtomicU64,
    wrong: AtomicU64,
}

impl OneByOne {
    /// Makes a gate for the jobs below this number.
    pub fn of(jobs: u64) -> OneByOne {
        OneByOne {
            jobs,
            passes: AtomicU64::new(0),
            wrong: AtomicU64::new(0),
        }
    }

    /// Returns the number of passes.
    pub fn passes(&self) -> u64 {
        self.passes.load(Ordering::SeqCst)
    }

    /// Returns the number of passes out of turn, or with another number of polls.
    pub fn wrong(&self) -> u64 {
        self.wrong.load(Ordering::SeqCst)
    }
}

impl Gate for OneByOne {
    fn pass(&self, job: u64, _now: u64, done: u64) {
        let before = self.passes.fetch_add(1, Ordering::SeqCst);
        if Some(job) != before.checked_rem(self.jobs) || done != before {
            self.wrong.fetch_add(1, Ordering::SeqCst);
        }
    }
}

/// Holds the first pass of one job, at moment 0, until those of some others were entered, and
/// records the jobs entered by then. A set of jobs has the bit 2^k for the job k.
#[derive(Drop)]
pub struct Apart {
    job: u64,
    others: u64,
    entered: AtomicU64,
    by_then: AtomicU64,
}

impl Apart {
    /// Makes a gate that holds a job until a set of others was entered.
    pub fn of(job: u64, others: u64) -> Apart {
        Apart {
            job,
            others,
            entered: AtomicU64::new(0),
            by_then: AtomicU64::new(0),
        }
    }

    /// Returns the jobs that were entered when the held one went on, with that one.
    pub fn by_then(&self) -> u64 {
        self.by_then.load(Ordering::SeqCst)
    }

    // Returns the jobs that were entered when all of the others were, or after `TURNS` looks.
    fn wait(&self) -> u64 {
        for _ in 0..TURNS {
            let entered = self.entered.load(Ordering::SeqCst);
            if entered & self.others == self.others {
                return entered;
            }
            thread::yield_now();
        }
        self.entered.load(Ordering::SeqCst)
    }
}

impl Gate for Apart {
    fn pass(&self, job: u64, now: u64, _done: u64) {
        if now == 0 {
            let bit = 1u64.wrapping_shl((job % 64) as u32);
            self.entered.fetch_or(bit, Ordering::SeqCst);
            if job == self.job {
                self.by_then.store(self.wait(), Ordering::SeqCst);
            }
        }
    }
}

/// Holds each pass of moment 0 until `wanted` passes are inside at once, and then for 1,000 yields.
/// Counts those that stopped waiting, and records the greatest number inside.
#[derive(Drop)]
pub struct Crowd {
    wanted: u64,
    inside: AtomicU64,
    most: AtomicU64,
    alone: AtomicU64,
}

impl Crowd {
    /// Makes a gate for this number of passes at once.
    pub fn of(wanted: u64) -> Crowd {
        Crowd {
            wanted,
            inside: AtomicU64::new(0),
            most: AtomicU64::new(0),
            alone: AtomicU64::new(0),
        }
    }

    /// Returns the greatest number of passes that were inside at once.
    pub fn most(&self) -> u64 {
        self.most.load(Ordering::SeqCst)
    }

    /// Returns the number of passes that stopped waiting.
    pub fn alone(&self) -> u64 {
        self.alone.load(Ordering::SeqCst)
    }
}

impl Gate for Crowd {
    fn pass(&self, _job: u64, now: u64, _done: u64) {
        if now == 0 {
            let before = self.inside.fetch_add(1, Ordering::SeqCst);
            self.most
                .fetch_max(before.wrapping_add(1), Ordering::SeqCst);
            if !comes_to(&self.most, self.wanted) {
                self.alone.fetch_add(1, Ordering::SeqCst);
            }
            for _ in 0..1000u64 {
                thread::yield_now();
            }
            self.inside.fetch_sub(1, Ordering::SeqCst);
        }
    }
}

/// Counts the passes that get another moment than that of their round, or a number of polls that
/// can't have been counted. Every `jobs` passes are a round, each 5 ms after the last.
#[derive(Drop)]
pub struct Rounds {
    jobs: u64,
    passes: AtomicU64,
    wrong: AtomicU64,
}

impl Rounds {
    /// Makes a gate for rounds of this number of jobs.
    pub fn of(jobs: u64) -> Rounds {
        Rounds {
            jobs,
            passes: AtomicU64::new(0),
            wrong: AtomicU64::new(0),
        }
    }

    /// Returns the number of passes.
    pub fn passes(&self) -> u64 {
        self.passes.load(Ordering::SeqCst)
    }

    /// Returns the number of passes with a wrong moment or number of polls.
    pub fn wrong(&self) -> u64 {
        self.wrong.load(Ordering::SeqCst)
    }
}

impl Gate for Rounds {
    fn pass(&self, _job: u64, now: u64, done: u64) {
        let before = self.passes.fetch_add(1, Ordering::SeqCst);
        let round = now / 5;
        let earlier = round.wrapping_mul(self.jobs);
        let is_now = before.checked_div(self.jobs) == Some(round) && now % 5 == 0;
        if !is_now || done < earlier || before < done {
            self.wrong.fetch_add(1, Ordering::SeqCst);
        }
    }
}

/// Of three jobs and two threads, holds job 1 until job 0 was entered, and job 0 until job 2 was.
/// So job 2 comes when its thread has polled job 1 and the other thread is at its gate. Counts
/// those that stopped waiting, and records the number of polls that job 2 got.
#[derive(Drop)]
pub struct Chained {
    zero: AtomicU64,
    two: AtomicU64,
    done: AtomicU64,
    alone: AtomicU64,
}

impl Chained {
    /// Makes the gate.
    pub fn new() -> Chained {
        Chained {
            zero: AtomicU64::new(0),
            two: AtomicU64::new(0),
            done: AtomicU64::new(0),
            alone: AtomicU64::new(0),
        }
    }

    /// Returns the number of polls that were counted before job 2 came.
    pub fn done(&self) -> u64 {
        self.done.load(Ordering::SeqCst)
    }

    /// Returns the number of passes that stopped waiting.
    pub fn alone(&self) -> u64 {
        self.alone.load(Ordering::SeqCst)
    }

    // Waits until the job of this counter was entered.
    fn wait(&self, entered: &AtomicU64) {
        if !comes_to(entered, 1) {
            self.alone.fetch_add(1, Ordering::SeqCst);
        }
    }
}

impl Gate for Chained {
    fn pass(&self, job: u64, _now: u64, done: u64) {
        match job {
            0 => {
                self.zero.store(1, Ordering::SeqCst);
                self.wait(&self.two);
            }
            1 => self.wait(&self.zero),
            _ => {
                self.done.store(done, Ordering::SeqCst);
                self.two.store(1, Ordering::SeqCst);
            }
        }
    }
}

// What one pass got. The job is 2^64 - 1 until the pass is entered.
#[derive(Drop)]
struct Entry {
    job: AtomicU64,
    now: AtomicU64,
    done: AtomicU64,
}

/// Records what each pass gets, in the order in which the passes are entered.
#[derive(Drop)]
pub struct Record {
    entered: AtomicU64,
    entries: Vec<Entry>,
}

impl Record {
    /// Makes a record with room for this number of passes.
    pub fn of(alloc: Global, passes: u64) -> Result<Record, AllocError> {
        let mut entries = Vec::new(alloc);
        for _ in 0..passes {
            entries.push(Entry {
                job: AtomicU64::new(u64::MAX),
                now: AtomicU64::new(0),
                done: AtomicU64::new(0),
            })?;
        }
        Ok(Record {
            entered: AtomicU64::new(0),
            entries,
        })
    }

    /// Returns the number of passes, including those without room.
    pub fn passes(&self) -> u64 {
        self.entered.load(Ordering::SeqCst)
    }

    /// Returns the job, the moment and the number of polls that each pass got, in order.
    pub fn told(&self, alloc: Global) -> Result<Vec<(u64, u64, u64)>, AllocError> {
        let mut told = Vec::new(alloc);
        for entry in self.entries.iter() {
            let job = entry.job.load(Ordering::SeqCst);
            let now = entry.now.load(Ordering::SeqCst);
            let done = entry.done.load(Ordering::SeqCst);
            told.push((job, now, done))?;
        }
        Ok(told)
    }

    // Returns the number of passes of a job at a moment.
    fn passes_at(&self, job: u64, now: u64) -> u64 {
        let mut passes = 0u64;
        for entry in self.entries.iter() {
            if entry.job.load(Ordering::SeqCst) == job && entry.now.load(Ordering::SeqCst) == now {
                passes = passes.wrapping_add(1);
            }
        }
        passes
    }

    /// Returns the number of passes that came at an earlier moment than a pass before them, or at
    /// that of another pass of their job, or got fewer polls than the passes at earlier moments, or
    /// more than the passes so far.
    pub fn wrong(&self) -> u64 {
        let (mut wrong, mut latest, mut earlier) = (0u64, 0u64, 0u64);
        for (place, entry) in self.entries.iter().enumerate() {
            let now = entry.now.load(Ordering::SeqCst);
            let done = entry.done.load(Ordering::SeqCst);
            if now > latest {
                latest = now;
                earlier = place as u64;
            }
            let times = self.passes_at(entry.job.load(Ordering::SeqCst), now);
            if now < latest || times > 1 || done < earlier || done > place as u64 {
                wrong = wrong.wrapping_add(1);
            }
        }
        wrong
    }
}

impl Gate for Record {
    fn pass(&self, job: u64, now: u64, done: u64) {
        let place = self.entered.fetch_add(1, Ordering::SeqCst);
        if let Some(entry) = self.entries.get(place as usize) {
            entry.job.store(job, Ordering::SeqCst);
            entry.now.store(now, Ordering::SeqCst);
            entry.done.store(done, Ordering::SeqCst);
        }
    }
}
