//! The timer queue, and the clock.
use super::support::expect_text;
use std::alloc::{Alloc, AllocError, Global};
use std::process::Abort;
use zs_agenda::{Agenda, Clock};

// Sets the timer of a job if it has none and the moment is ahead, and returns whether it did.
fn is_set_now(agenda: &mut Agenda, job: u64, moment: u64) -> bool {
    if agenda.is_set(job) {
        return false;
    }
    match agenda.taken() {
        Some(taken) if moment <= taken => false,
        _ => agenda.set(job, moment).is_ok(),
    }
}

// Sets the timers of these jobs, each to its moment.
fn set_all(rt: &impl Abort, agenda: &mut Agenda, timers: &[(u64, u64)]) {
    for (job, moment) in timers {
        assert!(rt; is_set_now(agenda, *job, *moment));
    }
}

// Whether the jobs 3 and 4 are set, the next moment, and the one that was taken last.
fn state_of(alloc: Global, agenda: &Agenda) -> Result<String, AllocError> {
    let (third, fourth) = (agenda.is_set(3), agenda.is_set(4));
    let (next, taken) = (agenda.next(), agenda.taken());
    format!(in alloc; "{third} {fourth}, {next:?}, {taken:?}")
}

// Takes the next moment with its jobs.
fn taken_of(alloc: Global, agenda: &mut Agenda) -> Result<String, AllocError> {
    match agenda.take() {
        Ok(Some((moment, jobs))) => format!(in alloc; "{moment} {jobs:?}"),
        Ok(None) => String::from_str(alloc, "none"),
        Err(fault) => format!(in alloc; "{fault}"),
    }
}

// What is done with an agenda.
enum AgendaUse<'a> {
    // The timers of these jobs are set, each to its moment.
    Set(&'a [(u64, u64)]),
    // It is in this state.
    State(&'a str),
    // A take returns this.
    Take(&'a str),
}

// Makes a step.
fn make<R: Abort + Alloc<A = Global>>(rt: &R, agenda: &mut Agenda, step: &AgendaUse<'_>, of: &str) {
    let (found, wanted) = match step {
        AgendaUse::Set(timers) => return set_all(rt, agenda, timers),
        AgendaUse::State(wanted) => (state_of(rt.alloc(), agenda), *wanted),
        AgendaUse::Take(wanted) => (taken_of(rt.alloc(), agenda), *wanted),
    };
    let found = found.expect(rt, "memory");
    expect_text(rt, &found, wanted, of);
}

static AGENDAS: [(&str, &[AgendaUse<'static>]); 3] = [
    (
        "jobs_of_one_moment_fire_together_and_may_be_set_again",
        &[
            AgendaUse::Set(&[(3, 50), (1, 50), (2, 70)]),
            AgendaUse::State("true false, Some(50), None"),
            AgendaUse::Take("50 [1, 3]"),
            AgendaUse::State("false false, Some(70), Some(50)"),
            AgendaUse::Set(&[(4, 60), (3, 80)]),
            AgendaUse::Take("60 [4]"),
            AgendaUse::Take("70 [2]"),
            AgendaUse::Take("80 [3]"),
            AgendaUse::Take("none"),
        ],
    ),
    (
        "far_moments_fire_in_order",
        &[
            AgendaUse::Set(&[
                (0, u64::MAX),
                (1, 4096),
                (2, 4095),
                (3, 1),
                (4, 4096),
                (5, 1_000_000_000),
            ]),
            AgendaUse::Take("1 [3]"),
            AgendaUse::Take("4095 [2]"),
            AgendaUse::Take("4096 [1, 4]"),
            AgendaUse::Set(&[(3, 4097)]),
            AgendaUse::Take("4097 [3]"),
            AgendaUse::Take("1000000000 [5]"),
            AgendaUse::Take("18446744073709551615 [0]"),
            AgendaUse::Take("none"),
        ],
    ),
    (
        "any_job_number_can_be_set",
        &[
            AgendaUse::Set(&[(u64::MAX, 7), (10_000, 7), (9_999, 7)]),
            AgendaUse::Take("7 [9999, 10000, 18446744073709551615]"),
        ],
    ),
];

#[test]
fn timers_fire_as_listed(rt: HostRuntime) {
    for (name, steps) in &AGENDAS {
        let mut agenda = Agenda::new(rt.alloc()).expect(&rt, "memory");
        for step in *steps {
            make(&rt, &mut agenda, step, name);
        }
    }
}

// Sets the timers of jobs, each at a separate moment or all at one, and returns the number that
// were set.
fn count_set(agenda: &mut Agenda, jobs: u64, is_shared: bool) -> u64 {
    let mut set = 0u64;
    for job in 0..jobs {
        let moment = if is_shared { jobs } else { job };
        if is_set_now(agenda, job, moment) {
            set = set.saturating_add(1);
        }
    }
    set
}

// Returns the number of jobs that the next take fires.
fn taken_jobs(agenda: &mut Agenda) -> Option<usize> {
    match agenda.take() {
        Ok(Some((_, jobs))) => Some(jobs.len()),
        Ok(None) | Err(_) => None,
    }
}

#[test]
fn twenty_thousand_jobs_can_be_set(rt: HostRuntime) {
    let mut apart = Agenda::new(rt.alloc()).expect(&rt, "memory");
    let set = count_set(&mut apart, 20_000, false);
    let first = taken_jobs(&mut apart);
    drop(apart);
    assert!(rt; set == 20_000 && first == Some(1));
    let mut together = Agenda::new(rt.alloc()).expect(&rt, "memory");
    let set = count_set(&mut together, 20_000, true);
    let first = taken_jobs(&mut together);
    drop(together);
    assert!(rt; set == 20_000 && first == Some(20_000));
}

// The clock's tick at or after each of these moments is as listed.
fn expect_ticks(rt: &impl Abort, clock: &Clock, rows: &[(u64, Option<u64>)]) {
    for (due, wanted) in rows {
        assert!(rt; clock.tick(*due) == *wanted);
    }
}

#[test]
fn a_moment_between_ticks_waits_for_the_next(rt: HostRuntime) {
    let ticks = Vec::from_array(rt.alloc(), [0, 8, 20, 40]).expect(&rt, "memory");
    let clock = Clock::of_ticks(ticks).expect(&rt, "a fit list");
    assert!(rt; clock.horizon() == 40);
    let rows = [(0, Some(0)), (9, Some(20)), (40, Some(40)), (41, None)];
    expect_ticks(&rt, &clock, &rows);
}

// A name, a list of ticks, and whether it may be a clock's.
type TickList<'a> = (&'a str, &'a [u64], &'a str);

static TICKS: [TickList<'static>; 6] = [
    ("no tick", &[], "unfit"),
    ("one", &[5], "fit"),
    ("two that are equal", &[5, 5], "unfit"),
    ("one that falls", &[5, 6, 4], "unfit"),
    ("the greatest", &[0, 999_999_999_999_999], "fit"),
    ("one too great", &[0, 1_000_000_000_000_000], "unfit"),
];

// Whether a list may be a clock's.
fn fitness(alloc: Global, ticks: &[u64]) -> Result<&'static str, AllocError> {
    let list = Vec::from_slice(alloc, ticks)?;
    Ok(match Clock::of_ticks(list) {
        Some(_clock) => "fit",
        None => "unfit",
    })
}

#[test]
fn a_list_of_ticks_rises_and_has_its_limits(rt: HostRuntime) {
    for (name, ticks, wanted) in &TICKS {
        let found = fitness(rt.alloc(), ticks).expect(&rt, "memory");
        expect_text(&rt, found, wanted, name);
    }
}

// Makes a list of the milliseconds below a number.
fn milliseconds(alloc: Global, count: u64) -> Result<Vec<u64>, AllocError> {
    let mut ticks = Vec::new(alloc);
    for tick in 0..count {
        ticks.push(tick)?;
    }
    Ok(ticks)
}

// Whether that list of `count` moments may be a clock's.
fn is_list(alloc: Global, count: u64) -> Result<bool, AllocError> {
    let ticks = milliseconds(alloc, count)?;
    Ok(Clock::of_ticks(ticks).is_some())
}

#[test]
fn a_list_has_at_most_a_million_ticks(rt: HostRuntime) {
    let most = is_list(rt.alloc(), 1_000_000).expect(&rt, "memory");
    let more = is_list(rt.alloc(), 1_000_001).expect(&rt, "memory");
    assert!(rt; most && !more);
}

// Returns the number of ticks below a number.
fn ticks_below(clock: &Clock, count: u64) -> u64 {
    let mut found = 0u64;
    for due in 0..count {
        if clock.tick(due) == Some(due) {
            found = found.saturating_add(1);
        }
    }
    found
}

// A body that looked at each tick in turn would look at 500,000 on average, and wouldn't end in a
// test's time.
#[test]
fn each_tick_of_a_full_list_is_found(rt: HostRuntime) {
    let ticks = milliseconds(rt.alloc(), 1_000_000).expect(&rt, "memory");
    let clock = Clock::of_ticks(ticks).expect(&rt, "a fit list");
    let found = ticks_below(&clock, 1_000_000);
    assert!(rt; found == 1_000_000);
}
