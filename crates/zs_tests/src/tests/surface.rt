//! The public types and calls of the crates that run jobs: each field and each argument is passed
//! with its type, so that another type doesn't compile.
ghost use Rattle.std.specs.Prelude.{◌≡◌, ◌≤◌, ◌<◌, ◌*◌, false, length, map, All, IfOk};
ghost use Rattle.std.specs.List.Sorted.{IsStrictlyIncreasing};
ghost use Rattle.zs_pool.specs.Batches.{AreNumbered};
ghost use Rattle.zs_pool.specs.Rounds.{IsPollable};

use super::pool::new_tasks;
use super::support::expect_text;
use std::alloc::{Alloc, AllocError, Global};
use std::process::Abort;
use std::sync::Wait;
use std::test::Fail;
use std::thread::Threads;
use zs_agenda::Clock;
use zs_drive::{Job, Task};
use zs_effect::ScriptFault;
use zs_engine::{Answer, EngineFault, run_jobs};
use zs_pool::{
    Batch, Board, BoardPass, Cut, Gate, OpenGate, Polled, PoolFault, Shelf, ShelfPass, Tally,
    TallySeat, poll_batch, round,
};
use zs_run::{
    Drain, Failed, Marked, Plan, PlanFault, RunFault, Source, read_plan, report, run, status,
};
use zs_term::{NoMemory, TermFault};

// A batch, from its fields.
fn batch_of(number: u64, tasks: Vec<Task>) -> Batch
    ensures number { result.number ≡ number }
{
    Batch { number, tasks }
}

// A polled batch without tasks, from its fields.
fn polled_of(alloc: Global, number: u64, now: u64) -> Polled {
    let tasks: Vec<Task> = Vec::new(alloc);
    Polled { number, now, tasks }
}

// One batch without tasks.
fn one_batch(alloc: Global) -> Result<Vec<Batch>, AllocError>
    ensures numbered { IfOk result (λ batches. AreNumbered batches.items) }
{
    Ok(Vec::from_array(alloc, [batch_of(0, Vec::new(alloc))])?)
}

// Claims a batch. Callers know only the pass and its share afterwards.
fn claim<R: Wait>(rt: &R, board: &Board, pass: &mut BoardPass) -> Option<Batch>
    requires board { pass.old.board ≡ board.now }
    ensures board { pass.new.board ≡ board.now }
    ensures share { pass.new.share ≡ pass.old.share }
{
    match board.claim(rt, pass) {
        Some(batch) => Some(batch),
        None => None,
    }
}

// A board of one batch, by each of its calls: the number claimed, and how many remain.
fn use_board<R: Wait>(rt: &R, alloc: Global) -> Result<(Option<u64>, usize), Fail> {
    let made: Result<(Board, BoardPass), PoolFault> = Board::new(rt, alloc, one_batch(alloc)?);
    let (board, pass) = made?;
    let split: Result<(BoardPass, BoardPass), (BoardPass, PoolFault)> = board.split(
        rt, alloc, pass,
    );
    let Ok((mut first, second)) = split else {
        unreachable!()
    };
    let claimed: Option<Batch> = claim(rt, &board, &mut first);
    let number = match claimed {
        Some(batch) => Some(batch.number),
        None => None,
    };
    let pass: BoardPass = board.join(rt, first, second);
    let left: Result<Vec<Batch>, PoolFault> = board.close(rt, alloc, pass);
    Ok((number, left?.len()))
}

#[test]
fn a_board_has_its_calls(rt: HostRuntime) -> Result<(), Fail> {
    assert!(rt; use_board(&rt, rt.alloc())? == (Some(0), 0));
    Ok(())
}

// Puts a polled batch. Callers know only the pass and its share afterwards.
fn put<R: Wait>(
    rt: &R,
    shelf: &Shelf,
    pass: &mut ShelfPass,
    polled: Polled,
) -> Result<(), (Polled, PoolFault)>
    requires shelf { pass.old.shelf ≡ shelf.now }
    ensures shelf { pass.new.shelf ≡ shelf.now }
    ensures share { pass.new.share ≡ pass.old.share }
{
    match shelf.put(rt, pass, polled) {
        Ok(()) => Ok(()),
        Err(refused) => Err(refused),
    }
}

// Takes a polled batch, in the same way.
fn take<R: Wait>(rt: &R, shelf: &Shelf, pass: &mut ShelfPass) -> Option<Polled>
    requires shelf { pass.old.shelf ≡ shelf.now }
    ensures shelf { pass.new.shelf ≡ shelf.now }
    ensures share { pass.new.share ≡ pass.old.share }
{
    match shelf.take(rt, pass) {
        Some(polled) => Some(polled),
        None => None,
    }
}

// What a shelf for one batch returns: a second one with the fault, the number and the moment of the
// one that is taken, and how many remain.
fn use_shelf<R: Wait>(
    rt: &R,
    alloc: Global,
) -> Result<(Option<(u64, PoolFault)>, Option<(u64, u64)>, usize), Fail> {
    let made: Result<(Shelf, ShelfPass), PoolFault> = Shelf::new(rt, alloc, 1u64);
    let (shelf, pass) = made?;
    let split: Result<(ShelfPass, ShelfPass), (ShelfPass, PoolFault)> = shelf.split(
        rt, alloc, pass,
    );
    let Ok((mut first, mut second)) = split else {
        unreachable!()
    };
    let _ = put(rt, &shelf, &mut second, polled_of(alloc, 7, 5));
    let refused = match put(rt, &shelf, &mut first, polled_of(alloc, 8, 5)) {
        Ok(()) => None,
        Err((back, fault)) => Some((back.number, fault)),
    };
    let taken = match take(rt, &shelf, &mut first) {
        Some(polled) => Some((polled.number, polled.now)),
        None => None,
    };
    let pass: ShelfPass = shelf.join(rt, first, second);
    let left: Result<Vec<Polled>, PoolFault> = shelf.close(rt, alloc, pass);
    Ok((refused, taken, left?.len()))
}

#[test]
fn a_shelf_has_its_calls(rt: HostRuntime) -> Result<(), Fail> {
    let (refused, taken, left) = use_shelf(&rt, rt.alloc())?;
    assert!(rt; refused == Some((8, PoolFault::Full)));
    assert!(rt; (taken, left) == (Some((7, 5)), 0));
    Ok(())
}

// A tally of one count, by each of its calls: what it saw, what it may still count, and all counts.
fn use_tally(alloc: Global) -> Result<(u64, u64, u64), Fail> {
    let made: Result<(Tally, TallySeat), PoolFault> = Tally::new(alloc);
    let (tally, seat) = made?;
    let (mut first, mut second): (TallySeat, TallySeat) = tally.split(seat, 2u64);
    tally.count(&mut second);
    let seen: u64 = tally.seen(&mut first);
    let left: u64 = Tally::left(&second);
    let seat: TallySeat = tally.join(first, second);
    let all: u64 = tally.close(seat);
    Ok((seen, left, all))
}

#[test]
fn a_tally_has_its_calls(rt: HostRuntime) -> Result<(), Fail> {
    assert!(rt; use_tally(rt.alloc())? == (1, 1, 1));
    Ok(())
}

// A gate, with the types of what it is passed.
#[derive(Clone, Copy)]
struct Closed;

impl Gate for Closed {
    fn pass(&self, job: u64, now: u64, done: u64) {
        let _passed: (u64, u64, u64) = (job, now, done);
    }
}

// `poll_batch`, with the types of its arguments and result.
fn poll<R>(
    rt: &R,
    alloc: Global,
    tally: &Tally,
    seat: &mut TallySeat,
    now: u64,
    batch: Batch,
) -> Result<Polled, PoolFault>
    requires tally { seat.old.tally ≡ tally.now }
    requires allowance { length batch.tasks ≤ seat.old.allowance }
    requires pollable { All (IsPollable now) batch.tasks }
{
    poll_batch(rt, alloc, &Closed, tally, seat, now, batch)
}

// `round`, in the same way.
fn poll_all<R: Threads + Wait + Sync>(
    rt: &R,
    alloc: Global,
    cut: Cut,
    tally: &Tally,
    seat: &mut TallySeat,
    now: u64,
    tasks: Vec<Task>,
) -> Result<Vec<Task>, PoolFault>
    requires few { length tasks.items ≤ 10000 }
    requires rising { IsStrictlyIncreasing (map (λ task. task.number) tasks.items) }
    requires pollable { All (IsPollable now) tasks.items }
    requires tally { seat.old.tally ≡ tally.now }
    requires allowance { cut.workers * length tasks.items ≤ seat.old.allowance }
{
    round(rt, alloc, cut, &Closed, tally, seat, now, tasks)
}

// Polls a batch of two tasks: returns its fields, and whether it is broken.
fn poll_two<R>(rt: &R, alloc: Global) -> Result<(u64, u64, usize, bool), Fail> {
    let tasks = new_tasks(alloc, 2, 3)?;
    let (tally, mut seat) = Tally::new(alloc)?;
    let batch = Batch { number: 4, tasks };
    let polled = poll(rt, alloc, &tally, &mut seat, 3, batch)?;
    let broken: bool = polled.broken();
    let Polled { number, now, tasks } = polled;
    Ok((number, now, tasks.len(), broken))
}

#[test]
fn a_polled_batch_has_its_number_moment_and_tasks(rt: HostRuntime) -> Result<(), Fail> {
    assert!(rt; poll_two(&rt, rt.alloc())? == (4, 3, 2, false));
    Ok(())
}

#[test]
fn a_cut_has_limits(rt: HostRuntime) {
    for (workers, grain) in [(0u64, 1u64), (65, 1), (1, 0), (1, 10001)] {
        assert!(rt; Cut::new(workers, grain).is_none());
    }
    for (workers, grain) in [(1u64, 1u64), (64, 1), (1, 10000), (64, 10000)] {
        let cut: Option<Cut> = Cut::new(workers, grain);
        let cut: Cut = cut.expect(&rt, "within the limits");
        let found: (u64, u64) = (cut.workers(), cut.grain());
        assert!(rt; found == (workers, grain));
    }
}

// A plan and the result of a run, from their fields.
fn plan_of(clock: Clock, cut: Cut, jobs: Vec<Job>) -> Plan {
    Plan { clock, cut, jobs }
}

fn answer_of(tasks: Vec<Task>, polls: u64, horizon: u64) -> Answer {
    Answer {
        tasks,
        polls,
        horizon,
    }
}

// `run_jobs`, with the types of its arguments and result.
fn ran<R: Threads + Wait + Sync>(
    rt: &R,
    alloc: Global,
    cut: Cut,
    clock: Clock,
    jobs: Vec<Job>,
) -> Result<Answer, EngineFault>
    requires few { length jobs.items ≤ 10000 }
{
    run_jobs(rt, alloc, cut, &OpenGate, clock, jobs)
}

/// Runs the jobs of a plan up to its horizon, and reports them.
pub fn reported<R: Threads + Wait + Sync>(
    rt: &R,
    alloc: Global,
    plan: &[u8],
) -> Result<String, Fail> {
    let plan: Result<Plan, PlanFault> = read_plan(alloc, plan);
    let Plan { clock, cut, jobs } = plan?;
    let answer: Answer = ran(rt, alloc, cut, clock, jobs)?;
    let text: Result<String, NoMemory> = report(alloc, &answer);
    drop(answer);
    Ok(text?)
}

// The horizon, the cut and the number of jobs of a plan, and its report if no job was polled.
fn unpolled<R: Abort>(rt: &R, alloc: Global) -> Result<(u64, u64, usize, String), Fail> {
    let clock = Clock::every_ms(9).expect(rt, "within the limit");
    let cut = Cut::new(2, 3).expect(rt, "within the limits");
    let plan = plan_of(clock, cut, Vec::new(alloc));
    let text = report(alloc, &answer_of(Vec::new(alloc), 8, 9))?;
    Ok((
        plan.clock.horizon(),
        plan.cut.grain(),
        plan.jobs.len(),
        text,
    ))
}

#[test]
fn a_plan_and_its_answer_have_their_parts(rt: HostRuntime) -> Result<(), Fail> {
    let (horizon, grain, jobs, text) = unpolled(&rt, rt.alloc())?;
    assert!(rt; (horizon, grain, jobs) == (9, 3, 0));
    expect_text(&rt, &text, "polls 8\n", "no jobs");
    Ok(())
}

// The calls of a reader and of a writer, with the types of their arguments and results.
fn pull<S: Source>(source: &mut S, buf: &mut [u8]) -> Result<usize, Failed>
    requires room { 0 < length buf.old }
{
    source.pull(buf)
}

fn give<D: Drain>(drain: &mut D, buf: &[u8]) -> Result<usize, Failed>
    requires room { 0 < length buf.now }
{
    drain.give(buf)
}

fn flush<D: Drain>(drain: &mut D) -> Result<(), Failed> {
    drain.flush()
}

fn marks<S: Source, D: Drain>(source: &S, drain: &D) -> (bool, bool) {
    (source.failed(), drain.failed())
}

// Copies three bytes from a reader of `std` to a writer of `std`.
fn copy_three(text: &str, written: &mut Vec<u8>) -> (bool, bool, bool, bool, bool) {
    let mut reader: Marked<&[u8]> = Marked::new(text.as_bytes());
    let mut writer: Marked<&mut Vec<u8>> = Marked::new(written);
    let mut buf = [0u8; 3];
    let pulled = pull(&mut reader, &mut buf).is_ok();
    let given = give(&mut writer, &buf).is_ok();
    let flushed = flush(&mut writer).is_ok();
    let (read, wrote) = marks(&reader, &writer);
    (pulled, given, flushed, read, wrote)
}

#[test]
fn a_reader_and_a_writer_have_their_calls(rt: HostRuntime) {
    let mut written: Vec<u8> = Vec::new(rt.alloc());
    let ended = copy_three("plan", &mut written);
    assert!(rt; ended == (true, true, true, false, false));
    assert!(rt; written.as_slice() == "pla".as_bytes());
}

// `run`, with the types of its arguments and result.
fn run_all<T: Threads + Wait + Sync, G: Gate, R: Source, W: Drain>(
    rt: &T,
    alloc: Global,
    gate: &G,
    reader: &mut R,
    writer: &mut W,
) -> Result<(), RunFault>
    requires reader_clear { R.mark reader.old ≡ false }
    requires writer_clear { W.mark writer.old ≡ false }
{
    run(rt, alloc, gate, reader, writer)
}

// A fault of a run, its exit status, and its text.
static RUN_FAULTS: [(RunFault, u8, &'static str); 4] = [
    (RunFault::Read, 3, "read failed"),
    (RunFault::Write { sent: 7 }, 3, "write failed after 7 bytes"),
    (RunFault::Engine(EngineFault::Memory), 4, "out of memory"),
    (RunFault::Engine(EngineFault::NoThread), 4, "no thread"),
];

// A fault of a plan, and its text.
static PLAN_FAULTS: [(PlanFault, &'static str); 13] = [
    (PlanFault::TooLong, "plan is longer than 16777216 bytes"),
    (PlanFault::Json, "plan is not JSON"),
    (PlanFault::Shape { job: None }, "plan: wrong shape"),
    (PlanFault::Shape { job: Some(9) }, "job 9: wrong shape"),
    (PlanFault::UnknownKey { job: None }, "plan: unknown key"),
    (PlanFault::UnknownKey { job: Some(9) }, "job 9: unknown key"),
    (PlanFault::Range { job: None }, "plan: out of range"),
    (PlanFault::Range { job: Some(9) }, "job 9: out of range"),
    (PlanFault::Name { job: 12 }, "job 12: bad name"),
    (PlanFault::SameName { job: 12 }, "job 12: name used before"),
    (
        PlanFault::Schedule {
            job: 0,
            fault: TermFault::NoTerm { at: 23 },
        },
        "job 0: schedule: no term at byte 23",
    ),
    (
        PlanFault::Script {
            job: 3,
            fault: ScriptFault::ZeroMs,
        },
        "job 3: script: an entry takes 0 ms",
    ),
    (PlanFault::Memory, "out of memory"),
];

// A fault of a run has this exit status and this text.
fn expect_fault<R: Abort + Alloc<A = Global>>(rt: &R, fault: &RunFault, number: u8, wanted: &str) {
    let found = format!(in rt.alloc(); "{fault}").expect(rt, "memory");
    expect_text(rt, &found, wanted, "a fault");
    let status: u8 = status(fault);
    assert!(rt; status == number, "{wanted}");
}

#[test]
fn each_fault_has_its_text_and_exit_status(rt: HostRuntime) {
    for (fault, number, wanted) in &RUN_FAULTS {
        expect_fault(&rt, fault, *number, wanted);
    }
    for (fault, wanted) in &PLAN_FAULTS {
        let number = if *fault == PlanFault::Memory { 4 } else { 2 };
        expect_fault(&rt, &RunFault::Plan(*fault), number, wanted);
    }
}

#[test]
fn each_fault_has_its_text(rt: HostRuntime) -> Result<(), Fail> {
    let (memory, thread, full) = (PoolFault::Memory, PoolFault::NoThread, PoolFault::Full);
    let (of_run, no_thread) = (EngineFault::Memory, EngineFault::NoThread);
    let found = format!(in rt.alloc(); "{memory}, {thread}, {full}; {of_run}, {no_thread}")?;
    let wanted = "out of memory, no thread, the shelf is full; out of memory, no thread";
    expect_text(&rt, &found, wanted, "the faults");
    Ok(())
}
